ghost use Rattle.std.specs.Prelude.{◌≡◌, ◌==◌};
ghost use Rattle.std.specs.List.{find};
ghost use Rattle.std.specs.Str.{bytes_eq};
ghost use Rattle.rv_isa.specs.Csr.{csr_at, csr_named, row_of};

use Csr::{
    Marchid, Mcause, Mconfigptr, Mepc, Mhartid, Mie, Mimpid, Mip, Misa, Mscratch, Mstatus,
    Mstatush, Mtval, Mtvec, Mvendorid,
};

/// A control and status register of machine mode (Privileged Architecture 20211203, 2.2, tables 2.5
/// and 2.6).
#[derive(Clone, Copy)]
pub enum Csr {
    Mstatus,
    Misa,
    Mie,
    Mtvec,
    Mstatush,
    Mscratch,
    Mepc,
    Mcause,
    Mtval,
    Mip,
    Mvendorid,
    Marchid,
    Mimpid,
    Mhartid,
    Mconfigptr,
}

static CSRS: [Csr; 15] = [
    Mstatus, Misa, Mie, Mtvec, Mstatush, Mscratch, Mepc, Mcause, Mtval, Mip, Mvendorid, Marchid,
    Mimpid, Mhartid, Mconfigptr,
];

// Each register's address and name, in the order of the variants.
static ROWS: [(u32, &str); 15] = [
    (0x300, "mstatus"),
    (0x301, "misa"),
    (0x304, "mie"),
    (0x305, "mtvec"),
    (0x310, "mstatush"),
    (0x340, "mscratch"),
    (0x341, "mepc"),
    (0x342, "mcause"),
    (0x343, "mtval"),
    (0x344, "mip"),
    (0xf11, "mvendorid"),
    (0xf12, "marchid"),
    (0xf13, "mimpid"),
    (0xf14, "mhartid"),
    (0xf15, "mconfigptr"),
];

impl Csr {
    /// The register's address and name.
    pub fn row(self) -> (u32, &'static str)
        ensures address { result.0 ≡ (row_of self).0 }
        ensures name { result.1.now ≡ (row_of self).1 }
    {
        ROWS[self as usize]
    }

    /// The register at an address, or `None` where there is none.
    pub fn at(address: u32) -> Option<Csr>
        ensures { result ≡ csr_at address }
    {
        first_at(&CSRS, address)
    }

    /// The register that a name names, or `None` where there is none.
    pub fn named(name: &[u8]) -> Option<Csr>
        ensures { result ≡ csr_named name.now }
    {
        first_named(&CSRS, name)
    }
}

fn first_at(csrs: &[Csr], address: u32) -> Option<Csr>
    ensures { result ≡ find (λ csr. (row_of csr).0 == address) csrs.now }
{
    for csr in csrs {
        if csr.row().0 == address {
            return Some(*csr);
        }
    }
    None
}

fn first_named(csrs: &[Csr], name: &[u8]) -> Option<Csr>
    ensures { result ≡ find (λ csr. bytes_eq (row_of csr).1 name.now) csrs.now }
{
    for csr in csrs {
        if csr.row().1.as_bytes() == name {
            return Some(*csr);
        }
    }
    None
}
