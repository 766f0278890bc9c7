ghost use Rattle.std.specs.Prelude.{◌≡◌, ◌%◌, ◌≤◌, IfOk, IfSome, OnErr};

use crate::csr::{CsrOperand, Illegal};
use crate::csr_fields::{
    bit, does_write, has_bit, interrupt_bits, interrupts_of, is_read_only, legal_mepc, legal_mtvec,
    new_value,
};
use rv_isa::{Csr, CsrAddress, CsrOp, Lines};
use std::marker::Model;

/// The causes from here on are those of interrupts (Privileged Architecture 20211203, 3.1.15).
const INTERRUPT: u32 = 0x8000_0000;

/// The control and status registers of machine mode (Privileged Architecture 20211203, 3.1).
///
/// A field of a register that has but one legal value isn't kept. `mtvec` has mode 0 or 1, and
/// `mepc` is a multiple of 4.
#[derive(Clone, Copy)]
pub struct Csrs {
    mstatus_mie: bool,
    mstatus_mpie: bool,
    mie: Lines,
    mtvec: u32,
    mscratch: u32,
    mepc: u32,
    mcause: u32,
    mtval: u32,
}

impl Model for Csrs {
    ghost use Rattle.std.specs.Prelude.{◌≡◌, ◌%◌, ◌<◌};
    ghost use Rattle.rv_arch.specs.Csr.{Kept};

    ghost Value = { Kept };

    ghost view = { λ c. record {
      mstatus_mie = c.mstatus_mie;
      mstatus_mpie = c.mstatus_mpie;
      mie = c.mie;
      mtvec = c.mtvec;
      mscratch = c.mscratch;
      mepc = c.mepc;
      mcause = c.mcause;
      mtval = c.mtval;
    } };

    ghost invariant = { λ c. (c.mtvec % 4 < 2) × (c.mepc % 4 ≡ 0) };

    ghost inverse = { λ k. record {
      mstatus_mie = k.mstatus_mie;
      mstatus_mpie = k.mstatus_mpie;
      mie = k.mie;
      mtvec = k.mtvec;
      mscratch = k.mscratch;
      mepc = k.mepc;
      mcause = k.mcause;
      mtval = k.mtval;
    } };
}

impl Csrs {
    ghost use Rattle.rv_arch.specs.Csr.{mpp_of, mstatus_of, value_of, written, read_at, access};
    ghost use Rattle.rv_arch.specs.Trap.{trapped, returned, handler_of};
    ghost use Rattle.rv_arch.specs.Due.{due};
    ghost use Rattle.rv_arch.specs.Reset.{reset_csrs};

    /// The registers at reset: all that is kept is 0.
    pub fn reset() -> Csrs
        ensures { result ≡ reset_csrs }
    {
        Csrs {
            mstatus_mie: false,
            mstatus_mpie: false,
            mie: Lines::default(),
            mtvec: 0,
            mscratch: 0,
            mepc: 0,
            mcause: 0,
            mtval: 0,
        }
    }

    /// What a register reads. `mip` reads the lines.
    pub fn value(&self, csr: Csr, lines: Lines) -> u32
        ensures { result ≡ value_of self.now lines csr }
    {
        match csr {
            Csr::Mstatus => 0x1800 + bit(self.mstatus_mpie, 7) + bit(self.mstatus_mie, 3),
            Csr::Misa => 0x4000_1100,
            Csr::Mie => interrupt_bits(self.mie),
            Csr::Mtvec => self.mtvec,
            Csr::Mscratch => self.mscratch,
            Csr::Mepc => self.mepc,
            Csr::Mcause => self.mcause,
            Csr::Mtval => self.mtval,
            Csr::Mip => interrupt_bits(lines),
            Csr::Mstatush
            | Csr::Mvendorid
            | Csr::Marchid
            | Csr::Mimpid
            | Csr::Mhartid
            | Csr::Mconfigptr => 0,
        }
    }

    fn write(&mut self, csr: Csr, word: u32)
        ensures { self.new ≡ written self.old csr word }
    {
        match csr {
            Csr::Mstatus => {
                self.mstatus_mie = has_bit(word, 3);
                self.mstatus_mpie = has_bit(word, 7);
            }
            Csr::Mie => self.mie = interrupts_of(word),
            Csr::Mtvec => self.mtvec = legal_mtvec(word),
            Csr::Mscratch => self.mscratch = word,
            Csr::Mepc => self.mepc = legal_mepc(word),
            Csr::Mcause => self.mcause = word,
            Csr::Mtval => self.mtval = word,
            Csr::Misa
            | Csr::Mstatush
            | Csr::Mip
            | Csr::Mvendorid
            | Csr::Marchid
            | Csr::Mimpid
            | Csr::Mhartid
            | Csr::Mconfigptr => {}
        }
    }

    /// What the register at an address reads, or `None` where there is none. `mip` reads the lines.
    pub fn read(&self, address: u32, lines: Lines) -> Option<u32>
        ensures { result ≡ read_at self.now lines address }
    {
        let csr = Csr::at(address)?;
        Some(self.value(csr, lines))
    }

    /// Executes a CSR instruction: the register's old value, for `rd`, once the register is written.
    ///
    /// # Errors
    ///
    /// `Illegal` where there is no such register, or a read-only one would be written. Nothing
    /// changes then.
    pub fn csr_access(
        &mut self,
        op: CsrOp,
        address: CsrAddress,
        source: CsrOperand,
        lines: Lines,
    ) -> Result<u32, Illegal>
        ensures legal { IfOk result (λ old. access self.old lines op address source ≡ Some (old, self.new)) }
        ensures illegal { OnErr result (access self.old lines op address source ≡ None) }
        ensures unchanged { OnErr result (self.new ≡ self.old) }
    {
        let number = address.value();
        let writes = does_write(op, source.field_is_zero);
        if writes && is_read_only(number) {
            return Err(Illegal);
        }
        let Some(csr) = Csr::at(number) else {
            return Err(Illegal);
        };
        let old = self.value(csr, lines);
        if writes {
            self.write(csr, new_value(op, old, source.value));
        }
        Ok(old)
    }

    /// The handler's address for a cause.
    fn handler(&self, cause: u32) -> u32
        ensures address { result ≡ handler_of self.now cause }
        ensures aligned { result % 4 ≡ 0 }
    {
        let base = self.mtvec / 4 * 4;
        if self.mtvec % 4 == 1 && cause >= INTERRUPT {
            base.wrapping_add((cause - INTERRUPT).wrapping_mul(4))
        } else {
            base
        }
    }

    /// Takes a trap at `pc`, and answers the pc of the handler. A cause from 0x80000000 on is an
    /// interrupt's.
    pub fn enter_trap(&mut self, pc: u32, cause: u32, value: u32) -> u32
        ensures handler { result ≡ handler_of self.old cause }
        ensures aligned { result % 4 ≡ 0 }
        ensures kept { self.new ≡ trapped self.old pc cause value }
        ensures mpp { mpp_of (mstatus_of self.new) ≡ 3 }
    {
        self.mstatus_mpie = self.mstatus_mie;
        self.mstatus_mie = false;
        self.mepc = legal_mepc(pc);
        self.mcause = cause;
        self.mtval = value;
        self.handler(cause)
    }

    /// Returns from a trap, and answers the pc that is returned to.
    pub fn mret(&mut self) -> u32
        ensures target { result ≡ self.old.mepc }
        ensures aligned { result % 4 ≡ 0 }
        ensures kept { self.new ≡ returned self.old }
        ensures mpp { mpp_of (mstatus_of self.new) ≡ 3 }
    {
        self.mstatus_mie = self.mstatus_mpie;
        self.mstatus_mpie = true;
        self.mepc
    }

    /// The code of the interrupt that is due with these levels of the lines: 11 external, 3
    /// software, 7 timer, in this order.
    pub fn due_interrupt(&self, lines: Lines) -> Option<u32>
        ensures due { result ≡ due self.now lines }
        ensures code { IfSome result (λ code. code ≤ 11) }
    {
        if !self.mstatus_mie {
            None
        } else if self.mie.external && lines.external {
            Some(11)
        } else if self.mie.software && lines.software {
            Some(3)
        } else if self.mie.timer && lines.timer {
            Some(7)
        } else {
            None
        }
    }
}
