ghost use Rattle.std.specs.Prelude.{◌≡◌, codes};
ghost use Rattle.rv_arch.specs.Csr.{value_of};
ghost use Rattle.rv_states.specs.Json.{also};
ghost use Rattle.rv_states.specs.Registers.{csrs_json, interrupts_text, trap_text};
ghost use Rattle.rv_states.specs.declared.json.Value.TheVariants.{Number};
ghost use Rattle.rv_text.specs.Said.{Says};

use crate::array::Values;
use crate::json::{Member, write_digits, write_front, write_key, write_members};
use rv_arch::Observed;
use rv_isa::Csr;
use rv_text::Sink;
use std::io::Write;

/// Words, as an array has them.
#[derive(Drop)]
pub(crate) struct Words<'a> {
    pub(crate) words: &'a [u32],
}

impl Values for Words<'_> {
    ghost use Rattle.std.specs.Prelude.{map};
    ghost use Rattle.rv_states.specs.Json.{numeral};

    ghost values = { λ w. map numeral w.words.now };

    fn count(&self) -> usize {
        self.words.len()
    }

    fn write_value<W: Write>(&self, out: &mut Sink<'_, W>, place: usize) {
        write_digits(out, u64::from(self.words[place]))
    }
}

// A control and status register.
fn member(name: &'static str, seen: &Observed, csr: Csr) -> Member
    ensures name { result.name.now ≡ name.now }
    ensures value { result.value ≡ Number (value_of seen.now.csrs seen.now.lines csr) }
{
    Member::word(name, seen.csrs.value(csr, seen.lines))
}

#[tactic(auto, unfolding(crate::specs::Registers::interrupts_text))]
fn write_interrupts<W: Write>(out: &mut Sink<'_, W>, seen: &Observed)
    ensures { Says W.contents out.old out.new (interrupts_text seen.now.csrs seen.now.lines) }
{
    write_front(
        out,
        "mstatus",
        u64::from(seen.csrs.value(Csr::Mstatus, seen.lines)),
        &[
            member("mie", seen, Csr::Mie),
            member("mip", seen, Csr::Mip),
            member("mtvec", seen, Csr::Mtvec),
        ],
    )
}

#[tactic(auto, unfolding(crate::specs::Registers::trap_text))]
fn write_trap<W: Write>(out: &mut Sink<'_, W>, seen: &Observed)
    ensures { Says W.contents out.old out.new (trap_text seen.now.csrs seen.now.lines) }
{
    write_members(
        out,
        &[
            member("mscratch", seen, Csr::Mscratch),
            member("mepc", seen, Csr::Mepc),
            member("mcause", seen, Csr::Mcause),
            member("mtval", seen, Csr::Mtval),
        ],
    )
}

/// Writes the member that has the control and status registers.
#[tactic(auto, using(rv_text::proofs::Saying::says_both), unfolding(crate::specs::Json::also, crate::specs::Registers::csrs_json))]
pub(crate) fn write_csrs<W: Write>(out: &mut Sink<'_, W>, seen: &Observed)
    ensures { Says W.contents out.old out.new (also (codes "csrs") (csrs_json seen.now.csrs seen.now.lines)) }
{
    write_key(out, "csrs");
    write_interrupts(out, seen);
    write_trap(out, seen);
    out.put(b"}")
}
