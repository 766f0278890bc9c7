ghost use Rattle.rv_states.specs.Observed.{observed_text};
ghost use Rattle.rv_text.specs.Said.{Says};

use crate::array::write_array_member;
use crate::json::{Member, Value, write_begin, write_members};
use crate::registers::{Words, write_csrs};
use rv_arch::Observed;
use rv_text::Sink;
use std::io::Write;

/// Writes what retired instructions left, in an object that stays open: the pc, the registers, and the interrupt lines.
#[tactic(auto, using(rv_text::proofs::Saying::says_both), unfolding(crate::specs::Observed::observed_text, crate::specs::Observed::lines_text))]
pub fn write_observed<W: Write>(out: &mut Sink<'_, W>, seen: &Observed)
    ensures { Says W.contents out.old out.new (observed_text seen.now.pc seen.now.regs seen.now.csrs seen.now.lines) }
{
    write_begin(out, "pc", u64::from(seen.pc));
    write_array_member(out, "registers", &Words { words: &seen.regs });
    write_csrs(out, seen);
    write_members(
        out,
        &[
            Member {
                name: "software",
                value: Value::Truth(seen.lines.software),
            },
            Member {
                name: "timer",
                value: Value::Truth(seen.lines.timer),
            },
            Member {
                name: "external",
                value: Value::Truth(seen.lines.external),
            },
        ],
    )
}
