ghost use Rattle.rv_states.specs.Json.{also};
ghost use Rattle.rv_states.specs.Operand.{known_text, operand_json};
ghost use Rattle.rv_text.specs.Said.{Says};

use crate::json::{write_begin, write_key, write_number};
use rv_isa::Reg;
use rv_stations::Operand;
use rv_text::Sink;
use std::io::Write;

#[tactic(auto, unfolding(crate::specs::Operand::known_text))]
fn write_known<W: Write>(out: &mut Sink<'_, W>, operand: Operand)
    ensures { Says W.contents out.old out.new (known_text operand) }
{
    match operand {
        Operand::Value(value) => write_number(out, "value", u64::from(value)),
        Operand::Tag(number) => write_number(out, "producer", number),
    }
}

/// Writes a member of that name that has a register, and its value or the number of the instruction that gives it.
#[tactic(auto, using(rv_text::proofs::Saying::says_both), unfolding(crate::specs::Json::also, crate::specs::Operand::operand_json))]
pub fn write_operand<W: Write>(out: &mut Sink<'_, W>, name: &str, register: Reg, operand: Operand)
    ensures { Says W.contents out.old out.new (also name.now (operand_json register operand)) }
{
    write_key(out, name);
    write_begin(out, "register", u64::from(register.number()));
    write_known(out, operand);
    out.put(b"}")
}
