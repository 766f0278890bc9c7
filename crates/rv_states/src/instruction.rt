ghost use Rattle.std.specs.Prelude.{◌≡◌};
ghost use Rattle.rv_states.specs.Instruction.{cost_of, details_text, ended_text, ending_text};
ghost use Rattle.rv_states.specs.Instruction.{instruction_json, passage_text, retired_text, trapped_text};
ghost use Rattle.rv_text.specs.Said.{Says};

use crate::array::Values;
use crate::json::{Member, Value, write_begin, write_members, write_name};
use rv_isa::{Cause, Reg};
use rv_passage::{Ending, Passage};
use rv_text::Sink;
use std::io::Write;

// The cost of its execution, if that began.
fn cost(row: &Passage) -> Option<u64>
    ensures { result ≡ cost_of row.now }
{
    Some(u64::from(row.issue?.cost))
}

#[tactic(auto, unfolding(crate::specs::Instruction::passage_text))]
fn write_passage<W: Write>(out: &mut Sink<'_, W>, row: &Passage)
    ensures { Says W.contents out.old out.new (passage_text row.now) }
{
    write_members(
        out,
        &[
            Member::word("pc", row.pc),
            Member::maybe_word("word", row.word),
            Member::number("fetched", row.fetched),
            Member::maybe("dispatched", row.dispatched),
            Member::maybe("issued", row.issued()),
            Member::maybe("cost", cost(row)),
            Member::maybe("broadcast", row.broadcast),
        ],
    )
}

#[tactic(auto, unfolding(crate::specs::Instruction::retired_text))]
fn write_retired<W: Write>(out: &mut Sink<'_, W>, written: Option<(Reg, u32)>)
    ensures { Says W.contents out.old out.new (retired_text written) }
{
    match written {
        Some((register, word)) => write_members(
            out,
            &[
                Member {
                    name: "end",
                    value: Value::Name("retired"),
                },
                Member::number("register", u64::from(register.number())),
                Member::word("value", word),
            ],
        ),
        None => write_name(out, "end", "retired"),
    }
}

#[tactic(auto, unfolding(crate::specs::Instruction::trapped_text))]
fn write_trapped<W: Write>(out: &mut Sink<'_, W>, cause: Cause)
    ensures { Says W.contents out.old out.new (trapped_text cause) }
{
    write_members(
        out,
        &[
            Member {
                name: "end",
                value: Value::Name("trapped"),
            },
            Member::word("cause", cause.code()),
        ],
    )
}

#[tactic(auto, unfolding(crate::specs::Instruction::squashed_text))]
fn write_ending<W: Write>(out: &mut Sink<'_, W>, ending: Ending)
    ensures { Says W.contents out.old out.new (ending_text ending) }
{
    match ending {
        Ending::InFlight => {}
        Ending::Retired { written, .. } => write_retired(out, written),
        Ending::Trapped { cause, .. } => write_trapped(out, cause),
        Ending::Squashed { .. } => write_name(out, "end", "squashed"),
    }
}

#[tactic(auto, using(rv_text::proofs::Saying::says_both), unfolding(crate::specs::Instruction::ended_text))]
fn write_ended<W: Write>(out: &mut Sink<'_, W>, row: &Passage)
    ensures { Says W.contents out.old out.new (ended_text row.now) }
{
    write_passage(out, row);
    write_ending(out, row.ending)
}

// What became of an instruction, where it left the hardware.
fn write_details<W: Write>(out: &mut Sink<'_, W>, row: &Passage)
    ensures { Says W.contents out.old out.new (details_text row.now) }
{
    if !row.is_in_flight() {
        write_ended(out, row)
    }
}

#[tactic(auto, using(rv_text::proofs::Saying::says_both), unfolding(crate::specs::Instruction::instruction_json))]
fn write_instruction<W: Write>(out: &mut Sink<'_, W>, row: &Passage)
    ensures { Says W.contents out.old out.new (instruction_json row.now) }
{
    write_begin(out, "number", row.number);
    write_details(out, row);
    out.put(b"}")
}

/// The instructions in flight, and those that left the hardware in a cycle, as an array has them.
#[derive(Drop)]
pub struct Instructions<'a> {
    /// In order of fetch.
    pub rows: &'a [Passage],
}

impl Values for Instructions<'_> {
    ghost use Rattle.std.specs.Prelude.{map};
    ghost use Rattle.rv_states.specs.Instruction.{instruction_json};

    ghost values = { λ i. map instruction_json i.rows.now };

    fn count(&self) -> usize {
        self.rows.len()
    }

    fn write_value<W: Write>(&self, out: &mut Sink<'_, W>, place: usize) {
        write_instruction(out, &self.rows[place])
    }
}
