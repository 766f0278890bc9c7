ghost use Rattle.rv_states.specs.Prediction.{asked_json, place_json};
ghost use Rattle.rv_text.specs.Said.{Says};

use crate::json::{Member, write_object};
use rv_text::Sink;
use std::io::Write;

/// Writes a place of a predictor's tables: its counter, and the last target that a JALR of the place had, if there was one.
#[tactic(auto, unfolding(crate::specs::Prediction::place_json))]
pub(crate) fn write_place<W: Write>(
    out: &mut Sink<'_, W>,
    place: usize,
    counter: u8,
    target: Option<u32>,
)
    ensures { Says W.contents out.old out.new (place_json place counter target) }
{
    write_object(
        out,
        "place",
        place as u64,
        &[
            Member::number("counter", u64::from(counter)),
            Member::maybe_word("target", target),
        ],
    )
}

/// Writes a word that a predictor was asked of: its address, its place in the tables, where there are tables, and the answer.
#[tactic(auto, unfolding(crate::specs::Prediction::asked_json))]
pub(crate) fn write_asked<W: Write>(out: &mut Sink<'_, W>, pc: u32, place: Option<u64>, answer: u32)
    ensures { Says W.contents out.old out.new (asked_json pc place answer) }
{
    write_object(
        out,
        "pc",
        u64::from(pc),
        &[
            Member::maybe("place", place),
            Member::word("answer", answer),
        ],
    )
}
