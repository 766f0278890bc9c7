ghost use Rattle.rv_states.specs.Word.{word_text};
ghost use Rattle.rv_text.specs.Said.{Says};

use crate::json::{Member, Value, write_object};
use rv_text::Sink;
use std::io::Write;

/// Writes the line of a word of memory: its address, the word, and whether it was stored to since the last FENCE.I.
#[tactic(auto, using(rv_text::proofs::Saying::says_both), unfolding(crate::specs::Word::word_json, crate::specs::Word::word_text))]
pub fn write_word<W: Write>(out: &mut Sink<'_, W>, address: u32, word: u32, stale: bool)
    ensures { Says W.contents out.old out.new (word_text address word stale) }
{
    write_object(
        out,
        "memory",
        u64::from(address),
        &[
            Member::word("word", word),
            Member {
                name: "stale",
                value: Value::Truth(stale),
            },
        ],
    );
    out.put(b"\n")
}
