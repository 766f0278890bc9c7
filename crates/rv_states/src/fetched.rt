ghost use Rattle.std.specs.Prelude.{◌++◌, codes, map};
ghost use Rattle.rv_states.specs.Fetched.{fetched_json, next_fetch_text};
ghost use Rattle.rv_states.specs.Json.{also, array};
ghost use Rattle.rv_text.specs.Said.{Says};

use crate::array::{Values, write_array_member};
use crate::json::{Member, Value, write_members, write_object};
use rv_front::{Fetched, Front};
use rv_text::Sink;
use std::io::Write;

// Writes a word of the fetch buffer.
#[tactic(auto, unfolding(crate::specs::Fetched::fetched_json))]
fn write_fetched<W: Write>(out: &mut Sink<'_, W>, word: &Fetched)
    ensures { Says W.contents out.old out.new (fetched_json word.now) }
{
    write_object(
        out,
        "pc",
        u64::from(word.pc),
        &[
            Member::maybe_word("word", word.word),
            Member::number("fetched", word.cycle),
            Member::word("predicted", word.predicted),
        ],
    )
}

/// The words of the fetch buffer, as an array has them.
#[derive(Drop)]
struct FetchedWords<'a> {
    front: &'a Front,
}

impl Values for FetchedWords<'_> {
    ghost use Rattle.std.specs.Prelude.{map};
    ghost use Rattle.rv_states.specs.Fetched.{fetched_json};

    ghost values = { λ words. map fetched_json words.front.now.entries };

    fn count(&self) -> usize {
        self.front.len()
    }

    fn write_value<W: Write>(&self, out: &mut Sink<'_, W>, place: usize) {
        match self.front.get(place) {
            Some(word) => write_fetched(out, word),
            None => {}
        }
    }
}

/// Writes the members that have the fetch buffer, where the fetch goes on, and whether it is halted.
#[tactic(auto, using(rv_text::proofs::Saying::says_both), unfolding(crate::specs::Fetched::next_fetch_text))]
pub fn write_fetch_buffer<W: Write>(out: &mut Sink<'_, W>, front: &Front)
    ensures { Says W.contents out.old out.new
        (also (codes "fetch_buffer") (array (map fetched_json front.now.entries)) ++ next_fetch_text front.now) }
{
    write_array_member(out, "fetch_buffer", &FetchedWords { front });
    write_members(
        out,
        &[
            Member::word("next_fetch", front.next_pc()),
            Member {
                name: "halted",
                value: Value::Truth(front.is_halted()),
            },
        ],
    )
}
