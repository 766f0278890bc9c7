ghost use Rattle.rv_states.specs.Set.{line_json, lines_text};
ghost use Rattle.rv_text.specs.Said.{Says};

use crate::array::{Values, write_array_member};
use crate::json::{Member, Value, write_begin, write_object};
use rv_cache::CacheLine;
use rv_text::Sink;
use std::io::Write;

/// The lines of a set, as an array has them.
#[derive(Drop)]
struct SetLines<'a> {
    lines: &'a [CacheLine],
}

#[tactic(auto, unfolding(crate::specs::Set::line_json))]
fn write_cache_line<W: Write>(out: &mut Sink<'_, W>, line: &CacheLine)
    ensures { Says W.contents out.old out.new (line_json line.now) }
{
    write_object(
        out,
        "line",
        u64::from(line.number),
        &[Member {
            name: "dirty",
            value: Value::Truth(line.dirty),
        }],
    )
}

impl Values for SetLines<'_> {
    ghost use Rattle.std.specs.Prelude.{map};
    ghost use Rattle.rv_states.specs.Set.{line_json};

    ghost values = { λ s. map line_json s.lines.now };

    fn count(&self) -> usize {
        self.lines.len()
    }

    fn write_value<W: Write>(&self, out: &mut Sink<'_, W>, place: usize) {
        write_cache_line(out, &self.lines[place])
    }
}

/// Writes the line of a set of the cache: its number, and its lines, most recently used first.
#[tactic(auto, using(rv_text::proofs::Saying::says_both), unfolding(crate::specs::Set::lines_text))]
pub fn write_set<W: Write>(out: &mut Sink<'_, W>, set: usize, lines: &[CacheLine])
    ensures { Says W.contents out.old out.new (lines_text set lines.now) }
{
    write_begin(out, "set", set as u64);
    write_array_member(out, "lines", &SetLines { lines });
    out.put(b"}\n")
}
