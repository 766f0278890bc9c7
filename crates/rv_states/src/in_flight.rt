ghost use Rattle.std.specs.Prelude.{◌≡◌, ◌+◌, ◌<◌, ◌≤◌, codes, length};
ghost use Rattle.std.specs.List.{flat_map};
ghost use Rattle.rv_states.specs.Cycle.{json_in_flight};
ghost use Rattle.rv_states.specs.Json.{also, array, values_from};
ghost use Rattle.rv_text.specs.Said.{Says};

use crate::array::{Values, write_comma};
use crate::instruction::Instructions;
use crate::json::write_key;
use rv_passage::Passage;
use rv_text::Sink;
use std::io::Write;

// Writes an instruction after so many values of an array, if it is in flight. Answers how many there are then.
fn write_if_in_flight<W: Write>(out: &mut Sink<'_, W>, row: &Passage, written: usize) -> usize
    requires { written < usize.MAX }
    ensures said { Says W.contents out.old out.new (values_from written (json_in_flight row.now)) }
    ensures count { result ≡ written + length (json_in_flight row.now) }
    ensures few { result ≤ written + 1 }
{
    if !row.is_in_flight() {
        return written;
    }
    write_comma(out, written);
    let alone = [*row];
    let instructions = Instructions { rows: &alone };
    instructions.write_value(out, 0);
    written + 1
}

fn write_all_in_flight<W: Write>(out: &mut Sink<'_, W>, rows: &[Passage])
    ensures { Says W.contents out.old out.new (values_from 0 (flat_map json_in_flight rows.now)) }
{
    let mut written = 0;
    for row in rows {
        written = write_if_in_flight(out, row, written);
    }
}

/// Writes the member that has those of the instructions that are in flight.
#[tactic(auto, using(rv_text::proofs::Saying::says_both), unfolding(crate::specs::Json::also, crate::specs::Json::array))]
pub(crate) fn write_instructions_in_flight<W: Write>(out: &mut Sink<'_, W>, rows: &[Passage])
    ensures { Says W.contents out.old out.new (also (codes "instructions") (array (flat_map json_in_flight rows.now))) }
{
    write_key(out, "instructions");
    out.put(b"[");
    write_all_in_flight(out, rows);
    out.put(b"]")
}
