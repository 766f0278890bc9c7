ghost use Rattle.std.specs.Prelude.{◌<◌, ◌≤◌, [], get_or, length};
ghost use Rattle.rv_states.specs.Entries.{buffer_json, entry_json};
ghost use Rattle.rv_states.specs.Operands.{status_at};
ghost use Rattle.rv_text.specs.Said.{Says};

use crate::array::Values;
use crate::entry::write_entry;
use crate::operands::{entry_at, number_at, write_operands};
use rv_rob::{Entry, Rob};
use rv_text::Sink;
use std::io::Write;

// The entry, and what it reads at this place.
#[tactic(auto, using(rv_text::proofs::Saying::says_both), unfolding(crate::specs::Entries::entry_json))]
fn write_entry_with<W: Write>(
    out: &mut Sink<'_, W>,
    buffer: &Rob,
    registers: &[u32; 32],
    place: usize,
    number: u64,
    entry: &Entry,
)
    requires { place ≤ length buffer.now.entries }
    ensures { Says W.contents out.old out.new (entry_json (status_at registers.now buffer.now place) number entry.now) }
{
    write_entry(out, number, entry);
    write_operands(out, buffer, registers, place, entry);
    out.put(b"}")
}

// The entry at a place.
fn write_entry_at<W: Write>(
    out: &mut Sink<'_, W>,
    buffer: &Rob,
    registers: &[u32; 32],
    place: usize,
)
    requires { place < length buffer.now.entries }
    ensures { Says W.contents out.old out.new (get_or (buffer_json registers.now buffer.now) place []) }
{
    let entry = entry_at(buffer, place);
    write_entry_with(
        out,
        buffer,
        registers,
        place,
        number_at(buffer, place),
        &entry,
    )
}

/// The entries of the reorder buffer, as an array has them.
#[derive(Drop)]
pub(crate) struct Entries<'a> {
    pub(crate) buffer: &'a Rob,
    pub(crate) registers: &'a [u32; 32],
}

impl Values for Entries<'_> {
    ghost use Rattle.rv_states.specs.Entries.{buffer_json};

    ghost values = { λ e. buffer_json e.registers.now e.buffer.now };

    fn count(&self) -> usize {
        self.buffer.len()
    }

    fn write_value<W: Write>(&self, out: &mut Sink<'_, W>, place: usize) {
        write_entry_at(out, self.buffer, self.registers, place)
    }
}
