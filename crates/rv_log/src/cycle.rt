ghost use Rattle.std.specs.List.{flat_map};
ghost use Rattle.rv_log.specs.Command.{appearance_text};
ghost use Rattle.rv_log.specs.Dependence.{row_at};
ghost use Rattle.rv_log.specs.Event.{left_at};
ghost use Rattle.rv_log.specs.Log.{head_text, begin_text, cycle_text};
ghost use Rattle.rv_text.specs.Said.{Says};

use crate::command::write_appearance;
use crate::dependence::write_row;
use crate::event::write_left;
use crate::room::{Stalled, write_room};
use itoa::Buffer;
use rv_passage::Passage;
use rv_source::Listing;
use rv_text::Sink;
use std::io::Write;

#[tactic(auto, unfolding(crate::specs::Log::head_text))]
fn write_head<W: Write>(out: &mut Sink<'_, W>, cycle: u64)
    ensures { Says W.contents out.old out.new (head_text cycle) }
{
    let mut buffer = Buffer::new();
    let number = buffer.format(cycle).as_bytes();
    out.put_all(&[b"Kanata\t0004\nC=\t", number, b"\n"])
}

#[tactic(auto, using(rv_text::proofs::Saying::saying))]
fn write_appearances<W: Write>(out: &mut Sink<'_, W>, listing: &Listing, rows: &[Passage])
    ensures { Says W.contents out.old out.new (flat_map (appearance_text listing.now) rows.now) }
{
    for row in rows {
        write_appearance(out, listing, row);
    }
}

/// Writes the begin of a log: the format, the number of the first cycle, and the instructions that are in flight before it.
#[tactic(auto, using(rv_text::proofs::Saying::saying), unfolding(crate::specs::Log::begin_text))]
pub(crate) fn write_begin<W: Write>(
    out: &mut Sink<'_, W>,
    listing: &Listing,
    cycle: u64,
    rows: &[Passage],
)
    ensures { Says W.contents out.old out.new (begin_text listing.now cycle rows.now) }
{
    write_head(out, cycle);
    write_appearances(out, listing, rows)
}

#[tactic(auto, using(rv_text::proofs::Saying::saying))]
fn write_rows<W: Write>(out: &mut Sink<'_, W>, listing: &Listing, cycle: u64, rows: &[Passage])
    ensures { Says W.contents out.old out.new (flat_map (row_at listing.now cycle) rows.now) }
{
    for row in rows {
        write_row(out, listing, cycle, row);
    }
}

#[tactic(auto, using(rv_text::proofs::Saying::saying))]
fn write_leaving<W: Write>(out: &mut Sink<'_, W>, first: u64, cycle: u64, rows: &[Passage])
    ensures { Says W.contents out.old out.new (flat_map (left_at first cycle) rows.now) }
{
    for row in rows {
        write_left(out, first, cycle, row);
    }
}

/// Writes what a cycle of a log from a first one on did, where these are the instructions at its end, those that left the
/// hardware in it among them.
#[tactic(auto, using(rv_text::proofs::Saying::saying), unfolding(crate::specs::Log::cycle_text))]
pub(crate) fn write_cycle<W: Write>(
    out: &mut Sink<'_, W>,
    listing: &Listing,
    first: u64,
    cycle: u64,
    stalled: Stalled,
    rows: &[Passage],
)
    ensures { Says W.contents out.old out.new (cycle_text listing.now first cycle stalled rows.now) }
{
    write_rows(out, listing, cycle, rows);
    write_room(out, cycle, stalled, rows);
    out.put(b"C\t1\n");
    write_leaving(out, first, cycle, rows)
}
