ghost use Rattle.std.specs.Prelude.{◌≡◌, ◌++◌, codes};
ghost use Rattle.rv_log.specs.Event.{is_at, stage_at, begins_to_wait, bus_wait_at, fetched_text};
ghost use Rattle.rv_log.specs.Event.{fetch_at, retired_in, end_line, ended_text, left_at, events_at};
ghost use Rattle.rv_passage.specs.Result.{ready_in};
ghost use Rattle.rv_text.specs.Said.{Says};

use crate::command::{
    write_appearance, write_fetch_label, write_flush, write_retirement, write_stage,
};
use crate::details::write_details;
use crate::numbered::say;
use crate::stage::Stage;
use crate::statement::printing_statement;
use rv_passage::{Ending, Passage};
use rv_source::Listing;
use rv_text::Sink;
use std::io::Write;

/// Whether a stamp is a cycle.
pub(crate) fn is_at(stamp: Option<u64>, cycle: u64) -> bool
    ensures { result ≡ is_at cycle stamp }
{
    match stamp {
        Some(stamp) => stamp == cycle,
        None => false,
    }
}

// Whether the result of an instruction is ready from a cycle on.
fn is_ready_from(row: &Passage, cycle: u64) -> bool
    ensures { result ≡ is_at cycle (ready_in row.now) }
{
    match row.ready() {
        Some(ready) => ready == u128::from(cycle),
        None => false,
    }
}

fn begins_to_wait(row: &Passage, cycle: u64) -> bool
    ensures { result ≡ begins_to_wait row.now cycle }
{
    is_ready_from(row, cycle) && row.is_in_flight() && row.waits_for_bus(cycle)
}

// Writes that a stage begins, where its stamp is this cycle.
#[tactic(auto, using(rv_text::proofs::Saying::saying), unfolding(crate::specs::Event::stage_at))]
fn write_stage_at<W: Write>(
    out: &mut Sink<'_, W>,
    cycle: u64,
    number: u64,
    stage: Stage,
    stamp: Option<u64>,
)
    ensures { Says W.contents out.old out.new (stage_at cycle number stage stamp) }
{
    if is_at(stamp, cycle) {
        write_stage(out, number, stage)
    }
}

// Writes that an instruction begins to wait for the bus, where it does in this cycle.
#[tactic(auto, using(rv_text::proofs::Saying::saying), unfolding(crate::specs::Event::bus_wait_at))]
fn write_bus_wait_at<W: Write>(out: &mut Sink<'_, W>, cycle: u64, row: &Passage)
    ensures { Says W.contents out.old out.new (bus_wait_at cycle row.now) }
{
    if begins_to_wait(row, cycle) {
        write_stage(out, row.number, Stage::BusWait)
    }
}

// Writes that an instruction appears, its label, and that its fetch begins.
#[tactic(auto, using(rv_text::proofs::Saying::saying), unfolding(crate::specs::Event::fetched_text))]
#[inline(never)]
fn write_fetched<W: Write>(out: &mut Sink<'_, W>, listing: &Listing, row: &Passage)
    ensures { Says W.contents out.old out.new (fetched_text listing.now row.now) }
{
    let mut buffer = [0; 8];
    match printing_statement(listing, &mut buffer, row) {
        Some(statement) => write_fetch_label(out, row.number, row.pc, statement),
        None => {
            write_appearance(out, listing, row);
            write_stage(out, row.number, Stage::Fetch)
        }
    }
}

// Writes the fetch of an instruction, where it came in this cycle.
#[tactic(auto, using(rv_text::proofs::Saying::saying), unfolding(crate::specs::Event::fetch_at))]
fn write_fetch_at<W: Write>(out: &mut Sink<'_, W>, listing: &Listing, cycle: u64, row: &Passage)
    ensures { Says W.contents out.old out.new (fetch_at listing.now cycle row.now) }
{
    if row.fetched == cycle {
        write_fetched(out, listing, row)
    }
}

// The cycle in which an instruction retired.
fn retired(ending: Ending) -> Option<u64>
    ensures { result ≡ retired_in ending }
{
    match ending {
        Ending::Retired { cycle, .. } => Some(cycle),
        Ending::InFlight | Ending::Trapped { .. } | Ending::Squashed { .. } => None,
    }
}

// Ends a line, and writes that an instruction retires, or is flushed.
#[tactic(auto, using(rv_text::proofs::Saying::saying), unfolding(crate::specs::Event::end_line))]
fn write_end<W: Write>(out: &mut Sink<'_, W>, number: u64, ending: Ending)
    ensures { Says W.contents out.old out.new (codes "\n" ++ end_line number ending) }
{
    match ending {
        Ending::InFlight => say(out, b"\n"),
        Ending::Retired { order, .. } => write_retirement(out, number, order),
        Ending::Trapped { .. } => write_flush(out, number),
        Ending::Squashed { .. } => write_flush(out, number),
    }
}

#[tactic(auto, using(rv_text::proofs::Saying::saying), unfolding(crate::specs::Event::ended_text))]
#[inline(never)]
fn write_ended<W: Write>(out: &mut Sink<'_, W>, first: u64, row: &Passage)
    ensures { Says W.contents out.old out.new (ended_text first row.now) }
{
    write_details(out, first, row);
    write_end(out, row.number, row.ending)
}

/// Writes what became of an instruction in a cycle.
#[tactic(auto, using(rv_text::proofs::Saying::saying), unfolding(crate::specs::Event::events_at))]
pub(crate) fn write_events<W: Write>(
    out: &mut Sink<'_, W>,
    listing: &Listing,
    cycle: u64,
    row: &Passage,
)
    ensures { Says W.contents out.old out.new (events_at listing.now cycle row.now) }
{
    write_fetch_at(out, listing, cycle, row);
    write_stage_at(out, cycle, row.number, Stage::Dispatch, row.dispatched);
    write_stage_at(out, cycle, row.number, Stage::Execution, row.issued());
    write_bus_wait_at(out, cycle, row);
    write_stage_at(out, cycle, row.number, Stage::Broadcast, row.broadcast);
    write_stage_at(
        out,
        cycle,
        row.number,
        Stage::Retirement,
        retired(row.ending),
    )
}

/// Writes how an instruction left the hardware, where it did in a cycle of a log from a first one on.
#[tactic(auto, using(rv_text::proofs::Saying::saying), unfolding(crate::specs::Event::left_at))]
pub(crate) fn write_left<W: Write>(out: &mut Sink<'_, W>, first: u64, cycle: u64, row: &Passage)
    ensures { Says W.contents out.old out.new (left_at first cycle row.now) }
{
    if is_at(row.ending.left(), cycle) {
        write_ended(out, first, row)
    }
}
