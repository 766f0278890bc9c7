ghost use Rattle.rv_log.specs.Dependence.{dependence_at, dependence_line, dependences_at, row_at, woken_at};
ghost use Rattle.rv_text.specs.Said.{Says};

use crate::event::{is_at, write_events};
use crate::numbered::write_two_numbers;
use rv_passage::{Passage, Producer};
use rv_source::Listing;
use rv_text::Sink;
use std::io::Write;

#[tactic(auto, using(crate::proofs::AfterNumber::numbering), unfolding(crate::specs::Dependence::dependence_line))]
#[inline(never)]
fn write_dependence<W: Write>(out: &mut Sink<'_, W>, number: u64, producer: u64)
    ensures { Says W.contents out.old out.new (dependence_line number producer) }
{
    write_two_numbers(out, b"W\t", number, b"\t", producer, b"\t0\n")
}

#[tactic(auto, using(rv_text::proofs::Saying::saying), unfolding(crate::specs::Dependence::woken_at))]
#[inline(always)]
fn write_woken<W: Write>(out: &mut Sink<'_, W>, cycle: u64, number: u64, producer: &Producer)
    ensures { Says W.contents out.old out.new (woken_at cycle number producer.now) }
{
    if is_at(producer.broadcast, cycle) {
        write_dependence(out, number, producer.number)
    }
}

#[tactic(auto, using(rv_text::proofs::Saying::saying), unfolding(crate::specs::Dependence::dependence_at))]
#[inline(always)]
fn write_dependence_at<W: Write>(
    out: &mut Sink<'_, W>,
    cycle: u64,
    number: u64,
    producer: &Option<Producer>,
)
    ensures { Says W.contents out.old out.new (dependence_at cycle number producer.now) }
{
    if let Some(producer) = producer {
        write_woken(out, cycle, number, producer)
    }
}

// Writes the dependences of an instruction on what was broadcast in a cycle.
#[tactic(auto, using(rv_text::proofs::Saying::saying), unfolding(crate::specs::Dependence::dependences_at))]
fn write_dependences<W: Write>(out: &mut Sink<'_, W>, cycle: u64, row: &Passage)
    ensures { Says W.contents out.old out.new (dependences_at cycle row.now) }
{
    write_dependence_at(out, cycle, row.number, &row.producers.first);
    write_dependence_at(out, cycle, row.number, &row.producers.second)
}

/// Writes what became of an instruction in a cycle, and whose results woke it.
#[tactic(auto, using(rv_text::proofs::Saying::saying), unfolding(crate::specs::Dependence::row_at))]
pub(crate) fn write_row<W: Write>(
    out: &mut Sink<'_, W>,
    listing: &Listing,
    cycle: u64,
    row: &Passage,
)
    ensures { Says W.contents out.old out.new (row_at listing.now cycle row.now) }
{
    write_events(out, listing, cycle, row);
    write_dependences(out, cycle, row)
}
