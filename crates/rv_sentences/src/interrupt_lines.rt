ghost use Rattle.rv_sentences.specs.Interrupt.{first_text, interrupts_text, last_cycle};
ghost use Rattle.rv_sentences.specs.Interrupt.{last_text, line_text, series_text};
ghost use Rattle.rv_text.specs.Said.{Says};

use crate::interruption::Interruption;
use crate::interrupts::Interrupts;
use crate::series::Series;
use itoa::Buffer;
use rv_source::{Listing, write_place};
use rv_text::Sink;
use std::io::Write;

// The cycle of the last interrupt, after which the instruction stands that it came before.
#[tactic(auto, using(rv_text::proofs::Saying::saying), unfolding(crate::specs::Interrupt::last_cycle))]
fn write_last_cycle<W: Write>(out: &mut Sink<'_, W>, cycle: u64)
    ensures { Says W.contents out.old out.new (last_cycle cycle) }
{
    let mut buffer = Buffer::new();
    let digits = buffer.format(cycle).as_bytes();
    out.put_all(&[b"The last came in cycle ", digits, b", before "]);
}

#[tactic(auto, using(rv_text::proofs::Saying::saying), unfolding(crate::specs::Interrupt::last_text))]
fn write_last<W: Write>(out: &mut Sink<'_, W>, listing: &Listing, series: &Series<Interruption>)
    ensures { Says W.contents out.old out.new (last_text listing.now series.now) }
{
    if series.count != 1 {
        write_last_cycle(out, series.last.cycle);
        write_place(out, listing, series.last.pc);
    }
}

// What some interrupts are called, how many there were, and the cycle of the first.
#[tactic(auto, using(rv_text::proofs::Saying::saying), unfolding(crate::specs::Interrupt::first_text))]
fn write_first<W: Write>(out: &mut Sink<'_, W>, name: &[u8], count: u64, cycle: u64)
    ensures { Says W.contents out.old out.new (first_text name.now count cycle) }
{
    let mut count_buffer = Buffer::new();
    let count = count_buffer.format(count).as_bytes();
    let mut cycle_buffer = Buffer::new();
    let cycle = cycle_buffer.format(cycle).as_bytes();
    out.put_all(&[name, count, b", the first in cycle ", cycle, b", before "]);
}

#[tactic(auto, using(rv_text::proofs::Saying::saying), unfolding(crate::specs::Interrupt::series_text))]
fn write_series<W: Write>(
    out: &mut Sink<'_, W>,
    name: &[u8],
    listing: &Listing,
    series: &Series<Interruption>,
)
    ensures { Says W.contents out.old out.new (series_text name.now listing.now series.now) }
{
    write_first(out, name, series.count, series.first.cycle);
    write_place(out, listing, series.first.pc);
    write_last(out, listing, series);
}

#[tactic(auto, unfolding(crate::specs::Interrupt::line_text))]
fn write_line<W: Write>(
    out: &mut Sink<'_, W>,
    name: &[u8],
    listing: &Listing,
    line: Option<Series<Interruption>>,
)
    ensures { Says W.contents out.old out.new (line_text name.now listing.now line) }
{
    if let Some(series) = line {
        write_series(out, name, listing, &series);
    }
}

/// Writes how many interrupts of each line were taken, and where and when the first and the last.
pub fn write_interrupts<W: Write>(out: &mut Sink<'_, W>, listing: &Listing, interrupts: &Interrupts)
    ensures { Says W.contents out.old out.new (interrupts_text listing.now interrupts.now) }
{
    write_line(out, b"Software interrupts: ", listing, interrupts.software);
    write_line(out, b"Timer interrupts: ", listing, interrupts.timer);
    write_line(out, b"External interrupts: ", listing, interrupts.external);
}
