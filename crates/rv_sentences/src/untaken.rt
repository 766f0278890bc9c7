ghost use Rattle.std.specs.Prelude.{◌≡◌, ◌<◌, ◌++◌};
ghost use Rattle.rv_arch.specs.Csr.{has_bit};
ghost use Rattle.rv_sentences.specs.Untaken.{all_untaken_text, came_from, due_text, high_text};
ghost use Rattle.rv_sentences.specs.Untaken.{hindrance_text, passed_text, untaken_text};
ghost use Rattle.rv_text.specs.Said.{Says};

use crate::interruption::Interruption;
use crate::interrupts::Interrupts;
use crate::raised::Raised;
use crate::series::Series;
use rv_text::Sink;
use std::io::Write;

fn has_bit(word: u32, place: u32) -> bool
    requires { place < 32 }
    ensures { result ≡ has_bit word place }
{
    (word >> place) & 1 == 1
}

// Whether an interrupt came in a cycle, if there is one, or after it.
fn came_from(cycle: Option<u64>, series: Option<Series<Interruption>>) -> bool
    ensures { result ≡ came_from cycle series }
{
    match (cycle, series) {
        (Some(cycle), Some(series)) => cycle <= series.last.cycle,
        _ => false,
    }
}

// Writes a bit's name between two texts.
#[tactic(auto, using(rv_text::proofs::Saying::saying))]
fn write_bit<W: Write>(out: &mut Sink<'_, W>, before: &[u8], bit: &[u8], after: &[u8])
    ensures { Says W.contents out.old out.new (before.now ++ (bit.now ++ after.now)) }
{
    out.put_all(&[before, bit, after]);
}

// Writes that a higher line was taken, if one was.
#[tactic(auto, using(rv_text::proofs::Saying::saying), unfolding(crate::specs::Untaken::passed_text))]
fn write_passed<W: Write>(out: &mut Sink<'_, W>, passed: bool)
    ensures { Says W.contents out.old out.new (passed_text passed) }
{
    if passed {
        out.put(b"a higher one was taken, and ");
    }
}

// Writes what stands in the way of a line whose bit in `mie` is 1.
#[tactic(auto, using(rv_text::proofs::Saying::saying), unfolding(crate::specs::Untaken::due_text))]
fn write_due<W: Write>(out: &mut Sink<'_, W>, global: bool)
    ensures { Says W.contents out.old out.new (due_text global) }
{
    if global {
        out.put(b"it is due\n");
    } else {
        out.put(b"mstatus.MIE is 0\n");
    }
}

// Writes what stands in the way of a line.
#[tactic(auto, using(rv_text::proofs::Saying::saying), unfolding(crate::specs::Untaken::hindrance_text))]
fn write_hindrance<W: Write>(
    out: &mut Sink<'_, W>,
    passed: bool,
    enabled: bool,
    global: bool,
    bit: &[u8],
)
    ensures { Says W.contents out.old out.new (hindrance_text passed enabled global bit.now) }
{
    if enabled {
        write_passed(out, passed);
        write_due(out, global);
    } else if global {
        write_bit(out, b"mie.", bit, b" is 0\n");
    } else {
        write_bit(out, b"mstatus.MIE and mie.", bit, b" are 0\n");
    }
}

// Writes from which cycle on a line is high.
#[tactic(auto, using(rv_text::proofs::Saying::saying), unfolding(crate::specs::Untaken::high_text))]
fn write_high<W: Write>(out: &mut Sink<'_, W>, name: &[u8], cycle: u64)
    ensures { Says W.contents out.old out.new (high_text name.now cycle) }
{
    out.put_all(&[b"The ", name, b" line is high from cycle "]);
    out.put_decimal(cycle);
    out.put(b" on, and was never taken: ");
}

// Writes of a line, by the cycle from which it is high, that it was never taken.
#[tactic(auto, using(rv_text::proofs::Saying::saying), unfolding(crate::specs::Untaken::untaken_text))]
fn write_line<W: Write>(
    out: &mut Sink<'_, W>,
    name: &[u8],
    bit: &[u8],
    since: Option<u64>,
    taken: Option<Series<Interruption>>,
    passed: bool,
    enabled: bool,
    global: bool,
)
    ensures { Says W.contents out.old out.new (untaken_text name.now bit.now since taken passed enabled global) }
{
    if let (Some(cycle), None) = (since, taken) {
        write_high(out, name, cycle);
        write_hindrance(out, passed, enabled, global, bit);
    }
}

/// Writes which lines are high at the end and were never taken, and what stood in the way, by what is in `mstatus` and in `mie`.
#[tactic(auto, using(rv_text::proofs::Saying::saying), unfolding(crate::specs::Untaken::all_untaken_text))]
pub fn write_untaken<W: Write>(
    out: &mut Sink<'_, W>,
    raised: &Raised,
    interrupts: &Interrupts,
    mstatus: u32,
    mie: u32,
)
    ensures { Says W.contents out.old out.new (all_untaken_text raised.now interrupts.now mstatus mie) }
{
    let global = has_bit(mstatus, 3);
    let after_external = came_from(raised.software, interrupts.external);
    let passed = came_from(raised.timer, interrupts.external)
        || came_from(raised.timer, interrupts.software);
    write_line(
        out,
        b"external",
        b"MEIE",
        raised.external,
        interrupts.external,
        false,
        has_bit(mie, 11),
        global,
    );
    write_line(
        out,
        b"software",
        b"MSIE",
        raised.software,
        interrupts.software,
        after_external,
        has_bit(mie, 3),
        global,
    );
    write_line(
        out,
        b"timer",
        b"MTIE",
        raised.timer,
        interrupts.timer,
        passed,
        has_bit(mie, 7),
        global,
    );
}
