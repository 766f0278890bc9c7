ghost use Rattle.std.specs.Prelude.{◌≡◌};
ghost use Rattle.rv_explain.specs.Crash.{crash_of, crash_text, departure, departure_text, empty_text, end_text};
ghost use Rattle.rv_explain.specs.Crash.{first_way_text, is_empty, is_environment_call, is_meant_end, is_past_code};
ghost use Rattle.rv_explain.specs.Crash.{is_some_return, is_uncalled, lone_crash, passed_text, unhandled, way_text};
ghost use Rattle.rv_explain.specs.Crash.{went_text, whole_end_text};
ghost use Rattle.rv_text.specs.Said.{Says};

use crate::figures::Figures;
use crate::last_before::is_return;
use crate::origin::Origin;
use rv_arch::Stop;
use rv_isa::Cause;
use rv_sentences::{Exception, Interrupts, Series, write_first, write_interrupts};
use rv_source::{Listing, write_place};
use rv_text::{Sink, hexadecimal};
use rv_watch::ShownHardware;
use std::io::Write;

// Whether a program is empty: no line fills the first word of RAM.
fn is_empty(listing: &Listing, hardware: &ShownHardware<'_>) -> bool
    ensures { result ≡ is_empty listing.now hardware.now }
{
    listing.number_at(hardware.values().ram_base).is_none()
}

#[tactic(auto, using(rv_text::proofs::Saying::saying), unfolding(crate::specs::Crash::empty_text))]
fn write_empty<W: Write>(out: &mut Sink<'_, W>, listing: &Listing, hardware: &ShownHardware<'_>)
    ensures { Says W.contents out.old out.new (empty_text listing.now hardware.now) }
{
    if is_empty(listing, hardware) {
        out.put(b"The program is empty\n");
    }
}

// Whether an address stands right after the last line of some code.
fn is_past_code(listing: &Listing, address: u32) -> bool
    ensures { result ≡ is_past_code listing.now address }
{
    let before = address.saturating_sub(4);
    listing.number_at(before).is_some() && listing.number_at(address).is_none()
}

#[tactic(auto, using(rv_text::proofs::Saying::saying), unfolding(crate::specs::Crash::passed_text))]
fn write_passed<W: Write>(out: &mut Sink<'_, W>, listing: &Listing, address: u32)
    ensures { Says W.contents out.old out.new (passed_text listing.now address) }
{
    if is_past_code(listing, address) {
        out.put(b"The program ran past its last line, at ");
        write_place(out, listing, address.saturating_sub(4));
    }
}

// The instruction from which a program went to an address outside RAM, where it did: the last one before an exception.
fn departure(cause: Cause, last: Option<Origin>) -> Option<Origin>
    ensures { result ≡ departure cause last }
{
    match cause {
        Cause::InstructionAccessFault => last,
        _ => None,
    }
}

#[tactic(auto, unfolding(crate::specs::Crash::went_text))]
fn write_went<W: Write>(out: &mut Sink<'_, W>, to: u32)
    ensures { Says W.contents out.old out.new (went_text to) }
{
    let address = hexadecimal(to);
    out.put_all(&[b"The program went to ", &address, b", outside RAM, from "]);
}

#[tactic(auto, using(rv_text::proofs::Saying::saying), unfolding(crate::specs::Crash::departure_text))]
fn write_departure<W: Write>(
    out: &mut Sink<'_, W>,
    listing: &Listing,
    to: u32,
    from: Option<Origin>,
)
    ensures { Says W.contents out.old out.new (departure_text listing.now to from) }
{
    if let Some(from) = from {
        write_went(out, to);
        write_place(out, listing, from.pc);
    }
}

// How a program came to where an exception did, by the last instruction before it.
fn write_way<W: Write>(
    out: &mut Sink<'_, W>,
    listing: &Listing,
    hardware: &ShownHardware<'_>,
    exception: &Exception,
    last: Option<Origin>,
)
    ensures { Says W.contents out.old out.new (way_text listing.now hardware.now exception.now last) }
{
    write_empty(out, listing, hardware);
    write_passed(out, listing, exception.pc);
    write_departure(out, listing, exception.pc, departure(exception.cause, last));
}

/// Writes how a program came to where its first exception did, if there was one, by the last instruction before it.
#[tactic(auto, using(rv_text::proofs::Saying::saying), unfolding(crate::specs::Crash::first_way_text))]
pub(crate) fn write_first_way<W: Write>(
    out: &mut Sink<'_, W>,
    listing: &Listing,
    hardware: &ShownHardware<'_>,
    all: Option<Series<Exception>>,
    last: Option<Origin>,
)
    ensures { Says W.contents out.old out.new (first_way_text listing.now hardware.now all last) }
{
    if let Some(all) = all {
        write_way(out, listing, hardware, &all.first, last);
    }
}

fn unhandled(all: Option<Series<Exception>>) -> Option<Exception>
    ensures { result ≡ unhandled all }
{
    let first = all?.first;
    if first.mtvec / 4 == 0 {
        Some(first)
    } else {
        None
    }
}

fn crash(stop: Stop, all: Option<Series<Exception>>) -> Option<Exception>
    ensures { result ≡ crash_of stop all }
{
    match stop {
        Stop::Breakpoint | Stop::Stale(_) => None,
        Stop::Limit | Stop::Exhausted => unhandled(all),
    }
}

/// The exception by which a program crashed, where that alone is explained of its run.
pub(crate) fn lone_crash(
    figures: Figures,
    stop: Stop,
    all: Option<Series<Exception>>,
) -> Option<Exception>
    ensures { result ≡ lone_crash figures stop all }
{
    match figures {
        Figures::Always => None,
        Figures::UnlessCrashed => crash(stop, all),
    }
}

fn is_environment_call(cause: Cause) -> bool
    ensures { result ≡ is_environment_call cause }
{
    matches!(cause, Cause::EnvironmentCall)
}

fn is_some_return(origin: Option<Origin>) -> bool
    ensures { result ≡ is_some_return origin }
{
    match origin {
        Some(origin) => is_return(origin),
        None => false,
    }
}

// Whether a program returned where nobody had called: ra is 0 at reset.
fn is_uncalled(exception: &Exception, last: Option<Origin>) -> bool
    ensures { result ≡ is_uncalled exception.now last }
{
    exception.pc == 0 && is_some_return(departure(exception.cause, last))
}

// Whether a program crashed where it may have been meant to end.
#[tactic(auto, unfolding(crate::specs::Crash::is_meant_end))]
fn is_meant_end(listing: &Listing, crash: &Exception, last: Option<Origin>) -> bool
    ensures { result ≡ is_meant_end listing.now crash.now last }
{
    is_environment_call(crash.cause) || is_past_code(listing, crash.pc) || is_uncalled(crash, last)
}

#[tactic(auto, using(rv_text::proofs::Saying::saying), unfolding(crate::specs::Crash::end_text))]
fn write_end<W: Write>(
    out: &mut Sink<'_, W>,
    listing: &Listing,
    crash: &Exception,
    last: Option<Origin>,
)
    ensures { Says W.contents out.old out.new (end_text listing.now crash.now last) }
{
    if is_meant_end(listing, crash, last) {
        out.put(b"A program ends at ebreak\n");
    }
}

#[tactic(auto, using(rv_text::proofs::Saying::saying), unfolding(crate::specs::Crash::whole_end_text))]
fn write_end_of<W: Write>(
    out: &mut Sink<'_, W>,
    listing: &Listing,
    crash: Option<Exception>,
    last: Option<Origin>,
)
    ensures { Says W.contents out.old out.new (whole_end_text listing.now crash last) }
{
    if let Some(crash) = crash {
        write_end(out, listing, &crash, last);
    }
}

/// Writes where a program ends, if it crashed where it may have been meant to end: by why its run ended, its exceptions
/// and the last instruction before the first of them.
pub(crate) fn write_whole_end<W: Write>(
    out: &mut Sink<'_, W>,
    listing: &Listing,
    stop: Stop,
    all: Option<Series<Exception>>,
    last: Option<Origin>,
)
    ensures { Says W.contents out.old out.new (whole_end_text listing.now (crash_of stop all) last) }
{
    write_end_of(out, listing, crash(stop, all), last);
}

/// Writes by which exception a program crashed, where, and how it came there, by the last instruction before it, where a
/// program ends, and the interrupts of its run.
#[tactic(auto, using(rv_text::proofs::Saying::saying), unfolding(crate::specs::Crash::crash_text))]
pub(crate) fn write_crash<W: Write>(
    out: &mut Sink<'_, W>,
    listing: &Listing,
    hardware: &ShownHardware<'_>,
    crash: &Exception,
    last: Option<Origin>,
    interrupts: &Interrupts,
)
    ensures { Says W.contents out.old out.new (crash_text listing.now hardware.now crash.now last interrupts.now) }
{
    write_way(out, listing, hardware, crash, last);
    write_first(out, listing, crash);
    write_end(out, listing, crash, last);
    write_interrupts(out, listing, interrupts);
}
