ghost use Rattle.std.specs.Prelude.{◌≡◌};
ghost use Rattle.rv_arch.specs.Csr.{value_of};
ghost use Rattle.rv_explain.specs.Ending.{reason_text, place_of, last_store_text, stale_text, ending_text};
ghost use Rattle.rv_explain.specs.Ending.{goes_to_itself, is_cut_off, is_stuck, stuck_text};
ghost use Rattle.rv_text.specs.Said.{Says};

use crate::last_before::is_return;
use crate::origin::Origin;
use rv_arch::Stop;
use rv_isa::Csr;
use rv_sentences::{Exception, Series, WordNotes};
use rv_source::{Listing, write_place};
use rv_text::Sink;
use rv_watch::ShownHardware;
use std::io::Write;

/// What a control and status register reads.
pub(crate) fn csr(hardware: &ShownHardware<'_>, csr: Csr) -> u32
    ensures { result ≡ value_of hardware.now.csrs hardware.now.lines csr }
{
    let seen = hardware.observe();
    seen.csrs.value(csr, seen.lines)
}

#[tactic(auto, unfolding(crate::specs::Ending::reason_text))]
fn reason(stop: Stop) -> &'static [u8]
    ensures { result.now ≡ reason_text stop }
{
    match stop {
        Stop::Breakpoint => b"The run ended at a breakpoint, at ",
        Stop::Stale(_) => {
            b"The run ended at a word that was stored to and then fetched without a FENCE.I in between, at "
        }
        Stop::Limit => b"The run was cut off at its limit of cycles, and the program stood at ",
        Stop::Exhausted => {
            b"The core has done all the cycles that it counts, and the program stood at "
        }
    }
}

fn place(stop: Stop, hardware: &ShownHardware<'_>) -> u32
    ensures { result ≡ place_of stop hardware.now }
{
    match stop {
        Stop::Breakpoint => csr(hardware, Csr::Mepc),
        Stop::Stale(pc) => pc,
        Stop::Limit | Stop::Exhausted => hardware.observe().pc,
    }
}

#[tactic(auto, using(rv_text::proofs::Saying::saying), unfolding(crate::specs::Ending::last_store_text))]
fn write_last_store<W: Write>(out: &mut Sink<'_, W>, listing: &Listing, last_store: Option<u32>)
    ensures { Says W.contents out.old out.new (last_store_text listing.now last_store) }
{
    if let Some(pc) = last_store {
        out.put(b"The last store to that word was the one at ");
        write_place(out, listing, pc);
    }
}

// The last store to the word that the run ended at, if it did at a stale one.
fn write_stale<W: Write>(
    out: &mut Sink<'_, W>,
    listing: &Listing,
    stop: Stop,
    last_stores: &WordNotes<Option<u32>>,
)
    ensures { Says W.contents out.old out.new (stale_text listing.now stop last_stores.now) }
{
    match stop {
        Stop::Stale(pc) => write_last_store(out, listing, last_stores.at(pc / 4).flatten()),
        Stop::Breakpoint | Stop::Limit | Stop::Exhausted => {}
    }
}

/// Writes why a run ended, and where.
pub(crate) fn write_ending<W: Write>(
    out: &mut Sink<'_, W>,
    listing: &Listing,
    stop: Stop,
    hardware: &ShownHardware<'_>,
    last_stores: &WordNotes<Option<u32>>,
)
    ensures { Says W.contents out.old out.new (ending_text listing.now stop hardware.now last_stores.now) }
{
    out.put(reason(stop));
    write_place(out, listing, place(stop, hardware));
    write_stale(out, listing, stop, last_stores);
}

fn is_cut_off(stop: Stop) -> bool
    ensures { result ≡ is_cut_off stop }
{
    match stop {
        Stop::Breakpoint | Stop::Stale(_) => false,
        Stop::Limit | Stop::Exhausted => true,
    }
}

// Whether an instruction is a return, after which a program goes on at it again.
fn goes_to_itself(pc: u32, origin: Option<Origin>) -> bool
    ensures { result ≡ goes_to_itself pc origin }
{
    match origin {
        Some(origin) => is_return(origin) && origin.pc == pc,
        None => false,
    }
}

// Whether a run was cut off in a return that goes to itself.
#[tactic(auto, unfolding(crate::specs::Ending::is_stuck))]
fn is_stuck(
    stop: Stop,
    hardware: &ShownHardware<'_>,
    all: Option<Series<Exception>>,
    last: Option<Origin>,
) -> bool
    ensures { result ≡ is_stuck stop hardware.now all last }
{
    is_cut_off(stop) && all.is_none() && goes_to_itself(hardware.observe().pc, last)
}

/// Writes why a return goes to itself, if a run was cut off in one: by its exceptions and the last instruction before
/// the first of them.
#[tactic(auto, using(rv_text::proofs::Saying::saying), unfolding(crate::specs::Ending::stuck_text))]
pub(crate) fn write_stuck<W: Write>(
    out: &mut Sink<'_, W>,
    stop: Stop,
    hardware: &ShownHardware<'_>,
    all: Option<Series<Exception>>,
    last: Option<Origin>,
)
    ensures { Says W.contents out.old out.new (stuck_text stop hardware.now all last) }
{
    if is_stuck(stop, hardware, all, last) {
        out.put(b"This return goes to itself: ra was overwritten by a call and not restored\n");
    }
}
