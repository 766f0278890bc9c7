ghost use Rattle.std.specs.Prelude.{◌++◌};
ghost use Rattle.rv_states.specs.Page.{after_lines, before_lines};
ghost use Rattle.rv_states.specs.States.{begun_text, head_text, opening_text, shown_text, window_text};
ghost use Rattle.rv_states.specs.Stop.{stop_line};
ghost use Rattle.rv_text.specs.Said.{Says};

use crate::cycle::{write_cycle, write_start};
use crate::form::Form;
use crate::listing::write_listing;
use crate::machine::write_header;
use crate::memory::write_memory;
use crate::page::{write_after, write_before};
use crate::predictor::write_predictor_lines;
use crate::sets::write_sets;
use crate::stop::write_stop;
use rv_arch::Stop;
use rv_front::DescribedPredictor;
use rv_hardware::Step;
use rv_isa::Values;
use rv_passage::Passage;
use rv_source::Listing;
use rv_text::Sink;
use rv_watch::{Progress, ShownHardware};
use std::io::Write;

// It stands apart, since its caller mostly writes nothing.
#[inline(never)]
#[tactic(auto, using(rv_text::proofs::Saying::says_both), unfolding(crate::specs::States::window_text, crate::specs::States::storage_text))]
fn write_window<W: Write>(
    out: &mut Sink<'_, W>,
    rows: &[Passage],
    hardware: &ShownHardware<'_>,
    progress: &Progress,
    predictor: &DescribedPredictor,
)
    ensures { Says W.contents out.old out.new (window_text rows.now hardware.now progress.now predictor.now) }
{
    write_memory(out, hardware);
    write_sets(out, hardware);
    write_predictor_lines(out, predictor);
    write_start(out, rows, hardware, progress)
}

/// Writes the lines before the window, with those of the instructions that are in flight, after the last of the cycles before it;
/// else nothing.
pub(crate) fn write_begun<W: Write>(
    out: &mut Sink<'_, W>,
    from: u64,
    rows: &[Passage],
    hardware: &ShownHardware<'_>,
    progress: &Progress,
    predictor: &DescribedPredictor,
)
    ensures { Says W.contents out.old out.new (begun_text from rows.now hardware.now progress.now predictor.now) }
{
    if progress.cycles == from {
        write_window(out, rows, hardware, progress, predictor)
    }
}

/// Writes the line of a cycle, unless it is one of the first `from`.
pub(crate) fn write_shown<W: Write>(
    out: &mut Sink<'_, W>,
    from: u64,
    cycle: u64,
    rows: &[Passage],
    steps: &[Step],
    hardware: &ShownHardware<'_>,
    progress: &Progress,
    predictor: &DescribedPredictor,
)
    ensures { Says W.contents out.old out.new
        (shown_text from cycle rows.now steps.now hardware.now progress.now predictor.now) }
{
    if from < progress.cycles {
        write_cycle(out, cycle, rows, steps, hardware, progress, predictor)
    }
}

// Writes the lines of the machine and the program.
#[tactic(auto, using(rv_text::proofs::Saying::says_both), unfolding(crate::specs::States::opening_text))]
fn write_opening<W: Write>(out: &mut Sink<'_, W>, from: u64, listing: &Listing, values: &Values)
    ensures { Says W.contents out.old out.new (opening_text from listing.now values.now) }
{
    write_header(out, from, values);
    write_listing(out, listing, values)
}

/// Writes what stands before the lines, and what is shown before the first cycle of a run.
#[tactic(auto, using(rv_text::proofs::Saying::says_both), unfolding(crate::specs::States::head_text))]
pub(crate) fn write_head<W: Write>(
    out: &mut Sink<'_, W>,
    form: Form,
    from: u64,
    listing: &Listing,
    rows: &[Passage],
    hardware: &ShownHardware<'_>,
    predictor: &DescribedPredictor,
)
    ensures { Says W.contents out.old out.new
        (before_lines form ++ head_text from listing.now rows.now hardware.now predictor.now) }
{
    write_before(out, form);
    write_opening(out, from, listing, hardware.values());
    write_begun(out, from, rows, hardware, &Progress::new(), predictor)
}

/// Writes the last line, and what stands after the lines.
#[tactic(auto, using(rv_text::proofs::Saying::says_both))]
pub(crate) fn write_end<W: Write>(out: &mut Sink<'_, W>, form: Form, cycles: u64, stop: Stop)
    ensures { Says W.contents out.old out.new (stop_line cycles stop ++ after_lines form) }
{
    write_stop(out, cycles, stop);
    write_after(out, form)
}
