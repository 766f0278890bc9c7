ghost use Rattle.std.specs.Prelude.{◌≡◌, ◌≤◌, ◌<◌, ◌^◌, Err, sum, IfOk, option_copied};
ghost use Rattle.rv_explain.specs.Explanation.{CanBeWritten, IsExplanation, cost_text, cycle_text, explanation};
ghost use Rattle.rv_explain.specs.Explanation.{lead_text, path_text, run_text, untaken_lines, whole_text};
ghost use Rattle.rv_hardware.specs.Guided.{guided};
ghost use Rattle.rv_explain.specs.Tally.{IsOfNoCycle};
ghost use Rattle.rv_view.specs.Following.{FollowsFrom};
ghost use Rattle.rv_view.specs.Run.{HasOneText};
ghost use Rattle.rv_sentences.specs.Stay.{all_stays};
ghost use Rattle.rv_text.specs.IsText.{IsText};
ghost use Rattle.rv_text.specs.Said.{Says};
ghost use Rattle.rv_text.specs.Written.{IsWritten};

use crate::crash::{lone_crash, write_crash, write_first_way, write_whole_end};
use crate::cycle_places::in_flight;
use crate::ending::{csr, write_ending, write_stuck};
use crate::figures::Figures;
use crate::running::{Tallied, run_tallied};
use crate::tally::Tally;
use rv_arch::Stop;
use rv_counts::Places;
use rv_front::Predictor;
use rv_isa::{Arrivals, Csr, Description};
use rv_path::PathAccount;
use rv_sentences::{
    Exception, write_awaited, write_counts, write_dispatches, write_drains, write_exceptions,
    write_greatest_places, write_greatest_waits, write_hotspots, write_interrupts, write_loads,
    write_longest, write_places, write_stalls, write_stays, write_untaken, write_work, write_worst,
};
use rv_source::Listing;
use rv_text::{Field, ReportError, Sink, TextError, Value};
use rv_view::Following;
use rv_watch::{Progress, ShownHardware, Simulated};
use std::alloc::{AllocError, Global};
use std::io::Write;

// What a run of the core begins with.
#[derive(Drop)]
struct Beginning {
    following: Following,
    tally: Tally,
}

// What it takes to follow it, and a tally of no cycle.
fn begin<S: Simulated>(
    alloc: Global,
    pipeline: &S,
    description: &Description,
) -> Result<Beginning, AllocError>
    ensures follows { IfOk result (λ beginning. FollowsFrom (S.hardware pipeline.now) beginning.following) }
    ensures of_no_cycle { IfOk result (λ beginning. IsOfNoCycle description.now beginning.tally) }
{
    let following = Following::begin(alloc, pipeline)?;
    let tally = Tally::new(alloc, description)?;
    Ok(Beginning { following, tally })
}

// The cycles, and those to each instruction.
fn write_cycles<W: Write>(out: &mut Sink<'_, W>, progress: &Progress, retired: u64)
    ensures { Says W.contents out.old out.new (cycle_text progress.now retired) }
{
    write_counts(out, progress.cycles, retired);
    out.put_fields(&[Field {
        name: "cycles per instruction",
        value: Value::Ratio {
            count: progress.cycles,
            each: retired,
        },
    }]);
    write_stalls(out, progress.cycles, progress.busy, &progress.stalls);
}

// The interrupt lines that are high and were never taken.
fn write_untaken_lines<W: Write>(out: &mut Sink<'_, W>, hardware: &ShownHardware<'_>, tally: &Tally)
    ensures { Says W.contents out.old out.new (untaken_lines hardware.now tally.now) }
{
    let mstatus = csr(hardware, Csr::Mstatus);
    let mie = csr(hardware, Csr::Mie);
    write_untaken(out, &tally.raised, &tally.interrupts, mstatus, mie);
}

// What instructions in flight waited for most, what became of most places for dispatch, the line that was awaited most,
// the one that stood longest at the head of the reorder buffer, and what became of all places.
fn write_lead<W: Write>(
    out: &mut Sink<'_, W>,
    listing: &Listing,
    hardware: &ShownHardware<'_>,
    run: &Tallied,
)
    requires { CanBeWritten hardware.now run.now }
    ensures { Says W.contents out.old out.new (lead_text listing.now hardware.now run.now) }
{
    let cycles = run.progress.cycles;
    let tally = &run.tally;
    let width = u64::from(hardware.values().dispatch_width);
    let left = in_flight(hardware);
    write_greatest_waits(out, &tally.stays);
    write_greatest_places(out, cycles, width, left as u64, &tally.places);
    write_awaited(out, listing, cycles, &tally.outcomes, &tally.awaited);
    write_longest(
        out,
        listing,
        cycles,
        &tally.heads,
        &tally.outcomes,
        &tally.stores,
        &tally.branches,
        &tally.mispredicted,
    );
    write_places(out, cycles, width, left as u64, &tally.places);
}

// Where the cycles went.
fn write_costs<W: Write>(out: &mut Sink<'_, W>, listing: &Listing, run: &Tallied)
    requires heads { sum run.now.tally.heads.words ≤ run.now.progress.cycles }
    requires branches { sum run.now.tally.branches.words < 2 ^ 64 }
    requires mispredicted { sum run.now.tally.mispredicted.words < 2 ^ 64 }
    requires stays { all_stays run.now.tally.stays < 2 ^ 64 }
    ensures { Says W.contents out.old out.new (cost_text listing.now run.now) }
{
    let tally = &run.tally;
    write_cycles(out, &run.progress, tally.retired);
    write_dispatches(out, run.progress.busy, &tally.dispatches);
    write_work(out, run.fetched, &tally.work);
    write_worst(out, listing, &tally.branches, &tally.mispredicted);
    write_stays(out, &tally.stays);
    write_loads(out, &tally.loads);
    write_drains(out, &tally.drains);
    write_hotspots(
        out,
        listing,
        run.progress.cycles,
        tally.idle,
        &tally.outcomes,
        &tally.stores,
        &tally.heads,
    );
}

// The sentences on a run that ended, with its figures.
fn write_whole<W: Write>(
    out: &mut Sink<'_, W>,
    listing: &Listing,
    hardware: &ShownHardware<'_>,
    run: &Tallied,
)
    requires { CanBeWritten hardware.now run.now }
    ensures { Says W.contents out.old out.new (whole_text listing.now hardware.now run.now) }
{
    let tally = &run.tally;
    let last = tally.last_before;
    let exceptions = tally.exceptions.all();
    write_ending(out, listing, run.stop, hardware, &tally.last_stores);
    write_stuck(out, run.stop, hardware, exceptions, last);
    write_first_way(out, listing, hardware, exceptions, last);
    write_exceptions(out, listing, &tally.exceptions);
    write_whole_end(out, listing, run.stop, exceptions, last);
    write_interrupts(out, listing, &tally.interrupts);
    write_untaken_lines(out, hardware, tally);
    write_lead(out, listing, hardware, run);
    write_costs(out, listing, run);
}

// The sentences on a path, where one is shown.
#[tactic(auto, using(rv_text::proofs::Saying::saying), unfolding(crate::specs::Explanation::path_text))]
fn write_path<W: Write>(out: &mut Sink<'_, W>, path: Option<&PathAccount>, listing: &Listing)
    ensures { Says W.contents out.old out.new (path_text listing.now (option_copied path.entry)) }
{
    if let Some(path) = path {
        path.write_sentences(out, listing);
    }
}

// The sentences on a run that ended, or on a crash that stands alone.
#[tactic(auto, using(rv_text::proofs::Saying::saying), unfolding(crate::specs::Explanation::run_text))]
fn write_run<W: Write>(
    out: &mut Sink<'_, W>,
    crash: Option<Exception>,
    listing: &Listing,
    hardware: &ShownHardware<'_>,
    run: &Tallied,
)
    requires { CanBeWritten hardware.now run.now }
    ensures { Says W.contents out.old out.new (run_text crash listing.now hardware.now run.now) }
{
    match crash {
        Some(crash) => write_crash(
            out,
            listing,
            hardware,
            &crash,
            run.tally.last_before,
            &run.tally.interrupts,
        ),
        None => write_whole(out, listing, hardware, run),
    }
}

// The sentences on a path, where one is shown, and then those on a run.
fn write_sentences<W: Write>(
    out: &mut Sink<'_, W>,
    figures: Figures,
    path: Option<&PathAccount>,
    listing: &Listing,
    hardware: &ShownHardware<'_>,
    run: &Tallied,
)
    requires { CanBeWritten hardware.now run.now }
    ensures { Says W.contents out.old out.new
        (explanation figures (option_copied path.entry) listing.now hardware.now run.now) }
{
    let crash = lone_crash(figures, run.stop, run.tally.exceptions.all());
    write_path(out, path, listing);
    write_run(out, crash, listing, hardware, run);
}

// Writes them as far as no write fails.
#[tactic(auto, using(rv_text::proofs::Saying::says_written))]
fn write_run_text<W: Write>(
    writer: &mut W,
    figures: Figures,
    path: Option<&PathAccount>,
    listing: &Listing,
    hardware: &ShownHardware<'_>,
    run: &Tallied,
) -> Result<(), ReportError>
    requires { CanBeWritten hardware.now run.now }
    ensures { IsWritten result (W.contents writer.old) (W.contents writer.new)
        (explanation figures (option_copied path.entry) listing.now hardware.now run.now) }
{
    let mut out = Sink::new(writer);
    write_sentences(&mut out, figures, path, listing, hardware, run);
    out.outcome()
}

/// Runs a pipeline that a predictor guides, each cycle with the lines of its number, up to a breakpoint, a stale word,
/// exhaustion or so many cycles, and then writes what the run came to, in plain sentences: where a path is shown, its greatest
/// causes with their lines; how it ended, where and why, for a stale word the last store to it, and of a return that goes to
/// itself why it does; how it came to its first exception, as an empty program, past its last line or out of RAM; its
/// exceptions, where a program ends if it crashed where it may have been meant to end, its interrupts, and the interrupt lines
/// that are high and were never taken; what instructions in flight waited for most, and what became of most places for
/// dispatch; the line that was awaited most, and the one that stood longest at the head of the reorder buffer; what became of
/// all places; where the cycles went; how many dispatched only what did not retire; how many words were fetched and how many of
/// them squashed; how many branches and jumps retired, and how many of them were mispredicted, with the three lines that most
/// of those come from; why instructions stayed in flight; what its loads and the drains of its stores cost; and the five lines
/// that most cycles left at the head of the reorder buffer, or that had flushed it, with their loads and stores. Where the
/// program crashed, its first exception, how it came there, where a program ends and the interrupts alone are explained, unless
/// the figures are asked for. The description says where RAM lies, whose words are counted, and what loads and drains cost. The
/// listing is that of the program, whose lines are shown. Answers why the run ended.
///
/// # Errors
///
/// `Memory` when out of memory: then nothing was run and nothing was written. `WriteFailed` where a write fails: then what was
/// written is a beginning of the sentences, and the run is done to its end.
pub fn write_explanation<S: Simulated, W: Write>(
    alloc: Global,
    pipeline: &mut S,
    predictor: &mut dyn Predictor,
    description: &Description,
    arrivals: &Arrivals,
    limit: u64,
    figures: Figures,
    path: Option<&PathAccount>,
    listing: &Listing,
    writer: &mut W,
) -> Result<Stop, TextError>
    ensures written { IsText (IsExplanation arrivals.now limit figures description.now (option_copied path.entry)
        listing.now (guided (S.hardware pipeline.old) (known predictor.old))
        (guided (S.hardware pipeline.new) (known predictor.new)))
        result (W.contents writer.old) (W.contents writer.new) }
    // With a described predictor the sentences are a function of what they explain.
    ensures one_explanation { HasOneText limit
        (IsExplanation arrivals.now limit figures description.now (option_copied path.entry) listing.now) }
    ensures not_run { result ≡ Err TextError.Memory →
        (S.hardware pipeline.new ≡ S.hardware pipeline.old) × (known predictor.new ≡ known predictor.old) }
{
    let Ok(beginning) = begin(alloc, pipeline, description) else {
        return Err(TextError::Memory);
    };
    let tallied = run_tallied(
        pipeline,
        predictor,
        description,
        arrivals,
        limit,
        beginning.following,
        beginning.tally,
    );
    let stop = tallied.stop;
    let written = write_run_text(writer, figures, path, listing, &pipeline.shown(), &tallied);
    // By one call: at each end of its scope a tally is dropped field by field.
    drop(tallied);
    match written {
        Ok(()) => Ok(stop),
        Err(ReportError::WriteFailed) => Err(TextError::WriteFailed),
    }
}
