ghost use Rattle.std.specs.Prelude.{◌≡◌, ◌+◌, ◌≤◌, ◌<◌, ◌^◌, [], IfErr, IfOk, IfSome, length};
ghost use Rattle.std.specs.Option.{option_map};
ghost use Rattle.rv_counts.specs.Places.{CanPlace, placed_after, run_places};
ghost use Rattle.rv_hardware.specs.Guided.{guided};
ghost use Rattle.rv_report.specs.Comparison.{RunsTo};
ghost use Rattle.rv_report.specs.Learned.{IsTaughtByRun};
ghost use Rattle.rv_report.specs.Shown.{places_shown};
ghost use Rattle.rv_report.specs.Speculation.{in_flight};
ghost use Rattle.rv_report.specs.Tally.{losses_with};

use crate::events::EventCounter;
use crate::losses::{ComparedRun, Losses};
use crate::shown::{Columns, Shown, TableOptions, shows_places, words};
use crate::speculation::Speculation;
use crate::totals::{StepCounts, Totals};
use rv_core::Pipeline;
use rv_counts::RunPlaces;
use rv_front::{Front, Predictor};
use rv_hardware::Step;
use rv_isa::{Arrivals, Values};
use rv_rob::Rob;
use rv_watch::{Progress, ShownHardware, Simulated, Watcher};
use std::alloc::{AllocError, Global};
use std::convert::Infallible;
use std::io;
use std::io::Write;

// What is counted of a run so far.
#[derive(Drop)]
struct Tally {
    counts: StepCounts,
    speculation: Speculation,
    events: EventCounter,
    // What became of the places, where that is to be shown.
    places: Option<RunPlaces>,
}

impl Watcher for Tally {
    ghost use Rattle.rv_report.specs.Tally.{HasPlaced, IsTallied};

    type Refusal = Infallible;

    ghost has_seen = { λ start tally seen _ _. IsTallied tally.counts tally.speculation tally.events seen ×
        HasPlaced start.places tally.places seen };

    ghost has_room = { λ _. Unit {0} };

    fn make_room(&mut self) -> Result<(), Infallible> {
        Ok(())
    }

    fn see<W: Write>(
        &mut self,
        cycle: u64,
        steps: &[Step],
        hardware: &ShownHardware<'_>,
        _: &Progress,
        _: &mut W,
    ) {
        // No more are in the reorder buffer than it may hold.
        let _ = in_buffer(hardware);
        self.counts.count_all(steps);
        self.events.follow(cycle, steps, hardware.drain_end());
        self.speculation
            .follow(cycle, steps, hardware.rob, hardware.front, hardware.pc);
        self.places = placed(
            self.places,
            hardware.values,
            cycle,
            steps,
            hardware.rob,
            hardware.front,
        );
    }
}

// What became of the places with one more cycle, where that is counted.
fn placed(
    places: Option<RunPlaces>,
    values: &Values,
    cycle: u64,
    steps: &[Step],
    rob: &Rob,
    front: &Front,
) -> Option<RunPlaces>
    requires { IfSome places (CanPlace values.now cycle steps.now rob.now front.now) }
    ensures { result ≡ option_map (placed_after values.now cycle steps.now rob.now front.now) places }
{
    match places {
        Some(run) => Some(run.with_cycle(values, cycle, steps, rob, front)),
        None => None,
    }
}

// How many instructions are in the reorder buffer.
fn in_buffer(hardware: &ShownHardware<'_>) -> usize
    ensures counted { result ≡ length hardware.now.rob.entries }
    ensures few { result ≤ 256 }
{
    hardware.rob.len()
}

// What became of the places of no cycle.
fn none_placed(hardware: &ShownHardware<'_>) -> RunPlaces
    ensures { result ≡ run_places hardware.now [] hardware.now }
{
    RunPlaces::begin(hardware.reorder_buffer())
}

// The same, where that is to be shown.
fn no_places(shown: &Columns<Option<Shown>>, hardware: &ShownHardware<'_>) -> Option<RunPlaces>
    ensures { result ≡ places_shown shown.now hardware.now [] hardware.now }
{
    if shows_places(shown) {
        Some(none_placed(hardware))
    } else {
        None
    }
}

// How many instructions are in flight.
fn count_in_flight(hardware: &ShownHardware<'_>) -> u64
    ensures count { result ≡ in_flight hardware.now.rob hardware.now.front }
    ensures few { result ≤ 288 }
{
    (hardware.rob.len() + hardware.front.len()) as u64
}

// What a run lost that left so many instructions in flight.
fn losses(tally: &Tally, left: u64) -> Losses
    requires { tally.now.counts.retired + tally.now.counts.traps + left < 2 ^ 64 }
    ensures { result ≡ losses_with tally.now.speculation tally.now.counts left }
{
    let ended = tally.counts.retired + tally.counts.traps;
    Losses {
        mispredicted: tally.speculation.mispredicted(),
        squashed: tally.speculation.fetched().saturating_sub(ended + left),
    }
}

/// Runs a pipeline that a predictor guides, each cycle with the lines of its number, up to a breakpoint, a stale word,
/// exhaustion or the limit of cycles. Answers what the run came to, with the words that are to be shown at its end, and
/// with what became of the places for dispatch where that is to be shown. The predictor learns what the run teaches it.
/// The only error is out of memory, in which nothing was run.
pub fn run_totals(
    alloc: Global,
    pipeline: Pipeline,
    predictor: &mut dyn Predictor,
    arrivals: &Arrivals,
    options: &TableOptions,
) -> Result<ComparedRun, AllocError>
    ensures run { IfOk result (RunsTo arrivals.now options.now (guided pipeline (known predictor.old))) }
    ensures learned { IfOk result (λ _. IsTaughtByRun arrivals.now options.now.limit
        (guided pipeline (known predictor.old)) (known predictor.new)) }
    ensures not_run { IfErr result (λ _. known predictor.new ≡ known predictor.old) }
{
    let mut pipeline = pipeline;
    let hardware = pipeline.shown();
    // No more are in the reorder buffer than it may hold.
    let _ = in_buffer(&hardware);
    let events = EventCounter::begin(&hardware);
    let places = no_places(&options.shown, &hardware);
    let speculation = Speculation::begin(alloc, hardware.rob, hardware.front)?;
    let steps = Vec::with_capacity(alloc, 8)?;
    let mut tally = Tally {
        counts: StepCounts::default(),
        speculation,
        events,
        places,
    };
    let ended = pipeline.watch(
        predictor,
        arrivals,
        options.limit,
        steps,
        &mut tally,
        &mut io::sink(),
    );
    // It counts so many cycles at most, and so the counts can go on.
    let _ = pipeline.is_exhausted();
    let left = pipeline.shown();
    match ended.stop {
        Ok(stop) => Ok(ComparedRun {
            totals: Totals::new(&ended.progress, tally.counts, stop),
            losses: losses(&tally, count_in_flight(&left)),
            events: tally.events.counts,
            words: words(&left, &options.shown),
            places: tally.places,
        }),
    }
}
