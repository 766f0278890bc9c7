ghost use Rattle.std.specs.Prelude.{◌≡◌, ◌+◌, ◌≤◌, ◌<◌, ◌++◌, [], ◌∷◌, List, IfOk, OnErr, length, vec_capacity};
ghost use Rattle.rv_hardware.specs.Guided.{guided};
ghost use Rattle.rv_hardware.specs.History.{Moment};
ghost use Rattle.std.specs.List.{find};
ghost use Rattle.std.specs.Option.{option_copied};
ghost use Rattle.rv_passage.specs.EndedRun.{IsEndedRun};
ghost use Rattle.rv_passage.specs.Passage.{is_in_flight};
ghost use Rattle.rv_passage.specs.Table.{passages_of};
ghost use Rattle.rv_picture.specs.Recording.{IsRecorded, held_by, is_limit, recorded_from, stopped_at};
ghost use Rattle.rv_view.specs.Run.{HasRun};

use rv_arch::Stop;
use rv_drawing::Window;
use rv_front::Predictor;
use rv_hardware::{Stall, Step};
use rv_isa::Arrivals;
use rv_passage::{Passage, Table};
use rv_view::{begin_table, follow};
use rv_watch::{Progress, ShownHardware, Simulated, Watcher};
use std::alloc::{AllocError, Global};
use std::convert::Infallible;
use std::io;
use std::io::Write;

/// What became of the instructions in some cycles of a run.
#[derive(Drop)]
pub(crate) struct Recording {
    /// The instructions, those that were in flight before the cycles too, and the interrupts.
    pub(crate) table: Table,
    /// The cycles.
    pub(crate) window: Window,
    /// What each of them waited for, where it dispatched nothing.
    pub(crate) stalls: Vec<Option<Stall>>,
    /// Why the run ended.
    pub(crate) stop: Stop,
}

// The watcher of the cycles that no picture shows.
#[derive(Clone, Copy)]
struct Nobody;

impl Watcher for Nobody {
    type Refusal = Infallible;

    ghost has_seen = { λ _ _ _ _ _. Unit {0} };

    ghost has_room = { λ _. Unit {0} };

    fn make_room(&mut self) -> Result<(), Infallible> {
        Ok(())
    }

    fn see<W: Write>(
        &mut self,
        _: u64,
        _: &[Step],
        _: &ShownHardware<'_>,
        _: &Progress,
        _: &mut W,
    ) {}
}

// The watcher that follows the instructions, and notes what each cycle waits for.
#[derive(Drop)]
struct Follower {
    table: Table,
    stalls: Vec<Option<Stall>>,
}

impl Watcher for Follower {
    ghost use Rattle.std.specs.Prelude.{◌<◌, length, vec_capacity};
    ghost use Rattle.rv_passage.specs.Table.{HasRoom, passages_of};
    ghost use Rattle.rv_picture.specs.Recording.{IsRecording};

    type Refusal = AllocError;

    ghost has_seen = { λ _ follower seen _ _. IsRecording (passages_of follower.table) follower.stalls.items seen };

    ghost has_room = { λ follower. HasRoom follower.table ×
        (length follower.stalls.items < vec_capacity follower.stalls) };

    fn make_room(&mut self) -> Result<(), AllocError> {
        self.table.make_room()?;
        self.stalls.reserve(1)
    }

    fn see<W: Write>(
        &mut self,
        cycle: u64,
        steps: &[Step],
        hardware: &ShownHardware<'_>,
        progress: &Progress,
        _: &mut W,
    ) {
        follow(&mut self.table, cycle, steps, hardware);
        note(&mut self.stalls, progress.stall);
    }
}

// Notes what a cycle waited for.
fn note(stalls: &mut Vec<Option<Stall>>, stall: Option<Stall>)
    requires { length stalls.old.items < vec_capacity stalls.old }
    ensures { stalls.new.items ≡ stalls.old.items ++ stall ∷ [] }
{
    stalls.push(stall).unwrap();
}

// Runs a pipeline that a predictor guides up to so many cycles. Answers why the run ended.
fn run_on<S: Simulated>(
    pipeline: &mut S,
    predictor: &mut dyn Predictor,
    arrivals: &Arrivals,
    limit: u64,
    steps: Vec<Step>,
) -> Stop
    requires { 8 ≤ vec_capacity steps }
    ensures { (moments : List Moment)
        × IsEndedRun arrivals.now limit (guided (S.hardware pipeline.old) (known predictor.old)) moments
        (guided (S.hardware pipeline.new) (known predictor.new)) result }
{
    let ended = pipeline.watch(
        predictor,
        arrivals,
        limit,
        steps,
        &mut Nobody,
        &mut io::sink(),
    );
    match ended.stop {
        Ok(stop) => stop,
    }
}

// Runs a pipeline that a predictor guides up to so many cycles, and follows its instructions through them.
fn record_run<S: Simulated>(
    alloc: Global,
    pipeline: &mut S,
    predictor: &mut dyn Predictor,
    arrivals: &Arrivals,
    limit: u64,
) -> Result<Recording, AllocError>
    ensures followed { IfOk result (λ recording. IsRecorded arrivals.now 0 limit
        (guided (S.hardware pipeline.old) (known predictor.old))
        (guided (S.hardware pipeline.new) (known predictor.new)) recording.stop (held_by recording)) }
    ensures run { OnErr result (HasRun arrivals.now
        (guided (S.hardware pipeline.old) (known predictor.old))
        (guided (S.hardware pipeline.new) (known predictor.new))) }
{
    let first = pipeline.cycles_done();
    let table = begin_table(alloc, pipeline)?;
    let mut follower = Follower {
        table,
        stalls: Vec::new(alloc),
    };
    let steps = Vec::with_capacity(alloc, 8)?;
    let ended = pipeline.watch(
        predictor,
        arrivals,
        limit,
        steps,
        &mut follower,
        &mut io::sink(),
    );
    let stop = ended.stop?;
    let cycles = ended.progress.cycles;
    Ok(recorded(follower.table, first, cycles, follower.stalls, stop))
}

fn oldest_in_flight(rows: &[Passage]) -> Option<&Passage>
    ensures { option_copied result ≡ find is_in_flight rows.now }
{
    rows.iter().find(|row| row.is_in_flight())
}

// The number of the instruction whose stale word ended a run.
fn stopped_at(stop: Stop, rows: &[Passage]) -> Option<u64>
    ensures { result ≡ stopped_at stop rows.now }
{
    match stop {
        Stop::Stale(_) => Some(oldest_in_flight(rows)?.number),
        Stop::Limit | Stop::Breakpoint | Stop::Exhausted => None,
    }
}

// A recording of so many cycles from the first on.
fn recorded(
    table: Table,
    first: u64,
    cycles: u64,
    stalls: Vec<Option<Stall>>,
    stop: Stop,
) -> Recording
    ensures { result ≡ record {
      table = table;
      window = record { first = first; cycles = cycles; stopped = stopped_at stop (passages_of table).rows };
      stalls = stalls;
      stop = stop;
    } }
{
    let stopped = stopped_at(stop, table.rows());
    Recording {
        table,
        window: Window {
            first,
            cycles,
            stopped,
        },
        stalls,
        stop,
    }
}

fn is_limit(stop: Stop) -> bool
    ensures { result ≡ is_limit stop }
{
    matches!(stop, Stop::Limit)
}

// The recording of a run that ended before its window.
fn nothing_shown<S: Simulated>(
    alloc: Global,
    pipeline: &S,
    stop: Stop,
) -> Result<Recording, AllocError>
    ensures { IfOk result (λ recording. (held_by recording ≡ recorded_from (S.hardware pipeline.now) [] stop)
        × (recording.stop ≡ stop)) }
{
    let table = begin_table(alloc, pipeline)?;
    let first = pipeline.cycles_done();
    Ok(recorded(table, first, 0, Vec::new(alloc), stop))
}

/// Runs a pipeline that a predictor guides for `from` cycles, each with the lines of its number, and then up to `limit`
/// cycles in which it follows the instructions. A breakpoint, a stale word or exhaustion ends the run; where that is before
/// the window begins, no cycle is recorded.
///
/// Fails only when out of memory; memory is asked for before each cycle, and the pipeline stands at the end of a cycle then.
pub(crate) fn record_window<S: Simulated>(
    alloc: Global,
    pipeline: &mut S,
    predictor: &mut dyn Predictor,
    arrivals: &Arrivals,
    from: u64,
    limit: u64,
) -> Result<Recording, AllocError>
    ensures recording { IfOk result (λ recording. IsRecorded arrivals.now from (from + limit)
        (guided (S.hardware pipeline.old) (known predictor.old))
        (guided (S.hardware pipeline.new) (known predictor.new)) recording.stop (held_by recording)) }
    ensures run { OnErr result (HasRun arrivals.now
        (guided (S.hardware pipeline.old) (known predictor.old))
        (guided (S.hardware pipeline.new) (known predictor.new))) }
{
    let steps = Vec::with_capacity(alloc, 8)?;
    let stop = run_on(pipeline, predictor, arrivals, from, steps);
    if is_limit(stop) {
        record_run(alloc, pipeline, predictor, arrivals, limit)
    } else {
        nothing_shown(alloc, pipeline, stop)
    }
}
