ghost use Rattle.std.specs.Prelude.{◌≡◌, ◌≤◌, ℕ, List, Option, true, false, vec_capacity};
ghost use Rattle.rv_hardware.specs.Guided.{guided};
ghost use Rattle.rv_report.specs.Learned.{IsTaughtByRun};
ghost use Rattle.rv_report.specs.LiveReport.{IsRunReport, IsTraced, Reports};

use crate::options::Options;
use crate::run_report::{say_totals, say_trace};
use crate::totals::{StepCounts, Totals};
use rv_arch::Stop;
use rv_core::{Pipeline, count_run};
use rv_front::Predictor;
use rv_hardware::Step;
use rv_isa::Arrivals;
use rv_text::{ReportError, Sink};
use rv_watch::{Progress, ShownHardware, Simulated, Watcher};
use std::convert::Infallible;
use std::io::Write;

// The steps of a run so far: how many there were of each sort, and whether a write of their lines failed.
#[derive(Clone, Copy)]
struct Trace {
    counts: StepCounts,
    has_failed: bool,
}

impl Watcher for Trace {
    ghost use Rattle.rv_report.specs.LiveReport.{HasTraced};

    type Refusal = Infallible;

    ghost has_seen = { λ _ trace seen before now. HasTraced trace.counts trace.has_failed seen.moments before now };

    ghost has_room = { λ _. Unit {0} };

    fn make_room(&mut self) -> Result<(), Infallible> {
        Ok(())
    }

    fn see<W: Write>(
        &mut self,
        _: u64,
        steps: &[Step],
        _: &ShownHardware<'_>,
        _: &Progress,
        output: &mut W,
    ) {
        self.counts.count_all(steps);
        let mut out = Sink::after(output, self.has_failed);
        say_trace(&mut out, true, steps);
        self.has_failed = out.has_failed();
    }
}

// A pipeline at the end of a run, what the run came to, and whether a write of its trace failed.
#[derive(Drop)]
struct Traced {
    pipeline: Pipeline,
    totals: Totals,
    has_failed: bool,
}

/// Runs a pipeline that a predictor guides, each cycle with the lines of its number, up to a breakpoint, a stale word,
/// exhaustion or the options' limit of cycles, and writes the report of the run: where a trace is asked for, the lines
/// of a cycle's steps after the cycle. `steps` is a list with room for the eight steps of a cycle. Asks for no memory.
/// Answers why the run ended. The predictor learns what the run teaches it.
///
/// Fails by `WriteFailed` alone, and what was written is then a beginning of the report: the run is done to its end, but
/// nothing more is written.
pub fn write_run<W: Write>(
    pipeline: Pipeline,
    predictor: &mut dyn Predictor,
    arrivals: &Arrivals,
    options: &Options,
    steps: Vec<Step>,
    writer: &mut W,
) -> Result<Stop, ReportError>
    requires room { 8 ≤ vec_capacity steps }
    ensures report { Reports (IsRunReport arrivals.now options.now (guided pipeline (known predictor.old)))
        result (W.contents writer.old) (W.contents writer.new) }
    ensures learned { IsTaughtByRun arrivals.now options.now.limit (guided pipeline (known predictor.old))
        (known predictor.new) }
{
    let run = run_to_end(pipeline, predictor, arrivals, options, steps, writer);
    let mut out = Sink::after(writer, run.has_failed);
    say_totals(&run.totals, &run.pipeline.shown(), options, &mut out);
    if out.has_failed() {
        Err(ReportError::WriteFailed)
    } else {
        Ok(run.totals.stop)
    }
}

// Runs a pipeline to the end, and writes the trace, where it is asked for, as far as no write fails.
fn run_to_end<W: Write>(
    pipeline: Pipeline,
    predictor: &mut dyn Predictor,
    arrivals: &Arrivals,
    options: &Options,
    steps: Vec<Step>,
    writer: &mut W,
) -> Traced
    requires room { 8 ≤ vec_capacity steps }
    ensures { IsTraced arrivals.now options.now (guided pipeline (known predictor.old))
        (guided result.pipeline (known predictor.new)) result.totals result.has_failed
        (W.contents writer.old) (W.contents writer.new) }
{
    if options.trace {
        run_traced(pipeline, predictor, arrivals, options, steps, writer)
    } else {
        run_counted(pipeline, predictor, arrivals, options)
    }
}

// Runs a pipeline to the end where no trace is asked for: the steps are counted alone.
fn run_counted(
    pipeline: Pipeline,
    predictor: &mut dyn Predictor,
    arrivals: &Arrivals,
    options: &Options,
) -> Traced
    requires no_trace { options.now.trace ≡ false }
    ensures { (output : Option (List ℕ)) → IsTraced arrivals.now options.now (guided pipeline (known predictor.old))
        (guided result.pipeline (known predictor.new)) result.totals result.has_failed output output }
{
    let mut pipeline = pipeline;
    let run = count_run(&mut pipeline, predictor, arrivals, options.limit);
    let counts = StepCounts {
        retired: run.retired,
        traps: run.traps,
        interrupts: run.interrupts,
    };
    Traced {
        pipeline,
        totals: Totals::new(&run.progress, counts, run.stop),
        has_failed: false,
    }
}

// Runs a pipeline to the end, and writes the trace as far as no write fails.
fn run_traced<W: Write>(
    pipeline: Pipeline,
    predictor: &mut dyn Predictor,
    arrivals: &Arrivals,
    options: &Options,
    steps: Vec<Step>,
    writer: &mut W,
) -> Traced
    requires room { 8 ≤ vec_capacity steps }
    requires traced { options.now.trace ≡ true }
    ensures { IsTraced arrivals.now options.now (guided pipeline (known predictor.old))
        (guided result.pipeline (known predictor.new)) result.totals result.has_failed
        (W.contents writer.old) (W.contents writer.new) }
{
    let mut pipeline = pipeline;
    let mut trace = Trace {
        counts: StepCounts::default(),
        has_failed: false,
    };
    let ended = pipeline.watch(
        predictor,
        arrivals,
        options.limit,
        steps,
        &mut trace,
        writer,
    );
    match ended.stop {
        Ok(stop) => Traced {
            pipeline,
            totals: Totals::new(&ended.progress, trace.counts, stop),
            has_failed: trace.has_failed,
        },
    }
}
