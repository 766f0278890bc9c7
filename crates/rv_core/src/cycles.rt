ghost use Rattle.std.specs.Prelude.{◌≡◌, ◌+◌, ◌^◌, ◌<◌, ◌≤◌, vec_capacity, List, IfOk};
ghost use Rattle.rv_isa.specs.declared.lines.Arrival.{Arrival};
ghost use Rattle.rv_front.specs.Guide.{Guide};
ghost use Rattle.rv_hardware.specs.Hardware.{Hardware};
ghost use Rattle.rv_hardware.specs.Headline.{IsTrueStop};
ghost use Rattle.rv_hardware.specs.Seen.{layout_of, seen};
ghost use Rattle.rv_watch.specs.Progress.{IsBounded, progress_after};
ghost use Rattle.rv_core.specs.Taking.{TakesNextCycle};
ghost use Rattle.rv_core.specs.RunDone.{IsDone, KeepsItsPromise, reported, reported_so_far, reported_with};
ghost use Rattle.rv_core.specs.Steps.{HasRoom};
ghost use Rattle.rv_core.specs.Reported.{report_with};
ghost use Rattle.rv_hardware.specs.Run.{is_silent as has_no_step};
ghost use Rattle.rv_hardware.specs.declared.step.Step.{Step as StepOf};

use crate::collector::Collector;
use crate::errors::OutOfMemory;
use crate::outcome::{CycleEnd, Outcome};
use crate::pipeline::Pipeline;
use crate::steps::Steps;
use crate::watching::watch;
use rv_arch::Stop;
use rv_front::Predictor;
use rv_hardware::Step;
use rv_isa::Arrivals;
use rv_watch::Progress;
use std::alloc::Global;
use std::io;

/// Does cycles of a pipeline that a predictor guides, each with the lines of its number, up to a breakpoint, a stale word,
/// exhaustion or `limit` cycles, in this order where they come together; the limit comes before exhaustion.
///
/// # Errors
///
/// `OutOfMemory` where there is no memory for the steps of a further cycle. It carries what was done, and the pipeline
/// stands at the end of its last whole cycle.
pub fn run(
    alloc: Global,
    pipeline: &mut Pipeline,
    predictor: &mut dyn Predictor,
    arrivals: &Arrivals,
    limit: u64,
) -> Result<Outcome, OutOfMemory>
    ensures cycles { IsDone arrivals.now limit pipeline.old (known predictor.old)
        pipeline.new (known predictor.new) result }
    ensures promised { KeepsItsPromise arrivals.now pipeline.old pipeline.new result }
    ensures stopped { IfOk result (λ outcome. IsTrueStop (layout_of pipeline.old.values) arrivals.now limit
        pipeline.old.cycle pipeline.new.cycle outcome.steps.items (seen pipeline.new) outcome.stop) }
{
    // Of hardware that a reset and cycles lead to, the promise holds.
    let _ = pipeline.cycles_done();
    run_cycles(alloc, pipeline, predictor, arrivals, limit)
}

fn run_cycles(
    alloc: Global,
    pipeline: &mut Pipeline,
    predictor: &mut dyn Predictor,
    arrivals: &Arrivals,
    limit: u64,
) -> Result<Outcome, OutOfMemory>
    ensures { IsDone arrivals.now limit pipeline.old (known predictor.old) pipeline.new (known predictor.new) result }
{
    let Ok(list) = Vec::with_capacity(alloc, 8) else {
        return not_run(alloc, limit);
    };
    collect(alloc, pipeline, predictor, arrivals, limit, list)
}

// What a run comes to for whose first cycle there is no memory. One of no cycle needs none.
fn not_run(alloc: Global, limit: u64) -> Result<Outcome, OutOfMemory>
    ensures { (arrivals : List Arrival) (h : Hardware) (guide : Guide) →
        IsDone arrivals limit h guide h guide result }
{
    let progress = Progress::new();
    let steps = Vec::new(alloc);
    if limit == 0 {
        return Ok(outcome(progress, steps, Stop::Limit));
    }
    Err(out_of_memory(progress, steps))
}

// Runs a pipeline, and collects the steps of its cycles, each of which the list has room for.
fn collect(
    alloc: Global,
    pipeline: &mut Pipeline,
    predictor: &mut dyn Predictor,
    arrivals: &Arrivals,
    limit: u64,
    list: Vec<Step>,
) -> Result<Outcome, OutOfMemory>
    requires room { 8 ≤ vec_capacity list }
    ensures { IsDone arrivals.now limit pipeline.old (known predictor.old) pipeline.new (known predictor.new) result }
{
    let mut collector = Collector::new(alloc);
    let ended = watch(
        pipeline,
        predictor,
        arrivals,
        limit,
        list,
        &mut collector,
        &mut io::sink(),
    );
    let progress = ended.progress;
    match ended.stop {
        Ok(stop) => Ok(outcome(progress, collector.steps, stop)),
        Err(_) => Err(out_of_memory(progress, collector.steps)),
    }
}

/// Does one more cycle of a run, with the lines of its number and guided by a predictor, whose steps are taken by what
/// has room for eight, and counts it. Takes no memory. Returns why the run stops with this cycle, if it does.
pub(crate) fn run_cycle(
    progress: &mut Progress,
    pipeline: &mut Pipeline,
    predictor: &mut dyn Predictor,
    arrivals: &Arrivals,
    steps: &mut Steps,
) -> Option<Stop>
    requires exhausted { pipeline.old.cycle < 2 ^ 40 }
    requires room { HasRoom steps.old 8 }
    requires bounded { IsBounded progress.old }
    requires countable { progress.old.cycles < 18446744073709551615 }
    ensures { TakesNextCycle arrivals.now pipeline.old (known predictor.old) pipeline.new (known predictor.new)
        steps.old steps.new progress.old progress.new result }
{
    let before = steps.count;
    let end = pipeline.advance(predictor, arrivals.at(pipeline.cycles_done()), steps);
    count(progress, steps.count == before, &end);
    end.stop
}

// Counts one more cycle, which had a step, or was silent.
fn count(progress: &mut Progress, is_silent: bool, end: &CycleEnd)
    requires bounded { IsBounded progress.old }
    requires countable { progress.old.cycles < 18446744073709551615 }
    ensures { (steps : List StepOf) → has_no_step steps ≡ is_silent →
        progress.new ≡ progress_after (report_with steps end.now) progress.old }
{
    progress.cycles += 1;
    if end.dispatched > 0 {
        progress.busy += 1;
    }
    if let Some(stall) = end.stall {
        progress.stalls.count(stall);
    }
    progress.stall = end.stall;
    progress.silent = if is_silent { progress.silent + 1 } else { 0 };
    progress.longest_gap = progress.longest_gap.max(progress.silent);
}

fn outcome(progress: Progress, steps: Vec<Step>, stop: Stop) -> Outcome
    ensures counts { reported result ≡ reported_with progress steps.items }
    ensures stop { result.stop ≡ stop }
{
    Outcome {
        steps,
        stalls: progress.stalls,
        busy: progress.busy,
        cycles: progress.cycles,
        longest_gap: progress.longest_gap,
        stop,
    }
}

fn out_of_memory(progress: Progress, steps: Vec<Step>) -> OutOfMemory
    ensures { reported_so_far result ≡ reported_with progress steps.items }
{
    OutOfMemory {
        steps,
        stalls: progress.stalls,
        busy: progress.busy,
        cycles: progress.cycles,
        longest_gap: progress.longest_gap,
    }
}
