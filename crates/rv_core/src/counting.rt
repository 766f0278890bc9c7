ghost use Rattle.std.specs.Prelude.{◌+◌, ◌≤◌};
ghost use Rattle.rv_core.specs.Counted.{AreCounts, IsCountedRun};

use crate::cycles::run_cycle;
use crate::pipeline::Pipeline;
use crate::steps::Steps;
use rv_arch::Stop;
use rv_front::Predictor;
use rv_isa::Arrivals;
use rv_watch::Progress;

/// What a run came to whose steps were counted.
#[derive(Clone, Copy)]
pub struct Counted {
    /// The counts of its cycles.
    pub progress: Progress,
    /// Why it ended.
    pub stop: Stop,
    /// The instructions that retired.
    pub retired: u64,
    /// The traps, breakpoints included.
    pub traps: u64,
    /// The interrupts.
    pub interrupts: u64,
}

fn counts(progress: Progress, steps: &Steps, stop: Stop) -> Counted
    requires { steps.now.traps + steps.now.interrupts ≤ steps.now.count }
    ensures { AreCounts progress steps.now stop result }
{
    Counted {
        progress,
        stop,
        retired: steps.count - (steps.traps + steps.interrupts),
        traps: steps.traps,
        interrupts: steps.interrupts,
    }
}

/// Runs a pipeline that a predictor guides, each cycle with the lines of its number, up to a breakpoint, a stale word,
/// exhaustion or `limit` cycles, in this order where they come together; the limit comes before exhaustion. Counts its
/// steps, and lists none of them. Asks for no memory.
pub fn count_run(
    pipeline: &mut Pipeline,
    predictor: &mut dyn Predictor,
    arrivals: &Arrivals,
    limit: u64,
) -> Counted
    ensures { IsCountedRun arrivals.now limit pipeline.old (known predictor.old)
        pipeline.new (known predictor.new) result }
{
    let mut steps = Steps::counting();
    let mut progress = Progress::new();
    for _ in 0..limit {
        if pipeline.is_exhausted() {
            return counts(progress, &steps, Stop::Exhausted);
        }
        if let Some(stop) = run_cycle(&mut progress, pipeline, predictor, arrivals, &mut steps) {
            return counts(progress, &steps, stop);
        }
    }
    counts(progress, &steps, Stop::Limit)
}
