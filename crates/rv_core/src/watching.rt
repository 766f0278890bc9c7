ghost use Rattle.std.specs.Prelude.{◌≡◌, ◌≤◌, vec_capacity};
ghost use Rattle.rv_hardware.specs.Guided.{guided};
ghost use Rattle.rv_watch.specs.Watching.{HasSeenBegin, IsNextShown, IsWatchedRun, SeesNext};

use crate::cycles::run_cycle;
use crate::pipeline::Pipeline;
use crate::steps::Steps;
use rv_arch::Stop;
use rv_front::Predictor;
use rv_hardware::Step;
use rv_isa::Arrivals;
use rv_watch::{Ended, Progress, Watcher};
use std::io::Write;

fn finished<R>(progress: Progress, stop: Result<Stop, R>) -> Ended<R>
    ensures progress { result.progress ≡ progress }
    ensures stop { result.stop ≡ stop }
{
    Ended { progress, stop }
}

// Shows a watcher the next cycle, which left the pipeline.
fn show<T: Watcher, W: Write>(
    watcher: &mut T,
    cycle: u64,
    steps: &[Step],
    pipeline: &Pipeline,
    progress: &Progress,
    output: &mut W,
)
    requires room { T.has_room watcher.old }
    requires shown { IsNextShown T.has_seen watcher.old cycle steps.now pipeline.now progress.now
        (W.contents output.old) }
    ensures { SeesNext T.has_seen watcher.old watcher.new cycle steps.now pipeline.now progress.now
        (W.contents output.old) (W.contents output.new) }
{
    watcher.see(cycle, steps, &pipeline.lent(), progress, output);
}

/// Runs a pipeline that a predictor guides, each cycle with the lines of its number, up to a breakpoint, a stale word,
/// exhaustion or `limit` cycles, in this order where they come together; the limit comes before exhaustion. Each cycle is
/// shown to a watcher, which writes to the output what it says of it. Asks for no memory but what the watcher asks for
/// before a cycle; where it refuses, the pipeline stands at the end of its last whole cycle. `steps` is a list with room for
/// the eight steps of a cycle.
pub(crate) fn watch<T: Watcher, W: Write>(
    pipeline: &mut Pipeline,
    predictor: &mut dyn Predictor,
    arrivals: &Arrivals,
    limit: u64,
    steps: Vec<Step>,
    watcher: &mut T,
    output: &mut W,
) -> Ended<T::Refusal>
    requires room { 8 ≤ vec_capacity steps }
    requires ready { HasSeenBegin T.has_seen watcher.old arrivals.now (guided pipeline.old (known predictor.old))
        (W.contents output.old) }
    ensures { IsWatchedRun T.has_seen arrivals.now limit (guided pipeline.old (known predictor.old))
        (guided pipeline.new (known predictor.new)) result.progress result.stop watcher.old watcher.new
        (W.contents output.old) (W.contents output.new) }
{
    let mut steps = Steps::listing(steps);
    let mut progress = Progress::new();
    for _ in 0..limit {
        if pipeline.is_exhausted() {
            return finished(progress, Ok(Stop::Exhausted));
        }
        if let Err(refusal) = watcher.make_room() {
            return finished(progress, Err(refusal));
        }
        steps.clear();
        let cycle = pipeline.cycles_done();
        let stop = run_cycle(&mut progress, pipeline, predictor, arrivals, &mut steps);
        show(
            watcher,
            cycle,
            steps.as_slice(),
            pipeline,
            &progress,
            output,
        );
        if let Some(stop) = stop {
            return finished(progress, Ok(stop));
        }
    }
    finished(progress, Ok(Stop::Limit))
}
