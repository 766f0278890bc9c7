ghost use Rattle.std.specs.Prelude.{◌≡◌, ◌^◌, ◌≤◌, nat_le, vec_capacity};

use crate::progress::Progress;
use crate::shown_hardware::ShownHardware;
use crate::watcher::Watcher;
use rv_arch::Stop;
use rv_front::Predictor;
use rv_hardware::Step;
use rv_isa::Arrivals;
use std::io::Write;

/// What a run came to that was watched.
#[derive(Clone, Copy)]
pub struct Ended<R> {
    /// The counts of its cycles.
    pub progress: Progress,
    /// Why it ended, or why its watcher refused to see more of it.
    pub stop: Result<Stop, R>,
}

/// Hardware that is simulated: it shows what it is between two cycles, and does runs that are watched.
pub trait Simulated {
    ghost use Rattle.rv_hardware.specs.Guided.{guided};
    ghost use Rattle.rv_hardware.specs.Hardware.{Hardware};
    ghost use Rattle.rv_hardware.specs.Run.{Reachable};
    ghost use Rattle.rv_watch.specs.Watching.{HasSeenBegin, IsWatchedRun};

    // What it is.
    ghost hardware: { Self → Hardware };

    /// Whether all the cycles that are counted are done.
    fn is_exhausted(&self) -> bool
        ensures exhausted { result ≡ nat_le (2 ^ 40) (hardware self.now).cycle }
        ensures within { (hardware self.now).cycle ≤ 2 ^ 40 };

    /// How many cycles are done, which is the number of the next one.
    fn cycles_done(&self) -> u64
        ensures number { result ≡ (hardware self.now).cycle }
        ensures reached { Reachable (hardware self.now) };

    /// Shows what it is.
    fn shown(&self) -> ShownHardware<'_>
        ensures { result ≡ hardware self.now };

    /// Does cycles that a predictor guides, each with the lines of its number, up to a breakpoint, a stale word,
    /// exhaustion or `limit` cycles, in this order where they come together; the limit comes before exhaustion. Each
    /// cycle is shown to a watcher, which writes to the output what it says of it. Asks for no memory but what the
    /// watcher asks for before a cycle; where it refuses, the hardware stands at the end of its last whole cycle. `steps`
    /// is a list with room for the eight steps of a cycle.
    fn watch<T: Watcher, W: Write>(
        &mut self,
        predictor: &mut dyn Predictor,
        arrivals: &Arrivals,
        limit: u64,
        steps: Vec<Step>,
        watcher: &mut T,
        output: &mut W,
    ) -> Ended<T::Refusal>
        requires room { 8 ≤ vec_capacity steps }
        requires ready { HasSeenBegin T.has_seen watcher.old arrivals.now
            (guided (hardware self.old) (known predictor.old)) (W.contents output.old) }
        ensures { IsWatchedRun T.has_seen arrivals.now limit (guided (hardware self.old) (known predictor.old))
            (guided (hardware self.new) (known predictor.new)) result.progress result.stop watcher.old watcher.new
            (W.contents output.old) (W.contents output.new) };
}
