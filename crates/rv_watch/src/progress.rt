ghost use Rattle.std.specs.Prelude.{◌≡◌, []};

use rv_hardware::{Stall, StallCounts};

/// The counts of a run so far.
#[derive(Clone, Copy)]
pub struct Progress {
    /// The cycles that dispatched nothing, by the reason.
    pub stalls: StallCounts,
    /// The cycles that dispatched something.
    pub busy: u64,
    /// The cycles done.
    pub cycles: u64,
    /// What the last cycle waited for, where it dispatched nothing.
    pub stall: Option<Stall>,
    /// The cycles since the last step.
    pub silent: u64,
    /// The greatest number of consecutive cycles without a step.
    pub longest_gap: u64,
}

impl Progress {
    ghost use Rattle.rv_watch.specs.Progress.{progress_of};

    /// The counts of no cycle.
    pub fn new() -> Progress
        ensures { result ≡ progress_of [] }
    {
        Progress {
            stalls: StallCounts::new(),
            busy: 0,
            cycles: 0,
            stall: None,
            silent: 0,
            longest_gap: 0,
        }
    }
}
