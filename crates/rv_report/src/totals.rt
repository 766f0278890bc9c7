ghost use Rattle.std.specs.Prelude.{◌≡◌, ◌+◌, ◌<◌, ◌^◌, if◌then◌else◌, length};
ghost use Rattle.rv_hardware.specs.Step.{is_interrupt, is_retirement, is_trap};
ghost use Rattle.rv_report.specs.Totals.{HasRoom, both_counts, counts_of, totals_of, totals_with};

use rv_arch::Stop;
use rv_core::Outcome;
use rv_hardware::{StallCounts, Step};
use rv_watch::Progress;

/// How many steps there were of each sort.
#[derive(Clone, Copy, Default)]
pub struct StepCounts {
    /// Retirements.
    pub retired: u64,
    /// Traps, breakpoints included.
    pub traps: u64,
    /// Interrupts that were taken.
    pub interrupts: u64,
}

impl StepCounts {
    /// Counts one more step.
    pub fn count(&mut self, step: &Step)
        requires retired { self.old.retired + 1 < 2 ^ 64 }
        requires traps { self.old.traps + 1 < 2 ^ 64 }
        requires interrupts { self.old.interrupts + 1 < 2 ^ 64 }
        ensures retired { self.new.retired ≡ self.old.retired + (if is_retirement step.now then 1 else 0) }
        ensures traps { self.new.traps ≡ self.old.traps + (if is_trap step.now then 1 else 0) }
        ensures interrupts { self.new.interrupts ≡ self.old.interrupts + (if is_interrupt step.now then 1 else 0) }
    {
        match step {
            Step::Retired(_) => self.retired += 1,
            Step::Trap { .. } => self.traps += 1,
            Step::Interrupt { .. } => self.interrupts += 1,
        }
    }

    /// Counts more steps.
    pub(crate) fn count_all(&mut self, steps: &[Step])
        requires room { HasRoom self.old (length steps.now) }
        ensures { self.new ≡ both_counts self.old (counts_of steps.now) }
    {
        let more = count_steps(steps);
        self.retired += more.retired;
        self.traps += more.traps;
        self.interrupts += more.interrupts;
    }
}

/// Counts steps by their sort.
pub fn count_steps(steps: &[Step]) -> StepCounts
    ensures { result ≡ counts_of steps.now }
{
    let mut counts = StepCounts::default();
    for step in steps {
        counts.count(step);
    }
    counts
}

/// What a run of the core came to.
#[derive(Clone, Copy)]
pub struct Totals {
    /// Why the run ended.
    pub stop: Stop,
    /// The cycles done.
    pub cycles: u64,
    /// The steps, by their sort.
    pub steps: StepCounts,
    /// The greatest number of consecutive cycles without a step.
    pub longest_gap: u64,
    /// The cycles that dispatched something.
    pub busy: u64,
    /// The cycles that dispatched nothing, by the reason.
    pub stalls: StallCounts,
}

impl Totals {
    /// What the counts of a run's cycles and steps come to.
    pub(crate) fn new(progress: &Progress, steps: StepCounts, stop: Stop) -> Totals
        ensures { result ≡ totals_with progress.now steps stop }
    {
        Totals {
            stop,
            cycles: progress.cycles,
            steps,
            longest_gap: progress.longest_gap,
            busy: progress.busy,
            stalls: progress.stalls,
        }
    }

    /// What an outcome comes to.
    pub fn of(outcome: &Outcome) -> Totals
        ensures { result ≡ totals_of outcome.now }
    {
        Totals {
            stop: outcome.stop,
            cycles: outcome.cycles,
            steps: count_steps(outcome.steps.as_slice()),
            longest_gap: outcome.longest_gap,
            busy: outcome.busy,
            stalls: outcome.stalls,
        }
    }
}
