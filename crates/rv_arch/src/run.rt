ghost use Rattle.std.specs.Prelude.{◌≡◌, ℕ, ◌+◌, ◌<◌, ◌≤◌, List, length, take, slice_index};
ghost use Rattle.rv_isa.specs.Arrivals.{lines_at};
ghost use Rattle.rv_arch.specs.Run.{Run, lines_through};
ghost use Rattle.rv_arch.specs.RunOutcome.{IsRunTo};
ghost use Rattle.rv_arch.specs.Step.{Step};
ghost use Rattle.rv_arch.specs.declared.outcome.RefStep.{RefStep as OneStep};

use crate::outcome::{RefOutcome, RefStep, Stop};
use crate::reference::Reference;
use rv_isa::Arrivals;

impl Reference {
    /// Takes a step for each stamp, with the lines as they are at that stamp, and ends before a step
    /// that would find a stale word. Answers the number of steps taken.
    pub fn run_stamps(&mut self, stamps: &[u64], arrivals: &Arrivals) -> usize
        ensures within { result ≤ length stamps.now }
        ensures run { (outcomes : List OneStep)
            × Run self.old.layout arrivals.now self.old.state (take result stamps.now) outcomes self.new.state }
        ensures ends_before_stale { result < length stamps.now
            → Step self.old.layout self.new.state (lines_at arrivals.now (slice_index stamps.now result))
            (RefStep.Stale self.new.state.pc) self.new.state }
        ensures layout { self.new.layout ≡ self.old.layout }
        ensures lines { self.new.lines ≡ lines_through arrivals.now self.old.lines (take (result + 1) stamps.now) }
    {
        for (taken, stamp) in stamps.iter().enumerate() {
            if let RefStep::Stale { .. } = self.step(arrivals.at(*stamp)) {
                return taken;
            }
        }
        stamps.len()
    }
}

/// Takes steps with the stamps 0, 1, 2 and so on, with the lines as they are at each stamp, up to a
/// breakpoint, a stale word or the limit.
pub fn run_reference(reference: &mut Reference, arrivals: &Arrivals, limit: u64) -> RefOutcome
    ensures { IsRunTo arrivals.now limit reference.old reference.new result }
{
    let mut outcome = RefOutcome {
        steps: 0,
        retired: 0,
        traps: 0,
        interrupts: 0,
        stop: Stop::Limit,
    };
    for stamp in 0..limit {
        let step = reference.step(arrivals.at(stamp));
        if let RefStep::Stale { pc } = step {
            outcome.stop = Stop::Stale(pc);
            return outcome;
        }
        outcome.count(&step);
        if step.is_breakpoint() {
            outcome.stop = Stop::Breakpoint;
            return outcome;
        }
    }
    outcome
}
