ghost use Rattle.std.specs.Prelude.{◌≡◌, ◌+◌, ◌<◌, ◌^◌, if◌then◌else◌};

use rv_isa::{Cause, Reg};

/// What one step of the reference was.
#[derive(Clone, Copy, PartialEq, Eq)]
pub enum RefStep {
    /// The instruction `word` at `pc` retired. `written` is the register that it wrote, never x0,
    /// with the value.
    Retired {
        pc: u32,
        word: u32,
        written: Option<(Reg, u32)>,
    },
    /// The instruction at `pc`, or its fetch, trapped; `value` is the word in `mtval`.
    Trap {
        pc: u32,
        cause: Cause,
        value: u32,
    },
    /// An interrupt was taken before the instruction at `pc`; `cause` is the word in `mcause`.
    Interrupt {
        pc: u32,
        cause: u32,
    },
    /// The word at `pc` is stale; nothing changed.
    Stale {
        pc: u32,
    },
}

/// Why a run ended.
#[derive(Clone, Copy, PartialEq, Eq)]
pub enum Stop {
    /// The limit of steps or cycles was reached.
    Limit,
    /// A trap with cause 3 was taken.
    Breakpoint,
    /// The word at this pc is stale.
    Stale(u32),
    /// The core has done all the cycles that it can count. The reference never ends so.
    Exhausted,
}

/// What a run of the reference did.
#[derive(Clone, Copy, PartialEq, Eq)]
pub struct RefOutcome {
    /// The number of steps: retirements, traps and interrupts.
    pub steps: u64,
    /// The number of retired instructions.
    pub retired: u64,
    /// The number of traps, breakpoints included.
    pub traps: u64,
    /// The number of interrupts.
    pub interrupts: u64,
    /// Why the run ended.
    pub stop: Stop,
}

impl RefStep {
    ghost use Rattle.rv_arch.specs.Run.{is_breakpoint};

    /// Whether the step was a trap with cause 3.
    pub fn is_breakpoint(&self) -> bool
        ensures { result ≡ is_breakpoint self.now }
    {
        matches!(
            self,
            RefStep::Trap {
                cause: Cause::Breakpoint,
                ..
            }
        )
    }
}

impl RefOutcome {
    ghost use Rattle.rv_arch.specs.Run.{is_retired, is_trap, is_interrupt};

    /// Counts one more step.
    pub(crate) fn count(&mut self, step: &RefStep)
        requires steps { self.old.steps + 1 < 2 ^ 64 }
        requires retired { self.old.retired + 1 < 2 ^ 64 }
        requires traps { self.old.traps + 1 < 2 ^ 64 }
        requires interrupts { self.old.interrupts + 1 < 2 ^ 64 }
        ensures steps { self.new.steps ≡ self.old.steps + 1 }
        ensures retired { self.new.retired ≡ self.old.retired + (if is_retired step.now then 1 else 0) }
        ensures traps { self.new.traps ≡ self.old.traps + (if is_trap step.now then 1 else 0) }
        ensures interrupts { self.new.interrupts ≡ self.old.interrupts + (if is_interrupt step.now then 1 else 0) }
        ensures stop { self.new.stop ≡ self.old.stop }
    {
        self.steps += 1;
        match step {
            RefStep::Retired { .. } => self.retired += 1,
            RefStep::Trap { .. } => self.traps += 1,
            RefStep::Interrupt { .. } => self.interrupts += 1,
            RefStep::Stale { .. } => {}
        }
    }
}
