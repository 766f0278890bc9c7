ghost use Rattle.std.specs.Prelude.{◌≡◌};
ghost use Rattle.rv_hardware.specs.Lessons.{first_pc};

use rv_isa::{Cause, Reg};

/// The execution of a retired instruction.
#[derive(Clone, Copy, PartialEq, Eq)]
pub struct Execution {
    /// The cycle in which it left its reservation station.
    pub issued: u64,
    /// The cycles from there until its result could be broadcast.
    pub cost: u32,
    /// The cycle of its broadcast.
    pub broadcast: u64,
}

/// An instruction that retired, and when it passed through the hardware.
#[derive(Clone, Copy, PartialEq, Eq)]
pub struct Row {
    /// Its address.
    pub pc: u32,
    /// The word that was fetched there.
    pub word: u32,
    /// The register that it wrote, never x0, with the value.
    pub written: Option<(Reg, u32)>,
    /// The cycle of its fetch.
    pub fetched: u64,
    /// The cycle of its dispatch.
    pub dispatched: u64,
    /// Its execution, or None where it uses no unit.
    pub execution: Option<Execution>,
    /// The cycle of its retirement.
    pub retired: u64,
}

/// What the hardware reports of an instruction or an interrupt, in program order.
#[derive(Clone, Copy, PartialEq, Eq)]
pub enum Step {
    /// An instruction retired.
    Retired(Row),
    /// The instruction at `pc`, or its fetch, trapped; `value` is the word in `mtval`.
    Trap {
        pc: u32,
        cause: Cause,
        value: u32,
        cycle: u64,
    },
    /// An interrupt was taken before the instruction at `pc`; `cause` is the word in `mcause`.
    Interrupt {
        pc: u32,
        cause: u32,
        cycle: u64,
    },
}

impl Step {
    ghost use Rattle.rv_hardware.specs.Step.{is_breakpoint, pc_of, stamp_of};

    /// The cycle of the step: that of its retirement, trap or interrupt.
    pub fn stamp(&self) -> u64
        ensures { result ≡ stamp_of self.now }
    {
        match *self {
            Step::Retired(row) => row.retired,
            Step::Trap { cycle, .. } | Step::Interrupt { cycle, .. } => cycle,
        }
    }

    /// The address of its instruction, or of that before which an interrupt was taken.
    pub fn pc(&self) -> u32
        ensures { result ≡ pc_of self.now }
    {
        match *self {
            Step::Retired(row) => row.pc,
            Step::Trap { pc, .. } | Step::Interrupt { pc, .. } => pc,
        }
    }

    /// Whether the step is a trap with cause 3.
    pub fn is_breakpoint(&self) -> bool
        ensures { result ≡ is_breakpoint self.now }
    {
        matches!(
            self,
            Step::Trap {
                cause: Cause::Breakpoint,
                ..
            }
        )
    }
}

/// Where the program goes on before some steps: at the first of them, or, where there is none, at `next`.
pub fn first_pc(steps: &[Step], next: u32) -> u32
    ensures { result ≡ first_pc steps.now next }
{
    match steps {
        [first, ..] => first.pc(),
        [] => next,
    }
}

/// An interrupt at pc 0 in cycle 0, which fills places that are not read.
impl Default for Step {
    ghost use Rattle.rv_hardware.specs.declared.step.Step.TheVariants.{Interrupt};

    ghost is_default = { λ step. step ≡ Interrupt 0 0 0 };

    fn default() -> Self {
        Step::Interrupt {
            pc: 0,
            cause: 0,
            cycle: 0,
        }
    }
}
