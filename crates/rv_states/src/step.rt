ghost use Rattle.rv_states.specs.Step.{interrupt_json, retirement_json, step_json, trap_json};
ghost use Rattle.rv_text.specs.Said.{Says};

use crate::array::Values;
use crate::json::{Member, Value, write_object};
use rv_hardware::Step;
use rv_isa::Cause;
use rv_text::Sink;
use std::io::Write;

#[tactic(auto, unfolding(crate::specs::Step::retirement_json))]
fn write_retirement<W: Write>(out: &mut Sink<'_, W>, pc: u32)
    ensures { Says W.contents out.old out.new (retirement_json pc) }
{
    write_object(
        out,
        "pc",
        u64::from(pc),
        &[Member {
            name: "step",
            value: Value::Name("retired"),
        }],
    )
}

#[tactic(auto, unfolding(crate::specs::Step::trap_json))]
fn write_trap<W: Write>(out: &mut Sink<'_, W>, pc: u32, cause: Cause, value: u32)
    ensures { Says W.contents out.old out.new (trap_json pc cause value) }
{
    write_object(
        out,
        "pc",
        u64::from(pc),
        &[
            Member {
                name: "step",
                value: Value::Name("trap"),
            },
            Member::word("cause", cause.code()),
            Member::word("value", value),
        ],
    )
}

#[tactic(auto, unfolding(crate::specs::Step::interrupt_json))]
fn write_interrupt<W: Write>(out: &mut Sink<'_, W>, pc: u32, cause: u32)
    ensures { Says W.contents out.old out.new (interrupt_json pc cause) }
{
    write_object(
        out,
        "pc",
        u64::from(pc),
        &[
            Member {
                name: "step",
                value: Value::Name("interrupt"),
            },
            Member::word("cause", cause),
        ],
    )
}

fn write_step<W: Write>(out: &mut Sink<'_, W>, step: &Step)
    ensures { Says W.contents out.old out.new (step_json step.now) }
{
    match *step {
        Step::Retired(row) => write_retirement(out, row.pc),
        Step::Trap {
            pc,
            cause,
            value,
            ..
        } => write_trap(out, pc, cause, value),
        Step::Interrupt { pc, cause, .. } => write_interrupt(out, pc, cause),
    }
}

/// The steps of a cycle, as an array has them.
#[derive(Drop)]
pub struct Steps<'a> {
    /// In program order.
    pub steps: &'a [Step],
}

impl Values for Steps<'_> {
    ghost use Rattle.std.specs.Prelude.{map};
    ghost use Rattle.rv_states.specs.Step.{step_json};

    ghost values = { λ s. map step_json s.steps.now };

    fn count(&self) -> usize {
        self.steps.len()
    }

    fn write_value<W: Write>(&self, out: &mut Sink<'_, W>, place: usize) {
        write_step(out, &self.steps[place])
    }
}
