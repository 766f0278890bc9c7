ghost use Rattle.std.specs.Prelude.{◌≡◌};
ghost use Rattle.rv_explain.specs.LastBefore.{is_return, last_after, last_before_with, last_since};

use crate::origin::Origin;
use rv_hardware::Step;
use rv_sentences::Exceptions;

/// Whether an instruction is a return, `ret`.
pub(crate) fn is_return(origin: Origin) -> bool
    ensures { result ≡ is_return origin }
{
    origin.word == 0x0000_8067
}

// The last instruction that retired, after a step, by that before it; None where an interrupt came after the instruction.
fn last_after(last: Option<Origin>, step: &Step) -> Option<Origin>
    ensures { result ≡ last_after last step.now }
{
    match *step {
        Step::Retired(row) => Some(Origin {
            pc: row.pc,
            word: row.word,
        }),
        Step::Trap { .. } => last,
        Step::Interrupt { .. } => None,
    }
}

// The same after some steps.
fn last_since(last: Option<Origin>, steps: &[Step]) -> Option<Origin>
    ensures { result ≡ last_since last steps.now }
{
    match steps {
        [] => last,
        [step, rest @ ..] => last_since(last_after(last, step), rest),
    }
}

/// The last instruction that retired before the first exception, by that before a cycle with these steps, and by the
/// exceptions before it.
pub(crate) fn last_before_with(
    exceptions: &Exceptions,
    steps: &[Step],
    last: Option<Origin>,
) -> Option<Origin>
    ensures { result ≡ last_before_with exceptions.now.all steps.now last }
{
    match exceptions.all() {
        None => last_since(last, steps),
        Some(_) => last,
    }
}
