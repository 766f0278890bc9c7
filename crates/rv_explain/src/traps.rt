ghost use Rattle.std.specs.Prelude.{◌≡◌, None, count_by, length, true};
ghost use Rattle.std.specs.List.{list_all};
ghost use Rattle.rv_hardware.specs.Step.{is_retirement};
ghost use Rattle.rv_sentences.specs.Exception.{exception_of, exception_in};
ghost use Rattle.rv_sentences.specs.Interrupt.{AreCountable, interruption_in, interrupts_after};
ghost use Rattle.rv_sentences.specs.Kinds.{IsCountable, kept_after};

use crate::ending::csr;
use rv_counts::count_retired;
use rv_hardware::Step;
use rv_isa::{Cause, Csr};
use rv_sentences::{Exception, Exceptions, Interrupts, interruption_in};
use rv_watch::ShownHardware;

// A trap of the core's last cycle, where it is no breakpoint.
fn exception_of(step: &Step, hardware: &ShownHardware<'_>) -> Option<Exception>
    ensures { result ≡ exception_of hardware.now step.now }
{
    match *step {
        Step::Trap {
            cause: Cause::Breakpoint,
            ..
        }
        | Step::Retired(_)
        | Step::Interrupt { .. } => None,
        Step::Trap {
            pc,
            cause,
            value,
            cycle,
        } => Some(Exception {
            pc,
            cause,
            value,
            cycle,
            mtvec: csr(hardware, Csr::Mtvec),
            next_pc: hardware.observe().pc,
        }),
    }
}

// Whether nothing but retirements is among the steps: then neither a trap nor an interrupt is. Most cycles end with that.
fn are_retirements(steps: &[Step], hardware: &ShownHardware<'_>) -> bool
    ensures exact { result ≡ list_all is_retirement steps.now }
    ensures all { result ≡ true → count_by is_retirement steps.now ≡ length steps.now }
    ensures no_exception { result ≡ true → exception_in hardware.now steps.now ≡ None }
    ensures no_interrupt { result ≡ true → interruption_in steps.now ≡ None }
{
    match steps {
        [] => true,
        [Step::Retired(_), rest @ ..] => are_retirements(rest, hardware),
        [..] => false,
    }
}

// The first trap that is no breakpoint, where there may be one.
fn first_exception(steps: &[Step], hardware: &ShownHardware<'_>) -> Option<Exception>
    ensures { result ≡ exception_in hardware.now steps.now }
{
    match steps {
        [] => None,
        [step, rest @ ..] => exception_of(step, hardware).or(first_exception(rest, hardware)),
    }
}

/// Keeps the first trap among the steps of the core's last cycle that is no breakpoint, and the first interrupt, if
/// there are any; and returns how many of the steps are retirements.
pub(crate) fn note_steps(
    exceptions: &mut Exceptions,
    interrupts: &mut Interrupts,
    steps: &[Step],
    hardware: &ShownHardware<'_>,
) -> usize
    requires exceptions { IsCountable exceptions.old }
    requires interrupts { AreCountable interrupts.old }
    ensures exceptions { exceptions.new ≡ kept_after (exception_in hardware.now steps.now) exceptions.old }
    ensures interrupts { interrupts.new ≡ interrupts_after (interruption_in steps.now) interrupts.old }
    ensures retired { result ≡ count_by is_retirement steps.now }
{
    if are_retirements(steps, hardware) {
        return steps.len();
    }
    exceptions.note(first_exception(steps, hardware));
    interrupts.note(interruption_in(steps));
    count_retired(steps)
}
