ghost use Rattle.std.specs.Prelude.{◌≡◌, ◌+◌, ◌<◌, ◌^◌, None, true, [], IfSome};
ghost use Rattle.std.specs.List.{list_all};
ghost use Rattle.rv_hardware.specs.Step.{is_retirement};
ghost use Rattle.rv_sentences.specs.Interrupt.{AreCountable, by_line, interrupts_after, interruption_in};
ghost use Rattle.rv_sentences.specs.Interrupt.{interruption_of, line_with, with_interruption};

use crate::interruption::Interruption;
use crate::series::{Series, with_event};
use rv_hardware::Step;

// Privileged Architecture 20211203, 3.1.15, table 3.6: what mcause gets of an interrupt of each line.
const MACHINE_SOFTWARE: u32 = 0x8000_0003;

const MACHINE_TIMER: u32 = 0x8000_0007;

const MACHINE_EXTERNAL: u32 = 0x8000_000b;

/// What is kept of a run's interrupts: those of each line.
#[derive(Clone, Copy)]
pub struct Interrupts {
    /// Software interrupts, if there were any.
    pub software: Option<Series<Interruption>>,
    /// Timer interrupts, if there were any.
    pub timer: Option<Series<Interruption>>,
    /// External interrupts, if there were any.
    pub external: Option<Series<Interruption>>,
}

fn interruption_of(step: &Step) -> Option<Interruption>
    ensures { result ≡ interruption_of step.now }
{
    match *step {
        Step::Interrupt { pc, cause, cycle } => Some(Interruption { pc, cause, cycle }),
        Step::Retired(_) | Step::Trap { .. } => None,
    }
}

// Whether nothing but retirements is among the steps: then no interrupt is.
fn are_retirements(steps: &[Step]) -> bool
    ensures exact { result ≡ list_all is_retirement steps.now }
    ensures none { result ≡ true → interruption_in steps.now ≡ None }
{
    match steps {
        [] => true,
        [Step::Retired(_), rest @ ..] => are_retirements(rest),
        [..] => false,
    }
}

// The first interrupt, where there may be one.
fn first_interruption(steps: &[Step]) -> Option<Interruption>
    ensures { result ≡ interruption_in steps.now }
{
    match steps {
        [] => None,
        [step, rest @ ..] => interruption_of(step).or(first_interruption(rest)),
    }
}

/// The first interrupt among some steps.
pub fn interruption_in(steps: &[Step]) -> Option<Interruption>
    ensures { result ≡ interruption_in steps.now }
{
    if are_retirements(steps) {
        None
    } else {
        first_interruption(steps)
    }
}

// Adds an interrupt to those of a line, if it has the line's cause.
fn note_on_line(line: &mut Option<Series<Interruption>>, cause: u32, interruption: &Interruption)
    requires room { IfSome line.old (λ series. series.count + 1 < 2 ^ 64) }
    ensures { line.new ≡ line_with cause interruption.now line.old }
{
    if interruption.cause == cause {
        *line = with_event(*line, *interruption);
    }
}

impl Interrupts {
    /// What is kept of none.
    pub fn new() -> Interrupts
        ensures { result ≡ by_line [] }
    {
        Interrupts {
            software: None,
            timer: None,
            external: None,
        }
    }

    // Keeps one interrupt more.
    fn add(&mut self, interruption: &Interruption)
        requires room { AreCountable self.old }
        ensures { self.new ≡ with_interruption interruption.now self.old }
    {
        note_on_line(&mut self.software, MACHINE_SOFTWARE, interruption);
        note_on_line(&mut self.timer, MACHINE_TIMER, interruption);
        note_on_line(&mut self.external, MACHINE_EXTERNAL, interruption);
    }

    /// Keeps the interrupt of a cycle, if it takes one.
    pub fn note(&mut self, interruption: Option<Interruption>)
        requires room { AreCountable self.old }
        ensures { self.new ≡ interrupts_after interruption self.old }
    {
        if let Some(interruption) = interruption {
            self.add(&interruption);
        }
    }
}
