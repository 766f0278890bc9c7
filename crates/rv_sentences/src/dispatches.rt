ghost use Rattle.std.specs.Prelude.{◌≡◌, ◌+◌, ◌<◌, ◌^◌, length};
ghost use Rattle.rv_sentences.specs.Dispatch.{dispatched_after, dispatched_with, dispatches_text, is_last};
ghost use Rattle.rv_text.specs.Said.{Says};

use rv_hardware::Step;
use rv_text::Sink;
use std::io::Write;

/// The cycles that dispatched something that retired.
#[derive(Clone, Copy)]
pub struct Dispatches {
    /// How many there were.
    pub cycles: u64,
    /// The last of them.
    pub last: Option<u64>,
}

fn is_last(last: Option<u64>, cycle: u64) -> bool
    ensures { result ≡ is_last last cycle }
{
    match last {
        Some(last) => last == cycle,
        None => false,
    }
}

impl Dispatches {
    /// Of no step.
    pub const NONE: Dispatches = Dispatches {
        cycles: 0,
        last: None,
    };

    fn add_step(&mut self, step: &Step)
        requires room { self.old.cycles + 1 < 2 ^ 64 }
        ensures { self.new ≡ dispatched_with step.now self.old }
    {
        if let Step::Retired(row) = *step {
            if !is_last(self.last, row.dispatched) {
                self.cycles += 1;
                self.last = Some(row.dispatched);
            }
        }
    }

    /// Adds more steps.
    pub fn add(&mut self, steps: &[Step])
        requires room { self.old.cycles + length steps.now < 2 ^ 64 }
        ensures { self.new ≡ dispatched_after steps.now self.old }
    {
        match steps {
            [] => {}
            [step, rest @ ..] => {
                self.add_step(step);
                self.add(rest);
            }
        }
    }
}

/// Writes how many of the busy cycles dispatched something that retired.
pub fn write_dispatches<W: Write>(out: &mut Sink<'_, W>, busy: u64, dispatches: &Dispatches)
    ensures { Says W.contents out.old out.new (dispatches_text busy dispatches.now.cycles) }
{
    out.put(b"of the busy cycles ");
    out.put_decimal(dispatches.cycles);
    out.put(b" dispatched something that retired, ");
    out.put_decimal(busy.saturating_sub(dispatches.cycles));
    out.put(b" only what did not\n");
}
