ghost use Rattle.std.specs.Prelude.{◌≡◌};
ghost use Rattle.rv_passage.specs.Passage.{broadcast_of, prediction_after, start_of};

use crate::producers::Producers;
use rv_decode::Decoded;
use rv_front::Fetched;
use rv_hardware::{Execution, Row};
use rv_isa::{Cause, Issue, Reg};
use rv_rob::{Entry, Stage};

/// How an instruction left the hardware, or that it did not yet.
#[derive(Clone, Copy)]
pub enum Ending {
    InFlight,
    /// It retired, and wrote a register, never x0, or none.
    Retired {
        /// How many retired before it, since the table began.
        order: u64,
        cycle: u64,
        written: Option<(Reg, u32)>,
        /// Where the program went on.
        next: u32,
    },
    /// It, or its fetch, trapped.
    Trapped {
        cycle: u64,
        cause: Cause,
    },
    /// It was on a path that the program did not take, or after a trap, an interrupt or a serialising instruction.
    Squashed {
        cycle: u64,
    },
}

impl Ending {
    ghost use Rattle.rv_passage.specs.Passage.{left_in};
    ghost use Rattle.rv_passage.specs.Prediction.{next_of};

    /// The cycle in which the instruction left the hardware, if it did.
    pub fn left(self) -> Option<u64>
        ensures { result ≡ left_in self }
    {
        match self {
            Ending::InFlight => None,
            Ending::Retired { cycle, .. }
            | Ending::Trapped { cycle, .. }
            | Ending::Squashed { cycle } => Some(cycle),
        }
    }

    /// Where the program went on after the instruction, if it retired.
    pub fn next(self) -> Option<u32>
        ensures { result ≡ next_of self }
    {
        match self {
            Ending::Retired { next, .. } => Some(next),
            Ending::InFlight | Ending::Trapped { .. } | Ending::Squashed { .. } => None,
        }
    }
}

/// A fetched instruction, and when it passed through the hardware.
#[derive(Clone, Copy)]
pub struct Passage {
    /// How many were fetched before it, since the table began.
    pub number: u64,
    pub pc: u32,
    /// What RAM held at the pc, None outside RAM.
    pub word: Option<u32>,
    /// The instruction that the word is, None where there is no word or it is illegal.
    pub instruction: Decoded,
    /// The pc that was predicted at its fetch to come next, None where there was no word. Of what was dispatched before the
    /// table began, the one that held then.
    pub predicted: Option<u32>,
    /// The cycle of its fetch.
    pub fetched: u64,
    /// The cycle of its dispatch.
    pub dispatched: Option<u64>,
    /// Whose results it waits for; none where it was dispatched before the table began.
    pub producers: Producers,
    /// The start of its execution; None, too, where it uses no unit.
    pub issue: Option<Issue>,
    /// The cycle of its broadcast; None, too, where it uses no unit.
    pub broadcast: Option<u64>,
    pub ending: Ending,
}

// The cycle in which a result was broadcast.
fn broadcast_of(stage: &Stage) -> Option<u64>
    ensures { result ≡ broadcast_of stage.now }
{
    match *stage {
        Stage::Finished {
            issue: Some(_),
            cycle,
            ..
        } => Some(cycle),
        _ => None,
    }
}

// The pc that was predicted after a word.
fn prediction_after(word: Option<u32>, next: u32) -> Option<u32>
    ensures { result ≡ prediction_after word next }
{
    word.map(|_| next)
}

// The start of an execution.
fn start_of(execution: Execution) -> Issue
    ensures { result ≡ start_of execution }
{
    Issue {
        cycle: execution.issued,
        cost: execution.cost,
    }
}

impl Passage {
    ghost use Rattle.rv_passage.specs.Passage.{is_in_flight, is_unsquashed, of_entry};
    ghost use Rattle.rv_passage.specs.Passage.{of_fetched, retired_by, trapped_by, squashed_in};
    ghost use Rattle.rv_passage.specs.Prediction.{correction_of, is_mispredicted, prediction_of};
    ghost use Rattle.rv_passage.specs.Result.{has_come, issued_in, ready_in, waits_for_bus};

    /// Whether the instruction did not leave the hardware yet.
    pub fn is_in_flight(&self) -> bool
        ensures { result ≡ is_in_flight self.now }
    {
        matches!(self.ending, Ending::InFlight)
    }

    // Whether it was not squashed.
    pub(crate) fn is_unsquashed(&self) -> bool
        ensures { result ≡ is_unsquashed self.now }
    {
        !matches!(self.ending, Ending::Squashed { .. })
    }

    /// The cycle in which its execution began; None, too, where it uses no unit.
    pub fn issued(&self) -> Option<u64>
        ensures { result ≡ issued_in self.now }
    {
        self.issue.map(|issue| issue.cycle)
    }

    /// The first cycle in which its result can be broadcast; None where its execution did not begin, or it uses no unit.
    pub fn ready(&self) -> Option<u128>
        ensures { result ≡ ready_in self.now }
    {
        self.issue
            .map(|issue| u128::from(issue.cycle) + u128::from(issue.cost))
    }

    /// The pc that was predicted at its fetch to come next, where it is a branch or a jump.
    pub fn prediction(&self) -> Option<u32>
        ensures { result ≡ prediction_of self.now }
    {
        if self.instruction.is_branch_or_jump() {
            self.predicted
        } else {
            None
        }
    }

    /// Whether it is a branch or a jump and retired, and the program did not go on where that was predicted at its fetch.
    pub fn is_mispredicted(&self) -> bool
        ensures { result ≡ is_mispredicted self.now }
    {
        match (self.prediction(), self.ending.next()) {
            (Some(predicted), Some(next)) => next != predicted,
            _ => false,
        }
    }

    /// Where the program went on after a branch or a jump, if that was predicted wrongly.
    pub fn correction(&self) -> Option<u32>
        ensures { result ≡ correction_of self.now }
    {
        if self.is_mispredicted() {
            self.ending.next()
        } else {
            None
        }
    }

    // Whether its result can be broadcast in a cycle.
    fn is_ready(&self, cycle: u64) -> bool
        ensures { result ≡ has_come cycle (ready_in self.now) }
    {
        match self.ready() {
            Some(ready) => ready <= u128::from(cycle),
            None => false,
        }
    }

    /// Whether it waits for the common data bus in a cycle: its result is ready, and was not broadcast yet.
    pub fn waits_for_bus(&self, cycle: u64) -> bool
        ensures { result ≡ waits_for_bus self.now cycle }
    {
        match self.broadcast {
            Some(broadcast) if broadcast <= cycle => false,
            _ => self.is_ready(cycle),
        }
    }

    // An instruction in the reorder buffer, under a number.
    pub(crate) fn of_entry(entry: &Entry, number: u64) -> Passage
        ensures { result ≡ record (of_entry entry.now) { number = number } }
    {
        Passage {
            number,
            pc: entry.pc,
            word: entry.word,
            instruction: entry.instruction,
            predicted: prediction_after(entry.word, entry.predicted_next),
            fetched: entry.fetched,
            dispatched: Some(entry.dispatched),
            producers: Producers::NONE,
            issue: entry.stage.issue(),
            broadcast: broadcast_of(&entry.stage),
            ending: Ending::InFlight,
        }
    }

    // A word in the fetch buffer, under a number.
    pub(crate) fn of_fetched(fetched: &Fetched, number: u64) -> Passage
        ensures { result ≡ record (of_fetched fetched.now) { number = number } }
    {
        Passage {
            number,
            pc: fetched.pc,
            word: fetched.word,
            instruction: fetched.instruction,
            predicted: prediction_after(fetched.word, fetched.predicted),
            fetched: fetched.cycle,
            dispatched: None,
            producers: Producers::NONE,
            issue: None,
            broadcast: None,
            ending: Ending::InFlight,
        }
    }

    pub(crate) fn retire(&mut self, row: &Row, order: u64, next: u32)
        ensures { self.new ≡ retired_by row.now order next self.old }
    {
        self.pc = row.pc;
        self.word = Some(row.word);
        self.fetched = row.fetched;
        self.dispatched = Some(row.dispatched);
        self.issue = row.execution.map(start_of);
        self.broadcast = row.execution.map(|execution| execution.broadcast);
        self.ending = Ending::Retired {
            order,
            cycle: row.retired,
            written: row.written,
            next,
        };
    }

    pub(crate) fn trap(&mut self, cause: Cause, cycle: u64)
        ensures { self.new ≡ trapped_by cause cycle self.old }
    {
        self.ending = Ending::Trapped { cycle, cause };
    }

    pub(crate) fn squash(&mut self, cycle: u64)
        ensures { self.new ≡ squashed_in cycle self.old }
    {
        self.ending = Ending::Squashed { cycle };
    }
}
