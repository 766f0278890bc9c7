//! One instruction in flight, with all that its commit and its reported row need.
ghost use Rattle.std.specs.Prelude.{◌≡◌};

use rv_decode::Decoded;
use rv_isa::{Issue, Message};

/// How far an instruction in flight has come.
#[derive(Clone, Copy, PartialEq, Eq)]
pub enum Stage {
    /// It waits for its operands, for a unit, or for the head.
    Waiting,
    /// It executes. The bus brings the message once the cost has passed.
    Running {
        issue: Issue,
        message: Message,
    },
    /// Its result is known. `issue` is None where it uses no unit.
    Finished {
        issue: Option<Issue>,
        /// The cycle in which it finished: that of its broadcast, or of its dispatch where it uses no unit.
        cycle: u64,
        message: Message,
    },
}

impl Stage {
    ghost use Rattle.rv_rob.specs.Entry.{issue_of};

    /// The start of its execution, if there was one.
    pub fn issue(&self) -> Option<Issue>
        ensures { result ≡ issue_of self.now }
    {
        match *self {
            Stage::Waiting => None,
            Stage::Running { issue, .. } => Some(issue),
            Stage::Finished { issue, .. } => issue,
        }
    }
}

/// An instruction in flight.
#[derive(Clone, Copy)]
pub struct Entry {
    pub pc: u32,
    /// The fetched word, or None where the pc lies outside RAM.
    pub word: Option<u32>,
    /// What the word decodes to, or None where it is illegal or there is no word.
    pub instruction: Decoded,
    /// The pc that was fetched next.
    pub predicted_next: u32,
    /// The cycle of its fetch.
    pub fetched: u64,
    /// The cycle of its dispatch.
    pub dispatched: u64,
    pub stage: Stage,
}

impl Entry {
    ghost use Rattle.rv_rob.specs.Entry.{started, broadcast_in, predicting};

    pub(crate) fn start(&mut self, issue: Issue, message: Message)
        ensures { self.new ≡ started issue message self.old }
    {
        self.stage = Stage::Running { issue, message };
    }

    pub(crate) fn finish(&mut self, cycle: u64)
        ensures { self.new ≡ broadcast_in cycle self.old }
    {
        if let Stage::Running { issue, message } = self.stage {
            self.stage = Stage::Finished {
                issue: Some(issue),
                cycle,
                message,
            };
        }
    }

    pub(crate) fn predict(&mut self, next_pc: u32)
        ensures { self.new ≡ predicting next_pc self.old }
    {
        self.predicted_next = next_pc;
    }
}
