ghost use Rattle.std.specs.Prelude.{◌≡◌, ◌≤◌, ◌^◌, count_by, length};
ghost use Rattle.rv_decode.specs.Decodes.{instruction_of};
ghost use Rattle.rv_hardware.specs.Draining.{drain_end};
ghost use Rattle.rv_isa.specs.Instruction.{is_branch_or_jump, is_load};
ghost use Rattle.rv_report.specs.Events.{AreAtMost, both_events, counted_after};
ghost use Rattle.rv_report.specs.Events.{events_of_drain, events_of_steps, events_so_far};
ghost use Rattle.rv_report.specs.Events.{happens, is_missed, is_of, is_written_back, no_events};

use rv_counts::LoadCosts;
use rv_decode::decode;
use rv_hardware::{Execution, Row, Step, new_drain_cost};
use rv_isa::Instr;
use rv_watch::ShownHardware;

/// What a run of the core did, as a table counts it beside its cycles. What became of an access to the data cache is read
/// from its cost.
#[derive(Clone, Copy, PartialEq, Eq)]
pub struct Events {
    /// Branches and jumps that retired.
    pub branches: u64,
    /// Loads that retired.
    pub loads: u64,
    /// Accesses by which retired stores went to the data cache.
    pub drains: u64,
    /// Loads at the cost of a hit or of forwarding, and drains at that of a hit.
    pub hits: u64,
    /// All other loads and drains.
    pub misses: u64,
    /// Of these the ones at a greater cost than that of a miss alone: a dirty line was written back.
    pub write_backs: u64,
}

// What is counted of the instructions that retire.
#[derive(Clone, Copy)]
pub(crate) enum Event {
    Branch,
    Load,
    Miss,
    WriteBack,
}

/// What is counted of a run so far.
#[derive(Clone, Copy)]
pub(crate) struct EventCounter {
    pub(crate) costs: LoadCosts,
    /// The end of the access of a retired store that is under way.
    pub(crate) drain_end: Option<u64>,
    pub(crate) counts: Events,
}

impl Events {
    // Nothing yet.
    const NONE: Events = Events {
        branches: 0,
        loads: 0,
        drains: 0,
        hits: 0,
        misses: 0,
        write_backs: 0,
    };

    // Adds what happened besides.
    fn add(&mut self, more: &Events)
        requires few { AreAtMost (2 ^ 62) self.old }
        requires few_more { AreAtMost (2 ^ 62) more.now }
        ensures { self.new ≡ both_events self.old more.now }
    {
        self.branches += more.branches;
        self.loads += more.loads;
        self.drains += more.drains;
        self.hits += more.hits;
        self.misses += more.misses;
        self.write_backs += more.write_backs;
    }
}

fn is_load(word: u32) -> bool
    ensures { result ≡ is_load (instruction_of word) }
{
    matches!(decode(word), Some(Instr::Load { .. }))
}

fn is_branch_or_jump(word: u32) -> bool
    ensures { result ≡ is_branch_or_jump (instruction_of word) }
{
    matches!(
        decode(word),
        Some(Instr::Jal { .. } | Instr::Jalr { .. } | Instr::Branch { .. })
    )
}

impl EventCounter {
    /// Nothing yet, with what is under way in hardware.
    pub(crate) fn begin(hardware: &ShownHardware<'_>) -> EventCounter
        ensures { result ≡ events_so_far hardware.now.values (drain_end hardware.now) no_events }
    {
        EventCounter {
            costs: LoadCosts::of(hardware.values()),
            drain_end: hardware.drain_end(),
            counts: Events::NONE,
        }
    }

    // Whether an execution cost more than what needs no access to memory.
    fn is_missed(&self, execution: Option<Execution>) -> bool
        ensures { result ≡ is_missed self.now.costs execution }
    {
        match execution {
            Some(execution) => !self.costs.is_quick(execution.cost),
            None => false,
        }
    }

    // Whether an execution cost more than a miss alone.
    fn is_written_back(&self, execution: Option<Execution>) -> bool
        ensures { result ≡ is_written_back self.now.costs execution }
    {
        match execution {
            Some(execution) => self.costs.is_slow(execution.cost),
            None => false,
        }
    }

    // Whether a retired instruction is counted.
    fn is_of(&self, event: Event, row: &Row) -> bool
        ensures { result ≡ is_of self.now.costs event row.now }
    {
        match event {
            Event::Branch => is_branch_or_jump(row.word),
            Event::Load => is_load(row.word),
            Event::Miss => self.is_missed(row.execution) && is_load(row.word),
            Event::WriteBack => self.is_written_back(row.execution) && is_load(row.word),
        }
    }

    // Whether one retires in a step.
    fn happens(&self, event: Event, step: &Step) -> bool
        ensures { result ≡ happens self.now.costs event step.now }
    {
        match *step {
            Step::Retired(row) => self.is_of(event, &row),
            Step::Trap { .. } | Step::Interrupt { .. } => false,
        }
    }

    fn count(&self, event: Event, steps: &[Step]) -> usize
        ensures count { result ≡ count_by (happens self.now.costs event) steps.now }
        ensures few { result ≤ length steps.now }
    {
        let mut happened = 0;
        for step in steps {
            if self.happens(event, step) {
                happened += 1;
            }
        }
        happened
    }

    // What the instructions did that retire in some steps.
    fn of_steps(&self, steps: &[Step]) -> Events
        ensures events { result ≡ events_of_steps self.now.costs steps.now }
        ensures few { AreAtMost (length steps.now) result }
    {
        let loads = self.count(Event::Load, steps) as u64;
        let misses = self.count(Event::Miss, steps) as u64;
        Events {
            branches: self.count(Event::Branch, steps) as u64,
            loads,
            drains: 0,
            hits: loads.saturating_sub(misses),
            misses,
            write_backs: self.count(Event::WriteBack, steps) as u64,
        }
    }

    // What a drain did by its cost.
    fn of_drain(&self, cost: Option<u64>) -> Events
        ensures events { result ≡ events_of_drain self.now.costs cost }
        ensures few { AreAtMost 1 result }
    {
        let Some(cost) = cost else {
            return Events::NONE;
        };
        let is_hit = cost == u64::from(self.costs.hit);
        Events {
            drains: 1,
            hits: if is_hit { 1 } else { 0 },
            misses: if is_hit { 0 } else { 1 },
            write_backs: if self.costs.clean_miss < cost { 1 } else { 0 },
            ..Events::NONE
        }
    }

    /// Counts what one more cycle did, at whose end the access of a retired store that is under way ends in such a cycle.
    pub(crate) fn follow(&mut self, cycle: u64, steps: &[Step], drain_end: Option<u64>)
        requires few { AreAtMost (2 ^ 62) self.old.counts }
        requires few_steps { length steps.now ≤ 8 }
        ensures { self.new ≡ counted_after cycle steps.now drain_end self.old }
    {
        let mut more = self.of_steps(steps);
        more.add(&self.of_drain(new_drain_cost(cycle, self.drain_end, drain_end)));
        self.counts.add(&more);
        self.drain_end = drain_end;
    }
}
