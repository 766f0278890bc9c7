ghost use Rattle.std.specs.Prelude.{◌≡◌, ◌≤◌, length, IfOk};
ghost use Rattle.rv_explain.specs.AtEnd.{AreAtEnd};
ghost use Rattle.rv_explain.specs.Tally.{HasRoom, IsOfNoCycle, tally_after};
ghost use Rattle.rv_counts.specs.Places.{cycle_total};

use crate::at_end::{left_among, without_waiting};
use crate::head::accounts_of;
use crate::high_lines::follow_lines;
use crate::last_before::last_before_with;
use crate::origin::Origin;
use crate::traps::note_steps;
use rv_counts::{CyclePlaces, LoadCosts, Places};
use rv_hardware::Step;
use rv_isa::{Description, Kind, Lines};
use rv_passage::Passage;
use rv_sentences::{
    Accesses, Dispatches, Exceptions, Interrupts, Outcomes, Raised, Stays, StoreCounts,
    WaitingStores, WordNotes, Work, add_drain, add_left, add_stays, count_one, idle_with,
    note_stores,
};
use rv_watch::ShownHardware;
use std::alloc::{AllocError, Global};

/// What is kept of a run so far.
#[derive(Drop)]
pub(crate) struct Tally {
    pub(crate) retired: u64,
    pub(crate) exceptions: Exceptions,
    /// The last instruction that retired before the first exception, if no interrupt came between.
    pub(crate) last_before: Option<Origin>,
    pub(crate) interrupts: Interrupts,
    /// Since when each interrupt line is high.
    pub(crate) raised: Raised,
    /// What became of the places of its cycles.
    pub(crate) places: Places,
    pub(crate) dispatches: Dispatches,
    /// Why instructions stayed in flight.
    pub(crate) stays: Stays,
    /// The cycles in which the result of the instruction in each word was awaited.
    pub(crate) awaited: WordNotes<u64>,
    pub(crate) work: Work,
    pub(crate) costs: LoadCosts,
    pub(crate) loads: Accesses,
    pub(crate) drains: Accesses,
    /// The address of the last store to each word that retired.
    pub(crate) last_stores: WordNotes<Option<u32>>,
    /// The cycles that left the instruction in each word at the head of the reorder buffer, or left that empty after the
    /// instruction had flushed it.
    pub(crate) heads: WordNotes<u64>,
    /// The cycles that are on account of none.
    pub(crate) idle: u64,
    /// The word of the instruction that had flushed the buffer, where that is empty.
    pub(crate) flusher: Option<u32>,
    /// How often a branch or jump in each word retired.
    pub(crate) branches: WordNotes<u64>,
    /// How often one of them was mispredicted.
    pub(crate) mispredicted: WordNotes<u64>,
    /// The loads in each word that retired.
    pub(crate) outcomes: WordNotes<Outcomes>,
    /// The retired stores that wait for their drains.
    pub(crate) waiting: WaitingStores,
    /// The drains of the stores in each word.
    pub(crate) stores: StoreCounts,
}

impl Tally {
    /// What is kept of no cycle. The only error is out of memory.
    pub(crate) fn new(alloc: Global, description: &Description) -> Result<Tally, AllocError>
        ensures { IfOk result (IsOfNoCycle description.now) }
    {
        Ok(Tally {
            retired: 0,
            exceptions: Exceptions::new(alloc)?,
            last_before: None,
            interrupts: Interrupts::new(),
            raised: Raised::NONE,
            places: Places::NONE,
            dispatches: Dispatches::NONE,
            stays: Stays::NONE,
            awaited: WordNotes::new(alloc, description, 0)?,
            work: Work::NONE,
            costs: LoadCosts::new(description),
            loads: Accesses { all: 0, quick: 0 },
            drains: Accesses { all: 0, quick: 0 },
            last_stores: WordNotes::new(alloc, description, None)?,
            heads: WordNotes::new(alloc, description, 0)?,
            idle: 0,
            flusher: None,
            branches: WordNotes::new(alloc, description, 0)?,
            mispredicted: WordNotes::new(alloc, description, 0)?,
            outcomes: WordNotes::new(alloc, description, Outcomes::NONE)?,
            waiting: WaitingStores::new(),
            stores: StoreCounts::new(alloc, description)?,
        })
    }

    /// Keeps what the core's last cycle shows, by its number, its steps, the registers before them, its places, what the
    /// drain costs that began in it, the levels of the lines in it, and the passages at its end.
    pub(crate) fn add(
        &mut self,
        cycle: u64,
        registers: &mut [u32; 32],
        steps: &[Step],
        places: &CyclePlaces,
        drain: Option<u64>,
        lines: Lines,
        hardware: &ShownHardware<'_>,
        rows: &[Passage],
    )
        requires room { HasRoom self.old (length steps.now) (length rows.now) }
        requires few { cycle_total places.now ≤ 264 }
        requires end { AreAtEnd cycle hardware.now rows.now }
        ensures { self.new ≡
            tally_after cycle registers.old steps.now places.now drain lines hardware.now rows.now self.old }
    {
        let has_unit = hardware.units().free(Kind::Mem, cycle);
        add_stays(
            &mut self.stays,
            &mut self.awaited,
            cycle,
            has_unit,
            true,
            without_waiting(rows, hardware),
        );
        let (account, flusher) = accounts_of(hardware, rows, self.flusher);
        count_one(&mut self.heads, account);
        self.idle = idle_with(self.idle, account);
        self.flusher = flusher;
        // Before the exception of the cycle is among them.
        self.last_before = last_before_with(&self.exceptions, steps, self.last_before);
        let retired = note_steps(&mut self.exceptions, &mut self.interrupts, steps, hardware);
        self.retired += retired as u64;
        follow_lines(&mut self.raised, cycle, lines);
        self.places.add(places);
        self.dispatches.add(steps);
        // Those in flight after them add nothing.
        let left = left_among(rows, cycle, hardware);
        add_left(
            &mut self.work,
            &mut self.loads,
            &mut self.branches,
            &mut self.mispredicted,
            &mut self.outcomes,
            &self.costs,
            left,
        );
        add_drain(&mut self.drains, self.costs.hit, drain);
        note_stores(&mut self.last_stores, &mut self.waiting, registers, steps);
        let drained = self.waiting.drain(drain);
        self.stores.add(&self.costs, drained);
    }
}
