ghost use Rattle.std.specs.Prelude.{◌≡◌, ◌+◌, ◌≤◌, ◌<◌, ◌^◌, [], ◌∷◌, Some, drop, filter, length};
ghost use Rattle.std.specs.Prelude.{slice_get, take, vec_capacity, IfOk};
ghost use Rattle.std.specs.List.{list_all};
ghost use Rattle.rv_hardware.specs.Lessons.{first_pc};
ghost use Rattle.rv_passage.specs.Passage.{in_buffers, is_in_flight, trapped_by};
ghost use Rattle.rv_passage.specs.declared.passage.Passage.{Passage};

use crate::in_flight::{MOST_IN_FLIGHT, count_in_flight, put_present};
use crate::kept::{move_kept_on, retire_kept, trap_kept};
use crate::passage::Passage;
use crate::put::put_last;
use crate::rows::{RowsAre, are_in_flight, count_first_ended};
use rv_front::Front;
use rv_hardware::{Row, Step};
use rv_isa::Cause;
use rv_rob::Rob;
use std::alloc::{AllocError, Global};

// Where the program goes on before the steps from a place on, after the last of which it goes on at `next`.
fn first_pc(steps: &[Step], place: usize, next: u32) -> u32
    ensures { result ≡ first_pc (drop place steps.now) next }
{
    match steps.get(place) {
        Some(step) => step.pc(),
        None => next,
    }
}

/// The passages of instructions in order of fetch, and the cycles of the interrupts.
#[derive(Drop)]
pub struct Table {
    // The first `dropped` rows are forgotten. They lie there until their room is wanted, so that the others stay.
    rows: Vec<Passage>,
    dropped: usize,
    interrupts: Vec<u64>,
    // How many instructions were fetched, and how many retired.
    fetched: u64,
    retired: u64,
    // At least so many of the rows are in flight: all that are, from the end of a cycle on.
    pub(crate) in_flight: usize,
    ghost within: { dropped ≤ length rows.items },
    ghost known: { in_flight ≤ length (filter is_in_flight (drop dropped rows.items)) },
}

impl Table {
    ghost use Rattle.rv_passage.specs.Shown.{AreStill};
    ghost use Rattle.rv_passage.specs.Table.{AreMovedOn, AreShort, CountsStay, HasRoom, buffers_from, passages_of};
    ghost use Rattle.rv_passage.specs.Table.{still_open, table_from, with_fetched, with_oldest, with_rows, with_step};
    ghost use Rattle.rv_passage.specs.Table.{with_steps, without_first_ended, without_squashed};

    /// A table that begins with what is in flight in two buffers, numbered from 0. It has room for two cycles.
    pub fn begin(alloc: Global, rob: &Rob, front: &Front) -> Result<Table, AllocError>
        requires { AreShort rob.now front.now }
        ensures table { IfOk result (λ table. passages_of table ≡ table_from (in_buffers rob.now front.now)) }
        ensures room { IfOk result HasRoom }
        ensures rows { IfOk result (λ table. 576 ≤ vec_capacity table.rows) }
        ensures interrupts { IfOk result (λ table. 8 ≤ vec_capacity table.interrupts) }
        ensures few { IfOk result (λ table. length (passages_of table).rows ≤ 288) }
    {
        let mut table = Table::empty(alloc)?;
        table.append_fetched(0, rob, front);
        Ok(table)
    }

    // A table of nothing, with room for two cycles.
    fn empty(alloc: Global) -> Result<Table, AllocError>
        ensures table { IfOk result (λ table. passages_of table ≡ table_from []) }
        ensures none { IfOk result (λ table. length table.rows.items ≡ 0) }
        ensures rows { IfOk result (λ table. vec_capacity table.rows ≡ 576) }
        ensures interrupts { IfOk result (λ table. vec_capacity table.interrupts ≡ 8) }
    {
        Ok(Table {
            rows: Vec::with_capacity(alloc, 2 * MOST_IN_FLIGHT)?,
            dropped: 0,
            interrupts: Vec::with_capacity(alloc, 8)?,
            fetched: 0,
            retired: 0,
            in_flight: 0,
        })
    }

    /// The passages, in order of fetch.
    pub fn rows(&self) -> &[Passage]
        ensures { result.now ≡ (passages_of self.now).rows }
    {
        &self.rows.as_slice()[self.dropped..]
    }

    /// The cycles in which interrupts were taken.
    pub fn interrupts(&self) -> &[u64]
        ensures { result.now ≡ (passages_of self.now).interrupts }
    {
        self.interrupts.as_slice()
    }

    /// Makes room for what a further cycle may add.
    pub fn make_room(&mut self) -> Result<(), AllocError>
        ensures same { passages_of self.new ≡ passages_of self.old }
        ensures room { IfOk result (λ done. HasRoom self.new) }
    {
        self.rows.reserve(MOST_IN_FLIGHT)?;
        self.interrupts.reserve(8)
    }

    // Forgets all but so many of the oldest.
    pub(crate) fn keep(&mut self, count: usize)
        requires { count ≤ length (passages_of self.old).rows }
        ensures kept { passages_of self.new
            ≡ with_rows (take count (passages_of self.old).rows) (passages_of self.old) }
        ensures len { length self.new.rows.items ≤ length self.old.rows.items }
        ensures capacity { vec_capacity self.new.rows ≡ vec_capacity self.old.rows }
        ensures interrupts { self.new.interrupts ≡ self.old.interrupts }
    {
        self.in_flight = 0;
        self.rows.truncate(self.dropped + count);
    }

    // Moves the rows to the front where there is no room after them for a cycle.
    pub(crate) fn clear_space(&mut self)
        requires { length (passages_of self.old).rows + 288 ≤ vec_capacity self.old.rows }
        ensures same { passages_of self.new ≡ passages_of self.old }
        ensures room { length self.new.rows.items + 288 ≤ vec_capacity self.new.rows }
        ensures capacity { vec_capacity self.new.rows ≡ vec_capacity self.old.rows }
        ensures interrupts { self.new.interrupts ≡ self.old.interrupts }
    {
        if self.rows.capacity() - self.rows.len() < MOST_IN_FLIGHT {
            self.move_to_front();
        }
    }

    // Moves the rows to the front, over those that are dropped.
    fn move_to_front(&mut self)
        ensures same { passages_of self.new ≡ passages_of self.old }
        ensures none { self.new.dropped ≡ 0 }
        ensures capacity { vec_capacity self.new.rows ≡ vec_capacity self.old.rows }
        ensures interrupts { self.new.interrupts ≡ self.old.interrupts }
    {
        let len = self.rows.len();
        self.in_flight = 0;
        self.rows.copy_within(self.dropped..len, 0);
        self.rows.truncate(len - self.dropped);
        self.dropped = 0;
    }

    // Ends an instruction for each step, or notes an interrupt. After the last the program goes on at `next`.
    pub(crate) fn take_steps(&mut self, steps: &[Step], next: u32)
        requires countable { self.old.retired + 8 < 2 ^ 64 }
        requires room { length self.old.interrupts.items + 8 ≤ vec_capacity self.old.interrupts }
        requires few { length steps.now ≤ 8 }
        ensures taken { passages_of self.new ≡ with_steps steps.now next (passages_of self.old) }
        ensures len { length self.new.rows.items ≡ length self.old.rows.items }
        ensures rows { vec_capacity self.new.rows ≡ vec_capacity self.old.rows }
        ensures interrupts { vec_capacity self.new.interrupts ≡ vec_capacity self.old.interrupts }
    {
        for place in 0..steps.len() {
            self.take_step(&steps[place], first_pc(steps, place + 1, next));
        }
    }

    // What was in flight before a cycle goes on, or was squashed in it.
    #[inline(always)]
    pub(crate) fn move_rows_on(
        &mut self,
        cycle: u64,
        rob: &Rob,
        front: &Front,
        rows_are: RowsAre,
    ) -> usize
        requires { rows_are ≡ RowsAre.Current
            → AreStill cycle (passages_of self.old).rows (in_buffers rob.now front.now) }
        ensures rows { AreMovedOn cycle (in_buffers rob.now front.now)
            (passages_of self.old).rows (passages_of self.new).rows result }
        ensures kept { length (passages_of self.new).rows ≡ length (passages_of self.old).rows }
        ensures others { passages_of self.new ≡ with_rows (passages_of self.new).rows (passages_of self.old) }
        ensures len { length self.new.rows.items ≡ length self.old.rows.items }
        ensures capacity { vec_capacity self.new.rows ≡ vec_capacity self.old.rows }
        ensures interrupts { self.new.interrupts ≡ self.old.interrupts }
    {
        self.in_flight = 0;
        move_kept_on(
            self.rows.as_mut_slice(),
            self.dropped,
            cycle,
            rob,
            front,
            rows_are,
        )
    }

    // The oldest instruction in flight, if one is, retires as its row reports, and the program goes on at `next`.
    fn retire(&mut self, row: &Row, next: u32)
        requires { self.old.retired + 1 < 2 ^ 64 }
        ensures taken { passages_of self.new ≡ with_step (Step.Retired row.now) next (passages_of self.old) }
        ensures counted { self.old.in_flight ≤ self.new.in_flight + 1 }
        ensures len { length self.new.rows.items ≡ length self.old.rows.items }
        ensures capacity { vec_capacity self.new.rows ≡ vec_capacity self.old.rows }
        ensures interrupts { self.new.interrupts ≡ self.old.interrupts }
    {
        let order = self.retired;
        retire_kept(self.rows.as_mut_slice(), self.dropped, row, order, next);
        self.retired += 1;
        self.in_flight = self.in_flight.saturating_sub(1);
    }

    // The oldest instruction in flight, if one is, traps.
    fn trap(&mut self, cause: Cause, cycle: u64)
        ensures rows { (passages_of self.new).rows ≡ with_oldest (trapped_by cause cycle) (passages_of self.old).rows }
        ensures counted { self.old.in_flight ≤ self.new.in_flight + 1 }
        ensures len { length self.new.rows.items ≡ length self.old.rows.items }
        ensures capacity { vec_capacity self.new.rows ≡ vec_capacity self.old.rows }
        ensures others { CountsStay self.old self.new }
    {
        trap_kept(self.rows.as_mut_slice(), self.dropped, cause, cycle);
        self.in_flight = self.in_flight.saturating_sub(1);
    }

    // Ends the oldest instruction in flight by a step, after which the program goes on at `next`, or notes an
    // interrupt.
    fn take_step(&mut self, step: &Step, next: u32)
        requires countable { self.old.retired + 1 < 2 ^ 64 }
        requires room { length self.old.interrupts.items < vec_capacity self.old.interrupts }
        ensures taken { passages_of self.new ≡ with_step step.now next (passages_of self.old) }
        ensures len { length self.new.rows.items ≡ length self.old.rows.items }
        ensures rows { vec_capacity self.new.rows ≡ vec_capacity self.old.rows }
        ensures interrupts { vec_capacity self.new.interrupts ≡ vec_capacity self.old.interrupts }
    {
        match step {
            Step::Retired(row) => self.retire(row, next),
            Step::Trap { cause, cycle, .. } => self.trap(*cause, *cycle),
            Step::Interrupt { cycle, .. } => put_last(&mut self.interrupts, *cycle),
        }
    }

    // Numbers the instructions in flight from a place on, and appends them.
    pub(crate) fn append_fetched(&mut self, from: usize, rob: &Rob, front: &Front)
        requires short { AreShort rob.now front.now }
        requires room { length self.old.rows.items + 288 ≤ vec_capacity self.old.rows }
        requires countable { self.old.fetched + 288 < 2 ^ 64 }
        ensures appended { passages_of self.new
            ≡ with_fetched (buffers_from from rob.now front.now) (passages_of self.old) }
        ensures capacity { vec_capacity self.new.rows ≡ vec_capacity self.old.rows }
        ensures interrupts { self.new.interrupts ≡ self.old.interrupts }
        ensures few { length (in_buffers rob.now front.now) ≤ 288 }
    {
        for place in from..count_in_flight(rob, front) {
            self.append_at(place, rob, front);
        }
    }

    // Numbers the instruction at a place among those in flight, the oldest at place 0, and appends it.
    fn append_at(&mut self, place: usize, rob: &Rob, front: &Front)
        requires within { place < length (in_buffers rob.now front.now) }
        requires room { length self.old.rows.items < vec_capacity self.old.rows }
        requires countable { self.old.fetched + 1 < 2 ^ 64 }
        ensures appended { (now : Passage) → slice_get (in_buffers rob.now front.now) place ≡ Some now
            → passages_of self.new ≡ with_fetched (now ∷ []) (passages_of self.old) }
        ensures len { length self.new.rows.items ≡ length self.old.rows.items + 1 }
        ensures capacity { vec_capacity self.new.rows ≡ vec_capacity self.old.rows }
        ensures interrupts { self.new.interrupts ≡ self.old.interrupts }
    {
        self.in_flight = 0;
        put_present(&mut self.rows, rob, front, place, self.fetched);
        self.fetched += 1;
    }

    /// Forgets the instructions that were squashed.
    pub fn drop_squashed(&mut self)
        ensures { passages_of self.new ≡ without_squashed (passages_of self.old) }
    {
        self.move_to_front();
        self.in_flight = 0;
        self.rows.retain(|row| row.is_unsquashed());
    }

    // Forgets the first instructions, up to the oldest in flight.
    fn drop_first_ended(&mut self)
        ensures rows { (passages_of self.new).rows ≡ without_first_ended (passages_of self.old).rows }
        ensures opened { still_open (passages_of self.new) ≡ still_open (passages_of self.old) }
        ensures capacity { vec_capacity self.new.rows ≡ vec_capacity self.old.rows }
        ensures interrupts { self.new.interrupts ≡ self.old.interrupts }
    {
        self.dropped += count_first_ended(self.rows());
    }

    // Whether all are in flight. Where as many were counted as there are, none is looked at.
    fn all_are_in_flight(&self) -> bool
        ensures { result ≡ list_all is_in_flight (passages_of self.now).rows }
    {
        self.rows().len() == self.in_flight || are_in_flight(self.rows())
    }

    // Forgets all instructions that left the hardware, and moves the others to the front.
    fn move_open_to_front(&mut self)
        ensures rows { (passages_of self.new).rows ≡ filter is_in_flight (passages_of self.old).rows }
        ensures capacity { vec_capacity self.new.rows ≡ vec_capacity self.old.rows }
        ensures others { CountsStay self.old self.new }
    {
        self.move_to_front();
        self.in_flight = 0;
        self.rows.retain(|row| row.is_in_flight());
    }

    // Forgets all instructions that left the hardware, and moves the others where one of those lies after one of these.
    fn drop_other_ended(&mut self)
        ensures rows { (passages_of self.new).rows ≡ filter is_in_flight (passages_of self.old).rows }
        ensures capacity { vec_capacity self.new.rows ≡ vec_capacity self.old.rows }
        ensures others { CountsStay self.old self.new }
    {
        if !self.all_are_in_flight() {
            self.move_open_to_front();
        }
    }

    /// Forgets the instructions that left the hardware, and the interrupts.
    pub fn drop_ended(&mut self)
        ensures opened { passages_of self.new ≡ still_open (passages_of self.old) }
        ensures rows { vec_capacity self.new.rows ≡ vec_capacity self.old.rows }
        ensures interrupts { vec_capacity self.new.interrupts ≡ vec_capacity self.old.interrupts }
    {
        self.drop_first_ended();
        self.drop_other_ended();
        self.interrupts.clear();
    }
}
