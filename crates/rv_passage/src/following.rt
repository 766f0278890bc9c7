ghost use Rattle.std.specs.Prelude.{◌≡◌, ◌+◌, ◌≤◌, filter, length, vec_capacity};
ghost use Rattle.rv_passage.specs.Passage.{in_buffers, is_in_flight};

use crate::in_flight::{count_in_flight, count_kept};
use crate::rows::RowsAre;
use crate::table::Table;
use rv_front::Front;
use rv_hardware::Step;
use rv_rob::Rob;

impl Table {
    ghost use Rattle.rv_passage.specs.Followed.{CanFollow, HasFollowedCycle, HasFollowedNumbers};
    ghost use Rattle.rv_passage.specs.Shown.{AreStill};
    ghost use Rattle.rv_passage.specs.Table.{AreShort, CanCount, passages_of, with_steps};

    /// Notes what a cycle did that had these steps, and led to these buffers and to a pc, that of the oldest
    /// instruction that is still to retire. Asks for no memory.
    pub fn follow(&mut self, cycle: u64, steps: &[Step], rob: &Rob, front: &Front, pc: u32)
        requires { CanFollow steps.now rob.now front.now self.old }
        ensures followed { HasFollowedCycle cycle steps.now rob.now front.now pc self.old self.new }
        ensures counted { self.new.in_flight ≡ length (filter is_in_flight (passages_of self.new).rows) }
    {
        self.follow_as(cycle, steps, rob, front, pc, RowsAre::Older);
    }

    /// The same of a table whose rows show what was in flight before the cycle.
    pub fn follow_on(&mut self, cycle: u64, steps: &[Step], rob: &Rob, front: &Front, pc: u32)
        requires ready { CanFollow steps.now rob.now front.now self.old }
        requires still { AreStill cycle (with_steps steps.now pc (passages_of self.old)).rows
            (in_buffers rob.now front.now) }
        ensures followed { HasFollowedCycle cycle steps.now rob.now front.now pc self.old self.new }
        ensures counted { self.new.in_flight ≡ length (filter is_in_flight (passages_of self.new).rows) }
    {
        self.follow_as(cycle, steps, rob, front, pc, RowsAre::Current);
    }

    // The same of a table whose rows may be said to be current. It stands in both with all that it calls for each row, so
    // that none of that asks which they are.
    #[inline(always)]
    fn follow_as(
        &mut self,
        cycle: u64,
        steps: &[Step],
        rob: &Rob,
        front: &Front,
        pc: u32,
        rows_are: RowsAre,
    )
        requires ready { CanFollow steps.now rob.now front.now self.old }
        requires still { rows_are ≡ RowsAre.Current
            → AreStill cycle (with_steps steps.now pc (passages_of self.old)).rows (in_buffers rob.now front.now) }
        ensures followed { HasFollowedCycle cycle steps.now rob.now front.now pc self.old self.new }
        ensures counted { self.new.in_flight ≡ length (filter is_in_flight (passages_of self.new).rows) }
    {
        self.clear_space();
        self.follow_in_space(cycle, steps, rob, front, pc, rows_are);
        self.in_flight = count_in_flight(rob, front);
    }

    // The same where there is room after the rows for a cycle, but for the count of those in flight.
    #[inline(always)]
    fn follow_in_space(
        &mut self,
        cycle: u64,
        steps: &[Step],
        rob: &Rob,
        front: &Front,
        pc: u32,
        rows_are: RowsAre,
    )
        requires short { AreShort rob.now front.now }
        requires room { length self.old.rows.items + 288 ≤ vec_capacity self.old.rows }
        requires interrupts { length self.old.interrupts.items + 8 ≤ vec_capacity self.old.interrupts }
        requires countable { CanCount (passages_of self.old) }
        requires few { length steps.now ≤ 8 }
        requires still { rows_are ≡ RowsAre.Current
            → AreStill cycle (with_steps steps.now pc (passages_of self.old)).rows (in_buffers rob.now front.now) }
        ensures { HasFollowedCycle cycle steps.now rob.now front.now pc self.old self.new }
    {
        self.take_steps(steps, pc);
        let fetched = self.move_rows_on(cycle, rob, front, rows_are);
        self.append_fetched(fetched, rob, front);
    }

    /// Notes of a cycle that had these steps, and led to these buffers and to a pc, by their numbers which instructions
    /// are in flight at its end; what else it says of those may be what an earlier cycle left. Forgets the others. Asks
    /// for no memory.
    pub fn follow_numbers(&mut self, cycle: u64, steps: &[Step], rob: &Rob, front: &Front, pc: u32)
        requires { CanFollow steps.now rob.now front.now self.old }
        ensures followed { HasFollowedNumbers cycle steps.now rob.now front.now pc self.old self.new }
        ensures counted { self.new.in_flight ≡ length (filter is_in_flight (passages_of self.new).rows) }
    {
        self.renew_numbers(cycle, steps, rob, front, pc);
        self.in_flight = count_in_flight(rob, front);
    }

    // The same, but for the count of those in flight.
    fn renew_numbers(&mut self, cycle: u64, steps: &[Step], rob: &Rob, front: &Front, pc: u32)
        requires { CanFollow steps.now rob.now front.now self.old }
        ensures { HasFollowedNumbers cycle steps.now rob.now front.now pc self.old self.new }
    {
        self.take_steps(steps, pc);
        self.drop_ended();
        self.clear_space();
        let kept = count_kept(rob, front, cycle, self.rows().len());
        self.keep(kept);
        self.append_fetched(kept, rob, front);
    }
}
