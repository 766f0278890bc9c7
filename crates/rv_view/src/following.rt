ghost use Rattle.std.specs.Prelude.{◌≡◌, IfOk};
ghost use Rattle.rv_passage.specs.Passage.{in_flight};
ghost use Rattle.rv_passage.specs.Shown.{AreStill};
ghost use Rattle.rv_passage.specs.Table.{passages_of, with_steps};
ghost use Rattle.rv_view.specs.Following.{BeginsAt, CanFollowCycle, FollowsFrom, IsFollowedOn, IsNumberedOn};

use rv_hardware::Step;
use rv_passage::{Passage, Table};
use rv_watch::{ShownHardware, Simulated};
use std::alloc::{AllocError, Global};

/// What it takes to follow a run: a table of what is in flight, with room for two cycles, and a list with room for the
/// steps of a cycle.
#[derive(Drop)]
pub struct Following {
    pub(crate) table: Table,
    pub(crate) steps: Vec<Step>,
}

impl Following {
    /// Begins with what is in flight in hardware. The only error is out of memory.
    pub fn begin<S: Simulated>(alloc: Global, pipeline: &S) -> Result<Following, AllocError>
        ensures { IfOk result (FollowsFrom (S.hardware pipeline.now)) }
    {
        let table = begin_table(alloc, pipeline)?;
        let steps = Vec::with_capacity(alloc, 8)?;
        Ok(Following { table, steps })
    }

    /// What is in flight, in order of fetch.
    pub fn rows(&self) -> &[Passage]
        ensures { result.now ≡ (passages_of self.now.table).rows }
    {
        self.table.rows()
    }
}

/// A table that begins with what is in flight in hardware. The only error is out of memory.
pub fn begin_table<S: Simulated>(alloc: Global, pipeline: &S) -> Result<Table, AllocError>
    ensures { IfOk result (BeginsAt (S.hardware pipeline.now)) }
{
    let hardware = pipeline.shown();
    Table::begin(alloc, hardware.rob, hardware.front)
}

/// Follows instructions through a cycle that had these steps, and left the hardware. Asks for no memory.
pub fn follow(table: &mut Table, cycle: u64, steps: &[Step], hardware: &ShownHardware<'_>)
    requires { CanFollowCycle steps.now table.old }
    ensures { IsFollowedOn cycle steps.now hardware.now table.old table.new }
{
    table.follow(cycle, steps, hardware.rob, hardware.front, hardware.pc);
}

/// The same of a table whose rows show what was in flight before the cycle.
pub fn follow_on(table: &mut Table, cycle: u64, steps: &[Step], hardware: &ShownHardware<'_>)
    requires ready { CanFollowCycle steps.now table.old }
    requires still { AreStill cycle (with_steps steps.now hardware.now.pc (passages_of table.old)).rows
        (in_flight hardware.now) }
    ensures { IsFollowedOn cycle steps.now hardware.now table.old table.new }
{
    table.follow_on(cycle, steps, hardware.rob, hardware.front, hardware.pc);
}

/// Notes of such a cycle by their numbers alone which instructions are in flight at its end, for cycles that are not
/// shown: what else the table says of them may be what an earlier cycle left. The next cycle that `follow` follows
/// gives that too. Asks for no memory.
pub fn follow_numbers(table: &mut Table, cycle: u64, steps: &[Step], hardware: &ShownHardware<'_>)
    requires { CanFollowCycle steps.now table.old }
    ensures { IsNumberedOn cycle steps.now hardware.now table.old table.new }
{
    table.follow_numbers(cycle, steps, hardware.rob, hardware.front, hardware.pc);
}
