ghost use Rattle.std.specs.Prelude.{◌≡◌, length, slice_get, IsTrue, IfOk};
ghost use Rattle.rv_units.specs.Pool.{free_pool, holds_unit, holding, is_free, started};

use rv_isa::{Issue, KindValues};
use std::alloc::{AllocError, Global};
use std::marker::Model;

/// The units of one kind. Squashed executions hold theirs to the end.
#[derive(Drop)]
pub struct UnitPool {
    units: usize,
    is_pipelined: bool,
    /// Of pipelined units, which are free again in the next cycle: the cycle of the latest start, and
    /// how many started in it.
    latest: u64,
    count: usize,
    /// Of others: the starts that still hold one.
    starts: Vec<Issue>,
}

impl Model for UnitPool {
    ghost use Rattle.rv_units.specs.Pool.{Pool};

    ghost Value = { Pool };

    ghost use Rattle.rv_units.specs.PoolFields.{pool, IsSoundPool};

    ghost view = { pool };

    ghost invariant = { IsSoundPool };
}

/// Whether an execution holds its unit in a cycle.
fn holds_unit(start: &Issue, cycle: u64) -> bool
    ensures { result ≡ holds_unit cycle start.now }
{
    start.cycle <= cycle && cycle - start.cycle < u64::from(start.cost)
}

impl UnitPool {
    /// The units of a kind, all of them free.
    pub fn new(alloc: Global, kind: KindValues) -> Result<Self, AllocError>
        ensures { IfOk result (λ pool. pool ≡ free_pool kind) }
    {
        let units = kind.units as usize;
        Ok(UnitPool {
            units,
            is_pipelined: kind.pipelined,
            latest: 0,
            count: 0,
            starts: Vec::with_capacity(alloc, units)?,
        })
    }

    /// How many units are held in a cycle.
    fn held(&self, cycle: u64) -> usize
        ensures { result ≡ length (holding cycle self.now.starts) }
    {
        if self.is_pipelined {
            return if self.latest == cycle { self.count } else { 0 };
        }
        self.starts
            .iter()
            .filter(|start| holds_unit(start, cycle))
            .count()
    }

    /// Whether a unit is free in a cycle: fewer are held than there are.
    pub fn free(&self, cycle: u64) -> bool
        ensures { result ≡ is_free cycle self.now }
    {
        self.held(cycle) < self.units
    }

    /// How many starts are remembered: those that hold a unit, and maybe some that hold none any more.
    pub fn start_count(&self) -> usize
        ensures { result ≡ length self.now.starts }
    {
        if self.is_pipelined {
            self.count
        } else {
            self.starts.len()
        }
    }

    /// The start at a place among those that are remembered, the oldest at place 0.
    pub fn start_at(&self, place: usize) -> Option<Issue>
        ensures { result ≡ slice_get self.now.starts place }
    {
        if !self.is_pipelined {
            return self.starts.get(place).copied();
        }
        if place < self.count {
            return Some(Issue {
                cycle: self.latest,
                cost: 1,
            });
        }
        None
    }

    /// Starts an execution in a cycle, and forgets those that hold no unit in it.
    pub fn start(&mut self, cost: u32, cycle: u64)
        requires { IsTrue (is_free cycle self.old) }
        ensures { self.new ≡ started cost cycle self.old }
    {
        if self.is_pipelined {
            self.count = self.held(cycle) + 1;
            self.latest = cycle;
            return;
        }
        self.starts.retain(|start| holds_unit(start, cycle));
        self.starts.push_reserved(Issue { cycle, cost });
    }
}
