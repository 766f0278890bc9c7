ghost use Rattle.std.specs.Prelude.{◌≡◌, length, slice_get, IsTrue, IfOk};
ghost use Rattle.rv_isa.specs.PerKind.{for_each, at_kind, with_kind};
ghost use Rattle.rv_units.specs.Pool.{free_pool, is_free, started};

use crate::unit_pool::UnitPool;
use rv_isa::{Description, Issue, Kind, PerKind};
use std::alloc::{AllocError, Global};
use std::marker::Model;

/// The functional units of the four kinds.
#[derive(Drop)]
pub struct Units {
    pools: PerKind<UnitPool>,
}

impl Model for Units {
    ghost use Rattle.rv_isa.specs.declared.per_kind.PerKind.{PerKind as Pools};
    ghost use Rattle.rv_units.specs.Pool.{Pool};

    ghost Value = { Pools Pool };

    ghost view = { λ s. s.pools };
}

impl Units {
    /// The units that a description gives, all of them free. The only error is out of memory.
    pub fn new(alloc: Global, description: &Description) -> Result<Self, AllocError>
        ensures { IfOk result (λ units. units ≡ for_each free_pool description.now.kinds) }
    {
        let kinds = description.values().kinds;
        let pools = PerKind::try_new(
            UnitPool::new(alloc, kinds.alu),
            UnitPool::new(alloc, kinds.mul),
            UnitPool::new(alloc, kinds.div),
            UnitPool::new(alloc, kinds.mem),
        )?;
        Ok(Units { pools })
    }

    /// Whether a unit of a kind is free in a cycle.
    #[inline(always)]
    pub fn free(&self, kind: Kind, cycle: u64) -> bool
        ensures { result ≡ is_free cycle (at_kind kind self.now) }
    {
        self.pools.get(kind).free(cycle)
    }

    /// How many starts of a kind are remembered: those that hold a unit, and maybe some that hold none any more.
    pub fn start_count(&self, kind: Kind) -> usize
        ensures { result ≡ length (at_kind kind self.now).starts }
    {
        self.pools.get(kind).start_count()
    }

    /// The start at a place among those of a kind, the oldest at place 0: its cycle, and for how many cycles it holds its unit.
    pub fn start_at(&self, kind: Kind, place: usize) -> Option<Issue>
        ensures { result ≡ slice_get (at_kind kind self.now).starts place }
    {
        self.pools.get(kind).start_at(place)
    }

    /// Starts an execution of a cost on a unit of a kind that is free in a cycle. The cycles handed in
    /// never fall, so what holds no unit any more is forgotten.
    #[inline(always)]
    pub fn start(&mut self, kind: Kind, cost: u32, cycle: u64)
        requires { IsTrue (is_free cycle (at_kind kind self.old)) }
        ensures { self.new ≡ with_kind kind (started cost cycle (at_kind kind self.old)) self.old }
    {
        self.pools.get_mut(kind).start(cost, cycle)
    }
}
