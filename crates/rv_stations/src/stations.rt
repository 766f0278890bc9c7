ghost use Rattle.std.specs.Prelude.{◌≡◌, ◌<◌, ◌≤◌, ◌↔◌, Bool, false, [], None, length, nat_le, IsTrue, IfOk, IfSome};
ghost use Rattle.rv_isa.specs.Numbered.{AreBelow, IsInOrder};
ghost use Rattle.rv_stations.specs.Waiting.{seq_of, ArePassedBy, IsOperand, next_ready, oldest_ready, ready_taken};
ghost use Rattle.rv_isa.specs.PerKind.{at_kind, with_kind, for_each};
ghost use Rattle.rv_stations.specs.Pool.{Searches, empty_pool, with_waiting, woken_pool, issued, squashed};

use crate::pool::StationPool;
use crate::waiting::{Taken, Verdict, Waiting};
use rv_isa::{Description, Kind, PerKind};
use std::alloc::{AllocError, Global};
use std::marker::Model;

/// The reservation stations of the four kinds.
#[derive(Drop)]
pub struct Stations {
    pools: PerKind<StationPool>,
}

impl Model for Stations {
    ghost use Rattle.rv_isa.specs.declared.per_kind.PerKind.{PerKind as Pools};
    ghost use Rattle.rv_stations.specs.Pool.{Pool};

    ghost Value = { Pools Pool };

    ghost view = { λ s. s.pools };
}

impl Stations {
    /// The stations that a description gives, with nothing in them. The only error is out of memory.
    pub fn new(alloc: Global, description: &Description) -> Result<Self, AllocError>
        ensures { IfOk result (λ stations. stations ≡ for_each empty_pool description.now.kinds) }
    {
        let kinds = description.values().kinds;
        let pools = PerKind::try_new(
            StationPool::new(alloc, kinds.alu),
            StationPool::new(alloc, kinds.mul),
            StationPool::new(alloc, kinds.div),
            StationPool::new(alloc, kinds.mem),
        )?;
        Ok(Stations { pools })
    }

    /// Whether an instruction waits in each station of a kind.
    pub fn is_full(&self, kind: Kind) -> bool
        ensures full { result ≡ nat_le (at_kind kind self.now).capacity (length (at_kind kind self.now).waiting) }
        ensures within { length (at_kind kind self.now).waiting ≤ (at_kind kind self.now).capacity }
    {
        self.pools.get(kind).is_full()
    }

    /// Whether no instruction of a kind waits.
    pub fn is_empty(&self, kind: Kind) -> bool
        ensures { IsTrue result ↔ ((at_kind kind self.now).waiting ≡ []) }
    {
        self.pools.get(kind).is_empty()
    }

    /// Whether an instruction of a kind may have its operands. Where none may, none has, and a search finds none.
    #[inline(always)]
    pub fn may_be_ready(&self, kind: Kind) -> bool
        ensures { result ≡ false → (test : Waiting → Bool) → oldest_ready test (at_kind kind self.now).waiting ≡ None }
    {
        self.pools.get(kind).may_be_ready()
    }

    /// Whether a sequence number is above those of all instructions of a kind that wait.
    pub fn is_youngest(&self, kind: Kind, seq: u64) -> bool
        ensures { IsTrue result ↔ AreBelow seq_of seq (at_kind kind self.now).waiting }
    {
        self.pools.get(kind).is_youngest(seq)
    }

    /// Takes in an instruction of a kind that is younger than all of the kind that wait. Its tags are
    /// sequence numbers.
    pub fn insert(&mut self, kind: Kind, waiting: Waiting)
        requires room { length (at_kind kind self.old).waiting < (at_kind kind self.old).capacity }
        requires youngest { AreBelow seq_of waiting.seq (at_kind kind self.old).waiting }
        requires first { IsOperand waiting.first }
        requires second { IsOperand waiting.second }
        ensures { self.new ≡ with_kind kind (with_waiting waiting (at_kind kind self.old)) self.old }
    {
        self.pools.get_mut(kind).insert(waiting)
    }

    /// Gives every operand whose tag is a sequence number the value of its producer, and changes no
    /// other.
    #[inline(always)]
    pub fn wake(&mut self, seq: u64, value: u32)
        ensures { self.new ≡ for_each (woken_pool seq value) self.old }
    {
        self.pools.alu.wake(seq, value);
        self.pools.mul.wake(seq, value);
        self.pools.div.wake(seq, value);
        self.pools.mem.wake(seq, value);
    }

    /// Takes out the oldest instruction of a kind that is ready, with both operands' values there, and that passes a
    /// filter; none where there is none. The search passes by the oldest so many of the kind: of these the caller knows
    /// that none is ready and passes, as after a search of the same cycle.
    #[inline(always)]
    pub fn take_oldest_ready<F: Fn(&Waiting) -> Verdict>(
        &mut self,
        kind: Kind,
        passed: usize,
        filter: F,
    ) -> Option<Taken>
        requires { F.IsAlwaysCallable filter }
        ensures oldest { (test : Waiting → Bool) → Searches F.Fn filter test passed (at_kind kind self.old) →
            ready_taken result ≡ next_ready test (at_kind kind self.old).waiting }
        ensures others { (test : Waiting → Bool) → Searches F.Fn filter test passed (at_kind kind self.old) →
            self.new ≡ with_kind kind (issued test (at_kind kind self.old)) self.old }
        ensures passed { (test : Waiting → Bool) → Searches F.Fn filter test passed (at_kind kind self.old) →
            IfSome result (λ taken. ArePassedBy test taken.passed (at_kind kind self.new).waiting) }
        ensures in_order { IsInOrder seq_of (at_kind kind self.old).waiting }
    {
        self.pools.get_mut(kind).take_oldest_ready(passed, filter)
    }

    /// Takes out the instructions of a sequence number and of all above it.
    pub fn squash(&mut self, from: u64)
        ensures { self.new ≡ for_each (squashed from) self.old }
    {
        self.pools.alu.squash(from);
        self.pools.mul.squash(from);
        self.pools.div.squash(from);
        self.pools.mem.squash(from);
    }
}
