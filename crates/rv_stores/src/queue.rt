ghost use Rattle.std.specs.Prelude.{◌≡◌, ◌≤◌, ◌↔◌, ◌++◌, ◌∷◌, [], Some, length, map, filter, nat_lt};
ghost use Rattle.std.specs.Prelude.{nat_le, option_copied, slice_get, IsTrue, IsSome, IfOk, false};
ghost use Rattle.std.specs.List.{prefix_len};
ghost use Rattle.rv_isa.specs.Numbered.{AreBelow};
ghost use Rattle.rv_stores.specs.Queue.{CanEnter, first_unknown, forwarded, is_oldest_draining};
ghost use Rattle.rv_stores.specs.Queue.{older_than, oldest_to_drain, with_oldest_draining};
ghost use Rattle.rv_stores.specs.Queue.{with_oldest_retired, without_drained, youngest_byte};
ghost use Rattle.rv_stores.specs.Store.{answered, entered, filled_with, is_committed, is_committed_state};
ghost use Rattle.rv_stores.specs.declared.store.StoreState.TheVariants.{Faulted};

use crate::forwarding::{committed_bytes, older_bytes};
use crate::store::{Store, StorePhase, StoreState};
use circular_buffer::HeapCircularBuffer;
use rv_isa::{Description, StoreAccess};
use std::alloc::{AllocError, Global};
use std::marker::Model;

/// The stores between dispatch and the cache, oldest first, in a ring whose capacity is fixed when it is made.
///
/// Numbers are the instructions' sequence numbers. A call that names a number which no waiting store has changes
/// nothing. No call but `new` takes memory.
#[derive(Drop)]
pub struct StoreQueue {
    ring: HeapCircularBuffer<Store>,
}

impl Model for StoreQueue {
    ghost use Rattle.rv_isa.specs.Numbered.{IsInOrder};
    ghost use Rattle.rv_stores.specs.Queue.{Queue, ComeFirst};
    ghost use Rattle.rv_stores.specs.Store.{is_committed};

    ghost Value = { Queue };

    ghost view = { λ q. record { stores = q.ring.items; capacity = q.ring.capacity } };

    ghost invariant = { λ q. IsInOrder (λ store. store.seq) q.ring.items × ComeFirst is_committed q.ring.items };
}

impl StoreQueue {
    /// An empty queue for as many stores as the description says.
    pub fn new(alloc: Global, description: &Description) -> Result<StoreQueue, AllocError>
        ensures { IfOk result (λ queue. queue ≡ record { stores = []; capacity = description.now.store_queue }) }
    {
        let capacity = description.values().store_queue as usize;
        Ok(StoreQueue {
            ring: HeapCircularBuffer::with_capacity(alloc, capacity)?,
        })
    }

    /// Whether the queue holds as many stores as it can.
    pub fn is_full(&self) -> bool
        ensures full { result ≡ nat_le self.now.capacity (length self.now.stores) }
        ensures within { length self.now.stores ≤ self.now.capacity }
    {
        self.ring.len() >= self.ring.capacity()
    }

    /// Whether the queue holds no store.
    pub fn is_empty(&self) -> bool
        ensures { IsTrue result ↔ (self.now.stores ≡ []) }
    {
        self.ring.is_empty()
    }

    /// How many stores the queue holds.
    pub fn len(&self) -> usize
        ensures { result ≡ length self.now.stores }
    {
        self.ring.len()
    }

    /// The store at a place of the queue, the oldest at place 0.
    pub fn get(&self, place: usize) -> Option<&Store>
        ensures { option_copied result ≡ slice_get self.now.stores place }
    {
        self.ring.get(place)
    }

    /// Whether there is room for a store, and the number is above each one that the queue holds.
    pub fn can_enter(&self, seq: u64) -> bool
        ensures { IsTrue result ↔ CanEnter seq self.now }
    {
        self.ring.len() < self.ring.capacity() && self.are_below(seq)
    }

    // Whether the number of each store is below a number: that of the youngest is.
    fn are_below(&self, seq: u64) -> bool
        ensures { IsTrue result ↔ AreBelow (λ store. store.seq) seq self.now.stores }
    {
        match self.ring.back() {
            Some(youngest) => youngest.seq < seq,
            None => true,
        }
    }

    /// Whether the oldest store is committed and not draining.
    pub fn can_drain(&self) -> bool
        ensures { IsTrue result ↔ IsSome (oldest_to_drain self.now.stores) }
    {
        self.oldest_to_drain().is_some()
    }

    // What the oldest store writes, where it is committed and not draining.
    fn oldest_to_drain(&self) -> Option<StoreAccess>
        ensures { result ≡ oldest_to_drain self.now.stores }
    {
        self.ring.front()?.access_to_drain()
    }

    /// Whether the oldest store's access to the cache is under way.
    pub fn is_draining(&self) -> bool
        ensures { result ≡ is_oldest_draining self.now.stores }
    {
        self.ring.front().is_some_and(|store| store.is_draining())
    }

    /// Enters a store at its dispatch, after all others.
    pub fn enter(&mut self, seq: u64)
        requires { CanEnter seq self.old }
        ensures { self.new ≡ record self.old { stores = self.old.stores ++ entered seq ∷ [] } }
    {
        self.ring.push_back(Store {
            seq,
            state: StoreState::Waiting,
        });
    }

    /// Fills the waiting store with this number with what it writes.
    pub fn fill(&mut self, seq: u64, access: StoreAccess)
        ensures { self.new ≡ record self.old { stores = map (answered seq (filled_with access)) self.old.stores } }
    {
        self.answer(
            seq,
            StoreState::Filled {
                access,
                phase: StorePhase::Speculative,
            },
        );
    }

    /// Marks the waiting store with this number as faulting.
    pub fn fill_fault(&mut self, seq: u64)
        ensures { self.new ≡ record self.old { stores = map (answered seq Faulted) self.old.stores } }
    {
        self.answer(seq, StoreState::Faulted);
    }

    // What a broadcast says of the waiting store with this number.
    fn answer(&mut self, seq: u64, news: StoreState)
        requires { is_committed_state news ≡ false }
        ensures { self.new ≡ record self.old { stores = map (answered seq news) self.old.stores } }
    {
        let place = self.older_count(seq);
        let Some(store) = self.ring.get_mut(place) else {
            return;
        };
        *store = store.answered(seq, news);
    }

    /// Commits the oldest store that is not committed, at its retirement: one that was filled.
    pub fn commit_oldest(&mut self)
        ensures { self.new ≡ record self.old { stores = with_oldest_retired self.old.stores } }
    {
        let place = self.committed_count();
        let Some(store) = self.ring.get_mut(place) else {
            return;
        };
        store.state = store.state.retired();
    }

    // How many stores come before the first that is not below a number.
    fn older_count(&self, seq: u64) -> usize
        ensures { result ≡ prefix_len (λ store. nat_lt store.seq seq) self.now.stores }
    {
        self.ring.iter().take_while(|store| store.seq < seq).count()
    }

    // How many stores come before the first that is not committed.
    fn committed_count(&self) -> usize
        ensures { result ≡ prefix_len is_committed self.now.stores }
    {
        self.ring
            .iter()
            .take_while(|store| store.is_committed())
            .count()
    }

    /// Begins to drain the oldest store, and gives what it writes. The store stays, and forwards, until `end_drain`.
    pub fn start_drain(&mut self) -> StoreAccess
        requires { IsSome (oldest_to_drain self.old.stores) }
        ensures access { oldest_to_drain self.old.stores ≡ Some result }
        ensures stores { self.new ≡ record self.old { stores = with_oldest_draining self.old.stores } }
    {
        let Some(access) = self.oldest_to_drain() else {
            unreachable!();
        };
        self.drain_oldest();
        access
    }

    // The oldest store drains from now on.
    fn drain_oldest(&mut self)
        ensures { self.new ≡ record self.old { stores = with_oldest_draining self.old.stores } }
    {
        let Some(store) = self.ring.get_mut(0) else {
            return;
        };
        store.state = store.state.draining();
    }

    /// Takes out the store that drains, whose bytes are in the cache. Where none drains nothing changes.
    pub fn end_drain(&mut self)
        ensures { self.new ≡ record self.old { stores = without_drained self.old.stores } }
    {
        if self.is_draining() {
            self.ring.pop_front();
        }
    }

    /// The number of the oldest store that was neither filled nor marked as faulting, None where all were.
    pub fn first_unknown(&self) -> Option<u64>
        ensures { result ≡ first_unknown self.now.stores }
    {
        self.ring
            .iter()
            .find(|store| !store.is_known())
            .map(|store| store.seq)
    }

    /// The bytes that the stores below a number forward to an access of `count` bytes at an address: each is that of the
    /// youngest such store that covers it, None where none does, and after the end of the access.
    pub fn overlay(&self, seq: u64, address: u32, count: usize) -> [Option<u8>; 4]
        ensures { result ≡ forwarded (older_than seq self.now.stores) address count }
    {
        let (front, back) = self.ring.as_slices();
        let found = older_bytes(front, seq, [None; 4], address, count);
        older_bytes(back, seq, found, address, count)
    }

    /// The byte at an address of the youngest committed store that covers it, None where none does: what the queue
    /// holds of the bytes that programs see.
    pub fn committed_byte(&self, address: u32) -> Option<u8>
        ensures { result ≡ youngest_byte address (filter is_committed self.now.stores) }
    {
        let (front, back) = self.ring.as_slices();
        let found = committed_bytes(front, None, address);
        committed_bytes(back, found, address)
    }

    /// Takes out the stores from a number on.
    pub fn squash(&mut self, from: u64)
        ensures { self.new ≡ record self.old { stores = older_than from self.old.stores } }
    {
        let kept = self.older_count(from);
        self.ring.truncate_back(kept);
    }

    /// Takes out the stores that are not committed.
    pub fn squash_uncommitted(&mut self)
        ensures { self.new ≡ record self.old { stores = filter is_committed self.old.stores } }
    {
        let kept = self.committed_count();
        self.ring.truncate_back(kept);
    }
}
