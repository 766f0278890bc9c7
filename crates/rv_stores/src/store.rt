ghost use Rattle.std.specs.Prelude.{◌≡◌, ◌<◌};
ghost use Rattle.rv_stores.specs.Store.{answered, byte_at, draining, is_committed, is_draining};
ghost use Rattle.rv_stores.specs.Store.{is_known, laid_byte, laid_over, retired, told, access_to_drain};

use rv_isa::StoreAccess;

/// How far a filled store has come on its way to the cache.
#[derive(Clone, Copy)]
pub enum StorePhase {
    /// It has not retired, and may still be squashed.
    Speculative,
    /// It has retired, and waits for the cache's port.
    Committed,
    /// Its access to the cache is under way.
    Draining,
}

/// What is known of a store.
#[derive(Clone, Copy)]
pub enum StoreState {
    /// Its result has not been broadcast: address and data are unknown.
    Waiting,
    /// Its broadcast reported a fault: it covers no byte, and never commits.
    Faulted,
    /// Its broadcast reported what it writes.
    Filled {
        /// What it writes.
        access: StoreAccess,
        /// How far it has come.
        phase: StorePhase,
    },
}

impl StoreState {
    // After a broadcast: a store that waits learns the news, any other stays.
    pub(crate) fn told(self, news: StoreState) -> StoreState
        ensures { result ≡ told news self }
    {
        match self {
            StoreState::Waiting => news,
            known => known,
        }
    }

    // After its retirement: a filled store is committed.
    pub(crate) fn retired(self) -> StoreState
        ensures { result ≡ retired self }
    {
        match self {
            StoreState::Filled { access, .. } => StoreState::Filled {
                access,
                phase: StorePhase::Committed,
            },
            other => other,
        }
    }

    // After its access to the cache began: a filled store drains.
    pub(crate) fn draining(self) -> StoreState
        ensures { result ≡ draining self }
    {
        match self {
            StoreState::Filled { access, .. } => StoreState::Filled {
                access,
                phase: StorePhase::Draining,
            },
            other => other,
        }
    }
}

/// A store of the queue.
#[derive(Clone, Copy)]
pub struct Store {
    /// The instruction's sequence number.
    pub seq: u64,
    /// What is known of it.
    pub state: StoreState,
}

impl Store {
    // The byte that this store writes at a place of memory, None where it covers no such byte.
    pub(crate) fn byte_at(&self, place: u64) -> Option<u8>
        ensures { result ≡ byte_at place self.now }
    {
        let StoreState::Filled { access, .. } = self.state else {
            return None;
        };
        let offset = place.checked_sub(u64::from(access.address))?;
        access.bytes.as_slice().get(offset as usize).copied()
    }

    // The byte found so far at an offset of an access of `count` bytes, with that of this store laid over it.
    fn laid_byte(
        &self,
        found: &[Option<u8>; 4],
        address: u32,
        count: usize,
        offset: usize,
    ) -> Option<u8>
        requires { offset < 4 }
        ensures { result ≡ laid_byte address count self.now found.now offset }
    {
        let own = self.byte_at(u64::from(address) + offset as u64);
        if offset < count {
            own.or(found[offset])
        } else {
            found[offset]
        }
    }

    // The bytes found so far for an access of `count` bytes at an address, with those of this store laid over them.
    pub(crate) fn laid_over(
        &self,
        found: [Option<u8>; 4],
        address: u32,
        count: usize,
    ) -> [Option<u8>; 4]
        ensures { result ≡ laid_over address count self.now found }
    {
        [
            self.laid_byte(&found, address, count, 0),
            self.laid_byte(&found, address, count, 1),
            self.laid_byte(&found, address, count, 2),
            self.laid_byte(&found, address, count, 3),
        ]
    }

    // Whether its broadcast has been: it was filled or marked as faulting.
    pub(crate) fn is_known(&self) -> bool
        ensures { result ≡ is_known self.now }
    {
        !matches!(self.state, StoreState::Waiting)
    }

    // Whether it has retired.
    pub(crate) fn is_committed(&self) -> bool
        ensures { result ≡ is_committed self.now }
    {
        match self.state {
            StoreState::Waiting | StoreState::Faulted => false,
            StoreState::Filled { phase, .. } => !matches!(phase, StorePhase::Speculative),
        }
    }

    // Whether its access to the cache is under way.
    pub(crate) fn is_draining(&self) -> bool
        ensures { result ≡ is_draining self.now }
    {
        match self.state {
            StoreState::Waiting | StoreState::Faulted => false,
            StoreState::Filled { phase, .. } => matches!(phase, StorePhase::Draining),
        }
    }

    // After the broadcast of a number: it learns the news where the number is its own and it waits.
    pub(crate) fn answered(self, seq: u64, news: StoreState) -> Store
        ensures { result ≡ answered seq news self }
    {
        if self.seq != seq {
            return self;
        }
        Store {
            seq,
            state: self.state.told(news),
        }
    }

    // What it writes, where it is committed and not draining.
    pub(crate) fn access_to_drain(&self) -> Option<StoreAccess>
        ensures { result ≡ access_to_drain self.now }
    {
        match self.state {
            StoreState::Filled {
                access,
                phase: StorePhase::Committed,
            } => Some(access),
            _ => None,
        }
    }
}
