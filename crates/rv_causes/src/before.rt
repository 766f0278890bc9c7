ghost use Rattle.std.specs.Prelude.{◌≡◌, option_copied};
ghost use Rattle.rv_causes.specs.Before.{facts_by, is_waiting, waits_in};

use crate::cause::Cause;
use crate::event::Event;
use crate::waiting_stores::WaitingStores;
use rv_isa::Kind;
use rv_stores::{Store, StorePhase, StoreQueue, StoreState};

/// Who holds the port of the cache.
#[derive(Clone, Copy)]
pub(crate) enum Holder {
    /// The drain of a store.
    Drain,
    /// A load.
    Load,
    /// The lines that a FENCE.I writes back.
    Lines,
}

/// The port of the cache is held until a cycle, from an event on.
#[derive(Clone, Copy)]
pub(crate) struct PortHold {
    /// The first cycle in which it is free again.
    pub(crate) until: u64,
    pub(crate) event: Event,
    pub(crate) holder: Holder,
    /// The number of the instruction, but for a drain.
    pub(crate) number: u64,
}

/// A unit that is not pipelined is held until a cycle, from the issue of an instruction on.
#[derive(Clone, Copy)]
pub(crate) struct UnitHold {
    pub(crate) kind: Kind,
    /// The first cycle in which it is free again.
    pub(crate) until: u64,
    /// The number of the instruction.
    pub(crate) number: u64,
    pub(crate) event: Event,
}

/// The store that drained last, from an event until a cycle.
#[derive(Clone, Copy)]
pub(crate) struct DrainHold {
    /// The first cycle in which the drain is over.
    pub(crate) until: u64,
    pub(crate) event: Event,
}

/// The last cycle in which instructions left the hardware, or an interrupt was taken.
#[derive(Clone, Copy)]
pub(crate) struct Left {
    pub(crate) cycle: u64,
    /// How many instructions retired or trapped; none where it was an interrupt.
    pub(crate) count: usize,
    /// The last event.
    pub(crate) event: Event,
}

/// What the hardware shows of its stores and its port after a cycle.
#[derive(Clone, Copy)]
pub struct Facts {
    /// How many stores the store queue holds.
    pub(crate) stores: usize,
    /// Whether a retired one waits for the port.
    pub(crate) is_store_waiting: bool,
    /// The first cycle in which the port is free.
    pub(crate) port_free: u64,
    /// The first cycle in which the drain under way is over, if one is.
    pub(crate) drain_end: Option<u64>,
}

/// What is known when a cycle begins, but for the instructions and the units.
#[derive(Drop)]
pub(crate) struct Before {
    pub(crate) left: Option<Left>,
    pub(crate) port: Option<PortHold>,
    pub(crate) drain: Option<DrainHold>,
    pub(crate) facts: Facts,
    pub(crate) waiting: WaitingStores,
    /// Whether an instruction was issued or left the hardware since fetch began anew.
    pub(crate) refilled: bool,
}

/// Whether a store has retired, and its access to the cache did not begin.
pub(crate) fn is_waiting(store: Option<&Store>) -> bool
    ensures { result ≡ is_waiting (option_copied store.entry) }
{
    match store {
        Some(store) => matches!(
            store.state,
            StoreState::Filled {
                phase: StorePhase::Committed,
                ..
            }
        ),
        None => false,
    }
}

// Whether a retired store waits for the port: one at most drains before it.
fn waits_in(stores: &StoreQueue) -> bool
    ensures { result ≡ waits_in stores.now.stores }
{
    is_waiting(stores.get(0)) || is_waiting(stores.get(1))
}

impl Facts {
    /// What hardware between two cycles shows, by its store queue, the first cycle in which its port is free, and the
    /// first one in which the drain under way is over, if one is.
    pub fn of(stores: &StoreQueue, port_free: u64, drain_end: Option<u64>) -> Facts
        ensures { result ≡ facts_by stores.now.stores port_free drain_end }
    {
        Facts {
            stores: stores.len(),
            is_store_waiting: waits_in(stores),
            port_free,
            drain_end,
        }
    }
}

impl Holder {
    ghost use Rattle.rv_causes.specs.Before.{port_cause};

    /// What an event waited for that came when the port was free again.
    pub(crate) fn cause(self) -> Cause
        ensures { result ≡ port_cause self }
    {
        match self {
            Holder::Drain => Cause::PortStore,
            Holder::Load => Cause::PortLoad,
            Holder::Lines => Cause::PortLines,
        }
    }

    ghost use Rattle.rv_causes.specs.Before.{is_same_holder};

    /// Whether two are of one sort.
    pub(crate) fn is(self, other: Holder) -> bool
        ensures { result ≡ is_same_holder self other }
    {
        match (self, other) {
            (Holder::Drain, Holder::Drain)
            | (Holder::Load, Holder::Load)
            | (Holder::Lines, Holder::Lines) => true,
            _ => false,
        }
    }
}
