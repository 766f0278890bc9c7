ghost use Rattle.std.specs.Prelude.{◌≡◌};
ghost use Rattle.rv_counts.specs.Load.{costs_of, is_hit, is_miss, is_quick, is_slow, load_cost};

use rv_isa::{Description, Instr, Values};
use rv_passage::Passage;

/// What a load costs, in cycles.
#[derive(Clone, Copy)]
pub struct LoadCosts {
    /// Of a load that need not go to memory.
    pub hit: u32,
    /// Of a load whose bytes all come from the store queue.
    pub forward: u32,
    /// Of one that misses, and writes no dirty line back.
    pub clean_miss: u64,
}

/// What an instruction cost, where it is a load that was issued: the cycles from its issue until its result could be broadcast.
pub fn load_cost(passage: &Passage) -> Option<u32>
    ensures { result ≡ load_cost passage.now }
{
    match passage.instruction.instruction() {
        Some(Instr::Load { .. }) => Some(passage.issue?.cost),
        _ => None,
    }
}

impl LoadCosts {
    /// The described costs.
    pub fn new(description: &Description) -> LoadCosts
        ensures { result ≡ costs_of description.now }
    {
        LoadCosts::of(&description.values())
    }

    /// Those of the machine with these values.
    pub fn of(values: &Values) -> LoadCosts
        ensures { result ≡ costs_of values.now }
    {
        LoadCosts {
            hit: values.cache.hit,
            forward: values.forward,
            clean_miss: u64::from(values.cache.hit) + u64::from(values.cache.miss),
        }
    }

    /// Whether a cost is that of a hit or of forwarding.
    pub fn is_quick(&self, cost: u32) -> bool
        ensures { result ≡ is_quick self.now cost }
    {
        cost == self.hit || cost == self.forward
    }

    /// Whether a cost means that a dirty line was written back: it is greater than that of a miss alone.
    pub fn is_slow(&self, cost: u32) -> bool
        ensures { result ≡ is_slow self.now cost }
    {
        !self.is_quick(cost) && self.clean_miss < u64::from(cost)
    }

    /// Whether an instruction is a load at the cost of a hit or of forwarding.
    pub(crate) fn is_hit(&self, passage: &Passage) -> bool
        ensures { result ≡ is_hit self.now (load_cost passage.now) }
    {
        match load_cost(passage) {
            Some(cost) => self.is_quick(cost),
            None => false,
        }
    }

    /// Whether an instruction is a load at any other cost.
    pub(crate) fn is_miss(&self, passage: &Passage) -> bool
        ensures { result ≡ is_miss self.now (load_cost passage.now) }
    {
        match load_cost(passage) {
            Some(cost) => !self.is_quick(cost),
            None => false,
        }
    }
}
