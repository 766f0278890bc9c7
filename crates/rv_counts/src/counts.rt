ghost use Rattle.std.specs.Prelude.{◌≡◌, ◌+◌, ◌<◌, ◌^◌};
ghost use Rattle.rv_counts.specs.Counts.{CanCount, added, nothing_at, once_more_at_head};
ghost use Rattle.rv_counts.specs.Counts.{one_more, with_retired, with_waits};

use crate::loads::LoadCosts;
use crate::passing::{broadcast_wait, dispatch_wait, issue_wait, retirement_wait};
use crate::wait::Wait;
use rv_passage::{Addressed, Ending, Passage};

/// What became of the instructions that were fetched at an address. The waits, the hits, the misses and the wrong
/// predictions are those of the instructions that retired.
#[derive(Drop)]
pub struct WordCounts {
    /// The address.
    pub address: u32,
    /// How many were fetched.
    pub fetched: u64,
    /// How many of them retired.
    pub retired: u64,
    /// How many were squashed.
    pub squashed: u64,
    /// From fetch to dispatch.
    pub dispatch: Wait,
    /// From dispatch to issue, of those that use a unit.
    pub issue: Wait,
    /// From issue to broadcast, of those that use a unit.
    pub broadcast: Wait,
    /// From broadcast to retirement, of those that use a unit.
    pub retirement: Wait,
    /// Loads at the cost of a hit or of forwarding.
    pub hits: u64,
    /// All other loads.
    pub misses: u64,
    /// Those after which the program did not go on where that was predicted at the fetch.
    pub mispredicted: u64,
    /// The cycles that left it at the head of the reorder buffer.
    pub head_cycles: u64,
}

// One more, where something is so.
fn one_more(is: bool, count: u64) -> u64
    requires { count + 1 < 2 ^ 64 }
    ensures { result ≡ one_more is count }
{
    if is { count + 1 } else { count }
}

impl Addressed for WordCounts {
    ghost address_of = { λ word. word.address };

    ghost nothing_at = { nothing_at };

    fn address(&self) -> u32 {
        self.address
    }

    fn begin(address: u32) -> WordCounts {
        WordCounts {
            address,
            fetched: 0,
            retired: 0,
            squashed: 0,
            dispatch: Wait::new(),
            issue: Wait::new(),
            broadcast: Wait::new(),
            retirement: Wait::new(),
            hits: 0,
            misses: 0,
            mispredicted: 0,
            head_cycles: 0,
        }
    }
}

impl WordCounts {
    // Counts what an instruction that retired waited for.
    fn add_waits(&mut self, passage: &Passage)
        requires room { CanCount self.old }
        ensures { self.new ≡ with_waits passage.now self.old }
    {
        self.dispatch.add(dispatch_wait(passage));
        self.issue.add(issue_wait(passage));
        self.broadcast.add(broadcast_wait(passage));
        self.retirement.add(retirement_wait(passage));
    }

    // Counts an instruction that retired, beyond its fetch.
    fn add_retired(&mut self, costs: &LoadCosts, passage: &Passage)
        requires room { CanCount self.old }
        ensures { self.new ≡ with_retired costs.now passage.now self.old }
    {
        self.add_waits(passage);
        self.retired += 1;
        self.hits = one_more(costs.is_hit(passage), self.hits);
        self.misses = one_more(costs.is_miss(passage), self.misses);
        self.mispredicted = one_more(passage.is_mispredicted(), self.mispredicted);
    }

    /// Counts an instruction by how it ended.
    pub(crate) fn add(&mut self, costs: &LoadCosts, passage: &Passage)
        requires room { CanCount self.old }
        ensures { self.new ≡ added costs.now passage.now self.old }
    {
        match passage.ending {
            Ending::Retired { .. } => self.add_retired(costs, passage),
            Ending::Squashed { .. } => self.squashed += 1,
            Ending::Trapped { .. } | Ending::InFlight => {}
        }
        self.fetched += 1;
    }

    /// Counts a cycle that left the instruction at the head.
    pub(crate) fn add_head(&mut self)
        requires room { CanCount self.old }
        ensures { self.new ≡ once_more_at_head self.old }
    {
        self.head_cycles += 1;
    }
}
