ghost use Rattle.std.specs.Prelude.{◌≡◌, ◌≤◌, ◌↔◌, IsSome, IfSome, IsTrue, filter, length, nat_le, take};
ghost use Rattle.std.specs.List.Sorted.{IsNonDecreasingBy};
ghost use Rattle.rv_isa.specs.Arrivals.{IsLegalArrivals};

use crate::line_levels::{BLOCK, BLOCKS, levels_of, lines_after};
use crate::lines::{Arrival, Lines};
use std::marker::Model;

/// The most arrivals of a list.
pub const MOST_ARRIVALS: usize = 100_000;

/// The last cycle in which a line may change.
pub const LAST_CYCLE: u64 = 1_000_000;

/// The changes of the interrupt lines, in the order of their cycles.
#[derive(Drop)]
pub struct Arrivals {
    items: Vec<Arrival>,
    // The levels after the first k blocks, at place k.
    levels: [Lines; BLOCKS],
}

impl Model for Arrivals {
    ghost use Rattle.std.specs.Prelude.{List};
    ghost use Rattle.rv_isa.specs.declared.lines.Arrival.{Arrival as OneArrival};

    ghost Value = { List OneArrival };

    ghost use Rattle.rv_isa.specs.Arrivals.{IsLegalArrivals};
    ghost use Rattle.rv_isa.specs.Levels.{HoldsLevels};

    ghost view = { λ a. a.items.items };

    ghost invariant = { λ a. IsLegalArrivals a.items.items × HoldsLevels a.items.items a.levels };
}

impl Arrivals {
    ghost use Rattle.rv_isa.specs.Arrivals.{lines_at};

    /// The list of these changes, or `None` where there are more than 100,000, a cycle is above
    /// 1,000,000, or a cycle is below the one before.
    pub fn new(items: Vec<Arrival>) -> Option<Self>
        ensures legal { IsSome result ↔ IsLegalArrivals items.items }
        ensures arrivals { IfSome result (λ a. a ≡ items.items) }
    {
        if is_legal(items.as_slice()) {
            let levels = levels_of(items.as_slice());
            Some(Arrivals { items, levels })
        } else {
            None
        }
    }

    /// The levels of the lines in a cycle: each line has the level of its last arrival with a cycle
    /// at most this one, and is low where there is none. Takes a binary search, and then goes over
    /// at most 1,024 arrivals, however many there are.
    pub fn at(&self, cycle: u64) -> Lines
        ensures { result ≡ lines_at self.now cycle }
    {
        let items = self.items.as_slice();
        let count = count_until(items, cycle);
        let block = count / BLOCK;
        lines_after(self.levels[block], &items[block * BLOCK..count])
    }
}

// How many arrivals are not later than a cycle.
fn count_until(items: &[Arrival], cycle: u64) -> usize
    requires { IsNonDecreasingBy (λ a. a.cycle) items.now }
    ensures within { result ≤ length items.now }
    ensures not_later { filter (λ a. nat_le a.cycle cycle) items.now ≡ take result items.now }
{
    items.partition_point(|arrival| arrival.cycle <= cycle)
}

fn is_legal(items: &[Arrival]) -> bool
    ensures { IsTrue result ↔ IsLegalArrivals items.now }
{
    items.len() <= MOST_ARRIVALS
        && items.iter().all(|arrival| arrival.cycle <= LAST_CYCLE)
        && is_in_order(items)
}

fn is_in_order(items: &[Arrival]) -> bool
    ensures { IsTrue result ↔ IsNonDecreasingBy (λ a. a.cycle) items.now }
{
    for i in 1..items.len() {
        if items[i].cycle < items[i - 1].cycle {
            return false;
        }
    }
    true
}
