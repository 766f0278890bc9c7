ghost use Rattle.std.specs.Prelude.{◌≡◌, [], IfOk};
ghost use Rattle.rv_counts.specs.declared.loads.LoadCosts.{LoadCosts};
ghost use Rattle.rv_sentences.specs.Drained.{CanCountStore, hit_at, miss_at, store_counts};
ghost use Rattle.rv_sentences.specs.Drained.{stores_at, with_drained, write_back_at};

use crate::drained::Drained;
use crate::outcomes::Outcomes;
use crate::word_notes::{WordNotes, count_in, count_one};
use rv_counts::LoadCosts;
use rv_isa::Description;
use std::alloc::{AllocError, Global};

/// The drains of the stores in each word of RAM, by what they cost.
#[derive(Drop)]
pub struct StoreCounts {
    /// At the cost of a hit.
    pub hits: WordNotes<u64>,
    /// All others.
    pub misses: WordNotes<u64>,
    /// Those that cost more than a miss alone.
    pub write_backs: WordNotes<u64>,
}

fn hit_at(costs: &LoadCosts, drained: Option<Drained>) -> Option<u32>
    ensures { result ≡ hit_at costs.now drained }
{
    match drained {
        Some(drained) if drained.cost == u64::from(costs.hit) => Some(drained.word),
        _ => None,
    }
}

fn miss_at(costs: &LoadCosts, drained: Option<Drained>) -> Option<u32>
    ensures { result ≡ miss_at costs.now drained }
{
    match drained {
        Some(drained) if drained.cost != u64::from(costs.hit) => Some(drained.word),
        _ => None,
    }
}

fn write_back_at(costs: &LoadCosts, drained: Option<Drained>) -> Option<u32>
    ensures { result ≡ write_back_at costs.now drained }
{
    match drained {
        Some(drained) if costs.clean_miss < drained.cost => Some(drained.word),
        _ => None,
    }
}

impl StoreCounts {
    /// Of no drain. The only error is out of memory.
    pub fn new(alloc: Global, description: &Description) -> Result<StoreCounts, AllocError>
        ensures { IfOk result (λ counts. (costs : LoadCosts) → counts ≡ store_counts description.now costs []) }
    {
        Ok(StoreCounts {
            hits: WordNotes::new(alloc, description, 0)?,
            misses: WordNotes::new(alloc, description, 0)?,
            write_backs: WordNotes::new(alloc, description, 0)?,
        })
    }

    /// Counts a drain, if it is one.
    pub fn add(&mut self, costs: &LoadCosts, drained: Option<Drained>)
        requires room { CanCountStore self.old }
        ensures { self.new ≡ with_drained costs.now drained self.old }
    {
        count_one(&mut self.hits, hit_at(costs, drained));
        count_one(&mut self.misses, miss_at(costs, drained));
        count_one(&mut self.write_backs, write_back_at(costs, drained));
    }

    /// The drains of the stores in a word.
    pub fn at(&self, word: u32) -> Outcomes
        ensures { result ≡ stores_at self.now word }
    {
        Outcomes {
            hits: count_in(&self.hits, word),
            forwarded: 0,
            misses: count_in(&self.misses, word),
            write_backs: count_in(&self.write_backs, word),
        }
    }
}
