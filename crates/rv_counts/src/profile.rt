ghost use Rattle.std.specs.Prelude.{◌≡◌, ◌+◌, ◌≤◌, [], length, filter, IfOk, OnErr};
ghost use Rattle.rv_counts.specs.Counts.{added, once_more_at_head};
ghost use Rattle.rv_counts.specs.Following.{CanCountMore, HasRoom, with_cycle, with_head, with_passages};
ghost use Rattle.rv_counts.specs.Load.{costs_of};
ghost use Rattle.rv_counts.specs.Order.{IsInOrder, with_change};
ghost use Rattle.rv_counts.specs.Passing.{has_left};

use crate::counts::WordCounts;
use crate::loads::LoadCosts;
use rv_isa::Description;
use rv_passage::{Passage, place_of, up_to_youngest_left};
use std::alloc::{AllocError, Global};
use std::marker::Model;

/// The most passages and heads that a cycle can add: what was in flight before it, what was fetched in it, and one head.
const MOST_IN_CYCLE: usize = 577;

/// The counts of each address that was fetched in a run, in order of address.
#[derive(Drop)]
pub struct Profile {
    costs: LoadCosts,
    words: Vec<WordCounts>,
}

impl Model for Profile {
    ghost use Rattle.rv_counts.specs.Following.{Profiled};

    ghost Value = { Profiled };

    ghost use Rattle.std.specs.Prelude.{vec_capacity};

    ghost view = { λ profile. record {
      costs = profile.costs;
      words = profile.words.items;
      capacity = vec_capacity profile.words;
    } };

    ghost use Rattle.rv_counts.specs.Order.{IsInOrder};

    ghost invariant = { λ profile. IsInOrder profile.words.items };
}

impl Profile {
    /// The counts of no cycle. The description says what loads cost.
    pub fn new(alloc: Global, description: &Description) -> Profile
        ensures costs { result.costs ≡ costs_of description.now }
        ensures words { result.words ≡ [] }
    {
        Profile {
            costs: LoadCosts::new(description),
            words: Vec::new(alloc),
        }
    }

    /// The counts, in order of address.
    pub fn words(&self) -> &[WordCounts]
        ensures words { result.now ≡ self.now.words }
        ensures order { IsInOrder self.now.words }
    {
        self.words.as_slice()
    }

    /// Makes room for what a further cycle may add. The only error is out of memory, which changes no count.
    pub fn make_room(&mut self) -> Result<(), AllocError>
        ensures costs { self.new.costs ≡ self.old.costs }
        ensures words { self.new.words ≡ self.old.words }
        ensures room { IfOk result (λ done. length self.new.words + 577 ≤ self.new.capacity) }
    {
        self.words.reserve(MOST_IN_CYCLE)
    }

    // Counts a passage.
    fn add(&mut self, passage: &Passage)
        requires room { HasRoom self.old 1 }
        ensures costs { self.new.costs ≡ self.old.costs }
        ensures words { self.new.words ≡ with_change passage.now.pc (added self.old.costs passage.now) self.old.words }
        ensures capacity { self.old.capacity ≤ self.new.capacity }
    {
        let place = place_of(&mut self.words, passage.pc);
        self.words[place].add(&self.costs, passage);
    }

    // Counts a cycle that left an address at the head.
    fn add_head(&mut self, address: u32)
        requires room { HasRoom self.old 1 }
        ensures costs { self.new.costs ≡ self.old.costs }
        ensures words { self.new.words ≡ with_change address once_more_at_head self.old.words }
        ensures capacity { self.old.capacity ≤ self.new.capacity }
    {
        let place = place_of(&mut self.words, address);
        self.words[place].add_head();
    }

    fn note_head(&mut self, head: Option<u32>)
        requires room { HasRoom self.old 1 }
        ensures costs { self.new.costs ≡ self.old.costs }
        ensures words { self.new.words ≡ with_head head self.old.words }
        ensures capacity { self.old.capacity ≤ self.new.capacity }
    {
        if let Some(address) = head {
            self.add_head(address);
        }
    }

    // Counts those of some passages that left the hardware.
    fn add_left(&mut self, rows: &[Passage])
        requires room { HasRoom self.old (length rows.now) }
        ensures costs { self.new.costs ≡ self.old.costs }
        ensures words { self.new.words ≡ with_passages self.old.costs (filter has_left rows.now) self.old.words }
        ensures capacity { self.old.capacity ≤ self.new.capacity }
    {
        if let [row, rest @ ..] = rows {
            self.add_left(rest);
            if !row.is_in_flight() {
                self.add(row);
            }
        }
    }

    // Counts some passages.
    fn add_all(&mut self, rows: &[Passage])
        requires room { HasRoom self.old (length rows.now) }
        ensures costs { self.new.costs ≡ self.old.costs }
        ensures words { self.new.words ≡ with_passages self.old.costs rows.now self.old.words }
        ensures capacity { self.old.capacity ≤ self.new.capacity }
    {
        if let [row, rest @ ..] = rows {
            self.add_all(rest);
            self.add(row);
        }
    }

    /// Counts one more cycle, by the passages at its end, those that left the hardware in it among them, and the address of the
    /// instruction that it left at the head of the reorder buffer. Asks for no memory.
    pub fn follow(&mut self, rows: &[Passage], head: Option<u32>)
        requires room { HasRoom self.old (length rows.now + 1) }
        ensures costs { self.new.costs ≡ self.old.costs }
        ensures words { self.new.words ≡ with_cycle self.old.costs rows.now head self.old.words }
        ensures capacity { self.old.capacity ≤ self.new.capacity }
    {
        self.note_head(head);
        self.add_left(up_to_youngest_left(rows));
    }

    /// Counts the passages that are in flight at the end of a run. The only error is out of memory, which changes no count.
    pub fn finish(&mut self, rows: &[Passage]) -> Result<(), AllocError>
        requires countable { CanCountMore self.old.words (length rows.now) }
        ensures costs { self.new.costs ≡ self.old.costs }
        ensures words { IfOk result (λ done. self.new.words ≡ with_passages self.old.costs rows.now self.old.words) }
        ensures kept { OnErr result (self.new.words ≡ self.old.words) }
    {
        self.words.reserve(rows.len())?;
        self.add_all(rows);
        Ok(())
    }
}
