ghost use Rattle.std.specs.Prelude.{◌≡◌, ◌<◌, length, slice_index, IfOk, None};
ghost use Rattle.std.specs.List.{slice_index_or};
ghost use Rattle.rv_isa.specs.Description.{Within};
ghost use Rattle.rv_front.specs.Flow.{flow_at};
ghost use Rattle.rv_front.specs.Predictors.{bimodal, counted, guide_of, learned, place_of};
ghost use Rattle.rv_front.specs.declared.predictors.DescribedPredictor.TheVariants as described;
ghost use Rattle.rv_front.specs.Tables.{untaught};

use crate::flow::Flow;
use crate::predictor::Predictor;
use std::alloc::{AllocError, Global};
use std::marker::Model;

/// Predicts a branch by a two-bit counter, and a JALR by the target that it last had.
///
/// Both tables are indexed by pc / 4, and hold no tags: instructions whose indexes are equal share an entry.
#[derive(Drop)]
pub struct Bimodal {
    counters: Vec<u8>,
    targets: Vec<Option<u32>>,
}

impl Model for Bimodal {
    ghost use Rattle.std.specs.Prelude.{◌≡◌, ◌<◌, length};
    ghost use Rattle.rv_front.specs.Tables.{Tables};

    ghost Value = { Tables };

    ghost view = { λ b. record { counters = b.counters.items; targets = b.targets.items } };

    ghost invariant = { λ b. (0 < length b.counters.items) × (length b.targets.items ≡ length b.counters.items) };
}

impl Bimodal {
    /// Tables of so many entries, in which each counter is 1 and no target is known.
    pub fn new(alloc: Global, entries: u32) -> Result<Bimodal, AllocError>
        requires { Within 1 4096 entries }
        ensures { IfOk result (λ tables. tables ≡ untaught entries) }
    {
        Ok(Bimodal {
            counters: vec![in alloc; 1; entries as usize]?,
            targets: vec![in alloc; None; entries as usize]?,
        })
    }

    /// How many places each table has.
    pub fn places(&self) -> usize
        ensures { result ≡ length self.now.counters }
    {
        self.counters.len()
    }

    /// The counter at a place, from 0 to 3.
    pub fn counter(&self, place: usize) -> u8
        requires { place < length self.now.counters }
        ensures { result ≡ slice_index self.now.counters place }
    {
        self.counters[place]
    }

    /// The last target that a JALR of a place had, if there was one.
    pub fn target(&self, place: usize) -> Option<u32>
        requires { place < length self.now.counters }
        ensures { result ≡ slice_index_or self.now.targets place None }
    {
        self.targets[place]
    }

    /// The place of a pc in both tables.
    pub fn place(&self, pc: u32) -> usize
        ensures place { result ≡ place_of self.now pc }
        ensures counter { result < length self.now.counters }
        ensures target { result < length self.now.targets }
    {
        (pc / 4) as usize % self.counters.len()
    }
}

impl Predictor for Bimodal {
    ghost known = { λ tables. guide_of (described.Bimodal tables) };

    fn predict(&self, pc: u32, word: u32) -> u32
        ensures { result ≡ bimodal self.now pc (flow_at pc word) }
    {
        let next = pc.wrapping_add(4);
        match Flow::at(pc, word) {
            Flow::Sequential => next,
            Flow::Jump { target } => target,
            Flow::Branch { target, .. } => {
                let place = self.place(pc);
                if self.counters[place] >= 2 {
                    target
                } else {
                    next
                }
            }
            Flow::Indirect => {
                let place = self.place(pc);
                self.targets[place].unwrap_or(next)
            }
        }
    }

    fn learn(&mut self, pc: u32, word: u32, next: u32)
        ensures { self.new ≡ learned self.old pc next (flow_at pc word) }
    {
        match Flow::at(pc, word) {
            Flow::Sequential | Flow::Jump { .. } => {}
            Flow::Branch { .. } => {
                let place = self.place(pc);
                let taken = next != pc.wrapping_add(4);
                self.counters[place] = moved(taken, self.counters[place]);
            }
            Flow::Indirect => {
                let place = self.place(pc);
                self.targets[place] = Some(next);
            }
        }
    }
}

// A counter after a branch.
fn moved(taken: bool, counter: u8) -> u8
    ensures { result ≡ counted taken counter }
{
    if taken {
        counter.saturating_add(1).min(3)
    } else {
        counter.saturating_sub(1)
    }
}
