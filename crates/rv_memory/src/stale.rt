ghost use Rattle.std.specs.Prelude.{◌≡◌, ◌*◌, ◌/◌, IsTrue, IfOk};
ghost use Rattle.std.specs.Bool.{OnTrue};
ghost use Rattle.std.specs.FinSet as set;
ghost use Rattle.rv_isa.specs.Description.{IsRamBase, IsRamSize};
ghost use Rattle.rv_memory.specs.Memory.{word_of};
ghost use Rattle.rv_memory.specs.Stale.{AreCovered, is_covered};

use std::alloc::{AllocError, Global};
use std::marker::Model;

/// The words of RAM that were stored to since the last FENCE.I, so that a fetch may not use them
/// (Unprivileged ISA 20191213, 3).
///
/// Each word has the number of the round in which it was marked last, and it is stale where that
/// is the present round. Making all words fresh begins another round, so it costs the same however
/// many words there are; only after the last round that can be counted it goes over them all.
#[derive(Drop)]
pub struct StaleMap {
    base: u32,
    round: u32,
    marked: Vec<u32>,
}

impl Model for StaleMap {
    ghost use Rattle.std.specs.Prelude.{◌≡◌, ◌*◌, ◌/◌, ◌<◌, ◌≤◌, All, length};
    ghost use Rattle.rv_isa.specs.Description.{IsRamBase, IsRamSize};
    ghost use Rattle.rv_memory.specs.Stale.{StaleWords};
    ghost use Rattle.rv_memory.specs.StaleMarks.{stale_words_code, words_of};

    ghost Value = { StaleWords };

    ghost coded = { stale_words_code };

    ghost view = { λ s. record {
      base = s.base;
      size = length s.marked.items * 4;
      words = words_of (s.base / 4) s.round s.marked.items;
    } };

    ghost invariant = { λ s. IsRamBase s.base × IsRamSize (length s.marked.items * 4) × (0 < s.round)
        × All (λ m. m ≤ s.round) s.marked.items };
}

impl StaleMap {
    /// The map of `size` bytes of RAM from address `base` on, with no word stale.
    pub fn new(alloc: Global, base: u32, size: u32) -> Result<StaleMap, AllocError>
        requires base { IsRamBase base }
        requires size { IsRamSize size }
        ensures fresh { IfOk result (λ stale. stale ≡ record { base = base; size = size; words = set.empty }) }
        ensures covered { IfOk result AreCovered }
    {
        Ok(StaleMap {
            base,
            round: 1,
            marked: vec![in alloc; 0; (size / 4) as usize]?,
        })
    }

    /// Whether an address lies in the range of the map.
    pub fn covers(&self, address: u32) -> bool
        ensures { result ≡ is_covered self.now address }
    {
        address >= self.base && ((address - self.base) as usize) < self.marked.len() * 4
    }

    /// Makes the word that holds `address` stale.
    pub fn mark(&mut self, address: u32)
        requires { IsTrue (is_covered self.old address) }
        ensures marked { self.new ≡ record self.old { words = set.insert self.old.words (word_of address) } }
        ensures covered { AreCovered self.new }
    {
        let word = ((address - self.base) / 4) as usize;
        self.marked[word] = self.round;
    }

    /// Whether the word that holds `address` is stale, which no word outside RAM is.
    pub fn is_stale(&self, address: u32) -> bool
        ensures stale { result ≡ set.contains self.now.words (word_of address) }
        ensures covered { OnTrue result (IsTrue (is_covered self.now address)) }
    {
        if address < self.base {
            return false;
        }
        let word = ((address - self.base) / 4) as usize;
        word < self.marked.len() && self.marked[word] == self.round
    }

    /// Makes every word fresh.
    pub fn clear(&mut self)
        ensures cleared { self.new ≡ record self.old { words = set.empty } }
        ensures covered { AreCovered self.new }
    {
        if self.round == u32::MAX {
            self.marked.fill(0);
            self.round = 1;
            return;
        }
        self.round += 1;
    }
}
