ghost use Rattle.std.specs.Prelude.{◌≡◌, []};
ghost use Rattle.rv_sentences.specs.Drained.{entered, oldest_drained, still_waiting};

use crate::drained::Drained;
use arrayvec::ArrayVec;
use std::marker::Model;

/// The retired stores that wait for their drains, oldest first, each by its word.
#[derive(Drop)]
pub struct WaitingStores {
    words: ArrayVec<u32, 64>,
}

impl Model for WaitingStores {
    ghost use Rattle.std.specs.Prelude.{ℕ, List};

    ghost Value = { List ℕ };

    ghost view = { λ stores. stores.words.items };
}

impl WaitingStores {
    /// None.
    pub fn new() -> WaitingStores
        ensures { result ≡ [] }
    {
        WaitingStores {
            words: ArrayVec::new(),
        }
    }

    /// One more waits, after all others.
    pub fn enter(&mut self, word: u32)
        ensures { self.new ≡ entered word self.old }
    {
        if self.words.len() < 64 {
            self.words.push(word);
        }
    }

    /// The oldest drains where a drain begins, by what that costs.
    pub fn drain(&mut self, cost: Option<u64>) -> Option<Drained>
        ensures drained { result ≡ oldest_drained cost self.old }
        ensures waiting { self.new ≡ still_waiting cost self.old }
    {
        let cost = cost?;
        if self.words.is_empty() {
            return None;
        }
        let word = self.words.remove(0);
        Some(Drained { word, cost })
    }
}
