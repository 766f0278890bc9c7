ghost use Rattle.std.specs.Prelude.{◌≡◌, ◌+◌, ◌<◌, ◌^◌, IfSome};
ghost use Rattle.rv_counts.specs.Counts.{one_more};
ghost use Rattle.rv_counts.specs.Load.{is_miss};
ghost use Rattle.rv_sentences.specs.Load.{retired_load_cost};
ghost use Rattle.rv_sentences.specs.Outcome.{CanCount, is_forwarded, is_write_back, outcomes_with};
ghost use Rattle.rv_sentences.specs.WordNotes.{note_at, with_change};

use crate::loads::{is_quick, retired_load_cost};
use crate::word_notes::WordNotes;
use rv_counts::LoadCosts;
use rv_passage::Passage;

/// The loads in a word that retired, by what they cost.
#[derive(Clone, Copy)]
pub struct Outcomes {
    /// At the cost of a hit or of forwarding.
    pub hits: u64,
    /// Those of the hits at the cost of forwarding, where that is another than that of a hit.
    pub forwarded: u64,
    /// All others.
    pub misses: u64,
    /// Those of the misses that cost more than a miss alone.
    pub write_backs: u64,
}

/// One more, where something is so.
pub(crate) fn one_more(is: bool, count: u64) -> u64
    requires { count + 1 < 2 ^ 64 }
    ensures { result ≡ one_more is count }
{
    if is { count + 1 } else { count }
}

// Whether a load retired at the cost of forwarding, where that is another than that of a hit.
fn is_forwarded(costs: &LoadCosts, passage: &Passage) -> bool
    ensures { result ≡ is_forwarded costs.now (retired_load_cost passage.now) }
{
    match retired_load_cost(passage) {
        Some(cost) => cost == costs.forward && cost != costs.hit,
        None => false,
    }
}

// Whether a load retired at any other cost than that of a hit or of forwarding.
fn is_miss(costs: &LoadCosts, passage: &Passage) -> bool
    ensures { result ≡ is_miss costs.now (retired_load_cost passage.now) }
{
    match retired_load_cost(passage) {
        Some(cost) => !costs.is_quick(cost),
        None => false,
    }
}

// Whether a load retired at a greater cost than that of a miss alone.
fn is_write_back(costs: &LoadCosts, passage: &Passage) -> bool
    ensures { result ≡ is_write_back costs.now (retired_load_cost passage.now) }
{
    match retired_load_cost(passage) {
        Some(cost) => costs.is_slow(cost),
        None => false,
    }
}

impl Outcomes {
    /// Of no instruction.
    pub const NONE: Outcomes = Outcomes {
        hits: 0,
        forwarded: 0,
        misses: 0,
        write_backs: 0,
    };

    /// With one more instruction.
    pub fn with(&self, costs: &LoadCosts, passage: &Passage) -> Outcomes
        requires room { CanCount self.now }
        ensures { result ≡ outcomes_with costs.now passage.now self.now }
    {
        Outcomes {
            hits: one_more(is_quick(costs, passage), self.hits),
            forwarded: one_more(is_forwarded(costs, passage), self.forwarded),
            misses: one_more(is_miss(costs, passage), self.misses),
            write_backs: one_more(is_write_back(costs, passage), self.write_backs),
        }
    }
}

// Counts a load in a word.
fn count_load(words: &mut WordNotes<Outcomes>, costs: &LoadCosts, word: u32, passage: &Passage)
    requires room { IfSome (note_at words.old word) CanCount }
    ensures { words.new ≡ with_change (outcomes_with costs.now passage.now) words.old word }
{
    if let Some(outcomes) = words.at(word) {
        words.set(word, outcomes.with(costs, passage));
    }
}

/// Counts an instruction in a word. What is no load that retired changes nothing.
pub(crate) fn count_in(
    words: &mut WordNotes<Outcomes>,
    costs: &LoadCosts,
    word: u32,
    passage: &Passage,
)
    requires room { IfSome (note_at words.old word) CanCount }
    ensures { words.new ≡ with_change (outcomes_with costs.now passage.now) words.old word }
{
    match retired_load_cost(passage) {
        Some(_) => count_load(words, costs, word, passage),
        None => {}
    }
}
