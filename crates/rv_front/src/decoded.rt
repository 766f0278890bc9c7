ghost use Rattle.std.specs.Prelude.{◌≡◌, ◌==◌};
ghost use Rattle.rv_decode.specs.Decodes.{instruction_of};

use rv_decode::Decoded;
use std::alloc::{AllocError, Global};
use std::marker::Model;

// How many decoded words are kept.
const PLACES: usize = 256;

/// A word with the instruction that it decodes to, if it is one.
#[derive(Clone, Copy)]
pub(crate) struct DecodedWord {
    word: u32,
    instruction: Decoded,
}

// Clauses see the word alone.
impl Model for DecodedWord {
    ghost use Rattle.std.specs.Prelude.{◌≡◌, ℕ};
    ghost use Rattle.rv_decode.specs.Decodes.{instruction_of};

    ghost Value = { ℕ };

    ghost view = { λ d. d.word };

    ghost invariant = { λ d. d.instruction ≡ instruction_of d.word };

    ghost inverse = { λ word. record { word = word; instruction = instruction_of word } };
}

impl DecodedWord {
    fn of(word: u32) -> DecodedWord
        ensures { result ≡ word }
    {
        DecodedWord {
            word,
            instruction: Decoded::of(word),
        }
    }

    fn is_of(self, word: u32) -> bool
        ensures { result ≡ (self == word) }
    {
        self.word == word
    }

    fn instruction(&self) -> Decoded
        ensures { result ≡ instruction_of self.now }
    {
        self.instruction
    }
}

/// The words that were decoded last, by their addresses: a word and its instruction at the place pc / 4 modulo 256. What
/// a word decodes to never changes, so no place is ever out of date.
#[derive(Drop)]
pub(crate) struct DecodedWords {
    places: Vec<DecodedWord>,
}

impl DecodedWords {
    /// The words with each place taken by the word 0. The only error is out of memory.
    pub(crate) fn new(alloc: Global) -> Result<DecodedWords, AllocError> {
        let mut places = Vec::with_capacity(alloc, PLACES)?;
        places.resize(PLACES, DecodedWord::of(0))?;
        Ok(DecodedWords { places })
    }

    /// What the word at a pc decodes to.
    pub(crate) fn instruction_at(&mut self, pc: u32, word: u32) -> Decoded
        ensures { result ≡ instruction_of word }
    {
        let Some(place) = self.places.get_mut((pc / 4) as usize % PLACES) else {
            return Decoded::of(word);
        };
        if !place.is_of(word) {
            *place = DecodedWord::of(word);
        }
        place.instruction()
    }
}
