ghost use Rattle.std.specs.Prelude.{◌≡◌, ◌+◌, ◌≤◌, ◌<◌, ◌^◌, [], length, vec_capacity, IfOk, sum};
ghost use Rattle.rv_passage.specs.ByAddress.{IsInOrder, IsInOrder-prop};
ghost use Rattle.rv_causes.specs.Account.{CanHaveMore, address_of, no_cycles, with_change, with_cycles, with_more};
ghost use Rattle.rv_causes.specs.declared.word_cycles.WordCycles.{WordCycles};

use crate::cause::{CAUSES, Cause};
use rv_passage::{Addressed, place_of, search_address};
use std::alloc::{AllocError, Global};

/// How many cycles of a path are those of a word of the program, and how many of them each cause has.
#[derive(Clone, Copy)]
pub struct WordCycles {
    pub(crate) address: u32,
    pub(crate) cycles: u64,
    pub(crate) causes: [u64; CAUSES],
}

impl Addressed for WordCycles {
    ghost address_of = { λ word. word.address };

    ghost nothing_at = { no_cycles };

    fn address(&self) -> u32 {
        self.address
    }

    fn begin(address: u32) -> WordCycles {
        WordCycles {
            address,
            cycles: 0,
            causes: [0; CAUSES],
        }
    }
}

impl WordCycles {
    // Counts so many cycles more of a cause.
    fn add(&mut self, cause: Cause, cycles: u64)
        requires counted { sum self.old.causes ≡ self.old.cycles }
        requires fits { self.old.cycles + cycles < 2 ^ 64 }
        ensures { self.new ≡ with_more cause cycles self.old }
    {
        self.cycles += cycles;
        add_cycles(&mut self.causes, cause, cycles);
    }
}

/// Words of the program, in the order of their addresses.
#[derive(Drop)]
pub struct Words {
    pub(crate) words: Vec<WordCycles>,
    ghost order: { IsInOrder address_of words.items } by { IsInOrder-prop address_of words.items },
}

/// Counts so many cycles more of a cause.
pub(crate) fn add_cycles(causes: &mut [u64; CAUSES], cause: Cause, cycles: u64)
    requires fits { sum causes.old + cycles < 2 ^ 64 }
    ensures causes { causes.new ≡ with_cycles cause cycles causes.old }
    ensures sum { sum causes.new ≡ sum causes.old + cycles }
{
    causes[cause.place()] += cycles;
}

impl Words {
    ghost use Rattle.rv_causes.specs.Account.{cycles_at};

    /// None.
    pub(crate) fn new(alloc: Global) -> Words
        ensures { result.words.items ≡ [] }
    {
        Words {
            words: Vec::new(alloc),
        }
    }

    /// Drops all.
    pub(crate) fn clear(&mut self)
        ensures words { self.new.words.items ≡ [] }
        ensures capacity { vec_capacity self.old.words ≤ vec_capacity self.new.words }
    {
        self.words.clear();
    }

    /// Makes room for so many more. The only error is out of memory, which changes no word.
    pub(crate) fn reserve(&mut self, more: usize) -> Result<(), AllocError>
        ensures same { self.new.words.items ≡ self.old.words.items }
        ensures room { IfOk result (λ done. length self.new.words.items + more ≤ vec_capacity self.new.words) }
    {
        self.words.reserve(more)
    }

    /// Counts so many cycles more of a cause at an address.
    pub(crate) fn add(&mut self, address: u32, cause: Cause, cycles: u64)
        requires room { length self.old.words.items < vec_capacity self.old.words }
        requires counted { CanHaveMore cycles self.old.words.items }
        ensures words { self.new.words.items ≡ with_change address (with_more cause cycles) self.old.words.items }
        ensures few { length self.new.words.items ≤ length self.old.words.items + 1 }
        ensures capacity { vec_capacity self.old.words ≤ vec_capacity self.new.words }
    {
        let place = place_of(&mut self.words, address);
        self.words[place].add(cause, cycles);
    }

    /// How many cycles are those of the word at an address.
    pub fn cycles_at(&self, address: u32) -> u64
        ensures { result ≡ cycles_at address self.now.words.items }
    {
        match search_address(self.words.as_slice(), address) {
            Ok(place) => self.words[place].cycles,
            Err(_) => 0,
        }
    }
}
