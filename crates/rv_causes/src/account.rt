ghost use Rattle.std.specs.Prelude.{◌≡◌, ℕ, ◌+◌, ◌≤◌, ◌<◌, [], length, vec_capacity, IfOk, sum};
ghost use Rattle.rv_causes.specs.Account.{AreWithin, AreWithin-prop, CanHaveMore, with_word};

use crate::cause::{CAUSES, Cause};
use crate::event::Event;
use crate::point::Reason;
use crate::word_cycles::{Words, add_cycles};
use std::alloc::{AllocError, Global};

/// How many cycles of a path each cause has, and each word of the program.
#[derive(Drop)]
pub struct Account {
    /// Its cycles.
    pub cycles: u64,
    /// Those of each cause, by its place.
    pub causes: [u64; CAUSES],
    /// Those of each word.
    pub words: Words,
    ghost adds_up: { sum causes ≡ cycles },
    ghost within: { AreWithin cycles words.words.items } by { AreWithin-prop cycles words.words.items },
}

// Counts so many cycles more of a cause at an address, if there is one.
fn add_word(words: &mut Words, reason: &Reason, cycles: u64)
    requires room { length words.old.words.items < vec_capacity words.old.words }
    requires counted { CanHaveMore cycles words.old.words.items }
    ensures words { words.new.words.items ≡ with_word reason.now.address reason.now.cause cycles words.old.words.items }
    ensures few { length words.new.words.items ≤ length words.old.words.items + 1 }
    ensures capacity { vec_capacity words.old.words ≤ vec_capacity words.new.words }
{
    if let Some(address) = reason.address {
        words.add(address, reason.cause, cycles);
    }
}

impl Account {
    ghost use Rattle.rv_causes.specs.Account.{nothing_accounted, with_event, with_path};
    ghost use Rattle.rv_causes.specs.Window.{HasRoomFor, accounted};

    /// That of no cycle.
    pub(crate) fn new(alloc: Global) -> Account
        ensures { accounted result ≡ nothing_accounted }
    {
        Account {
            cycles: 0,
            causes: [0; CAUSES],
            words: Words::new(alloc),
        }
    }

    /// Goes back to no cycle.
    pub(crate) fn clear(&mut self)
        ensures account { accounted self.new ≡ nothing_accounted }
        ensures room { (more : ℕ) → HasRoomFor more self.old → HasRoomFor more self.new }
    {
        self.cycles = 0;
        self.causes = [0; CAUSES];
        self.words.clear();
    }

    /// Makes room for so many words more. The only error is out of memory, which changes nothing that is accounted.
    pub(crate) fn reserve(&mut self, more: usize) -> Result<(), AllocError>
        ensures same { accounted self.new ≡ accounted self.old }
        ensures room { IfOk result (λ done. HasRoomFor more self.new) }
    {
        self.words.reserve(more)
    }

    /// Accounts for the cycles to an event.
    pub(crate) fn add(&mut self, event: &Event)
        requires room { HasRoomFor 1 self.old }
        ensures account { accounted self.new ≡ with_event event.now (accounted self.old) }
        ensures few { length self.new.words.words.items ≤ length self.old.words.words.items + 1 }
        ensures capacity { vec_capacity self.old.words.words ≤ vec_capacity self.new.words.words }
    {
        let cycles = event.cycle.saturating_sub(self.cycles);
        add_word(&mut self.words, &event.reason, cycles);
        self.cycles += cycles;
        add_cycles(&mut self.causes, event.reason.cause, cycles);
    }

    /// Accounts for the cycles of a path, the newest event of which is the first, and leaves none of it.
    pub(crate) fn add_path(&mut self, path: &mut Vec<Event>)
        requires room { HasRoomFor (length path.old.items) self.old }
        ensures account { accounted self.new ≡ with_path path.old.items (accounted self.old) }
        ensures room { (more : ℕ) → HasRoomFor (length path.old.items + more) self.old → HasRoomFor more self.new }
        ensures empty { path.new.items ≡ [] }
        ensures capacity { vec_capacity path.old ≤ vec_capacity path.new }
    {
        while let Some(event) = path.pop() {
            self.add(&event);
        }
    }
}
