ghost use Rattle.std.specs.Prelude.{◌≡◌, [], option_copied};
ghost use Rattle.rv_isa.specs.Instruction.{is_store};
ghost use Rattle.rv_decode.specs.Decodes.{instruction_of};
ghost use Rattle.rv_causes.specs.WaitingStores.{entered, oldest, still_waiting, store_in};
ghost use Rattle.rv_causes.specs.WaitingStores.{with_queue, with_queued, with_retired, with_steps};

use crate::before::is_waiting;
use arrayvec::ArrayVec;
use rv_decode::Decoded;
use rv_hardware::Step;
use rv_stores::{Store, StoreQueue};
use std::marker::Model;

// Unprivileged ISA 20191213, 24: the opcode of stores.
const STORE: u32 = 0b010_0011;

// Whether the instruction of a word is a store. A word with another opcode is not decoded: most are no stores.
fn is_store_word(word: u32) -> bool
    ensures { result ≡ is_store (instruction_of word) }
{
    if word & 0x7f != STORE {
        return false;
    }
    Decoded::of(word).is_store()
}

// The address of the store that retires in a step, if one does.
fn store_in(step: &Step) -> Option<u32>
    ensures { result ≡ store_in step.now }
{
    match step {
        Step::Retired(row) if is_store_word(row.word) => Some(row.pc),
        _ => None,
    }
}

/// The retired stores that wait for their drains, oldest first: each by its address, or by none where it retired before the run.
#[derive(Drop)]
pub(crate) struct WaitingStores {
    addresses: ArrayVec<Option<u32>, 64>,
}

impl Model for WaitingStores {
    ghost use Rattle.std.specs.Prelude.{ℕ, List, Option};

    ghost Value = { List (Option ℕ) };

    ghost view = { λ stores. stores.addresses.items };
}

impl WaitingStores {
    /// Those of a queue when a run begins.
    pub(crate) fn of(stores: &StoreQueue) -> WaitingStores
        ensures { result ≡ with_queue stores.now.stores [] }
    {
        let mut waiting = WaitingStores {
            addresses: ArrayVec::new(),
        };
        for place in 0..stores.len() {
            waiting.enter_queued(stores.get(place));
        }
        waiting
    }

    // A store of the queue waits too, if it has retired.
    fn enter_queued(&mut self, store: Option<&Store>)
        ensures { self.new ≡ with_queued (option_copied store.entry) self.old }
    {
        if is_waiting(store) {
            self.enter(None);
        }
    }

    /// The address of the oldest, which drains first.
    pub(crate) fn oldest(&self) -> Option<u32>
        ensures { result ≡ oldest self.now }
    {
        match self.addresses.as_slice() {
            [] => None,
            [address, ..] => *address,
        }
    }

    /// Those that wait on after a cycle with these steps, in which the oldest may begin to drain.
    pub(crate) fn follow(&mut self, steps: &[Step], drains: bool)
        ensures { self.new ≡ still_waiting steps.now drains self.old }
    {
        self.enter_retired(steps);
        if drains && !self.addresses.is_empty() {
            self.addresses.remove(0);
        }
    }

    // Those that retire in some steps wait too.
    fn enter_retired(&mut self, steps: &[Step])
        ensures { self.new ≡ with_steps steps.now self.old }
    {
        match steps {
            [] => {}
            [step, rest @ ..] => {
                self.enter_one(store_in(step));
                self.enter_retired(rest);
            }
        }
    }

    fn enter_one(&mut self, retired: Option<u32>)
        ensures { self.new ≡ with_retired retired self.old }
    {
        if let Some(address) = retired {
            self.enter(Some(address));
        }
    }

    // One more waits, after all others.
    fn enter(&mut self, address: Option<u32>)
        ensures { self.new ≡ entered address self.old }
    {
        if self.addresses.len() < 64 {
            self.addresses.push(address);
        }
    }
}
