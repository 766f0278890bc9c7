ghost use Rattle.std.specs.Prelude.{◌≡◌, ◌+◌, ◌-◌, ◌<◌, ◌≤◌, ◌^◌, ◌↔◌, nat_lt, nat_le, if◌then◌else◌};
ghost use Rattle.std.specs.Prelude.{IsTrue, IfOk, List, [], ◌∷◌, ◌++◌, length, slice_get, option_copied};
ghost use Rattle.std.specs.Fn.{FnOnceReturnsAtMut};
ghost use Rattle.circular_buffer.specs.Buffer.{buffer};
ghost use Rattle.rv_rob.specs.declared.entry.Entry.{Entry};
ghost use Rattle.rv_rob.specs.Entry.{started, broadcast_in, predicting};
ghost use Rattle.rv_rob.specs.ReorderBuffer.{empty, next_number, youngest, entry_of};
ghost use Rattle.rv_rob.specs.ReorderBuffer.{pushed, changed, cut_from, head_retired};

use crate::entry::Entry;
use circular_buffer::HeapCircularBuffer;
use rv_isa::{Description, Issue, Message};
use std::alloc::{AllocError, Global};
use std::marker::Model;

/// The reorder buffer. Sequence numbers count instructions from 0: the oldest in flight has the count of retired ones,
/// and each further one the next. A number that was cut is used again.
#[derive(Drop)]
pub struct Rob {
    entries: HeapCircularBuffer<Entry>,
    retired: u64,
}

impl Model for Rob {
    ghost use Rattle.std.specs.Prelude.{◌+◌, ◌≤◌, ◌^◌, length};
    ghost use Rattle.rv_rob.specs.ReorderBuffer.{ReorderBuffer};

    ghost Value = { ReorderBuffer };

    ghost view = { λ r. record { capacity = r.entries.capacity; retired = r.retired; entries = r.entries.items } };

    ghost invariant = { λ r. r.retired + length r.entries.items ≤ 2 ^ 44 };
}

impl Rob {
    /// An empty buffer, with room for the description's `rob` entries.
    pub fn new(alloc: Global, description: &Description) -> Result<Self, AllocError>
        ensures { IfOk result (λ r. r ≡ empty description.now.rob) }
    {
        Ok(Rob {
            entries: HeapCircularBuffer::with_capacity(alloc, description.values().rob as usize)?,
            retired: 0,
        })
    }

    /// The number of instructions in flight.
    pub fn len(&self) -> usize
        ensures count { result ≡ length self.now.entries }
        ensures within { result ≤ self.now.capacity }
    {
        self.entries.len()
    }

    /// Whether nothing is in flight.
    pub fn is_empty(&self) -> bool
        ensures { IsTrue result ↔ (self.now.entries ≡ []) }
    {
        self.entries.is_empty()
    }

    /// Whether there is no room for a further entry.
    pub fn is_full(&self) -> bool
        ensures full { result ≡ nat_le self.now.capacity (length self.now.entries) }
        ensures within { length self.now.entries ≤ self.now.capacity }
    {
        self.len() >= self.entries.capacity()
    }

    /// How many instructions have retired, which is the number of the oldest in flight.
    pub fn retired(&self) -> u64
        ensures { result ≡ self.now.retired }
    {
        self.retired
    }

    /// The number that the next entry gets.
    pub fn next_number(&self) -> u64
        ensures { result ≡ next_number self.now }
    {
        self.retired + self.len() as u64
    }

    /// The oldest entry.
    pub fn head(&self) -> Option<&Entry>
        ensures { option_copied result ≡ slice_get self.now.entries 0 }
    {
        self.entries.front()
    }

    /// The youngest entry.
    pub fn youngest(&self) -> Option<&Entry>
        ensures { option_copied result ≡ youngest self.now.entries }
    {
        self.entries.back()
    }

    /// The entries, oldest first, in two runs: those of the second are younger.
    pub fn entries(&self) -> (&[Entry], &[Entry])
        ensures { result.0.now ++ result.1.now ≡ self.now.entries }
    {
        self.entries.as_slices()
    }

    /// The entry with this number.
    pub fn get(&self, seq: u64) -> Option<&Entry>
        ensures { option_copied result ≡ entry_of seq self.now.retired self.now.entries }
    {
        self.entries.get(self.place_of(seq))
    }

    /// The place of the entry with this number, or a place past them all.
    fn place_of(&self, seq: u64) -> usize
        ensures held { self.now.retired ≤ seq → result ≡ seq - self.now.retired }
        ensures retired { seq < self.now.retired → length self.now.entries ≤ result }
    {
        // Below the count of retired ones the difference wraps to a number past every place.
        seq.wrapping_sub(self.retired) as usize
    }

    /// Takes up an instruction, the youngest from now on, and answers its number.
    pub fn push(&mut self, entry: Entry) -> u64
        requires room { length self.old.entries < self.old.capacity }
        requires numbers { next_number self.old < 2 ^ 44 }
        ensures number { result ≡ next_number self.old }
        ensures entries { self.new ≡ pushed entry self.old }
    {
        let seq = self.next_number();
        append(&mut self.entries, entry);
        seq
    }

    /// Notes that the instruction with this number left its station, with the message that it will broadcast. With no
    /// such number, nothing changes.
    pub fn start(&mut self, seq: u64, issue: Issue, message: Message)
        ensures { self.new ≡ changed (started issue message) seq self.old }
    {
        self.change(seq, |entry| entry.start(issue, message));
    }

    /// Finishes the instruction with this number, whose message is broadcast in `cycle`. With no such number, or where it
    /// does not execute, nothing changes.
    pub fn finish(&mut self, seq: u64, cycle: u64)
        ensures { self.new ≡ changed (broadcast_in cycle) seq self.old }
    {
        self.change(seq, |entry| entry.finish(cycle));
    }

    /// Puts `next_pc` in the place of the predicted next pc of the instruction with this number. With no such number,
    /// nothing changes.
    pub fn correct_prediction(&mut self, seq: u64, next_pc: u32)
        ensures { self.new ≡ changed (predicting next_pc) seq self.old }
    {
        self.change(seq, |entry| entry.predict(next_pc));
    }

    /// Changes the entry with this number, if there is one.
    fn change<F: FnOnce(&mut Entry)>(&mut self, seq: u64, change: F)
        requires { F.IsAlwaysCallable change }
        ensures { (f : Entry → Entry) → ((e e' : Entry) → FnOnceReturnsAtMut F.FnOnce change e tt e' → e' ≡ f e) →
            self.new ≡ changed f seq self.old }
    {
        let place = self.place_of(seq);
        if let Some(entry) = self.entries.get_mut(place) {
            change(entry);
        }
    }

    /// Retires the oldest instruction, if there is one.
    pub fn pop_head(&mut self)
        ensures { self.new ≡ head_retired self.old }
    {
        if self.entries.pop_front().is_some() {
            self.retired += 1;
        }
    }

    /// Squashes the instructions with numbers from `from` on.
    pub fn cut(&mut self, from: u64)
        ensures { self.new ≡ cut_from from self.old }
    {
        let kept = from.saturating_sub(self.retired);
        self.entries.truncate_back(kept as usize);
    }
}

// Over any type, since at `Entry` itself the checker has no proof for `push_back`.
fn append<T: Copy>(entries: &mut HeapCircularBuffer<T>, item: T)
    requires { length entries.old.items < entries.old.capacity }
    ensures { entries.new ≡ buffer (entries.old.items ++ item ∷ []) entries.old.capacity }
{
    entries.push_back(item);
}
