ghost use Rattle.std.specs.Prelude.{◌≡◌, ◌<◌, ◌≤◌, [], ◌∷◌, ◌++◌, length, drop};
ghost use Rattle.std.specs.Prelude.{slice_get, Some, option_copied, IfOk, false};
ghost use Rattle.circular_buffer.specs.Buffer.{buffer};
ghost use Rattle.rv_front.specs.FetchBuffer.{FetchesInto, IsChain, IsFetchedAt, head_pc};
ghost use Rattle.rv_front.specs.Guide.{answers_of};
ghost use Rattle.rv_front.specs.OneWord.{FetchesOne};

use crate::decoded::DecodedWords;
use crate::fetched::{FetchStop, Fetched};
use crate::predictor::Predictor;
use circular_buffer::HeapCircularBuffer;
use rv_decode::Decoded;
use rv_isa::Description;
use rv_memory::Ram;
use std::alloc::{AllocError, Global};
use std::marker::Model;

/// The fetch buffer, oldest word first, in a ring whose capacity is fixed when it is made, and the pc to fetch next.
///
/// No call but `new` takes memory.
#[derive(Drop)]
pub struct Front {
    ring: HeapCircularBuffer<Fetched>,
    decoded: DecodedWords,
    width: u32,
    next_pc: u32,
    halted: bool,
}

impl Model for Front {
    ghost use Rattle.rv_front.specs.FetchBuffer.{FetchBuffer, IsLinked};

    ghost Value = { FetchBuffer };

    ghost view = { λ f. record {
      entries = f.ring.items;
      capacity = f.ring.capacity;
      width = f.width;
      next_pc = f.next_pc;
      halted = f.halted;
    } };

    ghost invariant = { λ f. IsLinked f.ring.items f.next_pc };
}

impl Front {
    /// An empty front that fetches from `start` on, with the buffer and the width that the description says.
    pub fn new(alloc: Global, description: &Description, start: u32) -> Result<Front, AllocError>
        ensures { IfOk result (λ front. front
            ≡ record {
              entries = [];
              capacity = description.now.fetch_buffer;
              width = description.now.fetch_width;
              next_pc = start;
              halted = false;
            }) }
    {
        let values = description.values();
        Ok(Front {
            ring: HeapCircularBuffer::with_capacity(alloc, values.fetch_buffer as usize)?,
            decoded: DecodedWords::new(alloc)?,
            width: values.fetch_width,
            next_pc: start,
            halted: false,
        })
    }

    /// Fetches words along the predicted pcs, as many as a cycle may while the buffer has room, and returns why it stopped.
    ///
    /// It stops after a prediction other than pc + 4. A pc outside RAM gives an entry without a word, for which the
    /// predictor is not asked, and halts the front until it is redirected.
    pub fn fetch(&mut self, cycle: u64, ram: &Ram, predictor: &dyn Predictor) -> FetchStop
        ensures fetched { FetchesInto (answers_of (known predictor.now)) ram.now cycle self.old self.new result }
        ensures chain { IsChain self.new }
    {
        if self.halted {
            return FetchStop::Halted;
        }
        let width = self.width;
        for _ in 0..width {
            if let Some(stop) = self.fetch_next(cycle, ram, predictor) {
                return stop;
            }
        }
        FetchStop::Width
    }

    // Fetches one word where there is room, and returns why the fetch ends with it or, where there is none, without it.
    fn fetch_next(&mut self, cycle: u64, ram: &Ram, predictor: &dyn Predictor) -> Option<FetchStop>
        ensures fetched { FetchesOne (answers_of (known predictor.now)) ram.now cycle self.old self.new result }
        ensures chain { IsChain self.new }
    {
        if self.ring.len() >= self.ring.capacity() {
            return Some(FetchStop::Room);
        }
        let fetched = fetch_word(&mut self.decoded, self.next_pc, cycle, ram, predictor);
        append(&mut self.ring, fetched);
        self.next_pc = fetched.predicted;
        self.halted = fetched.word.is_none();
        fetched.stop()
    }

    /// The oldest word of the buffer, if there is one.
    pub fn peek(&self) -> Option<&Fetched>
        ensures { option_copied result ≡ slice_get self.now.entries 0 }
    {
        self.ring.front()
    }

    /// How many words the buffer holds.
    pub fn len(&self) -> usize
        ensures count { result ≡ length self.now.entries }
        ensures within { result ≤ self.now.capacity }
    {
        self.ring.len()
    }

    /// The word at a place of the buffer, the oldest at place 0.
    pub fn get(&self, place: usize) -> Option<&Fetched>
        ensures { option_copied result ≡ slice_get self.now.entries place }
    {
        self.ring.get(place)
    }

    /// The pc to fetch next.
    pub fn next_pc(&self) -> u32
        ensures { result ≡ self.now.next_pc }
    {
        self.next_pc
    }

    /// Whether it fetches nothing until it is redirected.
    pub fn is_halted(&self) -> bool
        ensures { result ≡ self.now.halted }
    {
        self.halted
    }

    /// Takes the oldest word out of the buffer.
    pub fn take(&mut self) -> Fetched
        requires { 0 < length self.old.entries }
        ensures first { slice_get self.old.entries 0 ≡ Some result }
        ensures rest { self.new ≡ record self.old { entries = drop 1 self.old.entries } }
        // What comes next is at the pc that it predicts.
        ensures chain { head_pc self.new ≡ result.predicted }
    {
        self.ring.pop_front().unwrap()
    }

    /// Empties the buffer, and fetches from `pc` on.
    pub fn redirect(&mut self, pc: u32)
        ensures { self.new ≡ record self.old { entries = []; next_pc = pc; halted = false } }
    {
        self.ring.clear();
        self.next_pc = pc;
        self.halted = false;
    }
}

// The word at a pc, and where the predictor says that the program goes on.
fn fetch_word(
    decoded: &mut DecodedWords,
    pc: u32,
    cycle: u64,
    ram: &Ram,
    predictor: &dyn Predictor,
) -> Fetched
    ensures { IsFetchedAt (answers_of (known predictor.now)) ram.now cycle pc result }
{
    let word = ram.fetch(pc);
    let next = match word {
        Some(word) => predictor.predict(pc, word),
        None => pc.wrapping_add(4),
    };
    let instruction = match word {
        Some(word) => decoded.instruction_at(pc, word),
        None => Decoded::none(),
    };
    Fetched {
        pc,
        word,
        instruction,
        predicted: next / 4 * 4,
        cycle,
    }
}

// Over any type, since at `Fetched` itself the checker has no proof for `push_back`.
fn append<T: Copy>(ring: &mut HeapCircularBuffer<T>, item: T)
    requires { length ring.old.items < ring.old.capacity }
    ensures { ring.new ≡ buffer (ring.old.items ++ item ∷ []) ring.old.capacity }
{
    ring.push_back(item);
}
