ghost use Rattle.std.specs.Prelude.{◌≡◌, ◌+◌, ◌<◌, ◌≤◌, ◌↔◌, nat_le, IsTrue, IfOk};
ghost use Rattle.std.specs.Prelude.{IfSome, false, [], ◌∷◌, ◌++◌, length, take};
ghost use Rattle.rv_isa.specs.Numbered.{below, AreBelow, IsInOrder};
ghost use Rattle.rv_rename.specs.Renaming.{empty, youngest, NoneAbove, CanDefine, CanCheckpoint, is_oldest};
ghost use Rattle.rv_rename.specs.Renaming.{defined, retired, cleared, checkpointed, restored, without_checkpoint};
ghost use Rattle.rv_rename.specs.Kept.{IsTable};
ghost use Rattle.circular_buffer.specs.Buffer.{buffer};

use crate::checkpoints::{all_below, keep_up_to, remove};
use crate::producer::Producer;
use circular_buffer::HeapCircularBuffer;
use rv_isa::{Description, Reg};
use std::alloc::{AllocError, Global};
use std::marker::Model;

/// The rename map. Producers are defined in rising order of their numbers and retire oldest first.
#[derive(Drop)]
pub struct RenameMap {
    producers: HeapCircularBuffer<Producer>,
    /// The youngest producer of each register.
    table: [Option<u64>; 32],
    /// A checkpoint is kept as its number, since its producers are those up to that number.
    checkpoints: Vec<u64>,
}

impl Model for RenameMap {
    ghost use Rattle.std.specs.Prelude.{map, vec_capacity};
    ghost use Rattle.rv_rename.specs.Renaming.{Renaming};
    ghost use Rattle.rv_rename.specs.Kept.{checkpoint_of, IsKept};

    ghost Value = { Renaming };

    ghost view = { λ m. record {
      capacity = m.producers.capacity;
      producers = m.producers.items;
      checkpoints = map (checkpoint_of m.producers.items) m.checkpoints.items;
    } };

    ghost invariant = { λ m. IsKept m.producers.capacity m.producers.items m.table m.checkpoints.items
        (vec_capacity m.checkpoints) };
}

impl RenameMap {
    /// An empty map, with room for the description's `rob` producers and as many checkpoints.
    pub fn new(alloc: Global, description: &Description) -> Result<Self, AllocError>
        ensures { IfOk result (λ m. m ≡ empty description.now.rob) }
    {
        let rob = description.values().rob as usize;
        Ok(RenameMap {
            producers: HeapCircularBuffer::with_capacity(alloc, rob)?,
            table: empty_table(),
            checkpoints: Vec::with_capacity(alloc, rob)?,
        })
    }

    /// Whether there is no room for a further producer.
    pub fn is_full(&self) -> bool
        ensures full { result ≡ nat_le self.now.capacity (length self.now.producers) }
        ensures within { length self.now.producers ≤ self.now.capacity }
    {
        self.producers.len() >= self.producers.capacity()
    }

    /// The number of the youngest instruction in flight that writes the register.
    pub fn lookup(&self, reg: Reg) -> Option<u64>
        ensures youngest { result ≡ youngest reg self.now.producers }
        ensures highest { IfSome result (λ n. NoneAbove reg n self.now.producers) }
    {
        self.table[reg.index()]
    }

    /// Whether `define` may be called for the instruction `seq`.
    pub fn can_define(&self, seq: u64) -> bool
        ensures { IsTrue result ↔ CanDefine seq self.now }
    {
        !self.is_full() && self.are_producers_below(seq) && self.are_checkpoints_below(seq)
    }

    /// Takes up the instruction `seq`, which writes the register.
    pub fn define(&mut self, reg: Reg, seq: u64)
        requires { CanDefine seq self.old }
        ensures { self.new ≡ defined reg seq self.old }
    {
        append(&mut self.producers, Producer { register: reg, seq });
        let place = reg.index();
        self.table[place] = Some(seq);
    }

    fn are_producers_below(&self, seq: u64) -> bool
        ensures { IsTrue result ↔ AreBelow (λ p. p.seq) seq self.now.producers }
    {
        match self.producers.back() {
            Some(youngest) => youngest.seq < seq,
            None => true,
        }
    }

    fn are_producers_up_to(&self, seq: u64) -> bool
        ensures { IsTrue result ↔ AreBelow (λ p. p.seq) (seq + 1) self.now.producers }
    {
        match self.producers.back() {
            Some(youngest) => youngest.seq <= seq,
            None => true,
        }
    }

    fn are_checkpoints_below(&self, seq: u64) -> bool
        ensures { IsTrue result ↔ AreBelow (λ c. c.seq) seq self.now.checkpoints }
    {
        all_below(&self.checkpoints, seq)
    }

    fn has_checkpoint_room(&self) -> bool
        ensures { IsTrue result ↔ (length self.now.checkpoints < self.now.capacity) }
    {
        self.checkpoints.len() < self.producers.capacity()
    }

    /// Forgets the instruction `seq`, which writes the register, where it is the oldest producer.
    pub fn retire(&mut self, reg: Reg, seq: u64)
        ensures oldest { self.new ≡ retired reg seq self.old }
        ensures other { is_oldest reg seq self.old.producers ≡ false → self.new ≡ self.old }
    {
        if self.is_oldest(reg, seq) {
            self.producers.pop_front();
            let place = reg.index();
            if self.table[place] == Some(seq) {
                self.table[place] = None;
            }
        }
    }

    fn is_oldest(&self, reg: Reg, seq: u64) -> bool
        ensures { result ≡ is_oldest reg seq self.now.producers }
    {
        match self.producers.front() {
            Some(oldest) => seq == oldest.seq && reg == oldest.register,
            None => false,
        }
    }

    /// Forgets all producers and all checkpoints.
    pub fn clear(&mut self)
        ensures { self.new ≡ cleared self.old }
    {
        self.producers.clear();
        self.table = empty_table();
        self.checkpoints.clear();
    }

    /// Whether `checkpoint` may be called for the instruction `seq`.
    pub fn can_checkpoint(&self, seq: u64) -> bool
        ensures { IsTrue result ↔ CanCheckpoint seq self.now }
    {
        self.has_checkpoint_room() && self.are_producers_up_to(seq)
    }

    /// Notes the producers as they are, for a return to just after the instruction `seq`.
    pub fn checkpoint(&mut self, seq: u64)
        requires { CanCheckpoint seq self.old }
        ensures { self.new ≡ checkpointed seq self.old }
    {
        self.checkpoints.push_reserved(seq);
    }

    /// Goes back to the producers of the checkpoint `seq`, without those retired since, and forgets the checkpoints of
    /// higher numbers. With no such checkpoint, the producers stay.
    pub fn restore(&mut self, seq: u64)
        ensures { self.new ≡ restored seq self.old }
    {
        if self.checkpoints.contains(&seq) {
            let (table, kept) = table_up_to(&self.producers, seq);
            self.producers.truncate_back(kept);
            self.table = table;
        }
        keep_up_to(&mut self.checkpoints, seq);
    }

    /// Forgets the checkpoint `seq`, if there is one.
    pub fn drop_checkpoint(&mut self, seq: u64)
        ensures { self.new ≡ without_checkpoint seq self.old }
    {
        remove(&mut self.checkpoints, seq);
    }
}

fn append(producers: &mut HeapCircularBuffer<Producer>, producer: Producer)
    requires { length producers.old.items < producers.old.capacity }
    ensures { producers.new ≡ buffer (producers.old.items ++ producer ∷ []) producers.old.capacity }
{
    producers.push_back(producer);
}

fn empty_table() -> [Option<u64>; 32]
    ensures { IsTable result [] }
{
    [None; 32]
}

/// The table of the producers up to `seq`, and how many they are.
fn table_up_to(producers: &HeapCircularBuffer<Producer>, seq: u64) -> ([Option<u64>; 32], usize)
    requires { IsInOrder (λ p. p.seq) producers.now.items }
    ensures kept { take result.1 producers.now.items ≡ below (λ p. p.seq) (seq + 1) producers.now.items }
    ensures table { IsTable result.0 (below (λ p. p.seq) (seq + 1) producers.now.items) }
{
    let mut table = empty_table();
    for i in 0..producers.len() {
        let Some(producer) = producers.get(i) else {
            return (table, i);
        };
        if producer.seq > seq {
            return (table, i);
        }
        table[producer.register.index()] = Some(producer.seq);
    }
    (table, producers.len())
}
