ghost use Rattle.std.specs.Prelude.{◌≡◌, Some, true, option_and_then};
ghost use Rattle.std.specs.Option.{option_map};
ghost use Rattle.rv_passage.specs.Producers.{broadcast_among, followed_in, is_to_come, is_writer, other_than};
ghost use Rattle.rv_passage.specs.Producers.{producer_among, producer_by, producers_among, producers_for};

use crate::passage::Passage;
use rv_decode::Decoded;
use rv_front::Fetched;
use rv_isa::Reg;
use rv_rob::{Entry, Stage};

/// An instruction whose result another one waits for.
#[derive(Clone, Copy)]
pub struct Producer {
    /// The register that it writes.
    pub register: Reg,
    /// Its number in the table.
    pub number: u64,
    pub pc: u32,
    /// The cycle of its broadcast, if that came.
    pub broadcast: Option<u64>,
}

/// Whose results an instruction waits for from its dispatch on, each until its broadcast: for each of the two registers that
/// it reads the youngest older instruction in flight that writes it, where that was not broadcast before. One that both
/// registers come from stands here once.
#[derive(Clone, Copy)]
pub struct Producers {
    pub first: Option<Producer>,
    pub second: Option<Producer>,
}

impl Producer {
    ghost use Rattle.rv_passage.specs.Producers.{followed_in};

    // Follows the producer among the older instructions to the end of a later cycle.
    #[inline(always)]
    fn follow(&mut self, older: &[Passage])
        ensures { self.new ≡ followed_in older.now self.old }
    {
        if self.broadcast.is_none() {
            self.broadcast = broadcast_among(older, self.number);
        }
    }
}

// Follows a producer, if there is one.
#[inline(always)]
fn follow_in(producer: &mut Option<Producer>, older: &[Passage])
    ensures { producer.new ≡ option_map (followed_in older.now) producer.old }
{
    if let Some(producer) = producer {
        producer.follow(older);
    }
}

impl Producers {
    ghost use Rattle.rv_passage.specs.Producers.{all_followed_in};
    ghost use Rattle.rv_passage.specs.Passage.{nothing_awaited};

    /// No result is waited for.
    pub const NONE: Producers = Producers {
        first: None,
        second: None,
    };

    // None is waited for any more. Most that are not dispatched wait for none.
    #[inline(always)]
    fn clear(&mut self)
        ensures { self.new ≡ nothing_awaited }
    {
        if self.first.is_some() || self.second.is_some() {
            *self = Producers::NONE;
        }
    }

    // Follows all of them among the older instructions to the end of a later cycle.
    #[inline(always)]
    fn follow(&mut self, older: &[Passage])
        ensures { self.new ≡ all_followed_in older.now self.old }
    {
        follow_in(&mut self.first, older);
        follow_in(&mut self.second, older);
    }
}

// Whether an instruction is in flight, and writes a register.
fn is_writer(row: &Passage, register: Reg) -> bool
    ensures { result ≡ is_writer register row.now }
{
    row.is_in_flight() && row.instruction.target() == Some(register)
}

// Whether the result of an instruction is still to come.
fn is_to_come(row: &Passage) -> bool
    ensures { result ≡ is_to_come row.now }
{
    row.instruction.kind().is_some() && row.broadcast.is_none()
}

#[inline(never)]
fn broadcast_among(older: &[Passage], number: u64) -> Option<u64>
    ensures { result ≡ broadcast_among older.now number }
{
    let mut left = older;
    while let Some((row, before)) = left.split_last() {
        if row.number == number {
            return row.broadcast;
        }
        left = before;
    }
    None
}

fn producer_by(row: &Passage, register: Reg) -> Option<Producer>
    ensures { result ≡ producer_by register row.now }
{
    if is_to_come(row) {
        Some(Producer {
            register,
            number: row.number,
            pc: row.pc,
            broadcast: None,
        })
    } else {
        None
    }
}

// The youngest of the older instructions that writes a register, where its result is still to come.
fn producer_of(older: &[Passage], register: Reg) -> Option<Producer>
    ensures { result ≡ producer_among older.now (Some register) }
{
    let mut left = older;
    while let Some((row, before)) = left.split_last() {
        if is_writer(row, register) {
            return producer_by(row, register);
        }
        left = before;
    }
    None
}

fn producer_among(older: &[Passage], source: Option<Reg>) -> Option<Producer>
    ensures { result ≡ producer_among older.now source }
{
    match source {
        Some(register) => producer_of(older, register),
        None => None,
    }
}

fn other_than(first: &Option<Producer>, producer: Producer) -> Option<Producer>
    ensures { result ≡ other_than first.now producer }
{
    match first {
        Some(first) if first.number == producer.number => None,
        _ => Some(producer),
    }
}

fn second_after(first: &Option<Producer>, second: Option<Producer>) -> Option<Producer>
    ensures { result ≡ option_and_then (other_than first.now) second }
{
    match second {
        Some(producer) => other_than(first, producer),
        None => None,
    }
}

// Puts a producer, if there is one. Most wait for one at most.
#[inline(always)]
fn put_producer(to: &mut Option<Producer>, producer: Option<Producer>)
    ensures { to.new ≡ producer }
{
    match producer {
        Some(_) => *to = producer,
        None => {
            if to.is_some() {
                *to = None;
            }
        }
    }
}

impl Producers {
    // Puts those for the registers that are read.
    fn note_for(&mut self, older: &[Passage], sources: &[Option<Reg>; 2])
        ensures { self.new ≡ producers_for older.now sources.now }
    {
        let [first, second] = sources;
        put_producer(&mut self.first, producer_among(older, *first));
        let second = second_after(&self.first, producer_among(older, *second));
        put_producer(&mut self.second, second);
    }

    // Puts those of an instruction that is dispatched after the older ones.
    fn note(&mut self, older: &[Passage], instruction: &Decoded)
        ensures { self.new ≡ producers_among older.now instruction.now }
    {
        match instruction.instruction() {
            Some(_) if instruction.kind().is_some() => {
                self.note_for(older, &instruction.sources());
            }
            _ => self.clear(),
        }
    }
}

impl Passage {
    ghost use Rattle.rv_rob.specs.Entry.{issue_of};
    ghost use Rattle.rv_passage.specs.Passage.{broadcast_of, is_in_flight, of_entry, of_fetched};
    ghost use Rattle.rv_passage.specs.Producers.{standing_at};
    ghost use Rattle.rv_passage.specs.Shown.{IsStill};

    // It is dispatched after the older ones.
    #[inline(never)]
    fn note_producers(&mut self, older: &[Passage], instruction: &Decoded)
        ensures { self.new ≡ record self.old { producers = producers_among older.now instruction.now } }
    {
        self.producers.note(older, instruction);
    }

    // It has come so far.
    #[inline(always)]
    fn reach(&mut self, stage: &Stage)
        ensures { self.new ≡ record self.old { issue = issue_of stage.now; broadcast = broadcast_of stage.now } }
    {
        match stage {
            Stage::Waiting => {
                self.issue = None;
                self.broadcast = None;
            }
            Stage::Running { issue, .. } => {
                self.issue = Some(*issue);
                self.broadcast = None;
            }
            Stage::Finished { issue, cycle, .. } => {
                self.issue = *issue;
                self.broadcast = issue.map(|_| *cycle);
            }
        }
    }

    // It stands in the reorder buffer at the end of a cycle, after the older ones.
    pub(crate) fn stand_as_entry(&mut self, older: &[Passage], entry: &Entry)
        requires { is_in_flight self.old ≡ true }
        ensures { self.new ≡ standing_at older.now (of_entry entry.now) self.old }
    {
        if self.dispatched.is_some() {
            self.producers.follow(older);
        } else {
            self.note_producers(older, &entry.instruction);
        }
        self.pc = entry.pc;
        self.word = entry.word;
        self.instruction = entry.instruction;
        self.fetched = entry.fetched;
        self.dispatched = Some(entry.dispatched);
        self.reach(&entry.stage);
    }

    // The same of one that is still what it was, but for its dispatch, its issue and its broadcast.
    #[inline(always)]
    pub(crate) fn stand_on_as_entry(&mut self, older: &[Passage], entry: &Entry)
        requires { IsStill self.old (of_entry entry.now) }
        ensures { self.new ≡ standing_at older.now (of_entry entry.now) self.old }
    {
        if self.dispatched.is_none() {
            self.note_producers(older, &entry.instruction);
            self.dispatched = Some(entry.dispatched);
            self.reach(&entry.stage);
            return;
        }
        self.producers.follow(older);
        if self.broadcast.is_none() {
            self.reach(&entry.stage);
        }
    }

    // It stands in the fetch buffer at the end of a cycle, after the older ones.
    pub(crate) fn stand_as_fetched(&mut self, older: &[Passage], fetched: &Fetched)
        requires { is_in_flight self.old ≡ true }
        ensures { self.new ≡ standing_at older.now (of_fetched fetched.now) self.old }
    {
        if self.dispatched.is_some() {
            self.producers.follow(older);
        } else {
            self.producers.clear();
        }
        self.pc = fetched.pc;
        self.word = fetched.word;
        self.instruction = fetched.instruction;
        self.fetched = fetched.cycle;
        self.dispatched = None;
        self.issue = None;
        self.broadcast = None;
    }
}
