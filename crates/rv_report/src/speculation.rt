ghost use Rattle.std.specs.Prelude.{◌≡◌, ◌+◌, ◌≤◌, ◌<◌, [], ◌∷◌, ◌++◌, ◌==◌, if◌then◌else◌, Some};
ghost use Rattle.std.specs.Prelude.{drop, length, map, slice_get, take, vec_capacity, IfOk};
ghost use Rattle.circular_buffer.specs.Buffer.{buffer};
ghost use Rattle.rv_hardware.specs.declared.step.Row.{Row as RowOf};
ghost use Rattle.rv_hardware.specs.declared.step.Step.TheVariants.{Retired};
ghost use Rattle.rv_passage.specs.Passage.{in_buffers};
ghost use Rattle.rv_passage.specs.Prediction.{prediction_of};
ghost use Rattle.rv_passage.specs.Table.{AreShort, table_from};
ghost use Rattle.rv_report.specs.Speculation.{CanCount, fetched_by, is_wrong, prediction_of_word, speculated_after};
ghost use Rattle.rv_report.specs.Speculation.{speculated_from, without_all, without_ended, wrong_in};

use circular_buffer::HeapCircularBuffer;
use rv_front::{Fetched, Front};
use rv_hardware::{Step, first_pc};
use rv_isa::Instr;
use rv_passage::{MOST_IN_FLIGHT, Passage, Table};
use rv_rob::Rob;
use std::alloc::{AllocError, Global};
use std::marker::Model;

/// The most words that a fetch buffer holds.
const MOST_FETCHED: usize = 32;

/// What was fetched so far ahead of the program, and predicted wrongly. No call but `begin` asks for memory.
#[derive(Drop)]
pub(crate) struct Speculation {
    // What was predicted of each instruction in flight, oldest first.
    predictions: HeapCircularBuffer<Option<u32>>,
    // What was predicted of the words that the last cycle fetched.
    latest: Vec<Option<u32>>,
    fetched: u64,
    mispredicted: u64,
}

impl Model for Speculation {
    ghost use Rattle.rv_report.specs.Speculation.{Speculated};

    ghost Value = { Speculated };

    ghost view = { λ s. record {
      predictions = s.predictions.items;
      fetched = s.fetched;
      mispredicted = s.mispredicted;
    } };

    ghost use Rattle.std.specs.Prelude.{◌≡◌, ◌≤◌, vec_capacity};

    ghost invariant = { λ s. (s.predictions.capacity ≡ 288) × (32 ≤ vec_capacity s.latest) };
}

// Over any type, since at optional pcs the checker has no proof for `push_back`.
fn append<T: Copy>(ring: &mut HeapCircularBuffer<T>, item: T)
    requires { length ring.old.items < ring.old.capacity }
    ensures { ring.new ≡ buffer (ring.old.items ++ item ∷ []) ring.old.capacity }
{
    ring.push_back(item);
}

// What was predicted of each of some instructions.
fn append_rows(predictions: &mut HeapCircularBuffer<Option<u32>>, rows: &[Passage])
    requires room { length predictions.old.items + length rows.now ≤ predictions.old.capacity }
    ensures { predictions.new ≡ buffer (predictions.old.items ++ map prediction_of rows.now) predictions.old.capacity }
{
    for row in rows {
        append(predictions, row.prediction());
    }
}

// Forgets all but so many of the oldest, and appends others.
fn replace_youngest<T: Copy>(ring: &mut HeapCircularBuffer<T>, kept: usize, others: &[T])
    requires room { kept + length others.now ≤ ring.old.capacity }
    ensures { ring.new ≡ buffer (take kept ring.old.items ++ others.now) ring.old.capacity }
{
    ring.truncate_back(kept);
    ring.fill_from_slice(others);
}

// Whether the oldest instruction, if one is in flight, was predicted to go on elsewhere than at `next`. Forgets it.
fn take_wrong(predictions: &mut HeapCircularBuffer<Option<u32>>, next: u32) -> bool
    ensures wrong { (row : RowOf) → result ≡ is_wrong (Retired row) next predictions.old.items }
    ensures left { predictions.new ≡ buffer (drop 1 predictions.old.items) predictions.old.capacity }
{
    match predictions.pop_front() {
        Some(Some(predicted)) => next != predicted,
        _ => false,
    }
}

// Forgets the instruction that a step ends, if it ends one, after which the program goes on at `next`. Whether that was
// predicted wrongly.
fn take_step(predictions: &mut HeapCircularBuffer<Option<u32>>, step: &Step, next: u32) -> bool
    ensures wrong { result ≡ is_wrong step.now next predictions.old.items }
    ensures left { predictions.new ≡ buffer (without_ended step.now predictions.old.items) predictions.old.capacity }
{
    match *step {
        Step::Retired(_) => take_wrong(predictions, next),
        Step::Trap { .. } => {
            predictions.pop_front();
            false
        }
        Step::Interrupt { .. } => false,
    }
}

// Forgets the instructions that steps end, after the last of which the program goes on at `next`. How many were predicted
// wrongly.
fn take_steps(predictions: &mut HeapCircularBuffer<Option<u32>>, steps: &[Step], next: u32) -> usize
    ensures wrong { result ≡ wrong_in steps.now next predictions.old.items }
    ensures few { result ≤ length steps.now }
    ensures left { predictions.new ≡ buffer (without_all steps.now predictions.old.items) predictions.old.capacity }
{
    match steps {
        [step, rest @ ..] => {
            let is_wrong = take_step(predictions, step, first_pc(rest, next));
            let others = take_steps(predictions, rest, next);
            if is_wrong { others + 1 } else { others }
        }
        [] => 0,
    }
}

// What was predicted of a fetched word.
fn prediction_of(word: &Fetched) -> Option<u32>
    ensures { result ≡ prediction_of_word word.now }
{
    match (*word.instruction.instruction(), word.word) {
        (Some(Instr::Jal { .. } | Instr::Jalr { .. } | Instr::Branch { .. }), Some(_)) => {
            Some(word.predicted)
        }
        _ => None,
    }
}

// Notes what was predicted of a word, if it was fetched in a cycle.
fn note_word(latest: &mut Vec<Option<u32>>, word: &Fetched, cycle: u64)
    requires room { length latest.old.items < vec_capacity latest.old }
    ensures items { latest.new.items
        ≡ latest.old.items ++ (if word.now.cycle == cycle then prediction_of_word word.now ∷ [] else []) }
    ensures capacity { vec_capacity latest.old ≤ vec_capacity latest.new }
{
    if word.cycle == cycle {
        latest.push(prediction_of(word)).unwrap();
    }
}

// The word at a place of the fetch buffer.
fn word_at(front: &Front, place: usize) -> Fetched
    requires { place < length front.now.entries }
    ensures { slice_get front.now.entries place ≡ Some result }
{
    match front.get(place) {
        Some(word) => *word,
        None => unreachable!(),
    }
}

// Notes what was predicted of each word that a cycle fetched.
fn note_fetched(latest: &mut Vec<Option<u32>>, front: &Front, cycle: u64)
    requires room { length front.now.entries ≤ vec_capacity latest.old }
    ensures items { latest.new.items ≡ map prediction_of_word (fetched_by cycle front.now) }
    ensures few { length latest.new.items ≤ length front.now.entries }
    ensures capacity { vec_capacity latest.old ≤ vec_capacity latest.new }
{
    latest.clear();
    for place in 0..front.len() {
        note_word(latest, &word_at(front, place), cycle);
    }
}

impl Speculation {
    /// Nothing but what is in flight in two buffers.
    pub(crate) fn begin(alloc: Global, rob: &Rob, front: &Front) -> Result<Speculation, AllocError>
        requires { AreShort rob.now front.now }
        ensures speculated { IfOk result (λ s. s ≡ speculated_from (table_from (in_buffers rob.now front.now)).rows) }
        ensures few { IfOk result (λ s. s.fetched ≤ 288) }
    {
        let table = Table::begin(alloc, rob, front)?;
        let rows = table.rows();
        let mut predictions = HeapCircularBuffer::with_capacity(alloc, MOST_IN_FLIGHT)?;
        append_rows(&mut predictions, rows);
        Ok(Speculation {
            predictions,
            latest: Vec::with_capacity(alloc, MOST_FETCHED)?,
            fetched: rows.len() as u64,
            mispredicted: 0,
        })
    }

    /// How many instructions were fetched, with those in flight at first.
    pub(crate) fn fetched(&self) -> u64
        ensures { result ≡ self.now.fetched }
    {
        self.fetched
    }

    /// How many branches and jumps retired after which the program did not go on as predicted.
    pub(crate) fn mispredicted(&self) -> u64
        ensures { result ≡ self.now.mispredicted }
    {
        self.mispredicted
    }

    /// Notes what a cycle did that had these steps, and led to these buffers and to a pc, that of the oldest instruction that
    /// is still to retire.
    pub(crate) fn follow(&mut self, cycle: u64, steps: &[Step], rob: &Rob, front: &Front, pc: u32)
        requires short { AreShort rob.now front.now }
        requires few { length steps.now ≤ 8 }
        requires countable { CanCount self.old }
        ensures followed { self.new ≡ speculated_after cycle steps.now rob.now front.now pc self.old }
        ensures fetched { self.new.fetched ≤ self.old.fetched + 32 }
        ensures mispredicted { self.new.mispredicted ≤ self.old.mispredicted + 8 }
    {
        self.mispredicted += take_steps(&mut self.predictions, steps, pc) as u64;
        let in_flight = rob.len() + front.len();
        note_fetched(&mut self.latest, front, cycle);
        let fetched = self.latest.len();
        replace_youngest(
            &mut self.predictions,
            in_flight - fetched,
            self.latest.as_slice(),
        );
        self.fetched += fetched as u64;
    }
}
