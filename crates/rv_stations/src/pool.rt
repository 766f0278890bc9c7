ghost use Rattle.std.specs.Prelude.{ℕ, ◌≡◌, ◌<◌, ◌≤◌, ◌↔◌, Bool, [], None, Some, length, take, nat_le};
ghost use Rattle.std.specs.Prelude.{slice_get, IsTrue, IfOk, IfSome, option_and_then, false, true};
ghost use Rattle.rv_isa.specs.Description.{Within};
ghost use Rattle.rv_isa.specs.Instruction.{is_load};
ghost use Rattle.rv_isa.specs.Numbered.{AreBelow, IsInOrder, below};
ghost use Rattle.rv_stations.specs.Waiting.{seq_of, ArePassedBy, IsOperand, is_asked};
ghost use Rattle.rv_stations.specs.Waiting.{is_ready, next_ready, ready_taken, oldest_ready};
ghost use Rattle.std.specs.Option.{option_map};

use crate::column::OperandColumn;
use crate::marks::{marked, one_of, unmarked};
use crate::places::{first_marked, first_places, marks_any, move_back};
use crate::waiting::{Taken, Verdict, Waiting};
use rv_isa::{Instr, KindValues};
use std::alloc::{AllocError, Global};
use std::marker::Model;

/// What was dispatched: an instruction and its address.
#[derive(Clone, Copy)]
pub struct Dispatched {
    pub pc: u32,
    pub instruction: Instr,
}

/// The reservation stations of one kind. An instruction lies still in its place; sequence numbers,
/// instructions and operands stand in lists of their own.
#[derive(Drop)]
pub struct StationPool {
    /// The places, first those whose instructions wait, oldest first, then the free ones.
    places: Vec<u8>,
    /// How many instructions wait.
    count: usize,
    seqs: Vec<u64>,
    dispatched: Vec<Dispatched>,
    first: OperandColumn,
    second: OperandColumn,
    /// A bit for each place, set where an instruction waits. Where one was squashed it may stay set.
    held: u64,
    /// Of the places of instructions that wait, a bit for each, set where the instruction does not load.
    others: u64,
}

impl Model for StationPool {
    ghost use Rattle.rv_stations.specs.Pool.{Pool};

    ghost Value = { Pool };

    ghost use Rattle.rv_stations.specs.PoolFields.{pool, IsSoundPool};

    ghost view = { pool };

    ghost invariant = { IsSoundPool };
}

// What stands in a place that no instruction has had.
const NOTHING: Dispatched = Dispatched {
    pc: 0,
    instruction: Instr::Fence,
};

fn is_load(instruction: Instr) -> bool
    ensures { result ≡ is_load (Some instruction) }
{
    matches!(instruction, Instr::Load { .. })
}

impl StationPool {
    ghost use Rattle.rv_stations.specs.Pool.{Searches, empty_pool, with_waiting};
    ghost use Rattle.rv_stations.specs.Pool.{woken_pool, issued, squashed, without_place};

    /// The stations that a description gives a kind, with nothing in them.
    pub fn new(alloc: Global, kind: KindValues) -> Result<Self, AllocError>
        requires { Within 1 64 kind.stations }
        ensures { IfOk result (λ pool. pool ≡ empty_pool kind) }
    {
        // The tags are compared eight at a time.
        let len = (kind.stations as usize + 7) / 8 * 8;
        Ok(StationPool {
            places: first_places(alloc, kind.stations)?,
            count: 0,
            seqs: vec![in alloc; 0; len]?,
            dispatched: vec![in alloc; NOTHING; len]?,
            first: OperandColumn::new(alloc, len)?,
            second: OperandColumn::new(alloc, len)?,
            held: 0,
            others: 0,
        })
    }

    /// Whether an instruction waits in each station.
    pub fn is_full(&self) -> bool
        ensures full { result ≡ nat_le self.now.capacity (length self.now.waiting) }
        ensures within { length self.now.waiting ≤ self.now.capacity }
    {
        self.count >= self.places.len()
    }

    /// Whether no instruction waits.
    pub fn is_empty(&self) -> bool
        ensures { IsTrue result ↔ (self.now.waiting ≡ []) }
    {
        self.count == 0
    }

    /// Whether an instruction may have its operands. Where none may, none has.
    #[inline(always)]
    pub fn may_be_ready(&self) -> bool
        ensures { result ≡ false → (test : Waiting → Bool) → oldest_ready test self.now.waiting ≡ None }
    {
        let waiting = self.first.waiting() | self.second.waiting();
        marks_any(unmarked(self.held, waiting))
    }

    /// Whether a sequence number is above all that wait.
    pub fn is_youngest(&self, seq: u64) -> bool
        ensures { IsTrue result ↔ AreBelow seq_of seq self.now.waiting }
    {
        let count = self.len();
        count == 0 || self.seq_at(count - 1) < seq
    }

    /// How many instructions wait.
    fn len(&self) -> usize
        ensures len { result ≡ length self.now.waiting }
        ensures in_order { IsInOrder seq_of self.now.waiting }
    {
        self.count
    }

    /// Takes in an instruction that is younger than all that wait.
    pub fn insert(&mut self, waiting: Waiting)
        requires room { length self.old.waiting < self.old.capacity }
        requires youngest { AreBelow seq_of waiting.seq self.old.waiting }
        requires first { IsOperand waiting.first }
        requires second { IsOperand waiting.second }
        ensures { self.new ≡ with_waiting waiting self.old }
    {
        let place = usize::from(self.places[self.count]);
        self.seqs[place] = waiting.seq;
        self.dispatched[place] = Dispatched {
            pc: waiting.pc,
            instruction: waiting.instruction,
        };
        self.first.put(place, waiting.first);
        self.second.put(place, waiting.second);
        self.held = marked(self.held, place, true);
        self.others = marked(self.others, place, !is_load(waiting.instruction));
        self.count += 1;
    }

    /// Gives each operand whose tag is a sequence number the value of its producer.
    #[inline(always)]
    pub fn wake(&mut self, seq: u64, value: u32)
        ensures { self.new ≡ woken_pool seq value self.old }
    {
        self.first.wake(seq, value);
        self.second.wake(seq, value);
    }

    /// The number of an instruction, counted from the oldest.
    fn seq_at(&self, at: usize) -> u64
        requires { at < length self.now.waiting }
        ensures { option_map seq_of (slice_get self.now.waiting at) ≡ Some result }
    {
        self.seqs[usize::from(self.places[at])]
    }

    /// The first instruction from one on that has its operands and may be the one that goes, counted from the oldest; as
    /// many as wait, where there is none. Loads may not be the one where these wait.
    #[inline(always)]
    fn next_asked(&self, from: usize, loads_wait: bool) -> usize
        ensures within { result ≤ length self.now.waiting }
        ensures later { from ≤ length self.now.waiting → from ≤ result }
        ensures asked { result < length self.now.waiting →
            option_map (is_asked loads_wait) (slice_get self.now.waiting result) ≡ Some true }
        ensures others { (at : ℕ) → from ≤ at → at < result →
            option_map (is_asked loads_wait) (slice_get self.now.waiting at) ≡ Some false }
    {
        let asked = one_of(loads_wait, self.held & self.others, self.held);
        let waiting = self.first.waiting() | self.second.waiting();
        first_marked(
            self.places.as_slice(),
            from,
            self.count,
            unmarked(asked, waiting),
        )
    }

    /// An instruction that has its operands, counted from the oldest.
    #[inline(always)]
    fn ready_at(&self, at: usize) -> Waiting
        requires there { at < length self.now.waiting }
        requires ready { option_map is_ready (slice_get self.now.waiting at) ≡ Some true }
        ensures { slice_get self.now.waiting at ≡ Some result }
    {
        let place = usize::from(self.places[at]);
        let seq = self.seqs[place];
        let dispatched = self.dispatched[place];
        let first = self.first.value_at(place);
        let second = self.second.value_at(place);
        Waiting {
            seq,
            pc: dispatched.pc,
            instruction: dispatched.instruction,
            first,
            second,
        }
    }

    /// Where the oldest instruction stands that is ready and passes a filter, if that is none of the oldest so many.
    #[inline(always)]
    fn place_of_oldest_ready<F: Fn(&Waiting) -> Verdict>(
        &self,
        passed: usize,
        filter: &F,
    ) -> Option<usize>
        requires { F.IsAlwaysCallable filter.now }
        ensures within { IfSome result (λ at. at < length self.now.waiting) }
        ensures ready { IfSome result (λ at. option_map is_ready (slice_get self.now.waiting at) ≡ Some true) }
        ensures oldest { (test : Waiting → Bool) → Searches F.Fn filter.now test passed self.now →
            oldest_ready test self.now.waiting ≡ option_and_then (slice_get self.now.waiting) result }
        ensures others { (test : Waiting → Bool) → Searches F.Fn filter.now test passed self.now →
            issued test self.now ≡ without_place result self.now }
        ensures passed { (test : Waiting → Bool) → Searches F.Fn filter.now test passed self.now →
            IfSome result (λ at. ArePassedBy test at self.now.waiting) }
        ensures in_order { IsInOrder seq_of self.now.waiting }
    {
        let end = self.len();
        let mut loads_wait = false;
        let mut at = self.next_asked(passed, false);
        while at < end {
            match filter(&self.ready_at(at)) {
                Verdict::Goes => return Some(at),
                Verdict::Waits => {}
                Verdict::LoadsWait => loads_wait = true,
            }
            at = self.next_asked(at + 1, loads_wait);
        }
        None
    }

    /// Takes out an instruction that has its operands, counted from the oldest.
    #[inline(always)]
    fn take(&mut self, at: usize) -> Waiting
        requires there { at < length self.old.waiting }
        requires ready { option_map is_ready (slice_get self.old.waiting at) ≡ Some true }
        ensures taken { slice_get self.old.waiting at ≡ Some result }
        ensures others { self.new ≡ without_place (Some at) self.old }
    {
        let taken = self.ready_at(at);
        let place = usize::from(self.places[at]);
        self.held = marked(self.held, place, false);
        move_back(&mut self.places, at, self.count);
        self.count -= 1;
        taken
    }

    /// Takes out the oldest instruction that is ready and passes a filter; none where none is and does. The search
    /// passes by the oldest so many.
    #[inline(always)]
    pub fn take_oldest_ready<F: Fn(&Waiting) -> Verdict>(
        &mut self,
        passed: usize,
        filter: F,
    ) -> Option<Taken>
        requires { F.IsAlwaysCallable filter }
        ensures oldest { (test : Waiting → Bool) → Searches F.Fn filter test passed self.old →
            ready_taken result ≡ next_ready test self.old.waiting }
        ensures others { (test : Waiting → Bool) → Searches F.Fn filter test passed self.old →
            self.new ≡ issued test self.old }
        ensures passed { (test : Waiting → Bool) → Searches F.Fn filter test passed self.old →
            IfSome result (λ taken. ArePassedBy test taken.passed self.new.waiting) }
        ensures in_order { IsInOrder seq_of self.old.waiting }
    {
        let at = self.place_of_oldest_ready(passed, &filter)?;
        let ready = self.take(at).ready()?;
        Some(Taken { ready, passed: at })
    }

    /// Takes out the instructions of a sequence number and of all above it.
    pub fn squash(&mut self, from: u64)
        ensures { self.new ≡ squashed from self.old }
    {
        self.count = self.count_below(from);
    }

    /// How many instructions have numbers below one.
    fn count_below(&self, from: u64) -> usize
        ensures within { result ≤ length self.now.waiting }
        ensures below { below seq_of from self.now.waiting ≡ take result self.now.waiting }
    {
        let mut count = self.len();
        while count > 0 && self.seq_at(count - 1) >= from {
            count -= 1;
        }
        count
    }
}
