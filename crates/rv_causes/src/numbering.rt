ghost use Rattle.std.specs.Prelude.{◌≡◌, ◌+◌, ◌-◌, ◌≤◌, ◌<◌, ◌^◌, ◌++◌, count_by};
ghost use Rattle.std.specs.Prelude.{filter, length, map, nat_lt, vec_capacity, IfOk};
ghost use Rattle.rv_passage.specs.Passage.{is_in_flight};
ghost use Rattle.rv_causes.specs.Numbering.{numbers_in_flight, row_numbers};

use rv_passage::Passage;
use std::alloc::{AllocError, Global};

/// The most instructions of a cycle.
const MOST_IN_CYCLE: usize = 576;

/// How the picture of a window numbers instructions, by those that are in flight when the window begins.
#[derive(Drop)]
pub struct Numbering {
    // The numbers of those, oldest first.
    numbers: Vec<u64>,
    // How many were fetched until then.
    fetched: u64,
    ghost room: { 576 ≤ vec_capacity numbers },
    ghost few: { length numbers.items ≤ fetched },
}

// Appends the numbers of instructions.
fn push_numbers(rows: &[Passage], numbers: &mut Vec<u64>)
    requires room { length numbers.old.items + length rows.now ≤ vec_capacity numbers.old }
    ensures items { numbers.new.items ≡ numbers.old.items ++ row_numbers rows.now }
    ensures few { length numbers.new.items ≤ length numbers.old.items + length rows.now }
    ensures capacity { vec_capacity numbers.old ≤ vec_capacity numbers.new }
{
    if let [row, others @ ..] = rows {
        numbers.push_reserved(row.number);
        push_numbers(others, numbers);
    }
}

// Appends those of the ones that are in flight.
fn push_in_flight(rows: &[Passage], numbers: &mut Vec<u64>)
    requires room { length numbers.old.items + length rows.now ≤ vec_capacity numbers.old }
    ensures items { numbers.new.items ≡ numbers.old.items ++ numbers_in_flight rows.now }
    ensures few { length numbers.new.items ≤ length numbers.old.items + length rows.now }
    ensures capacity { vec_capacity numbers.old ≤ vec_capacity numbers.new }
{
    if let [row, others @ ..] = rows {
        if row.is_in_flight() {
            numbers.push_reserved(row.number);
        }
        push_in_flight(others, numbers);
    }
}

// How many of some numbers are lower than another one.
fn count_below(number: u64, numbers: &[u64]) -> usize
    ensures below { result ≡ count_by (λ other. nat_lt other number) numbers.now }
    ensures few { result ≤ length numbers.now }
{
    numbers.iter().filter(|other| **other < number).count()
}

impl Numbering {
    ghost use Rattle.rv_causes.specs.Numbering.{IsOneLater, number_by};

    /// That of a window which begins where a run does, with these instructions in flight, numbered from 0 on. The only
    /// error is out of memory.
    pub fn begin(alloc: Global, rows: &[Passage]) -> Result<Numbering, AllocError>
        requires few { length rows.now ≤ 576 }
        ensures numbers { IfOk result (λ numbering. numbering.numbers.items ≡ row_numbers rows.now) }
        ensures fetched { IfOk result (λ numbering. numbering.fetched ≡ length rows.now) }
    {
        let mut numbers = Vec::with_capacity(alloc, MOST_IN_CYCLE)?;
        push_numbers(rows, &mut numbers);
        Ok(Numbering {
            numbers,
            fetched: rows.len() as u64,
        })
    }

    /// One more of the cycles before a window, if so many are no more than those: the instructions that were in flight
    /// before it or fetched in it stand so at its end.
    pub fn follow(&mut self, from: u64, cycles: u64, rows: &[Passage])
        requires few { length rows.now ≤ 576 }
        requires fits { self.old.fetched + 576 < 2 ^ 64 }
        ensures followed { cycles ≤ from →
            IsOneLater rows.now self.old.numbers.items self.old.fetched self.new.numbers.items self.new.fetched }
        ensures begun { from < cycles → self.new ≡ self.old }
    {
        if cycles <= from {
            self.fetched += rows.len().saturating_sub(self.numbers.len()) as u64;
            self.numbers.clear();
            push_in_flight(rows, &mut self.numbers);
        }
    }

    /// The number that an instruction has in the picture, by that which it has in the run.
    pub fn number_of(&self, number: u64) -> u64
        ensures { result ≡ number_by self.now.numbers.items self.now.fetched number }
    {
        count_below(number, self.numbers.as_slice()) as u64 + number.saturating_sub(self.fetched)
    }
}
