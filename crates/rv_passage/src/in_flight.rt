ghost use Rattle.std.specs.Prelude.{◌≡◌, ◌+◌, ◌++◌, ◌≤◌, ◌<◌, [], ◌∷◌, Some, is_some, length, option_copied};
ghost use Rattle.std.specs.Prelude.{slice_get, vec_capacity};
ghost use Rattle.rv_passage.specs.Numbers.{kept_through};
ghost use Rattle.rv_passage.specs.Passage.{in_buffers};
ghost use Rattle.rv_passage.specs.Table.{AreShort, buffers_from, entry_before, next_before, word_before};
ghost use Rattle.rv_passage.specs.declared.passage.Passage.{Passage};

use crate::passage::Passage;
use crate::put::put_last;
use rv_front::{Fetched, Front};
use rv_rob::{Entry, Rob};

/// The most instructions that can be in flight: the longest reorder buffer's and the longest fetch buffer's.
pub const MOST_IN_FLIGHT: usize = 288;

// How many instructions are in flight.
pub(crate) fn count_in_flight(rob: &Rob, front: &Front) -> usize
    requires { AreShort rob.now front.now }
    ensures count { result ≡ length (in_buffers rob.now front.now) }
    ensures few { result ≤ 288 }
{
    rob.len() + front.len()
}

// The entry at a place of the reorder buffer, the oldest at place 0.
pub(crate) fn entry_at(rob: &Rob, place: usize) -> Option<&Entry>
    requires { place < length rob.now.entries }
    ensures { option_copied result ≡ slice_get rob.now.entries place }
{
    let distance = rob.len() - place;
    rob.get(rob.next_number() - distance as u64)
}

// Puts the instruction at a place among those in flight, the oldest at place 0, under a number at the end of rows that
// have room for it. It is made where it lies.
#[inline(always)]
pub(crate) fn put_present(
    rows: &mut Vec<Passage>,
    rob: &Rob,
    front: &Front,
    place: usize,
    number: u64,
)
    requires within { place < length (in_buffers rob.now front.now) }
    requires room { length rows.old.items < vec_capacity rows.old }
    ensures items { (now : Passage) → slice_get (in_buffers rob.now front.now) place ≡ Some now
        → rows.new.items ≡ rows.old.items ++ record now { number = number } ∷ [] }
    ensures len { length rows.new.items ≡ length rows.old.items + 1 }
    ensures capacity { vec_capacity rows.new ≡ vec_capacity rows.old }
{
    let dispatched = rob.len();
    if place < dispatched {
        match entry_at(rob, place) {
            Some(entry) => put_last(rows, Passage::of_entry(entry, number)),
            None => unreachable!(),
        }
    } else {
        match front.get(place - dispatched) {
            Some(word) => put_last(rows, Passage::of_fetched(word, number)),
            None => unreachable!(),
        }
    }
}

// Whether an entry is there, and was fetched before a cycle.
fn is_entry_before(entry: Option<&Entry>, cycle: u64) -> bool
    ensures { result ≡ is_some (entry_before cycle (option_copied entry.entry)) }
{
    match entry {
        Some(entry) => entry.fetched < cycle,
        None => false,
    }
}

// The same of a word in the fetch buffer.
fn is_word_before(fetched: Option<&Fetched>, cycle: u64) -> bool
    ensures { result ≡ is_some (word_before cycle (option_copied fetched.entry)) }
{
    match fetched {
        Some(fetched) => fetched.cycle < cycle,
        None => false,
    }
}

// The same of the one at a place of those in flight.
fn is_before(rob: &Rob, front: &Front, place: usize, cycle: u64) -> bool
    ensures { result ≡ is_some (next_before cycle (buffers_from place rob.now front.now)) }
{
    let dispatched = rob.len();
    if place < dispatched {
        is_entry_before(entry_at(rob, place), cycle)
    } else {
        is_word_before(front.get(place - dispatched), cycle)
    }
}

// How many of so many instructions in flight before a cycle go on through it.
pub(crate) fn count_kept(rob: &Rob, front: &Front, cycle: u64, count: usize) -> usize
    ensures { result ≡ kept_through cycle (in_buffers rob.now front.now) count }
{
    for place in 0..count {
        if !is_before(rob, front, place, cycle) {
            return place;
        }
    }
    count
}
