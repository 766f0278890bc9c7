ghost use Rattle.std.specs.Prelude.{◌≡◌, ◌+◌, ◌^◌, ◌<◌, ◌≤◌, true, take, length, is_some, slice_get, slice_set};
ghost use Rattle.std.specs.Prelude.{Some, option_copied};
ghost use Rattle.std.specs.List.{list_all, position, position_or_len};
ghost use Rattle.rv_passage.specs.Passage.{in_buffers, is_in_flight, retired_by, trapped_by};
ghost use Rattle.rv_passage.specs.declared.passage.Passage.{Passage};
ghost use Rattle.rv_passage.specs.Shown.{AreStill, IsStillNext};
ghost use Rattle.rv_passage.specs.Table.{AreMovedOn, buffers_from, gone_on, left_after, moved};
ghost use Rattle.rv_passage.specs.Table.{entry_before, next_before, with_oldest, word_before};

use crate::in_flight::entry_at;
use crate::passage::Passage;
use rv_front::{Fetched, Front};
use rv_hardware::Row;
use rv_isa::Cause;
use rv_rob::{Entry, Rob};

// What rows say of the instructions that were in flight before the cycle that they are moved through.
#[derive(Clone, Copy)]
pub(crate) enum RowsAre {
    // How each stood when the cycle began.
    Current,
    // How it stood then, or at the end of an earlier cycle.
    Older,
}

// The place of the oldest instruction in flight.
fn oldest_in_flight(rows: &[Passage]) -> Option<usize>
    ensures { result ≡ position is_in_flight rows.now }
{
    rows.iter().position(|row| row.is_in_flight())
}

// How many come before the oldest in flight: all, where none is.
pub(crate) fn count_first_ended(rows: &[Passage]) -> usize
    ensures { result ≡ position_or_len is_in_flight rows.now }
{
    match oldest_in_flight(rows) {
        Some(place) => place,
        None => rows.len(),
    }
}

// Whether all are in flight.
pub(crate) fn are_in_flight(rows: &[Passage]) -> bool
    ensures { result ≡ list_all is_in_flight rows.now }
{
    rows.iter().all(|row| row.is_in_flight())
}

// The oldest in flight, if one is, retires as its row reports, so many before it, and the program goes on at `next`.
pub(crate) fn retire_oldest(rows: &mut [Passage], row: &Row, order: u64, next: u32)
    ensures { rows.new ≡ with_oldest (retired_by row.now order next) rows.old }
{
    if let Some(place) = oldest_in_flight(rows) {
        rows[place].retire(row, order, next);
    }
}

// The oldest in flight, if one is, traps.
pub(crate) fn trap_oldest(rows: &mut [Passage], cause: Cause, cycle: u64)
    ensures { rows.new ≡ with_oldest (trapped_by cause cycle) rows.old }
{
    if let Some(place) = oldest_in_flight(rows) {
        rows[place].trap(cause, cycle);
    }
}

// An instruction in flight goes on as an entry, if there is one that was fetched before the cycle, or was squashed in
// it. Answers whether it went on. Of a row that is current only what may be new is written.
#[inline(always)]
fn go_on_as_entry(
    row: &mut Passage,
    older: &[Passage],
    cycle: u64,
    entry: Option<&Entry>,
    rows_are: RowsAre,
) -> bool
    requires flies { is_in_flight row.old ≡ true }
    requires still { rows_are ≡ RowsAre.Current → IsStillNext row.old (entry_before cycle (option_copied entry)) }
    ensures gone { row.new ≡ gone_on cycle older.now (entry_before cycle (option_copied entry.entry)) row.old }
    ensures went { result ≡ is_some (entry_before cycle (option_copied entry.entry)) }
{
    match entry {
        Some(entry) if entry.fetched < cycle => {
            match rows_are {
                RowsAre::Current => row.stand_on_as_entry(older, entry),
                RowsAre::Older => row.stand_as_entry(older, entry),
            }
            true
        }
        _ => {
            row.squash(cycle);
            false
        }
    }
}

// The same as a word in the fetch buffer.
#[inline(always)]
fn go_on_as_fetched(
    row: &mut Passage,
    older: &[Passage],
    cycle: u64,
    fetched: Option<&Fetched>,
    rows_are: RowsAre,
) -> bool
    requires flies { is_in_flight row.old ≡ true }
    requires still { rows_are ≡ RowsAre.Current → IsStillNext row.old (word_before cycle (option_copied fetched)) }
    ensures gone { row.new ≡ gone_on cycle older.now (word_before cycle (option_copied fetched.entry)) row.old }
    ensures went { result ≡ is_some (word_before cycle (option_copied fetched.entry)) }
{
    match fetched {
        Some(fetched) if fetched.cycle < cycle => {
            match rows_are {
                RowsAre::Current => {}
                RowsAre::Older => row.stand_as_fetched(older, fetched),
            }
            true
        }
        _ => {
            row.squash(cycle);
            false
        }
    }
}

// The same as the one at a place of those in flight.
#[inline(always)]
fn go_on(
    row: &mut Passage,
    older: &[Passage],
    cycle: u64,
    rob: &Rob,
    front: &Front,
    next: usize,
    rows_are: RowsAre,
) -> bool
    requires flies { is_in_flight row.old ≡ true }
    requires still { rows_are ≡ RowsAre.Current
        → IsStillNext row.old (next_before cycle (buffers_from next rob.now front.now)) }
    ensures gone { row.new ≡ gone_on cycle older.now (next_before cycle (buffers_from next rob.now front.now)) row.old }
    ensures went { result ≡ is_some (next_before cycle (buffers_from next rob.now front.now)) }
{
    let dispatched = rob.len();
    if next < dispatched {
        go_on_as_entry(row, older, cycle, entry_at(rob, next), rows_are)
    } else {
        go_on_as_fetched(row, older, cycle, front.get(next - dispatched), rows_are)
    }
}

// What comes after the older ones is moved on to a cycle's end, where what is in flight from a place on is for it and
// those after it. Answers from which place on it is for those after it.
#[inline(always)]
fn move_next(
    row: &mut Passage,
    older: &[Passage],
    cycle: u64,
    rob: &Rob,
    front: &Front,
    next: usize,
    rows_are: RowsAre,
) -> usize
    requires room { next + 1 < 2 ^ 64 }
    requires still { rows_are ≡ RowsAre.Current → is_in_flight row.old ≡ true
        → IsStillNext row.old (next_before cycle (buffers_from next rob.now front.now)) }
    ensures moved { row.new ≡ moved cycle older.now (buffers_from next rob.now front.now) row.old }
    ensures left { buffers_from result rob.now front.now
        ≡ left_after cycle (buffers_from next rob.now front.now) row.old }
    ensures few { result ≤ next + 1 }
{
    if !row.is_in_flight() {
        return next;
    }
    if go_on(row, older, cycle, rob, front, next, rows_are) {
        next + 1
    } else {
        next
    }
}

// The same of the one at a place.
#[inline(always)]
fn move_at(
    rows: &mut [Passage],
    place: usize,
    cycle: u64,
    rob: &Rob,
    front: &Front,
    next: usize,
    rows_are: RowsAre,
) -> usize
    requires within { place < length rows.old }
    requires no_further { next ≤ place }
    requires still { rows_are ≡ RowsAre.Current
        → (p : Passage) → slice_get rows.old place ≡ Some p → is_in_flight p ≡ true
        → IsStillNext p (next_before cycle (buffers_from next rob.now front.now)) }
    ensures moved { (p : Passage) → slice_get rows.old place ≡ Some p
        → rows.new ≡ slice_set rows.old place
        (moved cycle (take place rows.old) (buffers_from next rob.now front.now) p) }
    ensures left { (p : Passage) → slice_get rows.old place ≡ Some p
        → buffers_from result rob.now front.now ≡ left_after cycle (buffers_from next rob.now front.now) p }
    ensures few { result ≤ next + 1 }
{
    let (older, rest) = rows.split_at_mut(place);
    move_next(&mut rest[0], older, cycle, rob, front, next, rows_are)
}

// What was in flight before a cycle goes on as it stands at the cycle's end, or was squashed in it. Answers the place
// of the first that was fetched in the cycle, among those in flight.
#[inline(always)]
pub(crate) fn move_on(
    rows: &mut [Passage],
    cycle: u64,
    rob: &Rob,
    front: &Front,
    rows_are: RowsAre,
) -> usize
    requires { rows_are ≡ RowsAre.Current → AreStill cycle rows.old (in_buffers rob.now front.now) }
    ensures { AreMovedOn cycle (in_buffers rob.now front.now) rows.old rows.new result }
{
    let mut next = 0;
    for place in 0..rows.len() {
        next = move_at(rows, place, cycle, rob, front, next, rows_are);
    }
    next
}
