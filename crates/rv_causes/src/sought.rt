ghost use Rattle.std.specs.Prelude.{◌≡◌, ◌+◌, ◌==◌, count_by};
ghost use Rattle.rv_isa.specs.Instruction.{is_fence_i};
ghost use Rattle.rv_passage.specs.Result.{ready_in};
ghost use Rattle.rv_causes.specs.Lookup.{first_of, last_of, one_at, one_before};
ghost use Rattle.rv_causes.specs.Sought.{is_at, is_before, is_end, is_just_before, is_sought, uses};

use crate::way::{Found, Way};
use rv_isa::{Instr, Kind};
use rv_passage::{Ending, Passage};

/// What is looked for among the instructions of a cycle.
#[derive(Clone, Copy)]
pub(crate) enum Sought {
    Any,
    /// In flight at the end of the cycle.
    InFlight,
    /// In the reorder buffer at the end of the cycle.
    Entry,
    /// A FENCE.I in the reorder buffer at the end of the cycle.
    FenceI,
    /// Retired or trapped in the cycle.
    Ended,
    /// The one of a number.
    Number(u64),
    /// It was in a station of the kind when the cycle began.
    Stationed(Kind, u64),
    /// Issued to a unit of the kind in the cycle.
    IssuedIn(Kind, u64),
    /// Issued to one in the cycle just before.
    IssuedBefore(Kind, u64),
    /// A load that was issued in the cycle, and executes until another one.
    LoadUntil(u64, u64),
    /// Broadcast in the cycle just before.
    BroadcastBefore(u64),
    /// A store that was broadcast in the cycle just before.
    StoreBefore(u64),
}

#[inline(always)]
pub(crate) fn is_at(cycle: u64, stamp: Option<u64>) -> bool
    ensures { result ≡ is_at cycle stamp }
{
    match stamp {
        Some(stamp) => stamp == cycle,
        None => false,
    }
}

/// Whether a cycle comes just after another one.
#[inline(always)]
pub(crate) fn comes_after(earlier: u64, cycle: u64) -> bool
    ensures { result ≡ (earlier + 1 == cycle) }
{
    cycle > 0 && earlier == cycle - 1
}

/// Whether a stamp is that of the cycle just before.
#[inline(always)]
pub(crate) fn is_just_before(cycle: u64, stamp: Option<u64>) -> bool
    ensures { result ≡ is_just_before cycle stamp }
{
    match stamp {
        Some(stamp) => comes_after(stamp, cycle),
        None => false,
    }
}

#[inline(always)]
pub(crate) fn is_before(cycle: u64, stamp: Option<u64>) -> bool
    ensures { result ≡ is_before cycle stamp }
{
    match stamp {
        Some(stamp) => stamp < cycle,
        None => false,
    }
}

/// Whether the execution of an instruction is over in a cycle, and not before.
pub(crate) fn is_ready_at(cycle: u64, row: &Passage) -> bool
    ensures { result ≡ is_at cycle (ready_in row.now) }
{
    match row.ready() {
        Some(ready) => ready == u128::from(cycle),
        None => false,
    }
}

pub(crate) fn is_fence_i(instruction: &Option<Instr>) -> bool
    ensures { result ≡ is_fence_i instruction.now }
{
    matches!(instruction, Some(Instr::FenceI))
}

/// Whether an instruction retired or trapped.
#[inline(always)]
pub(crate) fn is_end(ending: Ending) -> bool
    ensures { result ≡ is_end ending }
{
    matches!(ending, Ending::Retired { .. } | Ending::Trapped { .. })
}

pub(crate) fn uses(kind: Kind, row: &Passage) -> bool
    ensures { result ≡ uses kind row.now }
{
    match row.instruction.kind() {
        Some(other) => kind == other,
        None => false,
    }
}

/// Whether an instruction is one that is looked for.
#[inline(always)]
pub(crate) fn is_sought(sought: Sought, row: &Passage) -> bool
    ensures { result ≡ is_sought sought row.now }
{
    match sought {
        Sought::Any => true,
        Sought::InFlight => row.is_in_flight(),
        Sought::Entry => row.is_in_flight() && row.dispatched.is_some(),
        Sought::FenceI => {
            row.is_in_flight()
                && row.dispatched.is_some()
                && is_fence_i(row.instruction.instruction())
        }
        Sought::Ended => is_end(row.ending),
        Sought::Number(number) => row.number == number,
        Sought::Stationed(kind, cycle) => {
            !is_before(cycle, row.issued()) && is_before(cycle, row.dispatched) && uses(kind, row)
        }
        Sought::IssuedIn(kind, cycle) => is_at(cycle, row.issued()) && uses(kind, row),
        Sought::IssuedBefore(kind, cycle) => is_just_before(cycle, row.issued()) && uses(kind, row),
        Sought::LoadUntil(cycle, end) => {
            is_at(cycle, row.issued()) && row.instruction.is_load() && is_ready_at(end, row)
        }
        Sought::BroadcastBefore(cycle) => is_just_before(cycle, row.broadcast),
        Sought::StoreBefore(cycle) => {
            is_just_before(cycle, row.broadcast) && row.instruction.is_store()
        }
    }
}

/// How many instructions are looked for.
#[inline(always)]
pub(crate) fn count(sought: Sought, rows: &[Passage]) -> usize
    ensures { result ≡ count_by (is_sought sought) rows.now }
{
    let mut found = 0;
    for row in rows {
        if is_sought(sought, row) {
            found += 1;
        }
    }
    found
}

/// Whether so many instructions are looked for: mostly there are fewer in all.
#[inline(always)]
#[tactic(auto, using(crate::proofs::Lookups::too_few))]
pub(crate) fn are_as_many(sought: Sought, rows: &[Passage], places: usize) -> bool
    ensures { result ≡ (count_by (is_sought sought) rows.now == places) }
{
    rows.len() >= places && count(sought, rows) == places
}

/// The first instruction that is looked for, of those with their events.
#[inline(always)]
#[tactic(auto, using(crate::proofs::Lookups::first_here, crate::proofs::Lookups::first_none, crate::proofs::Nothing::first_of_nothing))]
pub(crate) fn first_of<'a>(
    sought: Sought,
    rows: &'a [Passage],
    ways: &'a [Way],
) -> Option<Found<'a>>
    ensures { result ≡ first_of sought rows.now ways.now }
{
    for place in 0..ways.len() {
        let Some(row) = rows.get(place) else {
            return None;
        };
        let Some(way) = ways.get(place) else {
            return None;
        };
        if is_sought(sought, row) {
            return Some(Found::new(row, way));
        }
    }
    None
}

/// The one at a place.
#[inline(always)]
pub(crate) fn one_at<'a>(place: usize, rows: &'a [Passage], ways: &'a [Way]) -> Option<Found<'a>>
    ensures { result ≡ one_at place rows.now ways.now }
{
    match (rows.get(place), ways.get(place)) {
        (Some(row), Some(way)) => Some(Found::new(row, way)),
        _ => None,
    }
}

/// The one before a place.
pub(crate) fn one_before<'a>(
    place: usize,
    rows: &'a [Passage],
    ways: &'a [Way],
) -> Option<Found<'a>>
    ensures { result ≡ one_before place rows.now ways.now }
{
    if place == 0 {
        return None;
    }
    one_at(place - 1, rows, ways)
}

/// The last one that is looked for.
#[tactic(auto, using(crate::proofs::Nothing::last_of_nothing))]
pub(crate) fn last_of<'a>(sought: Sought, rows: &'a [Passage], ways: &'a [Way]) -> Option<Found<'a>>
    ensures { result ≡ last_of sought rows.now ways.now }
{
    let [row, other_rows @ ..] = rows else {
        return None;
    };
    let [way, other_ways @ ..] = ways else {
        return None;
    };
    match last_of(sought, other_rows, other_ways) {
        Some(found) => Some(found),
        None if is_sought(sought, row) => Some(Found::new(row, way)),
        None => None,
    }
}
