ghost use Rattle.std.specs.Prelude.{◌≡◌, ◌+◌, ◌<◌, ◌≤◌, ◌++◌, length, option_copied};
ghost use Rattle.std.specs.Prelude.{replicate, take, vec_capacity, IfSome};
ghost use Rattle.std.specs.Option.{option_to_list};
ghost use Rattle.std.specs.List.{list_all};
ghost use Rattle.rv_passage.specs.Passage.{is_in_flight};
ghost use Rattle.rv_causes.specs.Keeping.{forgotten_in};
ghost use Rattle.rv_causes.specs.Leaving.{HasAllThatLeft};
ghost use Rattle.rv_causes.specs.Path.{still_in_flight, way_if, ways_by};
ghost use Rattle.rv_causes.specs.Way.{way_from};

use crate::event::Event;
use crate::way::Way;
use rv_passage::Passage;

// Appends so many, each with the same events.
fn push_all(count: usize, way: &Way, ways: &mut Vec<Way>)
    requires room { length ways.old.items + count ≤ vec_capacity ways.old }
    ensures items { ways.new.items ≡ ways.old.items ++ replicate count way.now }
    ensures capacity { vec_capacity ways.old ≤ vec_capacity ways.new }
{
    if count > 0 {
        ways.push_reserved(*way);
        push_all(count - 1, way, ways);
    }
}

// Appends those of so many words that one event fetched, made once for all.
#[inline(never)]
fn push_words(count: usize, fetch: &Event, ways: &mut Vec<Way>)
    requires room { length ways.old.items + count ≤ vec_capacity ways.old }
    ensures items { ways.new.items ≡ ways.old.items ++ replicate count (way_from fetch.now) }
    ensures capacity { vec_capacity ways.old ≤ vec_capacity ways.new }
{
    push_all(count, &Way::from(*fetch), ways);
}

/// Appends so many that begin with one event, if there is one.
pub(crate) fn push_fetched(count: usize, event: &Option<Event>, ways: &mut Vec<Way>)
    requires room { length ways.old.items + count ≤ vec_capacity ways.old }
    ensures items { ways.new.items ≡ ways.old.items ++ ways_by event.now count }
    ensures capacity { vec_capacity ways.old ≤ vec_capacity ways.new }
{
    if let Some(fetch) = event {
        push_words(count, fetch, ways);
    }
}

// The events of an instruction, where something is so.
fn way_if(is: bool, way: &Way) -> Option<&Way>
    ensures { option_to_list (option_copied result) ≡ way_if is way.now }
{
    if is { Some(way) } else { None }
}

// Appends the events of an instruction, if there is one.
fn push_way(way: Option<&Way>, out: &mut Vec<Way>)
    requires room { length out.old.items < vec_capacity out.old }
    ensures items { out.new.items ≡ out.old.items ++ option_to_list (option_copied way.entry) }
    ensures few { length out.new.items ≤ length out.old.items + 1 }
    ensures capacity { vec_capacity out.old ≤ vec_capacity out.new }
{
    if let Some(way) = way {
        out.push_reserved(*way);
    }
}

/// Appends the events of the instructions that are in flight.
#[tactic(auto, using(crate::proofs::Nothing::in_flight_nothing))]
pub(crate) fn push_in_flight(rows: &[Passage], ways: &[Way], out: &mut Vec<Way>)
    requires room { length out.old.items + length rows.now ≤ vec_capacity out.old }
    ensures items { out.new.items ≡ out.old.items ++ still_in_flight rows.now ways.now }
    ensures capacity { vec_capacity out.old ≤ vec_capacity out.new }
{
    let [row, other_rows @ ..] = rows else {
        return;
    };
    let [way, other_ways @ ..] = ways else {
        return;
    };
    push_way(way_if(row.is_in_flight(), way), out);
    push_in_flight(other_rows, other_ways, out);
}

// Whether all are in flight.
fn are_in_flight(rows: &[Passage]) -> bool
    ensures { result ≡ list_all is_in_flight rows.now }
{
    rows.iter().all(|row| row.is_in_flight())
}

/// How many left the hardware, if all of those are older than all that did not.
pub(crate) fn count_in_order(rows: &[Passage]) -> Option<usize>
    ensures count { result ≡ forgotten_in rows.now }
    ensures within { IfSome result (λ count. count ≤ length rows.now) }
{
    let [row, others @ ..] = rows else {
        return Some(0);
    };
    if row.is_in_flight() {
        return if are_in_flight(others) { Some(0) } else { None };
    }
    match count_in_order(others) {
        Some(count) => Some(1 + count),
        None => None,
    }
}

// The first so many.
fn first_so_many(count: usize, rows: &[Passage]) -> &[Passage]
    requires within { count ≤ length rows.now }
    ensures { result.now ≡ take count rows.now }
{
    &rows[..count]
}

/// Some of the instructions of a cycle, among which are all that left the hardware in it: the first so many, or all.
pub(crate) fn with_all_left(rows: &[Passage], ended: Option<usize>) -> &[Passage]
    requires ended { ended ≡ forgotten_in rows.now }
    requires within { IfSome ended (λ count. count ≤ length rows.now) }
    ensures { HasAllThatLeft rows.now result.now }
{
    match ended {
        Some(count) => first_so_many(count, rows),
        None => rows,
    }
}
