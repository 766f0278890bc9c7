ghost use Rattle.std.specs.Prelude.{◌≡◌, ◌++◌, ◌+◌, ◌≤◌, ◌<◌, List, drop, filter};
ghost use Rattle.std.specs.Prelude.{length, not, reverse, take, vec_capacity, Option};
ghost use Rattle.std.specs.List.{list_any};
ghost use Rattle.rv_causes.specs.Meeting.{IsAmong, passed, with_before};
ghost use Rattle.rv_causes.specs.Point.{is_point};
ghost use Rattle.rv_causes.specs.Walk.{AllComeTo, beyond, is_wanted, path_to};
ghost use Rattle.rv_causes.specs.declared.point.Point.{Point};

use crate::event::Event;
use crate::point::Point;

// Whether an event is the one that a walk wants.
fn is_wanted(wanted: Option<Point>, event: &Event) -> bool
    ensures { result ≡ is_wanted wanted event.now }
{
    match wanted {
        Some(point) => event.at.is(&point),
        None => false,
    }
}

/// Appends the path that leads to a point, of events of which the newest is the last. Answers what the walk wants beyond them.
pub(crate) fn walk(events: &[Event], wanted: Option<Point>, path: &mut Vec<Event>) -> Option<Point>
    requires room { length path.old.items + length events.now ≤ vec_capacity path.old }
    ensures path { path.new.items ≡ path.old.items ++ path_to (reverse events.now) wanted }
    ensures beyond { result ≡ beyond (reverse events.now) wanted }
    ensures capacity { vec_capacity path.old ≤ vec_capacity path.new }
{
    let mut wanted = wanted;
    let mut front = events.len();
    while front > 0 {
        front -= 1;
        let event = &events[front];
        if is_wanted(wanted, event) {
            path.push_reserved(*event);
            wanted = event.before;
        }
    }
    wanted
}

// Appends what an event waited for, if it waited for one.
fn push_before(before: Option<Point>, wanted: &mut Vec<Point>)
    requires room { length wanted.old.items < vec_capacity wanted.old }
    ensures items { wanted.new.items ≡ with_before before wanted.old.items }
    ensures capacity { vec_capacity wanted.old ≤ vec_capacity wanted.new }
{
    if let Some(point) = before {
        wanted.push_reserved(point);
    }
}

// Drops a point from some, however often it is among them.
fn drop_point(at: &Point, wanted: &mut Vec<Point>)
    ensures items { wanted.new.items ≡ filter (λ point. not (is_point at.now point)) wanted.old.items }
    ensures capacity { vec_capacity wanted.old ≤ vec_capacity wanted.new }
{
    wanted.retain(|point| !at.is(point));
}

// Whether a point is among some.
fn is_among(at: &Point, points: &[Point]) -> bool
    ensures { result ≡ list_any (is_point at.now) points.now }
{
    points.iter().any(|point| at.is(point))
}

// What several walks want past an event.
fn pass(event: &Event, wanted: &mut Vec<Point>)
    requires room { length wanted.old.items ≤ vec_capacity wanted.old }
    ensures items { wanted.new.items ≡ passed event.now wanted.old.items }
    ensures capacity { vec_capacity wanted.old ≤ vec_capacity wanted.new }
{
    if is_among(&event.at, wanted.as_slice()) {
        drop_point(&event.at, wanted);
        push_before(event.before, wanted);
    }
}

/// The place from which on several walks pass all events of some, of which the newest is the last, until at most one is
/// wanted. What they want then is left.
pub(crate) fn meet(events: &[Event], wanted: &mut Vec<Point>) -> usize
    ensures within { result ≤ length events.now }
    ensures met { 0 < result → length wanted.new.items ≤ 1 }
    ensures covers { (point : Option Point) → IsAmong point wanted.old.items →
        IsAmong (beyond (reverse (drop result events.now)) point) wanted.new.items }
    ensures come { (root : Option Point) → AllComeTo root (reverse events.now) wanted.old.items →
        AllComeTo root (reverse (take result events.now)) wanted.new.items }
{
    let mut front = events.len();
    while front > 0 && wanted.len() > 1 {
        front -= 1;
        pass(&events[front], wanted);
    }
    front
}
