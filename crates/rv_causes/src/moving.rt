ghost use Rattle.std.specs.Prelude.{◌≡◌, ◌+◌, ◌++◌, ◌≤◌, [], ◌∷◌, Some, length, option_copied, vec_capacity};
ghost use Rattle.rv_causes.specs.Moving.{advance_of, advances, advances_at, after_previous, after_width, all_moved};
ghost use Rattle.rv_causes.specs.Moving.{all_new, dispatch_wait, fills_dispatch};
ghost use Rattle.rv_causes.specs.Moving.{issue_of, moved_at, new_at, room_by_drain};
ghost use Rattle.rv_causes.specs.Moving.{room_by_issue, room_by_leaving, room_for, was_dispatched};
ghost use Rattle.rv_causes.specs.Setting.{setting_of};

use crate::cause::Cause;
use crate::event::{Event, Waited, push_event_if};
use crate::issuing::{broadcast_wait, issue_wait};
use crate::leaving::Leaving;
use crate::point::Stage;
use crate::scene::Scene;
use crate::sought::{
    Sought, are_as_many, comes_after, first_of, is_at, is_just_before, one_at, one_before,
};
use crate::way::{Found, Way};
use rv_isa::Kind;
use rv_passage::Passage;
use std::marker::Model;

/// What comes of an instruction in a cycle, and what that waited for.
#[derive(Drop)]
struct Advance<'a> {
    stage: Stage,
    waited: Waited<'a>,
}

impl<'a> Model for Advance<'a> {
    ghost use Rattle.rv_causes.specs.Moving.{Move};

    ghost Value = { Move };

    ghost view = { λ advance. record { stage = advance.stage; waited = advance.waited } };
}

fn room_by_leaving<'a>(scene: &Scene<'_>, leaving: &'a Leaving, place: usize) -> Option<Waited<'a>>
    ensures { result ≡ room_by_leaving (setting_of scene.now) leaving.now place }
{
    let Some(event) = &leaving.first else {
        return None;
    };
    if place == scene.values.rob as usize {
        Some(Waited::again(event))
    } else {
        None
    }
}

fn issue_of<'a>(found: Option<Found<'a>>) -> Option<Waited<'a>>
    ensures { result ≡ issue_of found.entry }
{
    match found {
        Some(found) => Some(Waited::again(found.way().issued())),
        None => None,
    }
}

fn room_of_kind<'a>(scene: &'a Scene<'_>, ways: &'a [Way], kind: Kind) -> Option<Waited<'a>>
    ensures { result ≡ room_by_issue (setting_of scene.now) ways.now (Some kind) }
{
    let stations = scene.values.kinds.get(kind).stations as usize;
    if !are_as_many(Sought::Stationed(kind, scene.number), scene.rows, stations) {
        return None;
    }
    issue_of(first_of(Sought::IssuedIn(kind, scene.number), scene.rows, ways))
}

fn room_by_issue<'a>(
    scene: &'a Scene<'_>,
    ways: &'a [Way],
    kind: Option<Kind>,
) -> Option<Waited<'a>>
    ensures { result ≡ room_by_issue (setting_of scene.now) ways.now kind }
{
    match kind {
        Some(kind) => room_of_kind(scene, ways, kind),
        None => None,
    }
}

fn room_by_drain<'a>(scene: &'a Scene<'_>) -> Option<Waited<'a>>
    ensures { result ≡ room_by_drain (setting_of scene.now) }
{
    if scene.before.facts.stores == scene.values.store_queue as usize {
        scene.after_drain(Cause::StoreQueueFull)
    } else {
        None
    }
}

#[inline(always)]
fn room_for<'a>(
    scene: &'a Scene<'_>,
    ways: &'a [Way],
    leaving: &'a Leaving,
    place: usize,
    row: &Passage,
) -> Option<Waited<'a>>
    ensures { result ≡ room_for (setting_of scene.now) ways.now leaving.now place row.now }
{
    if let Some(event) = room_by_leaving(scene, leaving, place) {
        return Some(event);
    }
    if let Some(event) = room_by_issue(scene, ways, row.instruction.kind()) {
        return Some(event);
    }
    room_by_drain(scene)
}

fn was_dispatched(number: u64, row: Option<&Passage>) -> bool
    ensures { result ≡ was_dispatched number (option_copied row.entry) }
{
    match row {
        Some(row) => is_just_before(number, row.dispatched),
        None => false,
    }
}

// Whether the words before a place filled the dispatch of the cycle before, if the last one was dispatched then.
fn fills_dispatch(scene: &Scene<'_>, place: usize) -> bool
    ensures { result ≡ fills_dispatch (setting_of scene.now) place }
{
    let width = scene.values.dispatch_width as usize;
    if place < width {
        return false;
    }
    was_dispatched(scene.number, scene.rows.get(place - width))
}

fn after_width<'a>(scene: &Scene<'_>, place: usize, last: &Found<'a>) -> Option<Waited<'a>>
    ensures { result ≡ after_width (setting_of scene.now) place last.now }
{
    if is_just_before(scene.number, last.row().dispatched) && fills_dispatch(scene, place) {
        Some(Waited::after(last.way().dispatched(), Cause::DispatchWidth))
    } else {
        None
    }
}

// What a word waited for after the one before it, if there is one.
fn after_previous<'a>(
    scene: &Scene<'_>,
    place: usize,
    last: Option<Found<'a>>,
) -> Option<Waited<'a>>
    ensures { result ≡ after_previous (setting_of scene.now) place last.entry }
{
    let Some(last) = last else {
        return None;
    };
    if is_at(scene.number, last.row().dispatched) {
        return Some(Waited::again(last.way().dispatched()));
    }
    after_width(scene, place, &last)
}

// What a word waited for that is dispatched, after the one before it as that stands by then.
fn dispatch_wait<'a>(
    scene: &'a Scene<'_>,
    ways: &'a [Way],
    leaving: &'a Leaving,
    row: &Passage,
    place: usize,
    way: &'a Way,
) -> Waited<'a>
    ensures { result ≡ dispatch_wait (setting_of scene.now) ways.now leaving.now row.now place way.now }
{
    if comes_after(row.fetched, scene.number) {
        return Waited::after(&way.fetch, Cause::FrontEnd);
    }
    let last = one_before(place, scene.rows, ways);
    if let Some(waited) = after_previous(scene, place, last) {
        return waited;
    }
    match room_for(scene, ways, leaving, place, row) {
        Some(waited) => waited,
        None => Waited::after(&way.fetch, Cause::Other),
    }
}

// Whether something comes of an instruction in a cycle.
#[inline(always)]
fn advances(number: u64, row: &Passage) -> bool
    ensures { result ≡ advances number row.now }
{
    is_at(number, row.dispatched) || is_at(number, row.issued()) || is_at(number, row.broadcast)
}

// Whether something comes of the one at a place.
#[inline(always)]
fn advances_at(scene: &Scene<'_>, place: usize) -> bool
    ensures { result ≡ advances_at (setting_of scene.now) place }
{
    match scene.rows.get(place) {
        Some(row) => advances(scene.number, row),
        None => false,
    }
}

// What comes of an instruction in the cycle, where the events of all stand so.
fn advance_of<'a>(
    scene: &'a Scene<'_>,
    leaving: &'a Leaving,
    ways: &'a [Way],
    place: usize,
    row: &Passage,
    way: &'a Way,
) -> Option<Advance<'a>>
    ensures { result ≡ advance_of (setting_of scene.now) leaving.now ways.now place row.now way.now }
{
    if is_at(scene.number, row.dispatched) {
        return Some(Advance {
            stage: Stage::Dispatch,
            waited: dispatch_wait(scene, ways, leaving, row, place, way),
        });
    }
    if is_at(scene.number, row.issued()) {
        return Some(Advance {
            stage: Stage::Issue,
            waited: issue_wait(scene, ways, row, way),
        });
    }
    if is_at(scene.number, row.broadcast) {
        return Some(Advance {
            stage: Stage::Broadcast,
            waited: broadcast_wait(scene, ways, row, way),
        });
    }
    None
}

// The instruction at a place comes to its event of the cycle, where the events of all stand so. Appends that, if it is new.
#[inline(never)]
#[tactic(auto, using(crate::proofs::Moves::new_if))]
fn move_on(
    scene: &Scene<'_>,
    leaving: &Leaving,
    place: usize,
    ways: &mut [Way],
    events: &mut Vec<Event>,
)
    requires room { length events.old.items + 1 ≤ vec_capacity events.old }
    ensures ways { ways.new ≡ moved_at (setting_of scene.now) leaving.now place ways.old }
    ensures items { events.new.items ≡ events.old.items ++ new_at (setting_of scene.now) leaving.now place ways.old }
    ensures few { length events.new.items ≤ length events.old.items + 1 }
    ensures capacity { vec_capacity events.old ≤ vec_capacity events.new }
{
    let Some(found) = one_at(place, scene.rows, ways) else {
        return;
    };
    let row = found.row();
    let way = found.way();
    let Some(advance) = advance_of(scene, leaving, ways, place, row, way) else {
        return;
    };
    let stage = advance.stage;
    let event = scene.made_of(stage, row, &advance.waited);
    push_event_if(advance.waited.is_new(), &event, events);
    ways[place].set(stage, &event);
}

// The same of any instruction: mostly nothing comes of it.
#[inline(always)]
#[tactic(auto, using(crate::proofs::Moves::idle_moved, crate::proofs::Moves::idle_new))]
fn move_at(
    scene: &Scene<'_>,
    leaving: &Leaving,
    place: usize,
    ways: &mut [Way],
    events: &mut Vec<Event>,
)
    requires room { length events.old.items + 1 ≤ vec_capacity events.old }
    ensures ways { ways.new ≡ moved_at (setting_of scene.now) leaving.now place ways.old }
    ensures items { events.new.items ≡ events.old.items ++ new_at (setting_of scene.now) leaving.now place ways.old }
    ensures few { length events.new.items ≤ length events.old.items + 1 }
    ensures capacity { vec_capacity events.old ≤ vec_capacity events.new }
{
    if advances_at(scene, place) {
        move_on(scene, leaving, place, ways, events);
    }
}

/// Adds the events of the cycle to those of the instructions that were in flight before it, and appends the new ones.
#[inline(never)]
pub(crate) fn move_all(
    scene: &Scene<'_>,
    leaving: &Leaving,
    ways: &mut [Way],
    events: &mut Vec<Event>,
)
    requires room { length events.old.items + length ways.old ≤ vec_capacity events.old }
    ensures ways { ways.new ≡ all_moved (setting_of scene.now) leaving.now ways.old }
    ensures items { events.new.items ≡ events.old.items ++ all_new (setting_of scene.now) leaving.now ways.old }
    ensures few { length events.new.items ≤ length events.old.items + length ways.old }
    ensures capacity { vec_capacity events.old ≤ vec_capacity events.new }
{
    for place in 0..ways.len() {
        move_at(scene, leaving, place, ways, events);
    }
}
