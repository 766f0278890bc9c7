ghost use Rattle.std.specs.Prelude.{◌≡◌, ◌+◌, ◌++◌, ◌≤◌, Some, None, drop, false, length};
ghost use Rattle.std.specs.Prelude.{option_copied, slice_get, true, vec_capacity};
ghost use Rattle.rv_causes.specs.Fetching.{fetch_event, fetch_of, fetched_by, handled, new_fetch_of, new_fetched};
ghost use Rattle.rv_causes.specs.Holding.{port_event, port_taken, taken_by};
ghost use Rattle.rv_causes.specs.Keeping.{IsSeen, before_with, setting_by};
ghost use Rattle.rv_causes.specs.Leaving.{HasAllThatLeft, is_interrupted, left_events};
ghost use Rattle.rv_causes.specs.Path.{before_next, interrupt_taken, made_in, new_beside};
ghost use Rattle.rv_causes.specs.Reading.{after_of, cycle_of};
ghost use Rattle.rv_causes.specs.Setting.{setting_of};

use crate::before::{Before, Facts, Left, PortHold, UnitHold};
use crate::cycle::{After, Cycle};
use crate::event::{Anew, Event, Waited, push_event, push_event_if, refilled_after};
use crate::fetching::{after_redirection, goes_on, handler_wait};
use crate::holding::{is_taken, port_event, taken_by};
use crate::leaving::{Leaving, interrupt_event, is_interrupted, newly_left};
use crate::moving::move_all;
use crate::point::Stage;
use crate::scene::{Scene, is_refilled};
use crate::sought::one_before;
use crate::way::Way;
use rv_hardware::Step;
use rv_passage::Passage;

/// What a cycle brings beside the events of the instructions that were in flight before it, and the holds of units.
#[derive(Clone, Copy)]
pub(crate) struct Seen {
    pub(crate) left: Option<Left>,
    /// Who takes the port. The drain of a store does, too.
    pub(crate) port: Option<PortHold>,
    pub(crate) facts: Facts,
    /// The event by which words were fetched, if some were.
    pub(crate) fetch: Option<Event>,
    /// Whether an instruction was issued or left since fetch began anew.
    pub(crate) refilled: bool,
}

impl Seen {
    /// Nothing, where the hardware shows this.
    pub(crate) fn nothing(facts: Facts) -> Seen
        ensures { result ≡ record { left = None; port = None; facts = facts; fetch = None; refilled = true } }
    {
        Seen {
            left: None,
            port: None,
            facts,
            fetch: None,
            refilled: true,
        }
    }
}

// Appends the events of those that leave.
fn push_left(leaving: &Leaving, events: &mut Vec<Event>)
    requires room { length events.old.items + 3 ≤ vec_capacity events.old }
    ensures items { events.new.items ≡ events.old.items ++ left_events leaving.now }
    ensures few { length events.new.items ≤ length events.old.items + 3 }
    ensures capacity { vec_capacity events.old ≤ vec_capacity events.new }
{
    push_event(&leaving.first, events);
    push_event(&leaving.store, events);
    push_event(&leaving.last, events);
}

// Appends the interrupt, which is rare.
#[inline(never)]
fn push_interrupt(scene: &Scene<'_>, events: &mut Vec<Event>)
    requires room { length events.old.items + 1 ≤ vec_capacity events.old }
    ensures items { events.new.items ≡ events.old.items ++ interrupt_taken (setting_of scene.now) true }
    ensures few { length events.new.items ≤ length events.old.items + 1 }
    ensures capacity { vec_capacity events.old ≤ vec_capacity events.new }
{
    push_event_if(true, &interrupt_event(scene), events);
}

// Appends it, if one was taken.
fn push_interrupt_if(interrupted: bool, scene: &Scene<'_>, events: &mut Vec<Event>)
    requires room { length events.old.items + 1 ≤ vec_capacity events.old }
    ensures items { events.new.items ≡ events.old.items ++ interrupt_taken (setting_of scene.now) interrupted }
    ensures few { length events.new.items ≤ length events.old.items + 1 }
    ensures capacity { vec_capacity events.old ≤ vec_capacity events.new }
{
    if interrupted {
        push_interrupt(scene, events);
    }
}

// Who takes the port, where it is taken. Appends the event from which it is held, if that is new.
#[inline(never)]
fn see_taken(
    scene: &Scene<'_>,
    ways: &[Way],
    leaving: &Leaving,
    facts: &Facts,
    port: &mut Option<PortHold>,
    events: &mut Vec<Event>,
)
    requires room { length events.old.items + 1 ≤ vec_capacity events.old }
    ensures port { port.new ≡ taken_by (setting_of scene.now) ways.now leaving.now facts.now }
    ensures items { events.new.items ≡ events.old.items ++ port_event port.new }
    ensures few { length events.new.items ≤ length events.old.items + 1 }
    ensures capacity { vec_capacity events.old ≤ vec_capacity events.new }
{
    *port = taken_by(scene, ways, leaving, facts);
    push_event(&port_event(port), events);
}

// The same of any cycle: mostly nobody takes it.
fn see_port(
    scene: &Scene<'_>,
    ways: &[Way],
    leaving: &Leaving,
    facts: &Facts,
    port: &mut Option<PortHold>,
    events: &mut Vec<Event>,
)
    requires room { length events.old.items + 1 ≤ vec_capacity events.old }
    ensures port { port.new ≡ port_taken (setting_of scene.now) ways.now leaving.now facts.now }
    ensures items { events.new.items ≡ events.old.items ++ port_event port.new }
    ensures few { length events.new.items ≤ length events.old.items + 1 }
    ensures capacity { vec_capacity events.old ≤ vec_capacity events.new }
{
    if is_taken(scene, facts) {
        see_taken(scene, ways, leaving, facts, port, events);
    } else {
        *port = None;
    }
}

// The event by which words were fetched of which this is the first, that waited so. Appends it, if it is new.
#[tactic(auto, using(crate::proofs::Moves::new_if))]
fn see_first(
    scene: &Scene<'_>,
    first: &Passage,
    waited: &Waited<'_>,
    fetch: &mut Option<Event>,
    events: &mut Vec<Event>,
)
    requires room { length events.old.items + 1 ≤ vec_capacity events.old }
    ensures fetch { fetch.new ≡ Some (fetch_of (setting_of scene.now) first.now waited.now) }
    ensures items { events.new.items ≡ events.old.items ++ new_fetch_of (setting_of scene.now) first.now waited.now }
    ensures capacity { vec_capacity events.old ≤ vec_capacity events.new }
{
    let event = scene.made_of(Stage::Fetch, first, waited);
    push_event_if(waited.is_new(), &event, events);
    *fetch = Some(event);
}

// The same where fetch began anew.
#[inline(never)]
fn see_anew(
    scene: &Scene<'_>,
    first: &Passage,
    waited: &Anew<'_>,
    fetch: &mut Option<Event>,
    events: &mut Vec<Event>,
)
    requires room { length events.old.items + 1 ≤ vec_capacity events.old }
    ensures fetch { fetch.new ≡ Some (fetch_of (setting_of scene.now) first.now waited.now) }
    ensures items { events.new.items ≡ events.old.items ++ new_fetch_of (setting_of scene.now) first.now waited.now }
    ensures capacity { vec_capacity events.old ≤ vec_capacity events.new }
{
    let event = scene.fetched_anew(first, waited);
    events.push_reserved(event);
    *fetch = Some(event);
}

// The same where an interrupt was taken, which is rare.
#[inline(never)]
fn see_handler(
    scene: &Scene<'_>,
    first: &Passage,
    fetch: &mut Option<Event>,
    events: &mut Vec<Event>,
)
    requires room { length events.old.items + 1 ≤ vec_capacity events.old }
    ensures fetch { fetch.new ≡ Some
        (fetch_of (setting_of scene.now) first.now (handled (setting_of scene.now) first.now)) }
    ensures items { events.new.items
        ≡ events.old.items ++ new_fetch_of (setting_of scene.now) first.now (handled (setting_of scene.now) first.now) }
    ensures capacity { vec_capacity events.old ≤ vec_capacity events.new }
{
    let interrupt = interrupt_event(scene);
    see_anew(
        scene,
        first,
        &handler_wait(&interrupt, first),
        fetch,
        events,
    );
}

// The same where none was taken.
fn see_words(
    scene: &Scene<'_>,
    ways: &[Way],
    leaving: &Leaving,
    after: &After<'_>,
    first: &Passage,
    fetch: &mut Option<Event>,
    events: &mut Vec<Event>,
)
    requires room { length events.old.items + 1 ≤ vec_capacity events.old }
    ensures fetch { fetch.new
        ≡ fetched_by (setting_of scene.now) ways.now false leaving.now (after_of after.now) (Some first.now) }
    ensures items { events.new.items ≡ events.old.items
        ++ new_fetched (setting_of scene.now) ways.now false leaving.now (after_of after.now) (Some first.now) }
    ensures capacity { vec_capacity events.old ≤ vec_capacity events.new }
{
    match after_redirection(scene, ways, leaving, after, first) {
        Some(waited) => see_anew(scene, first, &waited, fetch, events),
        None => {
            let waited = goes_on(scene, ways, one_before(ways.len(), scene.rows, ways));
            see_first(scene, first, &waited, fetch, events);
        }
    }
}

// The event by which words were fetched, if some were, of which this was the first. Appends it, if it is new.
fn see_fetched(
    scene: &Scene<'_>,
    ways: &[Way],
    interrupted: bool,
    leaving: &Leaving,
    after: &After<'_>,
    first: Option<&Passage>,
    fetch: &mut Option<Event>,
    events: &mut Vec<Event>,
)
    requires room { length events.old.items + 1 ≤ vec_capacity events.old }
    ensures fetch { fetch.new
        ≡ fetched_by (setting_of scene.now) ways.now interrupted leaving.now (after_of after.now)
        (option_copied first.entry) }
    ensures items { events.new.items ≡ events.old.items
        ++ new_fetched (setting_of scene.now) ways.now interrupted leaving.now (after_of after.now) (option_copied first.entry) }
    ensures capacity { vec_capacity events.old ≤ vec_capacity events.new }
{
    let Some(first) = first else {
        *fetch = None;
        return;
    };
    if interrupted {
        see_handler(scene, first, fetch, events);
    } else {
        see_words(scene, ways, leaving, after, first, fetch, events);
    }
}

// The first word that is fetched in the cycle.
fn first_fetched<'a>(scene: &Scene<'a>, ways: &[Way]) -> Option<&'a Passage>
    ensures { option_copied result ≡ slice_get (setting_of scene.now).rows (length ways.now) }
{
    scene.rows.get(ways.len())
}

// What a cycle brings, where the events of the instructions that were in flight before it stand as they do after it.
// Appends the new ones of the others.
#[tactic(auto, using(crate::proofs::Drains::drain_of_taken))]
fn notice(
    scene: &Scene<'_>,
    ways: &[Way],
    leaving: &Leaving,
    left: &[Passage],
    steps: &[Step],
    after: &After<'_>,
    seen: &mut Seen,
    events: &mut Vec<Event>,
)
    requires left { HasAllThatLeft (setting_of scene.now).rows left.now }
    requires room { length events.old.items + 3 ≤ vec_capacity events.old }
    ensures before { before_with scene.now.number steps.now seen.new scene.now.before.now
        ≡ before_next (setting_of scene.now) ways.now steps.now (after_of after.now) leaving.now }
    ensures fetch { seen.new.fetch
        ≡ fetch_event (setting_of scene.now) ways.now (is_interrupted steps.now) leaving.now (after_of after.now) }
    ensures items { events.new.items ≡ events.old.items
        ++ new_beside (setting_of scene.now) ways.now steps.now (after_of after.now) leaving.now }
    ensures capacity { vec_capacity events.old ≤ vec_capacity events.new }
{
    let interrupted = is_interrupted(steps);
    seen.facts = after.facts;
    seen.left = newly_left(scene, interrupted, leaving, left);
    push_interrupt_if(interrupted, scene, events);
    see_port(scene, ways, leaving, &seen.facts, &mut seen.port, events);
    let first = first_fetched(scene, ways);
    see_fetched(
        scene,
        ways,
        interrupted,
        leaving,
        after,
        first,
        &mut seen.fetch,
        events,
    );
    seen.refilled = refilled_after(scene.refilled, &seen.fetch);
}

// Adds the events of the cycle to those of the instructions that were in flight before it, appends all new ones, and
// sees what the cycle brings beside.
fn see(
    scene: &Scene<'_>,
    left: &[Passage],
    steps: &[Step],
    after: &After<'_>,
    ways: &mut [Way],
    seen: &mut Seen,
    events: &mut Vec<Event>,
)
    requires left { HasAllThatLeft (setting_of scene.now).rows left.now }
    requires room { length events.old.items + length ways.old + 6 ≤ vec_capacity events.old }
    ensures seen { IsSeen (setting_of scene.now) steps.now (after_of after.now) ways.old ways.new seen.new }
    ensures items { events.new.items
        ≡ events.old.items ++ made_in (setting_of scene.now) ways.old steps.now (after_of after.now) }
    ensures capacity { vec_capacity events.old ≤ vec_capacity events.new }
{
    let mut leaving = Leaving::NONE;
    leaving.add_rows(scene, left, ways);
    push_left(&leaving, events);
    move_all(scene, &leaving, ways, events);
    notice(scene, ways, &leaving, left, steps, after, seen, events);
}

// What stands in a cycle that is read.
fn scene_of<'a>(cycle: &Cycle<'a>, holds: &'a [UnitHold], before: &'a Before) -> Scene<'a>
    ensures { setting_of result ≡ setting_by (cycle_of cycle.now) holds.now before.now }
{
    Scene {
        number: cycle.number,
        elapsed: cycle.elapsed,
        values: cycle.values,
        rows: cycle.rows,
        holds,
        before,
        refilled: is_refilled(cycle.number, cycle.rows, before),
    }
}

/// The same of a cycle that is read, in which all that leave are among some, of the ways after those that are dropped.
pub(crate) fn see_shown(
    cycle: &Cycle<'_>,
    left: &[Passage],
    holds: &[UnitHold],
    before: &Before,
    dropped: usize,
    ways: &mut [Way],
    seen: &mut Seen,
    events: &mut Vec<Event>,
)
    requires left { HasAllThatLeft cycle.now.rows.now left.now }
    requires few { dropped ≤ length ways.old }
    requires room { length events.old.items + length (drop dropped ways.old) + 6 ≤ vec_capacity events.old }
    ensures seen { IsSeen (setting_by (cycle_of cycle.now) holds.now before.now)
        cycle.now.steps.now (after_of cycle.now.after) (drop dropped ways.old) (drop dropped ways.new) seen.new }
    ensures items { events.new.items
        ≡ events.old.items ++ made_in (setting_by (cycle_of cycle.now) holds.now before.now)
        (drop dropped ways.old) cycle.now.steps.now (after_of cycle.now.after) }
    ensures capacity { vec_capacity events.old ≤ vec_capacity events.new }
{
    let scene = scene_of(cycle, holds, before);
    let (_, kept) = ways.split_at_mut(dropped);
    see(&scene, left, cycle.steps, &cycle.after, kept, seen, events);
}
