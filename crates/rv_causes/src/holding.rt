ghost use Rattle.std.specs.Prelude.{◌≡◌, ◌+◌, ◌<◌, ◌^◌, ◌≤◌, ◌++◌, None, if◌then◌else◌};
ghost use Rattle.std.specs.Prelude.{filter, is_some, length, vec_capacity};
ghost use Rattle.std.specs.Option.{option_or, option_to_list};
ghost use Rattle.std.specs.List.{list_any};
ghost use Rattle.rv_isa.specs.Instruction.{kind_of_word};
ghost use Rattle.rv_causes.specs.Holding.{at_its_commit, drain_event, drain_kept, drain_of};
ghost use Rattle.rv_causes.specs.Holding.{drain_wait, goes_beyond, hold_of, hold_of_kind};
ghost use Rattle.rv_causes.specs.Holding.{begins_hold, is_begun, is_held, is_taken, lines_hold};
ghost use Rattle.rv_causes.specs.Holding.{load_hold, new_holds, port_event, port_kept, taken_by};
ghost use Rattle.rv_causes.specs.Setting.{setting_of};

use crate::before::{DrainHold, Facts, Holder, PortHold, UnitHold};
use crate::cause::Cause;
use crate::event::{Event, Waited};
use crate::leaving::{Leaving, lines_event};
use crate::point::{Point, Stage};
use crate::scene::{Scene, last_left};
use crate::sought::{Sought, first_of, is_at};
use crate::way::{Found, Way};
use rv_hardware::is_new_drain;
use rv_isa::{Issue, Kind, Values};
use rv_passage::Passage;

/// Whether the port was taken in the cycle.
pub(crate) fn is_taken(scene: &Scene<'_>, facts: &Facts) -> bool
    ensures { result ≡ is_taken (setting_of scene.now) facts.now }
{
    scene.number < facts.port_free && facts.port_free != scene.before.facts.port_free
}

// Whether a drain is under way after the cycle that was not before.
fn is_begun(scene: &Scene<'_>, facts: &Facts) -> bool
    ensures { result ≡ is_begun (setting_of scene.now) facts.now }
{
    is_new_drain(scene.before.facts.drain_end, facts.drain_end)
}

fn at_its_commit<'a>(scene: &Scene<'_>, leaving: &'a Leaving) -> Option<Waited<'a>>
    ensures { result ≡ at_its_commit (setting_of scene.now) leaving.now }
{
    if scene.before.facts.is_store_waiting {
        return None;
    }
    match &leaving.store {
        Some(event) => Some(Waited::again(event)),
        None => None,
    }
}

fn drain_wait<'a>(scene: &'a Scene<'_>, leaving: &'a Leaving) -> Waited<'a>
    ensures { result ≡ drain_wait (setting_of scene.now) leaving.now }
{
    if let Some(waited) = at_its_commit(scene, leaving) {
        return waited;
    }
    if let Some(waited) = scene.after_port() {
        return waited;
    }
    Waited::after(last_left(&scene.before.left), Cause::Other)
}

// The event by which a store begins to drain, which is its retirement, or that of the oldest that waited.
fn drain_event(scene: &Scene<'_>, leaving: &Leaving) -> Event
    ensures { result ≡ drain_event (setting_of scene.now) leaving.now }
{
    let at = Point {
        stage: Stage::Drain,
        number: scene.elapsed,
    };
    let address = scene.before.waiting.oldest();
    scene.made(at, address, &drain_wait(scene, leaving))
}

fn load_hold(until: u64, load: Option<Found<'_>>) -> Option<PortHold>
    ensures { result ≡ load_hold until load.entry }
{
    match load {
        Some(load) => Some(PortHold {
            until,
            event: *load.way().issued(),
            holder: Holder::Load,
            number: load.row().number,
        }),
        None => None,
    }
}

fn lines_hold(
    scene: &Scene<'_>,
    leaving: &Leaving,
    until: u64,
    head: Option<Found<'_>>,
) -> Option<PortHold>
    ensures { result ≡ lines_hold (setting_of scene.now) leaving.now until head.entry }
{
    match head {
        Some(head) => Some(PortHold {
            until,
            event: lines_event(scene, leaving, head.row(), head.way()),
            holder: Holder::Lines,
            number: head.row().number,
        }),
        None => None,
    }
}

/// Who takes the port in the cycle, where it is taken.
pub(crate) fn taken_by(
    scene: &Scene<'_>,
    ways: &[Way],
    leaving: &Leaving,
    facts: &Facts,
) -> Option<PortHold>
    ensures { result ≡ taken_by (setting_of scene.now) ways.now leaving.now facts.now }
{
    let until = facts.port_free;
    if is_begun(scene, facts) {
        return Some(PortHold {
            until,
            event: drain_event(scene, leaving),
            holder: Holder::Drain,
            number: 0,
        });
    }
    let load = first_of(Sought::LoadUntil(scene.number, until), scene.rows, ways);
    match load_hold(until, load) {
        Some(hold) => Some(hold),
        None => lines_hold(
            scene,
            leaving,
            until,
            first_of(Sought::FenceI, scene.rows, ways),
        ),
    }
}

// Whether a hold goes on after a cycle.
fn goes_beyond(number: u64, hold: &UnitHold) -> bool
    ensures { result ≡ goes_beyond number hold.now }
{
    number < hold.until
}

// Appends the hold of a unit that an instruction that is issued begins, if it is not pipelined.
#[inline(never)]
fn push_hold(values: &Values, row: &Passage, way: &Way, issue: Issue, holds: &mut Vec<UnitHold>)
    requires cycles { issue.cycle < 2 ^ 40 }
    requires room { length holds.old.items < vec_capacity holds.old }
    ensures items { holds.new.items
        ≡ holds.old.items ++ hold_of_kind values.now row.now way.now issue (kind_of_word row.now.instruction) }
    ensures few { length holds.new.items ≤ length holds.old.items + 1 }
    ensures capacity { vec_capacity holds.old ≤ vec_capacity holds.new }
{
    let Some(kind) = row.instruction.kind() else {
        return;
    };
    if !values.kinds.get(kind).pipelined {
        let hold = UnitHold {
            kind,
            until: issue.cycle + u64::from(issue.cost),
            number: row.number,
            event: *way.issued(),
        };
        holds.push_reserved(hold);
    }
}

// Appends the hold of a unit that begins in a cycle with an instruction, if one does.
#[inline(always)]
#[tactic(auto, unfolding(crate::specs::Holding::hold_of))]
fn push_begun(number: u64, values: &Values, row: &Passage, way: &Way, holds: &mut Vec<UnitHold>)
    requires cycles { number < 2 ^ 40 }
    requires room { length holds.old.items < vec_capacity holds.old }
    ensures items { holds.new.items ≡ holds.old.items ++ hold_of number values.now row.now way.now row.now.issue }
    ensures few { length holds.new.items ≤ length holds.old.items + 1 }
    ensures capacity { vec_capacity holds.old ≤ vec_capacity holds.new }
{
    if let Some(issue) = row.issue
        && issue.cycle == number
    {
        push_hold(values, row, way, issue, holds);
    }
}

/// Forgets the holds of units that end with a cycle or before.
pub(crate) fn drop_ended(number: u64, holds: &mut Vec<UnitHold>)
    ensures items { holds.new.items ≡ filter (goes_beyond number) holds.old.items }
    ensures few { length holds.new.items ≤ length holds.old.items }
    ensures capacity { vec_capacity holds.old ≤ vec_capacity holds.new }
{
    holds.retain(|hold| goes_beyond(number, hold));
}

// Appends the holds of units that begin in a cycle with some instructions.
#[tactic(auto, using(crate::proofs::Nothing::new_holds_nothing))]
fn push_all(number: u64, values: &Values, rows: &[Passage], ways: &[Way], holds: &mut Vec<UnitHold>)
    requires cycles { number < 2 ^ 40 }
    requires room { length holds.old.items + length rows.now ≤ vec_capacity holds.old }
    ensures items { holds.new.items ≡ holds.old.items ++ new_holds number values.now rows.now ways.now }
    ensures capacity { vec_capacity holds.old ≤ vec_capacity holds.new }
{
    let [row, other_rows @ ..] = rows else {
        return;
    };
    let [way, other_ways @ ..] = ways else {
        return;
    };
    push_begun(number, values, row, way, holds);
    push_all(number, values, other_rows, other_ways, holds);
}

// Whether the units of a kind are not pipelined, if there is one.
fn is_held(values: &Values, kind: Option<Kind>) -> bool
    ensures { result ≡ is_held values.now kind }
{
    match kind {
        Some(kind) => !values.kinds.get(kind).pipelined,
        None => false,
    }
}

// Whether an instruction begins to hold a unit in a cycle.
#[inline(always)]
fn begins_hold(number: u64, values: &Values, row: &Passage) -> bool
    ensures { result ≡ begins_hold number values.now row.now }
{
    is_at(number, row.issued()) && is_held(values, row.instruction.kind())
}

// Whether one of some instructions does.
#[inline(always)]
fn any_begins_hold(number: u64, values: &Values, rows: &[Passage]) -> bool
    ensures { result ≡ list_any (begins_hold number values.now) rows.now }
{
    rows.iter().any(|row| begins_hold(number, values, row))
}

/// Appends the holds of units that begin in a cycle: mostly none does.
pub(crate) fn push_holds(
    number: u64,
    values: &Values,
    rows: &[Passage],
    ways: &[Way],
    holds: &mut Vec<UnitHold>,
)
    requires cycles { number < 2 ^ 40 }
    requires room { length holds.old.items + length rows.now ≤ vec_capacity holds.old }
    ensures items { holds.new.items ≡ holds.old.items ++ new_holds number values.now rows.now ways.now }
    ensures capacity { vec_capacity holds.old ≤ vec_capacity holds.new }
{
    if any_begins_hold(number, values, rows) {
        push_all(number, values, rows, ways, holds);
    }
}

/// The event from which the port is held, but for a load's, which is its issue.
pub(crate) fn port_event(hold: &Option<PortHold>) -> Option<Event>
    ensures { option_to_list result ≡ port_event hold.now }
{
    match hold {
        Some(hold) => match hold.holder {
            Holder::Drain | Holder::Lines => Some(hold.event),
            Holder::Load => None,
        },
        None => None,
    }
}

// Whether no event of a cycle after this one may wait for a hold of the port.
fn is_over(number: u64, hold: &Option<PortHold>) -> bool
    ensures { port_kept number hold.now ≡ (if result then None else hold.now) }
{
    match hold {
        Some(hold) => hold.until <= number,
        None => false,
    }
}

// For the drain of a store.
fn is_drained(number: u64, drain: &Option<DrainHold>) -> bool
    ensures { drain_kept number drain.now ≡ (if result then None else drain.now) }
{
    match drain {
        Some(drain) => drain.until < number,
        None => false,
    }
}

/// The hold of the port after a cycle: a new one, or the one before, if an event of a later cycle may wait for it.
pub(crate) fn take_port(number: u64, taken: &Option<PortHold>, port: &mut Option<PortHold>)
    ensures { port.new ≡ option_or taken.now (port_kept number port.old) }
{
    if taken.is_some() {
        *port = *taken;
    } else if is_over(number, port) {
        *port = None;
    }
}

// The drain that takes the port so, if one does.
fn drain_of(taken: &Option<PortHold>) -> Option<DrainHold>
    ensures { result ≡ drain_of taken.now }
{
    match taken {
        Some(hold) => match hold.holder {
            Holder::Drain => Some(DrainHold {
                until: hold.until,
                event: hold.event,
            }),
            Holder::Load | Holder::Lines => None,
        },
        None => None,
    }
}

/// Whether a store begins to drain, where the port is taken so.
pub(crate) fn begins_drain(taken: &Option<PortHold>) -> bool
    ensures { result ≡ is_some (drain_of taken.now) }
{
    match taken {
        Some(hold) => matches!(hold.holder, Holder::Drain),
        None => false,
    }
}

/// The drain after a cycle in which the port is taken so: a new one, or the one before, if an event of a later cycle
/// may wait for it.
pub(crate) fn take_drain(number: u64, taken: &Option<PortHold>, drain: &mut Option<DrainHold>)
    ensures { drain.new ≡ option_or (drain_of taken.now) (drain_kept number drain.old) }
{
    if begins_drain(taken) {
        *drain = drain_of(taken);
    } else if is_drained(number, drain) {
        *drain = None;
    }
}
