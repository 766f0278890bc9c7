ghost use Rattle.std.specs.Prelude.{◌≡◌, option_copied};
ghost use Rattle.rv_causes.specs.Issuing.{after_broadcast, after_bus, after_issues, after_operands, after_producer};
ghost use Rattle.rv_causes.specs.Issuing.{after_stores_known, after_units, after_units_of, broadcast_wait};
ghost use Rattle.rv_causes.specs.Issuing.{execution_cause, has_ended, hold_among, issue_after, issue_wait, older_hold};
ghost use Rattle.rv_causes.specs.Setting.{setting_of};

use crate::before::{Holder, UnitHold};
use crate::cause::Cause;
use crate::event::Waited;
use crate::scene::Scene;
use crate::sought::{Sought, are_as_many, first_of, is_at, is_just_before, is_ready_at, last_of};
use crate::way::{Found, Way};
use rv_isa::Kind;
use rv_passage::{Passage, Producer};

fn after_broadcast<'a>(cause: Cause, found: Option<Found<'a>>) -> Option<Waited<'a>>
    ensures { result ≡ after_broadcast cause found.entry }
{
    match found {
        Some(found) => Some(Waited::after(found.way().broadcast(), cause)),
        None => None,
    }
}

fn after_producer<'a>(
    scene: &'a Scene<'_>,
    ways: &'a [Way],
    producer: &Option<Producer>,
) -> Option<Waited<'a>>
    ensures { result ≡ after_producer (setting_of scene.now) ways.now producer.now }
{
    match producer {
        Some(producer) if is_just_before(scene.number, producer.broadcast) => after_broadcast(
            Cause::Operand,
            first_of(Sought::Number(producer.number), scene.rows, ways),
        ),
        _ => None,
    }
}

fn after_operands<'a>(scene: &'a Scene<'_>, ways: &'a [Way], row: &Passage) -> Option<Waited<'a>>
    ensures { result ≡ after_operands (setting_of scene.now) ways.now row.now }
{
    match after_producer(scene, ways, &row.producers.first) {
        Some(event) => Some(event),
        None => after_producer(scene, ways, &row.producers.second),
    }
}

fn after_stores_known<'a>(
    scene: &'a Scene<'_>,
    ways: &'a [Way],
    row: &Passage,
) -> Option<Waited<'a>>
    ensures { result ≡ after_stores_known (setting_of scene.now) ways.now row.now }
{
    if !row.instruction.is_load() {
        return None;
    }
    match first_of(Sought::StoreBefore(scene.number), scene.rows, ways) {
        Some(store) if store.row().number < row.number => {
            Some(Waited::after(store.way().broadcast(), Cause::StoreAddress))
        }
        _ => None,
    }
}

fn has_ended(scene: &Scene<'_>, kind: Kind, hold: &UnitHold) -> bool
    ensures { result ≡ has_ended (setting_of scene.now) kind hold.now }
{
    hold.kind == kind && hold.until == scene.number
}

fn older_hold<'a>(hold: &'a UnitHold, other: Option<&'a UnitHold>) -> &'a UnitHold
    ensures { result.now ≡ older_hold hold.now (option_copied other.entry) }
{
    match other {
        Some(other) if other.number < hold.number => other,
        _ => hold,
    }
}

// The hold of a unit of a kind that ended when the cycle began, of the oldest instruction.
fn hold_among<'a>(scene: &Scene<'_>, kind: Kind, holds: &'a [UnitHold]) -> Option<&'a UnitHold>
    ensures { option_copied result ≡ hold_among (setting_of scene.now) kind holds.now }
{
    let [hold, others @ ..] = holds else {
        return None;
    };
    let other = hold_among(scene, kind, others);
    if has_ended(scene, kind, hold) {
        Some(older_hold(hold, other))
    } else {
        other
    }
}

fn after_issues<'a>(scene: &'a Scene<'_>, ways: &'a [Way], kind: Kind) -> Option<Waited<'a>>
    ensures { result ≡ after_issues (setting_of scene.now) ways.now kind }
{
    let sought = Sought::IssuedBefore(kind, scene.number);
    let units = scene.values.kinds.get(kind).units as usize;
    if !are_as_many(sought, scene.rows, units) {
        return None;
    }
    match last_of(sought, scene.rows, ways) {
        Some(found) => Some(Waited::after(found.way().issued(), Cause::busy(kind))),
        None => None,
    }
}

// An instruction that waited for a unit.
fn after_units<'a>(scene: &'a Scene<'_>, ways: &'a [Way], kind: Kind) -> Option<Waited<'a>>
    ensures { result ≡ after_units (setting_of scene.now) ways.now kind }
{
    if scene.values.kinds.get(kind).pipelined {
        return after_issues(scene, ways, kind);
    }
    match hold_among(scene, kind, scene.holds) {
        Some(hold) => Some(Waited::after(&hold.event, Cause::busy(kind))),
        None => None,
    }
}

fn after_units_of<'a>(
    scene: &'a Scene<'_>,
    ways: &'a [Way],
    kind: Option<Kind>,
) -> Option<Waited<'a>>
    ensures { result ≡ after_units_of (setting_of scene.now) ways.now kind }
{
    match kind {
        Some(kind) => after_units(scene, ways, kind),
        None => None,
    }
}

fn issue_after<'a>(scene: &'a Scene<'_>, ways: &'a [Way], row: &Passage) -> Option<Waited<'a>>
    ensures { result ≡ issue_after (setting_of scene.now) ways.now row.now }
{
    if let Some(event) = after_operands(scene, ways, row) {
        return Some(event);
    }
    if let Some(event) = after_stores_known(scene, ways, row) {
        return Some(event);
    }
    if let Some(event) = after_units_of(scene, ways, row.instruction.kind()) {
        return Some(event);
    }
    scene.after_port()
}

/// What an instruction waited for that is issued.
pub(crate) fn issue_wait<'a>(
    scene: &'a Scene<'_>,
    ways: &'a [Way],
    row: &Passage,
    way: &'a Way,
) -> Waited<'a>
    ensures { result ≡ issue_wait (setting_of scene.now) ways.now row.now way.now }
{
    if is_just_before(scene.number, row.dispatched) {
        return Waited::after(way.dispatched(), Cause::DispatchToIssue);
    }
    match issue_after(scene, ways, row) {
        Some(waited) => waited,
        None => Waited::after(way.dispatched(), Cause::Other),
    }
}

// What kept a result from its issue on.
fn execution_cause(scene: &Scene<'_>, row: &Passage) -> Cause
    ensures { result ≡ execution_cause (setting_of scene.now) row.now }
{
    if row.instruction.is_load() {
        if !scene.has_held(Holder::Load, row.number) {
            return Cause::LoadForwarded;
        }
        return match row.issue {
            Some(issue) if issue.cost == scene.values.cache.hit => Cause::LoadHit,
            _ => Cause::LoadMiss,
        };
    }
    match row.instruction.kind() {
        Some(kind) => Cause::execution(kind),
        None => Cause::Other,
    }
}

fn after_bus<'a>(scene: &'a Scene<'_>, ways: &'a [Way]) -> Option<Waited<'a>>
    ensures { result ≡ after_bus (setting_of scene.now) ways.now }
{
    let sought = Sought::BroadcastBefore(scene.number);
    if !are_as_many(sought, scene.rows, scene.values.bus_width as usize) {
        return None;
    }
    after_broadcast(Cause::BusFull, last_of(sought, scene.rows, ways))
}

/// What a result waited for that is broadcast.
pub(crate) fn broadcast_wait<'a>(
    scene: &'a Scene<'_>,
    ways: &'a [Way],
    row: &Passage,
    way: &'a Way,
) -> Waited<'a>
    ensures { result ≡ broadcast_wait (setting_of scene.now) ways.now row.now way.now }
{
    if is_ready_at(scene.number, row) {
        return Waited::after(way.issued(), execution_cause(scene, row));
    }
    match after_bus(scene, ways) {
        Some(waited) => waited,
        None => Waited::after(way.issued(), Cause::Other),
    }
}
