ghost use Rattle.std.specs.Prelude.{◌≡◌, ◌++◌, ◌∷◌, [], OnOk};
ghost use Rattle.rv_causes.specs.Live.{before_points, drain_points, holds_points, live_points};
ghost use Rattle.rv_causes.specs.Live.{point_of, port_points, way_points, ways_points};

use crate::before::{Before, DrainHold, PortHold, UnitHold};
use crate::event::Event;
use crate::point::Point;
use crate::scene::last_left;
use crate::way::Way;
use std::alloc::AllocError;

// Appends a point. The only error is out of memory, as of all of these.
fn push_point(point: Point, points: &mut Vec<Point>) -> Result<(), AllocError>
    ensures { OnOk result (points.new.items ≡ points.old.items ++ point ∷ []) }
{
    points.reserve(1)?;
    points.push(point).unwrap();
    Ok(())
}

fn push_event(event: &Option<Event>, points: &mut Vec<Point>) -> Result<(), AllocError>
    ensures { OnOk result (points.new.items ≡ points.old.items ++ point_of event.now) }
{
    match event {
        Some(event) => push_point(event.at, points),
        None => Ok(()),
    }
}

fn push_way(way: &Way, points: &mut Vec<Point>) -> Result<(), AllocError>
    ensures { OnOk result (points.new.items ≡ points.old.items ++ way_points way.now) }
{
    push_point(way.fetch.at, points)?;
    push_event(&way.dispatch, points)?;
    push_event(&way.issue, points)?;
    push_event(&way.broadcast, points)
}

fn push_ways(ways: &[Way], points: &mut Vec<Point>) -> Result<(), AllocError>
    ensures { OnOk result (points.new.items ≡ points.old.items ++ ways_points ways.now) }
{
    match ways {
        [] => Ok(()),
        [way, others @ ..] => {
            push_way(way, points)?;
            push_ways(others, points)
        }
    }
}

fn push_holds(holds: &[UnitHold], points: &mut Vec<Point>) -> Result<(), AllocError>
    ensures { OnOk result (points.new.items ≡ points.old.items ++ holds_points holds.now) }
{
    match holds {
        [] => Ok(()),
        [hold, others @ ..] => {
            push_point(hold.event.at, points)?;
            push_holds(others, points)
        }
    }
}

fn push_port(hold: &Option<PortHold>, points: &mut Vec<Point>) -> Result<(), AllocError>
    ensures { OnOk result (points.new.items ≡ points.old.items ++ port_points hold.now) }
{
    match hold {
        Some(hold) => push_point(hold.event.at, points),
        None => Ok(()),
    }
}

fn push_drain(drain: &Option<DrainHold>, points: &mut Vec<Point>) -> Result<(), AllocError>
    ensures { OnOk result (points.new.items ≡ points.old.items ++ drain_points drain.now) }
{
    match drain {
        Some(drain) => push_point(drain.event.at, points),
        None => Ok(()),
    }
}

fn push_before(before: &Before, points: &mut Vec<Point>) -> Result<(), AllocError>
    ensures { OnOk result (points.new.items ≡ points.old.items ++ before_points before.now) }
{
    push_point(last_left(&before.left).at, points)?;
    push_port(&before.port, points)?;
    push_drain(&before.drain, points)
}

/// Makes some points those of all events for which one of a later cycle may wait. The only error is out of memory.
pub(crate) fn gather(
    ways: &[Way],
    holds: &[UnitHold],
    before: &Before,
    points: &mut Vec<Point>,
) -> Result<(), AllocError>
    ensures { OnOk result (points.new.items ≡ live_points ways.now holds.now before.now) }
{
    points.clear();
    push_before(before, points)?;
    push_holds(holds, points)?;
    push_ways(ways, points)
}
