ghost use Rattle.std.specs.Prelude.{◌≡◌, false, option_copied};
ghost use Rattle.rv_causes.specs.Fetching.{after_flush, after_mend, after_redirection, after_room, after_word};
ghost use Rattle.rv_causes.specs.Fetching.{fills_fetch, goes_on, handler_wait, is_jump, is_mended, was_fetched};
ghost use Rattle.rv_causes.specs.Reading.{after_of};
ghost use Rattle.rv_causes.specs.Setting.{setting_of};

use crate::cause::Cause;
use crate::cycle::After;
use crate::event::{Anew, Event, Waited};
use crate::leaving::{Leaving, differ, mends_early};
use crate::point::Reason;
use crate::scene::{Scene, since_left};
use crate::sought::{Sought, comes_after, is_at, last_of};
use crate::way::{Found, Way};
use rv_passage::Passage;
use rv_rob::Entry;

fn after_flush(leaving: &Leaving) -> Option<Anew<'_>>
    ensures { result ≡ after_flush leaving.now }
{
    match (leaving.refill, &leaving.last) {
        (Some(reason), Some(event)) => Some(Anew::new(reason, event)),
        _ => None,
    }
}

fn is_mended(scene: &Scene<'_>, row: &Passage, entry: Option<&Entry>) -> bool
    ensures { result ≡ is_mended (setting_of scene.now) row.now (option_copied entry.entry) }
{
    match entry {
        Some(entry) => {
            is_at(scene.number, row.broadcast) && differ(row.predicted, Some(entry.predicted_next))
        }
        None => false,
    }
}

fn after_mend<'a>(scene: &'a Scene<'_>, ways: &'a [Way], after: &After<'_>) -> Option<Anew<'a>>
    ensures { result ≡ after_mend (setting_of scene.now) ways.now (after_of after.now) }
{
    if !mends_early(scene) {
        return None;
    }
    match last_of(Sought::Entry, scene.rows, ways) {
        Some(found) if is_mended(scene, found.row(), after.rob.youngest()) => {
            let reason = Reason {
                cause: Cause::RefillPrediction,
                address: Some(found.row().pc),
            };
            Some(Anew::new(reason, found.way().broadcast()))
        }
        _ => None,
    }
}

/// Fetch began anew where an instruction left, or was broadcast, if no interrupt was taken.
pub(crate) fn after_redirection<'a>(
    scene: &'a Scene<'_>,
    ways: &'a [Way],
    leaving: &'a Leaving,
    after: &After<'_>,
    first: &Passage,
) -> Option<Anew<'a>>
    ensures { result ≡ after_redirection (setting_of scene.now) ways.now false leaving.now
        (after_of after.now) first.now }
{
    match after_flush(leaving) {
        Some(waited) => Some(waited),
        None => after_mend(scene, ways, after),
    }
}

fn is_jump(row: &Passage) -> bool
    ensures { result ≡ is_jump row.now }
{
    differ(row.predicted, Some(row.pc.wrapping_add(4)))
}

fn was_fetched(number: u64, row: Option<&Passage>) -> bool
    ensures { result ≡ was_fetched number (option_copied row.entry) }
{
    match row {
        Some(row) => comes_after(row.fetched, number),
        None => false,
    }
}

// Whether the words of the cycle before filled the fetch, if the last one was fetched then.
fn fills_fetch(scene: &Scene<'_>, ways: &[Way]) -> bool
    ensures { result ≡ fills_fetch (setting_of scene.now) ways.now }
{
    let width = scene.values.fetch_width as usize;
    if ways.len() < width {
        return false;
    }
    was_fetched(scene.number, scene.rows.get(ways.len() - width))
}

// What ended the fetches of the cycle before, but for the buffer.
fn after_word<'a>(scene: &'a Scene<'_>, ways: &[Way], last: &Found<'a>) -> Option<Waited<'a>>
    ensures { result ≡ after_word (setting_of scene.now) ways.now last.now }
{
    if !comes_after(last.row().fetched, scene.number) {
        return None;
    }
    if fills_fetch(scene, ways) {
        Some(Waited::after(&last.way().fetch, Cause::FetchWidth))
    } else if is_jump(last.row()) {
        Some(Waited::after(&last.way().fetch, Cause::FetchJump))
    } else {
        None
    }
}

// The buffer was full until the word left it that stands as many before as it holds.
fn after_room<'a>(scene: &'a Scene<'_>, ways: &'a [Way]) -> Option<Waited<'a>>
    ensures { result ≡ after_room (setting_of scene.now) ways.now }
{
    let held = scene.values.fetch_buffer as usize;
    if ways.len() < held {
        return None;
    }
    let place = ways.len() - held;
    match (scene.rows.get(place), ways.get(place)) {
        (Some(row), Some(way)) if is_at(scene.number, row.dispatched) => {
            Some(Waited::again(way.dispatched()))
        }
        _ => None,
    }
}

/// What words waited for that are fetched where the fetch goes on after the last word.
pub(crate) fn goes_on<'a>(
    scene: &'a Scene<'_>,
    ways: &'a [Way],
    last: Option<Found<'a>>,
) -> Waited<'a>
    ensures { result ≡ goes_on (setting_of scene.now) ways.now last.entry }
{
    let Some(last) = last else {
        return since_left(Cause::Other, &scene.before.left);
    };
    if let Some(waited) = after_word(scene, ways, &last) {
        return waited;
    }
    match after_room(scene, ways) {
        Some(waited) => waited,
        None => Waited::after(&last.way().fetch, Cause::Other),
    }
}

/// Fetch began anew with the event of an interrupt.
pub(crate) fn handler_wait<'a>(interrupt: &'a Event, first: &Passage) -> Anew<'a>
    ensures { result ≡ handler_wait interrupt.now first.now }
{
    let reason = Reason {
        cause: Cause::RefillInterrupt,
        address: Some(first.pc),
    };
    Anew::new(reason, interrupt)
}
