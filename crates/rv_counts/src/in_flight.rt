ghost use Rattle.std.specs.Prelude.{◌≡◌, ◌+◌, ◌<◌, ◌≤◌, ◌^◌, ◌==◌, if◌then◌else◌, count_by, length};
ghost use Rattle.rv_hardware.specs.Dispatch.{is_stationed};
ghost use Rattle.rv_isa.specs.Instruction.{is_of_kind, is_serialising};
ghost use Rattle.rv_counts.specs.Found.{count_serialising, count_stationed};
ghost use Rattle.rv_counts.specs.Places.{dispatched_in};

use rv_isa::Kind;
use rv_rob::{Entry, Rob, Stage};

/// How many instructions in the reorder buffer are of three sorts.
#[derive(Clone, Copy)]
pub(crate) struct Found {
    /// Those that were dispatched in a cycle.
    pub(crate) dispatched: usize,
    /// Those that wait to be the oldest, with nothing younger beside them.
    pub(crate) serialising: usize,
    /// Those in the stations of a kind.
    pub(crate) stationed: usize,
}

fn is_of_kind(kind: Kind, found: Option<Kind>) -> bool
    ensures { result ≡ is_of_kind kind found }
{
    match found {
        Some(found) => kind == found,
        None => false,
    }
}

fn is_stationed(kind: Kind, entry: &Entry) -> bool
    ensures { result ≡ is_stationed kind entry.now }
{
    matches!(entry.stage, Stage::Waiting) && is_of_kind(kind, entry.instruction.kind())
}

// One more, where something is so.
fn one_more(is: bool, count: usize) -> usize
    requires { count + 1 < 2 ^ 64 }
    ensures { result ≡ (if is then count + 1 else count) }
{
    if is { count + 1 } else { count }
}

// Of some entries how many were dispatched in a cycle.
fn count_dispatched_among(entries: &[Entry], cycle: u64) -> usize
    ensures counted { result ≡ count_by (λ e. e.dispatched == cycle) entries.now }
    ensures few { result ≤ length entries.now }
{
    let mut dispatched = 0;
    for entry in entries {
        dispatched = one_more(entry.dispatched == cycle, dispatched);
    }
    dispatched
}

/// How many instructions in the reorder buffer were dispatched in a cycle.
pub(crate) fn count_dispatched(buffer: &Rob, cycle: u64) -> usize
    ensures counted { result ≡ dispatched_in cycle buffer.now }
    ensures few { result ≤ length buffer.now.entries }
{
    let (older, younger) = buffer.entries();
    count_dispatched_among(older, cycle) + count_dispatched_among(younger, cycle)
}

// The same of some entries, and in the same walk how many are serialising, and how many are in the stations of a kind.
fn count_found_among(entries: &[Entry], cycle: u64, kind: Kind) -> Found
    ensures dispatched { result.dispatched ≡ count_by (λ e. e.dispatched == cycle) entries.now }
    ensures serialising { result.serialising ≡ count_by (λ e. is_serialising e.instruction) entries.now }
    ensures stationed { result.stationed ≡ count_by (is_stationed kind) entries.now }
    ensures dispatched_few { result.dispatched ≤ length entries.now }
    ensures serialising_few { result.serialising ≤ length entries.now }
    ensures stationed_few { result.stationed ≤ length entries.now }
{
    let mut dispatched = 0;
    let mut serialising = 0;
    let mut stationed = 0;
    for entry in entries {
        let is_new = entry.dispatched == cycle;
        let is_serial = entry.instruction.is_serialising();
        let is_waiting = is_stationed(kind, entry);
        dispatched = one_more(is_new, dispatched);
        serialising = one_more(is_serial, serialising);
        stationed = one_more(is_waiting, stationed);
    }
    Found {
        dispatched,
        serialising,
        stationed,
    }
}

/// How many were dispatched in a cycle, and in the same walk how many are serialising, and how many are in the stations of a kind.
pub(crate) fn count_found(buffer: &Rob, cycle: u64, kind: Kind) -> Found
    ensures dispatched { result.dispatched ≡ dispatched_in cycle buffer.now }
    ensures serialising { result.serialising ≡ count_serialising buffer.now }
    ensures stationed { result.stationed ≡ count_stationed kind buffer.now }
    ensures few { result.dispatched ≤ length buffer.now.entries }
{
    let (older, younger) = buffer.entries();
    let old = count_found_among(older, cycle, kind);
    let young = count_found_among(younger, cycle, kind);
    Found {
        dispatched: old.dispatched + young.dispatched,
        serialising: old.serialising + young.serialising,
        stationed: old.stationed + young.stationed,
    }
}
