ghost use Rattle.std.specs.Prelude.{◌≡◌, ◌≤◌, ◌-◌, length, take};
ghost use Rattle.std.specs.List.{list_all};
ghost use Rattle.rv_counts.specs.Passing.{has_left};
ghost use Rattle.rv_explain.specs.AtEnd.{AreAtEnd};
ghost use Rattle.rv_passage.specs.Left.{IsUpToYoungestLeft};

use rv_passage::{Passage, up_to_youngest_left};
use rv_watch::ShownHardware;

/// The passages at the end of a cycle without the last ones, as many as words wait in the fetch buffer: none of these
/// was dispatched and is in flight.
pub(crate) fn without_waiting<'a>(
    rows: &'a [Passage],
    hardware: &ShownHardware<'_>,
) -> &'a [Passage]
    ensures first { result.now ≡ take (length rows.now - length hardware.now.front.entries) rows.now }
    ensures few { length result.now ≤ length rows.now }
{
    &rows[..rows.len().saturating_sub(hardware.front().len())]
}

// Whether all left the hardware.
fn have_left(rows: &[Passage]) -> bool
    ensures { result ≡ list_all has_left rows.now }
{
    match rows {
        [] => true,
        [row, rest @ ..] => !row.is_in_flight() && have_left(rest),
    }
}

/// The passages at the end of a cycle up to the youngest that left the hardware. Mostly those that left are the first
/// ones: then all others are in flight, as many as the buffers hold.
pub(crate) fn left_among<'a>(
    rows: &'a [Passage],
    cycle: u64,
    hardware: &ShownHardware<'_>,
) -> &'a [Passage]
    requires { AreAtEnd cycle hardware.now rows.now }
    ensures left { IsUpToYoungestLeft rows.now result.now }
    ensures few { length result.now ≤ length rows.now }
{
    let others = rows.len().saturating_sub(hardware.reorder_buffer().len());
    let first = &rows[..others.saturating_sub(hardware.front().len())];
    if have_left(first) {
        first
    } else {
        up_to_youngest_left(rows)
    }
}
