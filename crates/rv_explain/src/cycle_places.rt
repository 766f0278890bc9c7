ghost use Rattle.std.specs.Prelude.{◌≡◌, ◌≤◌, length};
ghost use Rattle.rv_counts.specs.Places.{places_by};

use rv_counts::{CyclePlaces, places_by};
use rv_hardware::Step;
use rv_watch::ShownHardware;

/// How many instructions are in the reorder buffer.
pub(crate) fn in_flight(hardware: &ShownHardware<'_>) -> usize
    ensures counted { result ≡ length hardware.now.rob.entries }
    ensures few { result ≤ 256 }
{
    hardware.rob.len()
}

/// The places of a cycle, by its number, how many instructions were in the reorder buffer before it, its steps, and the
/// hardware that it left.
pub(crate) fn cycle_places(
    cycle: u64,
    before: usize,
    steps: &[Step],
    hardware: &ShownHardware<'_>,
) -> CyclePlaces
    requires few { before ≤ 256 }
    ensures { result ≡ places_by hardware.now.values cycle before steps.now hardware.now.rob hardware.now.front }
{
    // No more are in the reorder buffer than it may hold.
    let _ = in_flight(hardware);
    let values = hardware.values();
    let buffer = hardware.reorder_buffer();
    places_by(values, cycle, before, steps, buffer, hardware.front())
}
