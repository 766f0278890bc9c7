ghost use Rattle.std.specs.Prelude.{◌≡◌};
ghost use Rattle.rv_drawing.specs.Room.{dispatch_wait, has_older_wait, is_older_wait, room_text};

use crate::cell::{Cell, cell_in};
use rv_hardware::Stall;
use rv_passage::Passage;

// Whether an older instruction than one with a number waits in a cycle for its dispatch.
fn is_older_wait(older: &Passage, number: u64, cycle: u64) -> bool
    ensures { result ≡ is_older_wait number cycle older.now }
{
    older.number < number
        && match cell_in(older, cycle) {
            Some(cell) => cell.is_dispatch_wait(),
            None => false,
        }
}

fn has_older_wait(rows: &[Passage], number: u64, cycle: u64) -> bool
    ensures { result ≡ has_older_wait rows.now number cycle }
{
    for row in rows {
        if is_older_wait(row, number, cycle) {
            return true;
        }
    }
    false
}

/// What the oldest fetched word waits for in a cycle that dispatched nothing for a reason.
#[tactic(auto, unfolding(crate::specs::Room::room_text))]
pub fn room_name(stall: Option<Stall>) -> &'static [u8]
    ensures { result.now ≡ room_text stall }
{
    match stall {
        Some(Stall::Rob) => b"wait for room in the reorder buffer",
        Some(Stall::Station) => b"wait for a station of its kind",
        Some(Stall::Store) => b"wait for room in the store queue",
        Some(Stall::Serial) => b"wait for a serialising instruction",
        Some(Stall::Fetch) | None => Cell::DispatchWait.name(),
    }
}

/// What a fetched word waits for in a cycle among others, where the oldest waits for this.
#[tactic(auto, unfolding(crate::specs::Room::dispatch_wait))]
pub(crate) fn dispatch_wait(
    rows: &[Passage],
    stall: Option<Stall>,
    number: u64,
    cycle: u64,
) -> &'static [u8]
    ensures { result.now ≡ dispatch_wait rows.now stall number cycle }
{
    if has_older_wait(rows, number, cycle) {
        b"wait for older ones to dispatch"
    } else {
        room_name(stall)
    }
}
