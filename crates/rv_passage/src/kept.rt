ghost use Rattle.std.specs.Prelude.{◌≡◌, ◌≤◌, drop, length};
ghost use Rattle.rv_passage.specs.Passage.{in_buffers, retired_by, trapped_by};
ghost use Rattle.rv_passage.specs.Shown.{AreStill};
ghost use Rattle.rv_passage.specs.Table.{AreMovedOn, with_oldest};

use crate::passage::Passage;
use crate::rows::{RowsAre, move_on, retire_oldest, trap_oldest};
use rv_front::Front;
use rv_hardware::Row;
use rv_isa::Cause;
use rv_rob::Rob;

// Of the rows after the dropped ones the oldest in flight, if one is, retires as its row reports, so many before it,
// and the program goes on at `next`.
pub(crate) fn retire_kept(rows: &mut [Passage], dropped: usize, row: &Row, order: u64, next: u32)
    requires { dropped ≤ length rows.old }
    ensures { drop dropped rows.new ≡ with_oldest (retired_by row.now order next) (drop dropped rows.old) }
{
    let (_, kept) = rows.split_at_mut(dropped);
    retire_oldest(kept, row, order, next);
}

// Of the rows after the dropped ones the oldest in flight, if one is, traps.
pub(crate) fn trap_kept(rows: &mut [Passage], dropped: usize, cause: Cause, cycle: u64)
    requires { dropped ≤ length rows.old }
    ensures { drop dropped rows.new ≡ with_oldest (trapped_by cause cycle) (drop dropped rows.old) }
{
    let (_, kept) = rows.split_at_mut(dropped);
    trap_oldest(kept, cause, cycle);
}

// The rows after the dropped ones go on through a cycle, as `move_on` says.
#[inline(always)]
pub(crate) fn move_kept_on(
    rows: &mut [Passage],
    dropped: usize,
    cycle: u64,
    rob: &Rob,
    front: &Front,
    rows_are: RowsAre,
) -> usize
    requires dropped { dropped ≤ length rows.old }
    requires still { rows_are ≡ RowsAre.Current
        → AreStill cycle (drop dropped rows.old) (in_buffers rob.now front.now) }
    ensures { AreMovedOn cycle (in_buffers rob.now front.now) (drop dropped rows.old) (drop dropped rows.new) result }
{
    let (_, kept) = rows.split_at_mut(dropped);
    move_on(kept, cycle, rob, front, rows_are)
}
