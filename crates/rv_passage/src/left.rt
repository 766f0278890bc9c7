ghost use Rattle.std.specs.Prelude.{◌≤◌, length, take};
ghost use Rattle.rv_passage.specs.Left.{IsUpToYoungestLeft};

use crate::passage::Passage;

// How many they are. A loop of its own keeps no other pointers.
#[inline(never)]
fn count_to_youngest_left(rows: &[Passage]) -> usize
    ensures kept { IsUpToYoungestLeft rows.now (take result rows.now) }
    ensures few { result ≤ length rows.now }
{
    let mut count = rows.len();
    while 0 < count {
        if !rows[count - 1].is_in_flight() {
            return count;
        }
        count -= 1;
    }
    0
}

/// The instructions up to the youngest that left the hardware: those after it are all in flight.
pub fn up_to_youngest_left(rows: &[Passage]) -> &[Passage]
    ensures kept { IsUpToYoungestLeft rows.now result.now }
    ensures few { length result.now ≤ length rows.now }
{
    &rows[..count_to_youngest_left(rows)]
}
