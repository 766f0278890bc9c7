ghost use Rattle.std.specs.Prelude.{◌≡◌};
ghost use Rattle.rv_log.specs.Room.{is_as_before, is_fetched_word, is_for_room};
ghost use Rattle.rv_log.specs.Room.{oldest_fetched, room_at, room_for, room_line, room_of};
ghost use Rattle.rv_text.specs.Said.{Says};

use itoa::Buffer;
use rv_drawing::room_name;
use rv_hardware::Stall;
use rv_passage::Passage;
use rv_text::Sink;
use std::io::Write;

/// Why a cycle dispatched nothing, and why the cycle before did not; None where it did.
#[derive(Clone, Copy)]
pub(crate) struct Stalled {
    pub(crate) before: Option<Stall>,
    pub(crate) reason: Option<Stall>,
}

// Whether an instruction is in the fetch buffer.
fn is_fetched_word(row: &Passage) -> bool
    ensures { result ≡ is_fetched_word row.now }
{
    row.is_in_flight() && row.dispatched.is_none()
}

// The number of the oldest instruction in the fetch buffer.
fn oldest_fetched(rows: &[Passage]) -> Option<u64>
    ensures { result ≡ oldest_fetched rows.now }
{
    match rows {
        [] => None,
        [row, rest @ ..] => {
            if is_fetched_word(row) {
                Some(row.number)
            } else {
                oldest_fetched(rest)
            }
        }
    }
}

// Whether words wait for room, and not that there are any.
fn is_for_room(reason: Stall) -> bool
    ensures { result ≡ is_for_room reason }
{
    !matches!(reason, Stall::Fetch)
}

// Whether the cycle before had the same reason.
fn is_as_before(reason: Stall, before: Option<Stall>) -> bool
    ensures { result ≡ is_as_before reason before }
{
    match before {
        Some(before) => reason.is_same(before),
        None => false,
    }
}

#[tactic(auto, unfolding(crate::specs::Room::room_line))]
fn write_room_line<W: Write>(out: &mut Sink<'_, W>, cycle: u64, reason: Stall, number: u64)
    ensures { Says W.contents out.old out.new (room_line cycle reason number) }
{
    let mut buffer = Buffer::new();
    let id = buffer.format(number).as_bytes();
    let mut cycle_buffer = Buffer::new();
    let cycle = cycle_buffer.format(cycle).as_bytes();
    out.put_all(&[
        b"L\t",
        id,
        b"\t1\t",
        room_name(Some(reason)),
        b" from cycle ",
        cycle,
        b"; \n",
    ])
}

// Writes what the oldest fetched word waits for, where there is one.
#[tactic(auto, using(rv_text::proofs::Saying::saying), unfolding(crate::specs::Room::room_of))]
fn write_room_of<W: Write>(out: &mut Sink<'_, W>, cycle: u64, reason: Stall, oldest: Option<u64>)
    ensures { Says W.contents out.old out.new (room_of cycle reason oldest) }
{
    if let Some(oldest) = oldest {
        write_room_line(out, cycle, reason, oldest)
    }
}

#[tactic(auto, using(rv_text::proofs::Saying::saying), unfolding(crate::specs::Room::room_for))]
fn write_room_for<W: Write>(out: &mut Sink<'_, W>, cycle: u64, stalled: Stalled, rows: &[Passage])
    ensures { Says W.contents out.old out.new (room_for cycle stalled.before stalled.reason (oldest_fetched rows.now)) }
{
    match stalled.reason {
        Some(reason) if is_for_room(reason) && !is_as_before(reason, stalled.before) => {
            write_room_of(out, cycle, reason, oldest_fetched(rows))
        }
        _ => {}
    }
}

/// Writes what the oldest fetched word among the instructions at the end of a cycle waits for, where that is a reason that the
/// cycle before had not.
#[tactic(auto, unfolding(crate::specs::Room::room_at))]
pub(crate) fn write_room<W: Write>(
    out: &mut Sink<'_, W>,
    cycle: u64,
    stalled: Stalled,
    rows: &[Passage],
)
    ensures { Says W.contents out.old out.new (room_at cycle stalled rows.now) }
{
    write_room_for(out, cycle, stalled, rows)
}
