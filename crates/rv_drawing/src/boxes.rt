ghost use Rattle.std.specs.Prelude.{◌≡◌, ◌+◌, ◌<◌, ◌^◌, decimal};
ghost use Rattle.rv_drawing.specs.Cell.{class_of, letter_of};
ghost use Rattle.rv_drawing.specs.Marked.{is_marked};
ghost use Rattle.rv_drawing.specs.Places.{column_x};
ghost use Rattle.rv_drawing.specs.SvgBoxes.{box_begin, box_end, box_middle, cell_box, box_at, reason_in};
ghost use Rattle.rv_drawing.specs.Wait.{tip_of};
ghost use Rattle.rv_text.specs.Said.{Says};

use crate::cell::{Cell, cell_in};
use crate::mark::{Mark, is_marked};
use crate::place::{column_x, digits};
use crate::wait::write_tip;
use crate::window::Window;
use itoa::Buffer;
use rv_hardware::Stall;
use rv_passage::Passage;
use rv_text::Sink;
use std::io::Write;

fn write_box_begin<W: Write>(out: &mut Sink<'_, W>, cell: Cell, column: u64)
    ensures { Says W.contents out.old out.new (box_begin (class_of cell) (decimal (column_x column))) }
{
    let mut at_column = Buffer::new();
    let x = digits(&mut at_column, column_x(column));
    let class = cell.class();
    out.put_all(&[
        b"<g class='p ",
        class,
        b"' transform='translate(",
        x,
        b" 0)'><title>",
    ])
}

// What stands between the cycle of a box and its letter: a marked box has two rings.
#[tactic(auto, unfolding(crate::specs::SvgBoxes::box_middle))]
fn box_middle(is_marked: bool) -> &'static [u8]
    ensures { result.now ≡ box_middle is_marked }
{
    if is_marked {
        b", on the critical path</title><rect width='14' height='18'/><path class='m' d='M1 1H13V17H1Z'/><path class='m' d='M2.5 2.5H11.5V15.5H2.5Z'/><text x='7' y='13'>"
    } else {
        b"</title><rect width='14' height='18'/><text x='7' y='13'>"
    }
}

fn write_box_end<W: Write>(out: &mut Sink<'_, W>, cell: Cell, is_marked: bool, cycle: u64)
    ensures { Says W.contents out.old out.new (box_end (decimal cycle) (box_middle is_marked) (letter_of cell)) }
{
    let mut at_cycle = Buffer::new();
    let cycle = digits(&mut at_cycle, u128::from(cycle));
    let middle = box_middle(is_marked);
    let letter = cell.letter();
    out.put_all(&[b" in cycle ", cycle, middle, letter, b"</text></g>\n"])
}

#[tactic(auto, using(rv_text::proofs::Saying::saying), unfolding(crate::specs::SvgBoxes::cell_box))]
fn write_box<W: Write>(
    out: &mut Sink<'_, W>,
    window: Window,
    rows: &[Passage],
    stall: Option<Stall>,
    row: &Passage,
    cell: Cell,
    is_marked: bool,
    column: u64,
    cycle: u64,
)
    ensures { Says W.contents out.old out.new
        (cell_box (class_of cell) (decimal (column_x column)) (tip_of window rows.now stall row.now cycle cell)
        (decimal cycle) (box_middle is_marked) (letter_of cell)) }
{
    write_box_begin(out, cell, column);
    write_tip(out, window, rows, stall, row, cycle, cell);
    write_box_end(out, cell, is_marked, cycle)
}

// What the oldest fetched word waits for in a column.
fn stall_in(stalls: &[Option<Stall>], column: u64) -> Option<Stall>
    ensures { result ≡ reason_in stalls.now column }
{
    match stalls.get(column as usize) {
        Some(stall) => *stall,
        None => None,
    }
}

#[tactic(auto, using(rv_text::proofs::Saying::saying), unfolding(crate::specs::SvgBoxes::box_at, crate::specs::SvgBoxes::box_of))]
pub(crate) fn write_box_at<W: Write>(
    out: &mut Sink<'_, W>,
    window: Window,
    rows: &[Passage],
    stalls: &[Option<Stall>],
    row: &Passage,
    marks: &[Mark],
    column: u64,
)
    requires { window.first + column < 2 ^ 64 }
    ensures { Says W.contents out.old out.new
        (box_at window rows.now stalls.now (is_marked marks.now row.now.number) row.now column) }
{
    let cycle = window.first + column;
    if let Some(cell) = cell_in(row, cycle) {
        let stall = stall_in(stalls, column);
        let is_marked = is_marked(marks, row.number, column);
        write_box(
            out, window, rows, stall, row, cell, is_marked, column, cycle,
        )
    }
}
