ghost use Rattle.std.specs.Prelude.{◌+◌, ◌<◌, ◌^◌, decimal};
ghost use Rattle.std.specs.List.{flat_map};
ghost use Rattle.rv_drawing.specs.Places.{column_x, row_y};
ghost use Rattle.rv_drawing.specs.SvgMarks.{line_down, tenth_mark, tenth_at, number_at, numbers};
ghost use Rattle.rv_drawing.specs.SvgMarks.{numbers_again, interrupt_mark, interrupt_in};
ghost use Rattle.rv_text.specs.Said.{Says};

use crate::columns::{Columns, write_columns};
use crate::place::{column_x, digits, row_y};
use crate::window::Window;
use itoa::Buffer;
use rv_text::Sink;
use std::io::Write;

// A line down in front of a column, from a height to the last of so many rows, with the cycle as its tip.
fn write_line_down<W: Write>(
    out: &mut Sink<'_, W>,
    begin: &[u8],
    top: &[u8],
    rows: usize,
    column: u64,
    cycle: u64,
)
    ensures { Says W.contents out.old out.new
        (line_down begin.now top.now (decimal (column_x column)) (decimal cycle) (decimal (row_y rows))) }
{
    let mut at_column = Buffer::new();
    let x = digits(&mut at_column, column_x(column));
    let mut at_cycle = Buffer::new();
    let cycle = digits(&mut at_cycle, u128::from(cycle));
    let mut at_bottom = Buffer::new();
    let bottom = digits(&mut at_bottom, row_y(rows));
    out.put_all(&[begin, x, b" 0)'><title>cycle ", cycle, top, bottom, b"'/>"])
}

fn write_tenth_mark<W: Write>(out: &mut Sink<'_, W>, rows: usize, column: u64, cycle: u64)
    ensures { Says W.contents out.old out.new
        (tenth_mark (decimal (column_x column)) (decimal (row_y rows)) (decimal cycle)) }
{
    write_line_down(
        out,
        b"<g class='n' transform='translate(",
        b"</title><path d='M0 20V",
        rows,
        column,
        cycle,
    );
    let mut buffer = Buffer::new();
    let cycle = digits(&mut buffer, u128::from(cycle));
    out.put_all(&[b"<text x='3' y='16'>", cycle, b"</text></g>\n"])
}

#[tactic(auto, using(rv_text::proofs::Saying::saying), unfolding(crate::specs::SvgMarks::tenth_at))]
pub(crate) fn write_tenth<W: Write>(out: &mut Sink<'_, W>, window: Window, rows: usize, column: u64)
    requires { window.first + column < 2 ^ 64 }
    ensures { Says W.contents out.old out.new (tenth_at window rows column) }
{
    let cycle = window.first + column;
    if cycle % 10 == 0 {
        write_tenth_mark(out, rows, column, cycle)
    }
}

#[tactic(auto, using(rv_text::proofs::Saying::saying), unfolding(crate::specs::SvgMarks::number_at))]
pub(crate) fn write_number<W: Write>(out: &mut Sink<'_, W>, window: Window, column: u64)
    requires { window.first + column < 2 ^ 64 }
    ensures { Says W.contents out.old out.new (number_at window column) }
{
    let cycle = window.first + column;
    if cycle % 10 == 0 {
        let mut at_column = Buffer::new();
        let x = digits(&mut at_column, column_x(column));
        let mut at_cycle = Buffer::new();
        let cycle = digits(&mut at_cycle, u128::from(cycle));
        out.put_all(&[b"<text x='", x, b"'>", cycle, b"</text>\n"])
    }
}

fn write_numbers<W: Write>(out: &mut Sink<'_, W>, window: Window)
    requires { window.first + window.cycles < 2 ^ 64 }
    ensures { Says W.contents out.old out.new (numbers window) }
{
    out.put(b"<g class='n' transform='translate(3 -4)'>\n");
    write_columns(out, window, Columns::Numbers);
    out.put(b"</g>\n")
}

/// Writes the cycle numbers again above every fortieth row.
#[tactic(auto, using(rv_text::proofs::Saying::saying), unfolding(crate::specs::SvgMarks::numbers_again))]
pub(crate) fn write_numbers_again<W: Write>(out: &mut Sink<'_, W>, window: Window, place: usize)
    requires { window.first + window.cycles < 2 ^ 64 }
    ensures { Says W.contents out.old out.new (numbers_again window place) }
{
    if place % 40 == 0 && place != 0 {
        write_numbers(out, window)
    }
}

fn write_interrupt_mark<W: Write>(out: &mut Sink<'_, W>, rows: usize, column: u64, cycle: u64)
    ensures { Says W.contents out.old out.new
        (interrupt_mark (decimal (column_x column)) (decimal cycle) (decimal (row_y rows))) }
{
    write_line_down(
        out,
        b"<g class='v' transform='translate(",
        b", interrupt</title><path d='M0 38V",
        rows,
        column,
        cycle,
    );
    out.put(b"<text x='7' y='34'>!</text></g>\n")
}

#[tactic(auto, using(rv_text::proofs::Saying::saying), unfolding(crate::specs::SvgMarks::interrupt_in))]
fn write_interrupt<W: Write>(out: &mut Sink<'_, W>, window: Window, rows: usize, cycle: u64)
    requires { window.first + window.cycles < 2 ^ 64 }
    ensures { Says W.contents out.old out.new (interrupt_in window rows cycle) }
{
    if window.first <= cycle && cycle < window.first + window.cycles {
        write_interrupt_mark(out, rows, cycle - window.first, cycle)
    }
}

#[tactic(auto, using(rv_text::proofs::Saying::saying))]
pub(crate) fn write_interrupts<W: Write>(
    out: &mut Sink<'_, W>,
    window: Window,
    rows: usize,
    interrupts: &[u64],
)
    requires { window.first + window.cycles < 2 ^ 64 }
    ensures { Says W.contents out.old out.new (flat_map (interrupt_in window rows) interrupts.now) }
{
    for cycle in interrupts {
        write_interrupt(out, window, rows, *cycle);
    }
}
