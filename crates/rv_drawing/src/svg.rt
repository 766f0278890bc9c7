ghost use Rattle.std.specs.Prelude.{◌≡◌, ◌+◌, ◌≤◌, ◌<◌, ◌^◌, count_by, decimal, option_copied};
ghost use Rattle.std.specs.List.{flat_map};
ghost use Rattle.rv_drawing.specs.Cell.{has_cell};
ghost use Rattle.rv_drawing.specs.Label.{markup_byte, statement_of};
ghost use Rattle.rv_drawing.specs.Places.{row_y};
ghost use Rattle.rv_drawing.specs.SvgPicture.{class_of_row, row_class, row_begin, near_address, svg_row};
ghost use Rattle.rv_drawing.specs.SvgPicture.{placed_row, rows_of, svg_rows, svg_of, svg_picture};
ghost use Rattle.rv_drawing.specs.Stopped.{is_stopped};
ghost use Rattle.rv_text.specs.Line.{word_text};
ghost use Rattle.rv_text.specs.Said.{Says};
ghost use Rattle.rv_text.specs.Written.{IsWritten};

use crate::cell::has_cell;
use crate::columns::{Columns, write_columns};
use crate::frame::{write_begin, write_end};
use crate::label::{statement, write_markup};
use crate::legend::write_legend;
use crate::mark::{Mark, marks_in, marks_of};
use crate::marks::{write_interrupts, write_numbers_again};
use crate::outcome::write_outcome;
use crate::over::write_over;
use crate::place::{column_x, digits, row_y};
use crate::style::{mark_style, write_style};
use crate::title::write_row_end;
use crate::window::Window;
use arrayvec::ArrayVec;
use itoa::Buffer;
use rv_hardware::Stall;
use rv_passage::{Ending, Passage};
use rv_source::Listing;
use rv_text::{ReportError, Sink, hexadecimal};
use std::io::Write;

#[tactic(auto, unfolding(crate::specs::SvgPicture::row_class))]
fn class(ending: Ending) -> &'static [u8]
    ensures { result.now ≡ row_class ending }
{
    match ending {
        Ending::InFlight => b"open",
        Ending::Retired { .. } => b"done",
        Ending::Trapped { .. } => b"trap",
        Ending::Squashed { .. } => b"out",
    }
}

#[tactic(auto, unfolding(crate::specs::SvgPicture::class_of_row))]
fn class_of_row(is_stopped: bool, ending: Ending) -> &'static [u8]
    ensures { result.now ≡ class_of_row is_stopped ending }
{
    if is_stopped { b"stale" } else { class(ending) }
}

fn write_row_begin<W: Write>(out: &mut Sink<'_, W>, window: Window, place: usize, row: &Passage)
    ensures { Says W.contents out.old out.new
        (row_begin (class_of_row (is_stopped window row.now) row.now.ending) (decimal (row_y place))
        (word_text row.now.pc)) }
{
    let mut at_row = Buffer::new();
    let y = digits(&mut at_row, row_y(place));
    let pc = hexadecimal(row.pc);
    let class = class_of_row(window.is_stopped(row), row.ending);
    out.put_all(&[
        b"<g class='",
        class,
        b"' transform='translate(0 ",
        y,
        b")'><text x='8' y='13'>",
        pc.as_slice(),
        b"</text><text x='84' y='13'>",
    ])
}

fn write_statement<W: Write>(out: &mut Sink<'_, W>, listing: &Listing, row: &Passage)
    ensures { Says W.contents out.old out.new (flat_map markup_byte (statement_of listing.now row.now)) }
{
    let mut buffer = [0; 8];
    let mut room = ArrayVec::new();
    write_markup(out, statement(&mut buffer, &mut room, listing, row))
}

// Writes the address again in front of the first cell, where that is far from the left.
#[tactic(auto, using(rv_text::proofs::Saying::saying), unfolding(crate::specs::SvgPicture::near_address))]
fn write_near_address<W: Write>(out: &mut Sink<'_, W>, window: Window, row: &Passage)
    ensures { Says W.contents out.old out.new (near_address window row.now) }
{
    let column = row.fetched.saturating_sub(window.first);
    if 50 <= column {
        let mut at_column = Buffer::new();
        let x = digits(&mut at_column, column_x(column));
        let pc = hexadecimal(row.pc);
        out.put_all(&[
            b"<text class='a' dx='-4' y='13' x='",
            x,
            b"'>",
            pc.as_slice(),
            b"</text>\n",
        ])
    }
}

fn write_row<W: Write>(
    out: &mut Sink<'_, W>,
    listing: &Listing,
    window: Window,
    rows: &[Passage],
    stalls: &[Option<Stall>],
    marks: &[Mark],
    place: usize,
    row: &Passage,
)
    requires { window.first + window.cycles < 2 ^ 64 }
    ensures { Says W.contents out.old out.new (svg_row listing.now window rows.now stalls.now marks.now place row.now) }
{
    write_row_begin(out, window, place, row);
    write_statement(out, listing, row);
    out.put(b"</text><text x='328' y='13'>");
    write_outcome(out, window, row);
    out.put(b"</text>\n");
    write_numbers_again(out, window, place);
    let marks = marks_of(marks, row.number);
    let boxes = Columns::Boxes {
        row,
        rows,
        stalls,
        marks,
    };
    write_columns(out, window, boxes);
    write_near_address(out, window, row);
    write_row_end(out, window, row)
}

#[tactic(auto, using(rv_text::proofs::Saying::saying), unfolding(crate::specs::SvgPicture::placed_row))]
fn write_placed<W: Write>(
    out: &mut Sink<'_, W>,
    listing: &Listing,
    window: Window,
    rows: &[Passage],
    stalls: &[Option<Stall>],
    marks: &[Mark],
    place: usize,
    row: &Passage,
)
    requires { window.first + window.cycles < 2 ^ 64 }
    ensures { Says W.contents out.old out.new
        (placed_row listing.now window rows.now stalls.now marks.now place row.now) }
{
    if has_cell(window, row) {
        write_row(out, listing, window, rows, stalls, marks, place, row)
    }
}

fn rows_of(window: Window, row: &Passage) -> usize
    requires { window.first + window.cycles < 2 ^ 64 }
    ensures taken { result ≡ rows_of window row.now }
    ensures few { result ≤ 1 }
{
    if has_cell(window, row) { 1 } else { 0 }
}

#[tactic(auto, using(rv_text::proofs::Saying::saying), unfolding(crate::specs::SvgPicture::svg_rows))]
fn write_rows<W: Write>(
    out: &mut Sink<'_, W>,
    listing: &Listing,
    window: Window,
    rows: &[Passage],
    stalls: &[Option<Stall>],
    marks: &[Mark],
)
    requires { window.first + window.cycles < 2 ^ 64 }
    ensures { Says W.contents out.old out.new (svg_rows listing.now window rows.now stalls.now marks.now 0 rows.now) }
{
    let mut place = 0;
    for row in rows {
        write_placed(out, listing, window, rows, stalls, marks, place, row);
        place += rows_of(window, row);
    }
}

// How many rows have a cell in a window.
fn count_shown(window: Window, rows: &[Passage]) -> usize
    requires { window.first + window.cycles < 2 ^ 64 }
    ensures { result ≡ count_by (has_cell window) rows.now }
{
    let mut shown = 0;
    for row in rows {
        if has_cell(window, row) {
            shown += 1;
        }
    }
    shown
}

// Writes a picture with so many rows.
fn write_shown<W: Write>(
    out: &mut Sink<'_, W>,
    rows: &[Passage],
    interrupts: &[u64],
    stalls: &[Option<Stall>],
    marks: Option<&[Mark]>,
    listing: &Listing,
    window: Window,
    shown: usize,
)
    requires { window.first + window.cycles < 2 ^ 64 }
    ensures { Says W.contents out.old out.new
        (svg_of shown rows.now interrupts.now stalls.now (option_copied marks.entry) listing.now window) }
{
    write_begin(out, window.cycles, shown);
    write_style(out);
    out.put(mark_style(marks));
    write_legend(out, marks);
    write_columns(out, window, Columns::Tenths { rows: shown });
    write_rows(out, listing, window, rows, stalls, marks_in(marks));
    write_interrupts(out, window, shown, interrupts);
    write_over(out, b"<text x='8' y='34'>", window, b"</text>\n");
    write_end(out)
}

#[tactic(auto, unfolding(crate::specs::SvgPicture::svg_picture))]
fn write_picture<W: Write>(
    out: &mut Sink<'_, W>,
    listing: &Listing,
    window: Window,
    rows: &[Passage],
    interrupts: &[u64],
    stalls: &[Option<Stall>],
    marks: Option<&[Mark]>,
)
    requires { window.first + window.cycles < 2 ^ 64 }
    ensures { Says W.contents out.old out.new
        (svg_picture rows.now interrupts.now stalls.now (option_copied marks.entry) listing.now window) }
{
    let shown = count_shown(window, rows);
    write_shown(out, rows, interrupts, stalls, marks, listing, window, shown)
}

/// Writes a picture as an SVG: a legend on top, cycle numbers, a row for each instruction that shows something in the window,
/// with a box for each cell, and a line for each interrupt. `stalls` has what the oldest fetched word waited for in each cycle of
/// the window in which nothing was dispatched. Where there are marks, even none, marked boxes have rings, and the legend says so.
/// The window ends below cycle 2^64. Asks for no memory. Fails by `WriteFailed` alone, and what was written is then a beginning of
/// the picture.
#[tactic(auto, using(rv_text::proofs::Saying::says_written))]
pub fn write_picture_svg<W: Write>(
    rows: &[Passage],
    interrupts: &[u64],
    stalls: &[Option<Stall>],
    marks: Option<&[Mark]>,
    listing: &Listing,
    window: Window,
    writer: &mut W,
) -> Result<(), ReportError>
    requires { window.first + window.cycles < 2 ^ 64 }
    ensures { IsWritten result (W.contents writer.old) (W.contents writer.new)
        (svg_picture rows.now interrupts.now stalls.now (option_copied marks.entry) listing.now window) }
{
    let mut out = Sink::new(writer);
    write_picture(&mut out, listing, window, rows, interrupts, stalls, marks);
    out.outcome()
}
