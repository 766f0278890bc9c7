ghost use Rattle.std.specs.Prelude.{◌≡◌, ◌+◌, ◌<◌, ◌^◌, ◌++◌, codes, option_copied};
ghost use Rattle.std.specs.List.{flat_map};
ghost use Rattle.rv_drawing.specs.ColumnText.{column_text};
ghost use Rattle.rv_drawing.specs.Columns.{columns};
ghost use Rattle.rv_drawing.specs.TextPicture.{scale_at, scale_line, statement_field, room_after, written_field};
ghost use Rattle.rv_drawing.specs.TextPicture.{outcome_field, cell_text, cell_at, row_line, shown_line};
ghost use Rattle.rv_drawing.specs.TextPicture.{interrupt_at, mark_line, interrupt_line, mark_legend, text_picture};
ghost use Rattle.rv_drawing.specs.Label.{statement_of, written_by};
ghost use Rattle.rv_drawing.specs.Marked.{is_marked};
ghost use Rattle.rv_drawing.specs.Stopped.{is_stopped};
ghost use Rattle.rv_text.specs.Line.{word_text};
ghost use Rattle.rv_text.specs.Said.{Says};
ghost use Rattle.rv_text.specs.Written.{IsWritten};

use crate::cell::{Cell, cell_in, has_cell};
use crate::columns::{Columns, write_columns};
use crate::label::{statement, write_blanks, write_padded, write_written, written};
use crate::mark::{Mark, is_marked, marks_in, marks_of};
use crate::over::write_over;
use crate::window::Window;
use arrayvec::ArrayVec;
use itoa::Buffer;
use rv_passage::{Passage, register_name};
use rv_source::Listing;
use rv_text::{ReportError, Sink, hexadecimal};
use std::io::Write;

#[tactic(auto, using(rv_text::proofs::Saying::saying), unfolding(crate::specs::TextPicture::scale_at))]
pub(crate) fn write_scale_column<W: Write>(out: &mut Sink<'_, W>, window: Window, column: u64)
    requires { window.first + column < 2 ^ 64 }
    ensures { Says W.contents out.old out.new (scale_at window column) }
{
    let cycle = window.first + column;
    if cycle % 10 == 0 {
        let mut buffer = Buffer::new();
        write_padded(out, 10, buffer.format(cycle).as_bytes())
    } else if column < cycle % 10 {
        out.put(b" ")
    }
}

// A line of the columns of a window, after a heading.
#[tactic(auto, using(rv_text::proofs::Saying::saying))]
fn write_line<W: Write>(out: &mut Sink<'_, W>, heading: &[u8], window: Window, shown: Columns<'_>)
    requires { window.first + window.cycles < 2 ^ 64 }
    ensures { Says W.contents out.old out.new
        (heading.now ++ (columns window (column_text shown.entry window) ++ codes "\n")) }
{
    out.put(heading);
    write_columns(out, window, shown);
    out.put(b"\n")
}

// The cycle numbers.
#[tactic(auto, unfolding(crate::specs::TextPicture::scale_line))]
fn write_scale<W: Write>(out: &mut Sink<'_, W>, window: Window)
    requires { window.first + window.cycles < 2 ^ 64 }
    ensures { Says W.contents out.old out.new (scale_line window) }
{
    write_line(
        out,
        b"                                                           ",
        window,
        Columns::Scale,
    )
}

fn write_statement<W: Write>(out: &mut Sink<'_, W>, listing: &Listing, row: &Passage)
    ensures { Says W.contents out.old out.new (statement_field (statement_of listing.now row.now)) }
{
    let mut buffer = [0; 8];
    let mut room = ArrayVec::new();
    let text = statement(&mut buffer, &mut room, listing, row);
    out.put_plain(text);
    write_blanks(out, 33, text.len())
}

// The columns that a register and its value leave free.
#[tactic(auto, unfolding(crate::specs::TextPicture::room_after))]
fn write_room_after<W: Write>(out: &mut Sink<'_, W>, row: &Passage)
    ensures { Says W.contents out.old out.new (room_after (written_by row.now.ending)) }
{
    match written(row.ending) {
        Some((register, _)) => {
            let mut buffer = Buffer::new();
            let number = buffer.format(register.number()).len();
            write_blanks(out, 6, number + register_name(register).len())
        }
        None => write_blanks(out, 16, 0),
    }
}

#[tactic(auto, using(rv_text::proofs::Saying::saying), unfolding(crate::specs::TextPicture::written_field))]
fn write_written_field<W: Write>(out: &mut Sink<'_, W>, row: &Passage)
    ensures { Says W.contents out.old out.new (written_field (written_by row.now.ending)) }
{
    write_written(out, row);
    write_room_after(out, row)
}

#[tactic(auto, unfolding(crate::specs::TextPicture::outcome_field))]
fn write_outcome_field<W: Write>(out: &mut Sink<'_, W>, window: Window, row: &Passage)
    ensures { Says W.contents out.old out.new (outcome_field (is_stopped window row.now) (written_by row.now.ending)) }
{
    if window.is_stopped(row) {
        out.put(b"stale            ")
    } else {
        write_written_field(out, row)
    }
}

fn write_pc<W: Write>(out: &mut Sink<'_, W>, pc: u32)
    ensures { Says W.contents out.old out.new (word_text pc ++ codes " ") }
{
    let digits = hexadecimal(pc);
    out.put_all(&[digits.as_slice(), b" "])
}

#[tactic(auto, unfolding(crate::specs::TextPicture::cell_text))]
fn letter(cell: Option<Cell>, is_marked: bool) -> &'static [u8]
    ensures { result.now ≡ cell_text is_marked cell }
{
    match cell {
        Some(cell) => cell.letter_by(is_marked),
        None => b" ",
    }
}

#[tactic(auto, unfolding(crate::specs::TextPicture::cell_at))]
pub(crate) fn write_cell<W: Write>(
    out: &mut Sink<'_, W>,
    window: Window,
    row: &Passage,
    marks: &[Mark],
    column: u64,
)
    requires { window.first + column < 2 ^ 64 }
    ensures { Says W.contents out.old out.new (cell_at window (is_marked marks.now row.now.number) row.now column) }
{
    let is_marked = is_marked(marks, row.number, column);
    out.put(letter(cell_in(row, window.first + column), is_marked))
}

#[tactic(auto, using(rv_text::proofs::Saying::saying), unfolding(crate::specs::TextPicture::row_line))]
fn write_row<W: Write>(
    out: &mut Sink<'_, W>,
    listing: &Listing,
    window: Window,
    marks: &[Mark],
    row: &Passage,
)
    requires { window.first + window.cycles < 2 ^ 64 }
    ensures { Says W.contents out.old out.new (row_line listing.now window marks.now row.now) }
{
    write_pc(out, row.pc);
    write_statement(out, listing, row);
    write_outcome_field(out, window, row);
    let marks = marks_of(marks, row.number);
    write_line(out, b"", window, Columns::Letters { row, marks })
}

#[tactic(auto, using(rv_text::proofs::Saying::saying), unfolding(crate::specs::TextPicture::shown_line))]
fn write_shown<W: Write>(
    out: &mut Sink<'_, W>,
    listing: &Listing,
    window: Window,
    marks: &[Mark],
    row: &Passage,
)
    requires { window.first + window.cycles < 2 ^ 64 }
    ensures { Says W.contents out.old out.new (shown_line listing.now window marks.now row.now) }
{
    if has_cell(window, row) {
        write_row(out, listing, window, marks, row)
    }
}

#[tactic(auto, using(rv_text::proofs::Saying::saying))]
fn write_rows<W: Write>(
    out: &mut Sink<'_, W>,
    listing: &Listing,
    window: Window,
    marks: &[Mark],
    rows: &[Passage],
)
    requires { window.first + window.cycles < 2 ^ 64 }
    ensures { Says W.contents out.old out.new (flat_map (shown_line listing.now window marks.now) rows.now) }
{
    for row in rows {
        write_shown(out, listing, window, marks, row);
    }
}

#[tactic(auto, unfolding(crate::specs::TextPicture::interrupt_at))]
pub(crate) fn write_interrupt_column<W: Write>(
    out: &mut Sink<'_, W>,
    window: Window,
    interrupts: &[u64],
    column: u64,
)
    requires { window.first + column < 2 ^ 64 }
    ensures { Says W.contents out.old out.new (interrupt_at window interrupts.now column) }
{
    if interrupts.contains(&(window.first + column)) {
        out.put(b"!")
    } else {
        out.put(b" ")
    }
}

#[tactic(auto, unfolding(crate::specs::TextPicture::mark_line))]
fn write_mark_line<W: Write>(out: &mut Sink<'_, W>, window: Window, interrupts: &[u64])
    requires { window.first + window.cycles < 2 ^ 64 }
    ensures { Says W.contents out.old out.new (mark_line window interrupts.now) }
{
    write_line(
        out,
        b"interrupts                                                 ",
        window,
        Columns::Marks(interrupts),
    )
}

#[tactic(auto, using(rv_text::proofs::Saying::saying), unfolding(crate::specs::TextPicture::interrupt_line))]
fn write_interrupts<W: Write>(out: &mut Sink<'_, W>, window: Window, interrupts: &[u64])
    requires { window.first + window.cycles < 2 ^ 64 }
    ensures { Says W.contents out.old out.new (interrupt_line window interrupts.now) }
{
    if !interrupts.is_empty() {
        write_mark_line(out, window, interrupts)
    }
}

// What the legend says of the marks of a picture, where it has some.
#[tactic(auto, unfolding(crate::specs::TextPicture::mark_legend))]
fn mark_legend(marks: Option<&[Mark]>) -> &'static [u8]
    ensures { result.now ≡ mark_legend (option_copied marks.entry) }
{
    match marks {
        Some(_) => b"In lower case, or * in place of = ~ x . : on the critical path\n",
        None => b"",
    }
}

#[tactic(auto, using(rv_text::proofs::Saying::saying), unfolding(crate::specs::TextPicture::legend_line, crate::specs::TextPicture::text_picture))]
fn write_picture<W: Write>(
    out: &mut Sink<'_, W>,
    listing: &Listing,
    window: Window,
    marks: Option<&[Mark]>,
    rows: &[Passage],
    interrupts: &[u64],
)
    requires { window.first + window.cycles < 2 ^ 64 }
    ensures { Says W.contents out.old out.new
        (text_picture rows.now interrupts.now (option_copied marks.entry) listing.now window) }
{
    write_scale(out, window);
    write_rows(out, listing, window, marks_in(marks), rows);
    write_interrupts(out, window, interrupts);
    write_over(out, b"", window, b"\n");
    out.put(
        b"F fetch  D dispatch  I issue  = execution  ~ wait for the bus  B broadcast  C retirement  T trap  x squash  . wait  ! interrupt\n",
    );
    out.put(mark_legend(marks))
}

/// Writes a picture for a terminal: a line of cycle numbers, a line for each instruction that shows something in the
/// window, one for the interrupts if there are any, one that says that the run ended before the window where it did, and a
/// legend. Where there are marks, even none, the letters of marked cells are in lower case, and the legend says so. The window ends
/// below cycle 2^64. Asks for no memory. Fails by `WriteFailed` alone, and what was written is then a beginning of the picture.
#[tactic(auto, using(rv_text::proofs::Saying::says_written))]
pub fn write_picture_text<W: Write>(
    rows: &[Passage],
    interrupts: &[u64],
    marks: Option<&[Mark]>,
    listing: &Listing,
    window: Window,
    writer: &mut W,
) -> Result<(), ReportError>
    requires { window.first + window.cycles < 2 ^ 64 }
    ensures { IsWritten result (W.contents writer.old) (W.contents writer.new)
        (text_picture rows.now interrupts.now (option_copied marks.entry) listing.now window) }
{
    let mut out = Sink::new(writer);
    write_picture(&mut out, listing, window, marks, rows, interrupts);
    out.outcome()
}
