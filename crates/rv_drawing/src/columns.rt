ghost use Rattle.std.specs.Prelude.{◌+◌, ◌<◌, ◌^◌};
ghost use Rattle.rv_drawing.specs.ColumnText.{column_text};
ghost use Rattle.rv_drawing.specs.Columns.{columns};
ghost use Rattle.rv_text.specs.Said.{Says};

use crate::boxes::write_box_at;
use crate::mark::Mark;
use crate::marks::{write_number, write_tenth};
use crate::text::{write_cell, write_interrupt_column, write_scale_column};
use crate::window::Window;
use rv_hardware::Stall;
use rv_passage::Passage;
use rv_text::Sink;
use std::io::Write;

/// What stands in the columns of a window.
#[derive(Clone, Copy)]
pub(crate) enum Columns<'a> {
    /// The cycle numbers of a terminal.
    Scale,
    /// The letters of an instruction, with its marks.
    Letters {
        row: &'a Passage,
        marks: &'a [Mark],
    },
    /// The marks of the cycles of interrupts.
    Marks(&'a [u64]),
    /// The cycle numbers of an SVG with so many rows.
    Tenths {
        rows: usize,
    },
    /// The cycle numbers again, further down in an SVG.
    Numbers,
    /// The boxes of an instruction among others, with what the oldest fetched word waited for in each cycle, and its marks.
    Boxes {
        row: &'a Passage,
        rows: &'a [Passage],
        stalls: &'a [Option<Stall>],
        marks: &'a [Mark],
    },
}

fn write_column<W: Write>(out: &mut Sink<'_, W>, window: Window, shown: Columns<'_>, column: u64)
    requires { window.first + column < 2 ^ 64 }
    ensures { Says W.contents out.old out.new (column_text shown.entry window column) }
{
    match shown {
        Columns::Scale => write_scale_column(out, window, column),
        Columns::Letters { row, marks } => write_cell(out, window, row, marks, column),
        Columns::Marks(interrupts) => write_interrupt_column(out, window, interrupts, column),
        Columns::Tenths { rows } => write_tenth(out, window, rows, column),
        Columns::Numbers => write_number(out, window, column),
        Columns::Boxes {
            row,
            rows,
            stalls,
            marks,
        } => write_box_at(out, window, rows, stalls, row, marks, column),
    }
}

/// Writes what stands in each column of a window, from its first cycle on.
#[tactic(auto, using(rv_text::proofs::Saying::saying), unfolding(crate::specs::Columns::columns))]
pub(crate) fn write_columns<W: Write>(out: &mut Sink<'_, W>, window: Window, shown: Columns<'_>)
    requires { window.first + window.cycles < 2 ^ 64 }
    ensures { Says W.contents out.old out.new (columns window (column_text shown.entry window)) }
{
    for column in 0..window.cycles {
        write_column(out, window, shown, column);
    }
}
