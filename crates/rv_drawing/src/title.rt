ghost use Rattle.std.specs.Prelude.{◌++◌};
ghost use Rattle.rv_isa.specs.Cause.{code_of};
ghost use Rattle.rv_drawing.specs.Title.{correction_text, prediction_title, row_end};
ghost use Rattle.rv_drawing.specs.Title.{row_title, title_of_row, trap_title};
ghost use Rattle.rv_drawing.specs.Stopped.{is_stopped};
ghost use Rattle.rv_text.specs.Line.{word_text};
ghost use Rattle.rv_text.specs.Said.{Says};

use crate::window::Window;
use itoa::Buffer;
use rv_isa::Cause;
use rv_passage::{Ending, Passage};
use rv_text::{Sink, hexadecimal};
use std::io::Write;

/// Writes what was predicted after a branch or a jump between two texts, and where the program went on, if not there.
#[tactic(auto, unfolding(crate::specs::Title::correction_text))]
pub fn put_correction<W: Write>(
    out: &mut Sink<'_, W>,
    before: &[u8],
    predicted: u32,
    correction: Option<u32>,
    after: &[u8],
)
    ensures { Says W.contents out.old out.new
        (before.now ++ (word_text predicted ++ (correction_text correction ++ after.now))) }
{
    let predicted = hexadecimal(predicted);
    match correction {
        Some(next) => {
            let next = hexadecimal(next);
            out.put_all(&[
                before,
                predicted.as_slice(),
                b", but went on at ",
                next.as_slice(),
                after,
            ])
        }
        None => out.put_all(&[before, predicted.as_slice(), after]),
    }
}

#[tactic(auto, using(rv_text::proofs::Saying::saying), unfolding(crate::specs::Title::prediction_title, crate::specs::Title::predicted_title))]
fn write_prediction<W: Write>(out: &mut Sink<'_, W>, row: &Passage)
    ensures { Says W.contents out.old out.new (prediction_title row.now) }
{
    if let Some(predicted) = row.prediction() {
        put_correction(
            out,
            b"<title>predicted ",
            predicted,
            row.correction(),
            b"</title>\n",
        )
    }
}

fn write_trap<W: Write>(out: &mut Sink<'_, W>, cause: Cause)
    ensures { Says W.contents out.old out.new (trap_title (code_of cause)) }
{
    let mut buffer = Buffer::new();
    let code = buffer.format(cause.code()).as_bytes();
    out.put_all(&[b"<title>trapped, cause ", code, b"</title>\n"])
}

#[tactic(auto, unfolding(crate::specs::Title::row_title))]
fn write_title<W: Write>(out: &mut Sink<'_, W>, row: &Passage)
    ensures { Says W.contents out.old out.new (row_title row.now.ending row.now) }
{
    match row.ending {
        Ending::Trapped { cause, .. } => write_trap(out, cause),
        Ending::InFlight | Ending::Retired { .. } | Ending::Squashed { .. } => {
            write_prediction(out, row)
        }
    }
}

#[tactic(auto, unfolding(crate::specs::Title::title_of_row, crate::specs::Title::stale_title))]
fn write_title_of_row<W: Write>(out: &mut Sink<'_, W>, window: Window, row: &Passage)
    ensures { Says W.contents out.old out.new (title_of_row (is_stopped window row.now) row.now) }
{
    if window.is_stopped(row) {
        out.put(b"<title>the run ended here: the word is stale</title>\n")
    } else {
        write_title(out, row)
    }
}

/// Writes the end of a row, with its tip: what was predicted after a branch or a jump, the cause of a trap, or that the run ended
/// there.
#[tactic(auto, using(rv_text::proofs::Saying::saying), unfolding(crate::specs::Title::row_end))]
pub(crate) fn write_row_end<W: Write>(out: &mut Sink<'_, W>, window: Window, row: &Passage)
    ensures { Says W.contents out.old out.new (row_end (is_stopped window row.now) row.now) }
{
    write_title_of_row(out, window, row);
    out.put(b"</g>\n")
}
