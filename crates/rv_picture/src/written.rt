ghost use Rattle.std.specs.Prelude.{◌≡◌, ◌+◌, ◌<◌, ◌^◌, Err, option_copied};
ghost use Rattle.rv_hardware.specs.Guided.{guided};
ghost use Rattle.rv_passage.specs.Table.{passages_of};
ghost use Rattle.rv_drawing.specs.Over.{over_of};
ghost use Rattle.rv_picture.specs.Picture.{IsPicture, picture_of, with_rows};
ghost use Rattle.rv_text.specs.IsText.{IsText};
ghost use Rattle.rv_text.specs.Written.{IsWritten};
ghost use Rattle.rv_view.specs.Run.{HasOneText, HasRun};

use crate::picture::{Form, Rows, RunEnd, View};
use crate::recording::{Recording, record_window};
use rv_drawing::{Mark, write_picture_svg, write_picture_text};
use rv_front::Predictor;
use rv_isa::Arrivals;
use rv_passage::Table;
use rv_source::Listing;
use rv_text::{ReportError, TextError};
use rv_watch::Simulated;
use std::alloc::Global;
use std::io::Write;

/// Runs a pipeline that a predictor guides up to the cycles in view, each with the lines of its number, and then through
/// these, and writes the picture of them, with the texts of a listing. A breakpoint, a stale word or exhaustion ends the
/// run; where that is before the cycles in view, none is shown. With marks the cells that they name are marked. Answers how the
/// run ended.
///
/// # Errors
///
/// `Memory` when out of memory: then nothing was written, and the pipeline stands after some of the cycles. `WriteFailed`
/// where a write fails: then what was written is a beginning of the picture.
pub fn write_picture<S: Simulated, W: Write>(
    alloc: Global,
    pipeline: &mut S,
    predictor: &mut dyn Predictor,
    arrivals: &Arrivals,
    view: View,
    marks: Option<&[Mark]>,
    listing: &Listing,
    writer: &mut W,
) -> Result<RunEnd, TextError>
    ensures written { IsText (IsPicture arrivals.now view (option_copied marks.entry) listing.now
        (guided (S.hardware pipeline.old) (known predictor.old))
        (guided (S.hardware pipeline.new) (known predictor.new)))
        result (W.contents writer.old) (W.contents writer.new) }
    // With a described predictor a picture is a function of what it is a picture of.
    ensures one_picture { HasOneText (view.from + view.cycles)
        (IsPicture arrivals.now view (option_copied marks.entry) listing.now) }
    ensures run { result ≡ Err TextError.Memory → HasRun arrivals.now
        (guided (S.hardware pipeline.old) (known predictor.old))
        (guided (S.hardware pipeline.new) (known predictor.new)) }
{
    let View { from, cycles, .. } = view;
    let Ok(recording) = record_window(alloc, pipeline, predictor, arrivals, from, cycles) else {
        return Err(TextError::Memory);
    };
    // No pipeline counts more cycles than a window can number.
    let _ = pipeline.is_exhausted();
    let mut recording = recording;
    choose_rows(view.rows, &mut recording.table);
    let end = end_of(&recording);
    match write_recording(&recording, view.form, marks, listing, writer) {
        Ok(()) => Ok(end),
        Err(ReportError::WriteFailed) => Err(TextError::WriteFailed),
    }
}

fn choose_rows(rows: Rows, table: &mut Table)
    ensures { passages_of table.new ≡ with_rows rows (passages_of table.old) }
{
    match rows {
        Rows::All => {}
        Rows::Unsquashed => table.drop_squashed(),
    }
}

fn end_of(recording: &Recording) -> RunEnd
    ensures { result ≡ record { stop = recording.now.stop; over = over_of recording.now.window } }
{
    RunEnd {
        stop: recording.stop,
        over: recording.window.over(),
    }
}

fn write_recording<W: Write>(
    recording: &Recording,
    form: Form,
    marks: Option<&[Mark]>,
    listing: &Listing,
    writer: &mut W,
) -> Result<(), ReportError>
    requires { recording.now.window.first + recording.now.window.cycles < 2 ^ 64 }
    ensures { IsWritten result (W.contents writer.old) (W.contents writer.new)
        (picture_of form (passages_of recording.now.table) recording.now.stalls.items
        (option_copied marks.entry) listing.now recording.now.window) }
{
    let rows = recording.table.rows();
    let interrupts = recording.table.interrupts();
    match form {
        Form::Text => write_picture_text(
            rows,
            interrupts,
            marks,
            listing,
            recording.window,
            writer,
        ),
        Form::Svg => {
            let stalls = recording.stalls.as_slice();
            write_picture_svg(
                rows,
                interrupts,
                stalls,
                marks,
                listing,
                recording.window,
                writer,
            )
        }
    }
}
