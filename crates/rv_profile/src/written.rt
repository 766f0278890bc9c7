ghost use Rattle.std.specs.Prelude.{◌≡◌, Err, option_copied};
ghost use Rattle.rv_hardware.specs.Guided.{guided};
ghost use Rattle.rv_profile.specs.Run.{IsProfile};
ghost use Rattle.rv_text.specs.IsText.{IsText};
ghost use Rattle.rv_view.specs.Run.{HasOneText, HasRun};

use crate::running::run_profiled;
use crate::text::write_table;
use rv_arch::Stop;
use rv_front::Predictor;
use rv_isa::{Arrivals, Description};
use rv_path::PathAccount;
use rv_source::Listing;
use rv_text::{ReportError, TextError};
use rv_watch::Simulated;
use std::alloc::Global;
use std::io::Write;

/// Runs a pipeline that a predictor guides, each cycle with the lines of its number, up to a breakpoint, a stale word, exhaustion
/// or so many cycles, and then writes the table of its instructions: a line with the names of the columns, and a line for each
/// address that was fetched, in order of address, with a tab between two cells. It has the number and the statement of the line
/// that fills the word, which are empty where none does; how often the instruction was fetched, retired and was squashed; of
/// those that retired the mean and the greatest number of cycles from fetch to dispatch, to issue, to broadcast and to
/// retirement, or hyphens where none came to both; their hits and misses, where they are loads; their wrong predictions; and the
/// cycles that left the instruction at the head of the reorder buffer. Where a path is shown, the last cell has the cycles of the
/// address on it. The description says what loads cost. Answers why the run ended.
///
/// # Errors
///
/// `Memory` when out of memory: then nothing was written, the run was cut short or not begun, and the pipeline stands
/// at the end of a cycle. `WriteFailed` where a write fails: then what was written is a beginning of the table, and the
/// run is done to its end.
pub fn write_profile<S: Simulated, W: Write>(
    alloc: Global,
    pipeline: &mut S,
    predictor: &mut dyn Predictor,
    description: &Description,
    arrivals: &Arrivals,
    limit: u64,
    path: Option<&PathAccount>,
    listing: &Listing,
    writer: &mut W,
) -> Result<Stop, TextError>
    ensures written { IsText (IsProfile arrivals.now limit description.now (option_copied path.entry) listing.now
        (guided (S.hardware pipeline.old) (known predictor.old))
        (guided (S.hardware pipeline.new) (known predictor.new)))
        result (W.contents writer.old) (W.contents writer.new) }
    // With a described predictor a profile is a function of what it is a profile of.
    ensures one_profile { HasOneText limit
        (IsProfile arrivals.now limit description.now (option_copied path.entry) listing.now) }
    ensures run { result ≡ Err TextError.Memory → HasRun arrivals.now
        (guided (S.hardware pipeline.old) (known predictor.old))
        (guided (S.hardware pipeline.new) (known predictor.new)) }
{
    let Ok(counted) = run_profiled(alloc, pipeline, predictor, description, arrivals, limit) else {
        return Err(TextError::Memory);
    };
    match write_table(writer, listing, path, counted.profile.words()) {
        Ok(()) => Ok(counted.stop),
        Err(ReportError::WriteFailed) => Err(TextError::WriteFailed),
    }
}
