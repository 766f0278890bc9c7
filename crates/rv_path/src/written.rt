ghost use Rattle.std.specs.Prelude.{◌≡◌, Err};
ghost use Rattle.rv_hardware.specs.Guided.{guided};
ghost use Rattle.rv_causes.specs.Causes.{CausesAreSo};
ghost use Rattle.rv_path.specs.Run.{IsPath};
ghost use Rattle.rv_causes.specs.Within.{ComesInTime};
ghost use Rattle.rv_text.specs.IsText.{IsText};
ghost use Rattle.rv_view.specs.Run.{HasOneText, HasRun};

use crate::running::run_accounted;
use rv_arch::Stop;
use rv_causes::{Ranks, write_account};
use rv_front::Predictor;
use rv_isa::Arrivals;
use rv_source::Listing;
use rv_text::{ReportError, TextError};
use rv_watch::Simulated;
use std::alloc::Global;
use std::io::Write;

/// Runs a pipeline that a predictor guides, each cycle with the lines of its number, up to a breakpoint, a stale word,
/// exhaustion or so many cycles, and then writes the critical path of the run, that to its last retirement, trap or
/// interrupt. Each event of the path waited last for the one before it: a dispatch for the fetch or for room, an issue
/// for an operand or a unit, a broadcast for the execution or the bus, a commit for the result or the older
/// instructions. So each cycle of the run is on account of exactly one cause. The text has the number of cycles, then
/// how many of them came before the first event and after the last step, and then those of each cause, the greatest
/// first, each with its share in percent; and then the ten lines of the program with the most cycles, each with the
/// three greatest of their causes. A cycle is on account of the instruction that waited, or that sent the fetch
/// elsewhere. The listing is that of the program, whose lines are shown. Answers why the run ended.
///
/// # Errors
///
/// `Memory` when out of memory: then nothing was written, the run was cut short or not begun, and the pipeline stands
/// at the end of a cycle. `WriteFailed` where a write fails: then what was written is a beginning of the text, and the
/// run is done to its end.
pub fn write_path<S: Simulated, W: Write>(
    alloc: Global,
    pipeline: &mut S,
    predictor: &mut dyn Predictor,
    arrivals: &Arrivals,
    limit: u64,
    listing: &Listing,
    writer: &mut W,
) -> Result<Stop, TextError>
    ensures written { IsText (IsPath arrivals.now limit listing.now
        (guided (S.hardware pipeline.old) (known predictor.old))
        (guided (S.hardware pipeline.new) (known predictor.new)))
        result (W.contents writer.old) (W.contents writer.new) }
    // With a described predictor the path is a function of what it is the path of.
    ensures one_path { HasOneText limit (IsPath arrivals.now limit listing.now) }
    // No event waited for one that came after it: all that is known of a run lies within its cycles.
    ensures in_time { ComesInTime }
    // Each event waited for an older one, and what the cause that is named says is so of the two.
    ensures causes { CausesAreSo }
    ensures run { result ≡ Err TextError.Memory → HasRun arrivals.now
        (guided (S.hardware pipeline.old) (known predictor.old))
        (guided (S.hardware pipeline.new) (known predictor.new)) }
{
    let Ok(mut ranks) = Ranks::new(alloc) else {
        return Err(TextError::Memory);
    };
    let Ok(done) = run_accounted(alloc, pipeline, predictor, arrivals, limit) else {
        return Err(TextError::Memory);
    };
    match write_account(writer, listing, done.cycles, &done.account, &mut ranks) {
        Ok(()) => Ok(done.stop),
        Err(ReportError::WriteFailed) => Err(TextError::WriteFailed),
    }
}
