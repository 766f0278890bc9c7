ghost use Rattle.std.specs.Prelude.{◌≡◌, Err};
ghost use Rattle.rv_hardware.specs.Guided.{guided};
ghost use Rattle.rv_log.specs.Log.{IsLog};
ghost use Rattle.rv_view.specs.Run.{HasOneText};
ghost use Rattle.rv_text.specs.IsText.{IsText};

use crate::running::run_logged;
use rv_arch::Stop;
use rv_front::Predictor;
use rv_isa::Arrivals;
use rv_source::Listing;
use rv_text::TextError;
use rv_view::Following;
use rv_watch::Simulated;
use std::alloc::Global;
use std::io::Write;

/// Runs a pipeline that a predictor guides, each cycle with the lines of its number, up to a breakpoint, a stale word,
/// exhaustion or so many cycles, and writes the log of the run in Konata's format, version 0004, each cycle as it comes: when
/// each instruction was fetched (F), dispatched (D), issued (X), had a result that waited for the bus (W), was broadcast (B)
/// and retired (C), or that it was flushed, which a trap is too; and on whose results it depends, at their broadcast. An
/// instruction's number counts from 0 in order of fetch; its label is its address and its statement by the listing; its
/// details are how it ended, what it wrote, what its execution cost, what was predicted after a branch or a jump, and what it
/// waited for, and in how many cycles each; before them, for what room it waited as the oldest in the fetch buffer. Asks for no
/// memory once it has written. Answers why the run ended.
///
/// # Errors
///
/// `Memory` when out of memory: then nothing was run and nothing was written. `WriteFailed` where a write fails: then what was
/// written is a beginning of the log, and the run is done to its end.
pub fn write_log<S: Simulated, W: Write>(
    alloc: Global,
    pipeline: &mut S,
    predictor: &mut dyn Predictor,
    arrivals: &Arrivals,
    limit: u64,
    listing: &Listing,
    writer: &mut W,
) -> Result<Stop, TextError>
    ensures written { IsText (IsLog arrivals.now limit listing.now
        (guided (S.hardware pipeline.old) (known predictor.old))
        (guided (S.hardware pipeline.new) (known predictor.new)))
        result (W.contents writer.old) (W.contents writer.new) }
    // With a described predictor a log is a function of what it is a log of.
    ensures one_log { HasOneText limit (IsLog arrivals.now limit listing.now) }
    ensures not_run { result ≡ Err TextError.Memory →
        (S.hardware pipeline.new ≡ S.hardware pipeline.old) × (known predictor.new ≡ known predictor.old) }
{
    let Ok(following) = Following::begin(alloc, pipeline) else {
        return Err(TextError::Memory);
    };
    let logged = run_logged(
        pipeline, predictor, arrivals, limit, listing, following, writer,
    );
    if logged.has_failed {
        Err(TextError::WriteFailed)
    } else {
        Ok(logged.stop)
    }
}
