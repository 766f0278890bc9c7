ghost use Rattle.std.specs.Prelude.{◌≡◌, Err};
ghost use Rattle.rv_hardware.specs.Guided.{guided};
ghost use Rattle.rv_states.specs.States.{IsStates};
ghost use Rattle.rv_view.specs.Run.{HasOneText};
ghost use Rattle.rv_text.specs.IsText.{IsText};

use crate::form::Form;
use crate::running::run_shown;
use rv_arch::Stop;
use rv_front::{DescribedPredictor, Predictor};
use rv_isa::Arrivals;
use rv_source::Listing;
use rv_text::TextError;
use rv_view::begin_table;
use rv_watch::Simulated;
use std::alloc::Global;
use std::io::Write;

/// Runs a pipeline that a predictor guides, each cycle with the lines of its number, up to a breakpoint, a stale word,
/// exhaustion or `limit` cycles, and writes its states line by line as JSON: the machine and the program; after the first `from`
/// cycles memory, the cache, what the machine's predictor knows of the run, and the rest of the hardware; each further cycle as it
/// comes, what happened in it, the hardware after it, and what the predictor learned and answered; and at last after how many
/// cycles the run ended, and why. As a page it stands in a viewer for browsers. An instruction's number counts from 0 in order of
/// fetch. Asks for no memory once it has written. Answers why the run ended.
///
/// # Errors
///
/// `Memory` when out of memory: then nothing was run and nothing was written. `WriteFailed` where a write fails: then what was
/// written is a beginning of the text, and the run is done to its end.
pub fn write_states<S: Simulated, W: Write>(
    alloc: Global,
    pipeline: &mut S,
    predictor: &mut dyn Predictor,
    arrivals: &Arrivals,
    from: u64,
    limit: u64,
    form: Form,
    listing: &Listing,
    writer: &mut W,
) -> Result<Stop, TextError>
    ensures written { IsText (IsStates arrivals.now from limit form listing.now
        (guided (S.hardware pipeline.old) (known predictor.old))
        (guided (S.hardware pipeline.new) (known predictor.new)))
        result (W.contents writer.old) (W.contents writer.new) }
    // With a described predictor the states are a function of what they are the states of.
    ensures one_text { HasOneText limit (IsStates arrivals.now from limit form listing.now) }
    ensures not_run { result ≡ Err TextError.Memory →
        (S.hardware pipeline.new ≡ S.hardware pipeline.old) × (known predictor.new ≡ known predictor.old) }
{
    let Ok(table) = begin_table(alloc, pipeline) else {
        return Err(TextError::Memory);
    };
    let Ok(steps) = Vec::with_capacity(alloc, 8) else {
        return Err(TextError::Memory);
    };
    // Of hardware that a reset and cycles lead to, the predictor is one that a description can say.
    let hardware = pipeline.shown();
    let described = hardware.values.predictor;
    let Ok(untaught) = DescribedPredictor::new(alloc, described.kind, described.entries) else {
        return Err(TextError::Memory);
    };
    let shown = run_shown(
        pipeline, predictor, arrivals, from, limit, form, listing, table, steps, untaught, writer,
    );
    if shown.has_failed {
        Err(TextError::WriteFailed)
    } else {
        Ok(shown.stop)
    }
}
