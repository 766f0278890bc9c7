ghost use Rattle.std.specs.Prelude.{◌^◌, ◌≤◌};
ghost use Rattle.rv_front.specs.Predictors.{guide_of};
ghost use Rattle.rv_front.specs.declared.predictors.DescribedPredictor.{DescribedPredictor};
ghost use Rattle.rv_program.specs.Answer.{IsAnswer};
ghost use Rattle.rv_program.specs.CoreReport.{IsAtMostOne, IsSimulation};

use crate::boxed_predictor::BoxedPredictor;
use crate::reference::with_dump;
use rv_arch::Stop;
use rv_core::Pipeline;
use rv_job::{Job, SimError};
use rv_report::{Options, write_run};
use std::alloc::Global;
use std::io::Write;

/// Simulates a job on the core that it describes, with the job's arrivals at the numbers of the
/// cycles, up to a breakpoint, a stale word or the options' limit of cycles, and writes the report of
/// the run, with the dump that the job's description asks for: the rows of a trace as the cycles come, and the rest at the
/// end. Asks for no memory once it has written. Answers why the run ended.
///
/// Fails by `Memory`, and has written nothing then, or by `WriteFailed`, and has written a beginning
/// of the report.
pub fn simulate<W: Write>(
    alloc: Global,
    job: &Job,
    predictor: BoxedPredictor,
    options: &Options,
    writer: &mut W,
) -> Result<Stop, SimError>
    ensures report { IsAnswer (IsSimulation job.now (known predictor.predictor) options.now) result
        (W.contents writer.old) (W.contents writer.new) }
    // With a described predictor the report is a function of the job.
    ensures one_report { (p : DescribedPredictor) → options.now.limit ≤ 2 ^ 40 →
        IsAtMostOne (IsSimulation job.now (guide_of p) options.now) }
{
    let options = with_dump(&job.description.values().report, options);
    // The image of a job fits, so that memory alone can be wanting.
    let Ok(pipeline) = Pipeline::new(alloc, &job.description, &job.image) else {
        return Err(SimError::Memory);
    };
    let steps = Vec::with_capacity(alloc, 8)?;
    let mut predictor = predictor;
    Ok(write_run(
        pipeline,
        &mut *predictor.predictor,
        &job.arrivals,
        &options,
        steps,
        writer,
    )?)
}
