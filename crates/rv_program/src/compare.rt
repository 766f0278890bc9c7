ghost use Rattle.std.specs.Prelude.{◌≡◌, ◌^◌, ◌≤◌, IfOk, IfErr};
ghost use Rattle.rv_program.specs.Answer.{IsAnswer};
ghost use Rattle.rv_program.specs.Comparison.{AreRuns, IsAtMostOneText, IsComparisonTable, IsRunOn};
ghost use Rattle.rv_program.specs.CoreReport.{untaught_of};

use crate::boxed_predictor::{BoxedPredictor, boxed};
use rv_core::Pipeline;
use rv_isa::{Description, PredictorValues};
use rv_job::{Comparison, Job, SimError};
use rv_report::{ComparedRun, TableOptions, run_totals, write_table};
use std::alloc::Global;
use std::io::Write;

// Runs a job on a machine, guided by a predictor that is the described one, up to a breakpoint, a stale word or a limit of
// cycles.
fn run_guided(
    alloc: Global,
    job: &Job,
    machine: &Description,
    values: PredictorValues,
    predictor: BoxedPredictor,
    options: &TableOptions,
) -> Result<ComparedRun, SimError>
    requires described { known predictor.predictor ≡ untaught_of values }
    requires own { values ≡ machine.now.predictor }
    ensures run { IfOk result (IsRunOn options.now job.now machine.now) }
    ensures errors { IfErr result (λ e. e ≡ SimError.Memory) }
{
    // The image of a job fits, so that memory alone can be wanting.
    let Ok(pipeline) = Pipeline::new(alloc, machine, &job.image) else {
        return Err(SimError::Memory);
    };
    let mut predictor = predictor;
    let ended = run_totals(
        alloc,
        pipeline,
        &mut *predictor.predictor,
        &job.arrivals,
        options,
    );
    match ended {
        Ok(run) => Ok(run),
        Err(_) => Err(SimError::Memory),
    }
}

/// Runs a job on a machine whose RAM is that of the job's own, with the predictor that it describes. The only error is
/// out of memory.
pub(crate) fn run_on(
    alloc: Global,
    job: &Job,
    machine: &Description,
    options: &TableOptions,
) -> Result<ComparedRun, SimError>
    ensures run { IfOk result (IsRunOn options.now job.now machine.now) }
    ensures errors { IfErr result (λ e. e ≡ SimError.Memory) }
{
    let values = machine.values().predictor;
    match boxed(alloc, values) {
        Ok(predictor) => run_guided(
            alloc,
            job,
            machine,
            values,
            BoxedPredictor { predictor },
            options,
        ),
        Err(_) => Err(SimError::Memory),
    }
}

// Runs jobs one after the other.
fn run_each(
    alloc: Global,
    jobs: &[Job],
    options: &TableOptions,
) -> Result<Vec<ComparedRun>, SimError>
    ensures runs { IfOk result (λ runs. AreRuns options.now jobs.now runs.items) }
    ensures errors { IfErr result (λ e. e ≡ SimError.Memory) }
{
    let mut runs = Vec::new(alloc);
    for job in jobs {
        let Ok(ended) = run_on(alloc, job, &job.description, options) else {
            return Err(SimError::Memory);
        };
        let Ok(()) = runs.push(ended) else {
            return Err(SimError::Memory);
        };
    }
    Ok(runs)
}

/// Runs the program of a comparison on each of its machines, one after the other, each up to a breakpoint, a stale word or
/// the limit of cycles, and writes a table of what the runs came to and of what is to be shown of their ends: a line for each
/// machine, in their order. Asks for no
/// memory once it has written.
///
/// Fails by `Memory`, and has written nothing then, or by `WriteFailed`, and has written a beginning of the table.
pub fn compare<W: Write>(
    alloc: Global,
    comparison: &Comparison,
    options: &TableOptions,
    writer: &mut W,
) -> Result<(), SimError>
    ensures table { IsAnswer (λ _ text. IsComparisonTable comparison.now options.now text) result
        (W.contents writer.old) (W.contents writer.new) }
    // The table is a function of the comparison: each machine has the predictor that it describes.
    ensures one_table { options.now.limit ≤ 2 ^ 40 → IsAtMostOneText (IsComparisonTable comparison.now options.now) }
{
    let jobs = comparison.jobs.as_slice();
    let Ok(runs) = run_each(alloc, jobs, options) else {
        return Err(SimError::Memory);
    };
    let names = comparison.names.as_slice();
    let rows = runs.as_slice();
    write_table(&options.shown, names, rows, writer)?;
    Ok(())
}
