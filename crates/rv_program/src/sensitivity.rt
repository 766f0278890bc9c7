ghost use Rattle.std.specs.Prelude.{◌≡◌, ◌^◌, ◌≤◌, IfOk, IfErr};
ghost use Rattle.std.specs.List.{AllZip};
ghost use Rattle.rv_program.specs.Answer.{IsAnswer};
ghost use Rattle.rv_program.specs.Comparison.{IsAtMostOneText};
ghost use Rattle.rv_program.specs.Sensitivity.{AreRows, IsSensitivityTable, IsTried};

use crate::compare::run_on;
use rv_job::{Job, SimError};
use rv_report::{TableOptions, TriedRun, in_order, write_sensitivity};
use rv_sensitivity::{Change, Neighbour, neighbours};
use std::alloc::Global;
use std::io::Write;

// Runs a job on a neighbour of its machine.
fn try_neighbour(
    alloc: Global,
    job: &Job,
    neighbour: &Neighbour,
    options: &TableOptions,
) -> Result<TriedRun, SimError>
    ensures run { IfOk result (IsTried options.now job.now neighbour.now) }
    ensures errors { IfErr result (λ e. e ≡ SimError.Memory) }
{
    match run_on(alloc, job, &neighbour.machine, options) {
        Ok(run) => Ok(TriedRun {
            neighbour: *neighbour,
            cycles: run.totals.cycles,
            stop: run.totals.stop,
        }),
        Err(error) => Err(error),
    }
}

// Runs a job on each of some neighbours of its machine.
fn try_each(
    alloc: Global,
    job: &Job,
    neighbours: &[Neighbour],
    options: &TableOptions,
) -> Result<Vec<TriedRun>, SimError>
    ensures runs { IfOk result (λ runs. AllZip (IsTried options.now job.now) neighbours.now runs.items) }
    ensures errors { IfErr result (λ e. e ≡ SimError.Memory) }
{
    let mut runs = Vec::new(alloc);
    for neighbour in neighbours {
        let Ok(ended) = try_neighbour(alloc, job, neighbour, options) else {
            return Err(SimError::Memory);
        };
        let Ok(()) = runs.push(ended) else {
            return Err(SimError::Memory);
        };
    }
    Ok(runs)
}

// Runs a job on its machine's neighbours, and puts the runs in the order of their cycles.
fn try_in_order(
    alloc: Global,
    job: &Job,
    own: &[Change],
    options: &TableOptions,
) -> Result<Vec<TriedRun>, SimError>
    ensures rows { IfOk result (λ rows. AreRows options.now job.now own.now rows.items) }
    ensures errors { IfErr result (λ e. e ≡ SimError.Memory) }
{
    let Ok(neighbours) = neighbours(alloc, &job.description, own) else {
        return Err(SimError::Memory);
    };
    let Ok(tried) = try_each(alloc, job, neighbours.as_slice(), options) else {
        return Err(SimError::Memory);
    };
    match in_order(alloc, tried.as_slice()) {
        Ok(rows) => Ok(rows),
        Err(_) => Err(SimError::Memory),
    }
}

// Runs a job on its machine and on the neighbours of it, and writes the table.
fn write_tried<W: Write>(
    alloc: Global,
    job: &Job,
    own: &[Change],
    options: &TableOptions,
    writer: &mut W,
) -> Result<(), SimError>
    ensures { IsAnswer (λ _ text. IsSensitivityTable job.now own.now options.now text) result (W.contents writer.old)
        (W.contents writer.new) }
{
    let Ok(ended) = run_on(alloc, job, &job.description, options) else {
        return Err(SimError::Memory);
    };
    let Ok(tried) = try_in_order(alloc, job, own, options) else {
        return Err(SimError::Memory);
    };
    let rows = tried.as_slice();
    write_sensitivity(&job.description, &ended, rows, writer)?;
    Ok(())
}

/// Runs a job on the machine that it describes and on each of that machine's neighbours, one after the other, each up to a
/// breakpoint, a stale word or the limit of cycles, and writes a table of the cycles that they took: a line for the machine as
/// it is, and one for each neighbour, the fewest cycles first. `own` are changes of a user's own, which make further
/// neighbours; they leave RAM as it is. Asks for no memory once it has written.
///
/// Fails by `Memory`, and has written nothing then, or by `WriteFailed`, and has written a beginning of the table.
pub fn sensitivity<W: Write>(
    alloc: Global,
    job: &Job,
    own: &[Change],
    options: &TableOptions,
    writer: &mut W,
) -> Result<(), SimError>
    ensures table { IsAnswer (λ _ text. IsSensitivityTable job.now own.now options.now text) result
        (W.contents writer.old) (W.contents writer.new) }
    // The table is a function of the job and the changes: each machine has the predictor that it describes.
    ensures one_table { options.now.limit ≤ 2 ^ 40 → IsAtMostOneText (IsSensitivityTable job.now own.now options.now) }
{
    write_tried(alloc, job, own, options, writer)
}
