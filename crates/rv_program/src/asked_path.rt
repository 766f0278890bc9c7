//! The critical path of a job's run, where a view is to show it.
ghost use Rattle.std.specs.Prelude.{◌≡◌, IfOk, option_map};
ghost use Rattle.rv_program.specs.AskedPath.{AreMarksOf, IsAccountOf, IsAskedFor};
ghost use Rattle.rv_program.specs.CoreReport.{untaught_of};

use crate::boxed_predictor::{BoxedPredictor, boxed};
use rv_core::Pipeline;
use rv_drawing::Mark;
use rv_isa::PredictorValues;
use rv_job::Job;
use rv_path::{PathAccount, account_path, path_marks};
use rv_picture::View;
use std::alloc::{AllocError, Global};

// The marks of the path of a run that the described predictor guides.
fn marks_guided(
    alloc: Global,
    job: &Job,
    values: PredictorValues,
    predictor: BoxedPredictor,
    view: View,
) -> Result<Vec<Mark>, AllocError>
    requires described { known predictor.predictor ≡ untaught_of values }
    requires own { values ≡ job.now.description.predictor }
    ensures { IfOk result (λ marks. AreMarksOf job.now view marks.items) }
{
    // The image of a job fits, so that memory alone can be wanting.
    let Ok(mut pipeline) = Pipeline::new(alloc, &job.description, &job.image) else {
        return Err(AllocError);
    };
    let mut predictor = predictor;
    path_marks(
        alloc,
        &mut pipeline,
        &mut *predictor.predictor,
        &job.arrivals,
        view.from,
        view.cycles,
    )
}

/// Where they are asked for, the marks of the critical path in a view of a job's run, by a run of its own. The only error is out
/// of memory.
pub(crate) fn asked_marks(
    alloc: Global,
    job: &Job,
    path: bool,
    view: View,
) -> Result<Option<Vec<Mark>>, AllocError>
    ensures { IfOk result (λ marks. IsAskedFor path (AreMarksOf job.now view)
        (option_map (λ found. found.items) marks)) }
{
    if !path {
        return Ok(None);
    }
    let values = job.description.values().predictor;
    let predictor = boxed(alloc, values)?;
    let marks = marks_guided(alloc, job, values, BoxedPredictor { predictor }, view)?;
    Ok(Some(marks))
}

// The account of the path of a run that the described predictor guides.
fn account_guided(
    alloc: Global,
    job: &Job,
    values: PredictorValues,
    predictor: BoxedPredictor,
    limit: u64,
) -> Result<PathAccount, AllocError>
    requires described { known predictor.predictor ≡ untaught_of values }
    requires own { values ≡ job.now.description.predictor }
    ensures { IfOk result (IsAccountOf job.now limit) }
{
    // The image of a job fits, so that memory alone can be wanting.
    let Ok(mut pipeline) = Pipeline::new(alloc, &job.description, &job.image) else {
        return Err(AllocError);
    };
    let mut predictor = predictor;
    account_path(
        alloc,
        &mut pipeline,
        &mut *predictor.predictor,
        &job.arrivals,
        limit,
    )
}

/// Where it is asked for, the account of the critical path of a job's run, by a run of its own. The only error is out of memory.
pub(crate) fn asked_account(
    alloc: Global,
    job: &Job,
    path: bool,
    limit: u64,
) -> Result<Option<PathAccount>, AllocError>
    ensures { IfOk result (IsAskedFor path (IsAccountOf job.now limit)) }
{
    if !path {
        return Ok(None);
    }
    let values = job.description.values().predictor;
    let predictor = boxed(alloc, values)?;
    let account = account_guided(alloc, job, values, BoxedPredictor { predictor }, limit)?;
    Ok(Some(account))
}
