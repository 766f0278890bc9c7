//! What is shown of a run.
ghost use Rattle.std.specs.Prelude.{◌≡◌, ◌^◌, ◌≤◌, option_copied, option_map};
ghost use Rattle.rv_front.specs.Predictors.{guide_of};
ghost use Rattle.rv_front.specs.declared.predictors.DescribedPredictor.{DescribedPredictor};
ghost use Rattle.rv_hardware.specs.Guided.{guided};
ghost use Rattle.rv_text.specs.IsText.{IsText};
ghost use Rattle.rv_program.specs.Answer.{IsAnswer};
ghost use Rattle.rv_program.specs.CoreReport.{IsAtMostOne};
ghost use Rattle.rv_program.specs.RunView.{IsShown, IsViewOf, limit_of, whole_run};

use crate::answer::answer;
use crate::asked_path::{asked_account, asked_marks};
use crate::boxed_predictor::BoxedPredictor;
use rv_arch::Stop;
use rv_core::Pipeline;
use rv_drawing::Mark;
use rv_explain::{Figures, write_explanation};
use rv_front::Predictor;
use rv_job::{ListedJob, SimError};
use rv_log::write_log;
use rv_path::write_path;
use rv_picture::{RunEnd, View, write_picture};
use rv_profile::write_profile;
use rv_states::{Form, write_states};
use rv_text::TextError;
use std::alloc::Global;
use std::io::Write;

/// Of which cycles of a run the states are written, and how.
#[derive(Clone, Copy)]
pub struct Stretch {
    /// How they are written.
    pub form: Form,
    /// The first of the cycles.
    pub from: u64,
    /// The most cycles of the run.
    pub limit: u64,
}

/// What is shown of a run of a job on the core, up to a breakpoint, a stale word or its last cycle, with the lines of the
/// job's program.
#[derive(Clone, Copy)]
pub enum RunView {
    /// The picture of the cycles of a view, with marks on the events of the critical path where `path` says so. Where the run
    /// ends before the view begins, no cycle is shown.
    Picture {
        view: View,
        path: bool,
    },
    /// The log of at most so many cycles, in Konata's format.
    Log {
        limit: u64,
    },
    /// The states of the cycles of a stretch, line by line; as a page with a viewer around them. Where the run ends before
    /// the stretch begins, no cycle is written.
    States(Stretch),
    /// What at most so many cycles came to, in plain sentences, with those of the critical path before them where `path` says so.
    Explanation {
        figures: Figures,
        path: bool,
        limit: u64,
    },
    /// A table of what became of the instructions at each address in at most so many cycles, with a column of the critical
    /// path where `path` says so.
    Profile {
        path: bool,
        limit: u64,
    },
    /// The critical path of at most so many cycles.
    Path {
        limit: u64,
    },
}

// How the run of any view but a picture ended.
fn whole_run(written: Result<Stop, TextError>) -> Result<RunEnd, TextError>
    ensures { result ≡ whole_run written }
{
    match written {
        Ok(stop) => Ok(RunEnd { stop, over: None }),
        Err(error) => Err(error),
    }
}

// Some marks, where there are any.
fn marks_in(marks: &Option<Vec<Mark>>) -> Option<&[Mark]>
    ensures { option_copied result ≡ option_map (λ found. found.items) marks.now }
{
    match marks {
        Some(marks) => Some(marks.as_slice()),
        None => None,
    }
}

// Runs a pipeline that a predictor guides, and draws cycles of the run, with the marks of the critical path where these are
// asked for.
fn draw<W: Write>(
    alloc: Global,
    pipeline: &mut Pipeline,
    predictor: &mut dyn Predictor,
    listed: &ListedJob,
    view: View,
    path: bool,
    writer: &mut W,
) -> Result<RunEnd, TextError>
    ensures { IsText (IsShown (RunView.Picture view path) listed.now (guided pipeline.old (known predictor.old))
        (guided pipeline.new (known predictor.new))) result (W.contents writer.old) (W.contents writer.new) }
{
    let Ok(marks) = asked_marks(alloc, &listed.job, path, view) else {
        return Err(TextError::Memory);
    };
    write_picture(
        alloc,
        pipeline,
        predictor,
        &listed.job.arrivals,
        view,
        marks_in(&marks),
        &listed.listing,
        writer,
    )
}

// Runs a pipeline that a predictor guides, and explains the run, with the sentences of the critical path where these are asked
// for.
fn explain<W: Write>(
    alloc: Global,
    pipeline: &mut Pipeline,
    predictor: &mut dyn Predictor,
    listed: &ListedJob,
    figures: Figures,
    path: bool,
    limit: u64,
    writer: &mut W,
) -> Result<RunEnd, TextError>
    ensures { IsText (IsShown (RunView.Explanation figures path limit) listed.now
        (guided pipeline.old (known predictor.old)) (guided pipeline.new (known predictor.new))) result
        (W.contents writer.old) (W.contents writer.new) }
{
    let Ok(account) = asked_account(alloc, &listed.job, path, limit) else {
        return Err(TextError::Memory);
    };
    whole_run(write_explanation(
        alloc,
        pipeline,
        predictor,
        &listed.job.description,
        &listed.job.arrivals,
        limit,
        figures,
        account.as_ref(),
        &listed.listing,
        writer,
    ))
}

// Runs a pipeline that a predictor guides, and writes the profile of the run, with the column of the critical path where this is
// asked for.
fn profile<W: Write>(
    alloc: Global,
    pipeline: &mut Pipeline,
    predictor: &mut dyn Predictor,
    listed: &ListedJob,
    path: bool,
    limit: u64,
    writer: &mut W,
) -> Result<RunEnd, TextError>
    ensures { IsText (IsShown (RunView.Profile path limit) listed.now (guided pipeline.old (known predictor.old))
        (guided pipeline.new (known predictor.new))) result (W.contents writer.old) (W.contents writer.new) }
{
    let Ok(account) = asked_account(alloc, &listed.job, path, limit) else {
        return Err(TextError::Memory);
    };
    whole_run(write_profile(
        alloc,
        pipeline,
        predictor,
        &listed.job.description,
        &listed.job.arrivals,
        limit,
        account.as_ref(),
        &listed.listing,
        writer,
    ))
}

// Runs a pipeline that a predictor guides, and writes a view of the run.
fn write_view<W: Write>(
    alloc: Global,
    pipeline: &mut Pipeline,
    predictor: &mut dyn Predictor,
    listed: &ListedJob,
    view: &RunView,
    writer: &mut W,
) -> Result<RunEnd, TextError>
    ensures { IsText (IsShown view.now listed.now (guided pipeline.old (known predictor.old))
        (guided pipeline.new (known predictor.new))) result (W.contents writer.old) (W.contents writer.new) }
{
    let arrivals = &listed.job.arrivals;
    let listing = &listed.listing;
    match view {
        RunView::Picture { view, path } => {
            draw(alloc, pipeline, predictor, listed, *view, *path, writer)
        }
        RunView::Log { limit } => whole_run(write_log(
            alloc, pipeline, predictor, arrivals, *limit, listing, writer,
        )),
        RunView::States(stretch) => whole_run(write_states(
            alloc,
            pipeline,
            predictor,
            arrivals,
            stretch.from,
            stretch.limit,
            stretch.form,
            listing,
            writer,
        )),
        RunView::Explanation {
            figures,
            path,
            limit,
        } => explain(
            alloc, pipeline, predictor, listed, *figures, *path, *limit, writer,
        ),
        RunView::Path { limit } => whole_run(write_path(
            alloc, pipeline, predictor, arrivals, *limit, listing, writer,
        )),
        RunView::Profile { path, limit } => {
            profile(alloc, pipeline, predictor, listed, *path, *limit, writer)
        }
    }
}

/// Simulates a job on the core that it describes, with the job's arrivals at the numbers of the cycles, and writes a
/// view of the run. Where the view shows the critical path, that is found by a run of its own before, which the
/// predictor that the job describes guides. Answers how the run ended. A log and states are written as the cycles come,
/// and ask for no memory once they are begun.
///
/// Fails by `Memory`, and has written nothing then, or by `WriteFailed`, and has written a beginning of the view.
pub fn show<W: Write>(
    alloc: Global,
    listed: &ListedJob,
    predictor: BoxedPredictor,
    view: &RunView,
    writer: &mut W,
) -> Result<RunEnd, SimError>
    ensures view { IsAnswer (IsViewOf listed.now (known predictor.predictor) view.now) result (W.contents writer.old)
        (W.contents writer.new) }
    // With a described predictor a view is a function of the job.
    ensures one_view { (p : DescribedPredictor) → limit_of view.now ≤ 2 ^ 40 →
        IsAtMostOne (IsViewOf listed.now (guide_of p) view.now) }
{
    let mut predictor = predictor;
    // The image of a job fits, so that memory alone can be wanting.
    let Ok(mut pipeline) = Pipeline::new(alloc, &listed.job.description, &listed.job.image) else {
        return Err(SimError::Memory);
    };
    let written = write_view(
        alloc,
        &mut pipeline,
        &mut *predictor.predictor,
        listed,
        view,
        writer,
    );
    answer(written)
}
