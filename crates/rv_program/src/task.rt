ghost use Rattle.std.specs.Prelude.{◌≡◌, IfOk, IfErr, OnOk};
ghost use Rattle.rv_isa.specs.Description.{IsLegalPredictor};
ghost use Rattle.rv_job.specs.Fault.{fault_line, fault_status};
ghost use Rattle.rv_job.specs.FaultStream.{Reports};
ghost use Rattle.rv_job.specs.JobRefusal.{RefusesJob};
ghost use Rattle.rv_program.specs.Task.{Asks, AsksForNeighbours, AsksForView, Refuses, Ends, asked, column_of};
ghost use Rattle.rv_program.specs.Task.{done, ended_after, ended_by, figures_of, form_of, plain_options};
ghost use Rattle.rv_program.specs.Task.{predictor_of, rows_of, shown_word, stop_status, table_options};

use crate::boxed_predictor::BoxedPredictor;
use crate::compare::compare;
use crate::ended::Ended;
use crate::reference::reference;
use crate::run_view::{RunView, Stretch, show};
use crate::sensitivity::sensitivity;
use crate::simulate::simulate;
use rv_arch::Stop;
use rv_command::{Command, Shown, ShownColumns};
use rv_explain::Figures;
use rv_isa::{PredictorValues, Values};
use rv_job::{
    Comparison, DescribedImage, FaultLines, Job, ListedJob, SimError, read_comparison,
    read_image_text, read_job, read_listed_job, write_image_line,
};
use rv_picture::{Form, Rows, RunEnd, View};
use rv_report::{Columns, Options, Shown as ShownWord, TableOptions};
use rv_sensitivity::{Change, Settings, changes};
use rv_states::Form as StatesForm;
use std::alloc::Global;
use std::io::Write;

/// What was read, and what is to be done with it.
#[derive(Drop)]
pub enum Task {
    /// Run a job on the core.
    Run {
        job: Job,
        options: Options,
    },
    /// Run a job on the machine that takes one step at a time.
    Reference {
        job: Job,
        options: Options,
    },
    /// Say which image the job makes.
    Check {
        made: DescribedImage,
    },
    /// Run a job on the core, and show a view of the run.
    Show {
        listed: ListedJob,
        view: RunView,
    },
    /// Run a program on several machines, and write a table of what the runs came to.
    Compare {
        comparison: Comparison,
        options: TableOptions,
    },
    /// Run a job on its machine and on the neighbours of it, among them those of a user's own changes, and write a table of
    /// the cycles that the runs took.
    Sensitivity {
        job: Job,
        own: Vec<Change>,
        options: TableOptions,
    },
}

impl Task {
    /// Which predictor guides the fetch of the machine, and how many entries it has. Each machine of a table has its own, and
    /// what is answered for one guides none of them.
    pub fn predictor(&self) -> PredictorValues
        ensures predictor { result ≡ predictor_of self.now }
        ensures legal { IsLegalPredictor result }
    {
        match self {
            Task::Run { job, .. } | Task::Reference { job, .. } => job
                .description
                .values()
                .predictor,
            Task::Check { made } => made.description.values().predictor,
            Task::Show { listed, .. } => listed.job.description.values().predictor,
            Task::Compare { .. } | Task::Sensitivity { .. } => Values::standard().predictor,
        }
    }
}

// The words of memory that a report shows are the job's to say.
const fn options(trace: bool, limit: u64) -> Options
    ensures { result ≡ asked trace limit }
{
    Options {
        trace,
        limit,
        dump_address: 0,
        dump_words: 0,
    }
}

const fn form(is_text: bool) -> Form
    ensures { result ≡ form_of is_text }
{
    if is_text { Form::Text } else { Form::Svg }
}

const fn rows(are_unsquashed: bool) -> Rows
    ensures { result ≡ rows_of are_unsquashed }
{
    if are_unsquashed {
        Rows::Unsquashed
    } else {
        Rows::All
    }
}

const fn figures_of(are_asked_for: bool) -> Figures
    ensures { result ≡ figures_of are_asked_for }
{
    if are_asked_for {
        Figures::Always
    } else {
        Figures::UnlessCrashed
    }
}

const fn shown_word(asked: Shown) -> ShownWord
    ensures { result ≡ shown_word asked }
{
    match asked {
        Shown::Register(register) => ShownWord::Register(register),
        Shown::Word(address) => ShownWord::Word(address),
        Shown::Places => ShownWord::Places,
    }
}

const fn column(asked: Option<Shown>) -> Option<ShownWord>
    ensures { result ≡ column_of asked }
{
    match asked {
        Some(asked) => Some(shown_word(asked)),
        None => None,
    }
}

const fn table_options(asked: &ShownColumns, limit: u64) -> TableOptions
    ensures { result ≡ table_options asked.now limit }
{
    let shown = Columns {
        first: column(asked.first),
        second: column(asked.second),
        third: column(asked.third),
        fourth: column(asked.fourth),
    };
    TableOptions { limit, shown }
}

// The options of a table that shows nothing of the states at the ends.
const fn plain_options(limit: u64) -> TableOptions
    ensures { result ≡ plain_options limit }
{
    let shown = Columns {
        first: None,
        second: None,
        third: None,
        fourth: None,
    };
    TableOptions { limit, shown }
}

// Reads a job whose machine's neighbours are to be tried.
fn read_sensitivity(
    alloc: Global,
    also: &Settings,
    limit: u64,
    input: &[u8],
) -> Result<Task, SimError>
    ensures task { IfOk result (AsksForNeighbours also.now limit input.now) }
    ensures refused { IfErr result (RefusesJob input.now) }
{
    let job = read_job(alloc, input)?;
    let options = plain_options(limit);
    match changes(alloc, also) {
        Ok(own) => Ok(Task::Sensitivity { job, own, options }),
        Err(_) => Err(SimError::Memory),
    }
}

// Reads a job of whose run a view is to be shown.
fn read_view(alloc: Global, view: RunView, input: &[u8]) -> Result<Task, SimError>
    ensures task { IfOk result (AsksForView view input.now) }
    ensures refused { IfErr result (RefusesJob input.now) }
{
    let listed = read_listed_job(alloc, input)?;
    Ok(Task::Show { listed, view })
}

fn read_task(alloc: Global, command: &Command, input: &[u8]) -> Result<Task, SimError>
    ensures task { IfOk result (Asks command.now input.now) }
    ensures refused { IfErr result (Refuses command.now input.now) }
{
    match command {
        Command::Run { trace, limit } => {
            let job = read_job(alloc, input)?;
            let options = options(*trace, *limit);
            Ok(Task::Run { job, options })
        }
        Command::Reference { limit } => {
            let job = read_job(alloc, input)?;
            let options = options(false, *limit);
            Ok(Task::Reference { job, options })
        }
        Command::Check => {
            let made = read_image_text(alloc, input)?;
            Ok(Task::Check { made })
        }
        Command::Picture {
            text,
            retired,
            path,
            from,
            cycles,
        } => {
            let view = View {
                form: form(*text),
                rows: rows(*retired),
                from: *from,
                cycles: *cycles,
            };
            let path = *path;
            read_view(alloc, RunView::Picture { view, path }, input)
        }
        Command::Log { limit } => read_view(alloc, RunView::Log { limit: *limit }, input),
        Command::States { from, limit } => {
            let (form, from, limit) = (StatesForm::Lines, *from, *limit);
            read_view(alloc, RunView::States(Stretch { form, from, limit }), input)
        }
        Command::Page { from, limit } => {
            let (form, from, limit) = (StatesForm::Page, *from, *limit);
            read_view(alloc, RunView::States(Stretch { form, from, limit }), input)
        }
        Command::Explain {
            figures,
            path,
            limit,
        } => {
            let view = RunView::Explanation {
                figures: figures_of(*figures),
                path: *path,
                limit: *limit,
            };
            read_view(alloc, view, input)
        }
        Command::Profile { path, limit } => {
            let (path, limit) = (*path, *limit);
            read_view(alloc, RunView::Profile { path, limit }, input)
        }
        Command::Path { limit } => read_view(alloc, RunView::Path { limit: *limit }, input),
        Command::Compare { shown, limit } => {
            let comparison = read_comparison(alloc, input)?;
            let options = table_options(shown, *limit);
            Ok(Task::Compare {
                comparison,
                options,
            })
        }
        Command::Sensitivity { also, limit } => read_sensitivity(alloc, also, *limit, input),
    }
}

/// Why an input is refused, which was reported.
#[derive(Clone, Copy)]
pub struct Refused {
    /// Its fault.
    pub error: SimError,
    /// The exit status.
    pub status: u8,
}

/// Reads the input as the command asks. Where it is refused, the fault is reported on `errors`, and it is
/// answered with its exit status.
pub fn begin<E: Write>(
    alloc: Global,
    command: &Command,
    input: &[u8],
    errors: &mut FaultLines<E>,
) -> Result<Task, Refused>
    ensures task { IfOk result (Asks command.now input.now) }
    ensures nothing_reported { OnOk result (errors.new ≡ errors.old) }
    ensures refused { IfErr result (λ refused. Refuses command.now input.now refused.error
        × Reports errors.old errors.new (fault_line refused.error)
        × (refused.status ≡ fault_status refused.error)) }
{
    match read_task(alloc, command, input) {
        Ok(task) => Ok(task),
        Err(error) => {
            let status = errors.report(error);
            Err(Refused { error, status })
        }
    }
}

// The exit status of a run: 3 where it ended at a stale word.
#[tactic(auto, unfolding(crate::specs::Task::stop_status))]
fn stop_status(stop: Stop) -> u8
    ensures { result ≡ stop_status stop }
{
    match stop {
        Stop::Stale(_) => 3,
        Stop::Limit | Stop::Breakpoint | Stop::Exhausted => 0,
    }
}

// How a task ended that has no run of its own.
const DONE: Ended = Ended {
    status: 0,
    over: None,
};

// How a task ended whose run ended for a reason, and after so many cycles, where that was before those of a picture.
fn ended_by(stop: Stop, over: Option<u64>) -> Ended
    ensures { result ≡ ended_by stop over }
{
    let status = stop_status(stop);
    Ended { status, over }
}

// How a task ended, or why it failed, after the run that it reports.
fn ended(run: Result<Stop, SimError>) -> Result<Ended, SimError>
    ensures { result ≡ ended_after (λ stop. ended_by stop None) run }
{
    match run {
        Ok(stop) => Ok(ended_by(stop, None)),
        Err(error) => Err(error),
    }
}

// How a view of a run ended, or why it failed, after its run.
fn ended_view(run: Result<RunEnd, SimError>) -> Result<Ended, SimError>
    ensures { result ≡ ended_after (λ end. ended_by end.stop end.over) run }
{
    match run {
        Ok(end) => Ok(ended_by(end.stop, end.over)),
        Err(error) => Err(error),
    }
}

// How a task ended that writes a table, or why it failed, after its table.
fn ended_table(table: Result<(), SimError>) -> Result<Ended, SimError>
    ensures { result ≡ ended_after (λ _. done) table }
{
    match table {
        Ok(()) => Ok(DONE),
        Err(error) => Err(error),
    }
}

/// Does the task: writes its report, picture, log, states, sentences or table, or the line that says which image
/// the job makes, to `output`, and answers how it ended. Only a run of one job on the core asks the predictor.
///
/// Fails by `Memory`, and has written nothing then, or by `WriteFailed`, and has written a beginning of the text.
pub fn finish<W: Write>(
    alloc: Global,
    task: &Task,
    predictor: BoxedPredictor,
    output: &mut W,
) -> Result<Ended, SimError>
    ensures { Ends task.now (known predictor.predictor) (W.contents output.old) (W.contents output.new) result }
{
    match task {
        Task::Run { job, options } => { ended(simulate(alloc, job, predictor, options, output)) }
        Task::Reference { job, options } => { ended(reference(alloc, job, options, output)) }
        Task::Check { made } => {
            write_image_line(output, &made.image)?;
            Ok(DONE)
        }
        Task::Show { listed, view } => { ended_view(show(alloc, listed, predictor, view, output)) }
        Task::Compare {
            comparison,
            options,
        } => ended_table(compare(alloc, comparison, options, output)),
        Task::Sensitivity { job, own, options } => {
            ended_table(sensitivity(alloc, job, own.as_slice(), options, output))
        }
    }
}
