ghost use Rattle.std.specs.Prelude.{◌≡◌, Ok, IfOk, OnOk, IfErr, OnErr};
ghost use Rattle.std.specs.Io.KnownBytes.{Consumes};
ghost use Rattle.rv_job.specs.Fault.{input_fault_line, input_fault_status};
ghost use Rattle.rv_job.specs.FaultStream.{Reports};
ghost use Rattle.rv_job.specs.Input.{HasRead, IsInputOf};
ghost use Rattle.rv_program.specs.CoreReport.{untaught_of};
ghost use Rattle.rv_program.specs.Program.{EndsWithin, Runs};
ghost use Rattle.rv_program.specs.Task.{predictor_of};
ghost use Rattle.rv_job.specs.declared.input.InputError.{InputError as OneError};

use crate::boxed_predictor::{BoxedPredictor, boxed};
use crate::ended::report;
use crate::output::pass_on;
use crate::refusal::hand_back;
use crate::task::{Task, begin, finish};
use rv_command::Command;
use rv_isa::PredictorValues;
use rv_job::{FaultLines, SimError, read_input};
use rv_text::TextError;
use std::alloc::Global;
use std::io::{BufWriter, Read, Write};

/// How the program ends: its exit status, and its output. That was let go where memory for its buffer was refused.
#[derive(Drop)]
pub struct Exit<W> {
    /// The exit status.
    pub status: u8,
    /// The output.
    pub output: Option<W>,
    /// Whether the output has got whole why a job is refused, where that was to be explained. Else there was nothing to say.
    pub refusal: Result<(), TextError>,
}

fn take_input<R: Read, E: Write>(
    alloc: Global,
    reader: &mut R,
    errors: &mut FaultLines<E>,
) -> Result<Vec<u8>, u8>
    ensures input { IfOk result (λ input. IsInputOf (R.remaining reader.old) input.items) }
    ensures taken { IfOk result (λ input. Consumes (R.remaining reader.old) (R.remaining reader.new) input.items) }
    ensures lost { OnErr result (HasRead (R.remaining reader.old) (R.remaining reader.new)) }
    ensures nothing_reported { OnOk result (errors.new ≡ errors.old) }
    ensures unread { IfErr result (λ status. (error : OneError)
        × Reports errors.old errors.new (input_fault_line error)
        × (status ≡ input_fault_status error)) }
{
    match read_input(alloc, reader) {
        Ok(input) => Ok(input),
        Err(error) => Err(errors.report_unread(error)),
    }
}

// Does a task with a predictor that is the one of its machine.
fn finish_guided<W: Write + Drop, E: Write>(
    alloc: Global,
    task: &Task,
    values: PredictorValues,
    predictor: BoxedPredictor,
    output: W,
    errors: &mut FaultLines<E>,
) -> Exit<W>
    requires described { known predictor.predictor ≡ untaught_of values }
    requires own { values ≡ predictor_of task.now }
    ensures ended { EndsWithin W.contents task.now output result.output errors.old errors.new result.status }
    ensures refusal { result.refusal ≡ Ok tt }
{
    let Ok(mut buffer) = BufWriter::new(alloc, output) else {
        let status = errors.report(SimError::Memory);
        let output = None;
        let refusal = Ok(());
        return Exit {
            status,
            output,
            refusal,
        };
    };
    let ended = finish(alloc, task, predictor, &mut buffer);
    let (ended, output) = pass_on(ended, buffer);
    let status = report(ended, errors);
    let output = Some(output);
    let refusal = Ok(());
    Exit {
        status,
        output,
        refusal,
    }
}

// Does a task with the predictor of its machine.
fn finish_task<W: Write + Drop, E: Write>(
    alloc: Global,
    task: &Task,
    output: W,
    errors: &mut FaultLines<E>,
) -> Exit<W>
    ensures ended { EndsWithin W.contents task.now output result.output errors.old errors.new result.status }
    ensures refusal { result.refusal ≡ Ok tt }
{
    let values = task.predictor();
    match boxed(alloc, values) {
        Ok(predictor) => {
            let predictor = BoxedPredictor { predictor };
            finish_guided(alloc, task, values, predictor, output, errors)
        }
        Err(_) => {
            let status = errors.report(SimError::Memory);
            let output = Some(output);
            let refusal = Ok(());
            Exit {
                status,
                output,
                refusal,
            }
        }
    }
}

/// Does what a command asks of an input: reads it from `reader`, and writes the report, picture, log, sentences or
/// table, or the line that says which image it makes, to `output`, in blocks, and flushes it. A fault is reported on
/// `errors`, and that the run of a picture ended before the cycles of the picture; where a job was
/// to be explained and is refused, `output` gets why, and is flushed, unless memory or a write failed, which `refusal`
/// says. The exit status is 0 for what was done, 1 for a refused job, 3 for a run that a stale word ended, 4 where
/// input or output failed, 5 when out of memory.
pub fn run<R: Read, W: Write + Drop, E: Write>(
    alloc: Global,
    command: &Command,
    reader: &mut R,
    output: W,
    errors: &mut FaultLines<E>,
) -> Exit<W>
    ensures { Runs W.contents command.now (R.remaining reader.old) (R.remaining reader.new)
        output result.output result.refusal errors.old errors.new result.status }
{
    let input = match take_input(alloc, reader, errors) {
        Ok(input) => input,
        Err(status) => {
            let output = Some(output);
            let refusal = Ok(());
            return Exit {
                status,
                output,
                refusal,
            };
        }
    };
    match begin(alloc, command, input.as_slice(), errors) {
        Ok(task) => {
            let exit = finish_task(alloc, &task, output, errors);
            // By one call: at the end of its scope each kind of task is dropped field by field.
            drop(task);
            exit
        }
        Err(refused) => {
            let status = refused.status;
            let (output, refusal) = hand_back(
                alloc,
                command,
                input.as_slice(),
                refused.error,
                output,
            );
            let output = Some(output);
            Exit {
                status,
                output,
                refusal,
            }
        }
    }
}
