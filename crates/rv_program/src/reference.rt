ghost use Rattle.std.specs.Prelude.{◌≡◌};
ghost use Rattle.rv_program.specs.Answer.{IsAnswer};
ghost use Rattle.rv_program.specs.ReferenceReport.{IsReferenceReport, shown};

use rv_arch::{Reference, Stop, run_reference};
use rv_isa::ReportValues;
use rv_job::{Job, SimError};
use rv_report::{Options, write_reference};
use std::alloc::Global;
use std::io::Write;

// The options, with what a description asks to dump.
pub(crate) fn with_dump(report: &ReportValues, options: &Options) -> Options
    ensures { result ≡ shown report.now options.now }
{
    Options {
        trace: options.trace,
        limit: options.limit,
        dump_address: report.dump_address,
        dump_words: report.dump_words,
    }
}

/// Runs a job on the machine that takes one step at a time, with the job's arrivals at the numbers of
/// the steps, up to a breakpoint, a stale word or the options' limit of steps, and writes the report
/// of the run, with the dump that the job's description asks for. Answers why the run ended.
///
/// Fails by `Memory`, and has written nothing then, or by `WriteFailed`, and has written a beginning
/// of the report.
pub fn reference<W: Write>(
    alloc: Global,
    job: &Job,
    options: &Options,
    writer: &mut W,
) -> Result<Stop, SimError>
    ensures { IsAnswer (IsReferenceReport job.now options.now) result (W.contents writer.old) (W.contents writer.new) }
{
    let values = job.description.values();
    let options = with_dump(&values.report, options);
    let mut machine = Reference::new(
        alloc,
        values.ram_base,
        values.ram_size,
        values.rom_bytes,
        job.image.bytes.as_slice(),
        job.image.start,
    )?;
    let outcome = run_reference(&mut machine, &job.arrivals, options.limit);
    write_reference(&outcome, &machine, &options, writer)?;
    Ok(outcome.stop)
}
