ghost use Rattle.rv_hardware.specs.Seen.{seen};
ghost use Rattle.rv_report.specs.Totals.{cycle_lines, stall_line, stall_lines, total_lines};
ghost use Rattle.rv_report.specs.RunReport.{end_lines, end_of, trace_of, report_of};
ghost use Rattle.rv_text.specs.Said.{Says};
ghost use Rattle.rv_text.specs.Written.{IsWritten};

use crate::memory::write_memory;
use crate::options::Options;
use crate::rows::write_steps;
use crate::state::{write_state, write_stop};
use crate::totals::Totals;
use itoa::Buffer;
use rv_core::Outcome;
use rv_hardware::{Stall, StallCounts, Step};
use rv_text::{Field, ReportError, Sink, Value};
use rv_watch::ShownHardware;
use std::io::Write;

// The cycles of a run, and its steps by their sort.
fn write_cycles<W: Write>(out: &mut Sink<'_, W>, totals: &Totals)
    ensures { Says W.contents out.old out.new (cycle_lines totals.now) }
{
    out.put_fields(&[
        Field {
            name: "cycles",
            value: Value::Count(totals.cycles),
        },
        Field {
            name: "retired",
            value: Value::Count(totals.steps.retired),
        },
        Field {
            name: "traps",
            value: Value::Count(totals.steps.traps),
        },
        Field {
            name: "interrupts",
            value: Value::Count(totals.steps.interrupts),
        },
        Field {
            name: "cpi",
            value: Value::Ratio {
                count: totals.cycles,
                each: totals.steps.retired,
            },
        },
        Field {
            name: "longest_gap",
            value: Value::Count(totals.longest_gap),
        },
        Field {
            name: "busy",
            value: Value::Count(totals.busy),
        },
    ]);
}

// The cycles that dispatched nothing for a reason.
#[tactic(auto, unfolding(crate::specs::Totals::stall_line, rv_text::specs::Line::count_line, rv_text::specs::Line::line_of))]
fn write_stall<W: Write>(out: &mut Sink<'_, W>, stalls: &StallCounts, stall: Stall)
    ensures { Says W.contents out.old out.new (stall_line stalls.now stall) }
{
    let mut buffer = Buffer::new();
    let count = buffer.format(stalls.of(stall)).as_bytes();
    out.put_all(&[b"stall ", stall.name().as_bytes(), b" ", count, b"\n"]);
}

// The cycles that dispatched nothing, by the reason.
#[tactic(auto, using(rv_text::proofs::Saying::saying), unfolding(crate::specs::Totals::stall_lines))]
fn write_stalls<W: Write>(out: &mut Sink<'_, W>, stalls: &StallCounts)
    ensures { Says W.contents out.old out.new (stall_lines stalls.now) }
{
    for stall in Stall::all() {
        write_stall(out, stalls, *stall);
    }
}

// The counts of a run.
#[tactic(auto, using(rv_text::proofs::Saying::saying), unfolding(crate::specs::Totals::total_lines))]
fn write_counts<W: Write>(out: &mut Sink<'_, W>, totals: &Totals)
    ensures { Says W.contents out.old out.new (total_lines totals.now) }
{
    write_cycles(out, totals);
    write_stalls(out, &totals.stalls);
}

// Why a run ended, its counts, and the state that it left, but for memory.
fn write_end<W: Write>(out: &mut Sink<'_, W>, totals: &Totals, hardware: &ShownHardware<'_>)
    ensures { Says W.contents out.old out.new (end_lines totals.now (seen hardware.now) hardware.now.lines) }
{
    write_stop(out, totals.stop);
    write_counts(out, totals);
    write_state(out, &hardware.observe());
}

// What the report of a run shows after the trace.
#[tactic(auto, using(rv_text::proofs::Saying::says_both), unfolding(crate::specs::RunReport::end_text))]
pub(crate) fn say_totals<W: Write>(
    totals: &Totals,
    hardware: &ShownHardware<'_>,
    options: &Options,
    out: &mut Sink<'_, W>,
)
    ensures { Says W.contents out.old out.new (end_of totals.now hardware.now options.now) }
{
    write_end(out, totals, hardware);
    write_memory(out, hardware, options.dump_address, options.dump_words);
}

/// Writes what the report of a run shows after the trace: why it ended, its counts, the pc, the registers and the control
/// and status registers, and the words of memory that the options ask for. Asks for no memory. Fails by `WriteFailed`
/// alone, and what was written is then a beginning of that text.
#[tactic(auto, using(rv_text::proofs::Saying::says_written))]
pub fn write_totals<W: Write>(
    totals: &Totals,
    hardware: &ShownHardware<'_>,
    options: &Options,
    writer: &mut W,
) -> Result<(), ReportError>
    ensures { IsWritten result (W.contents writer.old) (W.contents writer.new)
        (end_of totals.now hardware.now options.now) }
{
    let mut out = Sink::new(writer);
    say_totals(totals, hardware, options, &mut out);
    out.outcome()
}

// The lines of some steps, where a trace is asked for.
pub(crate) fn say_trace<W: Write>(out: &mut Sink<'_, W>, trace: bool, steps: &[Step])
    ensures { Says W.contents out.old out.new (trace_of trace steps.now) }
{
    if trace {
        write_steps(out, steps);
    }
}

/// Writes the lines of some steps, where a trace is asked for. Asks for no memory. Fails by `WriteFailed` alone, and what
/// was written is then a beginning of the lines.
#[tactic(auto, using(rv_text::proofs::Saying::says_written))]
pub fn write_trace<W: Write>(writer: &mut W, trace: bool, steps: &[Step]) -> Result<(), ReportError>
    ensures { IsWritten result (W.contents writer.old) (W.contents writer.new) (trace_of trace steps.now) }
{
    let mut out = Sink::new(writer);
    say_trace(&mut out, trace, steps);
    out.outcome()
}

// The report of a run of the core.
fn say_report<W: Write>(
    outcome: &Outcome,
    hardware: &ShownHardware<'_>,
    options: &Options,
    out: &mut Sink<'_, W>,
)
    ensures { Says W.contents out.old out.new (report_of outcome.now hardware.now options.now) }
{
    say_trace(out, options.trace, outcome.steps.as_slice());
    say_totals(&Totals::of(outcome), hardware, options, out);
}

/// Writes the report of a run of the core: a line for each step where the options ask for a trace, then why the run ended,
/// its counts, the pc, the registers and the control and status registers, and the words of memory that the options ask
/// for. Asks for no memory. Fails by `WriteFailed` alone, and what was written is then a beginning of the report.
#[tactic(auto, using(rv_text::proofs::Saying::says_written))]
pub fn write_report<W: Write>(
    outcome: &Outcome,
    hardware: &ShownHardware<'_>,
    options: &Options,
    writer: &mut W,
) -> Result<(), ReportError>
    ensures { IsWritten result (W.contents writer.old) (W.contents writer.new)
        (report_of outcome.now hardware.now options.now) }
{
    let mut out = Sink::new(writer);
    say_report(outcome, hardware, options, &mut out);
    out.outcome()
}
