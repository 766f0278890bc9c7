ghost use Rattle.std.specs.Prelude.{◌≡◌, [], get_or, map};
ghost use Rattle.std.specs.List.{enumerate_from, flat_map};
ghost use Rattle.rv_hardware.specs.Report.{all_stalls};
ghost use Rattle.rv_report.specs.Comparison.{count_values, event_values, last_cells, loss_values};
ghost use Rattle.rv_report.specs.Comparison.{name_and_stop, name_text, row_of, stall_cell};
ghost use Rattle.rv_report.specs.Comparison.{stall_head, table_head, table_of, table_row};
ghost use Rattle.rv_text.specs.ReadField.{cell_text};
ghost use Rattle.rv_text.specs.Said.{Says};
ghost use Rattle.rv_text.specs.Written.{IsWritten};

use crate::losses::ComparedRun;
use crate::shown::{Columns, Shown, write_cells, write_heads};
use crate::state::write_reason;
use crate::totals::Totals;
use itoa::Buffer;
use rv_arch::Stop;
use rv_hardware::{Stall, StallCounts};
use rv_text::{ReportError, Sink, Value};
use std::io::Write;

// The name of the column of a reason.
fn write_stall_head<W: Write>(out: &mut Sink<'_, W>, stall: Stall)
    ensures { Says W.contents out.old out.new (stall_head stall) }
{
    out.put_all(&[b"stall_", stall.name().as_bytes(), b"\t"]);
}

// The names of the columns of the cycles that dispatched nothing.
#[tactic(auto, using(rv_text::proofs::Saying::saying))]
fn write_stall_heads<W: Write>(out: &mut Sink<'_, W>)
    ensures { Says W.contents out.old out.new (flat_map stall_head all_stalls) }
{
    for stall in Stall::all() {
        write_stall_head(out, *stall);
    }
}

// The names of the columns, but for those of what is shown besides.
fn write_head<W: Write>(out: &mut Sink<'_, W>)
    ensures { Says W.contents out.old out.new table_head }
{
    out.put(b"number\tcycles\tretired\tcpi\ttraps\tinterrupts\tbusy\t");
    write_stall_heads(out);
    out.put(b"mispredicted\tsquashed\tmisses\tname\tstop\t");
    out.put(b"ipc\tlongest_gap\tbranches\tloads\tdrains\thits\twrite_backs");
}

// The number of a run, and the counts of its cycles and steps.
fn write_counts<W: Write>(out: &mut Sink<'_, W>, number: u64, totals: &Totals)
    ensures { Says W.contents out.old out.new (flat_map cell_text (count_values number totals.now)) }
{
    let values = [
        Value::Count(number),
        Value::Count(totals.cycles),
        Value::Count(totals.steps.retired),
        Value::Ratio {
            count: totals.cycles,
            each: totals.steps.retired,
        },
        Value::Count(totals.steps.traps),
        Value::Count(totals.steps.interrupts),
        Value::Count(totals.busy),
    ];
    out.put_cells(&values);
}

// The cycles of a run that dispatched nothing for a reason.
fn write_stall<W: Write>(out: &mut Sink<'_, W>, stalls: &StallCounts, stall: Stall)
    ensures { Says W.contents out.old out.new (stall_cell stalls.now stall) }
{
    let mut buffer = Buffer::new();
    out.put_all(&[buffer.format(stalls.of(stall)).as_bytes(), b"\t"]);
}

// Those of each reason.
#[tactic(auto, using(rv_text::proofs::Saying::saying))]
fn write_stalls<W: Write>(out: &mut Sink<'_, W>, stalls: &StallCounts)
    ensures { Says W.contents out.old out.new (flat_map (stall_cell stalls.now) all_stalls) }
{
    for stall in Stall::all() {
        write_stall(out, stalls, *stall);
    }
}

// What a run lost cycles to.
fn write_losses<W: Write>(out: &mut Sink<'_, W>, run: &ComparedRun)
    ensures { Says W.contents out.old out.new (flat_map cell_text (loss_values run.now)) }
{
    let values = [
        Value::Count(run.losses.mispredicted),
        Value::Count(run.losses.squashed),
        Value::Count(run.events.misses),
    ];
    out.put_cells(&values);
}

// The name of a machine, or a hyphen where it has none.
#[tactic(auto, unfolding(crate::specs::Comparison::name_text))]
fn write_name<W: Write>(out: &mut Sink<'_, W>, name: &[u8])
    ensures { Says W.contents out.old out.new (name_text name.now) }
{
    match name {
        [] => out.put(b"-"),
        _ => out.put_plain(name),
    }
}

// The name of a run's machine, and why the run ended, a tab after each.
#[tactic(auto, using(rv_text::proofs::Saying::saying), unfolding(crate::specs::Comparison::name_and_stop))]
fn write_name_and_stop<W: Write>(out: &mut Sink<'_, W>, name: &[u8], stop: Stop)
    ensures { Says W.contents out.old out.new (name_and_stop name.now stop) }
{
    write_name(out, name);
    out.put(b"\t");
    write_reason(out, stop);
    out.put(b"\t");
}

// The instructions to each cycle, and what a run did.
fn write_events<W: Write>(out: &mut Sink<'_, W>, run: &ComparedRun)
    ensures { Says W.contents out.old out.new (flat_map cell_text (event_values run.now)) }
{
    let values = [
        Value::Ratio {
            count: run.totals.steps.retired,
            each: run.totals.cycles,
        },
        Value::Count(run.totals.longest_gap),
        Value::Count(run.events.branches),
        Value::Count(run.events.loads),
        Value::Count(run.events.drains),
        Value::Count(run.events.hits),
    ];
    out.put_cells(&values);
}

// The last count of a line, and what is shown besides.
#[tactic(auto, using(rv_text::proofs::Saying::saying), unfolding(crate::specs::Comparison::last_cells))]
fn write_last<W: Write>(out: &mut Sink<'_, W>, shown: &Columns<Option<Shown>>, run: &ComparedRun)
    ensures { Says W.contents out.old out.new (last_cells shown.now run.now) }
{
    out.put_decimal(run.events.write_backs);
    write_cells(out, shown, &run.words, &run.places);
    out.put(b"\n");
}

// The line of a run.
fn write_row<W: Write>(
    out: &mut Sink<'_, W>,
    shown: &Columns<Option<Shown>>,
    number: u64,
    name: &[u8],
    run: &ComparedRun,
)
    ensures { Says W.contents out.old out.new (table_row shown.now number name.now run.now) }
{
    write_counts(out, number, &run.totals);
    write_stalls(out, &run.totals.stalls);
    write_losses(out, run);
    write_name_and_stop(out, name, run.totals.stop);
    write_events(out, run);
    write_last(out, shown, run);
}

// The name at a place, or none.
fn name_at(names: &[Vec<u8>], place: usize) -> &[u8]
    ensures { result.now ≡ get_or (map (λ name. name.items) names.entry.now) place [] }
{
    if place < names.len() {
        names[place].as_slice()
    } else {
        b""
    }
}

// The lines of runs, which are numbered from 1.
fn write_rows<W: Write>(
    out: &mut Sink<'_, W>,
    shown: &Columns<Option<Shown>>,
    names: &[Vec<u8>],
    runs: &[ComparedRun],
)
    ensures { Says W.contents out.old out.new
        (flat_map (row_of shown.now (map (λ name. name.items) names.now)) (enumerate_from 1 runs.now)) }
{
    for place in 0..runs.len() {
        let run = runs[place];
        write_row(out, shown, 1 + place as u64, name_at(names, place), &run);
    }
}

// The names of the columns, and the lines of the runs.
#[tactic(auto, using(rv_text::proofs::Saying::saying), unfolding(crate::specs::Comparison::table_of))]
fn say_table<W: Write>(
    shown: &Columns<Option<Shown>>,
    names: &[Vec<u8>],
    runs: &[ComparedRun],
    out: &mut Sink<'_, W>,
)
    ensures { Says W.contents out.old out.new (table_of shown.now (map (λ name. name.items) names.now) runs.now) }
{
    write_head(out);
    write_heads(out, shown);
    out.put(b"\n");
    write_rows(out, shown, names, runs);
}

/// Writes what several runs came to as a table: a line with the names of the columns, and a line for each run, numbered from
/// 1, with a tab between two cells. `names` has the names of the runs' machines, in their order, and `shown` says what the last
/// columns show besides the counts. Asks for no memory. Fails by
/// `WriteFailed` alone, and what was written is then a beginning of the table.
#[tactic(auto, using(rv_text::proofs::Saying::says_written))]
pub fn write_table<W: Write>(
    shown: &Columns<Option<Shown>>,
    names: &[Vec<u8>],
    runs: &[ComparedRun],
    writer: &mut W,
) -> Result<(), ReportError>
    ensures { IsWritten result (W.contents writer.old) (W.contents writer.new)
        (table_of shown.now (map (λ name. name.items) names.now) runs.now) }
{
    let mut out = Sink::new(writer);
    say_table(shown, names, runs, &mut out);
    out.outcome()
}
