ghost use Rattle.std.specs.Prelude.{◌≡◌};
ghost use Rattle.rv_report.specs.Rows.{broadcast_in, entry_text, interrupt_line, issued_in};
ghost use Rattle.rv_report.specs.Rows.{passage_text, place_text, result_text, row_line, stamp_text};
ghost use Rattle.rv_report.specs.Rows.{step_line, trace_lines, trap_line, written_text};
ghost use Rattle.rv_text.specs.Said.{Says};

use itoa::Buffer;
use rv_hardware::{Row, Step};
use rv_isa::{Cause, Reg};
use rv_text::{Sink, hexadecimal};
use std::io::Write;

#[tactic(auto, unfolding(crate::specs::Rows::stamp_text))]
fn stamp_text<'a>(buffer: &'a mut Buffer, stamp: Option<u64>) -> &'a [u8]
    ensures { result.now ≡ stamp_text stamp }
{
    match stamp {
        Some(cycle) => buffer.format(cycle).as_bytes(),
        None => b"-",
    }
}

fn issued(row: &Row) -> Option<u64>
    ensures { result ≡ issued_in row.now.execution }
{
    match row.execution {
        Some(execution) => Some(execution.issued),
        None => None,
    }
}

fn broadcast(row: &Row) -> Option<u64>
    ensures { result ≡ broadcast_in row.now.execution }
{
    match row.execution {
        Some(execution) => Some(execution.broadcast),
        None => None,
    }
}

// Where an instruction stood.
#[tactic(auto, unfolding(crate::specs::Rows::place_text))]
fn write_place<W: Write>(out: &mut Sink<'_, W>, row: &Row)
    ensures { Says W.contents out.old out.new (place_text row.now) }
{
    let pc = hexadecimal(row.pc);
    let word = hexadecimal(row.word);
    out.put_all(&[b"R ", pc.as_slice(), b" ", word.as_slice()]);
}

// When it entered the hardware, and its reorder buffer.
#[tactic(auto, unfolding(crate::specs::Rows::entry_text))]
fn write_entry<W: Write>(out: &mut Sink<'_, W>, row: &Row)
    ensures { Says W.contents out.old out.new (entry_text row.now) }
{
    let mut at_fetch = Buffer::new();
    let fetched = at_fetch.format(row.fetched).as_bytes();
    let mut at_dispatch = Buffer::new();
    let dispatched = at_dispatch.format(row.dispatched).as_bytes();
    out.put_all(&[b" F", fetched, b" D", dispatched]);
}

// When its result came about, and when it retired.
#[tactic(auto, unfolding(crate::specs::Rows::result_text))]
fn write_result<W: Write>(out: &mut Sink<'_, W>, row: &Row)
    ensures { Says W.contents out.old out.new (result_text row.now) }
{
    let mut at_issue = Buffer::new();
    let issued = stamp_text(&mut at_issue, issued(row));
    let mut at_broadcast = Buffer::new();
    let broadcast = stamp_text(&mut at_broadcast, broadcast(row));
    let mut at_retirement = Buffer::new();
    let retired = at_retirement.format(row.retired).as_bytes();
    out.put_all(&[b" I", issued, b" B", broadcast, b" C", retired]);
}

// Where an instruction stood, and when it passed through the hardware.
#[tactic(auto, using(rv_text::proofs::Saying::saying), unfolding(crate::specs::Rows::passage_text))]
fn write_passage<W: Write>(out: &mut Sink<'_, W>, row: &Row)
    ensures { Says W.contents out.old out.new (passage_text row.now) }
{
    write_place(out, row);
    write_entry(out, row);
    write_result(out, row);
}

// What an instruction wrote.
#[tactic(auto, unfolding(crate::specs::Rows::written_text))]
fn write_written<W: Write>(out: &mut Sink<'_, W>, written: Option<(Reg, u32)>)
    ensures { Says W.contents out.old out.new (written_text written) }
{
    match written {
        Some((register, word)) => {
            let mut buffer = Buffer::new();
            let number = buffer.format(register.number()).as_bytes();
            let value = hexadecimal(word);
            out.put_all(&[b" x", number, b"=", value.as_slice(), b"\n"]);
        }
        None => out.put(b" -\n"),
    }
}

#[tactic(auto, using(rv_text::proofs::Saying::saying), unfolding(crate::specs::Rows::row_line))]
fn write_row<W: Write>(out: &mut Sink<'_, W>, row: &Row)
    ensures { Says W.contents out.old out.new (row_line row.now) }
{
    write_passage(out, row);
    write_written(out, row.written);
}

#[tactic(auto, unfolding(crate::specs::Rows::trap_line))]
fn write_trap<W: Write>(out: &mut Sink<'_, W>, pc: u32, cause: Cause, value: u32, cycle: u64)
    ensures { Says W.contents out.old out.new (trap_line pc cause value cycle) }
{
    let pc = hexadecimal(pc);
    let code = hexadecimal(cause.code());
    let value = hexadecimal(value);
    let mut buffer = Buffer::new();
    let stamp = buffer.format(cycle).as_bytes();
    out.put_all(&[
        b"T ",
        pc.as_slice(),
        b" ",
        code.as_slice(),
        b" ",
        value.as_slice(),
        b" C",
        stamp,
        b"\n",
    ]);
}

#[tactic(auto, unfolding(crate::specs::Rows::interrupt_line))]
fn write_interrupt<W: Write>(out: &mut Sink<'_, W>, pc: u32, cause: u32, cycle: u64)
    ensures { Says W.contents out.old out.new (interrupt_line pc cause cycle) }
{
    let pc = hexadecimal(pc);
    let code = hexadecimal(cause);
    let mut buffer = Buffer::new();
    let stamp = buffer.format(cycle).as_bytes();
    out.put_all(&[
        b"N ",
        pc.as_slice(),
        b" ",
        code.as_slice(),
        b" C",
        stamp,
        b"\n",
    ]);
}

#[tactic(auto, unfolding(crate::specs::Rows::step_line))]
fn write_step<W: Write>(out: &mut Sink<'_, W>, step: &Step)
    ensures { Says W.contents out.old out.new (step_line step.now) }
{
    match *step {
        Step::Retired(row) => write_row(out, &row),
        Step::Trap {
            pc,
            cause,
            value,
            cycle,
        } => write_trap(out, pc, cause, value, cycle),
        Step::Interrupt { pc, cause, cycle } => write_interrupt(out, pc, cause, cycle),
    }
}

/// Writes the lines of a trace, one a step, in order.
#[tactic(auto, using(rv_text::proofs::Saying::saying), unfolding(crate::specs::Rows::trace_lines))]
pub(crate) fn write_steps<W: Write>(out: &mut Sink<'_, W>, steps: &[Step])
    ensures { Says W.contents out.old out.new (trace_lines steps.now) }
{
    for step in steps {
        write_step(out, step);
    }
}
