ghost use Rattle.std.specs.Prelude.{◌≡◌};
ghost use Rattle.rv_isa.specs.Csr.{row_of};
ghost use Rattle.rv_arch.specs.Csr.{value_of};
ghost use Rattle.rv_report.specs.State.{stop_line, stop_text, register_line, register_lines, csr_lines, state_lines};
ghost use Rattle.rv_text.specs.Said.{Says};

use itoa::Buffer;
use rv_arch::{Observed, Stop};
use rv_isa::Csr;
use rv_text::{Field, Sink, Value, hexadecimal};
use std::io::Write;

/// Writes why a run ended.
#[tactic(auto, unfolding(crate::specs::State::stop_text))]
pub(crate) fn write_reason<W: Write>(out: &mut Sink<'_, W>, stop: Stop)
    ensures { Says W.contents out.old out.new (stop_text stop) }
{
    match stop {
        Stop::Limit => out.put(b"limit"),
        Stop::Breakpoint => out.put(b"breakpoint"),
        Stop::Stale(pc) => out.put_all(&[b"stale ", hexadecimal(pc).as_slice()]),
        Stop::Exhausted => out.put(b"exhausted"),
    }
}

/// Writes the line that says why a run ended.
#[tactic(auto, using(rv_text::proofs::Saying::says_both), unfolding(crate::specs::State::stop_line, rv_text::specs::Line::line_of))]
pub(crate) fn write_stop<W: Write>(out: &mut Sink<'_, W>, stop: Stop)
    ensures { Says W.contents out.old out.new (stop_line stop) }
{
    out.put(b"stop ");
    write_reason(out, stop);
    out.put(b"\n");
}

#[tactic(auto, unfolding(crate::specs::State::register_line, rv_text::specs::Line::word_line, rv_text::specs::Line::line_of))]
fn write_register<W: Write>(out: &mut Sink<'_, W>, number: usize, word: u32)
    ensures { Says W.contents out.old out.new (register_line number word) }
{
    let mut buffer = Buffer::new();
    let digits = buffer.format(number).as_bytes();
    out.put_all(&[b"x", digits, b" ", hexadecimal(word).as_slice(), b"\n"]);
}

// The registers, a line each.
fn write_registers<W: Write>(out: &mut Sink<'_, W>, registers: &[u32; 32])
    ensures { Says W.contents out.old out.new (register_lines registers.now) }
{
    for number in 0..32 {
        write_register(out, number, registers[number]);
    }
}

// The line of a control and status register.
fn field(seen: &Observed, csr: Csr) -> Field<'static>
    ensures name { result.name.now ≡ (row_of csr).1 }
    ensures value { result.value ≡ Value.Word (value_of seen.now.csrs seen.now.lines csr) }
{
    Field {
        name: csr.row().1,
        value: Value::Word(seen.csrs.value(csr, seen.lines)),
    }
}

#[tactic(auto, unfolding(crate::specs::State::csr_lines, rv_text::specs::Line::word_line))]
fn write_csrs<W: Write>(out: &mut Sink<'_, W>, seen: &Observed)
    ensures { Says W.contents out.old out.new (csr_lines seen.now.csrs seen.now.lines) }
{
    let fields = [
        field(seen, Csr::Mstatus),
        field(seen, Csr::Mie),
        field(seen, Csr::Mtvec),
        field(seen, Csr::Mscratch),
        field(seen, Csr::Mepc),
        field(seen, Csr::Mcause),
        field(seen, Csr::Mtval),
        field(seen, Csr::Mip),
    ];
    out.put_fields(&fields);
}

/// Writes the pc, the registers and the control and status registers.
pub(crate) fn write_state<W: Write>(out: &mut Sink<'_, W>, seen: &Observed)
    ensures { Says W.contents out.old out.new (state_lines seen.now.pc seen.now.regs seen.now.csrs seen.now.lines) }
{
    out.put_fields(&[Field {
        name: "pc",
        value: Value::Word(seen.pc),
    }]);
    write_registers(out, &seen.regs);
    write_csrs(out, seen);
}
