ghost use Rattle.std.specs.Prelude.{◌≡◌};
ghost use Rattle.rv_report.specs.Memory.{word_seen, seen_memory_lines};
ghost use Rattle.rv_report.specs.ReferenceReport.{count_lines, reference_report};
ghost use Rattle.rv_text.specs.Said.{Says};
ghost use Rattle.rv_text.specs.Written.{IsWritten};

use crate::memory::{word_of, write_word};
use crate::options::Options;
use crate::state::{write_state, write_stop};
use rv_arch::{RefOutcome, Reference};
use rv_text::{Field, ReportError, Sink, Value};
use std::io::Write;

// The counts of a run.
#[tactic(auto, unfolding(crate::specs::ReferenceReport::count_lines, rv_text::specs::Line::count_line))]
fn write_counts<W: Write>(out: &mut Sink<'_, W>, outcome: &RefOutcome)
    ensures { Says W.contents out.old out.new (count_lines outcome.now) }
{
    out.put_fields(&[
        Field {
            name: "steps",
            value: Value::Count(outcome.steps),
        },
        Field {
            name: "retired",
            value: Value::Count(outcome.retired),
        },
        Field {
            name: "traps",
            value: Value::Count(outcome.traps),
        },
        Field {
            name: "interrupts",
            value: Value::Count(outcome.interrupts),
        },
    ]);
}

// The word of memory at an address, or `None` outside RAM.
#[tactic(auto, unfolding(crate::specs::Memory::word_seen))]
fn word_at(reference: &Reference, address: u32) -> Option<u32>
    ensures { result ≡ word_seen reference.now.layout reference.now.state.ram address }
{
    word_of(
        reference.byte(address),
        reference.byte(address.wrapping_add(1)),
        reference.byte(address.wrapping_add(2)),
        reference.byte(address.wrapping_add(3)),
    )
}

// So many words of memory from an address on.
fn write_seen_memory<W: Write>(
    out: &mut Sink<'_, W>,
    reference: &Reference,
    address: u32,
    words: u32,
)
    ensures { Says W.contents out.old out.new
        (seen_memory_lines reference.now.layout reference.now.state.ram address words) }
{
    for number in 0..words {
        let place = address.wrapping_add(number.wrapping_mul(4));
        write_word(out, place, word_at(reference, place));
    }
}

// The report of a run of the reference.
fn say_reference<W: Write>(
    outcome: &RefOutcome,
    reference: &Reference,
    options: &Options,
    out: &mut Sink<'_, W>,
)
    ensures { Says W.contents out.old out.new (reference_report outcome.now reference.now options.now) }
{
    write_stop(out, outcome.stop);
    write_counts(out, outcome);
    write_state(out, &reference.observe());
    write_seen_memory(out, reference, options.dump_address, options.dump_words);
}

/// Writes the report of a run of the reference: why it ended, the counts, the pc, the registers and
/// the control and status registers, and the words of memory that the options ask for. Asks for no
/// memory. Fails by `WriteFailed` alone, and what was written is then a beginning of the report.
#[tactic(auto, using(rv_text::proofs::Saying::says_written))]
pub fn write_reference<W: Write>(
    outcome: &RefOutcome,
    reference: &Reference,
    options: &Options,
    writer: &mut W,
) -> Result<(), ReportError>
    ensures { IsWritten result (W.contents writer.old) (W.contents writer.new)
        (reference_report outcome.now reference.now options.now) }
{
    let mut out = Sink::new(writer);
    say_reference(outcome, reference, options, &mut out);
    out.outcome()
}
