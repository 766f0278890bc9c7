ghost use Rattle.std.specs.Prelude.{◌≡◌};
ghost use Rattle.rv_job.specs.Fault.{arrivals_line, assembly_line, described_line};
ghost use Rattle.rv_job.specs.Fault.{description_line, fault_line, fault_status, gap, unfit_line};
ghost use Rattle.rv_text.specs.Said.{Says};
ghost use Rattle.rv_text.specs.Written.{IsWritten};

use crate::errors::SimError;
use itoa::Buffer;
use rv_asm::AsmError;
use rv_describe::{ArrivalsError, DescriptionError, key_name};
use rv_text::{ReportError, Sink};
use std::io::Write;

// What stands between the name of a description's fault and the key that it names.
#[tactic(auto, unfolding(crate::specs::Fault::gap))]
fn gap(error: DescriptionError) -> &'static str
    ensures { result.now ≡ gap error }
{
    match error {
        DescriptionError::NotToml | DescriptionError::UnknownKey | DescriptionError::Memory => "",
        _ => " ",
    }
}

// The line that reports a description's fault, with the key that it names.
#[tactic(auto, unfolding(crate::specs::Fault::description_line))]
fn write_description_fault<W: Write>(out: &mut Sink<'_, W>, error: DescriptionError)
    ensures { Says W.contents out.old out.new (description_line error) }
{
    let name = error.name().as_bytes();
    let gap = gap(error).as_bytes();
    let key = key_name(error.place()).as_bytes();
    out.put_all(&[b"error: description: ", name, gap, key, b"\n"])
}

// The line that reports the fault of one of several descriptions, with its number and the key that the fault names.
#[tactic(auto, unfolding(crate::specs::Fault::described_line))]
fn write_described_fault<W: Write>(out: &mut Sink<'_, W>, number: usize, error: DescriptionError)
    ensures { Says W.contents out.old out.new (described_line number error) }
{
    let mut buffer = Buffer::new();
    let number = buffer.format(number).as_bytes();
    let name = error.name().as_bytes();
    let gap = gap(error).as_bytes();
    let key = key_name(error.place()).as_bytes();
    out.put_all(&[b"error: description ", number, b": ", name, gap, key, b"\n"])
}

// The line that reports that an image does not fit one of several descriptions, with its number.
#[tactic(auto, unfolding(crate::specs::Fault::unfit_line))]
fn write_unfit<W: Write>(out: &mut Sink<'_, W>, number: usize)
    ensures { Says W.contents out.old out.new (unfit_line number) }
{
    let mut buffer = Buffer::new();
    let number = buffer.format(number).as_bytes();
    out.put_all(&[b"error: image does not fit description ", number, b"\n"])
}

// The line that reports a fault of arrivals, with the number of the entry that it names.
#[tactic(auto, unfolding(crate::specs::Fault::arrivals_line, rv_describe::specs::FaultName::number_text))]
fn write_arrivals_fault<W: Write>(out: &mut Sink<'_, W>, error: ArrivalsError)
    ensures { Says W.contents out.old out.new (arrivals_line error) }
{
    let kind = error.kind().as_bytes();
    match error {
        ArrivalsError::WrongKind { entry, .. }
        | ArrivalsError::OutOfRange { entry, .. }
        | ArrivalsError::Unsorted { entry } => {
            let mut buffer = Buffer::new();
            let number = buffer.format(entry).as_bytes();
            out.put_all(&[b"error: arrivals: ", kind, number, b"\n"])
        }
        _ => out.put_all(&[b"error: arrivals: ", kind, b"\n"]),
    }
}

// The line that reports the assembly's first fault.
#[tactic(auto, unfolding(crate::specs::Fault::assembly_line))]
fn write_assembly_fault<W: Write>(out: &mut Sink<'_, W>, error: AsmError)
    ensures { Says W.contents out.old out.new (assembly_line error) }
{
    let mut buffer = Buffer::new();
    let line = buffer.format(error.line).as_bytes();
    let name = error.fault.name().as_bytes();
    out.put_all(&[b"error: assembly line ", line, b": ", name, b"\n"])
}

// The line that reports a fault.
#[tactic(auto, unfolding(crate::specs::Fault::fault_line))]
fn say_fault<W: Write>(out: &mut Sink<'_, W>, error: SimError)
    ensures { Says W.contents out.old out.new (fault_line error) }
{
    match error {
        SimError::Description(error) => write_description_fault(out, error),
        SimError::Described { number, error } => write_described_fault(out, number, error),
        SimError::Arrivals(error) => write_arrivals_fault(out, error),
        SimError::Assembly(error) => write_assembly_fault(out, error),
        SimError::DoesNotFit { number } => write_unfit(out, number),
        _ => out.put_all(&[b"error: ", error.what_failed().as_bytes(), b"\n"]),
    }
}

/// Writes the line that reports a fault.
#[tactic(auto, using(rv_text::proofs::Saying::says_written))]
pub(crate) fn write_fault<W: Write>(writer: &mut W, error: SimError) -> Result<(), ReportError>
    ensures { IsWritten result (W.contents writer.old) (W.contents writer.new) (fault_line error) }
{
    let mut out = Sink::new(writer);
    say_fault(&mut out, error);
    out.outcome()
}

/// The exit status of a fault: 1 for a job that is refused, 4 where output failed, 5 when out of
/// memory.
#[tactic(auto, unfolding(crate::specs::Fault::fault_status))]
pub(crate) fn fault_status(error: SimError) -> u8
    ensures { result ≡ fault_status error }
{
    match error {
        SimError::TooLong
        | SimError::TooManyDescriptions
        | SimError::Description(_)
        | SimError::Described { .. }
        | SimError::Arrivals(_)
        | SimError::Assembly(_)
        | SimError::ImageDoesNotFit { .. }
        | SimError::DoesNotFit { .. } => 1,
        SimError::WriteFailed => 4,
        SimError::Memory => 5,
    }
}
