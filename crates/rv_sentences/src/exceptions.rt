ghost use Rattle.std.specs.Prelude.{◌≡◌};
ghost use Rattle.rv_sentences.specs.Exception.{cause_name, cause_text, first_text, went_on, handler_text, taken_text};
ghost use Rattle.rv_text.specs.Said.{Says};

use crate::exception::Exception;
use itoa::Buffer;
use rv_isa::Cause;
use rv_source::{Listing, write_place};
use rv_text::{Sink, hexadecimal};
use std::io::Write;

/// The name of a cause.
#[tactic(auto, unfolding(crate::specs::Exception::cause_name))]
pub fn cause_name(cause: Cause) -> &'static [u8]
    ensures { result.now ≡ cause_name cause }
{
    match cause {
        Cause::InstructionAddressMisaligned => b"Instruction address misaligned",
        Cause::InstructionAccessFault => b"Instruction access fault",
        Cause::IllegalInstruction => b"Illegal instruction",
        Cause::Breakpoint => b"Breakpoint",
        Cause::LoadAddressMisaligned => b"Load address misaligned",
        Cause::LoadAccessFault => b"Load access fault",
        Cause::StoreAddressMisaligned => b"Store/AMO address misaligned",
        Cause::StoreAccessFault => b"Store/AMO access fault",
        Cause::EnvironmentCall => b"Environment call from M-mode",
    }
}

#[tactic(auto, using(rv_text::proofs::Saying::saying), unfolding(crate::specs::Exception::cause_text))]
fn write_cause<W: Write>(out: &mut Sink<'_, W>, exception: &Exception)
    ensures { Says W.contents out.old out.new (cause_text exception.now) }
{
    let mut buffer = Buffer::new();
    let cycle = buffer.format(exception.cycle).as_bytes();
    let name = cause_name(exception.cause);
    let value = hexadecimal(exception.value);
    out.put_all(&[cycle, b": ", name, b", mtval ", &value, b", at "]);
}

// How the program went on after a trap.
#[tactic(auto, unfolding(crate::specs::Exception::went_on))]
fn went_on(mtvec: u32) -> &'static [u8]
    ensures { result.now ≡ went_on mtvec }
{
    if mtvec / 4 == 0 {
        b"No handler was set (the address in mtvec was 0), and the program went on at "
    } else {
        b"The program went on at its handler, at "
    }
}

#[tactic(auto, unfolding(crate::specs::Exception::handler_text))]
fn write_handler<W: Write>(out: &mut Sink<'_, W>, exception: &Exception)
    ensures { Says W.contents out.old out.new (handler_text exception.now) }
{
    let how = went_on(exception.mtvec);
    let next_pc = hexadecimal(exception.next_pc);
    out.put_all(&[how, &next_pc, b"\n"]);
}

/// Writes what an exception was, and where the program went on after it. The text before it says which one it is.
#[tactic(auto, using(rv_text::proofs::Saying::saying), unfolding(crate::specs::Exception::taken_text))]
pub fn write_taken<W: Write>(
    out: &mut Sink<'_, W>,
    which: &[u8],
    listing: &Listing,
    exception: &Exception,
)
    ensures { Says W.contents out.old out.new (taken_text which.now listing.now exception.now) }
{
    out.put(which);
    write_cause(out, exception);
    write_place(out, listing, exception.pc);
    write_handler(out, exception);
}

/// Writes what the first exception of a run was, and where the program went on after it.
#[tactic(auto, unfolding(crate::specs::Exception::first_text))]
pub fn write_first<W: Write>(out: &mut Sink<'_, W>, listing: &Listing, exception: &Exception)
    ensures { Says W.contents out.old out.new (first_text listing.now exception.now) }
{
    write_taken(
        out,
        b"The first exception came in cycle ",
        listing,
        exception,
    );
}
