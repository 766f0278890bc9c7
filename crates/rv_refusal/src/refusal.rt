ghost use Rattle.std.specs.Prelude.{◌≡◌, ◌++◌, IfOk, OnOk};
ghost use Rattle.rv_refusal.specs.Refusal.{assembly_text, refusal_text};
ghost use Rattle.rv_refusal.specs.Separator.{later_hint};
ghost use Rattle.rv_text.specs.IsText.{IsText};

use crate::arrivals::add_arrivals;
use crate::assembly::add_assembly;
use crate::described::add_description;
use crate::lines::lines_before;
use crate::separator::add_later_hint;
use crate::text::add_text;
use crate::unfit::add_unfit;
use rv_asm::AsmError;
use rv_job::{SimError, cut_into_parts};
use rv_text::{ReportError, TextError, put};
use std::alloc::{AllocError, Global};
use std::io::Write;

// Appends the fault of an assembly that so many lines of the job stand before, and which of its lines is no separator for
// what stands beside its two bytes.
fn add_assembly_lines(
    alloc: Global,
    out: &mut Vec<u8>,
    before: usize,
    assembly: &[u8],
    error: AsmError,
) -> Result<(), AllocError>
    ensures { OnOk result (out.new.items ≡ out.old.items
        ++ (assembly_text before assembly.now error ++ later_hint before error.line assembly.now)) }
{
    add_assembly(alloc, out, before, assembly, error)?;
    add_later_hint(out, before, error.line, assembly)
}

// Appends why a job is refused.
#[tactic(auto, unfolding(crate::specs::Refusal::refusal_text))]
fn add_refusal(
    alloc: Global,
    out: &mut Vec<u8>,
    text: &[u8],
    error: SimError,
) -> Result<(), AllocError>
    ensures { OnOk result (out.new.items ≡ out.old.items ++ refusal_text text.now error) }
{
    match error {
        SimError::TooLong => add_text(out, b"expected: at most 33554432 bytes\n"),
        SimError::Description(error) => {
            add_description(alloc, out, cut_into_parts(text).description, error)
        }
        SimError::Arrivals(error) => add_arrivals(alloc, out, cut_into_parts(text), error),
        SimError::Assembly(error) => {
            let assembly = cut_into_parts(text).assembly;
            add_assembly_lines(alloc, out, lines_before(text, assembly), assembly, error)
        }
        SimError::ImageDoesNotFit { bytes, ram } => add_unfit(out, bytes, ram),
        _ => Ok(()),
    }
}

// Why a job is refused.
fn refusal(alloc: Global, text: &[u8], error: SimError) -> Result<Vec<u8>, AllocError>
    ensures { IfOk result (λ out. out.items ≡ refusal_text text.now error) }
{
    let mut out = Vec::new(alloc);
    add_refusal(alloc, &mut out, text, error)?;
    Ok(out)
}

/// Writes why a job is refused, for its reader: the line at fault with its numbers in the job and in its part, and
/// what was expected there; of an image that does not fit, its size and that of the RAM. `text` is the job, and `error`
/// its fault. Of a fault that needs no more words, and where memory or the output failed, nothing is written.
///
/// Fails by `Memory`, and has written nothing then, or by `WriteFailed`, and has written a beginning of the text.
pub fn write_refusal<W: Write>(
    alloc: Global,
    text: &[u8],
    error: SimError,
    writer: &mut W,
) -> Result<(), TextError>
    ensures { IsText (λ _ shown. shown ≡ refusal_text text.now error) result (W.contents writer.old)
        (W.contents writer.new) }
{
    let Ok(shown) = refusal(alloc, text, error) else {
        return Err(TextError::Memory);
    };
    match put(writer, shown.as_slice()) {
        Ok(()) => Ok(()),
        Err(ReportError::WriteFailed) => Err(TextError::WriteFailed),
    }
}
