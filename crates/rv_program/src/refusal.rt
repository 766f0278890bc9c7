//! What the output gets of an input that is refused.
ghost use Rattle.std.specs.Prelude.{Some};
ghost use Rattle.rv_refusal.specs.Refusal.{refusal_text};
ghost use Rattle.rv_program.specs.Refused.{HandsBack, IsFlushed};

use rv_command::Command;
use rv_job::SimError;
use rv_refusal::write_refusal;
use rv_text::TextError;
use std::alloc::Global;
use std::io::Write;

// Writes why an input is refused, and has the output pass it on.
fn show_refusal<W: Write>(
    alloc: Global,
    input: &[u8],
    error: SimError,
    output: &mut W,
) -> Result<(), TextError>
    ensures { IsFlushed (refusal_text input.now error) result (W.contents output.old) (W.contents output.new) }
{
    match write_refusal(alloc, input, error, output) {
        Ok(()) => match output.flush() {
            Ok(()) => Ok(()),
            Err(_) => Err(TextError::WriteFailed),
        },
        Err(error) => Err(error),
    }
}

/// Hands back the output of an input that a command refuses: as it was given, but where the job was to be explained. Then it has
/// got why the job is refused, and was flushed. What is answered says whether memory or a write failed: then the output has got
/// nothing, or a beginning of that text, or all of it where the flush failed.
pub(crate) fn hand_back<W: Write + Drop>(
    alloc: Global,
    command: &Command,
    input: &[u8],
    error: SimError,
    output: W,
) -> (W, Result<(), TextError>)
    ensures { HandsBack W.contents command.now input.now error output (Some result.0) result.1 }
{
    match command {
        Command::Explain { .. } => {
            let mut output = output;
            let refusal = show_refusal(alloc, input, error, &mut output);
            (output, refusal)
        }
        _ => (output, Ok(())),
    }
}
