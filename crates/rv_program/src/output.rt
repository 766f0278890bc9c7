//! The program's output, and the buffer before it.
ghost use Rattle.std.specs.Prelude.{◌≡◌, Ok, IfErr};
ghost use Rattle.std.specs.Io.Buffered.{writer_contents, writer_inner};
ghost use Rattle.rv_program.specs.Output.{PassesOn};

use crate::ended::Ended;
use rv_job::SimError;
use std::io::{BufWriter, Write};

// The output that a buffer wrote to, where the buffer is let go and nothing more of it is written.
fn cut_off<W: Write + Drop>(buffer: BufWriter<W>) -> W
    ensures { result ≡ writer_inner buffer }
{
    let (output, _) = buffer.into_parts();
    output
}

// Has an output pass on what it holds back itself, after what ended so.
fn flush<W: Write>(ended: Ended, output: &mut W) -> Result<Ended, SimError>
    ensures { PassesOn (Ok ended) result (W.contents output.old) (W.contents output.new) }
{
    match output.flush() {
        Ok(()) => Ok(ended),
        Err(_) => Err(SimError::WriteFailed),
    }
}

/// Hands back the output that a buffer writes to, into which something was written that ended so. Where that ended well,
/// the output gets all that the buffer holds, and is flushed; a write that fails then is answered. Else it gets nothing
/// more, since what a failed write left in the buffer is not to follow after the line that reports it.
pub(crate) fn pass_on<W: Write + Drop>(
    ended: Result<Ended, SimError>,
    buffer: BufWriter<W>,
) -> (Result<Ended, SimError>, W)
    ensures passed { PassesOn ended result.0 (writer_contents W.contents buffer) (W.contents result.1) }
    ensures cut_off { IfErr ended (λ _. result.1 ≡ writer_inner buffer) }
{
    match ended {
        Ok(ended) => match buffer.into_inner() {
            Ok(output) => {
                let mut output = output;
                let ended = flush(ended, &mut output);
                (ended, output)
            }
            Err(failed) => (Err(SimError::WriteFailed), cut_off(failed.into_inner())),
        },
        Err(error) => (Err(error), cut_off(buffer)),
    }
}
