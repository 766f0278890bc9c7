ghost use Rattle.std.specs.Prelude.{◌≡◌, IfSome, None};
ghost use Rattle.clap.specs.Words.{kind_of};
ghost use Rattle.clap.specs.declared.error.kind.ErrorKind.TheVariants.{OutOfMemory};
ghost use Rattle.rv_refusal.specs.Usage.{HasHint, ShowsUsage, hint_of};

use clap::Error;
use clap::error::ErrorKind;
use rv_job::{FaultLines, SimError};
use rv_text::put;
use std::alloc::Global;
use std::io::Write;

const JOB_HINT: &str = "A job comes on standard input, as in 'rv_sim run < FILE'.\n";

// A word that is no argument and no command may be meant as the name of a job's file.
#[tactic(auto, unfolding(crate::specs::Usage::hint_of, crate::specs::Usage::job_hint))]
fn hint_of(kind: ErrorKind) -> &'static str
    ensures hint { result.now ≡ hint_of kind }
{
    match kind {
        ErrorKind::UnknownArgument | ErrorKind::InvalidSubcommand => JOB_HINT,
        _ => "",
    }
}

// What is said of words that are no command: `clap`'s text and a hint. `None` when out of memory, of which `clap` says
// nothing.
fn text_of(alloc: Global, error: &Error) -> Option<String>
    ensures text { IfSome result (λ text. HasHint (kind_of error.now) text.bytes.items) }
    ensures memory { kind_of error.now ≡ OutOfMemory → result ≡ None }
{
    if error.kind() == ErrorKind::OutOfMemory {
        return None;
    }
    let mut text = format!(in alloc; "{error}").ok()?;
    if text.is_empty() {
        return None;
    }
    text.push_str(hint_of(error.kind())).ok()?;
    Some(text)
}

/// Shows what `clap` says of words that are no command: help and the version on `output`, and else on
/// `errors`, with a hint after it where a word may be meant as the name of a job's file. The answer is the
/// exit status: 0 for help and the version, 2 for a fault of usage, 4 where help or the version could not be
/// written, 5 when out of memory.
pub fn show_usage<W: Write, E: Write>(
    alloc: Global,
    error: &Error,
    output: &mut W,
    errors: &mut FaultLines<E>,
) -> u8
    ensures { ShowsUsage (kind_of error.now) (W.contents output.old) (W.contents output.new)
        errors.old errors.new result }
{
    let Some(text) = text_of(alloc, error) else {
        return errors.report(SimError::Memory);
    };
    if error.use_stderr() {
        errors.report_text(text.as_bytes());
        return 2;
    }
    match put(output, text.as_bytes()) {
        Ok(()) => 0,
        Err(_) => errors.report(SimError::WriteFailed),
    }
}
