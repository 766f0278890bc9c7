ghost use Rattle.std.specs.Prelude.{◌≡◌, ◌∷◌, [], IfOk};
ghost use Rattle.clap.specs.Words.{HasKind, found_of, rows_of};
ghost use Rattle.rv_command.specs.Command.{said_of};

use crate::arguments::{compare_command, sensitivity_command};
use crate::{also_line, show_line};
use clap::error::ErrorKind;
use clap::{ArgMatches, Command as Parser, Error};
use std::alloc::{AllocError, Global};

/// An option whose values are judged here, and not by `clap`.
#[derive(Clone, Copy)]
pub(crate) enum Judged {
    /// `--show` of `compare`.
    Show,
    /// `--also` of `sensitivity`.
    Also,
}

/// An option of which a value names nothing, or is one too many, and what is said of it.
#[derive(Drop)]
pub(crate) struct Refused {
    pub(crate) option: Judged,
    pub(crate) line: String,
}

/// What is said of the values of a command whose matches ask for nothing.
pub(crate) fn said_of(alloc: Global, name: &str, given: &ArgMatches) -> Result<Refused, AllocError>
    ensures { IfOk result (λ refused. refused.line.bytes.items ≡ said_of (name.now, rows_of (found_of given.now))) }
{
    match name {
        "sensitivity" => Ok(Refused {
            option: Judged::Also,
            line: also_line::line_given(alloc, given)?,
        }),
        _ => Ok(Refused {
            option: Judged::Show,
            line: show_line::line_given(alloc, given)?,
        }),
    }
}

// The command of an option alone, by the name that its usage has.
fn command_of<'a>(alloc: Global, option: Judged) -> Result<Parser<'a>, AllocError> {
    match option {
        Judged::Show => compare_command(alloc)?.bin_name("rv_sim compare"),
        Judged::Also => sensitivity_command(alloc)?.bin_name("rv_sim sensitivity"),
    }
}

// The error of a command's value, by what is said of it.
fn value_error(command: &mut Parser<'_>, line: &str) -> Error
    ensures kind { HasKind (ErrorKind.ValueValidation ∷ []) result }
{
    match command.error(ErrorKind::ValueValidation, line) {
        Ok(error) => error,
        Err(error) => Error::from(error),
    }
}

/// The error of a value that names nothing, or is one too many, with the usage of its command.
pub(crate) fn refusal(alloc: Global, refused: &Refused) -> Error
    ensures kind { HasKind (ErrorKind.ValueValidation ∷ []) result }
{
    match command_of(alloc, refused.option) {
        Ok(mut command) => {
            let error = value_error(&mut command, refused.line.as_str());
            drop(command);
            error
        }
        Err(error) => Error::from(error),
    }
}
