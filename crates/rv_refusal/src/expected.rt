ghost use Rattle.std.specs.Prelude.{◌≡◌, ◌++◌, OnOk};
ghost use Rattle.rv_asm.specs.Read.{tokens_in};
ghost use Rattle.rv_refusal.specs.Expected.{expected, form_lines, general_line, statement_lines};

use crate::operands::add_shapes;
use crate::ranges::add_range_line;
use crate::statement::{after_labels, first_name};
use crate::text::add_text;
use rv_asm::{AsmFault, Form, Token, form_named};
use std::alloc::AllocError;

// Appends what was expected of a statement with a name and a form.
#[tactic(auto, unfolding(crate::specs::Expected::form_lines))]
fn add_form_lines(
    out: &mut Vec<u8>,
    fault: AsmFault,
    name: &[u8],
    form: Form,
) -> Result<(), AllocError>
    ensures { OnOk result (out.new.items ≡ out.old.items ++ form_lines fault name.now form) }
{
    match fault {
        AsmFault::BadOperands => add_shapes(out, name, form),
        AsmFault::OutOfRange => add_range_line(out, form),
        _ => Ok(()),
    }
}

// Appends what was expected of a statement with a name.
fn add_statement_lines(out: &mut Vec<u8>, fault: AsmFault, name: &[u8]) -> Result<(), AllocError>
    ensures { OnOk result (out.new.items ≡ out.old.items ++ statement_lines fault name.now) }
{
    match form_named(name) {
        Some(form) => add_form_lines(out, fault, name, form),
        None => Ok(()),
    }
}

// What was expected, whatever the statement.
#[tactic(auto, unfolding(crate::specs::Expected::general_line))]
fn general_line(fault: AsmFault) -> &'static [u8]
    ensures { result.now ≡ general_line fault }
{
    match fault {
        AsmFault::BadToken => {
            b"expected: names, numbers up to 4294967295, strings that end on their line, and the marks , : ( ) + -\n"
        }
        AsmFault::UnknownMnemonic => {
            b"expected: a statement that begins with an instruction or a directive\n"
        }
        AsmFault::BadRegister => {
            b"expected: a register, x0 to x31, or its name in the calling convention\n"
        }
        AsmFault::DuplicateSymbol => b"expected: a symbol that is not defined above\n",
        AsmFault::TooLarge => b"expected: at most 16777200 bytes of text and data\n",
        AsmFault::UnknownSymbol => b"expected: a symbol that a label or .equ defines\n",
        AsmFault::Misaligned => {
            b"expected: an instruction or _start at a multiple of 4, and a target an even distance away\n"
        }
        AsmFault::BadOperands | AsmFault::OutOfRange | AsmFault::Memory => b"",
    }
}

/// Appends what was expected at a fault of a line with these tokens.
#[tactic(auto, unfolding(crate::specs::Expected::expected))]
pub(crate) fn add_expected(
    out: &mut Vec<u8>,
    fault: AsmFault,
    tokens: &[Token<'_>],
) -> Result<(), AllocError>
    ensures { OnOk result (out.new.items ≡ out.old.items ++ expected fault (tokens_in tokens.now)) }
{
    add_text(out, general_line(fault))?;
    match first_name(after_labels(tokens)) {
        Some(name) => add_statement_lines(out, fault, name),
        None => Ok(()),
    }
}
