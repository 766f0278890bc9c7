ghost use Rattle.std.specs.Prelude.{◌≡◌, ◌++◌, OnOk};
ghost use Rattle.rv_asm.specs.Read.{tokens_in};
ghost use Rattle.rv_refusal.specs.Hint.{body_hint, hint};
ghost use Rattle.rv_refusal.specs.NameSet.{holds};

use crate::byte_hint::add_bytes_hint;
use crate::name_hint::add_statement_hint;
use crate::name_set::NameSet;
use crate::operand_hint::{add_operands_hint, add_register_hint, range_hint, target_hint};
use crate::statement::{after_labels, first_name};
use crate::text::add_text;
use crate::unknown::unknown_name;
use rv_asm::{AsmFault, Token};
use std::alloc::{AllocError, Global};

// Appends what to write in place of a statement at fault, where these symbols are defined.
#[tactic(auto, unfolding(crate::specs::Hint::body_hint))]
fn add_body_hint(
    alloc: Global,
    out: &mut Vec<u8>,
    fault: AsmFault,
    defined: &NameSet<'_>,
    body: &[Token<'_>],
) -> Result<(), AllocError>
    ensures { OnOk result (out.new.items
        ≡ out.old.items ++ body_hint fault (holds defined.now) (tokens_in body.now)) }
{
    match fault {
        AsmFault::UnknownMnemonic => add_statement_hint(alloc, out, body),
        AsmFault::UnknownSymbol => match unknown_name(fault, defined, body) {
            Some(name) => add_register_hint(out, name),
            None => Ok(()),
        },
        AsmFault::BadOperands => add_operands_hint(out, defined, body),
        AsmFault::BadRegister => add_text(out, target_hint(body)),
        AsmFault::OutOfRange => match first_name(body) {
            Some(name) => add_text(out, range_hint(name)),
            None => Ok(()),
        },
        _ => Ok(()),
    }
}

/// Appends what to write in place of what is at fault on a line with these tokens, where these symbols are defined and
/// so many lines of the job stand before the assembly.
#[tactic(auto, unfolding(crate::specs::Hint::hint))]
pub(crate) fn add_hint(
    alloc: Global,
    out: &mut Vec<u8>,
    before: usize,
    fault: AsmFault,
    defined: &NameSet<'_>,
    line: &[u8],
    tokens: &[Token<'_>],
) -> Result<(), AllocError>
    ensures { OnOk result (out.new.items
        ≡ out.old.items ++ hint before fault (holds defined.now) line.now (tokens_in tokens.now)) }
{
    match fault {
        AsmFault::BadToken => add_bytes_hint(alloc, out, before, line),
        _ => add_body_hint(alloc, out, fault, defined, after_labels(tokens)),
    }
}
