ghost use Rattle.std.specs.Prelude.{◌≡◌, ◌++◌, OnOk};
ghost use Rattle.rv_asm.specs.Read.{tokens_in};
ghost use Rattle.rv_refusal.specs.NameSet.{holds};
ghost use Rattle.rv_refusal.specs.Refusal.{assembly_text, line_text};

use crate::caret::add_caret_line;
use crate::expected::add_expected;
use crate::further::add_further;
use crate::hint::add_hint;
use crate::lines::line_at;
use crate::name_set::NameSet;
use crate::place::{add_line, add_place};
use crate::separator::add_separator_question;
use crate::statement::tokens_on;
use crate::symbols::symbols_at;
use crate::unknown::add_nearest_line;
use rv_asm::{AsmError, Token};
use std::alloc::{AllocError, Global};

// Appends a fault of a line of these tokens with a caret below it, what was expected there, and whether a separator is missing.
#[tactic(auto, unfolding(crate::specs::Refusal::line_text))]
fn add_line_text(
    out: &mut Vec<u8>,
    before: usize,
    error: AsmError,
    defined: &NameSet<'_>,
    line: &[u8],
    tokens: &[Token<'_>],
) -> Result<(), AllocError>
    ensures { OnOk result (out.new.items
        ≡ out.old.items ++ line_text before error (holds defined.now) line.now (tokens_in tokens.now)) }
{
    add_place(out, before, error.line, error.fault)?;
    add_line(out, line)?;
    add_caret_line(out, error.fault, defined, line, tokens)?;
    add_expected(out, error.fault, tokens)?;
    add_separator_question(out, before, line)
}

/// Appends the fault of an assembly that so many lines of the job stand before, the known names that are near, what to
/// write instead, and the lines after it at fault.
#[tactic(auto, unfolding(crate::specs::Refusal::assembly_text))]
pub(crate) fn add_assembly(
    alloc: Global,
    out: &mut Vec<u8>,
    before: usize,
    assembly: &[u8],
    error: AsmError,
) -> Result<(), AllocError>
    ensures { OnOk result (out.new.items ≡ out.old.items ++ assembly_text before assembly.now error) }
{
    let line = line_at(error.line, assembly);
    let tokens = tokens_on(alloc, line)?;
    let symbols = symbols_at(alloc, error.fault, assembly)?;
    let symbols = symbols.as_slice();
    let defined = NameSet::of(alloc, symbols)?;
    add_line_text(out, before, error, &defined, line, tokens.as_slice())?;
    add_nearest_line(
        alloc,
        out,
        error.fault,
        &defined,
        symbols,
        tokens.as_slice(),
    )?;
    add_hint(
        alloc,
        out,
        before,
        error.fault,
        &defined,
        line,
        tokens.as_slice(),
    )?;
    add_further(alloc, out, before, error.line, assembly)
}
