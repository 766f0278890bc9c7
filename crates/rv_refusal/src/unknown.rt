ghost use Rattle.std.specs.Prelude.{◌≡◌, ◌++◌, OnOk, map, option_copied};
ghost use Rattle.rv_asm.specs.Read.{tokens_in};
ghost use Rattle.rv_refusal.specs.Names.{known_names, names_csr, takes_csr, unknown_name};
ghost use Rattle.rv_refusal.specs.NameSet.{holds};
ghost use Rattle.rv_refusal.specs.Near.{aligns_to_power, known_line, line_without, mnemonic_line};
ghost use Rattle.rv_refusal.specs.Near.{nearest_line, small_line};

use crate::counterpart::counterpart;
use crate::culprit::operand_of_fault;
use crate::foreign_name::{csr_hint, foreign_hint};
use crate::name_on::begins_with;
use crate::name_set::NameSet;
use crate::names::{add_mnemonics, csrs, directives, registers};
use crate::near::{add_names_line, add_nearest, add_spelling_line};
use crate::statement::{after_labels, first_name};
use crate::text::add_text;
use rv_asm::{AsmFault, Form, Operation, Token, form_named};
use std::alloc::{AllocError, Global};

/// Whether an instruction has a CSR among its operands.
pub(crate) fn takes_csr(name: &[u8]) -> bool
    ensures { result ≡ takes_csr name.now }
{
    matches!(
        form_named(name),
        Some(Form::Instruction(Operation::Csr(_) | Operation::CsrImmediate(_), _, _, _))
    )
}

// Whether a statement has a CSR among its operands.
fn names_csr(body: &[Token<'_>]) -> bool
    ensures { result ≡ names_csr (tokens_in body.now) }
{
    match first_name(body) {
        Some(name) => takes_csr(name),
        None => false,
    }
}

/// The name at fault in a statement.
#[tactic(auto, unfolding(crate::specs::Names::unknown_name))]
pub(crate) fn unknown_name<'a>(
    fault: AsmFault,
    defined: &NameSet<'_>,
    body: &[Token<'a>],
) -> Option<&'a [u8]>
    ensures { option_copied result ≡ unknown_name fault (holds defined.now) (tokens_in body.now) }
{
    match fault {
        AsmFault::UnknownMnemonic => first_name(body),
        AsmFault::BadOperands if !names_csr(body) => None,
        _ => first_name(operand_of_fault(fault, defined, body)?),
    }
}

// Adds the names that may stand in place of one at a fault of an assembly that defines these symbols.
#[tactic(auto, unfolding(crate::specs::Names::known_names))]
fn add_known_names<'a>(
    names: &mut Vec<&'a [u8]>,
    fault: AsmFault,
    name: &[u8],
    symbols: &[&'a [u8]],
) -> Result<(), AllocError>
    ensures { OnOk result (map (λ name. name.now) names.new.items
        ≡ map (λ name. name.now) names.old.items
        ++ known_names fault name.now (map (λ symbol. symbol.now) symbols.now)) }
{
    match fault {
        AsmFault::UnknownMnemonic if begins_with(b'.', name) => {
            names.extend_from_slice(directives())
        }
        AsmFault::UnknownMnemonic => add_mnemonics(names),
        AsmFault::BadRegister => names.extend_from_slice(registers()),
        AsmFault::BadOperands => names.extend_from_slice(csrs()),
        _ => names.extend_from_slice(symbols),
    }
}

// Whether a name is a directive of other assemblers, whose number is the exponent of a power of two.
fn aligns_to_power(name: &[u8]) -> bool
    ensures { result ≡ aligns_to_power name.now }
{
    name == b".align".as_slice() || name == b".p2align".as_slice()
}

// Appends the line on the spelling of an unknown name, unless a hint says more of it.
#[tactic(auto, unfolding(crate::specs::Near::line_without))]
fn add_line_without(
    alloc: Global,
    out: &mut Vec<u8>,
    hint: &[u8],
    name: &[u8],
    known: &[&[u8]],
) -> Result<(), AllocError>
    ensures { OnOk result (out.new.items
        ≡ out.old.items ++ line_without hint.now name.now (map (λ other. other.now) known.now)) }
{
    if hint.is_empty() {
        return add_spelling_line(alloc, out, name, known);
    }
    Ok(())
}

// Appends the line on an unknown mnemonic, which is so in small letters.
#[tactic(auto, unfolding(crate::specs::Near::small_line))]
fn add_small_line(
    alloc: Global,
    out: &mut Vec<u8>,
    small: &[u8],
    name: &[u8],
    known: &[&[u8]],
) -> Result<(), AllocError>
    ensures { OnOk result (out.new.items
        ≡ out.old.items ++ small_line small.now name.now (map (λ other. other.now) known.now)) }
{
    if aligns_to_power(small) {
        return add_text(
            out,
            b"nearest: .balign, in bytes: .balign 4 for .align 2, .balign 8 for .align 3\n",
        );
    }
    if small == b".section".as_slice() {
        return add_names_line(out, &[b".text", b".data"]);
    }
    match counterpart(small) {
        Some(other) => add_names_line(out, &[other]),
        None => add_line_without(alloc, out, foreign_hint(small), name, known),
    }
}

// Appends the line on an unknown mnemonic.
#[tactic(auto, unfolding(crate::specs::Near::mnemonic_line))]
fn add_mnemonic_line(
    alloc: Global,
    out: &mut Vec<u8>,
    name: &[u8],
    known: &[&[u8]],
) -> Result<(), AllocError>
    ensures { OnOk result (out.new.items
        ≡ out.old.items ++ mnemonic_line name.now (map (λ other. other.now) known.now)) }
{
    let small = name.to_ascii_lowercase(alloc)?;
    add_small_line(alloc, out, small.as_slice(), name, known)
}

// Appends the line on an unknown name by those that may stand in its place, where these symbols are defined.
#[tactic(auto, unfolding(crate::specs::Near::known_line))]
fn add_known(
    alloc: Global,
    out: &mut Vec<u8>,
    fault: AsmFault,
    name: &[u8],
    symbols: &[&[u8]],
) -> Result<(), AllocError>
    ensures { OnOk result (out.new.items ≡ out.old.items ++ known_line fault name.now
        (known_names fault name.now (map (λ symbol. symbol.now) symbols.now))) }
{
    let mut known = Vec::new(alloc);
    add_known_names(&mut known, fault, name, symbols)?;
    match fault {
        AsmFault::UnknownMnemonic => add_mnemonic_line(alloc, out, name, known.as_slice()),
        AsmFault::UnknownSymbol => add_nearest(alloc, out, name, known.as_slice()),
        AsmFault::BadOperands => {
            add_line_without(alloc, out, csr_hint(name), name, known.as_slice())
        }
        _ => add_spelling_line(alloc, out, name, known.as_slice()),
    }
}

/// Appends the line on the unknown name of a line at fault with these tokens, where its fault is one of a name, of an
/// assembly that defines these symbols.
#[tactic(auto, unfolding(crate::specs::Near::nearest_line))]
pub(crate) fn add_nearest_line(
    alloc: Global,
    out: &mut Vec<u8>,
    fault: AsmFault,
    defined: &NameSet<'_>,
    symbols: &[&[u8]],
    tokens: &[Token<'_>],
) -> Result<(), AllocError>
    ensures { OnOk result (out.new.items ≡ out.old.items
        ++ nearest_line fault (holds defined.now) (map (λ symbol. symbol.now) symbols.now) (tokens_in tokens.now)) }
{
    match unknown_name(fault, defined, after_labels(tokens)) {
        Some(name) => add_known(alloc, out, fault, name, symbols),
        None => Ok(()),
    }
}
