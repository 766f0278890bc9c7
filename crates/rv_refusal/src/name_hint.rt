ghost use Rattle.std.specs.Prelude.{◌≡◌, ◌++◌, OnOk};
ghost use Rattle.rv_asm.specs.Read.{tokens_in};
ghost use Rattle.rv_refusal.specs.NameHint.{is_known_otherwise, label_hint, name_hint, reads_as_label, statement_hint};
ghost use Rattle.rv_refusal.specs.NameHint.{unknown_hint};

use crate::counterpart::counterpart;
use crate::foreign_name::foreign_hint;
use crate::name_on::begins_with;
use crate::text::{add_all, add_text};
use rv_asm::{Token, form_named};
use std::alloc::{AllocError, Global};

// Whether a name at the front reads as a label without its colon.
fn reads_as_label(body: &[Token<'_>]) -> bool
    ensures { result ≡ reads_as_label (tokens_in body.now) }
{
    match body {
        [Token::Name(_)] => true,
        [Token::Name(_), Token::Name(next), ..] => form_named(next).is_some(),
        _ => false,
    }
}

// Whether a name in small letters is known otherwise: from other assemblers, or here.
fn is_known_otherwise(small: &[u8]) -> bool
    ensures { result ≡ is_known_otherwise small.now }
{
    counterpart(small).is_some() || form_named(small).is_some()
}

// Appends what to write in place of a statement with an unknown mnemonic, which is so in small letters.
#[tactic(auto, unfolding(crate::specs::NameHint::label_hint))]
fn add_label_hint(
    out: &mut Vec<u8>,
    small: &[u8],
    name: &[u8],
    body: &[Token<'_>],
) -> Result<(), AllocError>
    ensures { OnOk result (out.new.items ≡ out.old.items ++ label_hint small.now name.now (tokens_in body.now)) }
{
    if is_known_otherwise(small) {
        return Ok(());
    }
    if !reads_as_label(body) {
        return Ok(());
    }
    add_all(
        out,
        &[b"hint: a label has a colon after it, as in ", name, b":\n"],
    )
}

// Appends what to write in place of a statement with a name that no other assembler has, either, which is so in small
// letters.
fn add_unknown_hint(
    out: &mut Vec<u8>,
    small: &[u8],
    body: &[Token<'_>],
    name: &[u8],
) -> Result<(), AllocError>
    ensures { OnOk result (out.new.items ≡ out.old.items ++ unknown_hint small.now (tokens_in body.now) name.now) }
{
    if begins_with(b'.', name) {
        return Ok(());
    }
    add_label_hint(out, small, name, body)
}

// Appends what to write in place of a statement with an unknown name.
fn add_name_hint(
    alloc: Global,
    out: &mut Vec<u8>,
    body: &[Token<'_>],
    name: &[u8],
) -> Result<(), AllocError>
    ensures { OnOk result (out.new.items ≡ out.old.items ++ name_hint (tokens_in body.now) name.now) }
{
    let small = name.to_ascii_lowercase(alloc)?;
    let hint = foreign_hint(small.as_slice());
    if hint.is_empty() {
        return add_unknown_hint(out, small.as_slice(), body, name);
    }
    add_text(out, hint)
}

/// Appends what to write in place of a statement whose name is unknown or that has none.
#[tactic(auto, unfolding(crate::specs::NameHint::statement_hint))]
pub(crate) fn add_statement_hint(
    alloc: Global,
    out: &mut Vec<u8>,
    body: &[Token<'_>],
) -> Result<(), AllocError>
    ensures { OnOk result (out.new.items ≡ out.old.items ++ statement_hint (tokens_in body.now)) }
{
    match body {
        [Token::Number(_), Token::Colon, ..] => {
            add_text(out, b"hint: a label is a name, as in again:\n")
        }
        [Token::Name(_), Token::Minus, ..] => {
            add_text(out, b"hint: a name has letters, digits, _ . and $\n")
        }
        [Token::Name(name), ..] => add_name_hint(alloc, out, body, name),
        _ => Ok(()),
    }
}
