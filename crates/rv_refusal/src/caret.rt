ghost use Rattle.std.specs.Prelude.{◌≡◌, ◌+◌, ◌<◌, ◌≤◌, ◌++◌, None, OnOk, IfSome, drop, length, replicate};
ghost use Rattle.rv_asm.specs.Read.{tokens_in};
ghost use Rattle.rv_refusal.specs.NameSet.{holds};
ghost use Rattle.rv_refusal.specs.Place.{shown_line};
ghost use Rattle.rv_refusal.specs.Caret.{caret_below, caret_line, distance, fault_place, token_place};

use crate::culprit::culprit_on;
use crate::name_set::NameSet;
use crate::place::add_line;
use crate::text::add_text;
use rv_asm::{AsmFault, Token, first_lexeme};
use std::alloc::AllocError;

// How many bytes are passed over at the front of a line, and how many tokens are then still to be passed over; none
// where the end is reached.
fn step(rest: &[u8], before: usize) -> Option<(usize, usize)>
    requires { 0 < length rest.now }
    ensures reached { result ≡ None → distance rest.now 0 before ≡ 0 }
    ensures further { IfSome result
        (λ next. distance rest.now 0 before ≡ next.0 + distance (drop next.0 rest.now) 0 next.1) }
    ensures size { IfSome result (λ next. (0 < next.0) × (next.0 ≤ length rest.now)) }
{
    let Some(found) = first_lexeme(rest) else {
        return None;
    };
    let Some(_token) = found.token else {
        return Some((found.size, before));
    };
    if before == 0 {
        return None;
    }
    Some((found.size, before - 1))
}

/// How many bytes of a line stand before the token that so many tokens stand before, or before the first bytes that are no token.
#[tactic(auto, using(crate::proofs::Distance::distance_empty))]
pub(crate) fn token_place(line: &[u8], before: usize) -> usize
    ensures { result ≡ token_place line.now before }
{
    let mut rest = line;
    let mut left = before;
    while !rest.is_empty() {
        let Some((size, others)) = step(rest, left) else {
            return line.len() - rest.len();
        };
        let (_, behind) = rest.split_at(size);
        rest = behind;
        left = others;
    }
    line.len()
}

// How many bytes of a line with these tokens stand before the one at fault, or before the first bytes that are no token.
#[tactic(auto, unfolding(crate::specs::Caret::fault_place))]
fn fault_place(
    fault: AsmFault,
    defined: &NameSet<'_>,
    line: &[u8],
    tokens: &[Token<'_>],
) -> Option<usize>
    ensures { result ≡ fault_place fault (holds defined.now) line.now (tokens_in tokens.now) }
{
    if let AsmFault::BadToken = fault {
        return Some(token_place(line, line.len()));
    }
    let from = culprit_on(fault, defined, tokens)?;
    let before = tokens.len().saturating_sub(from.len());
    Some(token_place(line, before))
}

// Appends so many blanks.
fn add_blanks(out: &mut Vec<u8>, count: usize) -> Result<(), AllocError>
    ensures { OnOk result (out.new.items ≡ out.old.items ++ replicate count 32) }
{
    for _blank in 0..count {
        out.push(b' ')?;
    }
    Ok(())
}

// Appends a caret below a byte of a line that is shown.
#[tactic(auto, unfolding(crate::specs::Caret::caret_below))]
fn add_caret_below(out: &mut Vec<u8>, place: usize) -> Result<(), AllocError>
    ensures { OnOk result (out.new.items ≡ out.old.items ++ caret_below place) }
{
    add_text(out, b"    ")?;
    add_blanks(out, place)?;
    add_text(out, b"^\n")
}

/// Appends a line in printing characters, with a caret below one of its bytes.
pub(crate) fn add_marked_line(
    out: &mut Vec<u8>,
    line: &[u8],
    place: usize,
) -> Result<(), AllocError>
    ensures { OnOk result (out.new.items ≡ out.old.items ++ (shown_line line.now ++ caret_below place)) }
{
    add_line(out, line)?;
    add_caret_below(out, place)
}

/// Appends the line with the caret below the token at fault, where there is one.
pub(crate) fn add_caret_line(
    out: &mut Vec<u8>,
    fault: AsmFault,
    defined: &NameSet<'_>,
    line: &[u8],
    tokens: &[Token<'_>],
) -> Result<(), AllocError>
    ensures { OnOk result (out.new.items
        ≡ out.old.items ++ caret_line fault (holds defined.now) line.now (tokens_in tokens.now)) }
{
    match fault_place(fault, defined, line, tokens) {
        Some(place) => add_caret_below(out, place),
        None => Ok(()),
    }
}
