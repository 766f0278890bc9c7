ghost use Rattle.std.specs.Prelude.{◌≡◌, ◌≢◌, ◌<◌, ◌≤◌, ◌∷◌, [], ℕ, List, None, Some, length, map, ok_or, IfOk, IfSome};
ghost use Rattle.std.specs.List.{slice_split};
ghost use Rattle.std.specs.Option.{option_map};
ghost use Rattle.rv_asm.specs.Answer.{Follows};
ghost use Rattle.rv_asm.specs.Operand.{Indirect, Value, expression, based, operand};
ghost use Rattle.rv_asm.specs.Operand.{operands_of, is_comma, operands_in as operands_spelled};
ghost use Rattle.rv_asm.specs.Read.{expression_of, operand_of, operands_in, token_of, tokens_in};
ghost use Rattle.rv_asm.specs.Token.{LeftParenthesis, Name, RightParenthesis};

use crate::fault::AsmFault;
use crate::token::Token;
use std::alloc::{AllocError, Global};

/// An exact whole number, as the text writes it.
#[derive(Clone, Copy)]
pub enum Expression<'a> {
    Number(i64),
    Symbol(&'a [u8]),
    /// A symbol plus a number, which may be negative.
    Sum(&'a [u8], i64),
}

/// What stands between two commas of a statement.
#[derive(Clone, Copy)]
pub enum Operand<'a> {
    Value(Expression<'a>),
    /// A name in parentheses, after an offset or alone.
    Indirect(Option<Expression<'a>>, &'a [u8]),
    /// A string, its escapes not resolved.
    Text(&'a [u8]),
}

/// A symbol plus or minus the number that a token is, if the token before it is a sign.
fn sum<'a>(symbol: &'a [u8], sign: Token<'_>, number: Token<'_>) -> Option<Expression<'a>>
    ensures { option_map expression_of result
        ≡ expression (Name symbol.entry.now ∷ token_of sign.entry ∷ token_of number.entry ∷ []) }
{
    match (sign, number) {
        (Token::Plus, Token::Number(number)) => Some(Expression::Sum(symbol, i64::from(number))),
        (Token::Minus, Token::Number(number)) => Some(Expression::Sum(symbol, -i64::from(number))),
        _ => None,
    }
}

/// The expression that tokens spell.
fn read_expression<'a>(tokens: &[Token<'a>]) -> Option<Expression<'a>>
    ensures { option_map expression_of result ≡ expression (tokens_in tokens.now) }
{
    match tokens {
        [Token::Number(number)] => Some(Expression::Number(i64::from(*number))),
        [Token::Minus, Token::Number(number)] => Some(Expression::Number(-i64::from(*number))),
        [Token::Name(symbol)] => Some(Expression::Symbol(symbol)),
        [Token::Name(symbol), sign, number] => sum(symbol, *sign, *number),
        _ => None,
    }
}

/// The name between two parentheses.
fn in_parentheses<'a>(tokens: &[Token<'a>]) -> Option<&'a [u8]>
    ensures found { IfSome result
        (λ name. tokens_in tokens.now ≡ LeftParenthesis ∷ Name name.now ∷ RightParenthesis ∷ []) }
    ensures other { result ≡ None → (name : List ℕ) →
        tokens_in tokens.now ≢ LeftParenthesis ∷ Name name ∷ RightParenthesis ∷ [] }
{
    match tokens {
        [
            Token::LeftParenthesis,
            Token::Name(name),
            Token::RightParenthesis,
        ] => Some(name),
        _ => None,
    }
}

/// A name in parentheses, after an offset or alone.
fn indirect<'a>(offset: &[Token<'a>], name: &'a [u8]) -> Option<Operand<'a>>
    ensures alone { length offset.now ≡ 0 → option_map operand_of result ≡ Some (Indirect None name.entry.now) }
    ensures after { 0 < length offset.now → option_map operand_of result
        ≡ based (expression (tokens_in offset.now)) (Some name.entry.now) }
{
    if offset.is_empty() {
        return Some(Operand::Indirect(None, name));
    }
    Some(Operand::Indirect(Some(read_expression(offset)?), name))
}

/// A string or an expression.
fn direct<'a>(tokens: &[Token<'a>]) -> Option<Operand<'a>>
    ensures short { length tokens.now < 3 → option_map operand_of result ≡ operand (tokens_in tokens.now) }
    ensures long { 3 ≤ length tokens.now → option_map operand_of result
        ≡ option_map Value (expression (tokens_in tokens.now)) }
{
    match tokens {
        [Token::Text(raw)] => Some(Operand::Text(raw)),
        _ => Some(Operand::Value(read_expression(tokens)?)),
    }
}

/// The operand that tokens spell, if they spell one.
pub fn read_operand<'a>(tokens: &[Token<'a>]) -> Option<Operand<'a>>
    ensures { option_map operand_of result ≡ operand (tokens_in tokens.now) }
{
    let (offset, after) = tokens.split_at(tokens.len().saturating_sub(3));
    match in_parentheses(after) {
        Some(name) => indirect(offset, name),
        None => direct(tokens),
    }
}

/// The pieces between the commas.
fn pieces<'t, 'a>(
    alloc: Global,
    tokens: &'t [Token<'a>],
) -> Result<Vec<&'t [Token<'a>]>, AllocError>
    ensures { IfOk result (λ pieces. map (λ piece. tokens_in piece.now) pieces.items
        ≡ slice_split is_comma (tokens_in tokens.now)) }
{
    tokens.split(|token| token.is_comma()).collect(alloc)
}

/// The operands that pieces spell, one each.
fn read_pieces<'a>(alloc: Global, pieces: &[&[Token<'a>]]) -> Result<Vec<Operand<'a>>, AsmFault>
    ensures { Follows (λ v. operands_in v.items) result
        (ok_or (operands_spelled (map (λ piece. tokens_in piece.now) pieces.now)) AsmFault.BadOperands) }
{
    // A growing list would take room for four operands at once, and the first pass keeps each line's.
    let mut operands = Vec::with_capacity(alloc, pieces.len())?;
    for piece in pieces {
        let Some(operand) = read_operand(piece) else {
            return Err(AsmFault::BadOperands);
        };
        operands.push(operand)?;
    }
    Ok(operands)
}

/// The operands of a statement, separated by commas.
pub fn read_operands<'a>(alloc: Global, tokens: &[Token<'a>]) -> Result<Vec<Operand<'a>>, AsmFault>
    ensures { Follows (λ v. operands_in v.items) result
        (ok_or (operands_of (tokens_in tokens.now)) AsmFault.BadOperands) }
{
    if tokens.is_empty() {
        return Ok(Vec::new(alloc));
    }
    let pieces = pieces(alloc, tokens)?;
    read_pieces(alloc, pieces.as_slice())
}
