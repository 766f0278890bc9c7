ghost use Rattle.std.specs.Prelude.{◌≡◌, ◌-◌, ◌<◌, IfSome, drop, length, option_map};
ghost use Rattle.std.specs.List.{before_first};
ghost use Rattle.rv_asm.specs.Operand.{is_comma};
ghost use Rattle.rv_asm.specs.Read.{operand_of, tokens_in};
ghost use Rattle.rv_refusal.specs.Culprit.{later_operands, operand_at, operands_left, operands_on};

use rv_asm::{Operand, Token, first_piece, read_operand};

/// The tokens from the first operand on, if there is one.
pub(crate) fn operands_on<'t, 'a>(tokens: &'t [Token<'a>]) -> Option<&'t [Token<'a>]>
    ensures { operands_left result ≡ operands_on (tokens_in tokens.entry.now) }
{
    if tokens.is_empty() {
        None
    } else {
        Some(tokens)
    }
}

/// The tokens from the next operand on, if there is one.
pub(crate) fn after_operand<'t, 'a>(tokens: &'t [Token<'a>]) -> Option<&'t [Token<'a>]>
    ensures others { operands_left result ≡ later_operands (tokens_in tokens.entry.now) }
    ensures shorter { IfSome result (λ rest. length rest.now < length tokens.entry.now) }
{
    let mut rest = tokens;
    while let [first, others @ ..] = rest {
        if let Token::Comma = first {
            return Some(others);
        }
        rest = others;
    }
    None
}

/// The operand that tokens begin with, if it is one.
pub(crate) fn operand_at<'a>(tokens: &[Token<'a>]) -> Option<Operand<'a>>
    ensures { option_map operand_of result ≡ operand_at (tokens_in tokens.now) }
{
    read_operand(first_piece(tokens).0)
}

/// An operand from the name of its register on, before which stand an offset and a parenthesis, or nothing.
pub(crate) fn from_register<'t, 'a>(tokens: &'t [Token<'a>]) -> &'t [Token<'a>]
    ensures { tokens_in result.now
        ≡ drop (length (before_first is_comma (tokens_in tokens.entry.now)) - 2) (tokens_in tokens.entry.now) }
{
    let (operand, _) = first_piece(tokens);
    let (_, from) = tokens.split_at(operand.len().saturating_sub(2));
    from
}
