ghost use Rattle.std.specs.Prelude.{◌≡◌};
ghost use Rattle.rv_asm.specs.Read.{token_of, tokens_in};
ghost use Rattle.rv_refusal.specs.OperandShape.{begins_with_address, begins_with_number, is_ended, is_word};
ghost use Rattle.rv_refusal.specs.OperandShape.{lacks_closing, lacks_comma, lacks_opening, stands_before_another};

use rv_asm::Token;

fn is_word(token: &Token<'_>) -> bool
    ensures { result ≡ is_word (token_of token.now) }
{
    matches!(token, Token::Name(_) | Token::Number(_))
}

/// Whether two names or numbers stand side by side.
pub(crate) fn lacks_comma(operand: &[Token<'_>]) -> bool
    ensures { result ≡ lacks_comma (tokens_in operand.now) }
{
    match operand {
        [first, second, ..] => is_word(first) && is_word(second),
        _ => false,
    }
}

// Whether nothing is left of an operand.
fn is_ended(rest: &[Token<'_>]) -> bool
    ensures { result ≡ is_ended (tokens_in rest.now) }
{
    matches!(rest, [] | [Token::Comma, ..])
}

/// Whether the operand at the front is a number.
pub(crate) fn begins_with_number(operand: &[Token<'_>]) -> bool
    ensures { result ≡ begins_with_number (tokens_in operand.now) }
{
    match operand {
        [Token::Number(_), rest @ ..] | [Token::Minus, Token::Number(_), rest @ ..] => {
            is_ended(rest)
        }
        _ => false,
    }
}

/// Whether a number and another operand after it stand at the front.
pub(crate) fn stands_before_another(operand: &[Token<'_>]) -> bool
    ensures { result ≡ stands_before_another (tokens_in operand.now) }
{
    matches!(
        operand,
        [Token::Number(_), Token::Comma, ..] | [Token::Minus, Token::Number(_), Token::Comma, ..]
    )
}

/// Whether a name stands after a number, with a comma or nothing in the place of the parenthesis between them.
pub(crate) fn lacks_opening(operand: &[Token<'_>]) -> bool
    ensures { result ≡ lacks_opening (tokens_in operand.now) }
{
    matches!(
        operand,
        [Token::Number(_), Token::Name(_), ..]
            | [Token::Number(_), Token::Comma, Token::Name(_), ..]
            | [Token::Minus, Token::Number(_), Token::Name(_), ..]
            | [
                Token::Minus,
                Token::Number(_),
                Token::Comma,
                Token::Name(_),
                ..
            ]
    )
}

/// Whether the parenthesis after a name is missing at the end.
pub(crate) fn lacks_closing(operand: &[Token<'_>]) -> bool
    ensures { result ≡ lacks_closing (tokens_in operand.now) }
{
    matches!(
        operand,
        [Token::LeftParenthesis, Token::Name(_)]
            | [Token::Number(_), Token::LeftParenthesis, Token::Name(_)]
    )
}

/// Whether an offset with a register and another operand after it stand at the front.
pub(crate) fn begins_with_address(operand: &[Token<'_>]) -> bool
    ensures { result ≡ begins_with_address (tokens_in operand.now) }
{
    matches!(
        operand,
        [
            Token::LeftParenthesis,
            Token::Name(_),
            Token::RightParenthesis,
            Token::Comma,
            ..
        ] | [
            Token::Number(_),
            Token::LeftParenthesis,
            Token::Name(_),
            Token::RightParenthesis,
            Token::Comma,
            ..
        ]
    )
}
