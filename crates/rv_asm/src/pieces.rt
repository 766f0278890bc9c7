ghost use Rattle.std.specs.Prelude.{◌≡◌, ◌<◌, ◌≤◌, ◌∷◌, IfSome, length};
ghost use Rattle.std.specs.List.{before_first, position_or_len, slice_split};
ghost use Rattle.rv_asm.specs.Operand.{is_comma};
ghost use Rattle.rv_asm.specs.Read.{pieces_left, token_of, tokens_in};

use crate::token::Token;

impl Token<'_> {
    /// Whether the token is a comma.
    pub(crate) fn is_comma(&self) -> bool
        ensures { result ≡ is_comma (token_of self.now) }
    {
        matches!(*self, Token::Comma)
    }
}

// How many tokens stand before the first comma, or how many there are.
fn length_before_comma(tokens: &[Token<'_>]) -> usize
    ensures length { result ≡ position_or_len is_comma (tokens_in tokens.now) }
    ensures in_range { result ≤ length tokens.now }
{
    for (count, token) in tokens.iter().enumerate() {
        if token.is_comma() {
            return count;
        }
    }
    tokens.len()
}

/// The tokens before the first comma, and those after it, if there is one.
pub fn first_piece<'t, 'a>(tokens: &'t [Token<'a>]) -> (&'t [Token<'a>], Option<&'t [Token<'a>]>)
    ensures first { tokens_in result.0.now ≡ before_first is_comma (tokens_in tokens.entry.now) }
    ensures pieces { slice_split is_comma (tokens_in tokens.entry.now) ≡ tokens_in result.0.now ∷ pieces_left result.1 }
    ensures shorter { IfSome result.1 (λ rest. length rest.now < length tokens.entry.now) }
{
    let size = length_before_comma(tokens);
    if size == tokens.len() {
        return (tokens, None);
    }
    let (_, rest) = tokens.split_at(size + 1);
    (&tokens[..size], Some(rest))
}

/// How many pieces the commas make of tokens.
pub fn piece_count(tokens: &[Token<'_>]) -> usize
    ensures { result ≡ length (slice_split is_comma (tokens_in tokens.now)) }
{
    let mut count = 0;
    let mut rest = Some(tokens);
    while let Some(unread) = rest {
        let (_, after) = first_piece(unread);
        count += 1;
        rest = after;
    }
    count
}
