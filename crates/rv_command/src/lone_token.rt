ghost use Rattle.std.specs.Prelude.{◌≡◌};
ghost use Rattle.std.specs.Option.{option_map};
ghost use Rattle.rv_asm.specs.Read.{token_of};
ghost use Rattle.rv_command.specs.LoneToken.{lone_token};

use rv_asm::{Token, first_lexeme};

/// The token that a text is.
pub(crate) fn lone_token(text: &[u8]) -> Option<Token<'_>>
    ensures { option_map token_of result ≡ lone_token text.now }
{
    if text.is_empty() {
        return None;
    }
    let lexeme = first_lexeme(text)?;
    if lexeme.size != text.len() {
        return None;
    }
    lexeme.token
}
