ghost use Rattle.std.specs.Prelude.{◌≡◌, IfOk, option_copied};
ghost use Rattle.rv_asm.specs.Layout.{body_of};
ghost use Rattle.rv_asm.specs.Read.{tokens_in};
ghost use Rattle.rv_refusal.specs.Statement.{first_name, tokens_on};

use rv_asm::{AsmFault, Token, tokenize};
use std::alloc::{AllocError, Global};

/// What stands after the labels of a line.
pub(crate) fn after_labels<'t, 'a>(tokens: &'t [Token<'a>]) -> &'t [Token<'a>]
    ensures { tokens_in result.now ≡ body_of (tokens_in tokens.entry.now) }
{
    rv_asm::after_labels(tokens).0
}

/// The name that tokens begin with.
pub(crate) fn first_name<'a>(tokens: &[Token<'a>]) -> Option<&'a [u8]>
    ensures { option_copied result ≡ first_name (tokens_in tokens.now) }
{
    match tokens {
        [Token::Name(name), ..] => Some(name),
        _ => None,
    }
}

/// The tokens of a line; none of one that has bytes that are no token.
pub(crate) fn tokens_on(alloc: Global, line: &[u8]) -> Result<Vec<Token<'_>>, AllocError>
    ensures { IfOk result (λ tokens. tokens_in tokens.items ≡ tokens_on line.entry.now) }
{
    match tokenize(alloc, line) {
        Ok(tokens) => Ok(tokens),
        Err(AsmFault::Memory) => Err(AllocError),
        Err(_) => Ok(Vec::new(alloc)),
    }
}
