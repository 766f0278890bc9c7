ghost use Rattle.std.specs.Prelude.{◌≡◌, option_map};
ghost use Rattle.rv_asm.specs.Read.{tokens_in};
ghost use Rattle.rv_refusal.specs.Definition.{definition_on, defines};

use rv_asm::Token;

// Whether tokens begin with a label, or with a directive that defines a symbol.
fn defines(tokens: &[Token<'_>]) -> bool
    ensures { result ≡ defines (tokens_in tokens.now) }
{
    match tokens {
        [Token::Name(_), Token::Colon, ..] => true,
        [Token::Name(directive), ..] => *directive == b".equ".as_slice(),
        _ => false,
    }
}

/// From the symbol on that a line defines, if it defines one alone.
#[tactic(auto, unfolding(crate::specs::Definition::definition_on))]
pub(crate) fn definition_on<'t, 'a>(tokens: &'t [Token<'a>]) -> Option<&'t [Token<'a>]>
    ensures { option_map (λ from. tokens_in from.now) result ≡ definition_on (tokens_in tokens.entry.now) }
{
    match tokens {
        [Token::Name(_), Token::Colon, rest @ ..] => {
            if defines(rest) { None } else { Some(tokens) }
        }
        [Token::Name(_), rest @ ..] => Some(rest),
        _ => None,
    }
}
