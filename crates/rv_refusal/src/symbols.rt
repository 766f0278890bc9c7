ghost use Rattle.std.specs.Prelude.{◌≡◌, ◌++◌, IfOk, OnOk, map, option_copied};
ghost use Rattle.std.specs.Option.{option_to_list};
ghost use Rattle.rv_asm.specs.Layout.{labels_of};
ghost use Rattle.rv_asm.specs.Read.{tokens_in};
ghost use Rattle.rv_refusal.specs.Names.{constant_of, symbols_at, symbols_of, symbols_on};

use crate::names::add_name;
use crate::statement::{after_labels, first_name, tokens_on};
use rv_asm::{AsmFault, Token, first_line};
use std::alloc::{AllocError, Global};

// The symbol right after `.equ`.
fn constant_of<'a>(body: &[Token<'a>]) -> Option<&'a [u8]>
    ensures { option_to_list (option_copied result) ≡ constant_of (tokens_in body.now) }
{
    match body {
        [Token::Name(directive), others @ ..] if *directive == b".equ".as_slice() => {
            first_name(others)
        }
        _ => None,
    }
}

// Adds the labels at the front of a line.
fn add_labels<'a>(symbols: &mut Vec<&'a [u8]>, tokens: &[Token<'a>]) -> Result<(), AllocError>
    ensures { OnOk result (map (λ name. name.now) symbols.new.items
        ≡ map (λ name. name.now) symbols.old.items ++ labels_of (tokens_in tokens.now)) }
{
    let mut rest = tokens;
    while let [Token::Name(label), Token::Colon, others @ ..] = rest {
        add_name(symbols, label)?;
        rest = others;
    }
    Ok(())
}

// Adds the symbols that tokens of a line define.
fn add_symbols_on<'a>(symbols: &mut Vec<&'a [u8]>, tokens: &[Token<'a>]) -> Result<(), AllocError>
    ensures { OnOk result (map (λ name. name.now) symbols.new.items
        ≡ map (λ name. name.now) symbols.old.items ++ symbols_on (tokens_in tokens.now)) }
{
    add_labels(symbols, tokens)?;
    match constant_of(after_labels(tokens)) {
        Some(symbol) => add_name(symbols, symbol),
        None => Ok(()),
    }
}

// Adds the symbols that the lines of a text define.
#[tactic(auto, unfolding(crate::specs::Names::symbols_of))]
fn add_symbols<'a>(
    alloc: Global,
    symbols: &mut Vec<&'a [u8]>,
    text: &'a [u8],
) -> Result<(), AllocError>
    ensures { OnOk result (map (λ name. name.now) symbols.new.items
        ≡ map (λ name. name.now) symbols.old.items ++ symbols_of text.entry.now) }
{
    let mut rest = Some(text);
    while let Some(unread) = rest {
        let (line, behind) = first_line(unread);
        add_symbols_on(symbols, tokens_on(alloc, line)?.as_slice())?;
        rest = behind;
    }
    Ok(())
}

/// The symbols that an assembly defines, where one is reported that it does not.
#[tactic(auto, unfolding(crate::specs::Names::symbols_at))]
pub(crate) fn symbols_at<'a>(
    alloc: Global,
    fault: AsmFault,
    assembly: &'a [u8],
) -> Result<Vec<&'a [u8]>, AllocError>
    ensures { IfOk result (λ symbols. map (λ symbol. symbol.now) symbols.items
        ≡ symbols_at fault assembly.entry.now) }
{
    let mut symbols = Vec::new(alloc);
    if let AsmFault::UnknownSymbol = fault {
        add_symbols(alloc, &mut symbols, assembly)?;
    }
    Ok(symbols)
}
