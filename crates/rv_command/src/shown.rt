ghost use Rattle.std.specs.Prelude.{◌≡◌, map};
ghost use Rattle.clap.specs.Words.{found_of, rows_of};
ghost use Rattle.rv_asm.specs.Read.{token_of};
ghost use Rattle.rv_command.specs.Shown.{column_of, columns_in, columns_of, name_shown, shown_by, shown_of};

use crate::lone_token::lone_token;
use clap::ArgMatches;
use rv_asm::{Token, register_named};
use rv_isa::Reg;

/// What a table shows of a run besides its counts.
#[derive(Clone, Copy, PartialEq, Eq)]
pub enum Shown {
    /// What a register holds at the end.
    Register(Reg),
    /// The word of memory at an address, which is a multiple of 4, at the end.
    Word(u32),
    /// What became of the places for dispatch.
    Places,
}

/// What a table shows in further columns, in their order.
#[derive(Clone, Copy, PartialEq, Eq)]
pub struct ShownColumns {
    pub first: Option<Shown>,
    pub second: Option<Shown>,
    pub third: Option<Shown>,
    pub fourth: Option<Shown>,
}

/// The most further columns of a table.
pub(crate) const MOST_SHOWN: usize = 4;

// What a name stands for.
fn name_shown(name: &[u8]) -> Option<Shown>
    ensures { result ≡ name_shown name.now }
{
    if name == b"places".as_slice() {
        Some(Shown::Places)
    } else {
        Some(Shown::Register(register_named(name)?))
    }
}

// What a token names.
fn shown_by(token: Token<'_>) -> Option<Shown>
    ensures { result ≡ shown_by (token_of token.entry) }
{
    match token {
        Token::Name(name) => name_shown(name),
        Token::Number(address) => {
            if address % 4 == 0 {
                Some(Shown::Word(address))
            } else {
                None
            }
        }
        _ => None,
    }
}

/// What a text names.
pub(crate) fn named(text: &str) -> Option<Shown>
    ensures { result ≡ shown_of text.now }
{
    shown_by(lone_token(text.as_bytes())?)
}

// What the text at a place names, where one is there.
fn column(texts: &[&str], place: usize) -> Option<Option<Shown>>
    ensures { result ≡ column_of (map (λ text. text.now) texts.now) place }
{
    match texts.get(place) {
        Some(text) => Some(Some(named(*text)?)),
        None => Some(None),
    }
}

// What texts name.
fn columns(texts: &[&str]) -> Option<ShownColumns>
    ensures { result ≡ columns_of (map (λ text. text.now) texts.now) }
{
    if texts.len() > MOST_SHOWN {
        return None;
    }
    Some(ShownColumns {
        first: column(texts, 0)?,
        second: column(texts, 1)?,
        third: column(texts, 2)?,
        fourth: column(texts, 3)?,
    })
}

/// What the texts of `--show` name.
pub(crate) fn columns_given(given: &ArgMatches) -> Option<ShownColumns>
    ensures { result ≡ columns_in (rows_of (found_of given.now)) }
{
    match given.get_strs("show") {
        Some(texts) => columns(texts),
        None => columns(&[]),
    }
}
