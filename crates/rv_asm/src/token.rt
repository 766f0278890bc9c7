ghost use Rattle.std.specs.Prelude.{get_or, [], None, true, ◌≡◌, ◌+◌, ◌<◌, ◌≤◌, ◌∷◌, ◌++◌, length, ok_or, OnOk, IfSome};
ghost use Rattle.std.specs.List.{prefix_len};
ghost use Rattle.std.specs.Option.{option_map};
ghost use Rattle.rv_asm.specs.Answer.{Follows};
ghost use Rattle.rv_asm.specs.Read.{lexeme_of, token_of, tokens_in};
ghost use Rattle.rv_asm.specs.Token.{escape_of, quoted_length, unescaped, first_lexeme};
ghost use Rattle.rv_asm.specs.Token.{string_lexeme, tokens_of, word_lexeme};
ghost use Rattle.rv_asm.specs.Token.{is_separator, begins_name, is_name_byte, mark_of, number_in, number_of};

use crate::fault::AsmFault;
use std::alloc::{AllocError, Global};

/// A token of a line, borrowed from the text.
#[derive(Clone, Copy)]
pub enum Token<'a> {
    /// A name, such as a mnemonic, a register, a directive or a symbol.
    Name(&'a [u8]),
    /// A number without its sign.
    Number(u32),
    Comma,
    Colon,
    LeftParenthesis,
    RightParenthesis,
    Plus,
    Minus,
    /// The bytes between the quotes of a string as they stand in the text, escapes and all.
    Text(&'a [u8]),
}

/// What a line begins with: a token, or a separator or a comment, which give none.
#[derive(Clone, Copy)]
pub struct Lexeme<'a> {
    pub token: Option<Token<'a>>,
    /// How many bytes it has.
    pub size: usize,
}

fn is_separator(byte: u8) -> bool
    ensures { result ≡ is_separator byte }
{
    matches!(byte, b' ' | b'\t' | b'\r')
}

fn begins_name(byte: u8) -> bool
    ensures { result ≡ begins_name byte }
{
    byte.is_ascii_alphabetic() || matches!(byte, b'_' | b'.' | b'$')
}

fn is_name_byte(byte: u8) -> bool
    ensures { result ≡ is_name_byte byte }
{
    begins_name(byte) || byte.is_ascii_digit()
}

#[tactic(auto, unfolding(crate::specs::Token::mark_of))]
fn mark(byte: u8) -> Option<Token<'static>>
    ensures { option_map token_of result ≡ mark_of byte }
{
    match byte {
        b',' => Some(Token::Comma),
        b':' => Some(Token::Colon),
        b'(' => Some(Token::LeftParenthesis),
        b')' => Some(Token::RightParenthesis),
        b'+' => Some(Token::Plus),
        b'-' => Some(Token::Minus),
        _ => None,
    }
}

#[tactic(auto, unfolding(crate::specs::Token::escape_of))]
fn escape(byte: u8) -> Option<u8>
    ensures { result ≡ escape_of byte }
{
    match byte {
        b'n' => Some(b'\n'),
        b't' => Some(b'\t'),
        b'\\' => Some(b'\\'),
        b'"' => Some(b'"'),
        b'0' => Some(0),
        _ => None,
    }
}

// The number that digits of a base write; std would take a plus before them.
fn number_in(digits: &[u8], base: u32) -> Option<u32>
    requires two_digits { 2 ≤ base }
    requires letters_suffice { base ≤ 36 }
    ensures { result ≡ number_in base digits.now }
{
    if *digits.first()? == b'+' {
        return None;
    }
    match str::from_utf8(digits) {
        Ok(text) => u32::from_str_radix(text, base).ok(),
        Err(_) => None,
    }
}

// The number that a word writes.
#[tactic(auto, unfolding(crate::specs::Token::number_of))]
fn number(word: &[u8]) -> Option<u32>
    ensures { result ≡ number_of word.now }
{
    match word {
        [b'0', b'x', digits @ ..] => number_in(digits, 16),
        [b'0', b'b', digits @ ..] => number_in(digits, 2),
        digits => number_in(digits, 10),
    }
}

// How many bytes of names the bytes begin with.
fn word_length(bytes: &[u8]) -> usize
    ensures { result ≡ prefix_len is_name_byte bytes.now }
{
    for (count, byte) in bytes.iter().enumerate() {
        if !is_name_byte(*byte) {
            return count;
        }
    }
    bytes.len()
}

// How many bytes of a string stand before its closing quote.
#[tactic(auto, unfolding(crate::specs::Token::from_quote))]
fn quoted_length(bytes: &[u8]) -> Option<usize>
    ensures length { result ≡ quoted_length bytes.now }
    ensures closed { IfSome result (λ n. n < length bytes.now) }
{
    let mut rest = bytes;
    loop {
        match rest {
            [] => return None,
            [b'"', ..] => return Some(bytes.len() - rest.len()),
            [b'\\', next, others @ ..] => {
                escape(*next)?;
                rest = others;
            }
            [_, others @ ..] => rest = others,
        }
    }
}

// The name or the number that a line begins with, whose first byte is one of names.
#[tactic(auto, unfolding(crate::specs::Token::word_lexeme))]
fn word(line: &[u8]) -> Option<Lexeme<'_>>
    requires some { 0 < length line.now }
    requires begins { is_name_byte (get_or line.now 0 0) ≡ true }
    ensures lexeme { option_map lexeme_of result ≡ word_lexeme (get_or line.now 0 0) line.now }
    ensures size { IfSome result (λ found. (0 < found.size) × (found.size ≤ length line.now)) }
{
    let size = word_length(line);
    let word = &line[..size];
    let token = if begins_name(line[0]) {
        Token::Name(word)
    } else {
        Token::Number(number(word)?)
    };
    Some(Lexeme {
        token: Some(token),
        size,
    })
}

// The string whose first quote stands before the bytes.
#[tactic(auto, unfolding(crate::specs::Token::string_lexeme))]
fn string(others: &[u8]) -> Option<Lexeme<'_>>
    ensures lexeme { option_map lexeme_of result ≡ string_lexeme others.now }
    ensures size { IfSome result (λ found. (0 < found.size) × (found.size ≤ length others.now + 1)) }
{
    let length = quoted_length(others)?;
    Some(Lexeme {
        token: Some(Token::Text(&others[..length])),
        size: length + 2,
    })
}

/// What a line begins with, or `None` where that is no token.
#[tactic(auto, unfolding(crate::specs::Token::first_lexeme))]
pub fn first_lexeme(line: &[u8]) -> Option<Lexeme<'_>>
    requires { 0 < length line.now }
    ensures lexeme { option_map lexeme_of result ≡ first_lexeme (get_or line.now 0 0) line.now }
    ensures size { IfSome result (λ found. (0 < found.size) × (found.size ≤ length line.now)) }
{
    let first = line[0];
    if is_separator(first) {
        return Some(Lexeme {
            token: None,
            size: 1,
        });
    }
    if first == b'#' {
        return Some(Lexeme {
            token: None,
            size: line.len(),
        });
    }
    if is_name_byte(first) {
        return word(line);
    }
    if first == b'"' {
        let (_, others) = line.split_at(1);
        return string(others);
    }
    Some(Lexeme {
        token: Some(mark(first)?),
        size: 1,
    })
}

/// The tokens of one line, without its comment. Each is borrowed from the line, and the time taken
/// grows with the line's length alone.
///
/// Fails by `BadToken` where something on the line is no token: a byte that begins none, a number
/// past 4294967295 or with a letter, digit, `_`, `.` or `$` right after it, a string that is not
/// closed on the line, or an escape that is not known; and by `Memory` where memory was refused.
pub fn tokenize<'a>(alloc: Global, line: &'a [u8]) -> Result<Vec<Token<'a>>, AsmFault>
    ensures { Follows (λ v. tokens_in v.items) result (ok_or (tokens_of line.now) AsmFault.BadToken) }
{
    let mut tokens = Vec::new(alloc);
    let mut rest = line;
    while !rest.is_empty() {
        let Some(found) = first_lexeme(rest) else {
            return Err(AsmFault::BadToken);
        };
        let (_, others) = rest.split_at(found.size);
        rest = others;
        let Some(token) = found.token else {
            continue;
        };
        tokens.push(token)?;
    }
    Ok(tokens)
}

// The first byte that a string stands for, and what is left of the string after it.
#[tactic(auto, unfolding(crate::specs::Token::unescaped))]
fn first_character(raw: &[u8]) -> Option<(u8, &[u8])>
    ensures ended { result ≡ None → unescaped raw.now ≡ [] }
    ensures character { IfSome result (λ found. unescaped raw.now ≡ found.0 ∷ unescaped found.1.now) }
    ensures shorter { IfSome result (λ found. length found.1.now < length raw.now) }
{
    match raw {
        [] => None,
        [b'\\', escaped, others @ ..] => Some((escape(*escaped).unwrap_or(*escaped), others)),
        [first, others @ ..] => Some((*first, others)),
    }
}

/// How many bytes a string stands for, whose bytes between the quotes are `raw`.
pub fn text_len(raw: &[u8]) -> usize
    ensures { result ≡ length (unescaped raw.now) }
{
    let mut bytes = 0;
    let mut rest = raw;
    while let Some((_, others)) = first_character(rest) {
        bytes += 1;
        rest = others;
    }
    bytes
}

/// Appends the bytes that a string stands for, whose bytes between the quotes are `raw`.
pub fn push_text(out: &mut Vec<u8>, raw: &[u8]) -> Result<(), AllocError>
    ensures { OnOk result (out.new.items ≡ out.old.items ++ unescaped raw.now) }
{
    let mut rest = raw;
    while let Some((byte, others)) = first_character(rest) {
        out.push(byte)?;
        rest = others;
    }
    Ok(())
}
