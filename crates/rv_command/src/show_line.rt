ghost use Rattle.std.specs.Prelude.{◌≡◌, IfOk, map, option_map};
ghost use Rattle.std.specs.List.{find};
ghost use Rattle.clap.specs.Words.{found_of, rows_of};
ghost use Rattle.rv_command.specs.ShowLine.{line_in, names_nothing, nothing_line};
ghost use Rattle.rv_command.specs.ShowLine.{said_of_text, show_line, what_is_shown};

use crate::shown::{MOST_SHOWN, named};
use clap::ArgMatches;
use std::alloc::{AllocError, Global};

const WHAT_IS_SHOWN: &str =
    "WHAT is a register, as a0 or x10, the address of a word, as 0x80001000, or places";

// What is said of a text, and why.
fn said_of_text(alloc: Global, text: &str, reason: &str) -> Result<String, AllocError>
    ensures { IfOk result (λ line. line.bytes.items ≡ said_of_text text.now reason.now) }
{
    format!(in alloc; "invalid value '{text}' for '--show <WHAT>': {reason}")
}

fn names_nothing(text: &str) -> bool
    ensures { result ≡ names_nothing text.now }
{
    named(text).is_none()
}

// The first of at most four texts that names nothing.
fn first_nothing<'a>(texts: &[&'a str]) -> Option<&'a str>
    ensures { option_map (λ text. text.now) result ≡ find names_nothing (map (λ text. text.now) texts.now) }
{
    let [text, others @ ..] = texts else {
        return None;
    };
    if names_nothing(text) {
        return Some(text);
    }
    first_nothing(others)
}

// What is said of the first text that names nothing.
#[tactic(auto, unfolding(crate::specs::ShowLine::what_is_shown))]
fn nothing_line(alloc: Global, texts: &[&str]) -> Result<String, AllocError>
    ensures { IfOk result (λ line. line.bytes.items ≡ nothing_line (map (λ text. text.now) texts.now)) }
{
    match first_nothing(texts) {
        Some(text) => said_of_text(alloc, text, WHAT_IS_SHOWN),
        None => Ok(String::new(alloc)),
    }
}

// What is said of texts, where one names nothing or is one too many.
fn show_line(alloc: Global, texts: &[&str]) -> Result<String, AllocError>
    ensures { IfOk result (λ line. line.bytes.items ≡ show_line (map (λ text. text.now) texts.now)) }
{
    match texts.get(MOST_SHOWN) {
        Some(text) => said_of_text(alloc, *text, "--show may be given four times"),
        None => nothing_line(alloc, texts),
    }
}

/// What is said of the texts of `--show`, where one names nothing or is one too many. The only error is out of memory.
pub(crate) fn line_given(alloc: Global, given: &ArgMatches) -> Result<String, AllocError>
    ensures { IfOk result (λ line. line.bytes.items ≡ line_in (rows_of (found_of given.now))) }
{
    match given.get_strs("show") {
        Some(texts) => show_line(alloc, texts),
        None => show_line(alloc, &[]),
    }
}
