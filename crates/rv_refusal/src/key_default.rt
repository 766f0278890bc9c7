ghost use Rattle.std.specs.Prelude.{◌≡◌, ◌++◌, OnOk};
ghost use Rattle.rv_describe.specs.KeyRange.{key_range, number_text, quoted};
ghost use Rattle.rv_refusal.specs.KeyDefault.{key_default, truth_word, values_line};

use crate::key_names::text_of;
use crate::text::{add_all, add_text};
use rv_describe::{KeyNumber, KeyRange};
use rv_isa::{Key, NumberKey, Values};
use std::alloc::AllocError;
use std::io::Write;

#[tactic(auto, unfolding(crate::specs::KeyDefault::truth_word))]
fn truth_word(value: bool) -> &'static [u8]
    ensures { result.now ≡ truth_word value }
{
    if value { b"true" } else { b"false" }
}

// Appends a word in quotes.
fn add_quoted(out: &mut Vec<u8>, word: &[u8]) -> Result<(), AllocError>
    ensures { OnOk result (out.new.items ≡ out.old.items ++ quoted word.now) }
{
    add_all(out, &[b"\"", word, b"\""])
}

// Appends the values that a key takes.
fn add_key_range(out: &mut Vec<u8>, key: Key) -> Result<(), AllocError>
    ensures { OnOk result (out.new.items ≡ out.old.items ++ key_range key) }
{
    match write!(out, "{}", KeyRange { key }) {
        Ok(()) => Ok(()),
        Err(_) => Err(AllocError),
    }
}

// Appends a number that stands at a key.
fn add_key_number(out: &mut Vec<u8>, key: NumberKey, number: u32) -> Result<(), AllocError>
    ensures { OnOk result (out.new.items ≡ out.old.items ++ number_text key number) }
{
    match write!(out, "{}", KeyNumber { key, number }) {
        Ok(()) => Ok(()),
        Err(_) => Err(AllocError),
    }
}

// Appends the value of a key that is missing.
#[tactic(auto, unfolding(crate::specs::KeyDefault::key_default))]
fn add_key_default(out: &mut Vec<u8>, key: Key) -> Result<(), AllocError>
    ensures { OnOk result (out.new.items ≡ out.old.items ++ key_default key) }
{
    let standard = Values::standard();
    match key {
        Key::Number(key) => add_key_number(out, key, standard.number(key)),
        Key::Recovery => add_quoted(out, standard.recovery.name().as_bytes()),
        Key::Pipelined(kind) => { add_text(out, truth_word(standard.kinds.get(kind).pipelined)) }
        Key::PredictorKind => add_quoted(out, standard.predictor.kind.name().as_bytes()),
    }
}

/// Appends the line on the values that a key takes, and the one that it has where it is missing.
#[tactic(auto, unfolding(crate::specs::KeyDefault::values_line))]
pub(crate) fn add_values_line(out: &mut Vec<u8>, key: Key) -> Result<(), AllocError>
    ensures { OnOk result (out.new.items ≡ out.old.items ++ values_line key) }
{
    add_all(out, &[b"expected: ", text_of(key), b" is "])?;
    add_key_range(out, key)?;
    add_text(out, b", by default ")?;
    add_key_default(out, key)?;
    add_text(out, b"\n")
}
