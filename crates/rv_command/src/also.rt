ghost use Rattle.std.specs.Prelude.{◌≡◌, ◌<◌, IfSome, length, map, position};
ghost use Rattle.clap.specs.Words.{found_of, rows_of};
ghost use Rattle.rv_asm.specs.Read.{token_of};
ghost use Rattle.rv_isa.specs.Choice.{recovery_named};
ghost use Rattle.rv_isa.specs.Key.{text_of};
ghost use Rattle.std.specs.Str.{bytes_eq};
ghost use Rattle.rv_command.specs.Also.{also_in, column_of, index_named, is_equals, is_of_one_key, is_tried, key_at};
ghost use Rattle.rv_command.specs.Also.{made, no_setting, number_by, number_named, repeated};
ghost use Rattle.rv_command.specs.Also.{set_at, set_once, setting_named, setting_of};
ghost use Rattle.rv_command.specs.Also.{settings_of, taken, tried_key, truth_named, value_at};

use crate::also_fault::{AlsoFault, Reason};
use crate::lone_token::lone_token;
use clap::ArgMatches;
use rv_asm::Token;
use rv_isa::{Key, PredictorKind, Recovery, all_keys};
use rv_sensitivity::{KeyValue, Setting, Settings, says_how_fast};

/// The most changes of a user's own.
const MOST_SETTINGS: usize = 4;

// The number that a token is.
fn number_by(token: Token<'_>) -> Option<u32>
    ensures { result ≡ number_by (token_of token.entry) }
{
    match token {
        Token::Number(number) => Some(number),
        _ => None,
    }
}

// The number that a text is.
fn number_named(text: &[u8]) -> Option<u32>
    ensures { result ≡ number_named text.now }
{
    number_by(lone_token(text)?)
}

fn truth_named(text: &[u8]) -> Option<bool>
    ensures { result ≡ truth_named text.now }
{
    if text == b"true".as_slice() {
        Some(true)
    } else if text == b"false".as_slice() {
        Some(false)
    } else {
        None
    }
}

fn recovery_named(text: &[u8]) -> Option<Recovery>
    ensures { result ≡ recovery_named text.now }
{
    if text == b"commit".as_slice() {
        Some(Recovery::Commit)
    } else if text == b"early".as_slice() {
        Some(Recovery::Early)
    } else {
        None
    }
}

// The value that a text is for a key.
fn value_at(key: Key, text: &[u8]) -> Option<KeyValue>
    ensures { result ≡ value_at key text.now }
{
    match key {
        Key::Number(_) => Some(KeyValue::Number(number_named(text)?)),
        Key::Recovery => Some(KeyValue::Recovery(recovery_named(text)?)),
        Key::Pipelined(_) => Some(KeyValue::Truth(truth_named(text)?)),
        Key::PredictorKind => Some(KeyValue::Predictor(PredictorKind::of_word(text)?)),
    }
}

fn is_named(key: Key, name: &[u8]) -> bool
    ensures { result ≡ bytes_eq (text_of key) name.now }
{
    key.place().text.as_bytes() == name
}

// The index of the key with a name.
#[tactic(auto, unfolding(crate::specs::Also::index_named))]
fn index_named(name: &[u8]) -> Option<usize>
    ensures { result ≡ index_named name.now }
{
    all_keys().iter().position(|key| is_named(*key, name))
}

// The key at an index.
#[tactic(auto, unfolding(crate::specs::Also::key_at))]
fn key_at(index: usize) -> Option<Key>
    ensures { result ≡ key_at index }
{
    all_keys().get(index).copied()
}

// A setting, where its key takes the value.
fn taken(setting: Setting) -> Option<Setting>
    ensures { result ≡ taken setting }
{
    match setting.change() {
        Some(_) => Some(setting),
        None => None,
    }
}

// Whether a key says how fast a program runs.
fn is_tried(key: Key) -> bool
    ensures { result ≡ is_tried key }
{
    match key {
        Key::Number(key) => says_how_fast(key),
        _ => true,
    }
}

// A key that says how fast a program runs, by its name, with its index.
fn tried_key(name: &[u8]) -> Result<(usize, Key), Reason>
    ensures { result ≡ tried_key name.now }
{
    let index = index_named(name).ok_or(Reason::UnknownKey)?;
    let key = key_at(index).ok_or(Reason::UnknownKey)?;
    if is_tried(key) {
        Ok((index, key))
    } else {
        Err(Reason::OtherKey(key))
    }
}

// The setting of a key to the value that a text is, where the key takes it.
fn made(index: usize, key: Key, text: &[u8]) -> Option<Setting>
    ensures { result ≡ made index key text.now }
{
    let value = value_at(key, text)?;
    taken(Setting { index, value })
}

// The setting of a key with a name.
fn setting_named(name: &[u8], text: &[u8]) -> Result<Setting, Reason>
    ensures { result ≡ setting_named name.now text.now }
{
    let (index, key) = tried_key(name)?;
    made(index, key, text).ok_or(Reason::WrongValue(key))
}

// Why a text that has no `=` sets no value.
fn no_setting(name: &[u8]) -> Result<Setting, Reason>
    ensures { result ≡ no_setting name.now }
{
    let (_, key) = tried_key(name)?;
    Err(Reason::NoValue(key))
}

fn is_equals(byte: u8) -> bool
    ensures { result ≡ is_equals byte }
{
    byte == b'='
}

/// Where the first `=` stands.
pub(crate) fn equals_at(text: &[u8]) -> Option<usize>
    ensures place { result ≡ position is_equals text.now }
    ensures within { IfSome result (λ at. at < length text.now) }
{
    text.iter().position(|byte| is_equals(*byte))
}

// The setting that a text asks for.
fn setting_of(text: &[u8]) -> Result<Setting, Reason>
    ensures { result ≡ setting_of text.now }
{
    match equals_at(text) {
        Some(at) => setting_named(text.split_at(at).0, text.split_at(at + 1).1),
        None => no_setting(text),
    }
}

// The setting of the text at a place, or why there is none.
fn set_at(place: usize, setting: Result<Setting, Reason>) -> Result<Option<Setting>, AlsoFault>
    ensures { result ≡ set_at place setting }
{
    match setting {
        Ok(setting) => Ok(Some(setting)),
        Err(reason) => Err(AlsoFault { place, reason }),
    }
}

// The setting that the text at a place asks for, where one is there.
fn column(texts: &[&str], place: usize) -> Result<Option<Setting>, AlsoFault>
    ensures { result ≡ column_of (map (λ text. text.now) texts.now) place }
{
    match texts.get(place) {
        Some(text) => set_at(place, setting_of(text.as_bytes())),
        None => Ok(None),
    }
}

fn is_of_one_key(setting: Option<Setting>, other: Option<Setting>) -> bool
    ensures { result ≡ is_of_one_key setting other }
{
    match (setting, other) {
        (Some(setting), Some(other)) => setting.index == other.index,
        _ => false,
    }
}

// The place of the first setting whose key one before it sets.
fn repeated(settings: &Settings) -> Option<usize>
    ensures { result ≡ repeated settings.now }
{
    if is_of_one_key(settings.first, settings.second) {
        Some(1)
    } else if is_of_one_key(settings.first, settings.third)
        || is_of_one_key(settings.second, settings.third)
    {
        Some(2)
    } else if is_of_one_key(settings.first, settings.fourth)
        || is_of_one_key(settings.second, settings.fourth)
        || is_of_one_key(settings.third, settings.fourth)
    {
        Some(3)
    } else {
        None
    }
}

// Settings, where no key is set twice.
fn set_once(settings: Settings) -> Result<Settings, AlsoFault>
    ensures { result ≡ set_once settings }
{
    match repeated(&settings) {
        Some(place) => Err(AlsoFault {
            place,
            reason: Reason::SetTwice,
        }),
        None => Ok(settings),
    }
}

/// The settings that texts ask for, or the first of these at fault.
pub(crate) fn settings(texts: &[&str]) -> Result<Settings, AlsoFault>
    ensures { result ≡ settings_of (map (λ text. text.now) texts.now) }
{
    if texts.len() > MOST_SETTINGS {
        return Err(AlsoFault {
            place: MOST_SETTINGS,
            reason: Reason::TooMany,
        });
    }
    let settings = Settings {
        first: column(texts, 0)?,
        second: column(texts, 1)?,
        third: column(texts, 2)?,
        fourth: column(texts, 3)?,
    };
    set_once(settings)
}

/// What the texts of `--also` ask for, or the first of these at fault.
pub(crate) fn also_given(given: &ArgMatches) -> Result<Settings, AlsoFault>
    ensures { result ≡ also_in (rows_of (found_of given.now)) }
{
    match given.get_strs("also") {
        Some(texts) => settings(texts),
        None => settings(&[]),
    }
}
