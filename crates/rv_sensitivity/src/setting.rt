ghost use Rattle.std.specs.Prelude.{◌≡◌, IfOk};
ghost use Rattle.rv_sensitivity.specs.Setting.{asked_change, change_at, changes_of, key_at, number_at, says_how_fast};

use crate::change::Change;
use rv_isa::{Key, NumberKey, PredictorKind, Recovery, all_keys};
use std::alloc::{AllocError, Global};

/// A value for a key of a description.
#[derive(Clone, Copy, PartialEq, Eq)]
pub enum KeyValue {
    Number(u32),
    Truth(bool),
    Recovery(Recovery),
    Predictor(PredictorKind),
}

/// A key and a value for it.
#[derive(Clone, Copy, PartialEq, Eq)]
pub struct Setting {
    /// Where the key stands in the order of the keys, from 0.
    pub index: usize,
    pub value: KeyValue,
}

impl Setting {
    ghost use Rattle.rv_sensitivity.specs.Setting.{change_of};

    /// The change that the setting makes. `None` where no key stands there, where the key does not take the value, and where
    /// it says nothing of how fast a program runs: that of RAM and of reports.
    pub fn change(self) -> Option<Change>
        ensures { result ≡ change_of self }
    {
        change_at(key_at(self.index)?, self.value)
    }
}

/// At most four settings.
#[derive(Clone, Copy, PartialEq, Eq)]
pub struct Settings {
    pub first: Option<Setting>,
    pub second: Option<Setting>,
    pub third: Option<Setting>,
    pub fourth: Option<Setting>,
}

// The key at an index.
#[tactic(auto, unfolding(crate::specs::Setting::key_at))]
fn key_at(index: usize) -> Option<Key>
    ensures { result ≡ key_at index }
{
    all_keys().get(index).copied()
}

/// Whether a number's key says how fast a program runs: all do but those of RAM and of reports.
pub fn says_how_fast(key: NumberKey) -> bool
    ensures { result ≡ says_how_fast key }
{
    match key {
        NumberKey::RamBase
        | NumberKey::RamSize
        | NumberKey::RomBytes
        | NumberKey::ReportDumpAddress
        | NumberKey::ReportDumpWords => false,
        _ => true,
    }
}

// The change of the number at a key, where the key takes the number.
fn number_at(key: NumberKey, number: u32) -> Option<Change>
    ensures { result ≡ number_at key number }
{
    if says_how_fast(key) && key.bounds().takes(0, number) {
        Some(Change::Number(key, number))
    } else {
        None
    }
}

// The change that a value makes at a key.
fn change_at(key: Key, value: KeyValue) -> Option<Change>
    ensures { result ≡ change_at key value }
{
    match (key, value) {
        (Key::Number(key), KeyValue::Number(number)) => number_at(key, number),
        (Key::Recovery, KeyValue::Recovery(recovery)) => Some(Change::Recovery(recovery)),
        (Key::Pipelined(kind), KeyValue::Truth(truth)) => Some(Change::Pipelined(kind, truth)),
        (Key::PredictorKind, KeyValue::Predictor(kind)) => Some(Change::Predictor(kind)),
        _ => None,
    }
}

// The change of a setting, where there is one.
fn asked_change(setting: Option<Setting>) -> Option<Change>
    ensures { result ≡ asked_change setting }
{
    match setting {
        Some(setting) => setting.change(),
        None => None,
    }
}

/// The changes that settings make, in their order. The only error is out of memory.
pub fn changes(alloc: Global, settings: &Settings) -> Result<Vec<Change>, AllocError>
    ensures { IfOk result (λ changes. changes.items ≡ changes_of settings.now) }
{
    let each = [
        settings.first,
        settings.second,
        settings.third,
        settings.fourth,
    ];
    each.iter()
        .filter_map(|setting| asked_change(*setting))
        .collect(alloc)
}
