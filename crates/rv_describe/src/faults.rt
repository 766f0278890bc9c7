ghost use Rattle.std.specs.Prelude.{◌≡◌};
ghost use Rattle.std.specs.List.{position_from};
ghost use Rattle.toml.specs.View.{view, table_view};
ghost use Rattle.rv_describe.specs.Fault.{number_fault, choice_fault, value_fault, key_fault, is_fault, first_place};

use crate::held::{Held, look_up};
use crate::settings::{number, word_of};
use rv_isa::{Bounds, Key, NumberKey, PredictorKind, Recovery, all_keys};
use toml::{Table, Value};

/// What is wrong with a value.
#[derive(Clone, Copy, PartialEq, Eq)]
pub enum ValueFault {
    WrongKind,
    OutOfRange,
    NotPowerOfTwo,
}

// What is wrong with a choice, given what its name names, if it is a name.
pub fn choice_fault<X: Copy>(named: Option<Option<X>>) -> Option<ValueFault>
    ensures { result ≡ choice_fault named }
{
    match named {
        Some(Some(_)) => None,
        Some(None) => Some(ValueFault::OutOfRange),
        None => Some(ValueFault::WrongKind),
    }
}

// What is wrong with a number, given the word that it is, on a machine with so many bytes of RAM.
fn number_fault(bounds: Bounds, size: u32, read: Option<Option<u32>>) -> Option<ValueFault>
    ensures { result ≡ number_fault bounds size read }
{
    let Some(Some(number)) = read else {
        return choice_fault(read);
    };
    if bounds.takes(size, number) {
        None
    } else if bounds.is_in_range(size, number) {
        Some(ValueFault::NotPowerOfTwo)
    } else {
        Some(ValueFault::OutOfRange)
    }
}

// What is wrong with a value at a key, on a machine with so many bytes of RAM.
fn value_fault(key: Key, size: u32, value: &Value) -> Option<ValueFault>
    ensures { result ≡ value_fault key size (view value.now) }
{
    match key {
        Key::Number(key) => number_fault(key.bounds(), size, value.as_integer().map(word_of)),
        Key::Recovery => choice_fault(value.as_str().map(Recovery::named)),
        Key::Pipelined(_) => choice_fault(value.as_bool().map(Some)),
        Key::PredictorKind => choice_fault(value.as_str().map(PredictorKind::named)),
    }
}

// What is wrong at a key.
#[tactic(auto, unfolding(crate::specs::Fault::key_fault))]
fn key_fault(table: &Table, key: Key) -> Option<ValueFault>
    ensures { result ≡ key_fault (table_view table.now) key }
{
    match look_up(table, &key.place()) {
        Held::NoTable => Some(ValueFault::WrongKind),
        Held::Nothing => None,
        Held::Value(value) => value_fault(key, number(table, NumberKey::RamSize), value),
    }
}

pub fn is_fault(found: Option<ValueFault>, fault: ValueFault) -> bool
    ensures { result ≡ is_fault found fault }
{
    found == Some(fault)
}

fn first_among(keys: &[Key], table: &Table, fault: ValueFault) -> Option<usize>
    ensures { result
        ≡ position_from (λ key. is_fault (key_fault (table_view table.now) key) fault) 1 keys.now }
{
    let mut place = 1;
    for key in keys {
        if is_fault(key_fault(table, *key), fault) {
            return Some(place);
        }
        place += 1;
    }
    None
}

/// The place, from 1, of the first key with a fault.
pub fn first_place(table: &Table, fault: ValueFault) -> Option<usize>
    ensures { result ≡ first_place fault (table_view table.now) }
{
    first_among(all_keys(), table, fault)
}
