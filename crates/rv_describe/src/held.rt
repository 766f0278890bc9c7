ghost use Rattle.std.specs.Prelude.{◌≡◌, Some, option_map};
ghost use Rattle.toml.specs.View.{view, table_view};
ghost use Rattle.rv_describe.specs.Document.{held, value_at};
ghost use Rattle.rv_describe.specs.Held.{held_of};
ghost use Rattle.rv_isa.specs.Key.{shown};
ghost use Rattle.toml.specs.Data.{get_member};

use rv_isa::{Key, Place};
use toml::{Table, Value};

/// The value at a name of a table.
pub fn get<'a>(table: &'a Table, name: &str) -> Option<&'a Value>
    ensures { option_map (λ v. view v.now) result ≡ get_member name.now (table_view table.now) }
{
    table.get(name)
}

/// What a table holds at a key.
#[derive(Clone, Copy)]
pub enum Held<'a> {
    /// Something that is no table has the name of the key's table.
    NoTable,
    /// Nothing stands there.
    Nothing,
    /// A value stands there.
    Value(&'a Value),
}

// What a table holds at a name.
fn at_name(value: Option<&Value>) -> Held<'_>
    ensures { held_of result ≡ Some (option_map (λ v. view v.now) value.entry) }
{
    match value {
        Some(value) => Held::Value(value),
        None => Held::Nothing,
    }
}

/// What a table holds at a key.
#[tactic(auto, unfolding(crate::specs::Document::held))]
pub fn look_up<'a>(table: &'a Table, place: &Place) -> Held<'a>
    ensures { held_of result ≡ held (table_view table.now) (shown place.now) }
{
    let Some(outer) = place.table else {
        return at_name(get(table, place.name));
    };
    let Some(value) = get(table, outer) else {
        return Held::Nothing;
    };
    match value.as_table() {
        Some(inner) => at_name(get(inner, place.name)),
        None => Held::NoTable,
    }
}

/// The value at a key, where one stands there.
pub fn value_at(table: &Table, key: Key) -> Option<&Value>
    ensures { option_map (λ v. view v.now) result ≡ value_at (table_view table.now) key }
{
    match look_up(table, &key.place()) {
        Held::Value(value) => Some(value),
        Held::Nothing | Held::NoTable => None,
    }
}
