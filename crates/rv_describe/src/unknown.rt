ghost use Rattle.std.specs.Prelude.{◌≡◌, not, map, Some, option_copied};
ghost use Rattle.std.specs.{List.list_any, Str.bytes_eq};
ghost use Rattle.toml.specs.View.{view, table_view};
ghost use Rattle.rv_describe.specs.Unknown.{any_member, has_other_name, same_table, is_key};
ghost use Rattle.rv_describe.specs.Unknown.{is_table, unknown_within, unknown_at_top, has_unknown};

use rv_isa::all_keys;
use toml::{Table, Value};

// Whether a name is one of these.
fn is_among(name: &str, names: &[&str]) -> bool
    ensures { result ≡ list_any (bytes_eq name.now) (map (λ other. other.now) names.now) }
{
    for other in names {
        if name == *other {
            return true;
        }
    }
    false
}

/// Whether a table has a name that is none of these.
pub fn has_other_name(table: &Table, names: &[&str]) -> bool
    ensures { result ≡ has_other_name (map (λ name. name.now) names.now) (table_view table.now) }
{
    for (name, _) in table {
        if !is_among(name.as_str(), names) {
            return true;
        }
    }
    false
}

fn same_table(table: Option<&str>, other: Option<&str>) -> bool
    ensures { result ≡ same_table (option_copied table.entry) (option_copied other.entry) }
{
    match (table, other) {
        (Some(table), Some(other)) => table == other,
        (None, None) => true,
        _ => false,
    }
}

// Some key has this name in this table, or at top level.
#[tactic(auto, unfolding(crate::specs::Unknown::is_key))]
fn is_key(table: Option<&str>, name: &str) -> bool
    ensures { result ≡ is_key (option_copied table.entry) name.now }
{
    for key in all_keys() {
        let place = key.place();
        if same_table(place.table, table) && place.name == name {
            return true;
        }
    }
    false
}

// Some key is in this table.
#[tactic(auto, unfolding(crate::specs::Unknown::is_table))]
fn is_table(name: &str) -> bool
    ensures { result ≡ is_table name.now }
{
    for key in all_keys() {
        if same_table(key.place().table, Some(name)) {
            return true;
        }
    }
    false
}

// Some name in a table of keys is none of its keys.
fn unknown_among(name: &str, table: &Table) -> bool
    ensures { result
        ≡ any_member (λ inner value. not (is_key (Some name.now) inner)) (table_view table.now) }
{
    for (inner, _) in table {
        if !is_key(Some(name), inner.as_str()) {
            return true;
        }
    }
    false
}

fn unknown_within(name: &str, value: &Value) -> bool
    ensures { result ≡ unknown_within name.now (view value.now) }
{
    match value.as_table() {
        Some(table) => unknown_among(name, table),
        None => false,
    }
}

fn unknown_at_top(name: &str, value: &Value) -> bool
    ensures { result ≡ unknown_at_top name.now (view value.now) }
{
    !is_key(None, name) && (!is_table(name) || unknown_within(name, value))
}

/// Whether some name of the text is no key and no table of keys.
#[tactic(auto, unfolding(crate::specs::Unknown::has_unknown))]
pub fn has_unknown(table: &Table) -> bool
    ensures { result ≡ has_unknown (table_view table.now) }
{
    for (name, value) in table {
        if unknown_at_top(name.as_str(), value) {
            return true;
        }
    }
    false
}
