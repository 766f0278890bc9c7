ghost use Rattle.std.specs.Prelude.{◌≡◌, Some, codes, option_and_then, option_map, pos};
ghost use Rattle.std.specs.Option.{option_map_or};
ghost use Rattle.toml.specs.Data.{as_integer, as_str, get};
ghost use Rattle.toml.specs.View.{view};
ghost use Rattle.rv_describe.specs.Entry.{arrival_of, arrival_with, cycle_of};
ghost use Rattle.rv_describe.specs.Entry.{has_unknown_field, level_of, line_named, reading_of};

use crate::unknown::has_other_name;
use rv_isa::{Arrival, LAST_CYCLE, Line};
use toml::Value;

/// The cycle that an entry has, if it is a number, and then if it is a legal one.
pub fn cycle_in(entry: &Value) -> Option<Option<u64>>
    ensures { result ≡ option_map cycle_of (option_and_then as_integer (get (codes "cycle") (view entry.now))) }
{
    Some(cycle_of(entry.get("cycle")?.as_integer()?))
}

/// The line that an entry has, if it is a text, and then if it is a name of one.
pub fn line_in(entry: &Value) -> Option<Option<Line>>
    ensures { result ≡ option_map line_named (option_and_then as_str (get (codes "line") (view entry.now))) }
{
    Some(line_named(entry.get("line")?.as_str()?))
}

/// The level that an entry has, if it is a number, and then if it is a legal one. A `level` that is missing is 1.
pub fn level_in(entry: &Value) -> Option<Option<bool>>
    ensures { result ≡ option_map level_of
        (option_map_or as_integer (get (codes "level") (view entry.now)) (Some (pos 1))) }
{
    let level = match entry.get("level") {
        Some(value) => value.as_integer()?,
        None => 1,
    };
    Some(level_of(level))
}

/// What an entry says: `None` where it is no table, lacks a field, or a field has another type, and
/// `Some(None)` where a field has a value that is not allowed.
pub fn reading_of(entry: &Value) -> Option<Option<Arrival>>
    ensures { result ≡ reading_of (view entry.now) }
{
    Some(arrival_with(cycle_in(entry)?, line_in(entry)?, level_in(entry)?))
}

/// The arrival of an entry, where each field has a value that is allowed.
pub fn arrival_of(entry: &Value) -> Option<Arrival>
    ensures { result ≡ arrival_of (view entry.now) }
{
    reading_of(entry)?
}

/// Whether an entry is a table with another field than `cycle`, `line` and `level`.
pub fn has_unknown_field(entry: &Value) -> bool
    ensures { result ≡ has_unknown_field (view entry.now) }
{
    match entry.as_table() {
        Some(table) => has_other_name(table, &["cycle", "line", "level"]),
        None => false,
    }
}

/// The arrival with these values, where each is allowed.
fn arrival_with(cycle: Option<u64>, line: Option<Line>, level: Option<bool>) -> Option<Arrival>
    ensures { result ≡ arrival_with cycle line level }
{
    Some(Arrival {
        cycle: cycle?,
        line: line?,
        level: level?,
    })
}

/// The line of a name.
pub fn line_named(name: &str) -> Option<Line>
    ensures { result ≡ line_named name.now }
{
    match name {
        "software" => Some(Line::Software),
        "timer" => Some(Line::Timer),
        "external" => Some(Line::External),
        _ => None,
    }
}

/// A cycle from 0 to 1,000,000.
pub fn cycle_of(number: i64) -> Option<u64>
    ensures { result ≡ cycle_of number }
{
    match u64::try_from(number) {
        Ok(cycle) if cycle <= LAST_CYCLE => Some(cycle),
        _ => None,
    }
}

/// A level, 0 or 1.
pub fn level_of(number: i64) -> Option<bool>
    ensures { result ≡ level_of number }
{
    match number {
        0 => Some(false),
        1 => Some(true),
        _ => None,
    }
}
