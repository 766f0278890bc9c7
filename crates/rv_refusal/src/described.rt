ghost use Rattle.std.specs.Prelude.{◌≡◌, ◌&&◌, ◌++◌, IfOk, OnOk, is_none, map, not, option_map};
ghost use Rattle.std.specs.Str.{bytes_eq};
ghost use Rattle.rv_refusal.specs.Described.{array_line, description_lines, key_at, key_expected};
ghost use Rattle.rv_refusal.specs.Described.{key_line_text, known_expected, line_of_key, line_of_name};
ghost use Rattle.rv_refusal.specs.Described.{table_expected, table_of, unknown_among, unknown_line};
ghost use Rattle.rv_refusal.specs.Described.{unknown_lines, value_lines};
ghost use Rattle.rv_refusal.specs.KeyLine.{key_line};
ghost use Rattle.rv_refusal.specs.NameOn.{goes_on_with, table_on, value_on};

use crate::caret::add_marked_line;
use crate::entry_line::{Sought, first_sought};
use crate::key_default::add_values_line;
use crate::key_hint::add_key_hint;
use crate::key_line::{KeyLine, Wanted, first_named, full_name};
use crate::key_names::{key_names, keys_named, text_of};
use crate::name_on::{goes_on_with, table_on, value_on};
use crate::place::add_line_place;
use crate::text::{add_all, add_text};
use crate::toml_fault::add_no_toml;
use rv_describe::DescriptionError;
use rv_isa::{Key, all_keys};
use std::alloc::{AllocError, Global};

// Appends a line at fault of a description, with which a job begins, and a caret below its name.
#[tactic(auto, unfolding(crate::specs::Described::key_line_text))]
fn add_key_line(out: &mut Vec<u8>, found: KeyLine<'_>) -> Result<(), AllocError>
    ensures { OnOk result (out.new.items ≡ out.old.items ++ key_line_text (key_line found.entry)) }
{
    add_line_place(out, b"description", 0, found.number)?;
    add_text(out, b"\n")?;
    add_marked_line(out, found.line, found.before)
}

// The key at a place, from 1.
fn key_at(place: usize) -> Option<Key>
    ensures { result ≡ key_at place }
{
    if place == 0 {
        return None;
    }
    all_keys().get(place - 1).copied()
}

// The name of the table that a key stands in, empty at top level.
fn table_of(key: Key) -> &'static [u8]
    ensures { result.now ≡ table_of key }
{
    match key.place().table {
        Some(table) => table.as_bytes(),
        None => b"",
    }
}

// The first line of a description on which the table of a key stands as an array of tables.
fn array_line(key: Key, part: &[u8]) -> Option<KeyLine<'_>>
    ensures { option_map key_line result ≡ array_line key part.entry.now }
{
    match first_sought(Sought::Element(table_of(key)), part) {
        Some(found) => Some(KeyLine {
            number: found.number,
            line: found.line,
            before: found.before,
            table: None,
            name: found.name,
        }),
        None => None,
    }
}

// The first line of a description on which a key stands, or else its table.
#[tactic(auto, unfolding(crate::specs::Described::line_of_name))]
fn line_of_name(alloc: Global, key: Key, part: &[u8]) -> Result<Option<KeyLine<'_>>, AllocError>
    ensures { IfOk result (λ found. option_map key_line found ≡ line_of_name key part.entry.now) }
{
    let name = text_of(key);
    match first_named(alloc, Wanted::Named(name), part) {
        Ok(None) => first_named(alloc, Wanted::Named(table_of(key)), part),
        found => found,
    }
}

// The first line of a description on which the table of a key stands as an array of tables, or else the key, or else its
// table.
#[tactic(auto, unfolding(crate::specs::Described::line_of_key))]
fn line_of_key(alloc: Global, key: Key, part: &[u8]) -> Result<Option<KeyLine<'_>>, AllocError>
    ensures { IfOk result (λ found. option_map key_line found ≡ line_of_key key part.entry.now) }
{
    match array_line(key, part) {
        Some(found) => Ok(Some(found)),
        None => line_of_name(alloc, key, part),
    }
}

// Whether a line gives the table of a key a value that is none.
fn gives_no_table(key: Key, name: &[u8], line: &[u8]) -> bool
    ensures { result ≡ (bytes_eq name.now (table_of key)
        && (is_none (table_on line.now) && not (goes_on_with 123 (value_on line.now)))) }
{
    name == table_of(key) && table_on(line).is_none() && !goes_on_with(b'{', value_on(line))
}

// Appends that the table of a key is a table.
#[tactic(auto, unfolding(crate::specs::Described::table_expected))]
fn add_table_expected(out: &mut Vec<u8>, key: Key) -> Result<(), AllocError>
    ensures { OnOk result (out.new.items ≡ out.old.items ++ table_expected key) }
{
    let table = table_of(key);
    add_all(
        out,
        &[
            b"expected: ",
            table,
            b" is a table, as in a line '[",
            table,
            b"]' before those of its keys\n",
        ],
    )
}

// Appends what was expected at the line of a key.
#[tactic(auto, unfolding(crate::specs::Described::key_expected))]
fn add_key_expected(
    alloc: Global,
    out: &mut Vec<u8>,
    key: Key,
    found: KeyLine<'_>,
) -> Result<(), AllocError>
    ensures { OnOk result (out.new.items ≡ out.old.items ++ key_expected key (key_line found.entry)) }
{
    let name = full_name(alloc, found)?;
    if gives_no_table(key, name.as_slice(), found.line) {
        return add_table_expected(out, key);
    }
    add_values_line(out, key)
}

// Appends why a description is refused by the value at a key: the line at fault, and what was expected there.
#[tactic(auto, unfolding(crate::specs::Described::value_lines))]
fn add_value_lines(
    alloc: Global,
    out: &mut Vec<u8>,
    part: &[u8],
    key: Key,
) -> Result<(), AllocError>
    ensures { OnOk result (out.new.items ≡ out.old.items ++ value_lines part.now key) }
{
    let Some(found) = line_of_key(alloc, key, part)? else {
        return add_values_line(out, key);
    };
    add_key_line(out, found)?;
    add_key_expected(alloc, out, key, found)
}

// What was expected in place of an unknown name.
#[tactic(auto, unfolding(crate::specs::Described::known_expected))]
fn known_expected() -> &'static [u8]
    ensures { result.now ≡ known_expected }
{
    b"expected: a key or a table of a description\n"
}

// Appends a line with an unknown name, what was expected there, and the known names that it may stand for.
#[tactic(auto, unfolding(crate::specs::Described::unknown_line))]
fn add_unknown_line(
    alloc: Global,
    out: &mut Vec<u8>,
    known: &[&[u8]],
    found: KeyLine<'_>,
) -> Result<(), AllocError>
    ensures { OnOk result (out.new.items
        ≡ out.old.items ++ unknown_line (map (λ name. name.now) known.now) (key_line found.entry)) }
{
    add_key_line(out, found)?;
    add_text(out, known_expected())?;
    let keys = keys_named(alloc, found.name)?;
    add_key_hint(alloc, out, known, found, keys.as_slice())
}

// Appends the first line of a description with a name that is none of these.
#[tactic(auto, unfolding(crate::specs::Described::unknown_among))]
fn add_unknown_among(
    alloc: Global,
    out: &mut Vec<u8>,
    known: &[&[u8]],
    part: &[u8],
) -> Result<(), AllocError>
    ensures { OnOk result (out.new.items ≡ out.old.items ++ unknown_among (map (λ name. name.now) known.now) part.now) }
{
    match first_named(alloc, Wanted::Unknown(known), part) {
        Ok(Some(found)) => add_unknown_line(alloc, out, known, found),
        Ok(None) => add_text(out, b"expected: keys and tables of a description\n"),
        Err(refused) => Err(refused),
    }
}

// Appends the first line of a description with a name that is no key's and no table's.
fn add_unknown_lines(alloc: Global, out: &mut Vec<u8>, part: &[u8]) -> Result<(), AllocError>
    ensures { OnOk result (out.new.items ≡ out.old.items ++ unknown_lines part.now) }
{
    let known = key_names(alloc)?;
    add_unknown_among(alloc, out, known.as_slice(), part)
}

/// Appends why a description is refused.
#[tactic(auto, unfolding(crate::specs::Described::description_lines))]
pub(crate) fn add_description(
    alloc: Global,
    out: &mut Vec<u8>,
    part: &[u8],
    error: DescriptionError,
) -> Result<(), AllocError>
    ensures { OnOk result (out.new.items ≡ out.old.items ++ description_lines part.now error) }
{
    match error {
        DescriptionError::NotToml => {
            add_no_toml(alloc, out, b"description", 0, b"'rob = 8'", part)
        }
        DescriptionError::UnknownKey => add_unknown_lines(alloc, out, part),
        DescriptionError::WrongKind { .. }
        | DescriptionError::OutOfRange { .. }
        | DescriptionError::NotPowerOfTwo { .. }
        | DescriptionError::Memory => match key_at(error.place()) {
            Some(key) => add_value_lines(alloc, out, part, key),
            None => Ok(()),
        },
    }
}
