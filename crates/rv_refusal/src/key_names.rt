ghost use Rattle.std.specs.Prelude.{◌≡◌, ◌++◌, IfOk, None, OnOk, map, option_copied};
ghost use Rattle.rv_isa.specs.Key.{order, text_of};
ghost use Rattle.rv_describe.specs.Unknown.{same_table};
ghost use Rattle.rv_refusal.specs.KeyNames.{is_described, key_names, keys_named, names_in, new_table};
ghost use Rattle.rv_refusal.specs.KeyNames.{stands_in, tables_from};

use crate::key_line::is_among;
use crate::names::add_name;
use rv_isa::{Key, all_keys};
use std::alloc::{AllocError, Global};

fn same_table(table: Option<&str>, other: Option<&str>) -> bool
    ensures { result ≡ same_table (option_copied table.entry) (option_copied other.entry) }
{
    match (table, other) {
        (Some(table), Some(other)) => table == other,
        (None, None) => true,
        _ => false,
    }
}

/// A key with its table's name before it.
pub(crate) fn text_of(key: Key) -> &'static [u8]
    ensures { result.now ≡ text_of key }
{
    key.place().text.as_bytes()
}

// Adds keys, each with its table's name before it.
fn add_keys(names: &mut Vec<&[u8]>, keys: &[Key]) -> Result<(), AllocError>
    ensures { OnOk result (map (λ name. name.now) names.new.items
        ≡ map (λ name. name.now) names.old.items ++ map text_of keys.now) }
{
    for key in keys {
        add_name(names, text_of(*key))?;
    }
    Ok(())
}

// Adds the table of a key, but for that of the key before.
fn add_new_table(
    names: &mut Vec<&[u8]>,
    table: Option<&'static str>,
    last: Option<&'static str>,
) -> Result<(), AllocError>
    ensures { OnOk result (map (λ name. name.now) names.new.items
        ≡ map (λ name. name.now) names.old.items ++ new_table (option_copied table.entry) (option_copied last.entry)) }
{
    if same_table(table, last) {
        return Ok(());
    }
    match table {
        Some(name) => add_name(names, name.as_bytes()),
        None => Ok(()),
    }
}

// Adds the tables of keys, but for those of the key before.
fn add_tables(names: &mut Vec<&[u8]>, keys: &[Key]) -> Result<(), AllocError>
    ensures { OnOk result (map (λ name. name.now) names.new.items
        ≡ map (λ name. name.now) names.old.items ++ tables_from None keys.now) }
{
    let mut last = None;
    for key in keys {
        let table = key.place().table;
        add_new_table(names, table, last)?;
        last = table;
    }
    Ok(())
}

/// The names that a description may have: its keys with their tables' names before them, and then its tables.
pub(crate) fn key_names(alloc: Global) -> Result<Vec<&'static [u8]>, AllocError>
    ensures { IfOk result (λ names. map (λ name. name.now) names.items ≡ key_names) }
{
    let mut names = Vec::new(alloc);
    add_keys(&mut names, all_keys())?;
    add_tables(&mut names, all_keys())?;
    Ok(names)
}

/// Whether a name is that of a key or a table of a description.
#[tactic(auto, unfolding(crate::specs::KeyNames::is_described))]
pub(crate) fn is_described(alloc: Global, name: &[u8]) -> Result<bool, AllocError>
    ensures { IfOk result (λ is. is ≡ is_described name.now) }
{
    let keys = key_names(alloc)?;
    Ok(is_among(name, keys.as_slice()))
}

/// Of all keys those of a name, with their tables' names before them.
pub(crate) fn keys_named(alloc: Global, name: &[u8]) -> Result<Vec<&'static [u8]>, AllocError>
    ensures { IfOk result (λ names. map (λ name. name.now) names.items ≡ keys_named name.now order) }
{
    let mut names = Vec::new(alloc);
    for key in all_keys() {
        if name == key.place().name.as_bytes() {
            add_name(&mut names, text_of(*key))?;
        }
    }
    Ok(names)
}

/// The tables of all keys.
pub(crate) fn table_names(alloc: Global) -> Result<Vec<&'static [u8]>, AllocError>
    ensures { IfOk result (λ names. map (λ name. name.now) names.items ≡ tables_from None order) }
{
    let mut names = Vec::new(alloc);
    add_tables(&mut names, all_keys())?;
    Ok(names)
}

// Whether a key stands in a table, or in none.
#[tactic(auto, unfolding(crate::specs::KeyNames::stands_in))]
fn stands_in(table: Option<&[u8]>, key: Key) -> bool
    ensures { result ≡ stands_in (option_copied table.entry) key }
{
    match (key.place().table, table) {
        (Some(own), Some(other)) => own.as_bytes() == other,
        (None, None) => true,
        _ => false,
    }
}

/// Of all keys those in a table, or those in none, by their names there.
pub(crate) fn names_in(
    alloc: Global,
    table: Option<&[u8]>,
) -> Result<Vec<&'static [u8]>, AllocError>
    ensures { IfOk result (λ names. map (λ name. name.now) names.items ≡ names_in (option_copied table.entry) order) }
{
    let mut names = Vec::new(alloc);
    for key in all_keys() {
        if stands_in(table, *key) {
            add_name(&mut names, key.place().name.as_bytes())?;
        }
    }
    Ok(names)
}
