ghost use Rattle.std.specs.Prelude.{◌≡◌, ◌≤◌, ◌++◌, [], IfOk, None, OnOk, codes, length, map, option_copied};
ghost use Rattle.std.specs.List.{prefix_len};
ghost use Rattle.rv_isa.specs.Key.{order};
ghost use Rattle.rv_refusal.specs.KeyHint.{all_names, arrivals_line, bare_keys, before_dot, each_name, given_table};
ghost use Rattle.rv_refusal.specs.KeyHint.{here_line, is_undotted, key_hint, meant_line, name_hint, names_ram};
ghost use Rattle.rv_refusal.specs.KeyHint.{names_size, near_or_keys, outside_line, ram_line, size_line};
ghost use Rattle.rv_refusal.specs.KeyHint.{table_hint, table_keys, top_names};
ghost use Rattle.rv_refusal.specs.KeyLine.{key_line};
ghost use Rattle.rv_refusal.specs.KeyNames.{names_in, tables_from};
ghost use Rattle.rv_refusal.specs.OrElse.{or_else};

use crate::key_line::{KeyLine, full_name, is_among};
use crate::key_names::{names_in, table_names};
use crate::name_on::heading_on;
use crate::near::{add_names_line, add_spelling_line};
use crate::text::{add_all, add_text};
use std::alloc::{AllocError, Global};

// Appends names, each with a comma and a blank after it.
fn add_each_name(out: &mut Vec<u8>, names: &[&[u8]]) -> Result<(), AllocError>
    ensures { OnOk result (out.new.items ≡ out.old.items ++ each_name (map (λ name. name.now) names.now)) }
{
    for name in names {
        add_all(out, &[name, b", "])?;
    }
    Ok(())
}

// Appends the line with all names of a kind, if there are any.
#[tactic(auto, unfolding(crate::specs::KeyHint::all_names))]
fn add_all_names(
    out: &mut Vec<u8>,
    kind: &[u8],
    table: &[u8],
    names: &[&[u8]],
) -> Result<(), AllocError>
    ensures { OnOk result (out.new.items
        ≡ out.old.items ++ all_names kind.now table.now (map (λ name. name.now) names.now)) }
{
    if names.is_empty() {
        return Ok(());
    }
    add_all(out, &[b"hint: the ", kind, table, b" are "])?;
    add_each_name(out, names)?;
    add_text(out, b"and no others\n")
}

// Appends the line with all tables.
fn add_all_tables(alloc: Global, out: &mut Vec<u8>) -> Result<(), AllocError>
    ensures { OnOk result (out.new.items ≡ out.old.items ++ all_names (codes "tables") [] (tables_from None order)) }
{
    let tables = table_names(alloc)?;
    add_all_names(out, b"tables", b"", tables.as_slice())
}

// Appends the line with all keys of a table, or of none, which is called so.
fn add_all_keys(
    alloc: Global,
    out: &mut Vec<u8>,
    table: Option<&[u8]>,
    called: &[u8],
) -> Result<(), AllocError>
    ensures { OnOk result (out.new.items ≡ out.old.items
        ++ all_names (codes "keys of ") called.now (names_in (option_copied table.entry) order)) }
{
    let names = names_in(alloc, table)?;
    add_all_names(out, b"keys of ", called, names.as_slice())
}

// Appends the line with all keys of a table, if it is one.
#[tactic(auto, unfolding(crate::specs::KeyHint::table_keys))]
fn add_table_keys(alloc: Global, out: &mut Vec<u8>, table: Option<&[u8]>) -> Result<(), AllocError>
    ensures { OnOk result (out.new.items ≡ out.old.items ++ table_keys (option_copied table.entry)) }
{
    if let Some(name) = table {
        return add_all_keys(alloc, out, table, name);
    }
    Ok(())
}

// Appends the line with all keys of no table, where no heading stands.
#[tactic(auto, unfolding(crate::specs::KeyHint::bare_keys))]
fn add_bare_keys(alloc: Global, out: &mut Vec<u8>, line: &[u8]) -> Result<(), AllocError>
    ensures { OnOk result (out.new.items ≡ out.old.items ++ bare_keys line.now) }
{
    if heading_on(line).is_none() {
        return add_all_keys(alloc, out, None, b"no table");
    }
    Ok(())
}

// Appends the lines with all names that may stand on a line in no table.
#[tactic(auto, unfolding(crate::specs::KeyHint::top_names))]
fn add_top_names(alloc: Global, out: &mut Vec<u8>, line: &[u8]) -> Result<(), AllocError>
    ensures { OnOk result (out.new.items ≡ out.old.items ++ top_names line.now) }
{
    add_bare_keys(alloc, out, line)?;
    add_all_tables(alloc, out)
}

// Appends lines, or else those with all names that may stand on a line in no table.
fn add_or_top_names(
    alloc: Global,
    out: &mut Vec<u8>,
    lines: &[u8],
    line: &[u8],
) -> Result<(), AllocError>
    ensures { OnOk result (out.new.items ≡ out.old.items ++ or_else lines.now (top_names line.now)) }
{
    if lines.is_empty() {
        return add_top_names(alloc, out, line);
    }
    add_text(out, lines)
}

fn is_undotted(byte: u8) -> bool
    ensures { result ≡ is_undotted byte }
{
    byte != b'.'
}

// How many bytes of a name stand before its first dot.
fn size_to_dot(name: &[u8]) -> usize
    ensures count { result ≡ prefix_len is_undotted name.now }
    ensures in_range { result ≤ length name.now }
{
    for (count, byte) in name.iter().enumerate() {
        if !is_undotted(*byte) {
            return count;
        }
    }
    name.len()
}

// What stands before the first dot of a name, if it has one.
#[tactic(auto, unfolding(crate::specs::KeyHint::before_dot))]
fn before_dot(name: &[u8]) -> Option<&[u8]>
    ensures { option_copied result ≡ before_dot name.entry.now }
{
    let size = size_to_dot(name);
    if size == name.len() {
        return None;
    }
    let (table, _) = name.split_at(size);
    Some(table)
}

// The table that a name is given: the one that it stands in, or else the one before its dot.
fn given_table<'a>(found: KeyLine<'a>) -> Option<&'a [u8]>
    ensures { option_copied result ≡ given_table (key_line found.entry) }
{
    match found.table {
        Some(table) => Some(table),
        None => before_dot(found.name),
    }
}

// The line on the known names that an unknown one may stand for, or else that with all keys of its table, empty where
// there are none.
fn near_or_keys(alloc: Global, known: &[&[u8]], found: KeyLine<'_>) -> Result<Vec<u8>, AllocError>
    ensures { IfOk result (λ line. line.items
        ≡ near_or_keys (map (λ name. name.now) known.now) (key_line found.entry)) }
{
    let name = full_name(alloc, found)?;
    let mut line = Vec::new(alloc);
    add_spelling_line(alloc, &mut line, name.as_slice(), known)?;
    if line.is_empty() {
        add_table_keys(alloc, &mut line, given_table(found))?;
    }
    Ok(line)
}

// Appends which key a name is in the table that it stands in.
#[tactic(auto, unfolding(crate::specs::KeyHint::here_line))]
fn add_here_line(out: &mut Vec<u8>, found: KeyLine<'_>) -> Result<(), AllocError>
    ensures { OnOk result (out.new.items ≡ out.old.items ++ here_line (key_line found.entry)) }
{
    match found.table {
        Some(table) => add_all(out, &[b"hint: here it is ", table, b".", found.name, b"\n"]),
        None => Ok(()),
    }
}

// Appends the lines on an unknown name by the keys that have it in another table, or else by the known names that it may
// stand for, or by all that may stand there.
#[tactic(auto, unfolding(crate::specs::KeyHint::table_hint))]
fn add_table_hint(
    alloc: Global,
    out: &mut Vec<u8>,
    known: &[&[u8]],
    found: KeyLine<'_>,
    keys: &[&[u8]],
) -> Result<(), AllocError>
    ensures { OnOk result (out.new.items ≡ out.old.items ++ table_hint (map (λ name. name.now) known.now)
        (key_line found.entry) (map (λ name. name.now) keys.now)) }
{
    if keys.is_empty() {
        let lines = near_or_keys(alloc, known, found)?;
        return add_or_top_names(alloc, out, lines.as_slice(), found.line);
    }
    add_here_line(out, found)?;
    add_names_line(out, keys)
}

// Appends which key a name is that stands in a table, and is known in none.
#[tactic(auto, unfolding(crate::specs::KeyHint::outside_line))]
fn add_outside_line(alloc: Global, out: &mut Vec<u8>, found: KeyLine<'_>) -> Result<(), AllocError>
    ensures { OnOk result (out.new.items ≡ out.old.items ++ outside_line (key_line found.entry).name) }
{
    let name = full_name(alloc, found)?;
    add_all(
        out,
        &[
            b"hint: here it is ",
            name.as_slice(),
            b"; the keys of no table stand above the first [table]\n",
        ],
    )
}

// That arrivals stand in no description.
#[tactic(auto, unfolding(crate::specs::KeyHint::arrivals_line))]
fn arrivals_line() -> &'static [u8]
    ensures { result.now ≡ arrivals_line }
{
    b"hint: arrivals are the second of three parts; is a line %% missing before them?\n"
}

// Whether a name is meant as the size of the cache.
#[tactic(auto, unfolding(crate::specs::KeyHint::names_size))]
fn names_size(name: &[u8]) -> bool
    ensures { result ≡ names_size name.now }
{
    is_among(name, &[b"cache.size", b"cache_size"])
}

// That the cache has no key for its size.
#[tactic(auto, unfolding(crate::specs::KeyHint::size_line))]
fn size_line() -> &'static [u8]
    ensures { result.now ≡ size_line }
{
    b"hint: the cache has cache.sets times cache.ways times cache.line bytes\n"
}

// Whether a name is meant as RAM, or as its first address or its size.
#[tactic(auto, unfolding(crate::specs::KeyHint::names_ram))]
fn names_ram(name: &[u8]) -> bool
    ensures { result ≡ names_ram name.now }
{
    is_among(
        name,
        &[
            b"ram",
            b"memory",
            b"ram.size",
            b"ram.base",
            b"memory.size",
            b"memory.base",
            b"mem.size",
            b"memory_size",
            b"mem_size",
        ],
    )
}

// Which keys RAM has.
#[tactic(auto, unfolding(crate::specs::KeyHint::ram_line))]
fn ram_line() -> &'static [u8]
    ensures { result.now ≡ ram_line }
{
    b"hint: ram_base says where RAM begins, and ram_size its bytes, both above the first [table]\n"
}

// The line on a name that is meant as the size of the cache or as RAM, empty where it is neither.
#[tactic(auto, unfolding(crate::specs::KeyHint::meant_line))]
fn meant_line(name: &[u8]) -> &'static [u8]
    ensures { result.now ≡ meant_line name.now }
{
    if names_size(name) {
        return size_line();
    }
    if names_ram(name) {
        return ram_line();
    }
    b""
}

// Appends the lines on an unknown name that is none of arrivals: one that is meant as something else, or that is known
// where no table stands above it, or another.
#[tactic(auto, unfolding(crate::specs::KeyHint::name_hint))]
fn add_name_hint(
    alloc: Global,
    out: &mut Vec<u8>,
    known: &[&[u8]],
    found: KeyLine<'_>,
    keys: &[&[u8]],
) -> Result<(), AllocError>
    ensures { OnOk result (out.new.items ≡ out.old.items ++ name_hint (map (λ name. name.now) known.now)
        (key_line found.entry) (map (λ name. name.now) keys.now)) }
{
    let name = full_name(alloc, found)?;
    let meant = meant_line(name.as_slice());
    if !meant.is_empty() {
        return add_text(out, meant);
    }
    if is_among(found.name, known) {
        return add_outside_line(alloc, out, found);
    }
    add_table_hint(alloc, out, known, found, keys)
}

/// Appends the lines on an unknown name: of arrivals, or another.
#[tactic(auto, unfolding(crate::specs::KeyHint::key_hint))]
pub(crate) fn add_key_hint(
    alloc: Global,
    out: &mut Vec<u8>,
    known: &[&[u8]],
    found: KeyLine<'_>,
    keys: &[&[u8]],
) -> Result<(), AllocError>
    ensures { OnOk result (out.new.items ≡ out.old.items ++ key_hint (map (λ name. name.now) known.now)
        (key_line found.entry) (map (λ name. name.now) keys.now)) }
{
    if found.name == b"arrival".as_slice() {
        return add_text(out, arrivals_line());
    }
    add_name_hint(alloc, out, known, found, keys)
}
