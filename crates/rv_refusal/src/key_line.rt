ghost use Rattle.std.specs.Prelude.{◌≡◌, ◌+◌, ◌≤◌, ◌==◌, ◌^◌, IfOk, None, length, map, option_copied, option_map};
ghost use Rattle.std.specs.{List.list_any, List.slice_split, Str.bytes_eq};
ghost use Rattle.rv_refusal.specs.KeyLine.{first_from, first_named, is_wanted, key_line};
ghost use Rattle.rv_refusal.specs.KeyLine.{named_line, table_after, wanted_line};

use crate::name_on::{heading_on, key_on};
use crate::text::add_all;
use rv_asm::first_line;
use rv_job::without_mark;
use std::alloc::{AllocError, Global};

/// A line of a description with its number, a name on it, the table that the name stands in, and how many bytes stand
/// before the name.
#[derive(Clone, Copy)]
pub(crate) struct KeyLine<'a> {
    pub(crate) number: usize,
    pub(crate) line: &'a [u8],
    pub(crate) before: usize,
    pub(crate) table: Option<&'a [u8]>,
    pub(crate) name: &'a [u8],
}

/// Which name is looked for.
#[derive(Clone, Copy)]
pub(crate) enum Wanted<'a> {
    /// One that is none of these.
    Unknown(&'a [&'a [u8]]),
    /// This one.
    Named(&'a [u8]),
}

/// Whether a name is one of these.
pub(crate) fn is_among(name: &[u8], names: &[&[u8]]) -> bool
    ensures { result ≡ list_any (bytes_eq name.now) (map (λ other. other.now) names.now) }
{
    for other in names {
        if name == *other {
            return true;
        }
    }
    false
}

fn is_wanted(wanted: Wanted<'_>, name: &[u8]) -> bool
    ensures { result ≡ is_wanted wanted.entry name.now }
{
    match wanted {
        Wanted::Unknown(known) => !is_among(name, known),
        Wanted::Named(other) => name == other,
    }
}

/// The name on a line with its table's before it.
pub(crate) fn full_name(alloc: Global, found: KeyLine<'_>) -> Result<Vec<u8>, AllocError>
    ensures { IfOk result (λ full. full.items ≡ (key_line found.entry).name) }
{
    let mut full = Vec::new(alloc);
    if let Some(table) = found.table {
        add_all(&mut full, &[table, b"."])?;
    }
    full.extend_from_slice(found.name)?;
    Ok(full)
}

// The line with a number, if a name stands on it: a heading's, or a key's in the table that the line stands in.
#[tactic(auto, unfolding(crate::specs::KeyLine::named_line))]
fn named_line<'a>(number: usize, table: Option<&'a [u8]>, line: &'a [u8]) -> Option<KeyLine<'a>>
    ensures { option_map key_line result ≡ named_line number (option_copied table.entry) line.entry.now }
{
    if let Some(on) = heading_on(line) {
        return Some(KeyLine {
            number,
            line,
            before: on.before,
            table: None,
            name: on.name,
        });
    }
    match key_on(line) {
        Some(on) => Some(KeyLine {
            number,
            line,
            before: on.before,
            table,
            name: on.name,
        }),
        None => None,
    }
}

// The table that the lines after a line stand in.
fn table_after<'a>(table: Option<&'a [u8]>, line: &'a [u8]) -> Option<&'a [u8]>
    ensures { option_copied result ≡ table_after (option_copied table.entry) line.entry.now }
{
    match heading_on(line) {
        Some(on) => Some(on.name),
        None => table,
    }
}

// The line with a number, if a name stands on it that is looked for.
fn wanted_line<'a>(
    alloc: Global,
    wanted: Wanted<'_>,
    number: usize,
    table: Option<&'a [u8]>,
    line: &'a [u8],
) -> Result<Option<KeyLine<'a>>, AllocError>
    ensures { IfOk result (λ found. option_map key_line found
        ≡ wanted_line (is_wanted wanted.entry) number (option_copied table.entry) line.entry.now) }
{
    let Some(found) = named_line(number, table, line) else {
        return Ok(None);
    };
    let name = full_name(alloc, found)?;
    if is_wanted(wanted, name.as_slice()) {
        Ok(Some(found))
    } else {
        Ok(None)
    }
}

// The first of the lines of a text on which a name stands that is looked for.
fn first_line_named<'a>(
    alloc: Global,
    wanted: Wanted<'_>,
    text: &'a [u8],
) -> Result<Option<KeyLine<'a>>, AllocError>
    ensures { IfOk result (λ found. option_map key_line found
        ≡ first_from (is_wanted wanted.entry) 1 None (slice_split (λ byte. byte == 10) text.entry.now)) }
{
    let mut number = 1;
    let mut table = None;
    let mut rest = Some(text);
    while let Some(unread) = rest {
        let (line, behind) = first_line(unread);
        if let Some(found) = wanted_line(alloc, wanted, number, table, line)? {
            return Ok(Some(found));
        }
        table = table_after(table, line);
        number += 1;
        rest = behind;
    }
    Ok(None)
}

/// The first line of a text on which a name stands that is looked for.
#[tactic(auto, unfolding(crate::specs::KeyLine::first_named))]
pub(crate) fn first_named<'a>(
    alloc: Global,
    wanted: Wanted<'_>,
    text: &'a [u8],
) -> Result<Option<KeyLine<'a>>, AllocError>
    ensures { IfOk result (λ found. option_map key_line found ≡ first_named (is_wanted wanted.entry) text.entry.now) }
{
    first_line_named(alloc, wanted, without_mark(text))
}
