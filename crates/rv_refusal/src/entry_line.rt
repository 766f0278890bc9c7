ghost use Rattle.std.specs.Prelude.{◌≡◌, ◌<◌, ◌≤◌, ◌+◌, ◌^◌, ◌==◌, codes, map, option_map};
ghost use Rattle.std.specs.{List.slice_split, Str.bytes_eq};
ghost use Rattle.rv_refusal.specs.EntryLine.{count_after, element_named, entry_line, entry_on};
ghost use Rattle.rv_refusal.specs.EntryLine.{field_names, field_on};
ghost use Rattle.rv_refusal.specs.EntryLine.{first_from, first_sought, heading_names, if_passes};
ghost use Rattle.rv_refusal.specs.EntryLine.{if_unknown, key_names, sought_line, sought_on, unknown_on};
ghost use Rattle.rv_refusal.specs.HeldName.{name_in};

use crate::key_line::is_among;
use crate::name_on::{NameOn, element_on, heading_on, key_on};
use rv_asm::first_line;
use rv_job::without_mark;

/// A line of a list of arrivals with its number, how many entries have begun up to it, a name on it, and how many bytes
/// stand before the name.
#[derive(Clone, Copy)]
pub(crate) struct EntryLine<'a> {
    pub(crate) number: usize,
    pub(crate) entry: usize,
    pub(crate) line: &'a [u8],
    pub(crate) before: usize,
    pub(crate) name: &'a [u8],
}

/// What is looked for.
#[derive(Clone, Copy)]
pub(crate) enum Sought<'a> {
    /// Where the entry with this number begins.
    Entry(usize),
    /// The field with this name of the entry with this number.
    Field(usize, &'a [u8]),
    /// Where an element of the array of tables with this name begins.
    Element(&'a [u8]),
    /// A name that is not known where it stands.
    Unknown,
}

// A name on a line, if it is this one.
fn if_same<'a>(name: &[u8], on: NameOn<'a>) -> Option<NameOn<'a>>
    ensures { option_map name_in result ≡ if_passes (λ other. bytes_eq other name.now) (name_in on.entry) }
{
    if on.name == name { Some(on) } else { None }
}

/// The name of an entry that a line begins.
pub(crate) fn entry_on(line: &[u8]) -> Option<NameOn<'_>>
    ensures { option_map name_in result ≡ entry_on line.entry.now }
{
    match heading_on(line) {
        Some(on) => if_same(b"arrival", on),
        None => None,
    }
}

// The name of an array of tables of which a line begins an element, if it is this one.
fn element_named<'a>(name: &[u8], line: &'a [u8]) -> Option<NameOn<'a>>
    ensures { option_map name_in result ≡ element_named name.now line.entry.now }
{
    match element_on(line) {
        Some(on) => if_same(name, on),
        None => None,
    }
}

// The name of a field to which a line gives a value, if it is this one.
fn field_on<'a>(field: &[u8], line: &'a [u8]) -> Option<NameOn<'a>>
    ensures { option_map name_in result ≡ field_on field.now line.entry.now }
{
    match key_on(line) {
        Some(on) => if_same(field, on),
        None => None,
    }
}

static HEADING_NAMES: [&[u8]; 1] = [b"arrival"];

static FIELD_NAMES: [&[u8]; 3] = [b"cycle", b"line", b"level"];

// The names of a heading.
#[tactic(auto, unfolding(crate::specs::EntryLine::heading_names))]
fn heading_names() -> &'static [&'static [u8]]
    ensures { map (λ name. name.now) result.now ≡ heading_names }
{
    &HEADING_NAMES
}

// The names before `=` on the lines of an entry with a number; those before the first entry are a heading's.
#[tactic(auto, unfolding(crate::specs::EntryLine::field_names))]
fn key_names(entry: usize) -> &'static [&'static [u8]]
    ensures { map (λ name. name.now) result.now ≡ key_names entry }
{
    if entry == 0 {
        return heading_names();
    }
    &FIELD_NAMES
}

// A name on a line, if it is none of these.
fn if_unknown<'a>(known: &[&[u8]], on: Option<NameOn<'a>>) -> Option<NameOn<'a>>
    ensures { option_map name_in result ≡ if_unknown (map (λ name. name.now) known.now) (option_map name_in on.entry) }
{
    let on = on?;
    if is_among(on.name, known) {
        None
    } else {
        Some(on)
    }
}

// The name on a line that is not known there, given how many entries have begun up to the line.
fn unknown_on(count: usize, line: &[u8]) -> Option<NameOn<'_>>
    ensures { option_map name_in result ≡ unknown_on count line.entry.now }
{
    match if_unknown(heading_names(), heading_on(line)) {
        Some(on) => Some(on),
        None => if_unknown(key_names(count), key_on(line)),
    }
}

// How many entries have begun up to a line, of which so many have before it.
fn count_after(count: usize, line: &[u8]) -> usize
    requires { count < 2 ^ 63 }
    ensures counted { result ≡ count_after count line.now }
    ensures in_range { result ≤ count + 1 }
{
    if entry_on(line).is_some() {
        count + 1
    } else {
        count
    }
}

// What is looked for on a line up to which so many entries have begun.
fn sought_on<'a>(sought: Sought<'_>, count: usize, line: &'a [u8]) -> Option<NameOn<'a>>
    ensures { option_map name_in result ≡ sought_on sought.entry count line.entry.now }
{
    match sought {
        Sought::Entry(entry) => { if count == entry { entry_on(line) } else { None } }
        Sought::Field(entry, name) => {
            if count == entry {
                field_on(name, line)
            } else {
                None
            }
        }
        Sought::Element(name) => element_named(name, line),
        Sought::Unknown => unknown_on(count, line),
    }
}

// The line with a number, up to which so many entries have begun, if what is looked for stands on it.
fn sought_line<'a>(
    sought: Sought<'_>,
    number: usize,
    entry: usize,
    line: &'a [u8],
) -> Option<EntryLine<'a>>
    ensures { option_map entry_line result ≡ sought_line (sought_on sought.entry) number entry line.entry.now }
{
    match sought_on(sought, entry, line) {
        Some(on) => Some(EntryLine {
            number,
            entry,
            line,
            before: on.before,
            name: on.name,
        }),
        None => None,
    }
}

// The first of the lines of a text on which that stands which is looked for.
fn first_line_with<'a>(sought: Sought<'_>, text: &'a [u8]) -> Option<EntryLine<'a>>
    ensures { option_map entry_line result
        ≡ first_from (sought_on sought.entry) 1 0 (slice_split (λ byte. byte == 10) text.entry.now) }
{
    let mut number = 1;
    let mut count = 0;
    let mut rest = Some(text);
    while let Some(unread) = rest {
        let (line, behind) = first_line(unread);
        count = count_after(count, line);
        if let Some(found) = sought_line(sought, number, count, line) {
            return Some(found);
        }
        number += 1;
        rest = behind;
    }
    None
}

/// The first line of a text on which that stands which is looked for.
#[tactic(auto, unfolding(crate::specs::EntryLine::first_sought))]
pub(crate) fn first_sought<'a>(sought: Sought<'_>, text: &'a [u8]) -> Option<EntryLine<'a>>
    ensures { option_map entry_line result ≡ first_sought (sought_on sought.entry) text.entry.now }
{
    first_line_with(sought, without_mark(text))
}
