ghost use Rattle.std.specs.Prelude.{◌≡◌, ◌++◌, OnOk, [], map, option_map};
ghost use Rattle.std.specs.Option.{option_map_or};
ghost use Rattle.rv_job.specs.ReadParts.{parts_in};
ghost use Rattle.rv_refusal.specs.Arrivals.{arrival_expected, arrival_names, arrivals_lines, description_line};
ghost use Rattle.rv_refusal.specs.Arrivals.{entry_line_text, entry_lines, entry_text, field_line, field_lines};
ghost use Rattle.rv_refusal.specs.Arrivals.{field_name, given_lines, heading_lines, in_entry_text};
ghost use Rattle.rv_refusal.specs.Arrivals.{lacking_lines, line_of_entry, line_of_field, line_of_list, list_lines};
ghost use Rattle.rv_refusal.specs.Arrivals.{no_arrivals};
ghost use Rattle.rv_refusal.specs.Arrivals.{missing_line, missing_lines, name_line, part_lines, parts_line};
ghost use Rattle.rv_refusal.specs.Arrivals.{toml_lines, unfound_lines, unknown_line, unknown_lines};
ghost use Rattle.rv_refusal.specs.EntryLine.{entry_line};

use crate::caret::add_marked_line;
use crate::entry_line::{EntryLine, Sought, first_sought};
use crate::key_names::is_described;
use crate::lines::line_feeds;
use crate::near::add_spelling_line;
use crate::place::add_line_place;
use crate::text::{add_all, add_number, add_text};
use crate::toml_fault::add_no_toml;
use itoa::Buffer;
use rv_describe::{ArrivalsError, Field};
use rv_job::Parts;
use std::alloc::{AllocError, Global};

// Appends the entry that a line stands in, if one has begun.
#[tactic(auto, unfolding(crate::specs::Arrivals::in_entry_text))]
fn add_in_entry(out: &mut Vec<u8>, entry: usize) -> Result<(), AllocError>
    ensures { OnOk result (out.new.items ≡ out.old.items ++ in_entry_text entry) }
{
    if entry == 0 {
        return Ok(());
    }
    add_text(out, b", entry ")?;
    add_number(out, entry)
}

// Appends a line at fault that so many lines of the job stand before, with a caret below its name.
#[tactic(auto, unfolding(crate::specs::Arrivals::entry_line_text))]
fn add_entry_line(out: &mut Vec<u8>, before: usize, found: EntryLine<'_>) -> Result<(), AllocError>
    ensures { OnOk result (out.new.items ≡ out.old.items ++ entry_line_text before (entry_line found.entry)) }
{
    add_line_place(out, b"arrivals", before, found.number)?;
    add_in_entry(out, found.entry)?;
    add_text(out, b"\n")?;
    add_marked_line(out, found.line, found.before)
}

// Appends an entry that no line is found of.
#[tactic(auto, unfolding(crate::specs::Arrivals::entry_text))]
fn add_entry(out: &mut Vec<u8>, entry: usize) -> Result<(), AllocError>
    ensures { OnOk result (out.new.items ≡ out.old.items ++ entry_text entry) }
{
    let mut buffer = Buffer::new();
    let entry = buffer.format(entry).as_bytes();
    add_all(out, &[b"entry ", entry, b" of the arrivals\n"])
}

#[tactic(auto, unfolding(crate::specs::Arrivals::field_name))]
fn field_name(field: Field) -> &'static [u8]
    ensures { result.now ≡ field_name field }
{
    match field {
        Field::Cycle => b"cycle",
        Field::Line => b"line",
        Field::Level => b"level",
    }
}

// The line on the values that a field takes.
#[tactic(auto, unfolding(crate::specs::Arrivals::field_line))]
fn field_line(field: Field) -> &'static [u8]
    ensures { result.now ≡ field_line field }
{
    match field {
        Field::Cycle => {
            b"expected: cycle is a number from 0 to 1000000, no less than that of the entry before\n"
        }
        Field::Line => b"expected: line is \"software\", \"timer\" or \"external\"\n",
        Field::Level => b"expected: level is 0 or 1, by default 1\n",
    }
}

// The line of a field of an entry.
#[tactic(auto, unfolding(crate::specs::Arrivals::line_of_field))]
fn line_of_field(field: Field, entry: usize, part: &[u8]) -> Option<EntryLine<'_>>
    ensures { option_map entry_line result ≡ line_of_field field entry part.entry.now }
{
    first_sought(Sought::Field(entry, field_name(field)), part)
}

// The line on which an entry begins.
#[tactic(auto, unfolding(crate::specs::Arrivals::line_of_entry))]
fn line_of_entry(entry: usize, part: &[u8]) -> Option<EntryLine<'_>>
    ensures { option_map entry_line result ≡ line_of_entry entry part.entry.now }
{
    first_sought(Sought::Entry(entry), part)
}

// Appends a line that gives a field a value, and which values the field takes.
#[tactic(auto, unfolding(crate::specs::Arrivals::given_lines))]
fn add_given_lines(
    out: &mut Vec<u8>,
    before: usize,
    field: Field,
    found: EntryLine<'_>,
) -> Result<(), AllocError>
    ensures { OnOk result (out.new.items ≡ out.old.items ++ given_lines before field (entry_line found.entry)) }
{
    add_entry_line(out, before, found)?;
    add_text(out, field_line(field))
}

// Appends that an entry has no line of a field.
#[tactic(auto, unfolding(crate::specs::Arrivals::missing_line))]
fn add_missing_line(out: &mut Vec<u8>, field: Field) -> Result<(), AllocError>
    ensures { OnOk result (out.new.items ≡ out.old.items ++ missing_line field) }
{
    add_all(
        out,
        &[b"hint: this entry has no key ", field_name(field), b"\n"],
    )
}

// Appends the line on which an entry without a field begins, and which values the field takes.
#[tactic(auto, unfolding(crate::specs::Arrivals::lacking_lines))]
fn add_lacking_lines(
    out: &mut Vec<u8>,
    before: usize,
    field: Field,
    found: EntryLine<'_>,
) -> Result<(), AllocError>
    ensures { OnOk result (out.new.items ≡ out.old.items ++ lacking_lines before field (entry_line found.entry)) }
{
    add_entry_line(out, before, found)?;
    add_text(out, field_line(field))?;
    add_missing_line(out, field)
}

// Appends an entry that no line is found of, and which values a field of it takes.
#[tactic(auto, unfolding(crate::specs::Arrivals::unfound_lines))]
fn add_unfound_lines(out: &mut Vec<u8>, entry: usize, field: Field) -> Result<(), AllocError>
    ensures { OnOk result (out.new.items ≡ out.old.items ++ unfound_lines entry field) }
{
    add_entry(out, entry)?;
    add_text(out, field_line(field))
}

// Appends why arrivals are refused by a field of an entry that has no line of its own.
#[tactic(auto, unfolding(crate::specs::Arrivals::missing_lines))]
fn add_missing_lines(
    out: &mut Vec<u8>,
    before: usize,
    part: &[u8],
    entry: usize,
    field: Field,
) -> Result<(), AllocError>
    ensures { OnOk result (out.new.items ≡ out.old.items ++ missing_lines before part.now entry field) }
{
    match line_of_entry(entry, part) {
        Some(found) => add_lacking_lines(out, before, field, found),
        None => add_unfound_lines(out, entry, field),
    }
}

// Appends why arrivals are refused by a field of an entry: the line at fault, and which values the field takes.
#[tactic(auto, unfolding(crate::specs::Arrivals::field_lines))]
fn add_field_lines(
    out: &mut Vec<u8>,
    before: usize,
    part: &[u8],
    entry: usize,
    field: Field,
) -> Result<(), AllocError>
    ensures { OnOk result (out.new.items ≡ out.old.items ++ field_lines before part.now entry field) }
{
    match line_of_field(field, entry, part) {
        Some(found) => add_given_lines(out, before, field, found),
        None => add_missing_lines(out, before, part, entry, field),
    }
}

// The line that gives `arrival` no array: its heading, which has one bracket, or else the key.
#[tactic(auto, unfolding(crate::specs::Arrivals::line_of_list))]
fn line_of_list(part: &[u8]) -> Option<EntryLine<'_>>
    ensures { option_map entry_line result ≡ line_of_list part.entry.now }
{
    match first_sought(Sought::Entry(1), part) {
        Some(found) => Some(found),
        None => first_sought(Sought::Field(0, b"arrival"), part),
    }
}

// Appends the line that gives `arrival` no array, if it is found.
fn add_line_of_list(out: &mut Vec<u8>, before: usize, part: &[u8]) -> Result<(), AllocError>
    ensures { OnOk result (out.new.items
        ≡ out.old.items ++ option_map_or (entry_line_text before) (line_of_list part.now) []) }
{
    match line_of_list(part) {
        Some(found) => add_entry_line(out, before, found),
        None => Ok(()),
    }
}

// Appends why arrivals are refused that are no array: the line that gives them, and which heading an entry has.
#[tactic(auto, unfolding(crate::specs::Arrivals::heading_lines))]
fn add_heading_lines(out: &mut Vec<u8>, before: usize, part: &[u8]) -> Result<(), AllocError>
    ensures { OnOk result (out.new.items ≡ out.old.items ++ heading_lines before part.now) }
{
    add_line_of_list(out, before, part)?;
    add_text(out, b"expected: the heading of each entry is [[arrival]]\n")
}

// Appends why arrivals are refused by the list itself: it is no array, or has too many entries.
#[tactic(auto, unfolding(crate::specs::Arrivals::list_lines))]
fn add_list_lines(
    out: &mut Vec<u8>,
    before: usize,
    part: &[u8],
    error: ArrivalsError,
) -> Result<(), AllocError>
    ensures { OnOk result (out.new.items ≡ out.old.items ++ list_lines before part.now error) }
{
    if let ArrivalsError::WrongKind { .. } = error {
        return add_heading_lines(out, before, part);
    }
    add_text(out, b"expected: at most 100000 entries [[arrival]]\n")
}

// Appends why arrivals are refused by an entry: by the first field with this fault, or by the list.
#[tactic(auto, unfolding(crate::specs::Arrivals::entry_lines))]
fn add_entry_lines(
    out: &mut Vec<u8>,
    before: usize,
    part: &[u8],
    error: ArrivalsError,
) -> Result<(), AllocError>
    ensures { OnOk result (out.new.items ≡ out.old.items ++ entry_lines before part.now error) }
{
    match error.field() {
        Some(field) => add_field_lines(out, before, part, error.entry(), field),
        None => add_list_lines(out, before, part, error),
    }
}

// What was expected in place of an unknown name.
#[tactic(auto, unfolding(crate::specs::Arrivals::arrival_expected))]
fn arrival_expected() -> &'static [u8]
    ensures { result.now ≡ arrival_expected }
{
    b"expected: entries [[arrival]], each with cycle, line and level\n"
}

const NAMES: [&[u8]; 4] = [b"arrival", b"cycle", b"line", b"level"];

// The names that a list of arrivals may have.
#[tactic(auto, unfolding(crate::specs::EntryLine::heading_names, crate::specs::EntryLine::field_names))]
fn arrival_names() -> &'static [&'static [u8]]
    ensures { map (λ name. name.now) result.now ≡ arrival_names }
{
    &NAMES
}

// That a description stands in the place of arrivals.
#[tactic(auto, unfolding(crate::specs::Arrivals::description_line))]
fn description_line() -> &'static [u8]
    ensures { result.now ≡ description_line }
{
    b"hint: a description is the first of three parts, with no line %% before it; compare alone reads several\n"
}

// Appends what is said of an unknown name.
#[tactic(auto, unfolding(crate::specs::Arrivals::name_line))]
fn add_name_line(alloc: Global, out: &mut Vec<u8>, name: &[u8]) -> Result<(), AllocError>
    ensures { OnOk result (out.new.items ≡ out.old.items ++ name_line name.now) }
{
    if is_described(alloc, name)? {
        return add_text(out, description_line());
    }
    add_spelling_line(alloc, out, name, arrival_names())
}

// Appends a line with an unknown name, what was expected there, and what is said of the name.
#[tactic(auto, unfolding(crate::specs::Arrivals::unknown_line))]
fn add_unknown_line(
    alloc: Global,
    out: &mut Vec<u8>,
    before: usize,
    found: EntryLine<'_>,
) -> Result<(), AllocError>
    ensures { OnOk result (out.new.items ≡ out.old.items ++ unknown_line before (entry_line found.entry)) }
{
    add_entry_line(out, before, found)?;
    add_text(out, arrival_expected())?;
    add_name_line(alloc, out, found.name)
}

// Appends the first line of a list of arrivals with a name that is not known there.
#[tactic(auto, unfolding(crate::specs::Arrivals::unknown_lines))]
fn add_unknown_lines(
    alloc: Global,
    out: &mut Vec<u8>,
    before: usize,
    part: &[u8],
) -> Result<(), AllocError>
    ensures { OnOk result (out.new.items ≡ out.old.items ++ unknown_lines before part.now) }
{
    match first_sought(Sought::Unknown, part) {
        Some(found) => add_unknown_line(alloc, out, before, found),
        None => add_text(out, arrival_expected()),
    }
}

// Appends that arrivals stand there, and no assembly, where no line gives any.
#[tactic(auto, unfolding(crate::specs::Arrivals::parts_line))]
fn add_parts_line(out: &mut Vec<u8>, part: &[u8]) -> Result<(), AllocError>
    ensures { OnOk result (out.new.items ≡ out.old.items ++ parts_line part.now) }
{
    if line_of_list(part).is_none() {
        return add_text(
            out,
            b"hint: arrivals are the second of three parts, and assembly is the third one\n",
        );
    }
    Ok(())
}

// Appends the line with which arrivals cease to be TOML, and what was expected there.
#[tactic(auto, unfolding(crate::specs::Arrivals::no_arrivals))]
fn add_no_arrivals(
    alloc: Global,
    out: &mut Vec<u8>,
    before: usize,
    part: &[u8],
) -> Result<(), AllocError>
    ensures { OnOk result (out.new.items ≡ out.old.items ++ no_arrivals before part.now) }
{
    add_no_toml(alloc, out, b"arrivals", before, b"'[[arrival]]'", part)
}

// Appends why arrivals are refused that are no TOML.
#[tactic(auto, unfolding(crate::specs::Arrivals::toml_lines))]
fn add_toml_lines(
    alloc: Global,
    out: &mut Vec<u8>,
    before: usize,
    part: &[u8],
) -> Result<(), AllocError>
    ensures { OnOk result (out.new.items ≡ out.old.items ++ toml_lines before part.now) }
{
    add_no_arrivals(alloc, out, before, part)?;
    add_parts_line(out, part)
}

// Appends why arrivals are refused that so many lines of the job stand before.
#[tactic(auto, unfolding(crate::specs::Arrivals::part_lines))]
fn add_part(
    alloc: Global,
    out: &mut Vec<u8>,
    before: usize,
    part: &[u8],
    error: ArrivalsError,
) -> Result<(), AllocError>
    ensures { OnOk result (out.new.items ≡ out.old.items ++ part_lines before part.now error) }
{
    match error {
        ArrivalsError::NotToml => add_toml_lines(alloc, out, before, part),
        ArrivalsError::UnknownKey => add_unknown_lines(alloc, out, before, part),
        ArrivalsError::Memory => Ok(()),
        ArrivalsError::WrongKind { .. }
        | ArrivalsError::OutOfRange { .. }
        | ArrivalsError::Unsorted { .. } => add_entry_lines(out, before, part, error),
    }
}

/// Appends why the arrivals of a job with these parts are refused.
#[tactic(auto, unfolding(crate::specs::Arrivals::arrivals_lines))]
pub(crate) fn add_arrivals(
    alloc: Global,
    out: &mut Vec<u8>,
    parts: Parts<'_>,
    error: ArrivalsError,
) -> Result<(), AllocError>
    ensures { OnOk result (out.new.items ≡ out.old.items ++ arrivals_lines (parts_in parts.entry) error) }
{
    let before = line_feeds(parts.description) + 1;
    add_part(alloc, out, before, parts.arrivals, error)
}
