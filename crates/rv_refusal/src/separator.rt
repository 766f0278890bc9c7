ghost use Rattle.std.specs.Prelude.{◌≡◌, ◌==◌, ◌++◌, OnOk};
ghost use Rattle.std.specs.List.{slice_split};
ghost use Rattle.rv_refusal.specs.Separator.{begins_separator, first_spoiled, later_hint, part_hint};
ghost use Rattle.rv_refusal.specs.Separator.{reads_described, separator_hint, separator_question};
ghost use Rattle.rv_refusal.specs.Separator.{spoiled_line, spoiled_text, spoils_separator};

use crate::entry_line::entry_on;
use crate::name_on::{begins_with, blanks, goes_on_with, key_on};
use crate::place::add_line_place;
use crate::text::add_text;
use rv_asm::first_line;
use rv_job::without_return;
use std::alloc::AllocError;

// Whether a line reads as one of a description or as a separator.
fn reads_described(line: &[u8]) -> bool
    ensures { result ≡ reads_described line.now }
{
    goes_on_with(b'[', line) || goes_on_with(b'%', line) || key_on(line).is_some()
}

// Whether a line begins with two per cent signs, after blanks.
fn begins_separator(line: &[u8]) -> bool
    ensures { result ≡ begins_separator line.now }
{
    let before = blanks(line);
    let (_, rest) = line.split_at(before);
    if !begins_with(b'%', rest) {
        return false;
    }
    let (_, others) = line.split_at(before + 1);
    begins_with(b'%', others)
}

// Whether a line begins as a separator, and is none.
#[tactic(auto, unfolding(crate::specs::Separator::spoils_separator))]
fn spoils_separator(line: &[u8]) -> bool
    ensures { result ≡ spoils_separator line.now }
{
    begins_separator(line) && without_return(line) != b"%%".as_slice()
}

/// Appends what is said of a line that is no separator for what stands beside its two bytes.
#[tactic(auto, unfolding(crate::specs::Separator::separator_hint))]
pub(crate) fn add_separator_hint(out: &mut Vec<u8>, line: &[u8]) -> Result<(), AllocError>
    ensures { OnOk result (out.new.items ≡ out.old.items ++ separator_hint line.now) }
{
    if spoils_separator(line) {
        return add_text(out, b"hint: a line %% has nothing but these two bytes\n");
    }
    Ok(())
}

// Appends what is said of a line at fault of the assembly that is the third separator, or may be a line of a
// description or of arrivals.
#[tactic(auto, unfolding(crate::specs::Separator::part_hint))]
fn add_part_hint(out: &mut Vec<u8>, before: usize, line: &[u8]) -> Result<(), AllocError>
    ensures { OnOk result (out.new.items ≡ out.old.items ++ part_hint before line.now) }
{
    if without_return(line) == b"%%".as_slice() {
        return add_text(
            out,
            b"hint: at most two lines %% stand in a job, between its description, its arrivals and its assembly\n",
        );
    }
    if before == 0 && reads_described(line) {
        return add_text(out, b"is a line %% missing?\n");
    }
    if entry_on(line).is_some() {
        return add_text(
            out,
            b"hint: arrivals are the second of three parts, with a line %% after them\n",
        );
    }
    Ok(())
}

/// Appends what is said of a line at fault of the assembly that so many lines of the job stand before, where it was to
/// be a separator, or may be one of another part.
#[tactic(auto, unfolding(crate::specs::Separator::separator_question))]
pub(crate) fn add_separator_question(
    out: &mut Vec<u8>,
    before: usize,
    line: &[u8],
) -> Result<(), AllocError>
    ensures { OnOk result (out.new.items ≡ out.old.items ++ separator_question before line.now) }
{
    if spoils_separator(line) {
        return add_separator_hint(out, line);
    }
    add_part_hint(out, before, line)
}

// The number of the first line of a text that is no separator for what stands beside its two bytes.
fn first_spoiled(text: &[u8]) -> Option<usize>
    ensures { result ≡ first_spoiled 1 (slice_split (λ byte. byte == 10) text.now) }
{
    let mut number = 1;
    let mut rest = Some(text);
    while let Some(unread) = rest {
        let (line, behind) = first_line(unread);
        if spoils_separator(line) {
            return Some(number);
        }
        number += 1;
        rest = behind;
    }
    None
}

// What stands before the place of a line that is no separator.
#[tactic(auto, unfolding(crate::specs::Separator::spoiled_text))]
fn spoiled_text() -> &'static [u8]
    ensures { result.now ≡ spoiled_text }
{
    b"hint: a line %% has nothing but these two bytes: see "
}

// Appends what is said of such a line, by its number in an assembly that so many lines of the job stand before, unless
// it is the one at fault.
#[tactic(auto, unfolding(crate::specs::Separator::spoiled_line))]
fn add_spoiled_line(
    out: &mut Vec<u8>,
    before: usize,
    number: usize,
    other: usize,
) -> Result<(), AllocError>
    ensures { OnOk result (out.new.items ≡ out.old.items ++ spoiled_line before number other) }
{
    if other == number {
        return Ok(());
    }
    add_text(out, spoiled_text())?;
    add_line_place(out, b"assembly", before, other)?;
    add_text(out, b"\n")
}

/// Appends what is said of the first line that is no separator for what stands beside its two bytes, of an assembly
/// that so many lines of the job stand before, where the line with a number is at fault.
#[tactic(auto, unfolding(crate::specs::Separator::later_hint))]
pub(crate) fn add_later_hint(
    out: &mut Vec<u8>,
    before: usize,
    number: usize,
    assembly: &[u8],
) -> Result<(), AllocError>
    ensures { OnOk result (out.new.items ≡ out.old.items ++ later_hint before number assembly.now) }
{
    match first_spoiled(assembly) {
        Some(other) => add_spoiled_line(out, before, number, other),
        None => Ok(()),
    }
}
