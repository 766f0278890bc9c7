ghost use Rattle.std.specs.Prelude.{◌≡◌, ◌≤◌, ◌++◌, IfOk, OnOk, length};
ghost use Rattle.rv_refusal.specs.TomlFault.{is_toml_up_to, no_toml, toml_expected, toml_line, toml_lines, toml_up_to};

use crate::caret::add_marked_line;
use crate::lines::{line_at, line_feeds};
use crate::name_on::blanks;
use crate::place::add_line_place;
use crate::separator::add_separator_hint;
use crate::text::{add_all, add_text};
use rv_describe::is_toml;
use std::alloc::{AllocError, Global};

// Looking for the line reads the text again for each of its lines.
const MOST_SEARCHED: usize = 16384;

// Whether a line ends at a place, and what stands up to it is TOML.
fn is_toml_up_to(alloc: Global, text: &[u8], place: usize) -> Result<bool, AllocError>
    requires some { 1 ≤ place }
    requires within { place ≤ length text.now }
    ensures { IfOk result (λ is. is ≡ is_toml_up_to text.now place) }
{
    if text[place - 1] != b'\n' {
        return Ok(false);
    }
    let (front, _) = text.split_at(place);
    is_toml(alloc, front)
}

// The last place at the end of a line up to which a text is TOML; the beginning where there is none.
fn toml_up_to(alloc: Global, text: &[u8]) -> Result<usize, AllocError>
    ensures place { IfOk result (λ place. place ≡ toml_up_to text.now (length text.now)) }
    ensures within { IfOk result (λ place. place ≤ length text.now) }
{
    let mut place = text.len();
    while place > 0 {
        if is_toml_up_to(alloc, text, place)? {
            return Ok(place);
        }
        place -= 1;
    }
    Ok(0)
}

// The number of the line that begins where a text ceases to be TOML.
#[tactic(auto, unfolding(crate::specs::TomlFault::toml_line))]
fn toml_line(alloc: Global, text: &[u8]) -> Result<usize, AllocError>
    ensures { IfOk result (λ number. number ≡ toml_line text.now) }
{
    let place = toml_up_to(alloc, text)?;
    let (front, _) = text.split_at(place);
    Ok(line_feeds(front) + 1)
}

// Appends what was expected of a line with which a text, like an example, is no longer TOML.
#[tactic(auto, unfolding(crate::specs::TomlFault::toml_expected))]
fn add_toml_expected(
    alloc: Global,
    out: &mut Vec<u8>,
    example: &[u8],
    line: &[u8],
) -> Result<(), AllocError>
    ensures { OnOk result (out.new.items ≡ out.old.items ++ toml_expected example.now line.now) }
{
    if is_toml(alloc, line)? {
        return add_text(
            out,
            b"expected: a key or a table that does not stand above\n",
        );
    }
    add_all(
        out,
        &[
            b"expected: TOML, as in ",
            example,
            b": a value for each key, strings in quotes, brackets closed, whole numbers up to 9223372036854775807\n",
        ],
    )
}

// Appends the line of a part of the job with which it ceases to be TOML, and whether it was to be a separator.
#[tactic(auto, unfolding(crate::specs::TomlFault::toml_lines))]
fn add_toml_lines(
    alloc: Global,
    out: &mut Vec<u8>,
    name: &[u8],
    before: usize,
    example: &[u8],
    part: &[u8],
) -> Result<(), AllocError>
    ensures { OnOk result (out.new.items ≡ out.old.items ++ toml_lines name.now before example.now part.now) }
{
    let number = toml_line(alloc, part)?;
    let line = line_at(number, part);
    add_line_place(out, name, before, number)?;
    add_text(out, b"\n")?;
    add_marked_line(out, line, blanks(line))?;
    add_toml_expected(alloc, out, example, line)?;
    add_separator_hint(out, line)
}

/// Appends why a part of the job is no TOML, which has this name and so many lines before it: the line with which it
/// ceases to be, and what was expected there. Of a part of more than 16,384 bytes the line is not looked for.
#[tactic(auto, unfolding(crate::specs::TomlFault::no_toml))]
pub(crate) fn add_no_toml(
    alloc: Global,
    out: &mut Vec<u8>,
    name: &[u8],
    before: usize,
    example: &[u8],
    part: &[u8],
) -> Result<(), AllocError>
    ensures { OnOk result (out.new.items ≡ out.old.items ++ no_toml name.now before example.now part.now) }
{
    if part.len() > MOST_SEARCHED {
        return add_all(out, &[b"expected: a TOML document, as in ", example, b"\n"]);
    }
    add_toml_lines(alloc, out, name, before, example, part)
}
