//! Texts with a number in them, which are written at once.
ghost use Rattle.std.specs.Prelude.{◌≡◌, ◌+◌, ◌≤◌, ◌++◌, decimal, drop, length};
ghost use Rattle.rv_text.specs.Said.{Says};

use itoa::write_digits;
use rv_text::Sink;
use std::io::Write;

// The most bytes that are written at once, and how many of them may stand before the number and after it.
const MOST: usize = 96;

const MOST_BEFORE: usize = 16;

const MOST_AFTER: usize = 48;

/// Says a text, by a call: the code that writes stands once, and what calls it stays short.
#[inline(never)]
pub(crate) fn say<W: Write>(out: &mut Sink<'_, W>, text: &[u8])
    ensures { Says W.contents out.old out.new text.now }
{
    out.put(text)
}

/// Puts a text into a line before a place. Answers where it starts.
#[inline(always)]
pub(crate) fn put_before(line: &mut [u8], end: usize, text: &[u8]) -> usize
    requires { (length text.now ≤ end) × (end ≤ length line.old) }
    ensures start { result + length text.now ≡ end }
    ensures written { drop result line.new ≡ text.now ++ drop end line.old }
    ensures same { length line.new ≡ length line.old }
{
    let start = end - text.len();
    let (_, rest) = line.split_at_mut(start);
    let (place, _) = rest.split_at_mut(text.len());
    place.copy_from_slice(text);
    start
}

/// Puts a number into a line before a place. Answers where it starts.
#[inline(always)]
pub(crate) fn number_before(line: &mut [u8], end: usize, number: u64) -> usize
    requires { (20 ≤ end) × (end ≤ length line.old) }
    ensures start { (result ≤ end) × (end ≤ result + 20) }
    ensures written { drop result line.new ≡ decimal number ++ drop end line.old }
    ensures same { length line.new ≡ length line.old }
{
    write_digits(number, line, end)
}

// Writes a number between two short texts.
#[inline(always)]
fn write_at_once<W: Write>(out: &mut Sink<'_, W>, before: &[u8], number: u64, after: &[u8])
    requires short { (length before.now ≤ 16) × (length after.now ≤ 48) }
    ensures { Says W.contents out.old out.new (before.now ++ (decimal number ++ after.now)) }
{
    let mut line = [0; MOST];
    let end = put_before(&mut line, MOST, after);
    let middle = write_digits(number, &mut line, end);
    let start = put_before(&mut line, middle, before);
    let (_, text) = line.split_at(start);
    say(out, text)
}

/// Writes two numbers between short texts.
#[inline(always)]
pub(crate) fn write_two_numbers<W: Write>(
    out: &mut Sink<'_, W>,
    before: &[u8],
    first: u64,
    between: &[u8],
    second: u64,
    after: &[u8],
)
    requires short { (length before.now ≤ 16) × (length between.now ≤ 16) × (length after.now ≤ 16) }
    ensures { Says W.contents out.old out.new
        (before.now ++ (decimal first ++ (between.now ++ (decimal second ++ after.now)))) }
{
    let mut line = [0; MOST];
    let end = put_before(&mut line, MOST, after);
    let middle = number_before(&mut line, end, second);
    let join = put_before(&mut line, middle, between);
    let front = number_before(&mut line, join, first);
    let start = put_before(&mut line, front, before);
    let (_, text) = line.split_at(start);
    say(out, text)
}

/// Writes a number between two texts.
#[inline(always)]
pub(crate) fn write_numbered<W: Write>(
    out: &mut Sink<'_, W>,
    before: &[u8],
    number: u64,
    after: &[u8],
)
    ensures { Says W.contents out.old out.new (before.now ++ (decimal number ++ after.now)) }
{
    if before.len() <= MOST_BEFORE && after.len() <= MOST_AFTER {
        write_at_once(out, before, number, after)
    } else {
        say(out, before);
        out.put_decimal(number);
        say(out, after)
    }
}
