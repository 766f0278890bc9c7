ghost use Rattle.std.specs.Prelude.{◌≡◌, [], drop, get_or, map, take};
ghost use Rattle.rv_hardware.specs.Report.{all_stalls};
ghost use Rattle.rv_sentences.specs.Stack.{column_line, parts_of, part_line, share_line};
ghost use Rattle.rv_sentences.specs.Stack.{share_text, count_text, stall_line, stall_text};
ghost use Rattle.std.specs.List.{flat_map};
ghost use Rattle.rv_text.specs.Said.{Says};

use itoa::Buffer;
use rv_hardware::{Stall, StallCounts};
use rv_text::Sink;
use std::io::Write;

/// How many of so many parts of a whole a count is, to the nearest; none of nothing.
pub fn parts_of(parts: u32, count: u64, all: u64) -> u128
    ensures { result ≡ parts_of parts count all }
{
    if all == 0 {
        0
    } else {
        (2 * u128::from(parts) * u128::from(count) + u128::from(all)) / (2 * u128::from(all))
    }
}

/// The name at a place of a table; empty past its end.
pub(crate) fn name_at(names: &[&'static [u8]], place: usize) -> &'static [u8]
    ensures { result.now ≡ get_or (map (λ name. name.now) names.now) place [] }
{
    if place < names.len() {
        names[place]
    } else {
        b""
    }
}

/// Writes a part of all in brackets, by its tenths of a percent.
#[tactic(auto, using(rv_text::proofs::Saying::saying), unfolding(crate::specs::Stack::share_text))]
pub(crate) fn write_share_of<W: Write>(out: &mut Sink<'_, W>, tenths: u128)
    ensures { Says W.contents out.old out.new (share_text tenths) }
{
    let mut percent_buffer = Buffer::new();
    let percent = percent_buffer.format(tenths / 10).as_bytes();
    let mut tenth_buffer = Buffer::new();
    let tenth = tenth_buffer.format(tenths % 10).as_bytes();
    out.put_all(&[b" (", percent, b".", tenth, b"%)"]);
}

/// What of a text is after so many bytes.
pub fn rest_after(text: &[u8], count: usize) -> &[u8]
    ensures { result.now ≡ drop count text.now }
{
    if count < text.len() {
        &text[count..]
    } else {
        b""
    }
}

// So many bytes of a text, or all.
fn front(text: &[u8], count: u128) -> &[u8]
    ensures { result.now ≡ take count text.now }
{
    if count < text.len() as u128 {
        &text[..count as usize]
    } else {
        text
    }
}

/// Writes a name, a count, and what part of all it is.
#[tactic(auto, using(rv_text::proofs::Saying::saying), unfolding(crate::specs::Stack::bar_text, crate::specs::Stack::indent, crate::specs::Stack::row_text, crate::specs::Stack::share_line))]
pub fn write_share<W: Write>(out: &mut Sink<'_, W>, name: &str, count: u64, all: u64)
    ensures { Says W.contents out.old out.new (share_line name.now count all) }
{
    let tenths = parts_of(1000, count, all);
    let name = name.as_bytes();
    let mut count_buffer = Buffer::new();
    let digits = count_buffer.format(count).as_bytes();
    let indent = rest_after(b"          ", digits.len());
    let mut percent_buffer = Buffer::new();
    let percent = percent_buffer.format(tenths / 10).as_bytes();
    let percent_indent = rest_after(b"     ", percent.len());
    let mut tenth_buffer = Buffer::new();
    let tenth = tenth_buffer.format(tenths % 10).as_bytes();
    let bar = front(
        b"##################################################",
        parts_of(50, count, all),
    );
    out.put_all(&[
        name,
        indent,
        digits,
        percent_indent,
        percent,
        b".",
        tenth,
        b"%  ",
        bar,
        b"\n",
    ]);
}

/// Writes how many cycles there were, and how many instructions retired.
#[tactic(auto, using(rv_text::proofs::Saying::saying), unfolding(crate::specs::Stack::count_text))]
pub fn write_counts<W: Write>(out: &mut Sink<'_, W>, cycles: u64, retired: u64)
    ensures { Says W.contents out.old out.new (count_text cycles retired) }
{
    let mut cycle_buffer = Buffer::new();
    let cycles = cycle_buffer.format(cycles).as_bytes();
    let mut retired_buffer = Buffer::new();
    let retired = retired_buffer.format(retired).as_bytes();
    out.put_all(&[
        b"cycles ",
        cycles,
        b", retired instructions ",
        retired,
        b"\n",
    ]);
}

/// A part of all.
#[derive(Clone, Copy)]
pub struct Share<'a> {
    /// What it is called.
    pub name: &'a str,
    /// How much it is.
    pub count: u64,
}

// Writes a part, unless it is none.
#[tactic(auto, unfolding(crate::specs::Stack::part_line))]
fn write_part<W: Write>(out: &mut Sink<'_, W>, name: &str, count: u64, all: u64)
    ensures { Says W.contents out.old out.new (part_line name.now count all) }
{
    if count == 0 {
        return;
    }
    write_share(out, name, count, all);
}

/// Writes the parts that there are.
#[tactic(auto, using(rv_text::proofs::Saying::saying))]
pub fn write_shares<W: Write>(out: &mut Sink<'_, W>, shares: &[Share<'_>], all: u64)
    ensures { Says W.contents out.old out.new
        (flat_map (λ share. part_line share.name.now share.count all) shares.now) }
{
    for share in shares {
        write_part(out, share.name, share.count, all);
    }
}

// Writes a part whose name stands in a column of its own, unless it is none.
#[tactic(auto, using(rv_text::proofs::Saying::saying), unfolding(crate::specs::Stack::column_line, crate::specs::Stack::indent))]
fn write_column<W: Write>(out: &mut Sink<'_, W>, name: &str, count: u64, all: u64)
    ensures { Says W.contents out.old out.new (column_line name.now count all) }
{
    if count == 0 {
        return;
    }
    out.put(name.as_bytes());
    out.put(rest_after(b"       ", name.len()));
    write_share(out, "", count, all);
}

// Writes how many cycles dispatched nothing, by the reason, unless there are none.
#[tactic(auto, using(rv_text::proofs::Saying::saying))]
fn write_each_stall<W: Write>(out: &mut Sink<'_, W>, cycles: u64, stalls: &StallCounts)
    ensures { Says W.contents out.old out.new (flat_map (stall_line stalls.now cycles) all_stalls) }
{
    for stall in Stall::all() {
        write_column(out, stall.name(), stalls.of(*stall), cycles);
    }
}

/// Writes how many cycles dispatched something, and how many did not, by the reason, unless there are none.
#[tactic(auto, using(rv_text::proofs::Saying::says_both), unfolding(crate::specs::Stack::stall_text))]
pub fn write_stalls<W: Write>(out: &mut Sink<'_, W>, cycles: u64, busy: u64, stalls: &StallCounts)
    ensures { Says W.contents out.old out.new (stall_text cycles busy stalls.now) }
{
    write_column(out, "busy", busy, cycles);
    write_each_stall(out, cycles, stalls);
}
