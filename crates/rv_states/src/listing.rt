ghost use Rattle.std.specs.Prelude.{◌≡◌};
ghost use Rattle.rv_states.specs.Listing.{is_first_of, line_before, line_text, listing_line};
ghost use Rattle.rv_states.specs.Listing.{listing_lines, numbered_line, statement_text};
ghost use Rattle.rv_text.specs.Said.{Says};

use crate::json::{Member, write_front, write_key, write_string};
use crate::place::word_address;
use rv_isa::Values;
use rv_source::Listing;
use rv_text::Sink;
use std::io::Write;

// Writes the text of a line at the first of its words: a line may lay down thousands of them.
#[tactic(auto, using(rv_text::proofs::Saying::says_both), unfolding(crate::specs::Json::also, crate::specs::Listing::statement_text))]
fn write_statement<W: Write>(out: &mut Sink<'_, W>, is_first: bool, text: &[u8])
    ensures { Says W.contents out.old out.new (statement_text is_first text.now) }
{
    if is_first {
        write_key(out, "text");
        write_string(out, text);
    }
}

#[tactic(auto, using(rv_text::proofs::Saying::says_both), unfolding(crate::specs::Listing::line_text, crate::specs::Listing::place_text))]
fn write_line<W: Write>(
    out: &mut Sink<'_, W>,
    is_first: bool,
    address: u32,
    number: usize,
    text: &[u8],
)
    ensures { Says W.contents out.old out.new
        (line_text is_first address (record { number = number; text = text.now })) }
{
    write_front(
        out,
        "address",
        u64::from(address),
        &[Member::number("line", number as u64)],
    );
    write_statement(out, is_first, text);
    out.put(b"}\n")
}

// Whether a word of a line is its first, where the word before comes from a line with this number, or from none.
fn is_first_of(number: usize, before: Option<usize>) -> bool
    ensures { result ≡ is_first_of number before }
{
    match before {
        Some(before) => before != number,
        None => true,
    }
}

// Writes the line of the word at an address, where it comes from a source line.
fn write_listing_line<W: Write>(
    out: &mut Sink<'_, W>,
    listing: &Listing,
    before: Option<usize>,
    address: u32,
)
    ensures { Says W.contents out.old out.new (listing_line listing.now before address) }
{
    match (listing.number_at(address), listing.text_at(address)) {
        (Some(number), Some(text)) => {
            write_line(out, is_first_of(number, before), address, number, text)
        }
        _ => {}
    }
}

// The number of the line that the word before a word of RAM comes from, if there is one.
fn line_before(listing: &Listing, base: u32, number: u32) -> Option<usize>
    ensures { result ≡ line_before listing.now base number }
{
    let before = number.checked_sub(1)?;
    listing.number_at(word_address(base, before))
}

// Writes the line of a word of RAM.
fn write_numbered<W: Write>(out: &mut Sink<'_, W>, listing: &Listing, base: u32, number: u32)
    ensures { Says W.contents out.old out.new (numbered_line listing.now base number) }
{
    let before = line_before(listing, base, number);
    write_listing_line(out, listing, before, word_address(base, number));
}

/// Writes a line for each word of RAM that comes from a source line: its address and the number of the line, and at the
/// first word of a line its text.
pub fn write_listing<W: Write>(out: &mut Sink<'_, W>, listing: &Listing, values: &Values)
    ensures { Says W.contents out.old out.new (listing_lines listing.now values.now) }
{
    for number in 0..values.ram_size / 4 {
        write_numbered(out, listing, values.ram_base, number);
    }
}
