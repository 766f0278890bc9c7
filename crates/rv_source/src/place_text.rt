ghost use Rattle.std.specs.Prelude.{take};
ghost use Rattle.rv_source.specs.PlaceText.{address_text, line_text, number_text, place_text};
ghost use Rattle.rv_source.specs.Listing.{line_at};
ghost use Rattle.rv_text.specs.Plain.{plain_text};
ghost use Rattle.rv_text.specs.Said.{Says};

use crate::listing::Listing;
use itoa::Buffer;
use rv_text::{Sink, front, hexadecimal};
use std::io::Write;

#[tactic(auto, unfolding(crate::specs::PlaceText::number_text))]
fn write_number<W: Write>(out: &mut Sink<'_, W>, address: &[u8], number: usize)
    ensures { Says W.contents out.old out.new (number_text address.now number) }
{
    let mut buffer = Buffer::new();
    let digits = buffer.format(number).as_bytes();
    out.put_all(&[address, b", line ", digits, b": "]);
}

// Writes at most 64 bytes of a statement.
#[tactic(auto, using(rv_text::proofs::Saying::saying))]
fn write_statement<W: Write>(out: &mut Sink<'_, W>, text: &[u8])
    ensures { Says W.contents out.old out.new (plain_text (take 64 text.now)) }
{
    out.put_plain(front(text, 64));
}

// Writes an address, the number of its line, and at most 64 bytes of the statement.
#[tactic(auto, using(rv_text::proofs::Saying::saying), unfolding(crate::specs::PlaceText::line_text))]
fn write_line<W: Write>(out: &mut Sink<'_, W>, address: &[u8], number: usize, text: &[u8])
    ensures { Says W.contents out.old out.new (line_text address.now number text.now) }
{
    write_number(out, address, number);
    write_statement(out, text);
    out.put(b"\n");
}

// Writes an address by its digits, and the line of the word there.
#[tactic(auto, using(rv_text::proofs::Saying::saying), unfolding(crate::specs::PlaceText::address_text))]
fn write_address<W: Write>(out: &mut Sink<'_, W>, digits: &[u8], listing: &Listing, address: u32)
    ensures { Says W.contents out.old out.new (address_text digits.now (line_at listing.now address)) }
{
    match listing.number_at(address) {
        Some(number) => match listing.text_at(address) {
            Some(text) => write_line(out, digits, number, text),
            None => out.put_all(&[digits, b", which no line of the program fills\n"]),
        },
        None => out.put_all(&[digits, b", which no line of the program fills\n"]),
    }
}

/// Writes an address, and the line of the word there.
#[tactic(auto, using(rv_text::proofs::Saying::saying), unfolding(crate::specs::PlaceText::place_text))]
pub fn write_place<W: Write>(out: &mut Sink<'_, W>, listing: &Listing, address: u32)
    ensures { Says W.contents out.old out.new (place_text listing.now address) }
{
    let digits = hexadecimal(address);
    write_address(out, &digits, listing, address);
}
