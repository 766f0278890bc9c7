ghost use Rattle.std.specs.Prelude.{◌≡◌, ◌-◌};
ghost use Rattle.std.specs.List.{flat_map};
ghost use Rattle.rv_drawing.specs.Label.{blanks, markup_byte, statement_of, written_by, written_text, padded};
ghost use Rattle.rv_text.specs.Said.{Says};

use crate::shorter::shortened;
use arrayvec::ArrayVec;
use itoa::Buffer;
use rv_isa::Reg;
use rv_passage::{Ending, Passage, register_name};
use rv_source::Listing;
use rv_text::{Sink, hexadecimal};
use std::io::Write;

// So many blanks, at most 40.
#[tactic(auto, unfolding(crate::specs::Label::blanks))]
fn blanks(count: usize) -> &'static [u8]
    ensures { result.now ≡ blanks count }
{
    let (blanks, _) = b"                                        ".split_at(count.min(40));
    blanks
}

/// Writes the blanks that are left of so many columns.
pub(crate) fn write_blanks<W: Write>(out: &mut Sink<'_, W>, width: usize, used: usize)
    ensures { Says W.contents out.old out.new (blanks (width - used)) }
{
    out.put(blanks(width.saturating_sub(used)))
}

/// Writes a text, and blanks until it takes so many columns.
#[tactic(auto, using(rv_text::proofs::Saying::saying), unfolding(crate::specs::Label::padded))]
pub(crate) fn write_padded<W: Write>(out: &mut Sink<'_, W>, width: usize, text: &[u8])
    ensures { Says W.contents out.old out.new (padded width text.now) }
{
    out.put(text);
    write_blanks(out, width, text.len())
}

/// The statement of an instruction in at most 32 bytes, of which a label takes no more than it can. A word that is shown in its
/// place stands in the buffer, and what is cut in the room.
pub(crate) fn statement<'a>(
    buffer: &'a mut [u8; 8],
    room: &'a mut ArrayVec<u8, 32>,
    listing: &'a Listing,
    row: &Passage,
) -> &'a [u8]
    ensures { result.now ≡ statement_of listing.now row.now }
{
    shortened(room, listing.statement(buffer, row.pc, row.word))
}

#[tactic(auto, unfolding(crate::specs::Label::markup_byte))]
fn write_markup_byte<W: Write>(out: &mut Sink<'_, W>, byte: u8)
    ensures { Says W.contents out.old out.new (markup_byte byte) }
{
    if byte == b'&' {
        out.put(b"&amp;")
    } else if byte == b'<' {
        out.put(b"&lt;")
    } else if byte == b'>' {
        out.put(b"&gt;")
    } else if byte == b'"' {
        out.put(b"&quot;")
    } else {
        out.put_plain_byte(byte)
    }
}

/// Writes a statement for an SVG.
#[tactic(auto, using(rv_text::proofs::Saying::saying))]
pub(crate) fn write_markup<W: Write>(out: &mut Sink<'_, W>, statement: &[u8])
    ensures { Says W.contents out.old out.new (flat_map markup_byte statement.now) }
{
    for byte in statement {
        write_markup_byte(out, *byte);
    }
}

/// What an instruction wrote, if it retired.
pub(crate) fn written(ending: Ending) -> Option<(Reg, u32)>
    ensures { result ≡ written_by ending }
{
    match ending {
        Ending::Retired { written, .. } => written,
        Ending::InFlight | Ending::Trapped { .. } | Ending::Squashed { .. } => None,
    }
}

/// Writes the register that an instruction wrote, with its value.
#[tactic(auto, unfolding(crate::specs::Label::written_text))]
pub(crate) fn write_written<W: Write>(out: &mut Sink<'_, W>, row: &Passage)
    ensures { Says W.contents out.old out.new (written_text (written_by row.now.ending)) }
{
    match written(row.ending) {
        Some((register, word)) => {
            let mut buffer = Buffer::new();
            let number = buffer.format(register.number()).as_bytes();
            let name = register_name(register);
            let value = hexadecimal(word);
            out.put_all(&[b"x", number, b"/", name, b"=", value.as_slice()])
        }
        None => out.put(b"-"),
    }
}
