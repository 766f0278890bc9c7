ghost use Rattle.std.specs.Prelude.{◌≡◌, ◌≢◌, ◌≤◌, length, None, IfSome};
ghost use Rattle.std.specs.List.{prefix_len};
ghost use Rattle.rv_log.specs.Statement.{is_printing, shown_of, statement_text};
ghost use Rattle.rv_text.specs.Said.{Says};

use rv_passage::Passage;
use rv_source::Listing;
use rv_text::{Sink, front};
use std::io::Write;

fn is_printing(byte: u8) -> bool
    ensures { result ≡ is_printing byte }
{
    32 <= byte && byte <= 126
}

/// How many printing characters a text begins with.
pub(crate) fn printing_length(text: &[u8]) -> usize
    ensures length { result ≡ prefix_len is_printing text.now }
    ensures within { result ≤ length text.now }
{
    for (count, byte) in text.iter().enumerate() {
        if !is_printing(*byte) {
            return count;
        }
    }
    text.len()
}

/// The statement of an instruction, at most 64 bytes of it. Digits of its word stand in the buffer.
pub(crate) fn statement_of<'a>(
    listing: &'a Listing,
    buffer: &'a mut [u8; 8],
    row: &Passage,
) -> &'a [u8]
    ensures short { length result.now ≤ 64 }
    ensures statement { result.now ≡ shown_of listing.now row.now }
{
    front(listing.statement(buffer, row.pc, row.word), 64)
}

/// The statement of an instruction as a log shows it, where it is that of its line. Digits of its word stand in the buffer.
pub(crate) fn printing_statement<'a>(
    listing: &'a Listing,
    buffer: &'a mut [u8; 8],
    row: &Passage,
) -> Option<&'a [u8]>
    ensures short { IfSome result (λ statement. length statement.now ≤ 64) }
    ensures shown { IfSome result (λ statement. statement.now ≡ statement_text listing.now row.now) }
    ensures none { result ≡ None
        → prefix_len is_printing (shown_of listing.now row.now) ≢ length (shown_of listing.now row.now) }
{
    let statement = statement_of(listing, buffer, row);
    if printing_length(statement) == statement.len() {
        Some(statement)
    } else {
        None
    }
}

/// Writes the statement of an instruction, at most 64 bytes of it.
pub(crate) fn write_statement<W: Write>(out: &mut Sink<'_, W>, listing: &Listing, row: &Passage)
    ensures { Says W.contents out.old out.new (statement_text listing.now row.now) }
{
    let mut buffer = [0; 8];
    let statement = statement_of(listing, &mut buffer, row);
    let (printing, rest) = statement.split_at(printing_length(statement));
    out.put(printing);
    out.put_plain(rest)
}
