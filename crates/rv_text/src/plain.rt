ghost use Rattle.std.specs.Prelude.{◌≡◌, take};
ghost use Rattle.rv_text.specs.Plain.{plain_byte, plain_text};
ghost use Rattle.rv_text.specs.Said.{Says};
ghost use Rattle.rv_text.specs.Written.{IsWritten};

use crate::output::ReportError;
use crate::sink::Sink;
use std::io::Write;

/// The first bytes of a text, at most so many.
pub fn front(text: &[u8], most: usize) -> &[u8]
    ensures { result.now ≡ take most text.now }
{
    let (front, _) = text.split_at(most.min(text.len()));
    front
}

impl<'a, W: Write> Sink<'a, W> {
    /// Says a byte, a blank in the place of a tab, or a question mark in the place of any other that is no printing character of
    /// ASCII.
    #[tactic(auto, unfolding(crate::specs::Plain::plain_byte))]
    pub fn put_plain_byte(&mut self, byte: u8)
        ensures { Says W.contents self.old self.new (plain_byte byte) }
    {
        if 32 <= byte && byte <= 126 {
            self.put(&[byte])
        } else if byte == b'\t' {
            self.put(b" ")
        } else {
            self.put(b"?")
        }
    }

    /// Says a text of a user's, with a blank in the place of each tab, and a question mark in that of each other byte that is no
    /// printing character of ASCII.
    #[tactic(auto, using(crate::proofs::Saying::saying))]
    pub fn put_plain(&mut self, text: &[u8])
        ensures { Says W.contents self.old self.new (plain_text text.now) }
    {
        for byte in text {
            self.put_plain_byte(*byte);
        }
    }
}

/// Writes a text as [`Sink::put_plain`] says it.
#[tactic(auto, using(crate::proofs::Saying::says_written))]
pub fn write_plain<W: Write>(writer: &mut W, text: &[u8]) -> Result<(), ReportError>
    ensures { IsWritten result (W.contents writer.old) (W.contents writer.new) (plain_text text.now) }
{
    let mut out = Sink::new(writer);
    out.put_plain(text);
    out.outcome()
}
