ghost use Rattle.std.specs.Prelude.{◌≡◌, false, decimal, is_err};
ghost use Rattle.std.specs.List.{flat_map};
ghost use Rattle.rv_text.specs.Line.{word_text};

use crate::digits::hexadecimal;
use crate::output::{ReportError, TextError, put};
use itoa::Buffer;
use std::io::Write;

/// A writer that is lent, and to which texts are said. A write that fails is remembered, and nothing is written after it.
pub struct Sink<'a, W: Write> {
    writer: &'a mut W,
    has_failed: bool,
}

impl<'a, W: Write> Sink<'a, W> {
    ghost use Rattle.rv_text.specs.Said.{Says, answered};

    /// A sink to which nothing was said yet.
    pub fn new(writer: &'a mut W) -> Sink<'a, W>
        ensures same { result.writer.ghost_name ≡ writer.entry.ghost_name }
        ensures known { result.writer.now ≡ writer.old }
        ensures whole { result.has_failed ≡ false }
    {
        Sink {
            writer,
            has_failed: false,
        }
    }

    /// A sink that goes on where a write may have failed.
    pub fn after(writer: &'a mut W, has_failed: bool) -> Sink<'a, W>
        ensures same { result.writer.ghost_name ≡ writer.entry.ghost_name }
        ensures known { result.writer.now ≡ writer.old }
        ensures failed { result.has_failed ≡ has_failed }
    {
        Sink { writer, has_failed }
    }

    /// Whether a write failed.
    pub fn has_failed(&self) -> bool
        ensures { result ≡ self.now.has_failed }
    {
        self.has_failed
    }

    /// Whether all was written.
    pub fn outcome(&self) -> Result<(), ReportError>
        ensures { is_err result ≡ self.now.has_failed }
    {
        if self.has_failed {
            Err(ReportError::WriteFailed)
        } else {
            Ok(())
        }
    }

    /// An answer, unless a write failed.
    pub fn answer<T: Drop>(&self, answer: T) -> Result<T, TextError>
        ensures { result ≡ answered self.now.has_failed answer }
    {
        if self.has_failed {
            Err(TextError::WriteFailed)
        } else {
            Ok(answer)
        }
    }

    /// Says a text.
    pub fn put(&mut self, text: &[u8])
        ensures { Says W.contents self.old self.new text.now }
    {
        if !self.has_failed {
            self.has_failed = put(&mut *self.writer, text).is_err();
        }
    }

    /// Says a number in decimal.
    pub fn put_decimal(&mut self, number: u64)
        ensures { Says W.contents self.old self.new (decimal number) }
    {
        let mut buffer = Buffer::new();
        self.put(buffer.format(number).as_bytes())
    }

    /// Says a word as eight hexadecimal digits.
    pub fn put_word(&mut self, word: u32)
        ensures { Says W.contents self.old self.new (word_text word) }
    {
        self.put(hexadecimal(word).as_slice())
    }

    /// Says texts one after the other.
    pub fn put_all(&mut self, texts: &[&[u8]])
        ensures { Says W.contents self.old self.new (flat_map (λ t. t.now) texts.now) }
    {
        for text in texts {
            self.put(text);
        }
    }
}

impl<W: Write> Drop for Sink<'_, W> {
    fn drop(self)
        ensures { self.exit.0.now ≡ self.entry.writer.now }
    {
        let Sink {
            writer,
            has_failed: _,
        } = self;
    }
}
