ghost use Rattle.std.specs.Prelude.{◌≡◌};

use std::marker::Model;

/// A line of a source text.
#[derive(Drop)]
pub struct SourceLine {
    number: usize,
    text: Vec<u8>,
}

impl Model for SourceLine {
    ghost use Rattle.rv_source.specs.Listing.{Line};

    ghost Value = { Line };

    ghost view = { λ line. record { number = line.number; text = line.text.items } };
}

impl SourceLine {
    /// The line with a number, the first line of a text being 1, and these bytes.
    pub fn new(number: usize, text: Vec<u8>) -> Self
        ensures { result ≡ record { number = number; text = text.items } }
    {
        SourceLine { number, text }
    }

    /// The number of the line, the first line of the text being 1.
    pub fn number(&self) -> usize
        ensures { result ≡ self.now.number }
    {
        self.number
    }

    /// The bytes of the line.
    pub fn text(&self) -> &[u8]
        ensures { result.now ≡ self.now.text }
    {
        self.text.as_slice()
    }
}
