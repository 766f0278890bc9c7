ghost use Rattle.std.specs.Prelude.{◌≡◌, ◌++◌, [], Some, None, IfOk, OnErr, replicate};
ghost use Rattle.std.specs.Option.{option_copied, option_map};
ghost use Rattle.rv_source.specs.Listing.{line_at};
ghost use Rattle.rv_source.specs.Statement.{statement_at, text_at};

use crate::line::SourceLine;
use rv_text::hexadecimal;
use std::alloc::{AllocError, Global};
use std::marker::Model;

/// Which line of a source text each word of an image comes from.
#[derive(Drop)]
pub struct Listing {
    base: u32,
    lines: Vec<SourceLine>,
    // For each word of the image the place of its line in `lines`.
    words: Vec<Option<usize>>,
}

impl Model for Listing {
    ghost use Rattle.rv_source.specs.Listing.{Listed};

    ghost Value = { Listed };

    ghost use Rattle.rv_source.specs.Places.{lines_at, AreWithin};

    ghost view = { λ l. record { base = l.base; words = lines_at l.lines.items l.words.items } };

    ghost invariant = { λ l. AreWithin l.lines.items l.words.items };
}

// Appends a place some times.
fn push_places(
    places: &mut Vec<Option<usize>>,
    count: usize,
    place: Option<usize>,
) -> Result<(), AllocError>
    ensures pushed { IfOk result (λ _. places.new.items ≡ places.old.items ++ replicate count place) }
    ensures kept { OnErr result (places.new.items ≡ places.old.items) }
{
    let Some(size) = places.len().checked_add(count) else {
        return Err(AllocError);
    };
    places.resize(size, place)?;
    Ok(())
}

impl Listing {
    /// The listing of an image without words that begins at an address.
    pub fn new(alloc: Global, base: u32) -> Self
        ensures { result ≡ record { base = base; words = [] } }
    {
        Listing {
            base,
            lines: Vec::new(alloc),
            words: Vec::new(alloc),
        }
    }

    /// Appends words that come from a line. The only error is that memory ran out, which changes nothing.
    #[tactic(auto, using(crate::proofs::Places::lines_at_append))]
    pub fn push_line(&mut self, line: SourceLine, words: usize) -> Result<(), AllocError>
        ensures pushed { IfOk result (λ _. self.new
            ≡ record self.old { words = self.old.words ++ replicate words (Some line) }) }
        ensures kept { OnErr result (self.new ≡ self.old) }
    {
        let place = self.lines.len();
        self.lines.push(line)?;
        push_places(&mut self.words, words, Some(place))?;
        Ok(())
    }

    /// Appends words that come from no line. The only error is that memory ran out, which changes nothing.
    pub fn push_gap(&mut self, words: usize) -> Result<(), AllocError>
        ensures pushed { IfOk result (λ _. self.new
            ≡ record self.old { words = self.old.words ++ replicate words None }) }
        ensures kept { OnErr result (self.new ≡ self.old) }
    {
        push_places(&mut self.words, words, None)?;
        Ok(())
    }

    /// The line of the word that holds the byte at an address.
    fn line_at(&self, address: u32) -> Option<&SourceLine>
        ensures { option_copied result ≡ line_at self.now address }
    {
        let offset = address.checked_sub(self.base)?;
        let place = (*self.words.get((offset / 4) as usize)?)?;
        self.lines.get(place)
    }

    /// The number of the line of the word that holds the byte at an address, or `None` where the
    /// word comes from no line or lies outside the image.
    pub fn number_at(&self, address: u32) -> Option<usize>
        ensures { result ≡ option_map (λ line. line.number) (line_at self.now address) }
    {
        Some(self.line_at(address)?.number())
    }

    /// The text of that line.
    pub fn text_at(&self, address: u32) -> Option<&[u8]>
        ensures { option_copied result ≡ text_at self.now address }
    {
        Some(self.line_at(address)?.text())
    }

    /// The statement of an instruction at an address: the text of its line, or where it comes from none
    /// the digits of the word that was fetched there, or a hyphen where none was. The digits stand in
    /// the buffer.
    #[tactic(auto, unfolding(crate::specs::Statement::text_or_word))]
    pub fn statement<'a>(
        &'a self,
        buffer: &'a mut [u8; 8],
        address: u32,
        word: Option<u32>,
    ) -> &'a [u8]
        ensures { result.now ≡ statement_at self.now address word }
    {
        match (self.text_at(address), word) {
            (Some(text), _) => text,
            (None, Some(word)) => {
                *buffer = hexadecimal(word);
                buffer.as_slice()
            }
            (None, None) => b"-",
        }
    }
}
