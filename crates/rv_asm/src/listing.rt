ghost use Rattle.std.specs.Prelude.{◌≡◌, ◌-◌, ◌++◌, Some, None, IfOk, IfErr, get_or, replicate};
ghost use Rattle.rv_asm.specs.Answer.{RefusedAt};
ghost use Rattle.rv_asm.specs.Faults.{fault_of};
ghost use Rattle.rv_asm.specs.Layout.{layout, lines_of};
ghost use Rattle.rv_asm.specs.Listing.{listing_of, listing_of_kept, noted, reach_before, shown, trimmed, word_count};
ghost use Rattle.rv_asm.specs.Listing.{words_between, words_in, words_of_kept};
ghost use Rattle.rv_asm.specs.Meaning.{Spells, image_parts, round_up, start_address};
ghost use Rattle.rv_asm.specs.Symbols.{cells_in, fault_in, kept_in, layout_of};

use crate::assembler::image_of;
use crate::fault::{AsmError, AsmFault};
use crate::layout::{Layout, length_before};
use crate::operation::Section;
use crate::program::Program;
use crate::reach::Reach;
use crate::record::{Record, TextLine};
use rv_isa::Image;
use rv_source::{Listing, SourceLine};
use std::alloc::{AllocError, Global};

/// How many words hold so many bytes.
fn word_count(size: usize) -> usize
    ensures { result ≡ word_count size }
{
    ((size as u128 + 3) / 4) as usize
}

/// How many words of the section begin between two points of a text.
fn words_between(section: Section, before: Reach, after: Reach) -> usize
    ensures { result ≡ words_between section before after }
{
    word_count(after.offset_in(section)).saturating_sub(word_count(before.offset_in(section)))
}

/// How many words of zero bytes begin between the text and the data.
fn words_of_gap(text_size: usize) -> usize
    ensures { result ≡ word_count (round_up text_size) - word_count text_size }
{
    let rounded = (text_size as u128 + 15) / 16 * 16;
    ((rounded + 3) / 4 - (text_size as u128 + 3) / 4) as usize
}

// Appends bytes without white space at their ends.
fn push_trimmed(bytes: &[u8], text: &mut Vec<u8>) -> Result<(), AllocError>
    ensures { IfOk result (λ _. text.new.items ≡ text.old.items ++ trimmed bytes.now) }
{
    text.extend_from_slice(bytes.trim_ascii())?;
    Ok(())
}

// The byte after the number sign of a comment; 0 where there is none.
fn second_byte(comment: &[u8]) -> u8
    ensures { result ≡ get_or comment.now 1 0 }
{
    match comment.get(1) {
        Some(byte) => *byte,
        None => 0,
    }
}

// Appends a blank and a comment that begins with a number sign and a colon; no other one is for a listing.
fn push_noted(comment: &[u8], text: &mut Vec<u8>) -> Result<(), AllocError>
    ensures { IfOk result (λ _. text.new.items ≡ text.old.items ++ noted comment.now) }
{
    if second_byte(comment) == b':' {
        text.push(b' ')?;
        push_trimmed(comment, text)?;
    }
    Ok(())
}

/// The line as a listing shows it: without white space at its ends, and of comments with one that begins with `#:` alone.
fn shown(alloc: Global, line: TextLine<'_>) -> Result<SourceLine, AllocError>
    ensures { IfOk result (λ source. source ≡ shown line.entry.number line.entry.bytes.now) }
{
    let mut text = Vec::new(alloc);
    let (statement, comment) = line.bytes.split_at(length_before(b'#', line.bytes));
    push_trimmed(statement, &mut text)?;
    push_noted(comment, &mut text)?;
    Ok(SourceLine::new(line.number, text))
}

/// Appends words that come from a line, if there are any.
fn push_words(
    alloc: Global,
    line: TextLine<'_>,
    words: usize,
    listing: &mut Listing,
) -> Result<(), AllocError>
    ensures { IfOk result (λ _. listing.new ≡ record listing.old {
      words = listing.old.words
          ++ replicate words (Some (shown line.entry.number line.entry.bytes.now));
    }) }
{
    if words == 0 {
        return Ok(());
    }
    listing.push_line(shown(alloc, line)?, words)?;
    Ok(())
}

/// How far the text has come before records, where it comes as far as the end after them.
fn reach_before(end: Reach, records: &[Record<'_>]) -> Reach
    ensures { result ≡ reach_before end (kept_in records.now) }
{
    match records.first() {
        Some(record) => record.reach,
        None => end,
    }
}

/// Appends the words of a section.
fn push_section(
    alloc: Global,
    layout: &Layout<'_>,
    section: Section,
    listing: &mut Listing,
) -> Result<(), AllocError>
    ensures { IfOk result (λ _. listing.new ≡ record listing.old {
      words = listing.old.words
          ++ words_in section layout.now.reach (kept_in layout.now.records.items);
    }) }
{
    let mut rest = layout.records.as_slice();
    while let [record, others @ ..] = rest {
        let words = words_between(section, record.reach, reach_before(layout.reach, others));
        push_words(alloc, record.line, words, listing)?;
        rest = others;
    }
    Ok(())
}

/// Appends the words of both sections, and of the zero bytes between them.
fn push_sections(
    alloc: Global,
    layout: &Layout<'_>,
    listing: &mut Listing,
) -> Result<(), AllocError>
    ensures { IfOk result (λ _. listing.new ≡ record listing.old {
      words = listing.old.words ++ words_of_kept layout.now.reach (kept_in layout.now.records.items);
    }) }
{
    push_section(alloc, layout, Section::Text, listing)?;
    if layout.reach.data_size == 0 {
        return Ok(());
    }
    listing.push_gap(words_of_gap(layout.reach.text_size))?;
    push_section(alloc, layout, Section::Data, listing)
}

/// The listing of a layout at a base.
fn listing_of(alloc: Global, layout: &Layout<'_>, base: u32) -> Result<Listing, AllocError>
    ensures { IfOk result (λ listing. listing
        ≡ listing_of_kept base layout.now.reach (kept_in layout.now.records.items)) }
{
    let mut listing = Listing::new(alloc, base);
    push_sections(alloc, layout, &mut listing)?;
    Ok(listing)
}

/// An image, and which line of its text each of its words comes from.
#[derive(Drop)]
pub struct ListedImage {
    pub image: Image,
    pub listing: Listing,
}

/// The image of a program with the lines of its words, or its first fault in the second pass.
fn listed_image(alloc: Global, program: &Program<'_, '_>) -> Result<ListedImage, AsmError>
    ensures clean { IfOk result (λ _. fault_in program.now ≡ None) }
    ensures base { IfOk result (λ listed. listed.image.base ≡ program.now.base) }
    ensures bytes { IfOk result (λ listed. Spells (cells_in program.now) listed.image.bytes) }
    ensures start { IfOk result (λ listed.
        listed.image.start ≡ start_address program.now.base (layout_of program.now.layout.now)) }
    ensures listing { IfOk result (λ listed. listed.listing ≡ listing_of_kept program.now.base
        program.now.layout.now.reach (kept_in program.now.layout.now.records.items)) }
    ensures refused { RefusedAt (fault_in program.now) result }
    ensures memory { IfErr result (λ error. error.fault ≡ AsmFault.Memory → error.line ≡ 0) }
{
    let image = image_of(alloc, program)?;
    match listing_of(alloc, program.layout, program.base) {
        Ok(listing) => Ok(ListedImage { image, listing }),
        Err(_) => Err(AsmError::at(AsmFault::Memory, 0)),
    }
}

/// The image of an assembly text as `assemble` gives it, with the lines of its words; or the text's first fault.
pub fn assemble_listed(alloc: Global, text: &[u8], base: u32) -> Result<ListedImage, AsmError>
    ensures clean { IfOk result (λ _. fault_of base (lines_of text.now) ≡ None) }
    ensures base { IfOk result (λ listed. listed.image.base ≡ base) }
    ensures bytes { IfOk result (λ listed. Spells (image_parts base (lines_of text.now)) listed.image.bytes) }
    ensures start { IfOk result (λ listed. listed.image.start ≡ start_address base (layout (lines_of text.now))) }
    ensures listing { IfOk result (λ listed. listed.listing ≡ listing_of base text.now) }
    ensures refused { RefusedAt (fault_of base (lines_of text.now)) result }
    ensures memory { IfErr result (λ error. error.fault ≡ AsmFault.Memory → error.line ≡ 0) }
{
    let layout = Layout::of_text(alloc, text)?;
    let program = Program {
        layout: &layout,
        base,
    };
    listed_image(alloc, &program)
}
