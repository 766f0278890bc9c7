ghost use Rattle.std.specs.Prelude.{◌≡◌, ◌+◌, ◌≤◌, ◌<◌, ◌^◌, IfOk, Some, length, slice_set, sum};
ghost use Rattle.rv_sentences.specs.GreatestLines.{first_greatest, line_counts};
ghost use Rattle.rv_sentences.specs.WordCount.{count_in, with_one};
ghost use Rattle.rv_sentences.specs.WordNotes.{note_at, notes_of, with_note};

use crate::counted_line::Greatest;
use crate::lines::count_of_line;
use rv_isa::Description;
use rv_source::Listing;
use std::alloc::{AllocError, Global};
use std::marker::Model;

/// What is kept of each word of RAM.
#[derive(Drop)]
pub struct WordNotes<X> {
    // The number of the first word.
    first: u32,
    words: Vec<X>,
}

impl<X> Model for WordNotes<X> {
    ghost use Rattle.rv_sentences.specs.WordNotes.{Notes};

    ghost Value = { Notes X };

    ghost view = { λ notes. record { first = notes.first; words = notes.words.items } };

    ghost use Rattle.std.specs.Prelude.{◌+◌, ◌≤◌, ◌<◌, ◌^◌, length};

    ghost invariant = { λ notes. (notes.first + length notes.words.items ≤ 2 ^ 30) × (0 < length notes.words.items) };
}

impl<X: Copy + Drop> WordNotes<X> {
    /// The same of each word. The only error is out of memory.
    pub fn new(
        alloc: Global,
        description: &Description,
        note: X,
    ) -> Result<WordNotes<X>, AllocError>
        requires clones { (x y : X) → X.is_clone x y → y ≡ x }
        ensures { IfOk result (λ notes. notes ≡ notes_of description.now (λ _. note)) }
    {
        let values = description.values();
        let words = vec![in alloc; note; (values.ram_size / 4) as usize]?;
        Ok(WordNotes {
            first: values.ram_base / 4,
            words,
        })
    }

    /// What is kept of a word, if it lies in RAM.
    pub fn at(&self, word: u32) -> Option<X>
        ensures { result ≡ note_at self.now word }
    {
        let place = word.checked_sub(self.first)?;
        self.words.get(place as usize).copied()
    }

    /// The number of the first word.
    pub(crate) fn first(&self) -> u32
        ensures { result ≡ self.now.first }
    {
        self.first
    }

    /// What is kept of all words, of which there is one at least.
    pub(crate) fn words(&self) -> &[X]
        ensures words { result.now ≡ self.now.words }
        ensures some { 0 < length result.now }
        ensures reach { self.now.first + length result.now ≤ 2 ^ 30 }
    {
        self.words.as_slice()
    }

    /// Keeps something else of a word, if it lies in RAM.
    pub fn set(&mut self, word: u32, note: X)
        ensures { self.new ≡ with_note self.old word note }
    {
        let Some(place) = word.checked_sub(self.first) else {
            return;
        };
        if (place as usize) < self.words.len() {
            self.words[place as usize] = note;
        }
    }
}

// Counts one thing more at a word.
#[inline(never)]
fn count_at(counts: &mut WordNotes<u64>, word: u32)
    requires room { sum counts.old.words + 1 < 2 ^ 64 }
    ensures { counts.new ≡ with_one (Some word) counts.old }
{
    if let Some(count) = counts.at(word) {
        counts.set(word, count + 1);
    }
}

/// Counts one thing more at a word, if it is at one.
#[inline(always)]
pub fn count_one(counts: &mut WordNotes<u64>, word: Option<u32>)
    requires room { sum counts.old.words + 1 < 2 ^ 64 }
    ensures { counts.new ≡ with_one word counts.old }
{
    if let Some(word) = word {
        count_at(counts, word);
    }
}

/// How much is counted at a word, nothing outside RAM.
pub fn count_in(counts: &WordNotes<u64>, word: u32) -> u64
    ensures { result ≡ count_in counts.now word }
{
    match counts.at(word) {
        Some(count) => count,
        None => 0,
    }
}

/// How much is counted at the line whose first word that is, nothing at any other word and outside RAM.
pub fn count_in_line(counts: &WordNotes<u64>, listing: &Listing, word: u32) -> u64
    requires room { sum counts.now.words < 2 ^ 64 }
    ensures { result ≡ count_in (line_counts listing.now counts.now) word }
{
    let first = counts.first();
    if word < first {
        return 0;
    }
    let words = counts.words();
    let place = (word - first) as usize;
    if place >= words.len() {
        return 0;
    }
    count_of_line(words, first, listing, place)
}

/// The greatest of some counts, and its first place.
pub fn first_greatest(counts: &[u64]) -> Greatest
    ensures { result ≡ first_greatest counts.now }
{
    let mut greatest = Greatest { place: 0, count: 0 };
    let mut front = counts.len();
    while front > 0 {
        front -= 1;
        let count = counts[front];
        greatest = if count >= greatest.count {
            Greatest { place: 0, count }
        } else {
            Greatest {
                place: greatest.place + 1,
                count: greatest.count,
            }
        };
    }
    greatest
}

/// Takes the count from a place, if there is one.
pub fn clear(counts: &mut [u64], place: usize)
    ensures { counts.new ≡ slice_set counts.old place 0 }
{
    if place < counts.len() {
        counts[place] = 0;
    }
}
