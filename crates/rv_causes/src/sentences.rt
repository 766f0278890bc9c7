ghost use Rattle.std.specs.Prelude.{◌≡◌, take};
ghost use Rattle.std.specs.List.{flat_map};
ghost use Rattle.std.specs.Option.{option_copied};
ghost use Rattle.rv_causes.specs.Sentence.{cycles_of, most_cycles, most_of, most_text, sentence, sentences};
ghost use Rattle.rv_causes.specs.Text.{percent_text, ranked, tenths_of};
ghost use Rattle.rv_causes.specs.Window.{accounted};
ghost use Rattle.rv_text.specs.Said.{Says};

use crate::account::Account;
use crate::cause::Cause;
use crate::text::{Share, tenths_of, write_percent};
use crate::word_cycles::WordCycles;
use rv_source::{Listing, write_place};
use rv_text::Sink;
use std::io::Write;

// How many cycles of a word a cause has.
fn cycles_of(cause: Cause, word: &WordCycles) -> u64
    ensures { result ≡ cycles_of cause word.now }
{
    word.causes[cause.place()]
}

// Of no word it has none.
fn most_cycles(cause: Cause, most: Option<&WordCycles>) -> u64
    ensures { result ≡ most_cycles cause (option_copied most.entry) }
{
    match most {
        Some(word) => cycles_of(cause, word),
        None => 0,
    }
}

// The word of which a cause has the most cycles, and of equal ones the first.
fn most_of(cause: Cause, words: &[WordCycles]) -> Option<&WordCycles>
    ensures { option_copied result ≡ most_of cause words.now }
{
    let mut most = None;
    for word in words {
        if cycles_of(cause, word) > most_cycles(cause, most) {
            most = Some(word);
        }
    }
    most
}

// Writes the place of that word, if there is one.
#[tactic(auto, using(rv_text::proofs::Saying::saying), unfolding(crate::specs::Sentence::most_text))]
fn write_most<W: Write>(out: &mut Sink<'_, W>, listing: &Listing, most: Option<&WordCycles>)
    ensures { Says W.contents out.old out.new (most_text listing.now (option_copied most.entry)) }
{
    match most {
        Some(word) => {
            out.put(b", most at ");
            write_place(out, listing, word.address);
        }
        None => out.put(b"\n"),
    }
}

// Writes the sentence of a cause, of so many cycles of a path and its words, unless its share rounds to nothing.
#[tactic(auto, using(rv_text::proofs::Saying::saying), unfolding(crate::specs::Sentence::sentence))]
fn write_sentence<W: Write>(
    out: &mut Sink<'_, W>,
    listing: &Listing,
    cycles: u64,
    words: &[WordCycles],
    share: &Share,
)
    ensures { Says W.contents out.old out.new (sentence listing.now cycles words.now share.now) }
{
    if tenths_of(share.cycles, cycles) == 0 {
        return;
    }
    out.put(b"On the critical path, ");
    write_percent(out, share.cycles, cycles);
    out.put(b" % of the cycles: ");
    out.put(share.cause.name());
    write_most(out, listing, most_of(share.cause, words));
}

#[tactic(auto, using(rv_text::proofs::Saying::saying))]
fn write_all<W: Write>(
    out: &mut Sink<'_, W>,
    listing: &Listing,
    cycles: u64,
    words: &[WordCycles],
    shares: &[Share],
)
    ensures { Says W.contents out.old out.new (flat_map (sentence listing.now cycles words.now) shares.now) }
{
    for share in shares {
        write_sentence(out, listing, cycles, words, share);
    }
}

/// Writes the sentences of the three greatest causes of an account, of which these are the shares, the greatest first.
pub fn write_sentences<W: Write>(
    out: &mut Sink<'_, W>,
    listing: &Listing,
    account: &Account,
    shares: &[Share],
)
    requires greatest { shares.now ≡ take 3 (ranked account.now.causes) }
    ensures { Says W.contents out.old out.new (sentences listing.now (accounted account.now)) }
{
    let words = account.words.words.as_slice();
    write_all(out, listing, account.cycles, words, shares);
}
