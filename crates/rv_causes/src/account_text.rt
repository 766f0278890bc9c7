ghost use Rattle.std.specs.Prelude.{◌≡◌, ◌≤◌, [], vec_capacity, IfOk};
ghost use Rattle.rv_causes.specs.Lines.{account_text, lines_text, most_words};
ghost use Rattle.rv_causes.specs.Ranks.{AreEmpty};
ghost use Rattle.rv_causes.specs.Text.{path_text};
ghost use Rattle.rv_causes.specs.Window.{accounted};
ghost use Rattle.rv_text.specs.Said.{Says};
ghost use Rattle.rv_text.specs.Written.{IsWritten};

use crate::account::Account;
use crate::lines::{rank_words, write_lines};
use crate::text::{Share, write_causes};
use crate::word_cycles::WordCycles;
use rv_source::Listing;
use rv_text::{ReportError, Sink};
use std::alloc::{AllocError, Global};
use std::io::Write;

/// The most causes that have a line by their rank.
const MOST_RANKED: usize = 33;

/// The most words that have lines, and one more.
const MOST_WORDS: usize = 11;

/// Room for what a text ranks.
#[derive(Drop)]
pub struct Ranks {
    shares: Vec<Share>,
    words: Vec<WordCycles>,
}

impl Ranks {
    /// Room with nothing in it. The only error is out of memory.
    pub fn new(alloc: Global) -> Result<Ranks, AllocError>
        ensures { IfOk result AreEmpty }
    {
        Ok(Ranks {
            shares: Vec::with_capacity(alloc, MOST_RANKED)?,
            words: Vec::with_capacity(alloc, MOST_WORDS)?,
        })
    }
}

// Writes the lines of the program with the most of so many cycles.
fn write_most<W: Write>(
    out: &mut Sink<'_, W>,
    listing: &Listing,
    cycles: u64,
    all: &[WordCycles],
    ranks: &mut Ranks,
)
    requires empty { ranks.old.words.items ≡ [] }
    requires shares { 33 ≤ vec_capacity ranks.old.shares }
    requires words { 11 ≤ vec_capacity ranks.old.words }
    ensures { Says W.contents out.old out.new (lines_text listing.now cycles (most_words all.now)) }
{
    rank_words(all, &mut ranks.words);
    write_lines(
        out,
        listing,
        cycles,
        ranks.words.as_slice(),
        &mut ranks.shares,
    );
}

// Writes an account.
#[tactic(auto, using(rv_text::proofs::Saying::saying))]
fn write_both<W: Write>(
    out: &mut Sink<'_, W>,
    listing: &Listing,
    cycles: u64,
    account: &Account,
    ranks: &mut Ranks,
)
    requires empty { AreEmpty ranks.old }
    ensures { Says W.contents out.old out.new (account_text listing.now cycles (accounted account.now)) }
{
    write_causes(out, cycles, &account.causes, &mut ranks.shares);
    write_most(out, listing, cycles, account.words.words.as_slice(), ranks);
}

/// Writes the account of a path of so many cycles, with room for what it ranks. Fails by `WriteFailed` alone, and what
/// was written is then a beginning of the text.
#[tactic(auto, using(rv_text::proofs::Saying::says_written))]
pub fn write_account<W: Write>(
    writer: &mut W,
    listing: &Listing,
    cycles: u64,
    account: &Account,
    ranks: &mut Ranks,
) -> Result<(), ReportError>
    requires empty { AreEmpty ranks.old }
    ensures { IsWritten result (W.contents writer.old) (W.contents writer.new)
        (account_text listing.now cycles (accounted account.now)) }
{
    let mut out = Sink::new(writer);
    write_both(&mut out, listing, cycles, account, ranks);
    out.outcome()
}
