ghost use Rattle.std.specs.Prelude.{◌≤◌, ◌<◌, ◌^◌, sum};
ghost use Rattle.std.specs.List.{flat_map};
ghost use Rattle.rv_sentences.specs.Longest.{branches_aside, counted_branches, longest_line, longest_text};
ghost use Rattle.rv_text.specs.Said.{Says};

use crate::counted_line::CountedLine;
use crate::greatest_lines::greatest_lines;
use crate::outcome_text::{write_loads_aside, write_stores_aside};
use crate::outcomes::Outcomes;
use crate::store_counts::StoreCounts;
use crate::word_notes::{WordNotes, count_in_line};
use rv_source::{Listing, write_place};
use rv_text::Sink;
use std::io::Write;

// Writes so many branches and jumps in brackets, and how many of them were mispredicted.
fn write_counted_branches<W: Write>(out: &mut Sink<'_, W>, retired: u64, mispredicted: u64)
    ensures { Says W.contents out.old out.new (counted_branches retired mispredicted) }
{
    out.put(b" (its branches and jumps: ");
    out.put_decimal(retired);
    out.put(b", of them ");
    out.put_decimal(mispredicted);
    out.put(b" mispredicted)");
}

// Writes that, if there are any.
#[tactic(auto, unfolding(crate::specs::Longest::branches_aside))]
fn write_branches_aside<W: Write>(out: &mut Sink<'_, W>, retired: u64, mispredicted: u64)
    ensures { Says W.contents out.old out.new (branches_aside retired mispredicted) }
{
    if retired == 0 {
        return;
    }
    write_counted_branches(out, retired, mispredicted);
}

fn write_line<W: Write>(
    out: &mut Sink<'_, W>,
    listing: &Listing,
    all: u64,
    outcomes: &WordNotes<Outcomes>,
    stores: &StoreCounts,
    branches: &WordNotes<u64>,
    mispredicted: &WordNotes<u64>,
    counted_line: &CountedLine,
)
    requires branches { sum branches.now.words < 2 ^ 64 }
    requires mispredicted { sum mispredicted.now.words < 2 ^ 64 }
    ensures { Says W.contents out.old out.new
        (longest_line listing.now all outcomes.now stores.now branches.now mispredicted.now counted_line.now) }
{
    let word = counted_line.address / 4;
    out.put(b"Longest at the head of the reorder buffer, or had flushed it, for ");
    out.put_decimal(counted_line.count);
    out.put(b" of ");
    out.put_decimal(all);
    out.put(b" cycles");
    write_loads_aside(out, outcomes.at(word));
    write_stores_aside(out, &stores.at(word));
    let retired = count_in_line(branches, listing, word);
    let wrong = count_in_line(mispredicted, listing, word);
    write_branches_aside(out, retired, wrong);
    out.put(b": ");
    write_place(out, listing, counted_line.address);
}

#[tactic(auto, using(rv_text::proofs::Saying::saying))]
fn write_each<W: Write>(
    out: &mut Sink<'_, W>,
    listing: &Listing,
    all: u64,
    outcomes: &WordNotes<Outcomes>,
    stores: &StoreCounts,
    branches: &WordNotes<u64>,
    mispredicted: &WordNotes<u64>,
    counted_lines: &[CountedLine],
)
    requires branches { sum branches.now.words < 2 ^ 64 }
    requires mispredicted { sum mispredicted.now.words < 2 ^ 64 }
    ensures { Says W.contents out.old out.new
        (flat_map (longest_line listing.now all outcomes.now stores.now branches.now mispredicted.now)
        counted_lines.now) }
{
    for counted_line in counted_lines {
        write_line(
            out,
            listing,
            all,
            outcomes,
            stores,
            branches,
            mispredicted,
            counted_line,
        );
    }
}

/// Writes the line that stood longest at the head of the reorder buffer, or had flushed the empty buffer, if one did, by
/// the cycles on account of each word, no more than there were; with its loads, its stores, and its branches and jumps.
#[tactic(auto, unfolding(crate::specs::Longest::longest_text))]
pub fn write_longest<W: Write>(
    out: &mut Sink<'_, W>,
    listing: &Listing,
    all: u64,
    heads: &WordNotes<u64>,
    outcomes: &WordNotes<Outcomes>,
    stores: &StoreCounts,
    branches: &WordNotes<u64>,
    mispredicted: &WordNotes<u64>,
)
    requires heads { sum heads.now.words ≤ all }
    requires branches { sum branches.now.words < 2 ^ 64 }
    requires mispredicted { sum mispredicted.now.words < 2 ^ 64 }
    ensures { Says W.contents out.old out.new
        (longest_text listing.now all heads.now outcomes.now stores.now branches.now mispredicted.now) }
{
    let counted_lines = greatest_lines(heads, listing, 1);
    write_each(
        out,
        listing,
        all,
        outcomes,
        stores,
        branches,
        mispredicted,
        counted_lines.as_slice(),
    );
}
