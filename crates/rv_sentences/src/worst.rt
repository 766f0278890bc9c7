ghost use Rattle.std.specs.Prelude.{◌<◌, ◌^◌, sum};
ghost use Rattle.std.specs.List.{flat_map};
ghost use Rattle.rv_sentences.specs.Worst.{worst_line, worst_lines, worst_text};
ghost use Rattle.rv_text.specs.Said.{Says};

use crate::counted_line::CountedLine;
use crate::greatest_lines::greatest_lines;
use crate::word_notes::{WordNotes, count_in_line};
use crate::work::write_part;
use rv_source::{Listing, write_place};
use rv_text::Sink;
use std::io::Write;

// Writes a line, how many branches and jumps of it retired, and how many of them were mispredicted.
fn write_line<W: Write>(
    out: &mut Sink<'_, W>,
    listing: &Listing,
    branches: &WordNotes<u64>,
    worst: &CountedLine,
)
    requires branches { sum branches.now.words < 2 ^ 64 }
    ensures { Says W.contents out.old out.new (worst_line listing.now branches.now worst.now) }
{
    write_place(out, listing, worst.address);
    write_part(
        out,
        b"       retired ",
        count_in_line(branches, listing, worst.address / 4),
        b" mispredicted",
        worst.count,
    );
}

#[tactic(auto, using(rv_text::proofs::Saying::saying))]
fn write_each<W: Write>(
    out: &mut Sink<'_, W>,
    listing: &Listing,
    branches: &WordNotes<u64>,
    worst: &[CountedLine],
)
    requires branches { sum branches.now.words < 2 ^ 64 }
    ensures { Says W.contents out.old out.new (flat_map (worst_line listing.now branches.now) worst.now) }
{
    for counted_line in worst {
        write_line(out, listing, branches, counted_line);
    }
}

// Writes some lines, if there are any.
#[tactic(auto, unfolding(crate::specs::Worst::worst_lines))]
fn write_lines<W: Write>(
    out: &mut Sink<'_, W>,
    listing: &Listing,
    branches: &WordNotes<u64>,
    worst: &[CountedLine],
)
    requires branches { sum branches.now.words < 2 ^ 64 }
    ensures { Says W.contents out.old out.new (worst_lines listing.now branches.now worst.now) }
{
    if worst.is_empty() {
        return;
    }
    out.put(b"The lines with the most wrong predictions:\n");
    write_each(out, listing, branches, worst);
}

/// Writes the three lines with the most wrong predictions, if there were any, by how often a branch or jump in each
/// word retired, and how often one was mispredicted.
#[tactic(auto, using(rv_text::proofs::Saying::saying), unfolding(crate::specs::Worst::worst_text))]
pub fn write_worst<W: Write>(
    out: &mut Sink<'_, W>,
    listing: &Listing,
    branches: &WordNotes<u64>,
    mispredicted: &WordNotes<u64>,
)
    requires branches { sum branches.now.words < 2 ^ 64 }
    requires mispredicted { sum mispredicted.now.words < 2 ^ 64 }
    ensures { Says W.contents out.old out.new (worst_text listing.now branches.now mispredicted.now) }
{
    let worst = greatest_lines(mispredicted, listing, 3);
    write_lines(out, listing, branches, worst.as_slice());
}
