ghost use Rattle.std.specs.Prelude.{◌≤◌, sum};
ghost use Rattle.std.specs.List.{flat_map};
ghost use Rattle.rv_sentences.specs.Hotspot.{empty_text, hotspot_text, hotspots_text, idle_text};
ghost use Rattle.rv_sentences.specs.Hotspot.{loads_there, outcomes_line, stores_there};
ghost use Rattle.rv_text.specs.Said.{Says};

use crate::counted_line::CountedLine;
use crate::greatest_lines::greatest_lines;
use crate::outcome_text::{has_any, write_outcomes};
use crate::outcomes::Outcomes;
use crate::stack::write_share;
use crate::store_counts::StoreCounts;
use crate::word_notes::WordNotes;
use rv_source::{Listing, write_place};
use rv_text::Sink;
use std::io::Write;

#[tactic(auto, using(rv_text::proofs::Saying::saying), unfolding(crate::specs::Hotspot::outcomes_line))]
fn write_outcomes_line<W: Write>(out: &mut Sink<'_, W>, name: &[u8], outcomes: &Outcomes)
    ensures { Says W.contents out.old out.new (outcomes_line name.now outcomes.now) }
{
    if has_any(outcomes) {
        write_outcomes(out, name, outcomes);
        out.put(b"\n");
    }
}

// Writes the loads in a word, by what they cost.
#[tactic(auto, unfolding(crate::specs::Hotspot::loads_there))]
fn write_loads_there<W: Write>(out: &mut Sink<'_, W>, outcomes: Option<Outcomes>)
    ensures { Says W.contents out.old out.new (loads_there outcomes) }
{
    if let Some(outcomes) = outcomes {
        write_outcomes_line(out, b"       its loads", &outcomes);
    }
}

// Writes the drains of the stores in a word, by what they cost.
#[tactic(auto, unfolding(crate::specs::Hotspot::stores_there))]
fn write_stores_there<W: Write>(out: &mut Sink<'_, W>, outcomes: &Outcomes)
    ensures { Says W.contents out.old out.new (stores_there outcomes.now) }
{
    write_outcomes_line(out, b"       its stores", outcomes);
}

#[tactic(auto, using(rv_text::proofs::Saying::saying), unfolding(crate::specs::Hotspot::hotspot_text))]
fn write_hotspot<W: Write>(
    out: &mut Sink<'_, W>,
    listing: &Listing,
    all: u64,
    outcomes: &WordNotes<Outcomes>,
    stores: &StoreCounts,
    hotspot: &CountedLine,
)
    ensures { Says W.contents out.old out.new (hotspot_text listing.now all outcomes.now stores.now hotspot.now) }
{
    write_place(out, listing, hotspot.address);
    write_share(out, "       ", hotspot.count, all);
    write_loads_there(out, outcomes.at(hotspot.address / 4));
    write_stores_there(out, &stores.at(hotspot.address / 4));
}

#[tactic(auto, using(rv_text::proofs::Saying::saying))]
fn write_each<W: Write>(
    out: &mut Sink<'_, W>,
    listing: &Listing,
    all: u64,
    outcomes: &WordNotes<Outcomes>,
    stores: &StoreCounts,
    hotspots: &[CountedLine],
)
    ensures { Says W.contents out.old out.new
        (flat_map (hotspot_text listing.now all outcomes.now stores.now) hotspots.now) }
{
    for hotspot in hotspots {
        write_hotspot(out, listing, all, outcomes, stores, hotspot);
    }
}

// Writes the cycles on account of no line.
fn write_empty<W: Write>(out: &mut Sink<'_, W>, all: u64, idle: u64)
    ensures { Says W.contents out.old out.new (empty_text all idle) }
{
    out.put(b"none: the reorder buffer was empty\n");
    write_share(out, "       ", idle, all);
}

#[tactic(auto, unfolding(crate::specs::Hotspot::idle_text))]
fn write_idle<W: Write>(out: &mut Sink<'_, W>, all: u64, idle: u64)
    ensures { Says W.contents out.old out.new (idle_text all idle) }
{
    if idle == 0 {
        return;
    }
    write_empty(out, all, idle);
}

/// Writes the five lines that stood longest at the head, or had flushed the empty buffer, by the cycles on account of
/// each word, each with its loads and stores; and how many cycles were idle, on account of none. The cycles of all
/// words are no more than there were.
pub fn write_hotspots<W: Write>(
    out: &mut Sink<'_, W>,
    listing: &Listing,
    all: u64,
    idle: u64,
    outcomes: &WordNotes<Outcomes>,
    stores: &StoreCounts,
    heads: &WordNotes<u64>,
)
    requires heads { sum heads.now.words ≤ all }
    ensures { Says W.contents out.old out.new (hotspots_text listing.now all idle heads.now outcomes.now stores.now) }
{
    out.put(
        b"The lines that stood longest at the head of the reorder buffer, or had flushed it, in cycles:\n",
    );
    let hotspots = greatest_lines(heads, listing, 5);
    write_each(out, listing, all, outcomes, stores, hotspots.as_slice());
    write_idle(out, all, idle);
}
