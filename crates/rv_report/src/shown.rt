ghost use Rattle.std.specs.Prelude.{◌≡◌, ◌++◌, codes};
ghost use Rattle.std.specs.List.{flat_map};
ghost use Rattle.rv_counts.specs.Places.{place_counts};
ghost use Rattle.rv_passage.specs.Names.{register_name};
ghost use Rattle.rv_report.specs.Shown.{cell_text, cells_text, count_cell, head_text, heads_text, is_places};
ghost use Rattle.rv_report.specs.Shown.{name_text, places_cells, places_head, shows_places, word_of, words_of};
ghost use Rattle.rv_report.specs.Memory.{memory_text};
ghost use Rattle.rv_text.specs.Line.{word_text};
ghost use Rattle.rv_text.specs.Said.{Says};

use crate::memory::{memory_text, word_at};
use rv_counts::RunPlaces;
use rv_isa::Reg;
use rv_passage::register_name;
use rv_text::Sink;
use rv_watch::ShownHardware;
use std::io::Write;

/// What a table shows of a run besides its counts.
#[derive(Clone, Copy)]
pub enum Shown {
    /// What a register holds at the end.
    Register(Reg),
    /// The word of memory at an address, at the end.
    Word(u32),
    /// What became of the places for dispatch, in fifteen columns.
    Places,
}

/// What stands in the further columns of a table, in their order.
#[derive(Clone, Copy)]
pub struct Columns<T> {
    /// In the first one.
    pub first: T,
    /// In the second.
    pub second: T,
    /// In the third.
    pub third: T,
    /// In the fourth.
    pub fourth: T,
}

/// How long each of the runs may be that a table compares, and what it shows of their ends.
#[derive(Clone, Copy)]
pub struct TableOptions {
    /// The most cycles.
    pub limit: u64,
    /// What is shown of an end in each further column.
    pub shown: Columns<Option<Shown>>,
}

// The word that is shown, or none where no word is or where it lies outside RAM.
fn word(hardware: &ShownHardware<'_>, shown: Option<Shown>) -> Option<u32>
    ensures { result ≡ word_of shown hardware.now }
{
    match shown? {
        Shown::Register(register) => Some(hardware.observe().regs[register.index()]),
        Shown::Word(address) => word_at(hardware, address),
        Shown::Places => None,
    }
}

fn is_places(shown: Option<Shown>) -> bool
    ensures { result ≡ is_places shown }
{
    matches!(shown, Some(Shown::Places))
}

/// Whether a column has what became of the places.
pub(crate) fn shows_places(shown: &Columns<Option<Shown>>) -> bool
    ensures { result ≡ shows_places shown.now }
{
    is_places(shown.first)
        || is_places(shown.second)
        || is_places(shown.third)
        || is_places(shown.fourth)
}

/// The words that are shown.
pub(crate) fn words(
    hardware: &ShownHardware<'_>,
    shown: &Columns<Option<Shown>>,
) -> Columns<Option<u32>>
    ensures { result ≡ words_of shown.now hardware.now }
{
    Columns {
        first: word(hardware, shown.first),
        second: word(hardware, shown.second),
        third: word(hardware, shown.third),
        fourth: word(hardware, shown.fourth),
    }
}

// A register's name, after a tab.
#[tactic(auto, using(rv_text::proofs::Saying::saying))]
fn write_register<W: Write>(out: &mut Sink<'_, W>, register: Reg)
    ensures { Says W.contents out.old out.new (codes "\t" ++ register_name register) }
{
    let name = register_name(register);
    out.put(b"\t");
    out.put(name);
}

// An address, after a tab.
#[tactic(auto, using(rv_text::proofs::Saying::saying))]
fn write_address<W: Write>(out: &mut Sink<'_, W>, address: u32)
    ensures { Says W.contents out.old out.new (codes "\t0x" ++ word_text address) }
{
    out.put(b"\t0x");
    out.put_word(address);
}

// What the columns of the places are called.
#[tactic(auto, unfolding(crate::specs::Shown::places_head))]
fn write_places_head<W: Write>(out: &mut Sink<'_, W>)
    ensures { Says W.contents out.old out.new places_head }
{
    out.put_all(&[
        b"\tplaces_retired\tplaces_trapped\tplaces_squashed_predictions\tplaces_squashed_serialising\tplaces_squashed_traps",
        b"\tplaces_squashed_interrupts\tplaces_in_flight\tplaces_lost_fetch\tplaces_lost_serial\tplaces_lost_rob",
        b"\tplaces_lost_alu\tplaces_lost_mul\tplaces_lost_div\tplaces_lost_mem\tplaces_lost_store",
    ]);
}

// What a column is called, after a tab.
fn write_name<W: Write>(out: &mut Sink<'_, W>, shown: Shown)
    ensures { Says W.contents out.old out.new (name_text shown) }
{
    match shown {
        Shown::Register(register) => write_register(out, register),
        Shown::Word(address) => write_address(out, address),
        Shown::Places => write_places_head(out),
    }
}

// The name of a column, if there is one.
#[tactic(auto, unfolding(crate::specs::Shown::head_text))]
fn write_head<W: Write>(out: &mut Sink<'_, W>, shown: Option<Shown>)
    ensures { Says W.contents out.old out.new (head_text shown) }
{
    match shown {
        Some(shown) => write_name(out, shown),
        None => {}
    }
}

/// The names of the columns.
#[tactic(auto, using(rv_text::proofs::Saying::saying), unfolding(crate::specs::Shown::heads_text))]
pub(crate) fn write_heads<W: Write>(out: &mut Sink<'_, W>, shown: &Columns<Option<Shown>>)
    ensures { Says W.contents out.old out.new (heads_text shown.now) }
{
    write_head(out, shown.first);
    write_head(out, shown.second);
    write_head(out, shown.third);
    write_head(out, shown.fourth);
}

// A word, after a tab.
fn write_word<W: Write>(out: &mut Sink<'_, W>, word: Option<u32>)
    ensures { Says W.contents out.old out.new (codes "\t" ++ memory_text word) }
{
    let text = memory_text(word);
    out.put_all(&[b"\t", text.as_slice()])
}

// A count, after a tab.
#[tactic(auto, using(rv_text::proofs::Saying::saying))]
fn write_count<W: Write>(out: &mut Sink<'_, W>, count: u64)
    ensures { Says W.contents out.old out.new (count_cell count) }
{
    out.put(b"\t");
    out.put_decimal(count);
}

#[tactic(auto, using(rv_text::proofs::Saying::saying))]
fn write_each<W: Write>(out: &mut Sink<'_, W>, counts: &[u64])
    ensures { Says W.contents out.old out.new (flat_map count_cell counts.now) }
{
    for count in counts {
        write_count(out, *count);
    }
}

// What became of the places of a run.
fn write_counts<W: Write>(out: &mut Sink<'_, W>, run: &RunPlaces)
    ensures { Says W.contents out.old out.new (flat_map count_cell (place_counts run.now.in_flight run.now.places)) }
{
    let counts = run.places.counts(run.in_flight as u64);
    write_each(out, &counts);
}

// The same, where it was counted.
#[tactic(auto, unfolding(crate::specs::Shown::places_cells))]
fn write_places<W: Write>(out: &mut Sink<'_, W>, places: &Option<RunPlaces>)
    ensures { Says W.contents out.old out.new (places_cells places.now) }
{
    match places {
        Some(run) => write_counts(out, run),
        None => {}
    }
}

// The word in a column, or what became of the places.
#[tactic(auto, unfolding(crate::specs::Shown::cell_text))]
fn write_cell<W: Write>(
    out: &mut Sink<'_, W>,
    places: &Option<RunPlaces>,
    shown: Option<Shown>,
    word: Option<u32>,
)
    ensures { Says W.contents out.old out.new (cell_text places.now shown word) }
{
    match shown {
        Some(Shown::Register(_) | Shown::Word(_)) => write_word(out, word),
        Some(Shown::Places) => write_places(out, places),
        None => {}
    }
}

/// What is in the columns.
#[tactic(auto, using(rv_text::proofs::Saying::saying), unfolding(crate::specs::Shown::cells_text))]
pub(crate) fn write_cells<W: Write>(
    out: &mut Sink<'_, W>,
    shown: &Columns<Option<Shown>>,
    words: &Columns<Option<u32>>,
    places: &Option<RunPlaces>,
)
    ensures { Says W.contents out.old out.new (cells_text shown.now words.now places.now) }
{
    write_cell(out, places, shown.first, words.first);
    write_cell(out, places, shown.second, words.second);
    write_cell(out, places, shown.third, words.third);
    write_cell(out, places, shown.fourth, words.fourth);
}
