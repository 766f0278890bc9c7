ghost use Rattle.std.specs.Prelude.{◌≡◌, ◌≤◌, ◌<◌, ◌^◌, [], get_or, sum};
ghost use Rattle.std.specs.List.{flat_map};
ghost use Rattle.rv_sentences.specs.Stay.{all_stays};
ghost use Rattle.rv_sentences.specs.StayLines.{awaited_line, awaited_text, greatest_waits_text, parts_text};
ghost use Rattle.rv_sentences.specs.StayLines.{second_wait_text, some_parts_text, stays_text, two_waits_text};
ghost use Rattle.rv_sentences.specs.StayLines.{wait_counts, wait_names, wait_text, waits_text};
ghost use Rattle.rv_text.specs.Said.{Says};

use crate::counted_line::{CountedLine, Greatest};
use crate::greatest_lines::greatest_lines;
use crate::outcome_text::write_loads_aside;
use crate::outcomes::Outcomes;
use crate::stack::{Share, name_at, parts_of, write_share_of, write_shares};
use crate::stays::Stays;
use crate::word_notes::{WordNotes, clear, first_greatest};
use rv_source::{Listing, write_place};
use rv_text::Sink;
use std::io::Write;

// What instructions in flight wait for.
static NAMES: [&[u8]; 9] = [
    b" waiting for operands",
    b" waiting for an older store's address",
    b" waiting for an alu unit",
    b" waiting for a mul unit",
    b" waiting for a div unit",
    b" waiting for a mem unit",
    b" waiting for the port",
    b" waiting for the bus",
    b" waiting for retirement",
];

fn wait_name(place: usize) -> &'static [u8]
    ensures { result.now ≡ get_or wait_names place [] }
{
    name_at(&NAMES, place)
}

// For how many cycles they waited for each.
fn wait_counts(stays: &Stays) -> [u64; 9]
    ensures { result ≡ wait_counts stays.now }
{
    [
        stays.operands,
        stays.addresses,
        stays.units.alu,
        stays.units.mul,
        stays.units.div,
        stays.units.mem,
        stays.port,
        stays.bus,
        stays.retirement,
    ]
}

// Writes a wait, for how many cycles, and what part of all that is.
fn write_wait<W: Write>(out: &mut Sink<'_, W>, all: u64, wait: &Greatest)
    ensures { Says W.contents out.old out.new (wait_text all wait.now) }
{
    out.put_decimal(wait.count);
    out.put(wait_name(wait.place));
    write_share_of(out, parts_of(1000, wait.count, all));
}

#[tactic(auto, using(rv_text::proofs::Saying::saying), unfolding(crate::specs::StayLines::second_wait_text))]
fn write_second_wait<W: Write>(out: &mut Sink<'_, W>, all: u64, second: &Greatest)
    ensures { Says W.contents out.old out.new (second_wait_text all second.now) }
{
    if second.count == 0 {
        out.put(b"\n");
        return;
    }
    out.put(b", ");
    write_wait(out, all, second);
    out.put(b"\n");
}

// Writes two waits.
fn write_waits<W: Write>(out: &mut Sink<'_, W>, all: u64, first: &Greatest, second: &Greatest)
    ensures { Says W.contents out.old out.new (waits_text all first.now second.now) }
{
    out.put(b"cycles of instructions in flight: ");
    out.put_decimal(all);
    out.put(b", of them ");
    write_wait(out, all, first);
    write_second_wait(out, all, second);
}

// The same, if there was one.
#[tactic(auto, unfolding(crate::specs::StayLines::two_waits_text))]
fn write_two_waits<W: Write>(out: &mut Sink<'_, W>, all: u64, first: &Greatest, second: &Greatest)
    ensures { Says W.contents out.old out.new (two_waits_text all first.now second.now) }
{
    if first.count == 0 {
        return;
    }
    write_waits(out, all, first, second);
}

/// Writes what instructions in flight waited for most, and what next, if they waited.
pub fn write_greatest_waits<W: Write>(out: &mut Sink<'_, W>, stays: &Stays)
    requires room { all_stays stays.now < 2 ^ 64 }
    ensures { Says W.contents out.old out.new (greatest_waits_text stays.now) }
{
    let mut counts = wait_counts(stays);
    let first = first_greatest(&counts);
    clear(&mut counts, first.place);
    let second = first_greatest(&counts);
    write_two_waits(out, stays.all(), &first, &second);
}

// Writes why the instructions in flight stayed there, in so many cycles.
fn write_all_parts<W: Write>(out: &mut Sink<'_, W>, all: u64, stays: &Stays)
    ensures { Says W.contents out.old out.new (parts_text all stays.now) }
{
    out.put(b"Where the ");
    out.put_decimal(all);
    out.put(b" cycles of instructions in flight went:\n");
    write_shares(
        out,
        &[
            Share {
                name: "waiting for operands         ",
                count: stays.operands,
            },
            Share {
                name: "waiting for a store's address",
                count: stays.addresses,
            },
            Share {
                name: "waiting for an alu unit      ",
                count: stays.units.alu,
            },
            Share {
                name: "waiting for a mul unit       ",
                count: stays.units.mul,
            },
            Share {
                name: "waiting for a div unit       ",
                count: stays.units.div,
            },
            Share {
                name: "waiting for a mem unit       ",
                count: stays.units.mem,
            },
            Share {
                name: "waiting for the port         ",
                count: stays.port,
            },
            Share {
                name: "in execution                 ",
                count: stays.execution,
            },
            Share {
                name: "waiting for the bus          ",
                count: stays.bus,
            },
            Share {
                name: "waiting for retirement       ",
                count: stays.retirement,
            },
        ],
        all,
    );
}

// Writes that, if there are any cycles.
#[tactic(auto, unfolding(crate::specs::StayLines::some_parts_text))]
fn write_some_parts<W: Write>(out: &mut Sink<'_, W>, all: u64, stays: &Stays)
    ensures { Says W.contents out.old out.new (some_parts_text all stays.now) }
{
    if all == 0 {
        return;
    }
    write_all_parts(out, all, stays);
}

/// Writes why the instructions in flight stayed there, in all their cycles.
pub fn write_stays<W: Write>(out: &mut Sink<'_, W>, stays: &Stays)
    requires room { all_stays stays.now < 2 ^ 64 }
    ensures { Says W.contents out.old out.new (stays_text stays.now) }
{
    write_some_parts(out, stays.all(), stays);
}

fn write_awaited_line<W: Write>(
    out: &mut Sink<'_, W>,
    listing: &Listing,
    all: u64,
    outcomes: &WordNotes<Outcomes>,
    counted_line: &CountedLine,
)
    ensures { Says W.contents out.old out.new (awaited_line listing.now all outcomes.now counted_line.now) }
{
    out.put(b"Awaited most, for ");
    out.put_decimal(counted_line.count);
    out.put(b" of ");
    out.put_decimal(all);
    out.put(b" cycles");
    write_loads_aside(out, outcomes.at(counted_line.address / 4));
    out.put(b": ");
    write_place(out, listing, counted_line.address);
}

#[tactic(auto, using(rv_text::proofs::Saying::saying))]
fn write_each<W: Write>(
    out: &mut Sink<'_, W>,
    listing: &Listing,
    all: u64,
    outcomes: &WordNotes<Outcomes>,
    counted_lines: &[CountedLine],
)
    ensures { Says W.contents out.old out.new (flat_map (awaited_line listing.now all outcomes.now) counted_lines.now) }
{
    for counted_line in counted_lines {
        write_awaited_line(out, listing, all, outcomes, counted_line);
    }
}

/// Writes the line of the program whose result was awaited most, if any was, with its loads, by how often each word was
/// the one that the oldest instruction in wait for an operand awaited: once at most in each of so many cycles.
#[tactic(auto, unfolding(crate::specs::StayLines::awaited_text))]
pub fn write_awaited<W: Write>(
    out: &mut Sink<'_, W>,
    listing: &Listing,
    all: u64,
    outcomes: &WordNotes<Outcomes>,
    awaited: &WordNotes<u64>,
)
    requires awaited { sum awaited.now.words ≤ all }
    ensures { Says W.contents out.old out.new (awaited_text listing.now all outcomes.now awaited.now) }
{
    let counted_lines = greatest_lines(awaited, listing, 1);
    write_each(out, listing, all, outcomes, counted_lines.as_slice());
}
