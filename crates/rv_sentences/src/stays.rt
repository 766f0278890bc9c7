ghost use Rattle.std.specs.Prelude.{◌≡◌, ◌+◌, ◌-◌, ◌<◌, ◌^◌, length, sum};
ghost use Rattle.std.specs.Option.{option_or};
ghost use Rattle.rv_sentences.specs.Stay.{all_stays, awaited_word, oldest_awaited, stay_after};
ghost use Rattle.rv_sentences.specs.Stay.{stays_among, stays_from, with_reason, with_stay, with_stays};
ghost use Rattle.rv_sentences.specs.WordCount.{with_one};

use crate::stay::{Stay, awaited_word, stay_in};
use crate::word_notes::{WordNotes, count_one};
use rv_isa::{Kind, PerKind};
use rv_passage::Passage;

/// The cycles that instructions stayed in flight, by the reason: each instruction counts in each cycle once.
#[derive(Clone, Copy)]
pub struct Stays {
    /// In wait for operands.
    pub operands: u64,
    /// Of loads, in wait for the addresses of older stores.
    pub addresses: u64,
    /// In wait for a unit, by the kind.
    pub units: PerKind<u64>,
    /// Of loads, in wait for the port of the cache.
    pub port: u64,
    /// In execution, or in broadcast.
    pub execution: u64,
    /// Of results, in wait for the common data bus.
    pub bus: u64,
    /// In wait for retirement.
    pub retirement: u64,
}

impl Stays {
    /// Of no instruction.
    pub const NONE: Stays = Stays {
        operands: 0,
        addresses: 0,
        units: PerKind {
            alu: 0,
            mul: 0,
            div: 0,
            mem: 0,
        },
        port: 0,
        execution: 0,
        bus: 0,
        retirement: 0,
    };

    fn count(&mut self, stay: Stay)
        requires room { all_stays self.old + 1 < 2 ^ 64 }
        ensures { self.new ≡ with_reason stay self.old }
    {
        match stay {
            Stay::Operand(_) => self.operands += 1,
            Stay::Address => self.addresses += 1,
            Stay::Unit(Kind::Alu) => self.units.alu += 1,
            Stay::Unit(Kind::Mul) => self.units.mul += 1,
            Stay::Unit(Kind::Div) => self.units.div += 1,
            Stay::Unit(Kind::Mem) => self.units.mem += 1,
            Stay::Port => self.port += 1,
            Stay::Execution => self.execution += 1,
            Stay::Bus => self.bus += 1,
            Stay::Retirement => self.retirement += 1,
        }
    }

    fn add(&mut self, stay: Option<Stay>)
        requires room { all_stays self.old + 1 < 2 ^ 64 }
        ensures { self.new ≡ with_stay stay self.old }
    {
        if let Some(stay) = stay {
            self.count(stay);
        }
    }

    /// How many they are.
    pub fn all(&self) -> u64
        requires room { all_stays self.now < 2 ^ 64 }
        ensures { result ≡ all_stays self.now }
    {
        let units = self.units.alu + self.units.mul + self.units.div + self.units.mem;
        self.operands
            + self.addresses
            + units
            + self.port
            + self.execution
            + self.bus
            + self.retirement
    }
}

// Notes what is awaited, if something is, as the oldest wait, if none was before.
fn note_awaited(oldest: &mut Option<u32>, word: Option<u32>)
    ensures { oldest.new ≡ option_or oldest.old word }
{
    match word {
        Some(_) => {
            if oldest.is_none() {
                *oldest = word;
            }
        }
        None => {}
    }
}

// Adds why an instruction stays in flight in a cycle, if it does, after the older ones. What it awaits is the oldest
// wait, if none was before.
fn add_stay(
    stays: &mut Stays,
    oldest: &mut Option<u32>,
    cycle: u64,
    has_unit: bool,
    has_addresses: bool,
    older: &[Passage],
    row: &Passage,
)
    requires room { all_stays stays.old + 1 < 2 ^ 64 }
    ensures stays { stays.new ≡ with_stay (stay_after cycle has_unit has_addresses older.now row.now) stays.old }
    ensures oldest { oldest.new ≡
        option_or oldest.old (awaited_word (stay_after cycle has_unit has_addresses older.now row.now)) }
{
    let stay = stay_in(cycle, has_unit, has_addresses, older, row);
    stays.add(stay);
    note_awaited(oldest, awaited_word(stay));
}

// Adds why those from a place on stay, and notes the word that the oldest of all awaits that wait for an operand.
fn add_stays_from(
    stays: &mut Stays,
    oldest: &mut Option<u32>,
    cycle: u64,
    has_unit: bool,
    has_addresses: bool,
    rows: &[Passage],
    place: usize,
)
    requires room { all_stays stays.old + (length rows.now - place) < 2 ^ 64 }
    ensures stays { stays.new ≡ with_stays (stays_from cycle has_unit has_addresses place rows.now) stays.old }
    ensures oldest { oldest.new ≡
        option_or oldest.old (oldest_awaited (stays_from cycle has_unit has_addresses place rows.now)) }
{
    if place < rows.len() {
        add_stay(
            stays,
            oldest,
            cycle,
            has_unit,
            has_addresses,
            &rows[..place],
            &rows[place],
        );
        add_stays_from(
            stays,
            oldest,
            cycle,
            has_unit,
            has_addresses,
            rows,
            place + 1,
        );
    }
}

/// Adds why some instructions stay in flight in a cycle, in order of fetch, and counts the cycle at the word that the
/// oldest of them awaits that wait for an operand, if one does: whether a unit of loads and stores is free in the
/// cycle, and all stores before them have their addresses.
#[inline(never)]
pub fn add_stays(
    stays: &mut Stays,
    awaited: &mut WordNotes<u64>,
    cycle: u64,
    has_unit: bool,
    has_addresses: bool,
    rows: &[Passage],
)
    requires room { all_stays stays.old + length rows.now < 2 ^ 64 }
    requires words { sum awaited.old.words + 1 < 2 ^ 64 }
    ensures stays { stays.new ≡ with_stays (stays_among cycle has_unit has_addresses rows.now) stays.old }
    ensures awaited { awaited.new ≡ with_one
        (oldest_awaited (stays_among cycle has_unit has_addresses rows.now)) awaited.old }
{
    let mut oldest = None;
    add_stays_from(stays, &mut oldest, cycle, has_unit, has_addresses, rows, 0);
    count_one(awaited, oldest);
}
