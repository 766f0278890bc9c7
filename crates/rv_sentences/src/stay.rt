ghost use Rattle.std.specs.Prelude.{◌≡◌};
ghost use Rattle.rv_sentences.specs.Stay.{awaited, awaited_word, came_before, dispatched_stay};
ghost use Rattle.rv_sentences.specs.Stay.{first_awaited, have_addresses, lacks_address, load_stay};
ghost use Rattle.rv_sentences.specs.Stay.{open_stay, ready_stay, station_stay, stay_in};

use rv_isa::Kind;
use rv_passage::{Passage, Producer, Producers};

/// Why an instruction that was dispatched before a cycle stays in flight in it.
#[derive(Clone, Copy)]
pub enum Stay {
    /// It waits for an operand, the result of the instruction at this pc.
    Operand(u32),
    /// It is a load, and waits for the address of an older store.
    Address,
    /// It waits for a unit of its kind.
    Unit(Kind),
    /// It is a load, and waits for the port of the cache.
    Port,
    /// It is executed, or its result is broadcast.
    Execution,
    /// Its result waits for the common data bus.
    Bus,
    /// It is done, or uses no unit, and waits for its retirement.
    Retirement,
}

// Whether something came before a cycle.
fn came_before(cycle: u64, stamp: Option<u64>) -> bool
    ensures { result ≡ came_before cycle stamp }
{
    match stamp {
        Some(stamp) => stamp < cycle,
        None => false,
    }
}

// The pc of a producer whose result was not broadcast before a cycle.
fn awaited(cycle: u64, producer: Option<Producer>) -> Option<u32>
    ensures { result ≡ awaited cycle producer }
{
    match producer {
        Some(producer) => {
            if came_before(cycle, producer.broadcast) {
                None
            } else {
                Some(producer.pc)
            }
        }
        None => None,
    }
}

// The first of two.
fn first_awaited(cycle: u64, producers: &Producers) -> Option<u32>
    ensures { result ≡ first_awaited cycle producers.now }
{
    match awaited(cycle, producers.first) {
        Some(pc) => Some(pc),
        None => awaited(cycle, producers.second),
    }
}

// What a load with its operands waits for.
fn load_stay(has_unit: bool, has_addresses: bool) -> Stay
    ensures { result ≡ load_stay has_unit has_addresses }
{
    if !has_addresses {
        Stay::Address
    } else if has_unit {
        Stay::Port
    } else {
        Stay::Unit(Kind::Mem)
    }
}

// Whether it is a store in flight whose address was not broadcast before a cycle.
fn lacks_address(cycle: u64, passage: &Passage) -> bool
    ensures { result ≡ lacks_address cycle passage.now }
{
    passage.is_in_flight()
        && passage.instruction.is_store()
        && !came_before(cycle, passage.broadcast)
}

// Whether all stores among some older instructions have their addresses, and those before them.
#[inline(never)]
fn have_addresses(cycle: u64, before: bool, older: &[Passage]) -> bool
    ensures { result ≡ have_addresses cycle before older.now }
{
    match older {
        [] => before,
        [passage, rest @ ..] => {
            !lacks_address(cycle, passage) && have_addresses(cycle, before, rest)
        }
    }
}

// What an instruction of a kind with its operands waits for. Loads alone look at the older stores.
fn ready_stay(
    cycle: u64,
    has_unit: bool,
    has_addresses: bool,
    older: &[Passage],
    kind: Kind,
    passage: &Passage,
) -> Stay
    ensures { result ≡ ready_stay has_unit (have_addresses cycle has_addresses older.now) kind passage.now }
{
    if passage.instruction.is_load() {
        load_stay(has_unit, have_addresses(cycle, has_addresses, older))
    } else {
        Stay::Unit(kind)
    }
}

// What one waits for that was not issued.
fn station_stay(
    cycle: u64,
    has_unit: bool,
    has_addresses: bool,
    older: &[Passage],
    kind: Option<Kind>,
    passage: &Passage,
) -> Stay
    ensures { result ≡ station_stay cycle has_unit (have_addresses cycle has_addresses older.now) kind passage.now }
{
    match kind {
        Some(kind) => match first_awaited(cycle, &passage.producers) {
            Some(pc) => Stay::Operand(pc),
            None => ready_stay(cycle, has_unit, has_addresses, older, kind, passage),
        },
        None => Stay::Retirement,
    }
}

// Why one stays that was dispatched, and whose result was not broadcast before. What was not issued has no result that
// could wait for the bus.
#[inline(always)]
fn open_stay(
    cycle: u64,
    has_unit: bool,
    has_addresses: bool,
    older: &[Passage],
    passage: &Passage,
) -> Stay
    ensures { result ≡ open_stay cycle has_unit (have_addresses cycle has_addresses older.now) passage.now }
{
    if passage.issue.is_none() {
        let kind = passage.instruction.kind();
        station_stay(cycle, has_unit, has_addresses, older, kind, passage)
    } else if passage.waits_for_bus(cycle) {
        Stay::Bus
    } else {
        Stay::Execution
    }
}

// Why one stays that was dispatched.
fn dispatched_stay(
    cycle: u64,
    has_unit: bool,
    has_addresses: bool,
    older: &[Passage],
    passage: &Passage,
) -> Stay
    ensures { result ≡ dispatched_stay cycle has_unit (have_addresses cycle has_addresses older.now) passage.now }
{
    match passage.broadcast {
        Some(broadcast) if broadcast < cycle => Stay::Retirement,
        Some(_) => open_stay(cycle, has_unit, has_addresses, older, passage),
        None => open_stay(cycle, has_unit, has_addresses, older, passage),
    }
}

/// Why an instruction stays in flight in a cycle, by what became of it by its end: whether a unit of loads and stores
/// is free in it, and all stores before the older ones have their addresses. `None` where it was not dispatched before,
/// or left.
pub(crate) fn stay_in(
    cycle: u64,
    has_unit: bool,
    has_addresses: bool,
    older: &[Passage],
    passage: &Passage,
) -> Option<Stay>
    ensures { result ≡ stay_in cycle has_unit (have_addresses cycle has_addresses older.now) passage.now }
{
    if passage.is_in_flight() && came_before(cycle, passage.dispatched) {
        Some(dispatched_stay(cycle, has_unit, has_addresses, older, passage))
    } else {
        None
    }
}

/// The word of the instruction whose result is awaited, if one is.
pub(crate) fn awaited_word(stay: Option<Stay>) -> Option<u32>
    ensures { result ≡ awaited_word stay }
{
    match stay {
        Some(Stay::Operand(pc)) => Some(pc / 4),
        _ => None,
    }
}
