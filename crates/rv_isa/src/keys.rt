ghost use Rattle.std.specs.Prelude.{◌≡◌, []};
ghost use Rattle.std.specs.List.{slice_get};
ghost use Rattle.std.specs.Option.{option_map_or};
ghost use Rattle.rv_isa.specs.Key.{joined, kind_row, order, key_place, row_of, shown, shown_row, text_at, text_of};

use crate::bounds::Bounds::{self, Front, Pages, Powers, Whole, Words};
use crate::operations::Kind;
use crate::per_kind::PerKind;

/// The numbers of a kind's units and stations.
#[derive(Clone, Copy)]
pub enum KindKey {
    Stations,
    Units,
    Latency,
}

/// The keys of a description that hold a number.
#[derive(Clone, Copy)]
pub enum NumberKey {
    RamBase,
    RamSize,
    RomBytes,
    FetchWidth,
    DispatchWidth,
    CommitWidth,
    BusWidth,
    FetchBuffer,
    Rob,
    StoreQueue,
    Forward,
    OfKind(Kind, KindKey),
    CacheSets,
    CacheWays,
    CacheLine,
    CacheHit,
    CacheMiss,
    CacheWriteBack,
    PredictorEntries,
    ReportDumpAddress,
    ReportDumpWords,
}

/// The keys of a description.
#[derive(Clone, Copy)]
pub enum Key {
    Number(NumberKey),
    Recovery,
    Pipelined(Kind),
    PredictorKind,
}

/// Where a key stands in a description.
#[derive(Clone, Copy)]
pub struct Place {
    /// The table that holds the key, or `None` at top level.
    pub table: Option<&'static str>,
    /// The key's name there.
    pub name: &'static str,
    /// The key as a text writes it, with its table.
    pub text: &'static str,
}

/// The row of a key that holds a number.
#[derive(Clone, Copy)]
pub struct NumberRow {
    pub place: Place,
    pub bounds: Bounds,
}

// A key at top level.
macro_rules! top {
    ($name:literal) => {
        Place {
            table: None,
            name: $name,
            text: $name,
        }
    };
}

// A key of a table.
macro_rules! inside {
    ($table:literal, $name:literal) => {
        Place {
            table: Some($table),
            name: $name,
            text: concat!($table, ".", $name),
        }
    };
}

macro_rules! row {
    ($place:expr, $bounds:expr) => {
        NumberRow {
            place: $place,
            bounds: $bounds,
        }
    };
}

// The rows of the keys with this name in the tables of the kinds.
macro_rules! rows_of_kinds {
    ($name:literal, $bounds:expr) => {
        PerKind {
            alu: row!(inside!("alu", $name), $bounds),
            mul: row!(inside!("mul", $name), $bounds),
            div: row!(inside!("div", $name), $bounds),
            mem: row!(inside!("mem", $name), $bounds),
        }
    };
}

static RAM_BASE: NumberRow = row!(top!("ram_base"), Pages(0, 0xff00_0000));

static RAM_SIZE: NumberRow = row!(top!("ram_size"), Pages(4096, 16_777_216));

static ROM_BYTES: NumberRow = row!(top!("rom_bytes"), Front);

static FETCH_WIDTH: NumberRow = row!(top!("fetch_width"), Whole(1, 8));

static DISPATCH_WIDTH: NumberRow = row!(top!("dispatch_width"), Whole(1, 8));

static COMMIT_WIDTH: NumberRow = row!(top!("commit_width"), Whole(1, 8));

static BUS_WIDTH: NumberRow = row!(top!("bus_width"), Whole(1, 8));

static FETCH_BUFFER: NumberRow = row!(top!("fetch_buffer"), Whole(1, 32));

static ROB: NumberRow = row!(top!("rob"), Whole(1, 256));

static STORE_QUEUE: NumberRow = row!(top!("store_queue"), Whole(1, 64));

static FORWARD: NumberRow = row!(top!("forward"), Whole(1, 64));

static STATIONS: PerKind<NumberRow> = rows_of_kinds!("stations", Whole(1, 64));

static UNITS: PerKind<NumberRow> = rows_of_kinds!("units", Whole(1, 8));

static LATENCY: PerKind<NumberRow> = rows_of_kinds!("latency", Whole(1, 64));

static CACHE_SETS: NumberRow = row!(inside!("cache", "sets"), Powers(1, 256));

static CACHE_WAYS: NumberRow = row!(inside!("cache", "ways"), Whole(1, 16));

static CACHE_LINE: NumberRow = row!(inside!("cache", "line"), Powers(4, 128));

static CACHE_HIT: NumberRow = row!(inside!("cache", "hit"), Whole(1, 16));

static CACHE_MISS: NumberRow = row!(inside!("cache", "miss"), Whole(0, 1000));

static CACHE_WRITE_BACK: NumberRow = row!(inside!("cache", "write_back"), Whole(0, 1000));

static PREDICTOR_ENTRIES: NumberRow = row!(inside!("predictor", "entries"), Whole(1, 4096));

static REPORT_DUMP_ADDRESS: NumberRow = row!(inside!("report", "dump_address"), Words);

static REPORT_DUMP_WORDS: NumberRow = row!(inside!("report", "dump_words"), Whole(0, 256));

static PIPELINED: PerKind<Place> = PerKind {
    alu: inside!("alu", "pipelined"),
    mul: inside!("mul", "pipelined"),
    div: inside!("div", "pipelined"),
    mem: inside!("mem", "pipelined"),
};

static RECOVERY: Place = top!("recovery");

static PREDICTOR_KIND: Place = inside!("predictor", "kind");

fn kind_row(kind: Kind, key: KindKey) -> &'static NumberRow
    ensures row { shown_row result.now ≡ kind_row kind key }
    ensures text { result.now.place.text.now ≡ joined (kind_row kind key).place.table (kind_row kind key).place.name }
{
    match key {
        KindKey::Stations => STATIONS.get(kind),
        KindKey::Units => UNITS.get(kind),
        KindKey::Latency => LATENCY.get(kind),
    }
}

fn number_row(key: NumberKey) -> &'static NumberRow
    ensures row { shown_row result.now ≡ row_of key }
    ensures text { result.now.place.text.now ≡ text_of (Key.Number key) }
{
    match key {
        NumberKey::RamBase => &RAM_BASE,
        NumberKey::RamSize => &RAM_SIZE,
        NumberKey::RomBytes => &ROM_BYTES,
        NumberKey::FetchWidth => &FETCH_WIDTH,
        NumberKey::DispatchWidth => &DISPATCH_WIDTH,
        NumberKey::CommitWidth => &COMMIT_WIDTH,
        NumberKey::BusWidth => &BUS_WIDTH,
        NumberKey::FetchBuffer => &FETCH_BUFFER,
        NumberKey::Rob => &ROB,
        NumberKey::StoreQueue => &STORE_QUEUE,
        NumberKey::Forward => &FORWARD,
        NumberKey::OfKind(kind, key) => kind_row(kind, key),
        NumberKey::CacheSets => &CACHE_SETS,
        NumberKey::CacheWays => &CACHE_WAYS,
        NumberKey::CacheLine => &CACHE_LINE,
        NumberKey::CacheHit => &CACHE_HIT,
        NumberKey::CacheMiss => &CACHE_MISS,
        NumberKey::CacheWriteBack => &CACHE_WRITE_BACK,
        NumberKey::PredictorEntries => &PREDICTOR_ENTRIES,
        NumberKey::ReportDumpAddress => &REPORT_DUMP_ADDRESS,
        NumberKey::ReportDumpWords => &REPORT_DUMP_WORDS,
    }
}

impl NumberKey {
    /// The key's row in the table of keys.
    pub fn row(self) -> NumberRow
        ensures row { shown_row result ≡ row_of self }
        ensures text { result.place.text.now ≡ text_of (Key.Number self) }
    {
        *number_row(self)
    }

    /// The numbers that the key takes.
    pub fn bounds(self) -> Bounds
        ensures { result ≡ (row_of self).bounds }
    {
        number_row(self).bounds
    }
}

impl Key {
    /// Where the key stands in a description.
    pub fn place(self) -> Place
        ensures place { shown result ≡ key_place self }
        ensures text { result.text.now ≡ text_of self }
    {
        match self {
            Key::Number(key) => key.row().place,
            Key::Recovery => RECOVERY,
            Key::Pipelined(kind) => *PIPELINED.get(kind),
            Key::PredictorKind => PREDICTOR_KIND,
        }
    }
}

static ORDER: [Key; 38] = [
    Key::Number(NumberKey::RamBase),
    Key::Number(NumberKey::RamSize),
    Key::Number(NumberKey::RomBytes),
    Key::Number(NumberKey::FetchWidth),
    Key::Number(NumberKey::DispatchWidth),
    Key::Number(NumberKey::CommitWidth),
    Key::Number(NumberKey::BusWidth),
    Key::Number(NumberKey::FetchBuffer),
    Key::Number(NumberKey::Rob),
    Key::Number(NumberKey::StoreQueue),
    Key::Number(NumberKey::Forward),
    Key::Recovery,
    Key::Number(NumberKey::OfKind(Kind::Alu, KindKey::Stations)),
    Key::Number(NumberKey::OfKind(Kind::Alu, KindKey::Units)),
    Key::Number(NumberKey::OfKind(Kind::Alu, KindKey::Latency)),
    Key::Pipelined(Kind::Alu),
    Key::Number(NumberKey::OfKind(Kind::Mul, KindKey::Stations)),
    Key::Number(NumberKey::OfKind(Kind::Mul, KindKey::Units)),
    Key::Number(NumberKey::OfKind(Kind::Mul, KindKey::Latency)),
    Key::Pipelined(Kind::Mul),
    Key::Number(NumberKey::OfKind(Kind::Div, KindKey::Stations)),
    Key::Number(NumberKey::OfKind(Kind::Div, KindKey::Units)),
    Key::Number(NumberKey::OfKind(Kind::Div, KindKey::Latency)),
    Key::Pipelined(Kind::Div),
    Key::Number(NumberKey::OfKind(Kind::Mem, KindKey::Stations)),
    Key::Number(NumberKey::OfKind(Kind::Mem, KindKey::Units)),
    Key::Number(NumberKey::OfKind(Kind::Mem, KindKey::Latency)),
    Key::Pipelined(Kind::Mem),
    Key::Number(NumberKey::CacheSets),
    Key::Number(NumberKey::CacheWays),
    Key::Number(NumberKey::CacheLine),
    Key::Number(NumberKey::CacheHit),
    Key::Number(NumberKey::CacheMiss),
    Key::Number(NumberKey::CacheWriteBack),
    Key::PredictorKind,
    Key::Number(NumberKey::PredictorEntries),
    Key::Number(NumberKey::ReportDumpAddress),
    Key::Number(NumberKey::ReportDumpWords),
];

/// The keys in the order in which they are tested.
pub fn all_keys() -> &'static [Key]
    ensures { result.now ≡ order }
{
    &ORDER
}

/// The text of the key at a place, from 1, as a description writes it: `rob`, `cache.sets`. Empty for
/// any other number.
pub fn key_name(place: usize) -> &'static str
    ensures { result.now ≡ text_at place }
{
    if place == 0 {
        return "";
    }
    name_of(all_keys(), place - 1)
}

// The text of the key at an index, or an empty one.
fn name_of(keys: &[Key], index: usize) -> &'static str
    ensures { result.now ≡ option_map_or text_of (slice_get keys.now index) [] }
{
    match keys.get(index) {
        Some(key) => key.place().text,
        None => "",
    }
}
