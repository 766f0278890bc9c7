use crate::keys::{KindKey, NumberKey};
use crate::per_kind::PerKind;

/// When a wrong prediction of a branch or a jump is mended.
#[derive(Clone, Copy, PartialEq, Eq)]
pub enum Recovery {
    /// When the instruction retires.
    Commit,
    /// When its result is broadcast.
    Early,
}

impl Recovery {
    ghost use Rattle.std.specs.Prelude.{◌≡◌};
    ghost use Rattle.std.specs.Prelude.{Some};
    ghost use Rattle.rv_isa.specs.Choice.{recovery_name, recovery_named};

    /// The way to mend wrong predictions that a description names so, or `None` where there is none.
    pub fn named(name: &str) -> Option<Self>
        ensures { result ≡ recovery_named name.now }
    {
        match name {
            "commit" => Some(Recovery::Commit),
            "early" => Some(Recovery::Early),
            _ => None,
        }
    }

    /// The name that a description gives this way to mend wrong predictions.
    pub fn name(self) -> &'static str
        ensures name { result.now ≡ recovery_name self }
        ensures named { recovery_named result.now ≡ Some self }
    {
        match self {
            Recovery::Commit => "commit",
            Recovery::Early => "early",
        }
    }
}

/// Which branch predictor guides the fetch.
#[derive(Clone, Copy, PartialEq, Eq)]
pub enum PredictorKind {
    /// No branch is taken.
    NotTaken,
    /// A branch with a negative offset is taken.
    BackwardTaken,
    /// Two-bit counters in a table, and a table of jump targets.
    Bimodal,
}

impl PredictorKind {
    ghost use Rattle.std.specs.Prelude.{◌≡◌};
    ghost use Rattle.std.specs.Prelude.{Some};
    ghost use Rattle.rv_isa.specs.Choice.{is_same_predictor, predictor_name, predictor_named};

    /// The predictor that a description names so, or `None` where there is none.
    pub fn named(name: &str) -> Option<Self>
        ensures { result ≡ predictor_named name.now }
    {
        Self::of_word(name.as_bytes())
    }

    /// The predictor of which a word is the name, or `None` where there is none.
    pub fn of_word(word: &[u8]) -> Option<Self>
        ensures { result ≡ predictor_named word.now }
    {
        if word == b"not_taken".as_slice() {
            Some(PredictorKind::NotTaken)
        } else if word == b"backward_taken".as_slice() {
            Some(PredictorKind::BackwardTaken)
        } else if word == b"bimodal".as_slice() {
            Some(PredictorKind::Bimodal)
        } else {
            None
        }
    }

    /// The name that a description gives this predictor.
    pub fn name(self) -> &'static str
        ensures name { result.now ≡ predictor_name self }
        ensures named { predictor_named result.now ≡ Some self }
    {
        match self {
            PredictorKind::NotTaken => "not_taken",
            PredictorKind::BackwardTaken => "backward_taken",
            PredictorKind::Bimodal => "bimodal",
        }
    }

    /// Whether another predictor is the same.
    pub fn is_same(self, other: Self) -> bool
        ensures { result ≡ is_same_predictor self other }
    {
        self == other
    }
}

/// The execution units and reservation stations of one kind.
#[derive(Clone, Copy)]
pub struct KindValues {
    /// The number of reservation stations, 1 to 64.
    pub stations: u32,
    /// The number of execution units, 1 to 8.
    pub units: u32,
    /// From issue to the first cycle in which the result can be broadcast, 1 to 64 cycles.
    pub latency: u32,
    /// Whether a unit takes a new instruction in each cycle, and not only when it is done.
    pub pipelined: bool,
}

/// The data cache.
#[derive(Clone, Copy)]
pub struct CacheValues {
    /// The number of sets, a power of two from 1 to 256.
    pub sets: u32,
    /// The number of lines in a set, 1 to 16.
    pub ways: u32,
    /// The bytes of a line, a power of two from 4 to 128.
    pub line: u32,
    /// The cost of a hit, 1 to 16 cycles.
    pub hit: u32,
    /// What a miss costs beyond a hit, 0 to 1000 cycles.
    pub miss: u32,
    /// What the eviction of a dirty line costs beyond a miss, 0 to 1000 cycles.
    pub write_back: u32,
}

/// The branch predictor.
#[derive(Clone, Copy, PartialEq, Eq)]
pub struct PredictorValues {
    pub kind: PredictorKind,
    /// The number of entries of each table, 1 to 4096.
    pub entries: u32,
}

/// What a report dumps of memory.
#[derive(Clone, Copy)]
pub struct ReportValues {
    /// The address of the first word, a multiple of 4.
    pub dump_address: u32,
    /// The number of words, 0 to 256.
    pub dump_words: u32,
}

/// What a machine description says, a field for each of its keys. The values may be out of range:
/// a [`Description`](crate::Description) holds values that are legal.
#[derive(Clone, Copy)]
pub struct Values {
    /// The address of RAM, a multiple of 4096 up to 0xff000000.
    pub ram_base: u32,
    /// The bytes of RAM, a multiple of 4096 from 4096 to 16777216.
    pub ram_size: u32,
    /// The bytes at the front of RAM that stores may not change, a multiple of 4096 up to
    /// `ram_size`.
    pub rom_bytes: u32,
    /// The most words that are fetched in a cycle, 1 to 8.
    pub fetch_width: u32,
    /// The most instructions that are dispatched in a cycle, 1 to 8.
    pub dispatch_width: u32,
    /// The most instructions that retire in a cycle, 1 to 8.
    pub commit_width: u32,
    /// The most results that are broadcast in a cycle, 1 to 8.
    pub bus_width: u32,
    /// The words that the fetch buffer holds, 1 to 32.
    pub fetch_buffer: u32,
    /// The entries of the reorder buffer, 1 to 256.
    pub rob: u32,
    /// The entries of the store queue, 1 to 64.
    pub store_queue: u32,
    /// The cost of a load whose bytes all come from the store queue, 1 to 64 cycles.
    pub forward: u32,
    /// When wrong predictions are mended.
    pub recovery: Recovery,
    /// The units and stations of each kind.
    pub kinds: PerKind<KindValues>,
    pub cache: CacheValues,
    pub predictor: PredictorValues,
    pub report: ReportValues,
}

impl KindValues {
    ghost use Rattle.std.specs.Prelude.{◌≡◌};
    ghost use Rattle.rv_isa.specs.Key.{kind_number};

    /// The number at a key of a kind.
    pub fn number(&self, key: KindKey) -> u32
        ensures { result ≡ kind_number self.now key }
    {
        match key {
            KindKey::Stations => self.stations,
            KindKey::Units => self.units,
            KindKey::Latency => self.latency,
        }
    }
}

impl Values {
    ghost use Rattle.std.specs.Prelude.{◌≡◌};
    ghost use Rattle.rv_isa.specs.Standard.{standard_values};
    ghost use Rattle.rv_isa.specs.Key.{number_of};

    /// The values of a description that names no key.
    pub fn standard() -> Self
        ensures { result ≡ standard_values }
    {
        Values {
            ram_base: 0x8000_0000,
            ram_size: 65536,
            rom_bytes: 0,
            fetch_width: 2,
            dispatch_width: 2,
            commit_width: 2,
            bus_width: 2,
            fetch_buffer: 8,
            rob: 16,
            store_queue: 8,
            forward: 1,
            recovery: Recovery::Commit,
            kinds: PerKind {
                alu: KindValues {
                    stations: 4,
                    units: 2,
                    latency: 1,
                    pipelined: true,
                },
                mul: KindValues {
                    stations: 2,
                    units: 1,
                    latency: 3,
                    pipelined: true,
                },
                div: KindValues {
                    stations: 2,
                    units: 1,
                    latency: 16,
                    pipelined: false,
                },
                mem: KindValues {
                    stations: 4,
                    units: 1,
                    latency: 1,
                    pipelined: true,
                },
            },
            cache: CacheValues {
                sets: 16,
                ways: 2,
                line: 16,
                hit: 1,
                miss: 10,
                write_back: 10,
            },
            predictor: PredictorValues {
                kind: PredictorKind::Bimodal,
                entries: 64,
            },
            report: ReportValues {
                dump_address: 0,
                dump_words: 0,
            },
        }
    }

    /// The number at a key.
    pub fn number(&self, key: NumberKey) -> u32
        ensures { result ≡ number_of self.now key }
    {
        match key {
            NumberKey::RamBase => self.ram_base,
            NumberKey::RamSize => self.ram_size,
            NumberKey::RomBytes => self.rom_bytes,
            NumberKey::FetchWidth => self.fetch_width,
            NumberKey::DispatchWidth => self.dispatch_width,
            NumberKey::CommitWidth => self.commit_width,
            NumberKey::BusWidth => self.bus_width,
            NumberKey::FetchBuffer => self.fetch_buffer,
            NumberKey::Rob => self.rob,
            NumberKey::StoreQueue => self.store_queue,
            NumberKey::Forward => self.forward,
            NumberKey::OfKind(kind, key) => self.kinds.get(kind).number(key),
            NumberKey::CacheSets => self.cache.sets,
            NumberKey::CacheWays => self.cache.ways,
            NumberKey::CacheLine => self.cache.line,
            NumberKey::CacheHit => self.cache.hit,
            NumberKey::CacheMiss => self.cache.miss,
            NumberKey::CacheWriteBack => self.cache.write_back,
            NumberKey::PredictorEntries => self.predictor.entries,
            NumberKey::ReportDumpAddress => self.report.dump_address,
            NumberKey::ReportDumpWords => self.report.dump_words,
        }
    }
}
