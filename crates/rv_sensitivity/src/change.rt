ghost use Rattle.std.specs.Prelude.{◌≡◌};
ghost use Rattle.rv_isa.specs.PerKind.{with_kind};
ghost use Rattle.rv_sensitivity.specs.Change.{changed, has_entries, is_new, is_new_recovery, is_new_truth};
ghost use Rattle.rv_sensitivity.specs.Change.{is_used, with_kind_number, with_number, with_pipelined};

use rv_isa::{
    CacheValues, Key, Kind, KindKey, KindValues, NumberKey, PerKind, PredictorKind,
    PredictorValues, Recovery, ReportValues, Values,
};

/// How many instructions are moved in a cycle: fetched, dispatched, retired and broadcast.
#[derive(Clone, Copy)]
pub struct Widths {
    pub fetch: u32,
    pub dispatch: u32,
    pub commit: u32,
    pub bus: u32,
}

/// What is changed of a machine's values.
#[derive(Clone, Copy)]
pub enum Change {
    /// The number at a key.
    Number(NumberKey, u32),
    /// When wrong predictions are mended.
    Recovery(Recovery),
    /// Whether the units of a kind take an instruction in each cycle.
    Pipelined(Kind, bool),
    /// Which predictor guides the fetch.
    Predictor(PredictorKind),
    /// All four widths.
    Widths(Widths),
}

impl Change {
    ghost use Rattle.rv_sensitivity.specs.Change.{key_of};

    /// The key whose value is changed, or `None` where it is all widths.
    pub fn key(self) -> Option<Key>
        ensures { result ≡ key_of self }
    {
        match self {
            Change::Number(key, _) => Some(Key::Number(key)),
            Change::Recovery(_) => Some(Key::Recovery),
            Change::Pipelined(kind, _) => Some(Key::Pipelined(kind)),
            Change::Predictor(_) => Some(Key::PredictorKind),
            Change::Widths(_) => None,
        }
    }
}

fn with_kind_number(values: KindValues, key: KindKey, number: u32) -> KindValues
    ensures { result ≡ with_kind_number key number values }
{
    match key {
        KindKey::Stations => KindValues {
            stations: number,
            ..values
        },
        KindKey::Units => KindValues {
            units: number,
            ..values
        },
        KindKey::Latency => KindValues {
            latency: number,
            ..values
        },
    }
}

// The same values of each kind but one.
fn with_kind(kinds: &PerKind<KindValues>, kind: Kind, values: KindValues) -> PerKind<KindValues>
    ensures { result ≡ with_kind kind values kinds.now }
{
    match kind {
        Kind::Alu => PerKind {
            alu: values,
            ..*kinds
        },
        Kind::Mul => PerKind {
            mul: values,
            ..*kinds
        },
        Kind::Div => PerKind {
            div: values,
            ..*kinds
        },
        Kind::Mem => PerKind {
            mem: values,
            ..*kinds
        },
    }
}

fn with_cache(values: &Values, cache: CacheValues) -> Values
    ensures { result ≡ record values.now { cache = cache } }
{
    Values { cache, ..*values }
}

fn with_predictor(values: &Values, predictor: PredictorValues) -> Values
    ensures { result ≡ record values.now { predictor = predictor } }
{
    Values {
        predictor,
        ..*values
    }
}

fn with_report(values: &Values, report: ReportValues) -> Values
    ensures { result ≡ record values.now { report = report } }
{
    Values { report, ..*values }
}

fn with_kinds(values: &Values, kinds: PerKind<KindValues>) -> Values
    ensures { result ≡ record values.now { kinds = kinds } }
{
    Values { kinds, ..*values }
}

// The same values with another number at a key.
fn with_number(values: &Values, key: NumberKey, number: u32) -> Values
    ensures { result ≡ with_number key number values.now }
{
    let cache = values.cache;
    let report = values.report;
    match key {
        NumberKey::RamBase => Values {
            ram_base: number,
            ..*values
        },
        NumberKey::RamSize => Values {
            ram_size: number,
            ..*values
        },
        NumberKey::RomBytes => Values {
            rom_bytes: number,
            ..*values
        },
        NumberKey::FetchWidth => Values {
            fetch_width: number,
            ..*values
        },
        NumberKey::DispatchWidth => Values {
            dispatch_width: number,
            ..*values
        },
        NumberKey::CommitWidth => Values {
            commit_width: number,
            ..*values
        },
        NumberKey::BusWidth => Values {
            bus_width: number,
            ..*values
        },
        NumberKey::FetchBuffer => Values {
            fetch_buffer: number,
            ..*values
        },
        NumberKey::Rob => Values {
            rob: number,
            ..*values
        },
        NumberKey::StoreQueue => Values {
            store_queue: number,
            ..*values
        },
        NumberKey::Forward => Values {
            forward: number,
            ..*values
        },
        NumberKey::OfKind(kind, key) => {
            let own = with_kind_number(*values.kinds.get(kind), key, number);
            with_kinds(values, with_kind(&values.kinds, kind, own))
        }
        NumberKey::CacheSets => with_cache(
            values,
            CacheValues {
                sets: number,
                ..cache
            },
        ),
        NumberKey::CacheWays => with_cache(
            values,
            CacheValues {
                ways: number,
                ..cache
            },
        ),
        NumberKey::CacheLine => with_cache(
            values,
            CacheValues {
                line: number,
                ..cache
            },
        ),
        NumberKey::CacheHit => with_cache(
            values,
            CacheValues {
                hit: number,
                ..cache
            },
        ),
        NumberKey::CacheMiss => with_cache(
            values,
            CacheValues {
                miss: number,
                ..cache
            },
        ),
        NumberKey::CacheWriteBack => with_cache(
            values,
            CacheValues {
                write_back: number,
                ..cache
            },
        ),
        NumberKey::PredictorEntries => {
            with_predictor(
                values,
                PredictorValues {
                    entries: number,
                    ..values.predictor
                },
            )
        }
        NumberKey::ReportDumpAddress => with_report(
            values,
            ReportValues {
                dump_address: number,
                ..report
            },
        ),
        NumberKey::ReportDumpWords => with_report(
            values,
            ReportValues {
                dump_words: number,
                ..report
            },
        ),
    }
}

fn with_pipelined(values: &Values, kind: Kind, pipelined: bool) -> Values
    ensures { result ≡ with_pipelined kind pipelined values.now }
{
    let own = KindValues {
        pipelined,
        ..*values.kinds.get(kind)
    };
    with_kinds(values, with_kind(&values.kinds, kind, own))
}

/// The values of a machine with a change.
pub(crate) fn changed(values: &Values, change: Change) -> Values
    ensures { result ≡ changed change values.now }
{
    match change {
        Change::Number(key, number) => with_number(values, key, number),
        Change::Recovery(recovery) => Values {
            recovery,
            ..*values
        },
        Change::Pipelined(kind, pipelined) => with_pipelined(values, kind, pipelined),
        Change::Predictor(kind) => with_predictor(
            values,
            PredictorValues {
                kind,
                ..values.predictor
            },
        ),
        Change::Widths(widths) => Values {
            fetch_width: widths.fetch,
            dispatch_width: widths.dispatch,
            commit_width: widths.commit,
            bus_width: widths.bus,
            ..*values
        },
    }
}

fn has_entries(kind: PredictorKind) -> bool
    ensures { result ≡ has_entries kind }
{
    matches!(kind, PredictorKind::Bimodal)
}

// Whether a machine has that of which a key says how many.
fn is_used(values: &Values, key: NumberKey) -> bool
    ensures { result ≡ is_used key values.now }
{
    match key {
        NumberKey::PredictorEntries => has_entries(values.predictor.kind),
        _ => true,
    }
}

fn is_new_recovery(recovery: Recovery, own: Recovery) -> bool
    ensures { result ≡ is_new_recovery recovery own }
{
    match (recovery, own) {
        (Recovery::Commit, Recovery::Commit) | (Recovery::Early, Recovery::Early) => false,
        _ => true,
    }
}

fn is_new_truth(truth: bool, own: bool) -> bool
    ensures { result ≡ is_new_truth truth own }
{
    if own { !truth } else { truth }
}

/// Whether a change makes another machine.
pub(crate) fn is_new(values: &Values, change: Change) -> bool
    ensures { result ≡ is_new change values.now }
{
    match change {
        Change::Number(key, number) => number != values.number(key) && is_used(values, key),
        Change::Recovery(recovery) => is_new_recovery(recovery, values.recovery),
        Change::Pipelined(kind, pipelined) => {
            is_new_truth(pipelined, values.kinds.get(kind).pipelined)
        }
        Change::Predictor(kind) => !kind.is_same(values.predictor.kind),
        Change::Widths(widths) => {
            widths.fetch != values.fetch_width
                || widths.dispatch != values.dispatch_width
                || widths.commit != values.commit_width
                || widths.bus != values.bus_width
        }
    }
}
