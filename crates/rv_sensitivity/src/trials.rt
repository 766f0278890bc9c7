ghost use Rattle.std.specs.Prelude.{◌≡◌, ◌*◌, min};
ghost use Rattle.rv_isa.specs.Key.{number_of, row_of};
ghost use Rattle.rv_sensitivity.specs.Trials.{doubled, halved, other_recovery, tried, trials, twice_as_wide};

use crate::change::{Change, Widths};
use rv_isa::{Bounds, Kind, KindKey, NumberKey, PredictorKind, Recovery, Values};

/// What is tried of a machine.
#[derive(Clone, Copy)]
pub enum Trial {
    /// A number twice as large, or the most that its key takes.
    Doubled(NumberKey),
    /// A number half as large, rounded up.
    Halved(NumberKey),
    /// All widths twice as large, or the most that their keys take.
    DoubledWidths,
    /// The other way to mend wrong predictions.
    OtherRecovery,
    /// Units of a kind that are pipelined.
    Pipelined(Kind),
    /// A predictor.
    Predictor(PredictorKind),
}

macro_rules! of_kind {
    ($trial:ident, $kind:ident, $key:ident) => {
        Trial::$trial(NumberKey::OfKind(Kind::$kind, KindKey::$key))
    };
}

static TRIALS: [Trial; 36] = [
    Trial::Doubled(NumberKey::FetchWidth),
    Trial::Doubled(NumberKey::DispatchWidth),
    Trial::Doubled(NumberKey::CommitWidth),
    Trial::Doubled(NumberKey::BusWidth),
    Trial::DoubledWidths,
    Trial::Doubled(NumberKey::FetchBuffer),
    Trial::Doubled(NumberKey::Rob),
    Trial::Doubled(NumberKey::StoreQueue),
    Trial::Halved(NumberKey::Forward),
    Trial::OtherRecovery,
    of_kind!(Doubled, Alu, Stations),
    of_kind!(Doubled, Alu, Units),
    of_kind!(Halved, Alu, Latency),
    Trial::Pipelined(Kind::Alu),
    of_kind!(Doubled, Mul, Stations),
    of_kind!(Doubled, Mul, Units),
    of_kind!(Halved, Mul, Latency),
    Trial::Pipelined(Kind::Mul),
    of_kind!(Doubled, Div, Stations),
    of_kind!(Doubled, Div, Units),
    of_kind!(Halved, Div, Latency),
    Trial::Pipelined(Kind::Div),
    of_kind!(Doubled, Mem, Stations),
    of_kind!(Doubled, Mem, Units),
    of_kind!(Halved, Mem, Latency),
    Trial::Pipelined(Kind::Mem),
    Trial::Doubled(NumberKey::CacheSets),
    Trial::Doubled(NumberKey::CacheWays),
    Trial::Doubled(NumberKey::CacheLine),
    Trial::Halved(NumberKey::CacheHit),
    Trial::Halved(NumberKey::CacheMiss),
    Trial::Halved(NumberKey::CacheWriteBack),
    Trial::Predictor(PredictorKind::NotTaken),
    Trial::Predictor(PredictorKind::BackwardTaken),
    Trial::Predictor(PredictorKind::Bimodal),
    Trial::Doubled(NumberKey::PredictorEntries),
];

/// What is tried of each machine, in the order of the keys.
#[tactic(auto, unfolding(crate::specs::Trials::trials))]
pub fn all_trials() -> &'static [Trial]
    ensures { result.now ≡ trials }
{
    &TRIALS
}

// Twice a number, or a most.
fn doubled_to(most: u32, number: u32) -> u32
    ensures { result ≡ min (2 * number) most }
{
    (2 * u64::from(number)).min(u64::from(most)) as u32
}

// Twice a number, or the most that a key with these bounds takes.
fn doubled(bounds: Bounds, number: u32) -> u32
    ensures { result ≡ doubled bounds number }
{
    match bounds {
        Bounds::Whole(_, most) | Bounds::Powers(_, most) | Bounds::Pages(_, most) => {
            doubled_to(most, number)
        }
        Bounds::Words | Bounds::Front => number,
    }
}

// Half of a number, rounded up.
fn halved(number: u32) -> u32
    ensures { result ≡ halved number }
{
    number / 2 + number % 2
}

fn other_recovery(recovery: Recovery) -> Recovery
    ensures { result ≡ other_recovery recovery }
{
    match recovery {
        Recovery::Commit => Recovery::Early,
        Recovery::Early => Recovery::Commit,
    }
}

// The number at a key twice as large.
fn doubled_at(values: &Values, key: NumberKey) -> u32
    ensures { result ≡ doubled (row_of key).bounds (number_of values.now key) }
{
    doubled(key.bounds(), values.number(key))
}

fn twice_as_wide(values: &Values) -> Widths
    ensures { result ≡ twice_as_wide values.now }
{
    Widths {
        fetch: doubled_at(values, NumberKey::FetchWidth),
        dispatch: doubled_at(values, NumberKey::DispatchWidth),
        commit: doubled_at(values, NumberKey::CommitWidth),
        bus: doubled_at(values, NumberKey::BusWidth),
    }
}

/// The change that is tried of a machine with these values.
pub(crate) fn tried(values: &Values, trial: Trial) -> Change
    ensures { result ≡ tried values.now trial }
{
    match trial {
        Trial::Doubled(key) => Change::Number(key, doubled_at(values, key)),
        Trial::Halved(key) => Change::Number(key, halved(values.number(key))),
        Trial::DoubledWidths => Change::Widths(twice_as_wide(values)),
        Trial::OtherRecovery => Change::Recovery(other_recovery(values.recovery)),
        Trial::Pipelined(kind) => Change::Pipelined(kind, true),
        Trial::Predictor(kind) => Change::Predictor(kind),
    }
}
