ghost use Rattle.std.specs.Prelude.{◌≡◌, option_and_then, option_copied};
ghost use Rattle.toml.specs.Data.{as_str};
ghost use Rattle.toml.specs.View.{table_view};
ghost use Rattle.rv_isa.specs.Key.{kind_with};
ghost use Rattle.rv_describe.specs.Document.{value_at};
ghost use Rattle.rv_describe.specs.Setting.{number, is_pipelined, values_of, word_of};

use crate::held::value_at;
use rv_isa::{
    CacheValues, Key, Kind, KindKey, KindValues, NumberKey, PerKind, PredictorKind,
    PredictorValues, Recovery, ReportValues, Values,
};
use toml::Table;

/// An integer as a word, if it fits one.
pub fn word_of(number: i64) -> Option<u32>
    ensures { result ≡ word_of number }
{
    u32::try_from(number).ok()
}

/// The number at a key, or else the standard machine's.
#[tactic(auto, unfolding(crate::specs::Setting::number))]
pub fn number(table: &Table, key: NumberKey) -> u32
    ensures { result ≡ number (table_view table.now) key }
{
    let default = Values::standard().number(key);
    let Some(value) = value_at(table, Key::Number(key)) else {
        return default;
    };
    value.as_integer().and_then(word_of).unwrap_or(default)
}

#[tactic(auto, unfolding(crate::specs::Setting::is_pipelined))]
fn is_pipelined(table: &Table, kind: Kind) -> bool
    ensures { result ≡ is_pipelined (table_view table.now) kind }
{
    let default = Values::standard().kinds.get(kind).pipelined;
    let Some(value) = value_at(table, Key::Pipelined(kind)) else {
        return default;
    };
    value.as_bool().unwrap_or(default)
}

fn name_at(table: &Table, key: Key) -> Option<&str>
    ensures { option_copied result ≡ option_and_then as_str (value_at (table_view table.now) key) }
{
    value_at(table, key)?.as_str()
}

// The values of the execution units of a kind.
fn kind_values(table: &Table, kind: Kind) -> KindValues
    ensures { result ≡ kind_with (number (table_view table.now)) (is_pipelined (table_view table.now)) kind }
{
    KindValues {
        stations: number(table, NumberKey::OfKind(kind, KindKey::Stations)),
        units: number(table, NumberKey::OfKind(kind, KindKey::Units)),
        latency: number(table, NumberKey::OfKind(kind, KindKey::Latency)),
        pipelined: is_pipelined(table, kind),
    }
}

// The values of the data cache.
fn cache_values(table: &Table) -> CacheValues
    ensures { result ≡ (values_of (table_view table.now)).cache }
{
    CacheValues {
        sets: number(table, NumberKey::CacheSets),
        ways: number(table, NumberKey::CacheWays),
        line: number(table, NumberKey::CacheLine),
        hit: number(table, NumberKey::CacheHit),
        miss: number(table, NumberKey::CacheMiss),
        write_back: number(table, NumberKey::CacheWriteBack),
    }
}

// When wrong predictions are mended.
#[tactic(auto, unfolding(crate::specs::Setting::choice))]
fn recovery(table: &Table) -> Recovery
    ensures { result ≡ (values_of (table_view table.now)).recovery }
{
    name_at(table, Key::Recovery)
        .and_then(Recovery::named)
        .unwrap_or(Values::standard().recovery)
}

// The values of the branch predictor.
#[tactic(auto, unfolding(crate::specs::Setting::choice))]
fn predictor_values(table: &Table) -> PredictorValues
    ensures { result ≡ (values_of (table_view table.now)).predictor }
{
    PredictorValues {
        kind: name_at(table, Key::PredictorKind)
            .and_then(PredictorKind::named)
            .unwrap_or(Values::standard().predictor.kind),
        entries: number(table, NumberKey::PredictorEntries),
    }
}

/// The values that a table gives, where the standard ones are the defaults.
pub fn values(table: &Table) -> Values
    ensures { result ≡ values_of (table_view table.now) }
{
    Values {
        ram_base: number(table, NumberKey::RamBase),
        ram_size: number(table, NumberKey::RamSize),
        rom_bytes: number(table, NumberKey::RomBytes),
        fetch_width: number(table, NumberKey::FetchWidth),
        dispatch_width: number(table, NumberKey::DispatchWidth),
        commit_width: number(table, NumberKey::CommitWidth),
        bus_width: number(table, NumberKey::BusWidth),
        fetch_buffer: number(table, NumberKey::FetchBuffer),
        rob: number(table, NumberKey::Rob),
        store_queue: number(table, NumberKey::StoreQueue),
        forward: number(table, NumberKey::Forward),
        recovery: recovery(table),
        kinds: PerKind {
            alu: kind_values(table, Kind::Alu),
            mul: kind_values(table, Kind::Mul),
            div: kind_values(table, Kind::Div),
            mem: kind_values(table, Kind::Mem),
        },
        cache: cache_values(table),
        predictor: predictor_values(table),
        report: ReportValues {
            dump_address: number(table, NumberKey::ReportDumpAddress),
            dump_words: number(table, NumberKey::ReportDumpWords),
        },
    }
}
