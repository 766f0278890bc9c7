ghost use Rattle.std.specs.Prelude.{◌≡◌, ◌≢◌, IsSome, codes};
ghost use Rattle.toml.specs.Data.{get_member};
ghost use Rattle.toml.specs.Errors.{IsBlank};
ghost use Rattle.toml.specs.View.{table_view};
ghost use Rattle.rv_describe.specs.ArrivalList.{listed_arrivals, table_meaning};

use crate::arrivals_error::ArrivalsError;
use crate::document::document;
use crate::entries::read_entries;
use crate::held::get;
use crate::unknown::has_other_name;
use rv_isa::Arrivals;
use std::alloc::Global;
use toml::Table;

/// The arrivals that a text lists, in the order of their cycles, or its fault.
///
/// The text is a TOML document with an array of tables `arrival`, of at most 100,000 entries. An
/// entry has a `cycle` from 0 to 1,000,000, no less than that of the entry before, a `line`, which is
/// "software", "timer" or "external", and a `level`, 0 or 1, which is 1 where it is missing.
///
/// Memory is answered only where it was refused, and never for a text with nothing but blanks and
/// comments.
#[tactic(auto, unfolding(crate::specs::ArrivalList::listed_arrivals))]
pub fn read_arrivals(alloc: Global, bytes: &[u8]) -> Result<Arrivals, ArrivalsError>
    ensures read { result ≢ Err ArrivalsError.Memory → result ≡ listed_arrivals bytes.now }
    ensures memory { result ≡ Err ArrivalsError.Memory → ¬ IsBlank bytes.now }
{
    match document(alloc, bytes) {
        Ok(Some(table)) => read_table(alloc, &table),
        Ok(None) => Err(ArrivalsError::NotToml),
        Err(_) => Err(ArrivalsError::Memory),
    }
}

/// The arrivals that a table lists, or its fault.
#[tactic(auto, unfolding(crate::specs::ArrivalList::table_meaning))]
fn read_table(alloc: Global, table: &Table) -> Result<Arrivals, ArrivalsError>
    ensures read { result ≢ Err ArrivalsError.Memory → result ≡ table_meaning (table_view table.now) }
    ensures memory { result ≡ Err ArrivalsError.Memory → IsSome (get_member (codes "arrival") (table_view table.now)) }
{
    if has_other_name(table, &["arrival"]) {
        return Err(ArrivalsError::UnknownKey);
    }
    let Some(value) = get(table, "arrival") else {
        return Ok(Arrivals::new(Vec::new(alloc)).unwrap());
    };
    match value.as_array() {
        Some(entries) => read_entries(alloc, entries.as_slice()),
        None => Err(ArrivalsError::WrongKind {
            entry: 1,
            field: None,
        }),
    }
}
