ghost use Rattle.std.specs.Prelude.{◌≡◌, ◌≢◌, ◌↔◌, IsNone, IsOk, Err};
ghost use Rattle.toml.specs.Errors.{IsBlank};
ghost use Rattle.toml.specs.View.{table_view};
ghost use Rattle.rv_describe.specs.Description.{described, description_of, value_error, first_error, IsLegalText};
ghost use Rattle.rv_describe.specs.Setting.{values_of};

use crate::description_error::DescriptionError;
use crate::document::document;
use crate::faults::{ValueFault, first_place};
use crate::settings::values;
use crate::unknown::has_unknown;
use rv_isa::Description;
use std::alloc::Global;
use toml::Table;

fn value_error(table: &Table) -> Option<DescriptionError>
    ensures { result ≡ value_error (table_view table.now) }
{
    if let Some(place) = first_place(table, ValueFault::WrongKind) {
        return Some(DescriptionError::WrongKind { place });
    }
    if let Some(place) = first_place(table, ValueFault::OutOfRange) {
        return Some(DescriptionError::OutOfRange { place });
    }
    let place = first_place(table, ValueFault::NotPowerOfTwo)?;
    Some(DescriptionError::NotPowerOfTwo { place })
}

fn first_error(table: &Table) -> Option<DescriptionError>
    ensures { result ≡ first_error (table_view table.now) }
{
    if has_unknown(table) {
        Some(DescriptionError::UnknownKey)
    } else {
        value_error(table)
    }
}

// The machine of a table without fault.
fn machine(table: &Table) -> Description
    requires { IsNone (first_error (table_view table.now)) }
    ensures { result ≡ values_of (table_view table.now) }
{
    Description::new(values(table)).unwrap()
}

fn described(table: &Table) -> Result<Description, DescriptionError>
    ensures { result ≡ described (table_view table.now) }
{
    match first_error(table) {
        Some(error) => Err(error),
        None => Ok(machine(table)),
    }
}

/// Reads a machine description: a TOML document that gives values to keys. A key that is missing has
/// its value of [`Values::standard`](rv_isa::Values::standard). Where memory suffices, the legal
/// texts are exactly those that are read.
///
/// # Errors
/// The first [`DescriptionError`] of the text; [`DescriptionError::Memory`] where memory is refused.
#[tactic(auto, unfolding(crate::specs::Description::description_of))]
pub fn read_description(alloc: Global, bytes: &[u8]) -> Result<Description, DescriptionError>
    ensures meant { result ≢ Err DescriptionError.Memory → result ≡ description_of bytes.now }
    ensures legal { result ≢ Err DescriptionError.Memory → (IsOk result ↔ IsLegalText bytes.now) }
    ensures memory { result ≡ Err DescriptionError.Memory → ¬ IsBlank bytes.now }
{
    match document(alloc, bytes) {
        Ok(Some(table)) => described(&table),
        Ok(None) => Err(DescriptionError::NotToml),
        Err(_) => Err(DescriptionError::Memory),
    }
}
