ghost use Rattle.std.specs.Prelude.{◌≡◌, ◌≢◌, IfOk, IfSome, map, take};
ghost use Rattle.std.specs.List.{filter_map, list_any};
ghost use Rattle.toml.specs.View.{view};
ghost use Rattle.rv_describe.specs.Entries.{entries_meaning, entry_fault, first_fall, first_with};
ghost use Rattle.rv_describe.specs.Entry.{arrival_of, has_unknown_field};

use crate::arrivals_error::ArrivalsError;
use crate::entry::{arrival_of, has_unknown_field, reading_of};
use crate::faults::{ValueFault, choice_fault, is_fault};
use crate::field::{Field, field_with};
use rv_isa::{Arrival, Arrivals, MOST_ARRIVALS};
use std::alloc::{AllocError, Global};
use toml::Value;

/// The arrivals of the entries, or their fault. One that an entry has by itself is answered where memory runs out too.
#[tactic(auto, unfolding(crate::specs::Entries::entries_meaning))]
pub fn read_entries(alloc: Global, entries: &[Value]) -> Result<Arrivals, ArrivalsError>
    ensures read { result ≢ Err ArrivalsError.Memory → result ≡ entries_meaning (map view entries.now) }
    ensures alone { IfSome (entry_fault (map view entries.now)) (λ error. result ≡ Err error) }
{
    if let Some(error) = entry_fault(entries) {
        return Err(error);
    }
    if entries.len() > MOST_ARRIVALS {
        return Err(ArrivalsError::OutOfRange {
            entry: MOST_ARRIVALS + 1,
            field: None,
        });
    }
    let Ok(arrivals) = collect_arrivals(alloc, entries) else {
        return Err(ArrivalsError::Memory);
    };
    match first_fall(arrivals.as_slice()) {
        Some(entry) => Err(ArrivalsError::Unsorted { entry }),
        None => Ok(Arrivals::new(arrivals).unwrap()),
    }
}

// The fault that an entry has by itself.
fn entry_fault(entries: &[Value]) -> Option<ArrivalsError>
    ensures { result ≡ entry_fault (map view entries.now) }
{
    if has_unknown_fields(entries) {
        return Some(ArrivalsError::UnknownKey);
    }
    if let Some((entry, field)) = first_with(entries, ValueFault::WrongKind) {
        return Some(ArrivalsError::WrongKind { entry, field });
    }
    if let Some((entry, field)) = first_with(foremost(entries), ValueFault::OutOfRange) {
        return Some(ArrivalsError::OutOfRange { entry, field });
    }
    None
}

// The entries that a list may have.
fn foremost(entries: &[Value]) -> &[Value]
    ensures { result.now ≡ take 100000 entries.now }
{
    if entries.len() > MOST_ARRIVALS {
        &entries[..MOST_ARRIVALS]
    } else {
        entries
    }
}

// Whether an entry has an unknown field.
fn has_unknown_fields(entries: &[Value]) -> bool
    ensures { result ≡ list_any (λ entry. has_unknown_field (view entry)) entries.now }
{
    entries.iter().any(has_unknown_field)
}

// The first entry with a fault in its fields, from 1, and the first of these fields.
fn first_with(entries: &[Value], fault: ValueFault) -> Option<(usize, Option<Field>)>
    ensures { result ≡ first_with fault 1 (map view entries.now) }
{
    for (index, entry) in entries.iter().enumerate() {
        if is_fault(choice_fault(reading_of(entry)), fault) {
            return Some((index + 1, field_with(fault, entry)));
        }
    }
    None
}

// The arrivals of the entries that give one, where memory suffices.
fn collect_arrivals(alloc: Global, entries: &[Value]) -> Result<Vec<Arrival>, AllocError>
    ensures { IfOk result (λ arrivals. arrivals.items ≡ filter_map (λ entry. arrival_of (view entry)) entries.now) }
{
    entries.iter().filter_map(arrival_of).collect(alloc)
}

// The number of the first arrival with a cycle below the one before.
fn first_fall(arrivals: &[Arrival]) -> Option<usize>
    ensures { result ≡ first_fall 1 0 arrivals.now }
{
    let mut before = 0;
    for (index, arrival) in arrivals.iter().enumerate() {
        if arrival.cycle < before {
            return Some(index + 1);
        }
        before = arrival.cycle;
    }
    None
}
