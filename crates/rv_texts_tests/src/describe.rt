//! What texts mean as descriptions, and where they are refused.

pub(crate) mod arrivals;
mod bounds;
mod faults;
mod readings;

use rv_describe::{DescriptionError, key_name, read_description};
use rv_isa::{Key, Values, all_keys};
use std::alloc::Global;
use std::process::Abort;

fn values(alloc: Global, text: &[u8]) -> Option<Values> {
    match read_description(alloc, text) {
        Ok(description) => Some(description.values()),
        Err(_) => None,
    }
}

fn fault(alloc: Global, text: &[u8]) -> Option<DescriptionError> {
    match read_description(alloc, text) {
        Ok(_) => None,
        Err(error) => Some(error),
    }
}

// Whether two descriptions say the same at a key.
fn is_same_at(key: Key, left: &Values, right: &Values) -> bool {
    match key {
        Key::Number(number) => left.number(number) == right.number(number),
        Key::Pipelined(kind) => left.kinds.get(kind).pipelined == right.kinds.get(kind).pipelined,
        Key::Recovery => left.recovery == right.recovery,
        Key::PredictorKind => left.predictor.kind == right.predictor.kind,
    }
}

/// Whether a text was read as a description that says at each key what is expected.
fn is_read_as(read: Option<Values>, expected: &Values) -> bool {
    match read {
        Some(read) => all_keys()
            .iter()
            .all(|key| is_same_at(*key, &read, expected)),
        None => false,
    }
}

fn is_read(rt: &impl Abort, alloc: Global, text: &str, expected: Values) {
    assert!(rt;
        is_read_as(values(alloc, text.as_bytes()), &expected),
        "{text}"
    );
}

/// Checks the fault of a text, if it has one.
fn check_fault(rt: &impl Abort, alloc: Global, text: &str, expected: Option<DescriptionError>) {
    assert_eq!(rt; fault(alloc, text.as_bytes()), expected, "{text}");
}

fn is_refused(rt: &impl Abort, alloc: Global, text: &str, error: DescriptionError, key: &str) {
    check_fault(rt, alloc, text, Some(error));
    assert!(rt; key_name(error.place()) == key, "{text}");
}
