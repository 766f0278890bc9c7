//! What the error types print.

use rv_asm::{AsmError, AsmFault};
use rv_describe::{ArrivalsError, DescriptionError};
use rv_job::{InputError, SimError};
use rv_text::{ReportError, TextError};
use std::alloc::Global;
use std::fmt::Display;
use std::process::Abort;

// Checks the text that each error prints.
fn check_texts<E: Display>(rt: &impl Abort, alloc: Global, cases: &[(E, &str)]) {
    for (error, text) in cases {
        let shown = error.to_string(alloc).expect(rt, "room for a text");
        assert_eq!(rt; shown.as_str(), *text);
    }
}

#[test]
fn a_fault_of_the_assembly_prints_its_name(rt: HostRuntime) {
    static CASES: [(AsmFault, &str); 10] = [
        (AsmFault::BadToken, "BadToken"),
        (AsmFault::UnknownMnemonic, "UnknownMnemonic"),
        (AsmFault::BadOperands, "BadOperands"),
        (AsmFault::BadRegister, "BadRegister"),
        (AsmFault::DuplicateSymbol, "DuplicateSymbol"),
        (AsmFault::TooLarge, "TooLarge"),
        (AsmFault::UnknownSymbol, "UnknownSymbol"),
        (AsmFault::OutOfRange, "OutOfRange"),
        (AsmFault::Misaligned, "Misaligned"),
        (AsmFault::Memory, "Memory"),
    ];
    check_texts(&rt, rt.alloc(), &CASES);
}

#[test]
fn a_fault_of_a_description_prints_its_name(rt: HostRuntime) {
    static CASES: [(DescriptionError, &str); 6] = [
        (DescriptionError::NotToml, "NotToml"),
        (DescriptionError::UnknownKey, "UnknownKey"),
        (DescriptionError::WrongKind { place: 1 }, "WrongKind"),
        (DescriptionError::OutOfRange { place: 1 }, "OutOfRange"),
        (
            DescriptionError::NotPowerOfTwo { place: 1 },
            "NotPowerOfTwo",
        ),
        (DescriptionError::Memory, "Memory"),
    ];
    check_texts(&rt, rt.alloc(), &CASES);
}

#[test]
fn a_fault_of_arrivals_prints_its_name_and_entry(rt: HostRuntime) {
    static CASES: [(ArrivalsError, &str); 6] = [
        (ArrivalsError::NotToml, "NotToml"),
        (ArrivalsError::UnknownKey, "UnknownKey"),
        (
            ArrivalsError::WrongKind {
                entry: 12,
                field: None,
            },
            "WrongKind 12",
        ),
        (
            ArrivalsError::OutOfRange {
                entry: 3,
                field: None,
            },
            "OutOfRange 3",
        ),
        (ArrivalsError::Unsorted { entry: 2 }, "Unsorted 2"),
        (ArrivalsError::Memory, "Memory"),
    ];
    check_texts(&rt, rt.alloc(), &CASES);
}

#[test]
fn an_error_of_a_job_prints_what_failed(rt: HostRuntime) {
    const FAULT: DescriptionError = DescriptionError::NotToml;
    const ASSEMBLY: AsmError = AsmError {
        line: 1,
        fault: AsmFault::BadToken,
    };
    static CASES: [(SimError, &str); 10] = [
        (SimError::TooLong, "job too long"),
        (SimError::TooManyDescriptions, "too many descriptions"),
        (SimError::Description(FAULT), "description"),
        (
            SimError::Described {
                number: 7,
                error: FAULT,
            },
            "description 7",
        ),
        (SimError::Arrivals(ArrivalsError::NotToml), "arrivals"),
        (SimError::Assembly(ASSEMBLY), "assembly"),
        (
            SimError::ImageDoesNotFit { bytes: 5, ram: 4 },
            "image does not fit",
        ),
        (
            SimError::DoesNotFit { number: 7 },
            "image does not fit description 7",
        ),
        (SimError::Memory, "memory"),
        (SimError::WriteFailed, "output"),
    ];
    check_texts(&rt, rt.alloc(), &CASES);
}

#[test]
fn an_error_of_a_stream_prints_what_failed(rt: HostRuntime) {
    static INPUT: [(InputError, &str); 2] = [
        (InputError::Failed, "input"),
        (InputError::Memory, "memory"),
    ];
    static TEXT: [(TextError, &str); 2] = [
        (TextError::Memory, "memory"),
        (TextError::WriteFailed, "output"),
    ];
    check_texts(&rt, rt.alloc(), &INPUT);
    check_texts(&rt, rt.alloc(), &[(ReportError::WriteFailed, "output")]);
    check_texts(&rt, rt.alloc(), &TEXT);
}
