use crate::checks::check_reported;
use rv_asm::{AsmError, AsmFault};
use rv_describe::{ArrivalsError, DescriptionError};
use rv_job::{FaultLines, SimError};
use std::alloc::Global;
use std::process::Abort;

// Checks how a fault is reported.
fn is_reported(rt: &impl Abort, alloc: Global, error: SimError, line: &str, status: u8) {
    let mut errors = FaultLines::new(Vec::new(alloc));
    let found = errors.report(error);
    let reported = errors.into_writer();
    check_reported(rt, (found, reported.as_slice()), status, line);
}

#[test]
fn each_fault_is_reported_in_its_own_words_with_its_status(rt: HostRuntime) {
    static CASES: [(SimError, &str, u8); 12] = [
        (SimError::TooLong, "error: job too long\n", 1),
        (
            SimError::TooManyDescriptions,
            "error: too many descriptions\n",
            1,
        ),
        (
            SimError::Description(DescriptionError::UnknownKey),
            "error: description: UnknownKey\n",
            1,
        ),
        (
            SimError::Described {
                number: 64,
                error: DescriptionError::NotToml,
            },
            "error: description 64: NotToml\n",
            1,
        ),
        (
            SimError::Arrivals(ArrivalsError::UnknownKey),
            "error: arrivals: UnknownKey\n",
            1,
        ),
        (
            SimError::Arrivals(ArrivalsError::Unsorted { entry: 100 }),
            "error: arrivals: Unsorted 100\n",
            1,
        ),
        (
            SimError::Arrivals(ArrivalsError::WrongKind {
                entry: 3,
                field: None,
            }),
            "error: arrivals: WrongKind 3\n",
            1,
        ),
        (
            SimError::Assembly(AsmError {
                fault: AsmFault::BadRegister,
                line: 7,
            }),
            "error: assembly line 7: BadRegister\n",
            1,
        ),
        (
            SimError::ImageDoesNotFit { bytes: 5, ram: 4 },
            "error: image does not fit\n",
            1,
        ),
        (
            SimError::DoesNotFit { number: 12 },
            "error: image does not fit description 12\n",
            1,
        ),
        (SimError::Memory, "error: memory\n", 5),
        (SimError::WriteFailed, "error: output\n", 4),
    ];
    for (error, line, status) in &CASES {
        is_reported(&rt, rt.alloc(), *error, line, *status);
    }
}
