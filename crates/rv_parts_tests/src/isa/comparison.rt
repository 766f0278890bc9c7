use crate::checks::check_true_at;
use rv_isa::{Condition, branch_taken};

// Unprivileged ISA 20191213, 2.5: of -1 (or 2^32 - 1) and 1, of 1 and -1,
// of 5 and 5, of 2 and 3, and of the least number (or 2^31) and 0.
#[test]
fn each_condition_sets_signed_apart_from_unsigned(rt: HostRuntime) {
    const CASES: [(Condition, [bool; 5]); 6] = [
        (Condition::Equal, [false, false, true, false, false]),
        (Condition::NotEqual, [true, true, false, true, true]),
        (Condition::LessThan, [true, false, false, true, true]),
        (Condition::GreaterOrEqual, [false, true, true, false, false]),
        (
            Condition::LessThanUnsigned,
            [false, true, false, true, false],
        ),
        (
            Condition::GreaterOrEqualUnsigned,
            [true, false, true, false, true],
        ),
    ];
    for (place, (condition, taken)) in CASES.iter().enumerate() {
        let found = [
            branch_taken(*condition, 0xffff_ffff, 1),
            branch_taken(*condition, 1, 0xffff_ffff),
            branch_taken(*condition, 5, 5),
            branch_taken(*condition, 2, 3),
            branch_taken(*condition, 0x8000_0000, 0),
        ];
        check_true_at(&rt, place as u64, found == *taken);
    }
}
