//! Assertions as calls, each of which a test's proof takes by its contract.

ghost use Rattle.std.specs.Prelude.{IsTrue};

use std::process::Abort;

/// Checks that two values are equal.
pub(crate) fn check_equal<T: PartialEq + Drop>(rt: &impl Abort, left: T, right: T)
    ensures equal { IsTrue (T.eq left right) }
{
    assert!(rt; left == right);
}

/// Checks that a condition holds.
pub(crate) fn check_true(rt: &impl Abort, condition: bool)
    ensures held { IsTrue condition }
{
    assert!(rt; condition);
}

/// Checks that two values are equal, at a word or an address that a failure names.
pub(crate) fn check_equal_at<T: PartialEq + Drop>(rt: &impl Abort, word: u32, left: T, right: T)
    ensures equal { IsTrue (T.eq left right) }
{
    assert!(rt; left == right, "at {word:08x}");
}

/// Checks that a condition holds, at a number that a failure names.
pub(crate) fn check_true_at(rt: &impl Abort, number: u64, condition: bool)
    ensures held { IsTrue condition }
{
    assert!(rt; condition, "at {number}");
}
