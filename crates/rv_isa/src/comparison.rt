ghost use Rattle.std.specs.Prelude.{◌≡◌};
ghost use Rattle.rv_isa.specs.Comparison.{holds};

use crate::operations::Condition;

/// Whether a branch's condition holds of two words (Unprivileged ISA 20191213, 2.5).
pub fn branch_taken(condition: Condition, a: u32, b: u32) -> bool
    ensures { result ≡ holds condition a b }
{
    match condition {
        Condition::Equal => a == b,
        Condition::NotEqual => a != b,
        Condition::LessThan => a.cast_signed() < b.cast_signed(),
        Condition::GreaterOrEqual => a.cast_signed() >= b.cast_signed(),
        Condition::LessThanUnsigned => a < b,
        Condition::GreaterOrEqualUnsigned => a >= b,
    }
}
