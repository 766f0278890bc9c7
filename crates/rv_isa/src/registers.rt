ghost use Rattle.std.specs.Prelude.{◌≡◌, ℕ, ◌<◌, ◌↔◌, Some, IsSome, IfSome};

use std::marker::Model;

/// One of the integer registers x0 to x31 (Unprivileged ISA 20191213, 2.1).
#[derive(Clone, Copy, PartialEq, Eq)]
pub struct Reg {
    value: u8,
}

impl Model for Reg {
    ghost Value = { ℕ };

    ghost view = { λ r. r.value };

    ghost invariant = { λ r. r.value < 32 };

    ghost inverse = { λ n. record { value = n } };
}

impl Reg {
    /// Register x0, which reads as zero and drops what is written to it.
    pub const ZERO: Reg = Reg { value: 0 };

    /// The register of a number, or `None` from 32 on.
    pub fn new(number: u8) -> Option<Self>
        ensures valid { IsSome result ↔ (number < 32) }
        ensures register { IfSome result (λ r. r ≡ number) }
    {
        if number < 32 {
            Some(Reg { value: number })
        } else {
            None
        }
    }

    /// The register's number, 0 to 31.
    pub fn number(self) -> u8
        ensures number { result ≡ self }
        ensures in_range { result < 32 }
    {
        self.value
    }

    /// The register's number as a place in a list of 32 registers.
    pub fn index(self) -> usize
        ensures number { result ≡ self }
        ensures in_range { result < 32 }
    {
        usize::from(self.number())
    }

    // The register as an operand that is read.
    pub(crate) fn operand(self) -> Option<Self>
        ensures register { result ≡ Some self }
        ensures in_range { IfSome result (λ r. r < 32) }
    {
        Some(Reg { value: self.value })
    }
}

impl Default for Reg {
    ghost is_default = { λ r. r ≡ 0 };

    fn default() -> Self {
        Reg { value: 0 }
    }
}
