ghost use Rattle.std.specs.Prelude.{◌≡◌, ℕ, ◌<◌, ◌↔◌, ℤ, IsSome, IfSome};
ghost use Rattle.rv_isa.specs.Field.{IsSigned};
ghost use Rattle.rv_isa.specs.Word.{modulo_word};

use std::marker::Model;

/// An operand field that is extended by zeros: a number below `LIMIT`.
#[derive(Clone, Copy)]
pub struct Unsigned<const LIMIT: u32> {
    value: u32,
}

/// An operand field that is extended by its sign: a multiple of `STEP` from -`HALF` to less than
/// `HALF`.
#[derive(Clone, Copy)]
pub struct Signed<const HALF: u32, const STEP: u32> {
    value: i32,
}

/// The immediate of the I and S formats: twelve bits (Unprivileged ISA 20191213, 2.3).
pub type Immediate = Signed<2048, 1>;

/// The offset of a branch in bytes, the immediate of the B format: thirteen bits, of which the lowest
/// is 0 (Unprivileged ISA 20191213, 2.3).
pub type BranchOffset = Signed<4096, 2>;

/// The offset of `jal` in bytes, the immediate of the J format: 21 bits, of which the lowest is 0
/// (Unprivileged ISA 20191213, 2.3).
pub type JumpOffset = Signed<1_048_576, 2>;

/// The immediate of the U format: the upper twenty bits of a word (Unprivileged ISA 20191213, 2.3).
pub type UpperImmediate = Unsigned<1_048_576>;

/// The amount of a shift by a constant, in bits (Unprivileged ISA 20191213, 2.4.1).
pub type ShiftAmount = Unsigned<32>;

/// The address of a CSR (Privileged Architecture 20211203, 2.1).
pub type CsrAddress = Unsigned<4096>;

/// The immediate source of a CSR instruction (Unprivileged ISA 20191213, 9.1).
pub type CsrImmediate = Unsigned<32>;

impl<const LIMIT: u32> Model for Unsigned<LIMIT> {
    ghost Value = { ℕ };

    ghost view = { λ a. a.value };

    ghost invariant = { λ a. a.value < LIMIT };

    ghost inverse = { λ n. record { value = n } };
}

impl<const LIMIT: u32> Unsigned<LIMIT> {
    /// The field that holds a number, or `None` where the number is not below `LIMIT`.
    pub fn new(value: u32) -> Option<Self>
        ensures valid { IsSome result ↔ (value < LIMIT) }
        ensures field { IfSome result (λ a. a ≡ value) }
    {
        if value < LIMIT {
            Some(Unsigned { value })
        } else {
            None
        }
    }

    /// The field that holds a number that is known to fit.
    pub fn from_field(value: u32) -> Self
        requires { value < LIMIT }
        ensures { result ≡ value }
    {
        Unsigned { value }
    }

    /// The number, below `LIMIT`.
    pub fn value(self) -> u32
        ensures value { result ≡ self.entry }
        ensures in_range { result < LIMIT }
    {
        self.value
    }
}

impl<const HALF: u32, const STEP: u32> Model for Signed<HALF, STEP> {
    ghost Value = { ℤ };

    ghost view = { λ a. a.value };

    ghost invariant = { λ a. IsSigned HALF STEP a.value };

    ghost inverse = { λ z. record { value = z } };
}

impl<const HALF: u32, const STEP: u32> Signed<HALF, STEP> {
    /// The field that holds a number, or `None` where the number is not a multiple of `STEP` from
    /// -`HALF` to less than `HALF`.
    pub fn new(value: i32) -> Option<Self>
        ensures valid { IsSome result ↔ IsSigned HALF STEP value }
        ensures field { IfSome result (λ a. a ≡ value) }
    {
        let size = value.unsigned_abs();
        let is_in_range = if value < 0 { size <= HALF } else { size < HALF };
        if is_in_range && size.is_multiple_of(STEP) {
            Some(Signed { value })
        } else {
            None
        }
    }

    /// The field that holds a number that is known to fit.
    pub fn from_field(value: i32) -> Self
        requires { IsSigned HALF STEP value }
        ensures { result ≡ value }
    {
        Signed { value }
    }

    /// The number, a multiple of `STEP` from -`HALF` to less than `HALF`.
    pub fn value(self) -> i32
        ensures value { result ≡ self.entry }
        ensures in_range { IsSigned HALF STEP result }
    {
        self.value
    }

    /// The number modulo 2^32: the field extended by its sign to a word.
    pub fn word(self) -> u32
        ensures { result ≡ modulo_word self.entry }
    {
        self.value().cast_unsigned()
    }
}
