ghost use Rattle.std.specs.Prelude.{◌≡◌};
ghost use Rattle.rv_describe.specs.KeyRange.{holds_address};

use rv_isa::{Bounds, Key, NumberKey};
use std::fmt;

fn holds_address(key: NumberKey) -> bool
    ensures { result ≡ holds_address key }
{
    matches!(key, NumberKey::RamBase | NumberKey::ReportDumpAddress)
}

/// A number that stands at a key: an address in hexadecimal, as `0x80000000`, and another number in decimal.
#[derive(Clone, Copy)]
pub struct KeyNumber {
    /// The key.
    pub key: NumberKey,
    /// The number.
    pub number: u32,
}

impl fmt::Display for KeyNumber {
    ghost use Rattle.std.specs.Prelude.{Some};
    ghost use Rattle.rv_describe.specs.KeyRange.{number_text};

    ghost output = { λ shown. Some (number_text shown.key shown.number) };

    #[tactic(auto, unfolding(crate::specs::KeyRange::number_text))]
    fn fmt<W: fmt::Write>(&self, f: &mut fmt::Formatter<W>) -> fmt::Result {
        let number = self.number;
        if holds_address(self.key) {
            write!(f, "0x{number:x}")
        } else {
            write!(f, "{number}")
        }
    }
}

// The numbers that a key takes, in words.
#[derive(Clone, Copy)]
struct Numbers {
    key: NumberKey,
}

impl Numbers {
    fn at(self, number: u32) -> KeyNumber
        ensures { result ≡ record { key = self.key; number = number } }
    {
        KeyNumber {
            key: self.key,
            number,
        }
    }
}

impl fmt::Display for Numbers {
    ghost use Rattle.std.specs.Prelude.{Some};
    ghost use Rattle.rv_isa.specs.Key.{row_of};
    ghost use Rattle.rv_describe.specs.KeyRange.{bounds_text};

    ghost output = { λ numbers. Some (bounds_text numbers.key (row_of numbers.key).bounds) };

    #[tactic(auto, unfolding(crate::specs::KeyRange::bounds_text))]
    fn fmt<W: fmt::Write>(&self, f: &mut fmt::Formatter<W>) -> fmt::Result {
        match self.key.bounds() {
            Bounds::Whole(low, high) => {
                write!(f, "a number from {} to {}", self.at(low), self.at(high))
            }
            Bounds::Pages(low, high) => {
                write!(
                    f,
                    "a multiple of 4096 from {} to {}",
                    self.at(low),
                    self.at(high)
                )
            }
            Bounds::Powers(low, high) => {
                write!(
                    f,
                    "a power of two from {} to {}",
                    self.at(low),
                    self.at(high)
                )
            }
            Bounds::Words => {
                write!(
                    f,
                    "a multiple of 4 from {} to {}",
                    self.at(0),
                    self.at(4294967292)
                )
            }
            Bounds::Front => f.write_str("a multiple of 4096 from 0 to ram_size"),
        }
    }
}

/// The values that a key takes, in words, as in `a number from 1 to 256`.
#[derive(Clone, Copy)]
pub struct KeyRange {
    pub key: Key,
}

impl fmt::Display for KeyRange {
    ghost use Rattle.std.specs.Prelude.{Some};
    ghost use Rattle.rv_describe.specs.KeyRange.{key_range};

    ghost output = { λ range. Some (key_range range.key) };

    #[tactic(auto, unfolding(crate::specs::KeyRange::key_range))]
    fn fmt<W: fmt::Write>(&self, f: &mut fmt::Formatter<W>) -> fmt::Result {
        match self.key {
            Key::Number(key) => write!(f, "{}", Numbers { key }),
            Key::Recovery => f.write_str("\"commit\" or \"early\""),
            Key::Pipelined(_) => f.write_str("true or false"),
            Key::PredictorKind => f.write_str("\"not_taken\", \"backward_taken\" or \"bimodal\""),
        }
    }
}
