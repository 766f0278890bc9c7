ghost use Rattle.std.specs.Prelude.{◌≡◌, ◌≤◌, length};
ghost use Rattle.rv_isa.specs.Bytes.{bytes_of_number};
ghost use Rattle.rv_isa.specs.Operation.{bytes_of};

use crate::operations::Width;
use std::marker::Model;

/// The bytes that a store writes, at the lowest address first: at most four.
#[derive(Clone, Copy, PartialEq, Eq)]
pub struct StoreBytes {
    bytes: [u8; 4],
    count: usize,
}

// Clauses see the list of the bytes; the places after them hold zeros.
impl Model for StoreBytes {
    ghost use Rattle.std.specs.Prelude.{◌≡◌, ℕ, ◌≤◌, List, length, take};
    ghost use Rattle.rv_isa.specs.Bytes.{padded};

    ghost Value = { List ℕ };

    ghost view = { λ b. take b.count b.bytes };

    ghost invariant = { λ b. (length (take b.count b.bytes) ≡ b.count) × (padded (take b.count b.bytes) ≡ b.bytes)
        × (b.count ≤ 4) };

    ghost inverse = { λ xs. record { bytes = padded xs; count = length xs } };
}

impl StoreBytes {
    /// The bytes of a slice of at most four.
    pub fn from_slice(bytes: &[u8]) -> StoreBytes
        requires { length bytes.now ≤ 4 }
        ensures { result ≡ bytes.now }
    {
        let mut padded = [0; 4];
        padded[..bytes.len()].copy_from_slice(bytes);
        StoreBytes {
            bytes: padded,
            count: bytes.len(),
        }
    }

    /// The low bytes of a word: those that a store of this width writes.
    pub fn of_word(width: Width, word: u32) -> StoreBytes
        ensures { result ≡ bytes_of_number (bytes_of width) word }
    {
        let bytes = word.to_le_bytes();
        match width {
            Width::Byte => StoreBytes::from_slice(&bytes[..1]),
            Width::Half => StoreBytes::from_slice(&bytes[..2]),
            Width::Word => StoreBytes::from_slice(&bytes),
        }
    }

    /// The bytes as a slice, the lowest address first.
    pub fn as_slice(&self) -> &[u8]
        ensures bytes { result.now ≡ self.now }
        ensures at_most_four { length result.now ≤ 4 }
    {
        &self.bytes[..self.count]
    }
}
