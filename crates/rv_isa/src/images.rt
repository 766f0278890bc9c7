ghost use Rattle.std.specs.Prelude.{◌≡◌, ℕ, List, length, IfOk};

use std::alloc::{AllocError, Global};
use std::marker::Model;

/// A list of bytes.
#[derive(Drop)]
pub struct Bytes {
    items: Vec<u8>,
}

impl Model for Bytes {
    ghost Value = { List ℕ };

    ghost view = { λ b. b.items.items };
}

impl Bytes {
    /// The list that a vector holds, in the same memory.
    pub fn from_vec(items: Vec<u8>) -> Self
        ensures { result ≡ items.items }
    {
        Bytes { items }
    }

    /// The bytes in order.
    pub fn as_slice(&self) -> &[u8]
        ensures { result.now ≡ self.now }
    {
        self.items.as_slice()
    }

    /// The number of bytes.
    pub fn len(&self) -> usize
        ensures { result ≡ length self.now }
    {
        self.items.len()
    }
}

/// What memory holds at first: bytes from an address on, and where execution starts.
#[derive(Drop)]
pub struct Image {
    /// The address of the first byte.
    pub base: u32,
    /// The bytes in the order of their addresses.
    pub bytes: Bytes,
    /// The address of the first instruction.
    pub start: u32,
}

impl Image {
    /// An image with a copy of the bytes. The only error is out of memory.
    pub fn from_bytes(
        alloc: Global,
        base: u32,
        bytes: &[u8],
        start: u32,
    ) -> Result<Self, AllocError>
        ensures base { IfOk result (λ image. image.base ≡ base) }
        ensures bytes { IfOk result (λ image. image.bytes ≡ bytes.now) }
        ensures start { IfOk result (λ image. image.start ≡ start) }
    {
        let mut items = Vec::with_capacity(alloc, bytes.len())?;
        items.extend_from_slice(bytes)?;
        Ok(Image {
            base,
            bytes: Bytes::from_vec(items),
            start,
        })
    }
}
