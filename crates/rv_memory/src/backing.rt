ghost use Rattle.std.specs.Prelude.{◌≡◌, ℕ, ◌+◌, ◌≤◌, List, length, slice_range};
ghost use Rattle.rv_memory.specs.Bytes.{overwritten};

/// Memory that a cache can stand on: a list of bytes that is read and written by blocks. A block is
/// named by its offset, the number of bytes before it.
pub trait Backing: Drop {
    ghost bytes: { Self → List ℕ };

    // What a write leaves as it is, beside the other bytes.
    ghost keeps: { Self → Self → Type 0 };

    /// The number of bytes, which no write changes.
    fn size(&self) -> usize
        ensures { result ≡ length (bytes self.now) };

    /// Reads the block at `offset` into `block`, whose length says how many bytes it has.
    fn read_block(&self, offset: usize, block: &mut [u8])
        requires { offset + length block.old ≤ length (bytes self.now) }
        ensures { block.new ≡ slice_range (bytes self.now) offset (offset + length block.old) };

    /// Writes `block` over the bytes from `offset` on.
    fn write_block(&mut self, offset: usize, block: &[u8])
        requires { offset + length block.now ≤ length (bytes self.old) }
        ensures written { bytes self.new ≡ overwritten (bytes self.old) offset block.now }
        ensures kept { keeps self.old self.new };

    ghost keeps_itself: { (a : Self) → keeps a a };

    ghost keeps_on: { (a b c : Self) → keeps a b → keeps b c → keeps a c };
}
