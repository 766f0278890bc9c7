ghost use Rattle.std.specs.Prelude.{◌≡◌, ◌+◌, ◌-◌, ◌*◌, ◌%◌, ◌^◌, ◌<◌, ◌≤◌, length};
ghost use Rattle.std.specs.Prelude.{replicate, slice_range, IsTrue, IfOk, refl};
ghost use Rattle.std.proofs.Common.{◌∙◌};
ghost use Rattle.rv_isa.specs.Description.{IsRamBase, IsRamSize};
ghost use Rattle.rv_isa.specs.Operation.{bytes_of};
ghost use Rattle.rv_memory.specs.Bytes.{overwritten};
ghost use Rattle.rv_memory.specs.Memory.{IsSized, is_in_ram, is_writable, number_at};
ghost use Rattle.rv_memory.specs.Memory.{with_stored, byte_seen, fetched_word};

use crate::Backing;
use crate::byte_access::{number_in, store_in};
use rv_isa::Width;
use std::alloc::{AllocError, Global};
use std::marker::Model;

/// RAM: one range of addresses, whose front may be kept from stores.
#[derive(Drop)]
pub struct Ram {
    base: u32,
    size: u32,
    rom_bytes: u32,
    bytes: Vec<u8>,
}

impl Model for Ram {
    ghost use Rattle.std.specs.Prelude.{◌≡◌, length, ◌≤◌};
    ghost use Rattle.rv_isa.specs.Description.{IsRamBase, IsRamSize};
    ghost use Rattle.rv_memory.specs.Memory.{Memory};

    ghost Value = { Memory };

    ghost view = { λ r. record {
      layout = record { base = r.base; size = r.size; rom_bytes = r.rom_bytes };
      bytes = r.bytes.items;
    } };

    ghost invariant = { λ r.
        IsRamBase r.base × IsRamSize r.size × (r.rom_bytes ≤ r.size) × (length r.bytes.items ≡ r.size) };
}

impl Ram {
    /// RAM of `size` bytes from address `base` on, all zero, whose first `rom_bytes` bytes stores
    /// may not write.
    pub fn new(alloc: Global, base: u32, size: u32, rom_bytes: u32) -> Result<Ram, AllocError>
        requires base { IsRamBase base }
        requires size { IsRamSize size }
        requires rom { rom_bytes ≤ size }
        ensures { IfOk result (λ ram. ram ≡ record {
          layout = record { base = base; size = size; rom_bytes = rom_bytes };
          bytes = replicate size 0;
        }) }
    {
        Ok(Ram {
            base,
            size,
            rom_bytes,
            bytes: vec![in alloc; 0; size as usize]?,
        })
    }

    /// Writes an image over the front of RAM.
    pub fn load(&mut self, image: &[u8])
        requires { length image.now ≤ length self.old.bytes }
        ensures loaded { self.new ≡ record self.old { bytes = overwritten self.old.bytes 0 image.now } }
        ensures sized { IsSized self.new }
    {
        self.write_block(0, image);
    }

    /// Whether the `count` bytes from `address` on lie in RAM.
    pub fn in_range(&self, address: u32, count: u32) -> bool
        ensures { result ≡ is_in_ram self.now.layout address count }
    {
        address >= self.base && count <= self.size && address - self.base <= self.size - count
    }

    /// Whether a store may write the `count` bytes from `address` on: they lie in RAM, after the
    /// part that is only read.
    pub fn writable(&self, address: u32, count: u32) -> bool
        ensures { result ≡ is_writable self.now.layout address count }
    {
        self.in_range(address, count) && address - self.base >= self.rom_bytes
    }

    /// The word at `pc`, lowest byte first, or `None` where its four bytes do not lie in RAM.
    pub fn fetch(&self, pc: u32) -> Option<u32>
        ensures { result ≡ fetched_word self.now.layout self.now.bytes pc }
    {
        if self.in_range(pc, 4) {
            Some(self.number(pc, Width::Word))
        } else {
            None
        }
    }

    /// The number that the bytes from `address` on make, lowest byte first.
    pub fn number(&self, address: u32, width: Width) -> u32
        requires { IsTrue (is_in_ram self.now.layout address (bytes_of width)) }
        ensures number { result ≡ number_at self.now.layout self.now.bytes address (bytes_of width) }
        ensures fits { result < 2 ^ (8 * bytes_of width) }
    {
        number_in(&self.bytes, (address - self.base) as usize, width)
    }

    /// Stores the low bytes of a word, lowest byte first.
    pub fn store(&mut self, address: u32, width: Width, word: u32)
        requires { IsTrue (is_writable self.old.layout address (bytes_of width)) }
        ensures stored { self.new ≡ record self.old {
          bytes = with_stored self.old.layout self.old.bytes address
              (bytes_of width) word;
        } }
        ensures sized { IsSized self.new }
    {
        store_in(&mut self.bytes, (address - self.base) as usize, width, word);
    }

    /// The byte at an address, or `None` outside RAM.
    pub fn byte(&self, address: u32) -> Option<u8>
        ensures { result ≡ byte_seen self.now.layout self.now.bytes address }
    {
        if address < self.base {
            return None;
        }
        self.bytes.get((address - self.base) as usize).copied()
    }
}

impl Backing for Ram {
    ghost bytes = { λ ram. ram.bytes };

    ghost keeps = { λ old new. new.layout ≡ old.layout };

    ghost keeps_itself = { λ a. refl };

    ghost keeps_on = { λ a b c ab bc. bc ∙ ab };

    fn size(&self) -> usize
        ensures size { result ≡ length self.now.bytes }
        ensures sized { IsSized self.now }
    {
        self.bytes.len()
    }

    fn read_block(&self, offset: usize, block: &mut [u8]) {
        block.copy_from_slice(&self.bytes[offset..offset + block.len()]);
    }

    fn write_block(&mut self, offset: usize, block: &[u8])
        requires { offset + length block.now ≤ length self.old.bytes }
        ensures written { self.new ≡ record self.old { bytes = overwritten self.old.bytes offset block.now } }
        ensures sized { IsSized self.new }
    {
        self.bytes[offset..offset + block.len()].copy_from_slice(block);
    }
}
