ghost use Rattle.std.specs.Prelude.{◌≡◌, ℕ, ◌+◌, ◌-◌, ◌<◌, ◌≤◌, ◌++◌, length};
ghost use Rattle.std.specs.Prelude.{slice_index, slice_set, slice_range, IfOk};
ghost use Rattle.rv_memory.specs.Bytes.{overwritten};

use rv_memory::Backing;
use std::alloc::{AllocError, Global};

// 4096 bytes in two halves, of which the first may be short.
#[derive(Drop)]
pub struct Halves {
    low: Vec<u8>,
    high: Vec<u8>,
}

impl Halves {
    pub fn new(alloc: Global, split: usize) -> Result<Halves, AllocError>
        requires { split ≤ 4096 }
        ensures { IfOk result (λ h. length (h.low.items ++ h.high.items) ≡ 4096) }
    {
        Ok(Halves {
            low: vec![in alloc; 0; split]?,
            high: vec![in alloc; 0; 4096 - split]?,
        })
    }

    fn byte(&self, place: usize) -> u8
        requires { place < length (self.now.low.items ++ self.now.high.items) }
        ensures { result ≡ slice_index (self.now.low.items ++ self.now.high.items) place }
    {
        let split = self.low.len();
        if place < split {
            self.low[place]
        } else {
            self.high[place - split]
        }
    }

    fn put(&mut self, place: usize, byte: u8)
        requires { place < length (self.old.low.items ++ self.old.high.items) }
        ensures { self.new.low.items ++ self.new.high.items ≡ slice_set (self.old.low.items ++ self.old.high.items) place byte }
    {
        let split = self.low.len();
        if place < split {
            self.low[place] = byte;
        } else {
            self.high[place - split] = byte;
        }
    }
}

impl Backing for Halves {
    ghost bytes = { λ h. h.low.items ++ h.high.items };

    ghost keeps = { λ _ _. Unit {0} };

    ghost keeps_itself = { λ _. tt };

    ghost keeps_on = { λ _ _ _ _ _. tt };

    fn size(&self) -> usize {
        self.low.len() + self.high.len()
    }

    fn read_block(&self, offset: usize, block: &mut [u8]) {
        for (i, byte) in block.iter_mut().enumerate() {
            *byte = self.byte(offset + i);
        }
    }

    fn write_block(&mut self, offset: usize, block: &[u8]) {
        for (i, byte) in block.iter().enumerate() {
            self.put(offset + i, *byte);
        }
    }
}
