ghost use Rattle.std.specs.Prelude.{◌≡◌, ◌%◌, ◌≤◌, length, IfOk, IsTrue};
ghost use Rattle.std.specs.Bool.{OnTrue};
ghost use Rattle.std.specs.FinSet as set;
ghost use Rattle.rv_isa.specs.Description.{IsRamBase, IsRamSize};
ghost use Rattle.rv_memory.specs.Memory.{Layout, is_in_ram, word_of, byte_seen};
ghost use Rattle.rv_arch.specs.State.{IsState};

mod execution;
mod step;

use crate::csrs::Csrs;
use crate::observed::Observed;
pub use execution::extended;
use rv_isa::Lines;
use rv_memory::{Ram, StaleMap};
use std::alloc::{AllocError, Global};
use std::marker::Model;

/// The machine that takes one step at a time, against which the out-of-order core is held.
#[derive(Drop)]
pub struct Reference {
    pc: u32,
    registers: [u32; 32],
    csrs: Csrs,
    ram: Ram,
    stale: StaleMap,
    lines: Lines,
}

impl Model for Reference {
    ghost use Rattle.std.specs.Prelude.{◌≡◌, ◌%◌, slice_index};
    ghost use Rattle.rv_memory.specs.Memory.{IsSized};
    ghost use Rattle.rv_memory.specs.Stale.{AreCovered};
    ghost use Rattle.rv_arch.specs.Machine.{Machine};
    ghost use Rattle.rv_arch.specs.MachineCode.{machine_code};

    ghost Value = { Machine };

    ghost coded = { machine_code };

    ghost view = { λ r. record {
      layout = r.ram.layout;
      state = record {
        pc = r.pc;
        registers = r.registers;
        csrs = r.csrs;
        ram = r.ram.bytes;
        stale = r.stale.words;
      };
      lines = r.lines;
    } };

    ghost invariant = { λ r.
        (r.pc % 4 ≡ 0) × (slice_index r.registers 0 ≡ 0) × IsSized r.ram
        × (r.stale.base ≡ r.ram.layout.base) × (r.stale.size ≡ r.ram.layout.size) × AreCovered r.stale };
}

impl Reference {
    ghost use Rattle.rv_isa.specs.Arrivals.{no_lines};
    ghost use Rattle.rv_arch.specs.Reset.{reset};

    /// A machine at reset: RAM of `size` bytes from `base` on, whose first `rom_bytes` bytes no
    /// store may write, with an image at its front, and the pc at `start`. The only error is out
    /// of memory.
    pub fn new(
        alloc: Global,
        base: u32,
        size: u32,
        rom_bytes: u32,
        image: &[u8],
        start: u32,
    ) -> Result<Reference, AllocError>
        requires base { IsRamBase base }
        requires size { IsRamSize size }
        requires rom { rom_bytes ≤ size }
        requires fits { length image.now ≤ size }
        requires aligned { start % 4 ≡ 0 }
        ensures reset { IfOk result (λ reference.
            let layout : Layout = record { base = base; size = size; rom_bytes = rom_bytes } in
            reference ≡ record { layout = layout; state = reset layout image.now start; lines = no_lines }) }
        ensures state { IfOk result (λ reference. IsState reference.layout reference.state) }
    {
        let mut ram = Ram::new(alloc, base, size, rom_bytes)?;
        ram.load(image);
        Ok(Reference {
            pc: start,
            registers: [0; 32],
            csrs: Csrs::reset(),
            ram,
            stale: StaleMap::new(alloc, base, size)?,
            lines: Lines {
                software: false,
                timer: false,
                external: false,
            },
        })
    }

    /// The pc, the registers, the control and status registers, and the lines of the last step.
    pub fn observe(&self) -> Observed
        ensures pc { result.pc ≡ self.now.state.pc }
        ensures registers { result.regs ≡ self.now.state.registers }
        ensures csrs { result.csrs ≡ self.now.state.csrs }
        ensures lines { result.lines ≡ self.now.lines }
    {
        Observed {
            pc: self.pc,
            regs: self.registers,
            csrs: self.csrs,
            lines: self.lines,
        }
    }

    /// The byte at an address, or `None` outside RAM.
    pub fn byte(&self, address: u32) -> Option<u8>
        ensures { result ≡ byte_seen self.now.layout self.now.state.ram address }
    {
        self.ram.byte(address)
    }

    /// Whether the word that holds an address was stored to since the last FENCE.I, which no word
    /// outside RAM was.
    pub fn is_stale(&self, address: u32) -> bool
        ensures stale { result ≡ set.contains self.now.state.stale (word_of address) }
        ensures in_ram { OnTrue result (IsTrue (is_in_ram self.now.layout address 1)) }
    {
        self.stale.is_stale(address)
    }
}
