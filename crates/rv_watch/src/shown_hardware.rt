ghost use Rattle.std.specs.Prelude.{◌≡◌, false, None};
ghost use Rattle.std.specs.FinSet as set;
ghost use Rattle.rv_memory.specs.Memory.{byte_seen, is_in_ram, word_of};
ghost use Rattle.rv_hardware.specs.Draining.{drain_end};
ghost use Rattle.rv_hardware.specs.Run.{Reachable};
ghost use Rattle.rv_hardware.specs.Seen.{layout_of, seen};
ghost use Rattle.rv_watch.specs.Queue.{queue_of};

use rv_arch::{Csrs, Observed};
use rv_cache::Cache;
use rv_front::Front;
use rv_isa::{Lines, Values};
use rv_memory::{Ram, StaleMap};
use rv_rob::Rob;
use rv_stores::StoreQueue;
use rv_units::Units;
use std::marker::Model;

/// The hardware between two cycles, as a core shows it: its parts, lent.
#[derive(Drop)]
pub struct ShownHardware<'a> {
    /// What the machine description says.
    pub values: &'a Values,
    /// The pc after the retired instructions.
    pub pc: u32,
    /// The registers that they left.
    pub registers: &'a [u32; 32],
    /// The CSRs that they left.
    pub csrs: &'a Csrs,
    /// The interrupt lines of the last cycle.
    pub lines: Lines,
    /// The words that were stored to since the last FENCE.I.
    pub stale: &'a StaleMap,
    /// The data cache over RAM.
    pub cache: &'a Cache<Ram>,
    /// The store queue: the retired stores that the cache does not hold yet, and after them those in flight.
    pub stores: &'a StoreQueue,
    /// The first cycle in which the cache's port is idle.
    pub port_free: u64,
    /// The functional units.
    pub units: &'a Units,
    /// The instructions in flight.
    pub rob: &'a Rob,
    /// The fetched words that wait for their dispatch.
    pub front: &'a Front,
    /// How many cycles are done.
    pub cycle: u64,
}

impl<'a> Model for ShownHardware<'a> {
    ghost use Rattle.rv_hardware.specs.Hardware.{Hardware};
    ghost use Rattle.rv_hardware.proofs.HardwareCode.{hardware_code};

    ghost Value = { Hardware };

    ghost coded = { hardware_code };

    ghost use Rattle.rv_watch.specs.Shown.{ShowsHardware, hardware_shown};

    ghost view = { hardware_shown };

    ghost invariant = { ShowsHardware };
}

impl<'a> ShownHardware<'a> {
    /// How many cycles are done, which is the number of the next one.
    pub fn cycles_done(&self) -> u64
        ensures number { result ≡ self.now.cycle }
        ensures reached { Reachable self.now }
    {
        self.cycle
    }

    /// What retired instructions left: the pc, the registers and the CSRs; and the lines of the last cycle.
    pub fn observe(&self) -> Observed
        ensures pc { result.pc ≡ self.now.pc }
        ensures registers { result.regs ≡ self.now.registers }
        ensures csrs { result.csrs ≡ self.now.csrs }
        ensures lines { result.lines ≡ self.now.lines }
    {
        Observed {
            pc: self.pc,
            regs: *self.registers,
            csrs: *self.csrs,
            lines: self.lines,
        }
    }

    /// The instructions in flight.
    pub fn reorder_buffer(&self) -> &'a Rob
        ensures { result.now ≡ self.now.rob }
    {
        self.rob
    }

    /// The fetched words that wait for their dispatch.
    pub fn front(&self) -> &'a Front
        ensures { result.now ≡ self.now.front }
    {
        self.front
    }

    /// What the machine description says.
    pub fn values(&self) -> &'a Values
        ensures { result.now ≡ self.now.values }
    {
        self.values
    }

    /// The data cache over RAM.
    pub fn cache(&self) -> &'a Cache<Ram>
        ensures { result.now ≡ self.now.cache }
    {
        self.cache
    }

    /// The functional units, with the executions that hold one.
    pub fn units(&self) -> &'a Units
        ensures { result.now ≡ self.now.units }
    {
        self.units
    }

    /// The store queue: the retired stores that the cache does not hold yet, and after them those in flight.
    pub fn store_queue(&self) -> &'a StoreQueue
        ensures { result.now ≡ queue_of self.now }
    {
        self.stores
    }

    /// The first cycle in which the cache's port is idle.
    pub fn port_free(&self) -> u64
        ensures { result ≡ self.now.port_free }
    {
        self.port_free
    }

    /// The first cycle in which the access of a retired store to the cache is over that is under way now, or `None`
    /// where none is.
    pub fn drain_end(&self) -> Option<u64>
        ensures { result ≡ drain_end self.now }
    {
        if self.stores.is_draining() {
            Some(self.port_free)
        } else {
            None
        }
    }

    /// The byte that programs see at an address, or `None` outside RAM: that of the youngest retired store that the
    /// cache does not hold yet, else the cache's.
    pub fn byte(&self, address: u32) -> Option<u8>
        ensures seen { result ≡ byte_seen (layout_of self.now.values) (seen self.now).ram address }
        ensures none_outside { is_in_ram (layout_of self.now.values) address 1 ≡ false → result ≡ None }
    {
        if !self.cache.is_cached(address) {
            return None;
        }
        match self.stores.committed_byte(address) {
            Some(byte) => Some(byte),
            None => Some(self.cache.peek(address)),
        }
    }

    /// Whether the word that holds an address was stored to since the last FENCE.I, which no word outside RAM was.
    pub fn is_stale(&self, address: u32) -> bool
        ensures stale { result ≡ set.contains self.now.stale (word_of address) }
        ensures none_outside { is_in_ram (layout_of self.now.values) address 1 ≡ false → result ≡ false }
    {
        self.stale.is_stale(address)
    }
}
