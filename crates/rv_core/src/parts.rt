ghost use Rattle.std.specs.Prelude.{◌≡◌, ◌+◌, ◌*◌, ◌^◌, ◌≤◌, ◌<◌, filter, length, nat_le, ◌⊎◌, Ok, Err, IfOk, IfErr};
ghost use Rattle.rv_isa.specs.PerKind.{for_each};
ghost use Rattle.rv_front.specs.FetchBuffer.{FetchesInto};
ghost use Rattle.rv_front.specs.Guide.{answers_of};
ghost use Rattle.rv_rob.specs.ReorderBuffer.{cut_from};
ghost use Rattle.rv_rename.specs.Renaming.{cleared};
ghost use Rattle.rv_stations.specs.Pool.{squashed as squashed_pool};
ghost use Rattle.rv_stores.specs.Store.{is_committed};
ghost use Rattle.rv_units.specs.Bus.{squashed as squashed_bus};
ghost use Rattle.rv_hardware.specs.Run.{Reachable};
ghost use Rattle.rv_hardware.specs.Reset.{reset_hardware};
ghost use Rattle.rv_hardware.specs.Squash.{flushed};
ghost use Rattle.rv_watch.specs.Progress.{IsCommitStop};
ghost use Rattle.rv_core.specs.Steps.{HasRoom};
ghost use Rattle.rv_core.specs.Reported.{TakesCycle};

use crate::outcome::CycleEnd;
use crate::steps::Steps;
use rv_arch::Csrs;
use rv_cache::Cache;
use rv_front::{FetchStop, Front, Predictor};
use rv_isa::{Description, Image, Lines, Values};
use rv_memory::{Ram, StaleMap};
use rv_rename::RenameMap;
use rv_rob::Rob;
use rv_stations::Stations;
use rv_stores::StoreQueue;
use rv_units::{Bus, Units};
use std::alloc::{AllocError, Global};
use std::marker::Model;

/// The parts of the core, which the seven phases move data between.
#[derive(Drop)]
pub(crate) struct Parts {
    pub(crate) values: Values,
    pub(crate) pc: u32,
    pub(crate) registers: [u32; 32],
    pub(crate) csrs: Csrs,
    pub(crate) stale: StaleMap,
    pub(crate) cache: Cache<Ram>,
    pub(crate) stores: StoreQueue,
    // The first cycle in which the cache's port is idle.
    pub(crate) port_free: u64,
    pub(crate) units: Units,
    pub(crate) stations: Stations,
    pub(crate) bus: Bus,
    pub(crate) rename: RenameMap,
    pub(crate) rob: Rob,
    pub(crate) front: Front,
    pub(crate) cycle: u64,
    pub(crate) lines: Lines,
}

impl Model for Parts {
    ghost use Rattle.rv_hardware.specs.Hardware.{Hardware};
    ghost use Rattle.rv_hardware.proofs.HardwareCode.{hardware_code};

    ghost Value = { Hardware };

    ghost coded = { hardware_code };

    ghost use Rattle.rv_core.specs.Parts.{hardware_of, IsSound};

    ghost view = { hardware_of };

    ghost invariant = { IsSound };
}

impl Parts {
    /// The described parts at reset, with an image at the front of RAM.
    pub(crate) fn new(
        alloc: Global,
        description: &Description,
        image: &Image,
    ) -> Result<Box<Parts>, AllocError>
        requires { length image.now.bytes ≤ description.now.ram_size }
        ensures { IfOk result (λ parts. parts.value ≡ reset_hardware description.now image.now.bytes image.now.start) }
    {
        let values = description.values();
        let memory = all_three(
            Front::new(alloc, description, image.start),
            cache_at_reset(alloc, description, image),
            StaleMap::new(alloc, values.ram_base, values.ram_size),
        );
        let buffers = all_three(
            Rob::new(alloc, description),
            RenameMap::new(alloc, description),
            StoreQueue::new(alloc, description),
        );
        let execution = all_three(
            Stations::new(alloc, description),
            Units::new(alloc, description),
            Bus::new(alloc, description),
        );
        let ((front, cache, stale), (rob, rename, stores), (stations, units, bus)) = all_three(
            memory, buffers, execution,
        )?;
        let parts = Parts {
            values,
            pc: image.start,
            registers: [0; 32],
            csrs: Csrs::reset(),
            stale,
            cache,
            stores,
            port_free: 0,
            units,
            stations,
            bus,
            rename,
            rob,
            front,
            cycle: 0,
            lines: Lines::default(),
        };
        Ok(Box::new(alloc, parts)?)
    }

    /// Does one cycle: its seven phases, in order.
    pub(crate) fn advance(
        &mut self,
        lines: Lines,
        predictor: &mut dyn Predictor,
        steps: &mut Steps,
    ) -> CycleEnd
        requires cycles { self.old.cycle < 2 ^ 40 }
        requires numbers { self.old.rob.retired ≤ 8 * self.old.cycle }
        requires room { HasRoom steps.old 8 }
        requires reached { Reachable self.old }
        ensures cycle { TakesCycle lines self.old (known predictor.old) self.new (known predictor.new)
            steps.old steps.new result }
        ensures stop { IsCommitStop result.stop }
        ensures numbers { self.new.rob.retired ≤ 8 * self.new.cycle }
    {
        let cycle = self.cycle;
        self.lines = lines;
        let stop = self.commit(predictor, steps);
        self.drain();
        self.issue();
        // A result is broadcast after the instructions of its cycle were issued.
        self.broadcast();
        let (dispatched, stall) = self.dispatch();
        self.fetch(predictor);
        self.cycle = cycle + 1;
        CycleEnd {
            dispatched,
            stall,
            stop,
        }
    }

    /// Fetch: words are read along the predicted pcs, from RAM past the cache. Returns why it stopped.
    fn fetch(&mut self, predictor: &dyn Predictor) -> FetchStop
        ensures fetched { FetchesInto (answers_of (known predictor.now)) self.old.cache.backing self.old.cycle
            self.old.front self.new.front result }
        ensures others { self.new ≡ record self.old { front = self.new.front } }
    {
        self.front
            .fetch(self.cycle, self.cache.backing(), predictor)
    }

    /// Whether the cache's port is idle in this cycle.
    pub(crate) fn is_port_idle(&self) -> bool
        ensures { result ≡ nat_le self.now.port_free self.now.cycle }
    {
        self.port_free <= self.cycle
    }

    /// Squashes everything in flight, and begins to fetch anew at the committed pc.
    pub(crate) fn flush(&mut self)
        ensures { self.new ≡ flushed self.old }
    {
        squash_all(
            &mut self.rob,
            &mut self.stations,
            &mut self.bus,
            &mut self.rename,
            &mut self.stores,
        );
        self.front.redirect(self.pc);
    }
}

/// Leaves nothing in flight: no entry, no waiting instruction, no result, no producer, and no store but the retired ones.
pub(crate) fn squash_all(
    rob: &mut Rob,
    stations: &mut Stations,
    bus: &mut Bus,
    rename: &mut RenameMap,
    stores: &mut StoreQueue,
)
    ensures rob { rob.new ≡ cut_from 0 rob.old }
    ensures stations { stations.new ≡ for_each (squashed_pool 0) stations.old }
    ensures bus { bus.new ≡ squashed_bus 0 bus.old }
    ensures rename { rename.new ≡ cleared rename.old }
    ensures stores { stores.new ≡ record stores.old { stores = filter is_committed stores.old.stores } }
{
    rob.cut(0);
    stations.squash(0);
    bus.squash(0);
    rename.clear();
    stores.squash_uncommitted();
}

// The cache over RAM with an image at its front.
fn cache_at_reset(
    alloc: Global,
    description: &Description,
    image: &Image,
) -> Result<Cache<Ram>, AllocError>
    requires { length image.now.bytes ≤ description.now.ram_size }
    ensures { IfOk result (λ cache. cache ≡ (reset_hardware description.now image.now.bytes image.now.start).cache) }
{
    let values = description.values();
    let mut ram = Ram::new(alloc, values.ram_base, values.ram_size, values.rom_bytes)?;
    ram.load(image.bytes.as_slice());
    Cache::new(alloc, ram, values.ram_base, description)
}

// Three parts, where there was memory for each: a caller that makes them owns none of them at an exit.
fn all_three<A: Drop, B: Drop, C: Drop>(
    first: Result<A, AllocError>,
    second: Result<B, AllocError>,
    third: Result<C, AllocError>,
) -> Result<(A, B, C), AllocError>
    ensures made { IfOk result (λ parts. (first ≡ Ok parts.0) × (second ≡ Ok parts.1) × (third ≡ Ok parts.2)) }
    ensures refused { IfErr result (λ e. (first ≡ Err e) ⊎ ((second ≡ Err e) ⊎ (third ≡ Err e))) }
{
    Ok((first?, second?, third?))
}
