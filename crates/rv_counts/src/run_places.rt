ghost use Rattle.std.specs.Prelude.{◌≡◌, ◌+◌, ◌<◌, ◌^◌, length};
ghost use Rattle.rv_counts.specs.Places.{CanPlace, all_places, cycle_total, no_places, place_counts};
ghost use Rattle.rv_counts.specs.Places.{placed_after, with_cycle, with_lost, with_squashed};

use crate::cycle_places::places_by;
use rv_front::Front;
use rv_hardware::Step;
use rv_isa::{Kind, PerKind, Values};
use rv_rob::Rob;

/// What squashes instructions.
#[derive(Clone, Copy)]
pub enum Flush {
    /// A wrong prediction of a branch or a jump.
    Prediction,
    /// A serialising instruction that retires.
    Serialising,
    /// A trap.
    Trap,
    /// An interrupt.
    Interrupt,
}

/// Why a place is lost: what the next instruction waits for.
#[derive(Clone, Copy)]
pub enum Loss {
    /// There is none: fetch gave no word.
    Fetch,
    /// A serialising instruction is in flight.
    Serial,
    /// The reorder buffer is full.
    Rob,
    /// The stations of its kind are full.
    Station(Kind),
    /// The store queue is full, for a store.
    Store,
}

/// The places of a cycle, in which instructions can be dispatched, and what left the reorder buffer in it.
#[derive(Clone, Copy)]
pub struct CyclePlaces {
    /// The instructions that retired in it.
    pub retired: u64,
    /// Those that trapped in it.
    pub trapped: u64,
    /// Those that were squashed in it after their dispatch.
    pub squashed: u64,
    /// By what they were.
    pub flush: Flush,
    /// Its places in which nothing was dispatched.
    pub lost: u64,
    /// Why.
    pub loss: Loss,
}

/// Instructions that were squashed after their dispatch, by what squashed them.
#[derive(Clone, Copy)]
pub struct Squashed {
    /// By wrong predictions.
    pub predictions: u64,
    /// By serialising instructions.
    pub serialising: u64,
    /// By traps.
    pub traps: u64,
    /// By interrupts.
    pub interrupts: u64,
}

/// Places in which nothing was dispatched, by the reason.
#[derive(Clone, Copy)]
pub struct Lost {
    /// Fetch gave no word.
    pub fetch: u64,
    /// A serialising instruction was in flight.
    pub serial: u64,
    /// The reorder buffer was full.
    pub rob: u64,
    /// The stations of a kind were full.
    pub stations: PerKind<u64>,
    /// The store queue was full.
    pub store: u64,
}

/// What became of the places of some cycles.
#[derive(Clone, Copy)]
pub struct Places {
    /// Those of instructions that retired.
    pub retired: u64,
    /// Those of instructions that trapped.
    pub trapped: u64,
    /// Those of instructions that were squashed.
    pub squashed: Squashed,
    /// Those in which nothing was dispatched.
    pub lost: Lost,
}

/// What became of the places of a run so far.
#[derive(Clone, Copy)]
pub struct RunPlaces {
    /// Those of what left the reorder buffer, and those that were lost.
    pub places: Places,
    /// The instructions in the reorder buffer, of whose places it is open what becomes.
    pub in_flight: usize,
}

impl Squashed {
    fn add(&mut self, flush: Flush, count: u64)
        requires predictions { self.old.predictions + count < 2 ^ 64 }
        requires serialising { self.old.serialising + count < 2 ^ 64 }
        requires traps { self.old.traps + count < 2 ^ 64 }
        requires interrupts { self.old.interrupts + count < 2 ^ 64 }
        ensures { self.new ≡ with_squashed flush count self.old }
    {
        match flush {
            Flush::Prediction => self.predictions += count,
            Flush::Serialising => self.serialising += count,
            Flush::Trap => self.traps += count,
            Flush::Interrupt => self.interrupts += count,
        }
    }
}

impl Lost {
    fn add(&mut self, loss: Loss, count: u64)
        requires fetch { self.old.fetch + count < 2 ^ 64 }
        requires serial { self.old.serial + count < 2 ^ 64 }
        requires rob { self.old.rob + count < 2 ^ 64 }
        requires alu { self.old.stations.alu + count < 2 ^ 64 }
        requires mul { self.old.stations.mul + count < 2 ^ 64 }
        requires div { self.old.stations.div + count < 2 ^ 64 }
        requires mem { self.old.stations.mem + count < 2 ^ 64 }
        requires store { self.old.store + count < 2 ^ 64 }
        ensures { self.new ≡ with_lost loss count self.old }
    {
        match loss {
            Loss::Fetch => self.fetch += count,
            Loss::Serial => self.serial += count,
            Loss::Rob => self.rob += count,
            Loss::Station(Kind::Alu) => self.stations.alu += count,
            Loss::Station(Kind::Mul) => self.stations.mul += count,
            Loss::Station(Kind::Div) => self.stations.div += count,
            Loss::Station(Kind::Mem) => self.stations.mem += count,
            Loss::Store => self.store += count,
        }
    }
}

impl Places {
    /// Of no cycle.
    pub const NONE: Places = Places {
        retired: 0,
        trapped: 0,
        squashed: Squashed {
            predictions: 0,
            serialising: 0,
            traps: 0,
            interrupts: 0,
        },
        lost: Lost {
            fetch: 0,
            serial: 0,
            rob: 0,
            stations: PerKind {
                alu: 0,
                mul: 0,
                div: 0,
                mem: 0,
            },
            store: 0,
        },
    };

    /// Adds those of one more cycle.
    pub fn add(&mut self, cycle: &CyclePlaces)
        requires room { all_places self.old + cycle_total cycle.now < 2 ^ 64 }
        ensures { self.new ≡ with_cycle cycle.now self.old }
    {
        self.retired += cycle.retired;
        self.trapped += cycle.trapped;
        self.squashed.add(cycle.flush, cycle.squashed);
        self.lost.add(cycle.loss, cycle.lost);
    }

    /// Of how many places each became that, where so many instructions are in flight at the end: those of what retired,
    /// trapped, and was squashed by wrong predictions, serialising instructions, traps and interrupts; those in flight;
    /// and those lost since fetch gave no word, since a serialising instruction was in flight, and to a full reorder
    /// buffer, full stations of each kind and a full store queue.
    pub fn counts(&self, in_flight: u64) -> [u64; 15]
        ensures { result ≡ place_counts in_flight self.now }
    {
        let squashed = &self.squashed;
        let lost = &self.lost;
        [
            self.retired,
            self.trapped,
            squashed.predictions,
            squashed.serialising,
            squashed.traps,
            squashed.interrupts,
            in_flight,
            lost.fetch,
            lost.serial,
            lost.rob,
            lost.stations.alu,
            lost.stations.mul,
            lost.stations.div,
            lost.stations.mem,
            lost.store,
        ]
    }
}

impl RunPlaces {
    /// Of no cycle, by the reorder buffer before the first one.
    pub fn begin(rob: &Rob) -> RunPlaces
        ensures places { result.places ≡ no_places }
        ensures in_flight { result.in_flight ≡ length rob.now.entries }
    {
        RunPlaces {
            places: Places::NONE,
            in_flight: rob.len(),
        }
    }

    /// With one more cycle of a described machine, by its number, its steps and the buffers that it left.
    pub fn with_cycle(
        self,
        values: &Values,
        cycle: u64,
        steps: &[Step],
        rob: &Rob,
        front: &Front,
    ) -> RunPlaces
        requires { CanPlace values.now cycle steps.now rob.now front.now self }
        ensures { result ≡ placed_after values.now cycle steps.now rob.now front.now self }
    {
        let mut places = self.places;
        places.add(&places_by(values, cycle, self.in_flight, steps, rob, front));
        RunPlaces {
            places,
            in_flight: rob.len(),
        }
    }
}
