ghost use Rattle.std.specs.Prelude.{◌≡◌, ◌<◌};

/// Why a cycle dispatched nothing: what the first instruction that waited, waited for.
#[derive(Clone, Copy, PartialEq, Eq)]
pub enum Stall {
    /// The fetch buffer is empty.
    Fetch,
    /// A serialising instruction is in flight.
    Serial,
    /// The reorder buffer is full.
    Rob,
    /// The reservation stations of its kind are full.
    Station,
    /// The store queue is full, for a store.
    Store,
}

static ALL: [Stall; 5] = [
    Stall::Fetch,
    Stall::Serial,
    Stall::Rob,
    Stall::Station,
    Stall::Store,
];

impl Stall {
    ghost use Rattle.rv_hardware.specs.Report.{all_stalls, is_same_stall, stall_name};

    /// The reasons, in the order in which they are shown.
    #[tactic(auto, unfolding(crate::specs::Report::all_stalls))]
    pub fn all() -> &'static [Stall]
        ensures { result.now ≡ all_stalls }
    {
        &ALL
    }

    /// What the reason is called.
    pub fn name(self) -> &'static str
        ensures { result.now ≡ stall_name self }
    {
        match self {
            Stall::Fetch => "fetch",
            Stall::Serial => "serial",
            Stall::Rob => "rob",
            Stall::Station => "station",
            Stall::Store => "store",
        }
    }

    /// Whether another reason is the same.
    pub fn is_same(self, other: Stall) -> bool
        ensures { result ≡ is_same_stall self other }
    {
        self == other
    }
}

/// How many cycles dispatched nothing, by the reason.
#[derive(Clone, Copy, Default, PartialEq, Eq)]
pub struct StallCounts {
    pub fetch: u64,
    pub serial: u64,
    pub rob: u64,
    pub station: u64,
    pub store: u64,
}

impl StallCounts {
    ghost use Rattle.rv_hardware.specs.Report.{count_of, counted, no_stalls};

    /// The counts of no cycle.
    pub fn new() -> StallCounts
        ensures { result ≡ no_stalls }
    {
        StallCounts {
            fetch: 0,
            serial: 0,
            rob: 0,
            station: 0,
            store: 0,
        }
    }

    /// The count of a reason.
    pub fn of(&self, stall: Stall) -> u64
        ensures { result ≡ count_of stall self.now }
    {
        match stall {
            Stall::Fetch => self.fetch,
            Stall::Serial => self.serial,
            Stall::Rob => self.rob,
            Stall::Station => self.station,
            Stall::Store => self.store,
        }
    }

    /// Counts one more cycle under a reason.
    pub fn count(&mut self, stall: Stall)
        requires { count_of stall self.old < u64.MAX }
        ensures { self.new ≡ counted stall self.old }
    {
        match stall {
            Stall::Fetch => self.fetch += 1,
            Stall::Serial => self.serial += 1,
            Stall::Rob => self.rob += 1,
            Stall::Station => self.station += 1,
            Stall::Store => self.store += 1,
        }
    }
}
