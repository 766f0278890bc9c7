ghost use Rattle.std.specs.Prelude.{◌≡◌, ◌+◌, ◌*◌, ◌≤◌, ◌<◌, ◌^◌};
ghost use Rattle.rv_counts.specs.Wait.{with_wait};

use std::marker::Model;

/// The waits of instructions between two stages, in cycles.
#[derive(Drop)]
pub struct Wait {
    count: u64,
    total: u128,
    most: u64,
}

impl Model for Wait {
    ghost use Rattle.rv_counts.specs.Wait.{Waited};

    ghost Value = { Waited };

    ghost view = { λ wait. record { count = wait.count; total = wait.total; most = wait.most } };

    ghost use Rattle.std.specs.Prelude.{◌*◌, ◌≤◌, ◌<◌, ◌^◌};

    ghost invariant = { λ wait. (wait.count < 2 ^ 50) × (wait.total ≤ wait.count * 2 ^ 64) };
}

impl Wait {
    /// No wait.
    pub(crate) fn new() -> Wait
        ensures { result ≡ record { count = 0; total = 0; most = 0 } }
    {
        Wait {
            count: 0,
            total: 0,
            most: 0,
        }
    }

    /// How many waits there were.
    pub fn count(&self) -> u64
        ensures count { result ≡ self.now.count }
        ensures few { result < 2 ^ 50 }
    {
        self.count
    }

    /// Their sum.
    pub fn total(&self) -> u128
        ensures total { result ≡ self.now.total }
        ensures within { result ≤ self.now.count * 2 ^ 64 }
        ensures few { self.now.count < 2 ^ 50 }
    {
        self.total
    }

    /// The greatest of them, 0 of none.
    pub fn most(&self) -> u64
        ensures { result ≡ self.now.most }
    {
        self.most
    }

    /// Counts one more wait, if there was one.
    pub(crate) fn add(&mut self, cycles: Option<u64>)
        requires room { self.old.count + 1 < 2 ^ 50 }
        ensures { self.new ≡ with_wait cycles self.old }
    {
        if let Some(cycles) = cycles {
            self.count += 1;
            self.total += u128::from(cycles);
            self.most = cycles.max(self.most);
        }
    }
}
