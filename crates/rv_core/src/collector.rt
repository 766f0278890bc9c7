ghost use Rattle.std.specs.Prelude.{◌≡◌, ◌+◌, ◌≤◌, [], ◌++◌, length, vec_capacity, vec_len};

use rv_hardware::Step;
use rv_watch::{Progress, ShownHardware, Watcher};
use std::alloc::{AllocError, Global};
use std::io::Write;

/// The watcher that collects the steps of a run.
#[derive(Drop)]
pub(crate) struct Collector {
    /// The steps so far, in program order.
    pub(crate) steps: Vec<Step>,
}

impl Collector {
    pub(crate) fn new(alloc: Global) -> Collector
        ensures { result.steps.items ≡ [] }
    {
        Collector {
            steps: Vec::new(alloc),
        }
    }

    fn add(&mut self, steps: &[Step])
        requires room { vec_len self.old.steps + length steps.now ≤ vec_capacity self.old.steps }
        ensures { self.new.steps.items ≡ self.old.steps.items ++ steps.now }
    {
        self.steps.extend_from_slice(steps).unwrap();
    }
}

impl Watcher for Collector {
    ghost use Rattle.std.specs.Prelude.{◌≡◌, ◌+◌, ◌≤◌, vec_capacity, vec_len};
    ghost use Rattle.rv_hardware.specs.History.{reports_of};
    ghost use Rattle.rv_hardware.specs.Run.{steps_of};

    type Refusal = AllocError;

    ghost has_seen = { λ _ collector seen _ _. collector.steps.items ≡ steps_of (reports_of seen.moments) };

    ghost has_room = { λ collector. vec_len collector.steps + 8 ≤ vec_capacity collector.steps };

    fn make_room(&mut self) -> Result<(), AllocError> {
        self.steps.reserve(8)
    }

    fn see<W: Write>(
        &mut self,
        _: u64,
        steps: &[Step],
        _: &ShownHardware<'_>,
        _: &Progress,
        _: &mut W,
    ) {
        self.add(steps);
    }
}
