ghost use Rattle.std.specs.Prelude.{◌≡◌};
ghost use Rattle.rv_stores.specs.Queue.{oldest_to_drain};
ghost use Rattle.rv_hardware.specs.Drain.{drain, end_drain, start_drain};

use crate::parts::Parts;

impl Parts {
    /// Drain: a store whose access is over leaves the queue, and the oldest retired one goes into the cache, where the
    /// port is idle.
    pub(crate) fn drain(&mut self)
        ensures { self.new ≡ drain self.old }
    {
        if self.is_port_idle() {
            self.end_drain();
            self.start_drain();
        }
    }

    // The store whose access is over leaves the queue.
    fn end_drain(&mut self)
        ensures { self.new ≡ end_drain self.old }
    {
        self.stores.end_drain();
    }

    // The oldest retired store begins its access, where it has not begun it yet.
    fn start_drain(&mut self)
        ensures { self.new ≡ start_drain (oldest_to_drain self.old.committed) self.old }
    {
        if !self.stores.can_drain() {
            return;
        }
        let access = self.stores.start_drain();
        let cost = self.cache.write(access.address, access.bytes.as_slice());
        self.port_free = self.cycle + u64::from(cost);
    }
}
