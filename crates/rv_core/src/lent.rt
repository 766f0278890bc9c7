ghost use Rattle.std.specs.Prelude.{◌≡◌};
ghost use Rattle.rv_hardware.specs.Run.{Reachable};

use crate::parts::Parts;
use rv_watch::ShownHardware;

impl Parts {
    /// Lends what is shown of the hardware.
    pub(crate) fn lent(&self) -> ShownHardware<'_>
        requires { Reachable self.now }
        ensures { result ≡ self.now }
    {
        ShownHardware {
            values: &self.values,
            pc: self.pc,
            registers: &self.registers,
            csrs: &self.csrs,
            lines: self.lines,
            stale: &self.stale,
            cache: &self.cache,
            stores: &self.stores,
            port_free: self.port_free,
            units: &self.units,
            rob: &self.rob,
            front: &self.front,
            cycle: self.cycle,
        }
    }
}
