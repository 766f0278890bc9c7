use crate::pipeline::Pipeline;
use crate::watching::watch;
use rv_front::Predictor;
use rv_hardware::Step;
use rv_isa::Arrivals;
use rv_watch::{Ended, ShownHardware, Simulated, Watcher};
use std::io::Write;

impl Simulated for Pipeline {
    ghost hardware = { λ pipeline. pipeline };

    fn is_exhausted(&self) -> bool {
        Pipeline::is_exhausted(self)
    }

    fn cycles_done(&self) -> u64 {
        Pipeline::cycles_done(self)
    }

    fn shown(&self) -> ShownHardware<'_> {
        self.lent()
    }

    fn watch<T: Watcher, W: Write>(
        &mut self,
        predictor: &mut dyn Predictor,
        arrivals: &Arrivals,
        limit: u64,
        steps: Vec<Step>,
        watcher: &mut T,
        output: &mut W,
    ) -> Ended<T::Refusal> {
        watch(self, predictor, arrivals, limit, steps, watcher, output)
    }
}
