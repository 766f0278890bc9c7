use rv_hardware::Step;
use rv_passage::Passage;
use rv_watch::{Progress, ShownHardware};

/// A cycle of a run, as a view is shown it.
#[derive(Clone, Copy)]
pub struct ShownCycle<'a> {
    /// Its number.
    pub number: u64,
    /// Its steps.
    pub steps: &'a [Step],
    /// The instructions that were in flight before it or fetched in it, in order of fetch, as they stand at its end.
    pub rows: &'a [Passage],
    /// The hardware that it left.
    pub hardware: &'a ShownHardware<'a>,
    /// The counts of the cycles so far, with it.
    pub progress: &'a Progress,
}
