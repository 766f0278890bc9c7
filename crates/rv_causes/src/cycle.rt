use crate::before::Facts;
use rv_hardware::Step;
use rv_isa::Values;
use rv_passage::Passage;
use rv_rob::Rob;

/// What is read of the hardware after a cycle.
#[derive(Clone, Copy)]
pub struct After<'a> {
    /// What it shows of its stores and its port.
    pub facts: Facts,
    /// Its reorder buffer.
    pub rob: &'a Rob,
}

/// What is read of a cycle.
#[derive(Clone, Copy)]
pub struct Cycle<'a> {
    /// Its number.
    pub number: u64,
    /// How many there were before it in the run.
    pub elapsed: u64,
    /// What the description says.
    pub values: &'a Values,
    /// The instructions that were in flight before it or fetched in it, in order of fetch, as they stand at its end.
    pub rows: &'a [Passage],
    /// Its steps.
    pub steps: &'a [Step],
    /// The hardware that it left.
    pub after: After<'a>,
}
