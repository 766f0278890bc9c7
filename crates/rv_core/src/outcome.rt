use arrayvec::ArrayVec;
use rv_arch::Stop;
use rv_hardware::{Stall, StallCounts, Step};

/// What a cycle did.
#[derive(Drop)]
pub struct CycleReport {
    /// The steps in program order.
    pub steps: ArrayVec<Step, 8>,
    /// How many instructions were dispatched.
    pub dispatched: u32,
    /// What the first instruction that waited, waited for, where none was dispatched.
    pub stall: Option<Stall>,
    /// Why a run stops with this cycle, if it does.
    pub stop: Option<Stop>,
}

/// What a cycle did beside its steps.
#[derive(Clone, Copy)]
pub(crate) struct CycleEnd {
    pub(crate) dispatched: u32,
    pub(crate) stall: Option<Stall>,
    pub(crate) stop: Option<Stop>,
}

/// What a run did.
#[derive(Drop)]
pub struct Outcome {
    /// The steps in program order.
    pub steps: Vec<Step>,
    /// The cycles that dispatched nothing, by the reason.
    pub stalls: StallCounts,
    /// The cycles that dispatched something.
    pub busy: u64,
    /// The cycles done.
    pub cycles: u64,
    /// The greatest number of consecutive cycles without a step.
    pub longest_gap: u64,
    /// Why the run ended.
    pub stop: Stop,
}
