use rv_isa::Cause;

/// A trap that is no breakpoint.
#[derive(Clone, Copy)]
pub struct Exception {
    /// The address of the instruction that trapped, or whose fetch did.
    pub pc: u32,
    /// Its cause.
    pub cause: Cause,
    /// What `mtval` got.
    pub value: u32,
    /// The cycle in which it was taken.
    pub cycle: u64,
    /// What `mtvec` holds after the cycle.
    pub mtvec: u32,
    /// The pc after the cycle.
    pub next_pc: u32,
}
