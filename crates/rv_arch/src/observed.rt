use crate::csrs::Csrs;
use rv_isa::Lines;

/// What programs and reports see of a machine, but for its memory.
#[derive(Clone, Copy)]
pub struct Observed {
    /// The address of the next instruction.
    pub pc: u32,
    /// Registers x0 to x31.
    pub regs: [u32; 32],
    /// The control and status registers.
    pub csrs: Csrs,
    /// The levels of the interrupt lines in the last step or cycle, low before the first.
    pub lines: Lines,
}
