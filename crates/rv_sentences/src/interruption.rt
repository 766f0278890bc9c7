/// An interrupt that was taken.
#[derive(Clone, Copy)]
pub struct Interruption {
    /// The address of the instruction that it came before.
    pub pc: u32,
    /// What `mcause` got.
    pub cause: u32,
    /// The cycle in which it was taken.
    pub cycle: u64,
}
