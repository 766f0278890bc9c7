/// The start of an execution: the instruction leaves its reservation station for a unit.
#[derive(Clone, Copy, PartialEq, Eq)]
pub struct Issue {
    /// The cycle of the start.
    pub cycle: u64,
    /// From the start to the first cycle in which the result can be broadcast.
    pub cost: u32,
}
