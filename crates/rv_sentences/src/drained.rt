/// A drain that began.
#[derive(Clone, Copy)]
pub struct Drained {
    /// The word of its store.
    pub word: u32,
    /// What it costs, in cycles.
    pub cost: u64,
}
