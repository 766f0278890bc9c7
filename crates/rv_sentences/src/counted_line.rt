/// The greatest of some counts, and its place among them.
#[derive(Clone, Copy)]
pub struct Greatest {
    /// Of the first count it is 0.
    pub place: usize,
    /// The count.
    pub count: u64,
}

/// A line of a program, or a word that comes from none, and how much is counted there.
#[derive(Clone, Copy, Default)]
pub struct CountedLine {
    /// The address of its first word.
    pub address: u32,
    /// How much is counted there.
    pub count: u64,
}
