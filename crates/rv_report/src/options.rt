/// How long a run may be, and what its report shows.
#[derive(Clone, Copy)]
pub struct Options {
    /// Whether a report of the core begins with a line for each step. The reference's has none.
    pub trace: bool,
    /// The most steps of the reference, or cycles of the core.
    pub limit: u64,
    /// The address of the first word of memory that the report shows.
    pub dump_address: u32,
    /// How many words of memory the report shows.
    pub dump_words: u32,
}
