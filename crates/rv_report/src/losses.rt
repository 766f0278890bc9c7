use crate::events::Events;
use crate::shown::Columns;
use crate::totals::Totals;
use rv_counts::RunPlaces;

/// What a run of the core lost cycles to.
#[derive(Clone, Copy, PartialEq, Eq)]
pub struct Losses {
    /// Branches and jumps that retired, and after which the program did not go on where that was predicted at their fetch.
    pub mispredicted: u64,
    /// Fetched instructions that were squashed.
    pub squashed: u64,
}

/// A run of the core, as a table compares it with others.
#[derive(Clone, Copy)]
pub struct ComparedRun {
    /// Its counts, and why it ended.
    pub totals: Totals,
    /// What it lost cycles to.
    pub losses: Losses,
    /// What it did besides.
    pub events: Events,
    /// The words that the table shows of the state at its end.
    pub words: Columns<Option<u32>>,
    /// What became of its places for dispatch, where the table shows it.
    pub places: Option<RunPlaces>,
}
