/// An interrupt line of the hart (Privileged Architecture 20211203, 3.1.9).
#[derive(Clone, Copy)]
pub enum Line {
    Software,
    Timer,
    External,
}

/// The levels of the three interrupt lines.
#[derive(Clone, Copy, Default, PartialEq, Eq)]
pub struct Lines {
    pub software: bool,
    pub timer: bool,
    pub external: bool,
}

/// A change of one interrupt line.
#[derive(Clone, Copy)]
pub struct Arrival {
    /// The first cycle in which the line has the level; a step number on the one-at-a-time machine.
    pub cycle: u64,
    pub line: Line,
    pub level: bool,
}
