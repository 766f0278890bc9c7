use rv_arch::Stop;

/// How a picture is written.
#[derive(Clone, Copy)]
pub enum Form {
    /// Lines of characters, for a terminal.
    Text,
    /// One SVG.
    Svg,
}

/// Which instructions have a row in a picture, of those that were in the core.
#[derive(Clone, Copy)]
pub enum Rows {
    /// All.
    All,
    /// All but those that were squashed.
    Unsquashed,
}

/// What a picture shows of a run, and how it is written.
#[derive(Clone, Copy)]
pub struct View {
    /// How it is written.
    pub form: Form,
    /// Which rows it has.
    pub rows: Rows,
    /// The first cycle that it shows.
    pub from: u64,
    /// How many cycles it shows at most.
    pub cycles: u64,
}

/// How the run of a picture ended.
#[derive(Clone, Copy, PartialEq, Eq)]
pub struct RunEnd {
    /// Why it ended.
    pub stop: Stop,
    /// After how many cycles it ended, where that was before those of the picture.
    pub over: Option<u64>,
}
