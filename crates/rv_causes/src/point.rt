ghost use Rattle.std.specs.Prelude.{◌≡◌};
ghost use Rattle.rv_causes.specs.Point.{is_point, stage_place};

use crate::cause::Cause;

/// What an event is: what an instruction came to, or the hardware beside it.
#[derive(Clone, Copy)]
pub(crate) enum Stage {
    /// The beginning of the run.
    Begin,
    Fetch,
    Dispatch,
    Issue,
    Broadcast,
    /// A retirement or a trap.
    Commit,
    /// The start of a drain.
    Drain,
    /// The start of a write-back of lines.
    Lines,
    Interrupt,
    /// The end of the run.
    End,
}

impl Stage {
    fn place(self) -> u8
        ensures { result ≡ stage_place self }
    {
        match self {
            Stage::Begin => 0,
            Stage::Fetch => 1,
            Stage::Dispatch => 2,
            Stage::Issue => 3,
            Stage::Broadcast => 4,
            Stage::Commit => 5,
            Stage::Drain => 6,
            Stage::Lines => 7,
            Stage::Interrupt => 8,
            Stage::End => 9,
        }
    }
}

/// Which event of a run one is, by the number of the instruction; that of a drain or an interrupt is the cycles of the
/// run before it.
#[derive(Clone, Copy)]
pub struct Point {
    pub(crate) stage: Stage,
    pub number: u64,
}

impl Point {
    /// Whether two are the same event. Mostly their numbers differ.
    #[inline(always)]
    pub(crate) fn is(&self, other: &Point) -> bool
        ensures { result ≡ is_point self.now other.now }
    {
        self.number == other.number && self.stage.place() == other.stage.place()
    }
}

/// On whose account cycles are: their cause, and the address of the instruction that waited, or that sent the fetch elsewhere.
#[derive(Clone, Copy)]
pub(crate) struct Reason {
    pub(crate) cause: Cause,
    pub(crate) address: Option<u32>,
}
