ghost use Rattle.std.specs.Prelude.{◌≡◌};
ghost use Rattle.rv_drawing.specs.Over.{over_of};
ghost use Rattle.rv_drawing.specs.Stopped.{is_stopped};

use rv_passage::Passage;

/// The cycles that a picture shows.
#[derive(Clone, Copy)]
pub struct Window {
    /// The number of the first of them.
    pub first: u64,
    /// How many they are.
    pub cycles: u64,
    /// The number of the instruction whose stale word ended the run in the last of them, if one did.
    pub stopped: Option<u64>,
}

impl Window {
    /// Whether the stale word of an instruction ended the run.
    pub(crate) fn is_stopped(self, row: &Passage) -> bool
        ensures { result ≡ is_stopped self row.now }
    {
        match self.stopped {
            Some(stopped) => stopped == row.number,
            None => false,
        }
    }

    /// After how many cycles the run ended, where that was before those of the window: it has none then.
    pub fn over(self) -> Option<u64>
        ensures { result ≡ over_of self }
    {
        if self.cycles == 0 {
            Some(self.first)
        } else {
            None
        }
    }
}
