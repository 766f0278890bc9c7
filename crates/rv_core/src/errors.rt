ghost use Rattle.std.specs.Prelude.{◌≡◌};

use rv_hardware::{StallCounts, Step};
use std::alloc::AllocError;
use std::error::Error;
use std::fmt;

/// Why no pipeline was made.
#[derive(Clone, Copy, Debug, PartialEq, Eq)]
pub enum NewError {
    /// Out of memory.
    Memory,
    /// The image's base is not that of RAM, its bytes do not fit into RAM, or its start is no multiple of 4.
    ImageDoesNotFit,
}

impl From<AllocError> for NewError {
    ghost use Rattle.rv_core.specs.declared.errors.NewError.TheVariants.{Memory};

    ghost from_gives = { λ _ error. error ≡ Memory };

    fn from(_: AllocError) -> Self {
        NewError::Memory
    }
}

impl fmt::Display for NewError {
    ghost use Rattle.std.specs.Prelude.{Some};
    ghost use Rattle.rv_core.specs.Refusal.{refusal_text};

    ghost output = { λ error. Some (refusal_text error) };

    #[tactic(auto, unfolding(crate::specs::Refusal::refusal_text))]
    fn fmt<W: fmt::Write>(&self, f: &mut fmt::Formatter<W>) -> fmt::Result {
        f.write_str(match self {
            NewError::Memory => "out of memory",
            NewError::ImageDoesNotFit => "image does not fit",
        })
    }
}

impl Error for NewError {}

/// A run that ended when out of memory, at the end of its last whole cycle: what it did up to there.
#[derive(Drop)]
pub struct OutOfMemory {
    /// The steps in program order.
    pub steps: Vec<Step>,
    /// The cycles that dispatched nothing, by the reason.
    pub stalls: StallCounts,
    /// The cycles that dispatched something.
    pub busy: u64,
    /// The cycles done.
    pub cycles: u64,
    /// The greatest number of consecutive cycles without a step.
    pub longest_gap: u64,
}
