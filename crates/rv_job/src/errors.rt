ghost use Rattle.std.specs.Prelude.{◌≡◌};
ghost use Rattle.rv_job.specs.Fault.{what_failed};

use rv_asm::AsmError;
use rv_describe::{ArrivalsError, DescriptionError};
use rv_text::ReportError;
use std::alloc::AllocError;
use std::error::Error;
use std::fmt;

/// Why a job or a comparison was refused, or what was asked of it was not done.
#[derive(Clone, Copy, Debug, PartialEq, Eq)]
pub enum SimError {
    /// The text has more than 33,554,432 bytes.
    TooLong,
    /// More than 64 descriptions are to be compared.
    TooManyDescriptions,
    /// The fault of the description.
    Description(DescriptionError),
    /// The fault of one of several descriptions that are compared, with its number, from 1.
    Described {
        number: usize,
        error: DescriptionError,
    },
    /// The fault of the arrivals.
    Arrivals(ArrivalsError),
    /// The first fault of the assembly.
    Assembly(AsmError),
    /// The image is longer than the RAM that is described, or its start is no multiple of 4: how many bytes each has.
    ImageDoesNotFit {
        bytes: usize,
        ram: u32,
    },
    /// The same of one of several descriptions that are compared, with its number, from 1.
    DoesNotFit {
        number: usize,
    },
    /// Memory was refused.
    Memory,
    /// A write answered an error, or took nothing.
    WriteFailed,
}

impl SimError {
    /// What failed, and a space where the number of a description stands after it.
    #[tactic(auto, unfolding(crate::specs::Fault::what_failed))]
    pub(crate) fn what_failed(self) -> &'static str
        ensures { result.now ≡ what_failed self }
    {
        match self {
            SimError::TooLong => "job too long",
            SimError::TooManyDescriptions => "too many descriptions",
            SimError::Description(_) => "description",
            SimError::Described { .. } => "description ",
            SimError::Arrivals(_) => "arrivals",
            SimError::Assembly(_) => "assembly",
            SimError::ImageDoesNotFit { .. } => "image does not fit",
            SimError::DoesNotFit { .. } => "image does not fit description ",
            SimError::Memory => "memory",
            SimError::WriteFailed => "output",
        }
    }
}

impl fmt::Display for SimError {
    ghost use Rattle.std.specs.Prelude.{Some};
    ghost use Rattle.rv_job.specs.Fault.{error_text};

    ghost output = { λ error. Some (error_text error) };

    #[tactic(auto, unfolding(crate::specs::Fault::number_text))]
    fn fmt<W: fmt::Write>(&self, f: &mut fmt::Formatter<W>) -> fmt::Result {
        match self {
            SimError::Described { number, .. } | SimError::DoesNotFit { number } => {
                write!(f, "{}{number}", self.what_failed())
            }
            _ => f.write_str(self.what_failed()),
        }
    }
}

impl Error for SimError {}

impl From<AllocError> for SimError {
    ghost use Rattle.rv_job.specs.declared.errors.SimError.TheVariants.{Memory};

    ghost from_gives = { λ _ e. e ≡ Memory };

    fn from(_error: AllocError) -> SimError {
        SimError::Memory
    }
}

impl From<ReportError> for SimError {
    ghost use Rattle.rv_job.specs.declared.errors.SimError.TheVariants.{WriteFailed};

    ghost from_gives = { λ _ e. e ≡ WriteFailed };

    fn from(_error: ReportError) -> SimError {
        SimError::WriteFailed
    }
}
