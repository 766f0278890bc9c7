ghost use Rattle.std.specs.Prelude.{◌≡◌};
ghost use Rattle.rv_describe.specs.Fault.{place_of};
ghost use Rattle.rv_describe.specs.FaultName.{description_fault_name};

use std::error::Error;
use std::fmt;

/// Why a text is no description. The variants but `Memory` stand in the order in which they are
/// looked for, over the whole text; of one variant the first key is named. A place is a key's, from
/// 1, in the order of the keys; [`key_name`](crate::key_name) gives its text.
#[derive(Clone, Copy, Debug, PartialEq, Eq)]
pub enum DescriptionError {
    /// The bytes are no TOML document.
    NotToml,
    /// A name that is no key and no table of keys.
    UnknownKey,
    /// A value of a type that the key does not take, or a table of keys whose name holds none.
    WrongKind { place: usize },
    /// A number outside the key's range or no multiple of its unit, or a string that the key does
    /// not know.
    OutOfRange { place: usize },
    /// A number within the range of a key that takes powers of two alone.
    NotPowerOfTwo { place: usize },
    /// Memory was refused.
    Memory,
}

impl DescriptionError {
    /// The place of the key at fault, from 1; 0 where the fault names no key.
    pub fn place(self) -> usize
        ensures { result ≡ place_of self }
    {
        match self {
            DescriptionError::WrongKind { place }
            | DescriptionError::OutOfRange { place }
            | DescriptionError::NotPowerOfTwo { place } => place,
            _ => 0,
        }
    }

    /// The fault's name, as it is printed.
    #[tactic(auto, unfolding(crate::specs::FaultName::description_fault_name))]
    pub fn name(self) -> &'static str
        ensures { result.now ≡ description_fault_name self }
    {
        match self {
            DescriptionError::NotToml => "NotToml",
            DescriptionError::UnknownKey => "UnknownKey",
            DescriptionError::WrongKind { .. } => "WrongKind",
            DescriptionError::OutOfRange { .. } => "OutOfRange",
            DescriptionError::NotPowerOfTwo { .. } => "NotPowerOfTwo",
            DescriptionError::Memory => "Memory",
        }
    }
}

impl fmt::Display for DescriptionError {
    ghost use Rattle.std.specs.Prelude.{Some};

    ghost output = { λ error. Some (description_fault_name error) };

    fn fmt<W: fmt::Write>(&self, f: &mut fmt::Formatter<W>) -> fmt::Result {
        f.write_str(self.name())
    }
}

impl Error for DescriptionError {}
