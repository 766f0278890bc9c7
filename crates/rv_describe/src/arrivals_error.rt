ghost use Rattle.std.specs.Prelude.{◌≡◌};
ghost use Rattle.rv_describe.specs.Entries.{entry_of, field_of};
ghost use Rattle.rv_describe.specs.FaultName.{arrivals_kind};

use crate::field::Field;
use std::error::Error;
use std::fmt;

/// Why a list of arrivals was refused. A fault that stands earlier here is found first, over the
/// whole text; entries are counted from 1, and the first with such a fault is named.
#[derive(Clone, Copy, Debug, PartialEq, Eq)]
pub enum ArrivalsError {
    /// The bytes are no UTF-8, or no TOML document.
    NotToml,
    /// A name beside `arrival`, or a field beside `cycle`, `line` and `level`.
    UnknownKey,
    /// An entry that is no table, lacks `cycle` or `line`, or has a field of another type, and the first such field. Entry 1 and no
    /// field where `arrival` is no array.
    WrongKind { entry: usize, field: Option<Field> },
    /// An entry whose cycle, line or level is not one of those allowed, and the first such field; or the one after the 100,000th,
    /// and no field.
    OutOfRange { entry: usize, field: Option<Field> },
    /// An entry with a cycle below that of the one before.
    Unsorted { entry: usize },
    /// Memory was refused.
    Memory,
}

impl ArrivalsError {
    /// The number of the entry at fault, from 1; 0 where the fault names no entry.
    pub fn entry(self) -> usize
        ensures { result ≡ entry_of self }
    {
        match self {
            ArrivalsError::WrongKind { entry, .. }
            | ArrivalsError::OutOfRange { entry, .. }
            | ArrivalsError::Unsorted { entry } => entry,
            _ => 0,
        }
    }

    /// The field at fault of that entry, and `cycle` where the cycles fall. `None` where no field is at fault but the list.
    pub fn field(self) -> Option<Field>
        ensures { result ≡ field_of self }
    {
        match self {
            ArrivalsError::WrongKind { field, .. } | ArrivalsError::OutOfRange { field, .. } =>
                field,
            ArrivalsError::Unsorted { .. } => Some(Field::Cycle),
            _ => None,
        }
    }

    /// The fault's name, and a space where the number of an entry stands after it.
    #[tactic(auto, unfolding(crate::specs::FaultName::arrivals_kind))]
    pub fn kind(self) -> &'static str
        ensures { result.now ≡ arrivals_kind self }
    {
        match self {
            ArrivalsError::NotToml => "NotToml",
            ArrivalsError::UnknownKey => "UnknownKey",
            ArrivalsError::WrongKind { .. } => "WrongKind ",
            ArrivalsError::OutOfRange { .. } => "OutOfRange ",
            ArrivalsError::Unsorted { .. } => "Unsorted ",
            ArrivalsError::Memory => "Memory",
        }
    }
}

impl fmt::Display for ArrivalsError {
    ghost use Rattle.std.specs.Prelude.{Some};
    ghost use Rattle.rv_describe.specs.FaultName.{arrivals_fault_text};

    ghost output = { λ error. Some (arrivals_fault_text error) };

    #[tactic(auto, unfolding(crate::specs::FaultName::number_text))]
    fn fmt<W: fmt::Write>(&self, f: &mut fmt::Formatter<W>) -> fmt::Result {
        match self {
            ArrivalsError::WrongKind { entry, .. }
            | ArrivalsError::OutOfRange { entry, .. }
            | ArrivalsError::Unsorted { entry } => write!(f, "{}{entry}", self.kind()),
            _ => f.write_str(self.kind()),
        }
    }
}

impl Error for ArrivalsError {}
