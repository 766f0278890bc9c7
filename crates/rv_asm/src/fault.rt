ghost use Rattle.std.specs.Prelude.{◌≡◌, ◌≢◌};
ghost use Rattle.rv_asm.specs.FaultName.{fault_name};

use std::alloc::{AllocError, AllocFailed};
use std::error::Error;
use std::fmt;

/// What is wrong with a text, in the order of the two passes.
#[derive(Clone, Copy, Debug, PartialEq, Eq)]
pub enum AsmFault {
    /// Bytes that are no token.
    BadToken,
    /// A statement that begins with no mnemonic or directive.
    UnknownMnemonic,
    /// A count or a shape of operands that the statement does not have.
    BadOperands,
    /// A name in a register's place that is no register.
    BadRegister,
    /// A symbol that was defined before.
    DuplicateSymbol,
    /// More text and data than `LIMIT` bytes.
    TooLarge,
    /// A symbol that the text does not define.
    UnknownSymbol,
    /// A value or a distance outside its field's range.
    OutOfRange,
    /// An instruction or a start at no multiple of 4, or an odd distance.
    Misaligned,
    /// Memory was refused.
    Memory,
}

impl AsmFault {
    /// The fault's name, as it is printed.
    #[tactic(auto, unfolding(crate::specs::FaultName::fault_name))]
    pub fn name(self) -> &'static str
        ensures { result.now ≡ fault_name self }
    {
        match self {
            AsmFault::BadToken => "BadToken",
            AsmFault::UnknownMnemonic => "UnknownMnemonic",
            AsmFault::BadOperands => "BadOperands",
            AsmFault::BadRegister => "BadRegister",
            AsmFault::DuplicateSymbol => "DuplicateSymbol",
            AsmFault::TooLarge => "TooLarge",
            AsmFault::UnknownSymbol => "UnknownSymbol",
            AsmFault::OutOfRange => "OutOfRange",
            AsmFault::Misaligned => "Misaligned",
            AsmFault::Memory => "Memory",
        }
    }
}

impl fmt::Display for AsmFault {
    ghost use Rattle.std.specs.Prelude.{Some};

    ghost output = { λ fault. Some (fault_name fault) };

    fn fmt<W: fmt::Write>(&self, f: &mut fmt::Formatter<W>) -> fmt::Result {
        f.write_str(self.name())
    }
}

impl Error for AsmFault {}

impl From<AllocError> for AsmFault {
    ghost use Rattle.rv_asm.specs.declared.fault.AsmFault.{AsmFault};

    ghost from_gives = { λ _ fault. fault ≡ AsmFault.Memory };

    fn from(_: AllocError) -> Self {
        AsmFault::Memory
    }
}

impl<T: Drop> From<AllocFailed<T>> for AsmFault {
    ghost use Rattle.rv_asm.specs.declared.fault.AsmFault.{AsmFault};

    ghost from_gives = { λ _ fault. fault ≡ AsmFault.Memory };

    fn from(_: AllocFailed<T>) -> Self {
        AsmFault::Memory
    }
}

/// The first fault of a text.
#[derive(Clone, Copy, Debug, PartialEq, Eq)]
pub struct AsmError {
    pub fault: AsmFault,
    /// The number of its line from 1; 0 where memory was refused.
    pub line: usize,
}

impl AsmError {
    /// A fault in a line. Out of memory belongs to no line.
    pub fn at(fault: AsmFault, line: usize) -> Self
        ensures fault { result.fault ≡ fault }
        ensures line { fault ≢ AsmFault.Memory → result.line ≡ line }
        ensures memory { fault ≡ AsmFault.Memory → result.line ≡ 0 }
    {
        match fault {
            AsmFault::Memory => AsmError { fault, line: 0 },
            _ => AsmError { fault, line },
        }
    }
}
