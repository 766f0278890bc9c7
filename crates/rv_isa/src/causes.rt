ghost use Rattle.std.specs.Prelude.{◌≡◌};

/// The cause of an exception, as `mcause` names it (Privileged Architecture 20211203, 3.1.15,
/// table 3.6).
#[derive(Clone, Copy, PartialEq, Eq)]
pub enum Cause {
    InstructionAddressMisaligned,
    InstructionAccessFault,
    IllegalInstruction,
    Breakpoint,
    LoadAddressMisaligned,
    LoadAccessFault,
    StoreAddressMisaligned,
    StoreAccessFault,
    EnvironmentCall,
}

impl Cause {
    ghost use Rattle.rv_isa.specs.Cause.{code_of};

    /// The exception code, 0 to 7 or 11.
    pub fn code(self) -> u32
        ensures { result ≡ code_of self }
    {
        match self {
            Cause::InstructionAddressMisaligned => 0,
            Cause::InstructionAccessFault => 1,
            Cause::IllegalInstruction => 2,
            Cause::Breakpoint => 3,
            Cause::LoadAddressMisaligned => 4,
            Cause::LoadAccessFault => 5,
            Cause::StoreAddressMisaligned => 6,
            Cause::StoreAccessFault => 7,
            Cause::EnvironmentCall => 11,
        }
    }
}

/// An exception: its cause, and the word that `mtval` gets (Privileged Architecture 20211203,
/// 3.1.16).
#[derive(Clone, Copy, PartialEq, Eq)]
pub struct Fault {
    pub cause: Cause,
    pub value: u32,
}
