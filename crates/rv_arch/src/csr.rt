ghost use Rattle.std.specs.Prelude.{◌≡◌};

use rv_isa::{CsrSource, Reg};
use std::error::Error;
use std::fmt;

/// The source of a CSR instruction.
#[derive(Clone, Copy)]
pub struct CsrOperand {
    /// The value of the register, or the immediate.
    pub value: u32,
    /// Whether the word's bits 19 to 15 are 0: register x0, or the immediate 0.
    pub field_is_zero: bool,
}

impl CsrOperand {
    ghost use Rattle.rv_arch.specs.Effect.{operand_of};

    /// The source of a CSR instruction, where x0 to x31 have these values.
    pub fn new(source: CsrSource, registers: &[u32; 32]) -> CsrOperand
        ensures { result ≡ operand_of registers.now source }
    {
        match source {
            CsrSource::Register(register) => CsrOperand {
                value: registers[register.index()],
                field_is_zero: register == Reg::ZERO,
            },
            CsrSource::Immediate(immediate) => CsrOperand {
                value: immediate.value(),
                field_is_zero: immediate.value() == 0,
            },
        }
    }
}

/// A CSR instruction that is illegal: there is no such register, or it is read-only and would be
/// written.
#[derive(Clone, Copy, Debug, PartialEq, Eq)]
pub struct Illegal;

impl fmt::Display for Illegal {
    ghost use Rattle.std.specs.Prelude.{Some, codes};

    ghost output = { λ _. Some (codes "illegal access to a control and status register") };

    fn fmt<W: fmt::Write>(&self, f: &mut fmt::Formatter<W>) -> fmt::Result {
        f.write_str("illegal access to a control and status register")
    }
}

impl Error for Illegal {}
