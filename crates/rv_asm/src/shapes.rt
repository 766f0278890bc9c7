ghost use Rattle.std.specs.Prelude.{◌≡◌};
ghost use Rattle.rv_asm.specs.Read.{operand_of};
ghost use Rattle.rv_asm.specs.Statement.{is_implied, takes};

use crate::names::csr_named;
use crate::operand::{Expression, Operand};
use crate::operation::Place;

impl Place {
    /// Whether no operand stands at the place.
    pub fn is_implied(self) -> bool
        ensures { result ≡ is_implied self }
    {
        matches!(
            self,
            Place::Link | Place::Return | Place::One | Place::MinusOne | Place::Empty
        )
    }

    /// Whether an operand has the shape of the place.
    pub fn takes(self, operand: Operand<'_>) -> bool
        ensures { result ≡ takes self (operand_of operand.entry) }
    {
        match operand {
            Operand::Value(Expression::Number(number)) => match self {
                Place::Value | Place::Number | Place::Known | Place::Csr => true,
                Place::UpTo(greatest) => 0 <= number && number <= i64::from(greatest),
                Place::Multiple => matches!(number, 1 | 2 | 4 | 8 | 16),
                _ => false,
            },
            Operand::Value(Expression::Symbol(name)) => match self {
                Place::Rd | Place::Rs1 | Place::Rs2 => true,
                Place::Value | Place::Known | Place::Target => true,
                Place::Csr => csr_named(name).is_some(),
                _ => false,
            },
            Operand::Value(Expression::Sum(_, _)) => {
                matches!(self, Place::Value | Place::Target)
            }
            Operand::Indirect(Some(_), _) => matches!(self, Place::Address | Place::Base),
            Operand::Indirect(None, _) => matches!(self, Place::Address),
            Operand::Text(_) => matches!(self, Place::Text),
        }
    }
}
