ghost use Rattle.std.specs.Prelude.{◌≡◌};
ghost use Rattle.std.specs.Option.{option_map};
ghost use Rattle.std.specs.Result.{result_map_both};
ghost use Rattle.rv_asm.specs.Read.{expression_of, operand_of, operands_in};
ghost use Rattle.rv_asm.specs.Statement.{register_in, expression_in, csr_in, put, imply, fill, value_at};

use crate::fault::AsmFault;
use crate::names::{csr_named, register_named};
use crate::operand::{Expression, Operand};
use crate::operation::{Fields, Place};
use rv_isa::Reg;

/// The register that an operand names.
fn register_in(operand: Operand<'_>) -> Result<Reg, AsmFault>
    ensures { result ≡ register_in (operand_of operand.entry) }
{
    match operand {
        Operand::Value(Expression::Symbol(name)) | Operand::Indirect(_, name) => {
            register_named(name).ok_or(AsmFault::BadRegister)
        }
        _ => Err(AsmFault::BadOperands),
    }
}

/// The expression of an operand; an offset that is missing is 0.
pub fn expression_in(operand: Operand<'_>) -> Expression<'_>
    ensures { expression_of result ≡ expression_in (operand_of operand.entry) }
{
    match operand {
        Operand::Value(expression) => expression,
        Operand::Indirect(Some(offset), _) => offset,
        _ => Expression::Number(0),
    }
}

/// The address of the CSR that an operand names or numbers.
fn csr_in(operand: Operand<'_>) -> Result<i64, AsmFault>
    ensures { result ≡ csr_in (operand_of operand.entry) }
{
    match operand {
        Operand::Value(Expression::Number(number)) => Ok(number),
        Operand::Value(Expression::Symbol(name)) => {
            csr_named(name).map(i64::from).ok_or(AsmFault::BadOperands)
        }
        _ => Err(AsmFault::BadOperands),
    }
}

/// The expression that stands at a place, if one does.
#[tactic(auto, unfolding(crate::specs::Statement::value_at))]
fn value_at<'a>(place: Place, operand: Operand<'a>) -> Option<Expression<'a>>
    ensures { option_map expression_of result ≡ value_at place (operand_of operand.entry) }
{
    match place {
        Place::Value | Place::Known | Place::Target | Place::Address | Place::Base => {
            Some(expression_in(operand))
        }
        _ => None,
    }
}

/// Fills the field of an operand at its place, if it has one. The answer is the expression that
/// stands there, or the value of the places after it.
#[tactic(auto, unfolding(crate::specs::Statement::put))]
fn put<'a>(
    place: Place,
    operand: Operand<'a>,
    value: Expression<'a>,
    fields: &mut Fields,
) -> Result<Expression<'a>, AsmFault>
    ensures { result_map_both (λ value. (fields.new, expression_of value)) (λ fault. fault) result
        ≡ put place (operand_of operand.entry) (fields.old, expression_of value.entry) }
{
    match place {
        Place::Rd => fields.rd = register_in(operand)?,
        Place::Rs1 | Place::Address | Place::Base => fields.rs1 = register_in(operand)?,
        Place::Rs2 => fields.rs2 = register_in(operand)?,
        Place::Csr => fields.csr = csr_in(operand)?,
        _ => {}
    }
    Ok(value_at(place, operand).unwrap_or(value))
}

/// x1, which holds return addresses.
fn link_register() -> Reg
    ensures { result ≡ 1 }
{
    Reg::new(1).unwrap()
}

/// Fills the field of a place without an operand, if it has one. The answer is the expression that
/// the place means, or the value of the places after it.
#[tactic(auto, unfolding(crate::specs::Statement::imply))]
fn imply<'a>(place: Place, value: Expression<'a>, fields: &mut Fields) -> Expression<'a>
    ensures { (fields.new, expression_of result) ≡ imply place (fields.old, expression_of value.entry) }
{
    match place {
        Place::Link => fields.rd = link_register(),
        Place::Return => fields.rs1 = link_register(),
        Place::One => return Expression::Number(1),
        Place::MinusOne => return Expression::Number(-1),
        _ => {}
    }
    value
}

/// Fills the fields of the operands at their places, if they have their shapes, one each. The answer
/// is their expression, or 0.
#[tactic(auto, unfolding(crate::specs::Statement::fill))]
pub fn fill<'a>(
    places: &[Place],
    operands: &[Operand<'a>],
    fields: &mut Fields,
) -> Result<Expression<'a>, AsmFault>
    ensures { result_map_both (λ value. (fields.new, expression_of value)) (λ fault. fault) result
        ≡ fill places.now (operands_in operands.now) fields.old }
{
    let Some((place, others)) = places.split_first() else {
        if operands.is_empty() {
            return Ok(Expression::Number(0));
        }
        return Err(AsmFault::BadOperands);
    };
    if place.is_implied() {
        let value = fill(others, operands, fields)?;
        return Ok(imply(*place, value, fields));
    }
    match operands.split_first() {
        Some((operand, rest)) if place.takes(*operand) => {
            let value = fill(others, rest, fields)?;
            put(*place, *operand, value, fields)
        }
        _ => Err(AsmFault::BadOperands),
    }
}
