ghost use Rattle.std.specs.Prelude.{◌≡◌, ◌∷◌, [], map, option_to_list, is_some, pos, unwrap_or};
ghost use Rattle.std.specs.List.{list_all};
ghost use Rattle.rv_asm.specs.Emitted.{AppendsIfRoom, EmitsOrRefuses};
ghost use Rattle.rv_asm.specs.Meaning.{Word', bytes_at, data_of, evaluate, fits_width, instructions};
ghost use Rattle.rv_asm.specs.Read.{data_in, datum, expression_of, statement_of, tokens_in};
ghost use Rattle.rv_asm.specs.Statement.{Instruction, expression_in};
ghost use Rattle.rv_asm.specs.Symbols.{means, value_in};

use crate::fault::AsmFault;
use crate::filling::expression_in;
use crate::instructions::instructions;
use crate::operand::{Expression, read_operand};
use crate::operation::{Fields, Operation};
use crate::pieces::first_piece;
use crate::program::Program;
use crate::reach::{Reach, modulo_word};
use crate::statement::Statement;
use crate::token::Token;
use rv_decode::encode;
use rv_isa::{Instr, Width};

/// Appends the word of an instruction, its lowest byte first.
fn push_word(out: &mut Vec<u8>, instruction: &Instr) -> Result<(), AsmFault>
    ensures { AppendsIfRoom (Word' instruction.now ∷ []) out.old.items out.new.items result }
{
    let bytes = encode(instruction).to_le_bytes();
    out.extend_from_slice(&bytes)?;
    Ok(())
}

/// Appends the words of one instruction, or of two.
fn push_words(out: &mut Vec<u8>, first: &Instr, second: Option<Instr>) -> Result<(), AsmFault>
    ensures { AppendsIfRoom (map Word' (first.now ∷ option_to_list second)) out.old.items out.new.items result }
{
    push_word(out, first)?;
    match second {
        Some(instruction) => {
            push_word(out, &instruction)?;
            Ok(())
        }
        None => Ok(()),
    }
}

/// Appends an instruction with its expression's value in it.
fn emit_instruction<'a>(
    program: &Program<'_, 'a>,
    reach: Reach,
    operation: Operation,
    fields: Fields,
    value: &Expression<'a>,
    out: &mut Vec<u8>,
) -> Result<(), AsmFault>
    ensures { EmitsOrRefuses (means program.now reach
        (Instruction operation fields (expression_of value.now))) out.old.items out.new.items result }
{
    let address = program.start_of(reach.section) + reach.offset() as u128;
    let number = program.evaluate(value).ok_or(AsmFault::UnknownSymbol)?;
    match instructions(operation, fields, address, number) {
        Ok(_) if address % 4 != 0 => Err(AsmFault::Misaligned),
        Ok((first, second)) => push_words(out, &first, second),
        Err(fault) => Err(fault),
    }
}

/// Whether data of a width may hold a number.
fn fits_width(width: Width, number: i128) -> bool
    ensures { result ≡ fits_width width number }
{
    match width {
        Width::Byte => -128 <= number && number <= 255,
        Width::Half => -32768 <= number && number <= 65535,
        Width::Word => -2147483648 <= number && number <= 4294967295,
    }
}

/// Appends the bytes of a number modulo 2^32, the lowest first, if data of the width may hold it.
fn push_number(out: &mut Vec<u8>, width: Width, number: i128) -> Result<(), AsmFault>
    ensures { EmitsOrRefuses (bytes_at width number) out.old.items out.new.items result }
{
    if !fits_width(width, number) {
        return Err(AsmFault::OutOfRange);
    }
    let bytes = modulo_word(number).to_le_bytes();
    let (low, _) = bytes.as_slice().split_at(width.bytes() as usize);
    out.extend_from_slice(low)?;
    Ok(())
}

/// The expression of a piece of data; of one that is no operand 0.
fn value_of<'a>(piece: &[Token<'a>]) -> Expression<'a>
    ensures { expression_of result ≡ expression_in (datum (tokens_in piece.now)) }
{
    match read_operand(piece) {
        Some(operand) => expression_in(operand),
        None => Expression::Number(0),
    }
}

/// Whether each operand of data has a value.
fn are_known<'a>(program: &Program<'_, 'a>, tokens: &[Token<'a>]) -> bool
    ensures { result ≡ list_all (λ operand.
        is_some (evaluate (value_in program.now) (expression_in operand)))
        (data_in tokens.now) }
{
    let mut rest = Some(tokens);
    while let Some(unread) = rest {
        let (piece, after) = first_piece(unread);
        if program.evaluate(&value_of(piece)).is_none() {
            return false;
        }
        rest = after;
    }
    true
}

/// Appends the value of a piece of data; one without a value counts as 0.
fn emit_value<'a>(
    program: &Program<'_, 'a>,
    width: Width,
    piece: &[Token<'a>],
    out: &mut Vec<u8>,
) -> Result<(), AsmFault>
    ensures { EmitsOrRefuses (bytes_at width (unwrap_or (evaluate (value_in program.now)
        (expression_in (datum (tokens_in piece.now)))) (pos 0))) out.old.items out.new.items result }
{
    let number = program.evaluate(&value_of(piece)).unwrap_or(0);
    push_number(out, width, number)
}

/// Appends the values of data.
fn emit_values<'a>(
    program: &Program<'_, 'a>,
    width: Width,
    tokens: &[Token<'a>],
    out: &mut Vec<u8>,
) -> Result<(), AsmFault>
    ensures { EmitsOrRefuses (data_of (value_in program.now) width
        (data_in tokens.now)) out.old.items out.new.items result }
{
    let mut rest = Some(tokens);
    while let Some(unread) = rest {
        let (piece, after) = first_piece(unread);
        if let Err(fault) = emit_value(program, width, piece, out) {
            return Err(fault);
        }
        rest = after;
    }
    Ok(())
}

/// Appends what a statement means.
#[tactic(auto, using(crate::proofs::Emitted::emits_nothing))]
pub fn emit<'a>(
    program: &Program<'_, 'a>,
    reach: Reach,
    statement: &Statement<'_, 'a>,
    out: &mut Vec<u8>,
) -> Result<(), AsmFault>
    ensures { EmitsOrRefuses (means program.now reach
        (statement_of statement.now)) out.old.items out.new.items result }
{
    match statement {
        Statement::Instruction(operation, fields, value) => emit_instruction(
            program, reach, *operation, *fields, value, out,
        ),
        Statement::Values(width, operands) if are_known(program, operands) => {
            emit_values(program, *width, operands, out)
        }
        Statement::Values(_, _) => Err(AsmFault::UnknownSymbol),
        Statement::Bytes(directive, operand) => directive.push(reach.offset(), *operand, out),
        Statement::Nothing | Statement::Choice(_) | Statement::Constant(_, _) => Ok(()),
    }
}
