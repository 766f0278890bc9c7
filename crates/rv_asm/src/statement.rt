ghost use Rattle.std.specs.Prelude.{◌≡◌, ◌≢◌, Ok, Err, IfOk, IfErr, false};
ghost use Rattle.std.specs.List.{list_all, slice_split};
ghost use Rattle.std.specs.Option.{option_copied};
ghost use Rattle.std.specs.Result.{result_map_both};
ghost use Rattle.rv_asm.specs.Answer.{Follows};
ghost use Rattle.rv_asm.specs.Layout.{statement_in};
ghost use Rattle.rv_asm.specs.Operand.{is_comma};
ghost use Rattle.rv_asm.specs.Read.{is_value, operands_in, statement_of, tokens_in};
ghost use Rattle.rv_asm.specs.Statement.{and_then, instruction, is_data, jal_places, jalr_places};
ghost use Rattle.rv_asm.specs.Statement.{needed, operands_read, reading, statement, takes};

use crate::directive::Directive;
use crate::fault::AsmFault;
use crate::filling::fill;
use crate::mnemonic::form_named;
use crate::operand::{Expression, Operand, read_operand, read_operands};
use crate::operation::Place::{self, Base, Link, Rd, Rs1, Target, Value};
use crate::operation::{Fields, Form, Operation, Section};
use crate::pieces::{first_piece, piece_count};
use crate::token::Token;
use rv_isa::{Reg, Width};
use std::alloc::Global;

/// A statement whose symbols have no values yet.
#[derive(Clone, Copy)]
pub enum Statement<'t, 'a> {
    Nothing,
    Choice(Section),
    Constant(&'a [u8], i64),
    Instruction(Operation, Fields, Expression<'a>),
    /// Numbers of a width, one for each operand that the tokens spell.
    Values(Width, &'t [Token<'a>]),
    /// What a directive lays down by its operand.
    Bytes(Directive, Operand<'a>),
}

/// The instruction with its operands.
#[tactic(auto, unfolding(crate::specs::Statement::instruction))]
fn instruction<'t, 'a>(
    operation: Operation,
    places: &[Place],
    operands: &[Operand<'a>],
) -> Result<Statement<'t, 'a>, AsmFault>
    ensures { result_map_both statement_of (λ fault. fault) result
        ≡ instruction operation places.now (operands_in operands.now) }
{
    let mut fields = Fields {
        rd: Reg::ZERO,
        rs1: Reg::ZERO,
        rs2: Reg::ZERO,
        csr: 0,
    };
    let value = fill(places, operands, &mut fields)?;
    Ok(Statement::Instruction(operation, fields, value))
}

/// The places of so many operands of `jal`: with or without its register.
fn jal_places(count: usize) -> &'static [Place]
    ensures { result.now ≡ jal_places count }
{
    match count {
        1 => &[Link, Target],
        _ => &[Rd, Target],
    }
}

/// The places of so many operands of `jalr`: with its register alone, with an offset before it in
/// parentheses, or with one after it.
fn jalr_places(count: usize) -> &'static [Place]
    ensures { result.now ≡ jalr_places count }
{
    match count {
        1 => &[Link, Rs1],
        2 => &[Rd, Base],
        _ => &[Rd, Rs1, Value],
    }
}

/// The statement of `.globl`.
#[tactic(auto, unfolding(crate::specs::Statement::statement))]
fn global<'t, 'a>(operands: &[Operand<'a>]) -> Result<Statement<'t, 'a>, AsmFault>
    ensures { result_map_both statement_of (λ fault. fault) result
        ≡ statement Form.Global (operands_in operands.now) }
{
    match operands {
        [Operand::Value(Expression::Symbol(_))] => Ok(Statement::Nothing),
        _ => Err(AsmFault::BadOperands),
    }
}

/// The statement of `.equ`.
#[tactic(auto, unfolding(crate::specs::Statement::statement))]
fn constant<'t, 'a>(operands: &[Operand<'a>]) -> Result<Statement<'t, 'a>, AsmFault>
    ensures { result_map_both statement_of (λ fault. fault) result
        ≡ statement Form.Constant (operands_in operands.now) }
{
    match operands {
        [
            Operand::Value(Expression::Symbol(name)),
            Operand::Value(Expression::Number(number)),
        ] => Ok(Statement::Constant(name, *number)),
        _ => Err(AsmFault::BadOperands),
    }
}

/// The statement of a directive that lays down bytes by its one operand.
#[tactic(auto, unfolding(crate::specs::Statement::statement))]
fn bytes<'t, 'a>(
    directive: Directive,
    place: Place,
    operands: &[Operand<'a>],
) -> Result<Statement<'t, 'a>, AsmFault>
    ensures { result_map_both statement_of (λ fault. fault) result
        ≡ statement (Form.Bytes directive place) (operands_in operands.now) }
{
    match operands {
        [operand] if place.takes(*operand) => Ok(Statement::Bytes(directive, *operand)),
        _ => Err(AsmFault::BadOperands),
    }
}

/// The statement of a form that is no data, with its operands.
#[tactic(auto, unfolding(crate::specs::Statement::statement))]
pub fn make_statement<'t, 'a>(
    form: Form,
    operands: &[Operand<'a>],
) -> Result<Statement<'t, 'a>, AsmFault>
    ensures { is_data form ≡ false → result_map_both statement_of (λ fault. fault) result
        ≡ statement form (operands_in operands.now) }
{
    match form {
        Form::Nothing if operands.is_empty() => Ok(Statement::Nothing),
        Form::Instruction(operation, first, second, third) => {
            instruction(operation, &[first, second, third], operands)
        }
        Form::Jal => instruction(Operation::Jal, jal_places(operands.len()), operands),
        Form::Jalr => instruction(Operation::Jalr, jalr_places(operands.len()), operands),
        Form::Choice(section) if operands.is_empty() => Ok(Statement::Choice(section)),
        Form::Global => global(operands),
        Form::Constant => constant(operands),
        Form::Bytes(directive, place) => bytes(directive, place, operands),
        _ => Err(AsmFault::BadOperands),
    }
}

/// The symbol that `li` takes, which an earlier `.equ` has to define.
#[tactic(auto, unfolding(crate::specs::Statement::needed))]
pub fn needed<'a>(form: Form, operands: &[Operand<'a>]) -> Option<&'a [u8]>
    ensures { option_copied result ≡ needed form (operands_in operands.now) }
{
    match form {
        Form::Instruction(Operation::LoadNumber, _, _, _) => match operands {
            [_, Operand::Value(Expression::Symbol(name))] => Some(name),
            _ => None,
        },
        _ => None,
    }
}

/// The operands of a statement that is no data, and so has three at most.
pub fn few_operands<'a>(alloc: Global, tokens: &[Token<'a>]) -> Result<Vec<Operand<'a>>, AsmFault>
    ensures found { IfOk result (λ v. operands_read (tokens_in tokens.now) ≡ Ok (operands_in v.items)) }
    ensures fault { IfErr result (λ fault. fault ≢ AsmFault.Memory → fault ≡ AsmFault.BadOperands) }
    ensures refused { IfErr result (λ fault. fault ≢ AsmFault.Memory → (form : Form) → is_data form ≡ false →
        and_then (operands_read (tokens_in tokens.now)) (statement form) ≡ Err AsmFault.BadOperands) }
{
    // No list is made of operands that no statement has: a line may have millions.
    if piece_count(tokens) > 3 {
        return Err(AsmFault::BadOperands);
    }
    read_operands(alloc, tokens)
}

/// Whether each piece of tokens is an expression.
fn are_values(tokens: &[Token<'_>]) -> bool
    ensures { result ≡ list_all is_value (slice_split is_comma (tokens_in tokens.now)) }
{
    let mut rest = Some(tokens);
    while let Some(unread) = rest {
        let (piece, after) = first_piece(unread);
        match read_operand(piece) {
            Some(operand) if Value.takes(operand) => rest = after,
            _ => return false,
        }
    }
    true
}

/// The statement of data of a width, whose operands are read when they are needed.
pub fn data<'t, 'a>(width: Width, tokens: &'t [Token<'a>]) -> Result<Statement<'t, 'a>, AsmFault>
    ensures { result_map_both statement_of (λ fault. fault) result
        ≡ and_then (operands_read (tokens_in tokens.entry.now)) (statement (Form.Values width)) }
{
    if !are_values(tokens) {
        return Err(AsmFault::BadOperands);
    }
    Ok(Statement::Values(width, tokens))
}

/// The form that tokens name, and the tokens of its operands.
pub fn named_form<'t, 'a>(tokens: &'t [Token<'a>]) -> Result<(Form, &'t [Token<'a>]), AsmFault>
    ensures named { IfOk result (λ named. reading (tokens_in tokens.entry.now)
        ≡ and_then (operands_read (tokens_in named.1.now)) (λ operands. Ok (named.0, operands))) }
    ensures refused { IfErr result (λ fault. reading (tokens_in tokens.entry.now) ≡ Err fault) }
{
    match tokens {
        [] => Ok((Form::Nothing, tokens)),
        [Token::Name(name), operands @ ..] => match form_named(name) {
            Some(form) => Ok((form, operands)),
            None => Err(AsmFault::UnknownMnemonic),
        },
        _ => Err(AsmFault::UnknownMnemonic),
    }
}

/// The statement of a form with the operands that tokens spell.
fn formed_statement<'t, 'a>(
    alloc: Global,
    form: Form,
    tokens: &'t [Token<'a>],
) -> Result<Statement<'t, 'a>, AsmFault>
    ensures { Follows statement_of result (and_then (operands_read (tokens_in tokens.entry.now)) (statement form)) }
{
    if let Form::Values(width) = form {
        return data(width, tokens);
    }
    let operands = few_operands(alloc, tokens)?;
    make_statement(form, operands.as_slice())
}

/// The statement that tokens spell.
pub fn read_statement<'t, 'a>(
    alloc: Global,
    tokens: &'t [Token<'a>],
) -> Result<Statement<'t, 'a>, AsmFault>
    ensures { Follows statement_of result (statement_in (tokens_in tokens.entry.now)) }
{
    let (form, operands) = named_form(tokens)?;
    formed_statement(alloc, form, operands)
}
