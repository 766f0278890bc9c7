ghost use Rattle.std.specs.Prelude.{◌≡◌, ◌+◌, ◌-◌, ◌*◌, ◌<◌, ◌≤◌, ◌^◌, ◌∷◌, [], Ok, Err, Some, None};
ghost use Rattle.std.specs.Prelude.{unsigned_abs, option_to_list};
ghost use Rattle.rv_asm.specs.Layout.{offset, offset_in, grow_in, known, size, instruction_size, advance};
ghost use Rattle.rv_asm.specs.Layout.{upper, lower, signed_word, load_number, load_address, unless_too_large};
ghost use Rattle.rv_asm.specs.Read.{expression_of, statement_of};
ghost use Rattle.rv_asm.specs.Symbols.{found};
ghost use Rattle.rv_isa.specs.Word.{modulo_word};
ghost use Rattle.rv_isa.specs.declared.instructions.Instr.TheVariants.{OpImmediate};
ghost use Rattle.rv_isa.specs.declared.operations.ImmediateOp.TheVariants.{Addi};

use crate::fault::AsmFault;
use crate::operand::Expression;
use crate::operation::{Fields, Operation, Section};
use crate::pieces::piece_count;
use crate::statement::Statement;
use crate::symbols::Symbols;
use rv_isa::{Immediate, ImmediateOp, Instr, Reg, UpperImmediate};

/// The most bytes that text and data may have together.
const LIMIT: u128 = 16_777_200;

/// How far a text has come.
#[derive(Clone, Copy)]
pub struct Reach {
    /// The section in force.
    pub section: Section,
    /// How many bytes the text section has so far.
    pub text_size: usize,
    /// How many bytes the data section has so far.
    pub data_size: usize,
}

impl Reach {
    /// No section has bytes yet, and the text begins in `.text`.
    pub const START: Reach = Reach {
        section: Section::Text,
        text_size: 0,
        data_size: 0,
    };

    /// How many bytes a section has so far.
    pub fn offset_in(self, section: Section) -> usize
        ensures { result ≡ offset_in section self }
    {
        match section {
            Section::Text => self.text_size,
            Section::Data => self.data_size,
        }
    }

    /// How many bytes the section in force has so far.
    pub fn offset(self) -> usize
        ensures { result ≡ offset self }
    {
        self.offset_in(self.section)
    }

    /// So many bytes more in the section in force, if text and data are not too large then.
    fn grown(mut self, size: u128) -> Result<Reach, AsmFault>
        requires { size < 2 ^ 100 }
        ensures { result ≡ unless_too_large (grow_in self.section size self) }
    {
        let total = self.text_size as u128 + self.data_size as u128 + size;
        if total > LIMIT {
            return Err(AsmFault::TooLarge);
        }
        match self.section {
            Section::Text => self.text_size += size as usize,
            Section::Data => self.data_size += size as usize,
        }
        Ok(self)
    }
}

/// The value of an expression without labels.
fn known<'a>(symbols: &Symbols<'a>, value: &Expression<'a>) -> i64
    ensures { result ≡ known (found symbols.now) (expression_of value.now) }
{
    match *value {
        Expression::Number(number) => number,
        Expression::Symbol(name) => symbols.constant(name).unwrap_or(0),
        Expression::Sum(_, _) => 0,
    }
}

/// A whole number modulo 2^32.
pub fn modulo_word(number: i128) -> u32
    ensures { result ≡ modulo_word number }
{
    number.rem_euclid(4294967296).unsigned_abs() as u32
}

/// A whole number modulo 2^32, read as a signed word.
pub fn signed_word(number: i128) -> i32
    ensures { result ≡ signed_word number }
{
    modulo_word(number).cast_signed()
}

/// The upper part of a signed word, for `lui` and `auipc`.
fn upper(word: i32) -> UpperImmediate
    ensures { result ≡ upper word }
{
    let rounded = (i64::from(word) + 2048).div_euclid(4096);
    UpperImmediate::from_field(rounded.rem_euclid(1048576).unsigned_abs() as u32)
}

/// The lower part of a signed word, for the `addi` after `lui` or `auipc`.
fn lower(word: i32) -> Immediate
    ensures { result ≡ lower word }
{
    let rest = (i64::from(word) + 2048).rem_euclid(4096) - 2048;
    Immediate::from_field(rest as i32)
}

/// The instruction that adds an immediate.
fn add_immediate(rd: Reg, rs1: Reg, immediate: Immediate) -> Instr
    ensures { result ≡ OpImmediate Addi rd rs1 immediate }
{
    let op = ImmediateOp::Addi;
    Instr::OpImmediate {
        op,
        rd,
        rs1,
        immediate,
    }
}

/// The instructions that load a signed word: one, or two.
pub fn load_number(rd: Reg, word: i32) -> (Instr, Option<Instr>)
    ensures { result.0 ∷ option_to_list result.1 ≡ load_number rd word }
{
    if let Some(immediate) = Immediate::new(word) {
        return (add_immediate(rd, Reg::ZERO, immediate), None);
    }
    let (immediate, rest) = (upper(word), lower(word));
    let first = Instr::Lui { rd, immediate };
    if rest.value() == 0 {
        return (first, None);
    }
    (first, Some(add_immediate(rd, rd, rest)))
}

/// The instructions that load an address by its distance.
pub fn load_address(rd: Reg, away: i32) -> (Instr, Option<Instr>)
    ensures { result.0 ∷ option_to_list result.1 ≡ load_address rd away }
{
    let immediate = upper(away);
    let first = Instr::Auipc { rd, immediate };
    (first, Some(add_immediate(rd, rd, lower(away))))
}

/// The bytes of an instruction.
fn instruction_size<'a>(
    symbols: &Symbols<'a>,
    operation: Operation,
    fields: Fields,
    value: &Expression<'a>,
) -> usize
    ensures size { result ≡ instruction_size (found symbols.now) operation fields (expression_of value.now) }
    ensures small { result ≤ 8 }
{
    match operation {
        Operation::LoadNumber => {
            let word = signed_word(i128::from(known(symbols, value)));
            match load_number(fields.rd, word) {
                (_, None) => 4,
                (_, Some(_)) => 8,
            }
        }
        Operation::LoadAddress => 8,
        _ => 4,
    }
}

/// The bytes of a statement at an offset.
fn size<'a>(symbols: &Symbols<'a>, offset: usize, statement: &Statement<'_, 'a>) -> u128
    ensures size { result ≡ size (found symbols.now) offset (statement_of statement.now) }
    ensures small { result < 2 ^ 100 }
{
    match statement {
        Statement::Instruction(operation, fields, value) => {
            instruction_size(symbols, *operation, *fields, value) as u128
        }
        Statement::Values(width, operands) => {
            u128::from(width.bytes()) * piece_count(operands) as u128
        }
        Statement::Bytes(directive, operand) => directive.size(offset, *operand),
        _ => 0,
    }
}

/// How far the text has come after a statement, if it is not too large then.
pub fn advance<'a>(
    symbols: &Symbols<'a>,
    statement: &Statement<'_, 'a>,
    mut reach: Reach,
) -> Result<Reach, AsmFault>
    ensures { result ≡ unless_too_large
        (advance (found symbols.now) (statement_of statement.now) reach) }
{
    if let Statement::Choice(section) = statement {
        reach.section = *section;
        return reach.grown(0);
    }
    reach.grown(size(symbols, reach.offset(), statement))
}
