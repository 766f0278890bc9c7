use crate::directive::Directive;
use crate::mnemonic::BareInstruction;
use rv_isa::{AluOp, Condition, CsrOp, ImmediateOp, LoadForm, Reg, ShiftOp, Width};

/// The section that a statement stands in.
#[derive(Clone, Copy)]
pub enum Section {
    Text,
    Data,
}

/// What an instruction or a pseudo-instruction does, without its operands.
#[derive(Clone, Copy)]
pub enum Operation {
    Lui,
    Auipc,
    Jal,
    Jalr,
    Branch(Condition),
    Load(LoadForm),
    Store(Width),
    OpImmediate(ImmediateOp),
    Shift(ShiftOp),
    Op(AluOp),
    /// An instruction without operands.
    Bare(BareInstruction),
    /// With a register as source.
    Csr(CsrOp),
    /// With a number as source.
    CsrImmediate(CsrOp),
    /// `li`
    LoadNumber,
    /// `la`
    LoadAddress,
}

/// Where an operand goes, and what may stand there.
#[derive(Clone, Copy)]
pub enum Place {
    Rd,
    Rs1,
    Rs2,
    /// An expression.
    Value,
    /// A number.
    Number,
    /// A number, or a symbol of an earlier `.equ`.
    Known,
    /// A symbol, or a symbol plus or minus a number.
    Target,
    /// An offset, which may be missing, and rs1 in parentheses.
    Address,
    /// An offset and rs1 in parentheses.
    Base,
    /// A CSR by name or by number.
    Csr,
    /// A number from 0 to this.
    UpTo(u32),
    /// 1, 2, 4, 8 or 16.
    Multiple,
    /// A string.
    Text,
    /// No operand: rd is the return address ra.
    Link,
    /// No operand: rs1 is the return address ra.
    Return,
    /// No operand: the value is 1.
    One,
    /// No operand: the value is -1.
    MinusOne,
    /// No operand.
    Empty,
}

/// The form of a statement: what it does, and which operands it has.
#[derive(Clone, Copy)]
pub enum Form {
    /// No statement.
    Nothing,
    Instruction(Operation, Place, Place, Place),
    Jal,
    Jalr,
    /// `.text`, `.data`
    Choice(Section),
    /// `.globl`
    Global,
    /// `.equ`
    Constant,
    /// `.word`, `.half`, `.byte`
    Values(Width),
    /// What a directive lays down by its one operand.
    Bytes(Directive, Place),
}

/// The registers and the CSR that operands have filled in; x0 and 0 where none has.
#[derive(Clone, Copy)]
pub struct Fields {
    pub rd: Reg,
    pub rs1: Reg,
    pub rs2: Reg,
    pub csr: i64,
}
