ghost use Rattle.std.specs.Prelude.{◌≡◌};
ghost use Rattle.rv_asm.specs.Mnemonic.{bare_instruction, form_named, instructions};
ghost use Rattle.rv_asm.specs.Mnemonic.{others, pseudo_instructions, shape_named};
ghost use Rattle.rv_asm.specs.Names.{named};

use self::BareInstruction::{Ebreak, Ecall, Fence, FenceI, Mret, Wfi};
use crate::directive::Directive::{Align, Characters, Zeros};
use crate::names::lookup;
use crate::operation::Form::{self, Bytes, Instruction};
use crate::operation::Operation::{
    Auipc, Bare, Branch, Csr, CsrImmediate, Jal, Jalr, Load, LoadAddress, LoadNumber, Lui, Op,
    OpImmediate, Shift, Store,
};
use crate::operation::Place::{
    Address, Csr as CsrName, Empty, Known, Link, MinusOne, Multiple, One, Rd, Return, Rs1, Rs2,
    Target, Text, UpTo, Value,
};
use crate::operation::{Operation, Place, Section};
use rv_isa::Condition::{
    Equal, GreaterOrEqual, GreaterOrEqualUnsigned, LessThan, LessThanUnsigned, NotEqual,
};
use rv_isa::CsrOp::{Clear, Set, Write};
use rv_isa::ImmediateOp::{Addi, Andi, Ori, Slti, Sltiu, Xori};
use rv_isa::{AluOp, Instr, LoadForm, ShiftOp, Width};

/// An instruction without operands.
#[derive(Clone, Copy)]
pub enum BareInstruction {
    Fence,
    FenceI,
    Ecall,
    Ebreak,
    Mret,
    Wfi,
}

impl BareInstruction {
    pub fn instruction(self) -> Instr
        ensures { result ≡ bare_instruction self }
    {
        match self {
            Fence => Instr::Fence,
            FenceI => Instr::FenceI,
            Ecall => Instr::Ecall,
            Ebreak => Instr::Ebreak,
            Mret => Instr::Mret,
            Wfi => Instr::Wfi,
        }
    }
}

/// What an instruction or a pseudo-instruction does, and where its operands go.
type Shape = (Operation, Place, Place, Place);

/// The mnemonics of instructions whose operands have one shape.
static INSTRUCTIONS: [(&[u8], Shape); 58] = [
    // RV32I
    (b"lui", (Lui, Rd, Value, Empty)),
    (b"auipc", (Auipc, Rd, Value, Empty)),
    (b"beq", (Branch(Equal), Rs1, Rs2, Target)),
    (b"bne", (Branch(NotEqual), Rs1, Rs2, Target)),
    (b"blt", (Branch(LessThan), Rs1, Rs2, Target)),
    (b"bge", (Branch(GreaterOrEqual), Rs1, Rs2, Target)),
    (b"bltu", (Branch(LessThanUnsigned), Rs1, Rs2, Target)),
    (b"bgeu", (Branch(GreaterOrEqualUnsigned), Rs1, Rs2, Target)),
    (b"lb", (Load(LoadForm::Byte), Rd, Address, Empty)),
    (b"lh", (Load(LoadForm::Half), Rd, Address, Empty)),
    (b"lw", (Load(LoadForm::Word), Rd, Address, Empty)),
    (b"lbu", (Load(LoadForm::ByteUnsigned), Rd, Address, Empty)),
    (b"lhu", (Load(LoadForm::HalfUnsigned), Rd, Address, Empty)),
    (b"sb", (Store(Width::Byte), Rs2, Address, Empty)),
    (b"sh", (Store(Width::Half), Rs2, Address, Empty)),
    (b"sw", (Store(Width::Word), Rs2, Address, Empty)),
    (b"addi", (OpImmediate(Addi), Rd, Rs1, Value)),
    (b"slti", (OpImmediate(Slti), Rd, Rs1, Value)),
    (b"sltiu", (OpImmediate(Sltiu), Rd, Rs1, Value)),
    (b"xori", (OpImmediate(Xori), Rd, Rs1, Value)),
    (b"ori", (OpImmediate(Ori), Rd, Rs1, Value)),
    (b"andi", (OpImmediate(Andi), Rd, Rs1, Value)),
    (b"slli", (Shift(ShiftOp::Slli), Rd, Rs1, Value)),
    (b"srli", (Shift(ShiftOp::Srli), Rd, Rs1, Value)),
    (b"srai", (Shift(ShiftOp::Srai), Rd, Rs1, Value)),
    (b"add", (Op(AluOp::Add), Rd, Rs1, Rs2)),
    (b"sub", (Op(AluOp::Sub), Rd, Rs1, Rs2)),
    (b"sll", (Op(AluOp::Sll), Rd, Rs1, Rs2)),
    (b"slt", (Op(AluOp::Slt), Rd, Rs1, Rs2)),
    (b"sltu", (Op(AluOp::Sltu), Rd, Rs1, Rs2)),
    (b"xor", (Op(AluOp::Xor), Rd, Rs1, Rs2)),
    (b"srl", (Op(AluOp::Srl), Rd, Rs1, Rs2)),
    (b"sra", (Op(AluOp::Sra), Rd, Rs1, Rs2)),
    (b"or", (Op(AluOp::Or), Rd, Rs1, Rs2)),
    (b"and", (Op(AluOp::And), Rd, Rs1, Rs2)),
    (b"ecall", (Bare(Ecall), Empty, Empty, Empty)),
    (b"ebreak", (Bare(Ebreak), Empty, Empty, Empty)),
    (b"fence", (Bare(Fence), Empty, Empty, Empty)),
    // Zifencei
    (b"fence.i", (Bare(FenceI), Empty, Empty, Empty)),
    // Zicsr
    (b"csrrw", (Csr(Write), Rd, CsrName, Rs1)),
    (b"csrrs", (Csr(Set), Rd, CsrName, Rs1)),
    (b"csrrc", (Csr(Clear), Rd, CsrName, Rs1)),
    (b"csrrwi", (CsrImmediate(Write), Rd, CsrName, Value)),
    (b"csrrsi", (CsrImmediate(Set), Rd, CsrName, Value)),
    (b"csrrci", (CsrImmediate(Clear), Rd, CsrName, Value)),
    // M
    (b"mul", (Op(AluOp::Mul), Rd, Rs1, Rs2)),
    (b"mulh", (Op(AluOp::Mulh), Rd, Rs1, Rs2)),
    (b"mulhsu", (Op(AluOp::Mulhsu), Rd, Rs1, Rs2)),
    (b"mulhu", (Op(AluOp::Mulhu), Rd, Rs1, Rs2)),
    (b"div", (Op(AluOp::Div), Rd, Rs1, Rs2)),
    (b"divu", (Op(AluOp::Divu), Rd, Rs1, Rs2)),
    (b"rem", (Op(AluOp::Rem), Rd, Rs1, Rs2)),
    (b"remu", (Op(AluOp::Remu), Rd, Rs1, Rs2)),
    // Zba
    (b"sh1add", (Op(AluOp::Sh1add), Rd, Rs1, Rs2)),
    (b"sh2add", (Op(AluOp::Sh2add), Rd, Rs1, Rs2)),
    (b"sh3add", (Op(AluOp::Sh3add), Rd, Rs1, Rs2)),
    // machine mode
    (b"mret", (Bare(Mret), Empty, Empty, Empty)),
    (b"wfi", (Bare(Wfi), Empty, Empty, Empty)),
];

/// The pseudo-instructions.
static PSEUDO_INSTRUCTIONS: [(&[u8], Shape); 31] = [
    (b"nop", (OpImmediate(Addi), Empty, Empty, Empty)),
    (b"mv", (OpImmediate(Addi), Rd, Rs1, Empty)),
    (b"not", (OpImmediate(Xori), Rd, Rs1, MinusOne)),
    (b"neg", (Op(AluOp::Sub), Rd, Rs2, Empty)),
    (b"seqz", (OpImmediate(Sltiu), Rd, Rs1, One)),
    (b"snez", (Op(AluOp::Sltu), Rd, Rs2, Empty)),
    (b"sltz", (Op(AluOp::Slt), Rd, Rs1, Empty)),
    (b"sgtz", (Op(AluOp::Slt), Rd, Rs2, Empty)),
    (b"beqz", (Branch(Equal), Rs1, Target, Empty)),
    (b"bnez", (Branch(NotEqual), Rs1, Target, Empty)),
    (b"bltz", (Branch(LessThan), Rs1, Target, Empty)),
    (b"bgez", (Branch(GreaterOrEqual), Rs1, Target, Empty)),
    (b"bgtz", (Branch(LessThan), Rs2, Target, Empty)),
    (b"blez", (Branch(GreaterOrEqual), Rs2, Target, Empty)),
    (b"bgt", (Branch(LessThan), Rs2, Rs1, Target)),
    (b"ble", (Branch(GreaterOrEqual), Rs2, Rs1, Target)),
    (b"bgtu", (Branch(LessThanUnsigned), Rs2, Rs1, Target)),
    (b"bleu", (Branch(GreaterOrEqualUnsigned), Rs2, Rs1, Target)),
    (b"j", (Jal, Target, Empty, Empty)),
    (b"call", (Jal, Link, Target, Empty)),
    (b"jr", (Jalr, Rs1, Empty, Empty)),
    (b"ret", (Jalr, Return, Empty, Empty)),
    (b"csrr", (Csr(Set), Rd, CsrName, Empty)),
    (b"csrw", (Csr(Write), CsrName, Rs1, Empty)),
    (b"csrs", (Csr(Set), CsrName, Rs1, Empty)),
    (b"csrc", (Csr(Clear), CsrName, Rs1, Empty)),
    (b"csrwi", (CsrImmediate(Write), CsrName, Value, Empty)),
    (b"csrsi", (CsrImmediate(Set), CsrName, Value, Empty)),
    (b"csrci", (CsrImmediate(Clear), CsrName, Value, Empty)),
    (b"li", (LoadNumber, Rd, Known, Empty)),
    (b"la", (LoadAddress, Rd, Target, Empty)),
];

/// The mnemonics whose operands have several shapes, and the directives.
static OTHERS: [(&[u8], Form); 17] = [
    (b"jal", Form::Jal),
    (b"jalr", Form::Jalr),
    // directives
    (b".text", Form::Choice(Section::Text)),
    (b".data", Form::Choice(Section::Data)),
    (b".globl", Form::Global),
    (b".global", Form::Global),
    (b".equ", Form::Constant),
    (b".word", Form::Values(Width::Word)),
    (b".half", Form::Values(Width::Half)),
    (b".byte", Form::Values(Width::Byte)),
    (b".zero", Bytes(Zeros, UpTo(16_777_216))),
    (b".space", Bytes(Zeros, UpTo(16_777_216))),
    (b".skip", Bytes(Zeros, UpTo(16_777_216))),
    (b".balign", Bytes(Align, Multiple)),
    (b".asciz", Bytes(Characters(1), Text)),
    (b".string", Bytes(Characters(1), Text)),
    (b".ascii", Bytes(Characters(0), Text)),
];

/// What the mnemonic of an instruction names.
fn instruction_named(name: &[u8]) -> Option<Shape>
    ensures { result ≡ named instructions name.now }
{
    lookup(&INSTRUCTIONS, name)
}

/// What the mnemonic of a pseudo-instruction names.
fn pseudo_instruction_named(name: &[u8]) -> Option<Shape>
    ensures { result ≡ named pseudo_instructions name.now }
{
    lookup(&PSEUDO_INSTRUCTIONS, name)
}

/// What a mnemonic names whose operands have one shape.
fn shape_named(name: &[u8]) -> Option<Shape>
    ensures { result ≡ shape_named name.now }
{
    match instruction_named(name) {
        Some(shape) => Some(shape),
        None => pseudo_instruction_named(name),
    }
}

/// What a directive names, or a mnemonic whose operands have several shapes.
fn other_named(name: &[u8]) -> Option<Form>
    ensures { result ≡ named others name.now }
{
    lookup(&OTHERS, name)
}

/// What a mnemonic or a directive names.
pub fn form_named(name: &[u8]) -> Option<Form>
    ensures { result ≡ form_named name.now }
{
    match shape_named(name) {
        Some((operation, first, second, third)) => {
            Some(Instruction(operation, first, second, third))
        }
        None => other_named(name),
    }
}
