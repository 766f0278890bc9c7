//! The rows of the table as instructions, both ways.

#![tactic(auto, using(crate::proofs::Rows::rows), unfolding(crate::specs::InstructionTable::table))]

ghost use Rattle.std.specs.Prelude.{◌≡◌, ◌↔◌, IfSome, IsNone, Some};
ghost use Rattle.rv_isa.specs.declared.instructions.Instr.{Instr};
ghost use Rattle.rv_decode.specs.Decodes.{Decodes, IsIllegal, FitsOneRowAtMost, instruction_of};
ghost use Rattle.rv_decode.specs.Operand.{opcode};

use crate::fields::{
    b_immediate, csr_address, csr_immediate, funct3, funct7, i_immediate, j_immediate, opcode, rd,
    rs1, rs2, s_immediate, shift_amount, u_immediate,
};
use crate::formats::{b_type, csr_type, i_type, j_type, r_type, s_type, u_type};
use crate::opcodes::{AUIPC, BRANCH, JAL, JALR, LOAD, LUI, MISC_MEM, OP, OP_IMM, STORE, SYSTEM};
use crate::operations::{
    alu_op, branch_funct3, condition, csr_funct3, csr_op, immediate_op, load_form, load_funct3,
    op_funct, op_immediate_funct3, shift_funct, shift_op, store_funct3, width,
};
use rv_isa::{CsrSource, Instr};

/// The instruction that a word is, or `None` where it is illegal (Unprivileged ISA 20191213, 24).
#[inline(always)]
pub fn decode(word: u32) -> Option<Instr>
    ensures decoded { IfSome result (Decodes word) }
    ensures complete { (i : Instr) → Decodes word i → result ≡ Some i }
    ensures illegal { IsNone result ↔ IsIllegal word }
    ensures one_row { FitsOneRowAtMost word }
    ensures function { result ≡ instruction_of word }
{
    by_opcode(word)
}

#[inline(always)]
fn by_opcode(word: u32) -> Option<Instr>
    ensures { result ≡ instruction_of word }
{
    match opcode(word) {
        LUI => Some(Instr::Lui {
            rd: rd(word),
            immediate: u_immediate(word),
        }),
        AUIPC => Some(Instr::Auipc {
            rd: rd(word),
            immediate: u_immediate(word),
        }),
        JAL => Some(Instr::Jal {
            rd: rd(word),
            offset: j_immediate(word),
        }),
        JALR => match funct3(word) {
            0b000 => Some(Instr::Jalr {
                rd: rd(word),
                rs1: rs1(word),
                offset: i_immediate(word),
            }),
            _ => None,
        },
        BRANCH => Some(Instr::Branch {
            condition: condition(funct3(word))?,
            rs1: rs1(word),
            rs2: rs2(word),
            offset: b_immediate(word),
        }),
        LOAD => Some(Instr::Load {
            form: load_form(funct3(word))?,
            rd: rd(word),
            rs1: rs1(word),
            offset: i_immediate(word),
        }),
        STORE => Some(Instr::Store {
            width: width(funct3(word))?,
            rs1: rs1(word),
            rs2: rs2(word),
            offset: s_immediate(word),
        }),
        OP_IMM => op_imm(word),
        OP => Some(Instr::Op {
            op: alu_op(funct7(word), funct3(word))?,
            rd: rd(word),
            rs1: rs1(word),
            rs2: rs2(word),
        }),
        MISC_MEM => match funct3(word) {
            0b000 => Some(Instr::Fence),
            0b001 => Some(Instr::FenceI),
            _ => None,
        },
        SYSTEM => system(word),
        _ => None,
    }
}

fn op_imm(word: u32) -> Option<Instr>
    requires { opcode word ≡ OP_IMM }
    ensures { result ≡ instruction_of word }
{
    match immediate_op(funct3(word)) {
        Some(op) => Some(Instr::OpImmediate {
            op,
            rd: rd(word),
            rs1: rs1(word),
            immediate: i_immediate(word),
        }),
        None => Some(Instr::Shift {
            op: shift_op(funct7(word), funct3(word))?,
            rd: rd(word),
            rs1: rs1(word),
            amount: shift_amount(word),
        }),
    }
}

fn system(word: u32) -> Option<Instr>
    requires { opcode word ≡ SYSTEM }
    ensures { result ≡ instruction_of word }
{
    match funct3(word) {
        0b000 => match word {
            0x0000_0073 => Some(Instr::Ecall),
            0x0010_0073 => Some(Instr::Ebreak),
            0x3020_0073 => Some(Instr::Mret),
            0x1050_0073 => Some(Instr::Wfi),
            _ => None,
        },
        selector if selector < 0b100 => Some(Instr::Csr {
            op: csr_op(selector)?,
            rd: rd(word),
            csr: csr_address(word),
            source: CsrSource::Register(rs1(word)),
        }),
        selector => Some(Instr::Csr {
            op: csr_op(selector - 0b100)?,
            rd: rd(word),
            csr: csr_address(word),
            source: CsrSource::Immediate(csr_immediate(word)),
        }),
    }
}

/// The word of an instruction (Unprivileged ISA 20191213, 24). FENCE is 0ff0000f, which orders
/// everything, and FENCE.I is 0000100f: the fields that these two ignore have their standard values.
#[tactic(auto, using(crate::proofs::Relation::Decodes_instruction_of))]
pub fn encode(instruction: &Instr) -> u32
    ensures decodes { Decodes result instruction.now }
    ensures function { instruction_of result ≡ Some instruction.now }
    ensures fence { instruction.now ≡ Instr.Fence → result ≡ 0x0ff0000f }
    ensures fence_i { instruction.now ≡ Instr.FenceI → result ≡ 0x0000100f }
{
    word_of(instruction)
}

fn word_of(instruction: &Instr) -> u32
    ensures function { instruction_of result ≡ Some instruction.now }
    ensures fence { instruction.now ≡ Instr.Fence → result ≡ 0x0ff0000f }
    ensures fence_i { instruction.now ≡ Instr.FenceI → result ≡ 0x0000100f }
{
    match *instruction {
        Instr::Lui { rd, immediate } => u_type(LUI, rd, immediate),
        Instr::Auipc { rd, immediate } => u_type(AUIPC, rd, immediate),
        Instr::Jal { rd, offset } => j_type(JAL, rd, offset),
        Instr::Jalr { rd, rs1, offset } => i_type(JALR, 0b000, rd, rs1, offset),
        Instr::Branch {
            condition,
            rs1,
            rs2,
            offset,
        } => { b_type(BRANCH, branch_funct3(condition), rs1, rs2, offset) }
        Instr::Load {
            form,
            rd,
            rs1,
            offset,
        } => i_type(LOAD, load_funct3(form), rd, rs1, offset),
        Instr::Store {
            width,
            rs1,
            rs2,
            offset,
        } => { s_type(STORE, store_funct3(width), rs1, rs2, offset) }
        Instr::OpImmediate {
            op,
            rd,
            rs1,
            immediate,
        } => { i_type(OP_IMM, op_immediate_funct3(op), rd, rs1, immediate) }
        Instr::Shift {
            op,
            rd,
            rs1,
            amount,
        } => {
            let (funct7, funct3) = shift_funct(op);
            r_type(OP_IMM, funct7, funct3, rd, rs1, amount.value())
        }
        Instr::Op { op, rd, rs1, rs2 } => {
            let (funct7, funct3) = op_funct(op);
            r_type(OP, funct7, funct3, rd, rs1, u32::from(rs2.number()))
        }
        Instr::Fence => 0x0ff0_000f,
        Instr::FenceI => 0x0000_100f,
        Instr::Csr {
            op,
            rd,
            csr,
            source: CsrSource::Register(rs1),
        } => { csr_type(SYSTEM, csr_funct3(op), rd, u32::from(rs1.number()), csr) }
        Instr::Csr {
            op,
            rd,
            csr,
            source: CsrSource::Immediate(immediate),
        } => { csr_type(SYSTEM, csr_funct3(op) + 0b100, rd, immediate.value(), csr) }
        Instr::Ecall => 0x0000_0073,
        Instr::Ebreak => 0x0010_0073,
        Instr::Mret => 0x3020_0073,
        Instr::Wfi => 0x1050_0073,
    }
}
