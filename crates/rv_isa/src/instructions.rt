ghost use Rattle.std.specs.Prelude.{◌≡◌, ◌≢◌, ◌<◌, IfSome};
ghost use Rattle.std.specs.List.{All};
ghost use Rattle.rv_isa.specs.Operands.{sources_of, target_of, kind_of};

use crate::arithmetic::{AluOp, operation_kind};
use crate::fields::{
    BranchOffset, CsrAddress, CsrImmediate, Immediate, JumpOffset, ShiftAmount, UpperImmediate,
};
use crate::operations::{Condition, CsrOp, ImmediateOp, Kind, LoadForm, ShiftOp, Width};
use crate::registers::Reg;

/// The source of a CSR instruction, in bits 19 to 15 of its word (Unprivileged ISA 20191213, 9.1).
#[derive(Clone, Copy)]
pub enum CsrSource {
    /// A register, whose value is the source.
    Register(Reg),
    /// A number from 0 to 31, which is the source itself.
    Immediate(CsrImmediate),
}

/// One instruction of RV32IM with Zicsr, Zifencei and Zba's shifted additions, or of machine mode
/// (Unprivileged ISA 20191213, 24; Privileged Architecture 20211203, 3.3).
#[derive(Clone, Copy)]
pub enum Instr {
    /// `rd` becomes the immediate times 4096.
    Lui {
        rd: Reg,
        immediate: UpperImmediate,
    },
    /// `rd` becomes the pc plus the immediate times 4096.
    Auipc {
        rd: Reg,
        immediate: UpperImmediate,
    },
    /// A jump to the pc plus the offset; `rd` becomes pc + 4.
    Jal {
        rd: Reg,
        offset: JumpOffset,
    },
    /// A jump to `rs1` plus the offset with bit 0 cleared; `rd` becomes pc + 4.
    Jalr {
        rd: Reg,
        rs1: Reg,
        offset: Immediate,
    },
    /// A jump to the pc plus the offset where the condition holds of `rs1` and `rs2`.
    Branch {
        condition: Condition,
        rs1: Reg,
        rs2: Reg,
        offset: BranchOffset,
    },
    /// `rd` becomes what memory holds at `rs1` plus the offset.
    Load {
        form: LoadForm,
        rd: Reg,
        rs1: Reg,
        offset: Immediate,
    },
    /// The low bytes of `rs2` are written at `rs1` plus the offset.
    Store {
        width: Width,
        rs1: Reg,
        rs2: Reg,
        offset: Immediate,
    },
    /// `rd` becomes the operation's value of `rs1` and the immediate.
    OpImmediate {
        op: ImmediateOp,
        rd: Reg,
        rs1: Reg,
        immediate: Immediate,
    },
    /// `rd` becomes `rs1` shifted by the amount.
    Shift {
        op: ShiftOp,
        rd: Reg,
        rs1: Reg,
        amount: ShiftAmount,
    },
    /// `rd` becomes the operation's value of `rs1` and `rs2`.
    Op {
        op: AluOp,
        rd: Reg,
        rs1: Reg,
        rs2: Reg,
    },
    /// Orders accesses to memory, which this machine does in order already.
    Fence,
    /// Makes earlier stores visible to the fetch of later instructions.
    FenceI,
    /// `rd` becomes the CSR's old value, and the CSR changes by the operation and the source.
    Csr {
        op: CsrOp,
        rd: Reg,
        csr: CsrAddress,
        source: CsrSource,
    },
    /// Asks the execution environment for a service, by a trap.
    Ecall,
    /// Hands control to a debugging environment, by a trap.
    Ebreak,
    /// Returns from a trap.
    Mret,
    /// Waits for an interrupt, which this machine takes as no operation.
    Wfi,
}

/// The registers that an instruction reads, first `rs1` and then `rs2`; `None` where it has no such
/// operand. Register x0 is named like any other.
#[tactic(auto, using(crate::proofs::TwoRegisters::two_registers))]
pub fn sources(instruction: &Instr) -> [Option<Reg>; 2]
    ensures sources { result ≡ sources_of instruction.now }
    ensures in_range { All (λ source. IfSome source (λ register. register < 32)) result }
{
    match *instruction {
        Instr::Lui { .. } | Instr::Auipc { .. } | Instr::Jal { .. } => [None, None],
        Instr::Jalr { rs1, .. }
        | Instr::Load { rs1, .. }
        | Instr::OpImmediate { rs1, .. }
        | Instr::Shift { rs1, .. } => [rs1.operand(), None],
        Instr::Branch { rs1, rs2, .. }
        | Instr::Store { rs1, rs2, .. }
        | Instr::Op { rs1, rs2, .. } => [rs1.operand(), rs2.operand()],
        Instr::Csr { source, .. } => match source {
            CsrSource::Register(rs1) => [rs1.operand(), None],
            CsrSource::Immediate(_) => [None, None],
        },
        Instr::Fence | Instr::FenceI | Instr::Ecall | Instr::Ebreak | Instr::Mret | Instr::Wfi => [
            None, None,
        ],
    }
}

/// The register that an instruction writes, or `None` where it writes none or x0.
pub fn target(instruction: &Instr) -> Option<Reg>
    ensures target { result ≡ target_of instruction.now }
    ensures in_range { IfSome result (λ register. (register ≢ 0) × (register < 32)) }
{
    let rd = match *instruction {
        Instr::Lui { rd, .. }
        | Instr::Auipc { rd, .. }
        | Instr::Jal { rd, .. }
        | Instr::Jalr { rd, .. }
        | Instr::Load { rd, .. }
        | Instr::OpImmediate { rd, .. }
        | Instr::Shift { rd, .. }
        | Instr::Op { rd, .. }
        | Instr::Csr { rd, .. } => rd,
        Instr::Branch { .. }
        | Instr::Store { .. }
        | Instr::Fence
        | Instr::FenceI
        | Instr::Ecall
        | Instr::Ebreak
        | Instr::Mret
        | Instr::Wfi => Reg::ZERO,
    };
    if rd.number() == 0 { None } else { Some(rd) }
}

/// The kind of unit that executes an instruction, or `None` where it uses none.
pub fn kind(instruction: &Instr) -> Option<Kind>
    ensures { result ≡ kind_of instruction.now }
{
    match *instruction {
        Instr::Load { .. } | Instr::Store { .. } => Some(Kind::Mem),
        Instr::Op { op, .. } => Some(operation_kind(op)),
        Instr::Lui { .. }
        | Instr::Auipc { .. }
        | Instr::Jal { .. }
        | Instr::Jalr { .. }
        | Instr::Branch { .. }
        | Instr::OpImmediate { .. }
        | Instr::Shift { .. } => Some(Kind::Alu),
        Instr::Fence
        | Instr::FenceI
        | Instr::Csr { .. }
        | Instr::Ecall
        | Instr::Ebreak
        | Instr::Mret
        | Instr::Wfi => None,
    }
}
