//! The operands and the kind of an instruction of each format (Unprivileged ISA 20191213, 2.2).

mod arithmetic;
mod arrivals;
mod comparison;
mod description;
mod images;
mod store_bytes;
mod values;

use crate::checks::check_equal_at;
use rv_decode::encode;
use rv_isa::{
    AluOp, BranchOffset, Condition, CsrAddress, CsrImmediate, CsrOp, CsrSource, Immediate,
    ImmediateOp, Instr, JumpOffset, Kind, LoadForm, Reg, ShiftAmount, ShiftOp, UpperImmediate,
    Width, kind, sources, target,
};
use std::process::Abort;

fn x(number: u8) -> Reg {
    Reg::new(number).unwrap_or(Reg::ZERO)
}

// Checks the sources, the target and the kind of an instruction. A failure shows the word.
fn check_operands(
    rt: &impl Abort,
    instruction: Instr,
    first: Option<Reg>,
    second: Option<Reg>,
    written: Option<Reg>,
    unit: Option<Kind>,
) {
    check_equal_at(
        rt,
        encode(&instruction),
        (
            sources(&instruction),
            target(&instruction),
            kind(&instruction),
        ),
        ([first, second], written, unit),
    );
}

// The instructions of each format, of rd x5, rs1 x6 and rs2 x7, or x0 where the name says so.
#[test]
fn each_format_has_its_registers_and_its_kind(rt: HostRuntime) {
    let (rd, rs1, rs2, zero) = (x(5), x(6), x(7), x(0));
    let (offset, number) = (Immediate::from_field(4), UpperImmediate::from_field(9));
    let csr = CsrAddress::from_field(0x340);
    check_operands(
        &rt,
        Instr::Lui {
            rd,
            immediate: number,
        },
        None,
        None,
        Some(rd),
        Some(Kind::Alu),
    );
    check_operands(
        &rt,
        Instr::Lui {
            rd: zero,
            immediate: number,
        },
        None,
        None,
        None,
        Some(Kind::Alu),
    );
    check_operands(
        &rt,
        Instr::Auipc {
            rd,
            immediate: number,
        },
        None,
        None,
        Some(rd),
        Some(Kind::Alu),
    );
    check_operands(
        &rt,
        Instr::Jal {
            rd,
            offset: JumpOffset::from_field(8),
        },
        None,
        None,
        Some(rd),
        Some(Kind::Alu),
    );
    check_operands(
        &rt,
        Instr::Jalr { rd, rs1, offset },
        Some(rs1),
        None,
        Some(rd),
        Some(Kind::Alu),
    );
    check_operands(
        &rt,
        Instr::Jalr {
            rd: zero,
            rs1: zero,
            offset,
        },
        Some(zero),
        None,
        None,
        Some(Kind::Alu),
    );
    check_operands(
        &rt,
        Instr::Branch {
            condition: Condition::Equal,
            rs1,
            rs2,
            offset: BranchOffset::from_field(8),
        },
        Some(rs1),
        Some(rs2),
        None,
        Some(Kind::Alu),
    );
    check_operands(
        &rt,
        Instr::Load {
            form: LoadForm::Word,
            rd,
            rs1,
            offset,
        },
        Some(rs1),
        None,
        Some(rd),
        Some(Kind::Mem),
    );
    check_operands(
        &rt,
        Instr::Store {
            width: Width::Word,
            rs1,
            rs2,
            offset,
        },
        Some(rs1),
        Some(rs2),
        None,
        Some(Kind::Mem),
    );
    check_operands(
        &rt,
        Instr::OpImmediate {
            op: ImmediateOp::Addi,
            rd,
            rs1,
            immediate: offset,
        },
        Some(rs1),
        None,
        Some(rd),
        Some(Kind::Alu),
    );
    check_operands(
        &rt,
        Instr::Shift {
            op: ShiftOp::Slli,
            rd,
            rs1,
            amount: ShiftAmount::from_field(3),
        },
        Some(rs1),
        None,
        Some(rd),
        Some(Kind::Alu),
    );
    check_operands(
        &rt,
        Instr::Op {
            op: AluOp::Sub,
            rd,
            rs1,
            rs2,
        },
        Some(rs1),
        Some(rs2),
        Some(rd),
        Some(Kind::Alu),
    );
    check_operands(&rt, Instr::Fence, None, None, None, None);
    check_operands(&rt, Instr::FenceI, None, None, None, None);
    check_operands(
        &rt,
        Instr::Csr {
            op: CsrOp::Set,
            rd,
            csr,
            source: CsrSource::Register(rs1),
        },
        Some(rs1),
        None,
        Some(rd),
        None,
    );
    check_operands(
        &rt,
        Instr::Csr {
            op: CsrOp::Set,
            rd,
            csr,
            source: CsrSource::Immediate(CsrImmediate::from_field(6)),
        },
        None,
        None,
        Some(rd),
        None,
    );
    check_operands(&rt, Instr::Ecall, None, None, None, None);
    check_operands(&rt, Instr::Ebreak, None, None, None, None);
    check_operands(&rt, Instr::Mret, None, None, None, None);
    check_operands(&rt, Instr::Wfi, None, None, None, None);
}
