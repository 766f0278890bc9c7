use crate::checks::check_true_at;
use rv_isa::{AluOp, Instr, Kind, Reg, alu, kind};
use std::process::Abort;

const LEAST: u32 = 0x8000_0000;

const MINUS_ONE: u32 = 0xffff_ffff;

// Checks an operation's value for each pair of operands. A failure shows the place in the list.
fn check_values(rt: &impl Abort, cases: &[(AluOp, u32, u32, u32)]) {
    for (place, (op, a, b, value)) in cases.iter().enumerate() {
        check_true_at(rt, place as u64, alu(*op, *a, *b) == *value);
    }
}

// Worked by hand from Unprivileged ISA 20191213, 2.4, 7.1 and 7.2, and Zba: 0xffff_fff8 is -8,
// 0xffff_fff9 is -7, 0xffff_fffd is -3 and 0xffff_fffe is -2.
#[test]
fn each_operation_has_its_own_values(rt: HostRuntime) {
    const CASES: [(AluOp, u32, u32, u32); 29] = [
        (AluOp::Add, 0xffff_fff8, 0x10, 8),
        (AluOp::Add, 3, 5, 8),
        (AluOp::Sub, 3, 5, 0xffff_fffe),
        (AluOp::Sll, 0x8000_0001, 33, 2),
        (AluOp::Slt, MINUS_ONE, 1, 1),
        (AluOp::Slt, 1, MINUS_ONE, 0),
        (AluOp::Sltu, MINUS_ONE, 1, 0),
        (AluOp::Sltu, 1, MINUS_ONE, 1),
        (AluOp::Sltu, 5, 7, 1),
        (AluOp::Xor, 0b1100, 0b1010, 0b0110),
        (AluOp::Or, 0b1100, 0b1010, 0b1110),
        (AluOp::And, 0b1100, 0b1010, 0b1000),
        (AluOp::Srl, 0x8000_0010, 36, 0x0800_0001),
        (AluOp::Sra, 0x8000_0010, 36, 0xf800_0001),
        (AluOp::Mul, 0xffff_fffd, 7, 0xffff_ffeb),
        (AluOp::Mulh, 0xffff_fffd, 0xffff_fffd, 0),
        (AluOp::Mulhsu, 0xffff_fffd, 0xffff_fffd, 0xffff_fffd),
        (AluOp::Mulhsu, 5, MINUS_ONE, 4),
        (AluOp::Mulhu, 0xffff_fffd, 0xffff_fffd, 0xffff_fffa),
        (AluOp::Mulhu, 0xffff_fffd, 7, 6),
        (AluOp::Div, 0xffff_fff9, 2, 0xffff_fffd),
        (AluOp::Div, 7, 0xffff_fffe, 0xffff_fffd),
        (AluOp::Divu, 0xffff_fff9, 2, 0x7fff_fffc),
        (AluOp::Rem, 0xffff_fff9, 2, MINUS_ONE),
        (AluOp::Rem, 7, 0xffff_fffe, 1),
        (AluOp::Remu, 0xffff_fff9, 2, 1),
        (AluOp::Sh1add, 0x8000_0003, 10, 16),
        (AluOp::Sh2add, 0x4000_0003, 10, 22),
        (AluOp::Sh3add, 0x2000_0003, 10, 34),
    ];
    check_values(&rt, &CASES);
}

// Unprivileged ISA 20191213, table 7.1, and the products of the least number.
#[test]
fn products_and_quotients_at_the_ends_of_the_range(rt: HostRuntime) {
    const CASES: [(AluOp, u32, u32, u32); 21] = [
        (AluOp::Div, LEAST, MINUS_ONE, LEAST),
        (AluOp::Rem, LEAST, MINUS_ONE, 0),
        (AluOp::Divu, LEAST, MINUS_ONE, 0),
        (AluOp::Remu, LEAST, MINUS_ONE, LEAST),
        (AluOp::Div, LEAST, 0, MINUS_ONE),
        (AluOp::Rem, LEAST, 0, LEAST),
        (AluOp::Divu, LEAST, 0, MINUS_ONE),
        (AluOp::Remu, LEAST, 0, LEAST),
        (AluOp::Mulh, LEAST, LEAST, 0x4000_0000),
        (AluOp::Mulhu, MINUS_ONE, MINUS_ONE, 0xffff_fffe),
        (AluOp::Mulhsu, LEAST, MINUS_ONE, LEAST),
        (AluOp::Mulhsu, MINUS_ONE, MINUS_ONE, MINUS_ONE),
        (AluOp::Sra, LEAST, 33, 0xc000_0000),
        (AluOp::Sh3add, 0x8000_0001, 0x10, 0x18),
        // Each of the five bits of an amount counts, and each bit of a sum and of a conjunction.
        (AluOp::And, LEAST, MINUS_ONE, LEAST),
        (AluOp::Sll, 0x8000_0001, 17, 0x0002_0000),
        (AluOp::Srl, 0x8000_0010, 17, 0x0000_4000),
        (AluOp::Sra, 0x8000_0010, 17, 0xffff_c000),
        (AluOp::Sh1add, 0x6000_0000, 1, 0xc000_0001),
        (AluOp::Sh2add, 0x6000_0000, 1, 0x8000_0001),
        (AluOp::Sh3add, 0x3000_0000, 1, 0x8000_0001),
    ];
    check_values(&rt, &CASES);
}

// The kind of the instruction that has an operation.
fn kind_of(op: AluOp) -> Option<Kind> {
    kind(&Instr::Op {
        op,
        rd: Reg::ZERO,
        rs1: Reg::ZERO,
        rs2: Reg::ZERO,
    })
}

#[test]
fn multiplications_and_divisions_have_kinds_of_their_own(rt: HostRuntime) {
    const CASES: [(AluOp, Kind); 21] = [
        (AluOp::Add, Kind::Alu),
        (AluOp::Sub, Kind::Alu),
        (AluOp::Sll, Kind::Alu),
        (AluOp::Slt, Kind::Alu),
        (AluOp::Sltu, Kind::Alu),
        (AluOp::Xor, Kind::Alu),
        (AluOp::Srl, Kind::Alu),
        (AluOp::Sra, Kind::Alu),
        (AluOp::Or, Kind::Alu),
        (AluOp::And, Kind::Alu),
        (AluOp::Mul, Kind::Mul),
        (AluOp::Mulh, Kind::Mul),
        (AluOp::Mulhsu, Kind::Mul),
        (AluOp::Mulhu, Kind::Mul),
        (AluOp::Div, Kind::Div),
        (AluOp::Divu, Kind::Div),
        (AluOp::Rem, Kind::Div),
        (AluOp::Remu, Kind::Div),
        (AluOp::Sh1add, Kind::Alu),
        (AluOp::Sh2add, Kind::Alu),
        (AluOp::Sh3add, Kind::Alu),
    ];
    for (place, (op, unit)) in CASES.iter().enumerate() {
        check_true_at(&rt, place as u64, kind_of(*op) == Some(*unit));
    }
}
