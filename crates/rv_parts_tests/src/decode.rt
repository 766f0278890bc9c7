//! A word for each row of the manuals' listings (Unprivileged ISA 20191213, 24; Privileged Architecture 20211203, 3.3.2
//! and 3.3.3; Bit-Manipulation ISA-extensions 1.0.0, 1.1), put together by hand from the fields there: rd is x5, rs1 x6
//! and rs2 x7, or 6 where an immediate is in the place of rs1.

use crate::checks::{check_equal, check_equal_at};
use crate::words::code_of;
use rv_decode::{decode, encode};
use rv_isa::{
    AluOp, BranchOffset, Condition, CsrAddress, CsrImmediate, CsrOp, CsrSource, Immediate,
    ImmediateOp, Instr, JumpOffset, LoadForm, Reg, ShiftAmount, ShiftOp, UpperImmediate, Width,
};
use std::process::Abort;

fn x(rt: &impl Abort, number: u8) -> Reg {
    Reg::new(number).expect(rt, "a register's number")
}

fn immediate(rt: &impl Abort, value: i32) -> Immediate {
    Immediate::new(value).expect(rt, "an immediate")
}

// The word is the instruction, both ways.
fn same(rt: &impl Abort, word: u32, instruction: Instr) {
    check_equal_at(rt, word, code_of(decode(word)), Some(word));
    check_equal_at(rt, word, encode(&instruction), word);
}

#[test]
fn upper_immediates_and_jumps(rt: HostRuntime) {
    // The places of the offset's bits: bits 19 to 12 and 10 to 1, bit 11, and the sign.
    const CASES: [(u32, i32); 4] = [
        (0x554a_52ef, 0xa5554),
        (0x0010_02ef, 2048),
        (0xffdf_f2ef, -4),
        (0x8000_02ef, -0x100000),
    ];
    let rd = x(&rt, 5);
    let immediate = UpperImmediate::new(0x80001).expect(&rt, "twenty bits");
    same(&rt, 0x8000_12b7, Instr::Lui { rd, immediate });
    same(&rt, 0x8000_1297, Instr::Auipc { rd, immediate });
    for (word, offset) in &CASES {
        let offset = JumpOffset::new(*offset).expect(&rt, "even");
        same(&rt, *word, Instr::Jal { rd, offset });
    }
}

#[test]
fn branches(rt: HostRuntime) {
    // By 0x554: bits 10 to 5 are 101010, and bits 4 to 1 are 1010.
    const CASES: [(u32, Condition, i32); 8] = [
        (0x5473_0a63, Condition::Equal, 0x554),
        (0x5473_1a63, Condition::NotEqual, 0x554),
        (0x5473_4a63, Condition::LessThan, 0x554),
        (0x5473_5a63, Condition::GreaterOrEqual, 0x554),
        (0x5473_6a63, Condition::LessThanUnsigned, 0x554),
        (0x5473_7a63, Condition::GreaterOrEqualUnsigned, 0x554),
        (0x0073_00e3, Condition::Equal, 2048),
        (0x8073_0063, Condition::Equal, -4096),
    ];
    let (rs1, rs2) = (x(&rt, 6), x(&rt, 7));
    for (word, condition, offset) in &CASES {
        let offset = BranchOffset::new(*offset).expect(&rt, "even");
        let instruction = Instr::Branch {
            condition: *condition,
            rs1,
            rs2,
            offset,
        };
        same(&rt, *word, instruction);
    }
}

#[test]
fn loads_and_jalr(rt: HostRuntime) {
    const CASES: [(u32, LoadForm); 5] = [
        (0x7a53_0283, LoadForm::Byte),
        (0x7a53_1283, LoadForm::Half),
        (0x7a53_2283, LoadForm::Word),
        (0x7a53_4283, LoadForm::ByteUnsigned),
        (0x7a53_5283, LoadForm::HalfUnsigned),
    ];
    let (rd, rs1) = (x(&rt, 5), x(&rt, 6));
    let offset = immediate(&rt, 0x7a5);
    same(&rt, 0x7a53_02e7, Instr::Jalr { rd, rs1, offset });
    for (word, form) in &CASES {
        let instruction = Instr::Load {
            form: *form,
            rd,
            rs1,
            offset,
        };
        same(&rt, *word, instruction);
    }
}

#[test]
fn stores(rt: HostRuntime) {
    // By 0x555: bits 11 to 5 are 0101010, and bits 4 to 0 are 10101.
    const CASES: [(u32, Width, i32); 4] = [
        (0x5473_0aa3, Width::Byte, 0x555),
        (0x5473_1aa3, Width::Half, 0x555),
        (0x5473_2aa3, Width::Word, 0x555),
        (0x8073_2023, Width::Word, -2048),
    ];
    let (rs1, rs2) = (x(&rt, 6), x(&rt, 7));
    for (word, width, offset) in &CASES {
        let offset = immediate(&rt, *offset);
        let instruction = Instr::Store {
            width: *width,
            rs1,
            rs2,
            offset,
        };
        same(&rt, *word, instruction);
    }
}

#[test]
fn operations_with_an_immediate(rt: HostRuntime) {
    const CASES: [(u32, ImmediateOp, i32); 7] = [
        (0x7a53_0293, ImmediateOp::Addi, 0x7a5),
        (0x7a53_2293, ImmediateOp::Slti, 0x7a5),
        (0x7a53_3293, ImmediateOp::Sltiu, 0x7a5),
        (0x7a53_4293, ImmediateOp::Xori, 0x7a5),
        (0x7a53_6293, ImmediateOp::Ori, 0x7a5),
        (0x7a53_7293, ImmediateOp::Andi, 0x7a5),
        (0x8003_0293, ImmediateOp::Addi, -2048),
    ];
    const SHIFTS: [(u32, ShiftOp); 3] = [
        (0x0153_1293, ShiftOp::Slli),
        (0x0153_5293, ShiftOp::Srli),
        (0x4153_5293, ShiftOp::Srai),
    ];
    let (rd, rs1) = (x(&rt, 5), x(&rt, 6));
    for (word, op, value) in &CASES {
        let immediate = immediate(&rt, *value);
        let instruction = Instr::OpImmediate {
            op: *op,
            rd,
            rs1,
            immediate,
        };
        same(&rt, *word, instruction);
    }
    let amount = ShiftAmount::new(0b10101).expect(&rt, "five bits");
    for (word, op) in &SHIFTS {
        let instruction = Instr::Shift {
            op: *op,
            rd,
            rs1,
            amount,
        };
        same(&rt, *word, instruction);
    }
}

#[test]
fn operations_on_registers(rt: HostRuntime) {
    const CASES: [(u32, AluOp); 21] = [
        (0x0073_02b3, AluOp::Add),
        (0x4073_02b3, AluOp::Sub),
        (0x0073_12b3, AluOp::Sll),
        (0x0073_22b3, AluOp::Slt),
        (0x0073_32b3, AluOp::Sltu),
        (0x0073_42b3, AluOp::Xor),
        (0x0073_52b3, AluOp::Srl),
        (0x4073_52b3, AluOp::Sra),
        (0x0073_62b3, AluOp::Or),
        (0x0073_72b3, AluOp::And),
        (0x0273_02b3, AluOp::Mul),
        (0x0273_12b3, AluOp::Mulh),
        (0x0273_22b3, AluOp::Mulhsu),
        (0x0273_32b3, AluOp::Mulhu),
        (0x0273_42b3, AluOp::Div),
        (0x0273_52b3, AluOp::Divu),
        (0x0273_62b3, AluOp::Rem),
        (0x0273_72b3, AluOp::Remu),
        (0x2073_22b3, AluOp::Sh1add),
        (0x2073_42b3, AluOp::Sh2add),
        (0x2073_62b3, AluOp::Sh3add),
    ];
    let (rd, rs1, rs2) = (x(&rt, 5), x(&rt, 6), x(&rt, 7));
    for (word, op) in &CASES {
        same(
            &rt,
            *word,
            Instr::Op {
                op: *op,
                rd,
                rs1,
                rs2,
            },
        );
    }
    // Each of the five bits of a register's number counts.
    let rs2 = x(&rt, 23);
    let op = AluOp::Add;
    same(&rt, 0x0173_02b3, Instr::Op { op, rd, rs1, rs2 });
}

#[test]
fn csr_instructions(rt: HostRuntime) {
    let (rd, rs1) = (x(&rt, 5), x(&rt, 6));
    let number = CsrImmediate::new(6).expect(&rt, "five bits");
    // mscratch and mhartid
    for (with_register, with_number, op, csr) in [
        (0x3403_12f3, 0x3403_52f3, CsrOp::Write, 0x340),
        (0x3403_22f3, 0x3403_62f3, CsrOp::Set, 0x340),
        (0x3403_32f3, 0x3403_72f3, CsrOp::Clear, 0x340),
        (0xf143_22f3, 0xf143_62f3, CsrOp::Set, 0xf14),
    ] {
        let csr = CsrAddress::new(csr).expect(&rt, "twelve bits");
        for (word, source) in [
            (with_register, CsrSource::Register(rs1)),
            (with_number, CsrSource::Immediate(number)),
        ] {
            let instruction = Instr::Csr {
                op,
                rd,
                csr,
                source,
            };
            same(&rt, word, instruction);
        }
    }
}

#[test]
fn instructions_without_operands(rt: HostRuntime) {
    same(&rt, 0x0ff0_000f, Instr::Fence);
    same(&rt, 0x0000_100f, Instr::FenceI);
    same(&rt, 0x0000_0073, Instr::Ecall);
    same(&rt, 0x0010_0073, Instr::Ebreak);
    same(&rt, 0x3020_0073, Instr::Mret);
    same(&rt, 0x1050_0073, Instr::Wfi);
    // The fences ignore their other fields: fence.tso, and all ones.
    check_equal(&rt, code_of(decode(0x8330_000f)), Some(0x0ff0_000f));
    check_equal(&rt, code_of(decode(0xffff_8f8f)), Some(0x0ff0_000f));
    check_equal(&rt, code_of(decode(0xffff_9f8f)), Some(0x0000_100f));
}

// The word is no instruction.
fn check_illegal(rt: &impl Abort, word: u32) {
    check_equal_at(rt, word, code_of(decode(word)), None);
}

#[test]
fn words_in_no_row_are_illegal(rt: HostRuntime) {
    const ILLEGAL: [u32; 32] = [
        0x0000_0000, // all zeros
        0xffff_ffff, // all ones
        0x0000_0001, // c.nop
        0x0001_0001, // c.nop twice
        0x0000_1067, // jalr with funct3 1
        0x0000_2063, // a branch with funct3 2
        0x0000_3063, // a branch with funct3 3
        0x0000_3003, // ld
        0x0000_6003, // lwu
        0x0000_7003, // a load with funct3 7
        0x0000_3023, // sd
        0x0203_1293, // slli with bit 25 set
        0x0203_5293, // srli with bit 25 set
        0x4203_5293, // srai with bit 25 set
        0x4003_1293, // slli with srai's funct7
        0x0000_001b, // addiw
        0x4073_12b3, // sll with sub's funct7
        0x4073_22b3, // slt with sub's funct7
        0x4073_72b3, // and with sub's funct7
        0x0a73_42b3, // min
        0x2073_02b3, // sh1add's funct7 with funct3 0
        0x0473_02b3, // add with funct7 2
        0x0000_003b, // addw
        0x0000_200f, // MISC-MEM with funct3 2
        0x0000_4073, // SYSTEM with funct3 4
        0x0000_00f3, // ecall with rd x1
        0x0010_8073, // ebreak with rs1 x1
        0x0020_0073, // uret
        0x1020_0073, // sret
        0x3020_00f3, // mret with rd x1
        0x1050_8073, // wfi with rs1 x1
        0x1040_0073, // sfence.vm
    ];
    for word in &ILLEGAL {
        check_illegal(&rt, *word);
    }
}
