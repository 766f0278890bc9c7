//! What single instructions do: each load and store width, operations, jumps and branches, CSR
//! instructions, and the cause and `mtval` of each fault.

use super::cases::{BASE, Case, LOW, PLAIN, TIMER, check, check_csr, machine};
use crate::checks::{check_equal, check_equal_at, check_true};
use rv_arch::{RefStep, Reference};
use rv_isa::{Cause, Reg};
use std::alloc::Global;
use std::process::Abort;

const LOADS: [u32; 18] = [
    0x0000_0297, // auipc x5,0
    0x0402_8303, // lb x6,64(x5)
    0x0402_c383, // lbu x7,64(x5)
    0x0412_8403, // lb x8,65(x5)
    0x0422_8483, // lb x9,66(x5)
    0x0422_c503, // lbu x10,66(x5)
    0x0402_9583, // lh x11,64(x5)
    0x0422_9603, // lh x12,66(x5)
    0x0442_9683, // lh x13,68(x5)
    0x0442_d703, // lhu x14,68(x5)
    0x0462_9783, // lh x15,70(x5)
    0x0462_d803, // lhu x16,70(x5)
    0x0442_a883, // lw x17,68(x5)
    0x0010_0073, // ebreak
    0x0000_0000,
    0x0000_0000,
    0x01ff_7f80, // .word 0x01ff7f80
    0x8001_8000, // .word 0x80018000
];

const STORES: [u32; 20] = [
    0x0000_0297, // auipc x5,0
    0x8765_4337, // lui x6,0x87654
    0x3213_0313, // addi x6,x6,0x321
    0x0462_a023, // sw x6,64(x5)
    0x0462_82a3, // sb x6,69(x5)
    0x0462_9523, // sh x6,74(x5)
    0x0462_87a3, // sb x6,79(x5)
    0x0402_a383, // lw x7,64(x5)
    0x0442_a403, // lw x8,68(x5)
    0x0482_a483, // lw x9,72(x5)
    0x04c2_a503, // lw x10,76(x5)
    0x0010_0073, // ebreak
    0x0000_0000,
    0x0000_0000,
    0x0000_0000,
    0x0000_0000,
    0xaaaa_aaaa, // .word 0xaaaaaaaa
    0xaaaa_aaaa, // .word 0xaaaaaaaa
    0xaaaa_aaaa, // .word 0xaaaaaaaa
    0xaaaa_aaaa, // .word 0xaaaaaaaa
];

const OPERATIONS: [u32; 17] = [
    0xff90_0293, // addi x5,x0,-7
    0x0030_0313, // addi x6,x0,3
    0x4062_83b3, // sub x7,x5,x6
    0xfff3_3413, // sltiu x8,x6,-1
    0xfff3_2493, // slti x9,x6,-1
    0x0f02_f513, // andi x10,x5,0xf0
    0x4012_d593, // srai x11,x5,1
    0x01c2_d613, // srli x12,x5,28
    0x01f3_1693, // slli x13,x6,31
    0x0000_1717, // auipc x14,1
    0xffff_f7b7, // lui x15,0xfffff
    0x0262_8833, // mul x16,x5,x6
    0x2053_28b3, // sh1add x17,x6,x5
    0xfff2_c913, // xori x18,x5,-1
    0x7013_6993, // ori x19,x6,0x701
    0x0013_0013, // addi x0,x6,1
    0x0010_0073, // ebreak
];

const JUMPS: [u32; 15] = [
    0x0080_02ef, // jal x5,8
    0x0010_0313, // addi x6,x0,1
    0x0000_0397, // auipc x7,0
    0x00d3_8467, // jalr x8,13(x7)
    0x0023_0313, // addi x6,x6,2
    0x0070_6463, // bltu x0,x7,8
    0x0043_0313, // addi x6,x6,4
    0x0070_4463, // blt x0,x7,8
    0x0090_0493, // addi x9,x0,9
    0x0073_9363, // bne x7,x7,6
    0x0073_d463, // bge x7,x7,8
    0x0083_0313, // addi x6,x6,8
    0x0313_8513, // addi x10,x7,49
    0x0005_0067, // jalr x0,0(x10)
    0x0010_0073, // ebreak
];

const CSR_INSTRUCTIONS: [u32; 15] = [
    0x05a0_0293, // addi x5,x0,0x5a
    0x3402_9373, // csrrw x6,mscratch,x5
    0x3400_23f3, // csrrs x7,mscratch,x0
    0x0210_0413, // addi x8,x0,0x21
    0x3404_24f3, // csrrs x9,mscratch,x8
    0x3402_b573, // csrrc x10,mscratch,x5
    0x3409_d5f3, // csrrwi x11,mscratch,19
    0x3404_e673, // csrrsi x12,mscratch,9
    0x3403_f6f3, // csrrci x13,mscratch,7
    0x3400_2773, // csrrs x14,mscratch,x0
    0x3400_1073, // csrrw x0,mscratch,x0
    0x3400_27f3, // csrrs x15,mscratch,x0
    0xf140_2873, // csrrs x16,mhartid,x0
    0xf110_78f3, // csrrci x17,mvendorid,0
    0x0010_0073, // ebreak
];

#[test]
fn loads_extend_by_the_sign_or_by_zeros(rt: HostRuntime) {
    static CASE: Case<'static> = Case {
        words: &LOADS,
        registers: &[
            (6, 0xffff_ff80),
            (7, 0x0000_0080),
            (8, 0x0000_007f),
            (9, 0xffff_ffff),
            (10, 0x0000_00ff),
            (11, 0x0000_7f80),
            (12, 0x0000_01ff),
            (13, 0xffff_8000),
            (14, 0x0000_8000),
            (15, 0xffff_8001),
            (16, 0x0000_8001),
            (17, 0x8001_8000),
        ],
        ..PLAIN
    };
    check(&rt, rt.alloc(), &CASE);
}

#[test]
fn stores_write_the_low_bytes_alone(rt: HostRuntime) {
    static CASE: Case<'static> = Case {
        words: &STORES,
        registers: &[
            (7, 0x8765_4321),
            (8, 0xaaaa_21aa),
            (9, 0x4321_aaaa),
            (10, 0x21aa_aaaa),
        ],
        ..PLAIN
    };
    check(&rt, rt.alloc(), &CASE);
}

#[test]
fn operations_take_registers_and_immediates(rt: HostRuntime) {
    static CASE: Case<'static> = Case {
        words: &OPERATIONS,
        registers: &[
            (0, 0),
            (5, 0xffff_fff9),
            (7, 0xffff_fff6),
            (8, 1),
            (9, 0),
            (10, 0xf0),
            (11, 0xffff_fffc),
            (12, 0xf),
            (13, 0x8000_0000),
            (14, 0x8000_1024),
            (15, 0xffff_f000),
            (16, 0xffff_ffeb),
            (17, 0xffff_ffff),
            (18, 6),
            (19, 0x703),
        ],
        ..PLAIN
    };
    check(&rt, rt.alloc(), &CASE);
}

// A branch that isn't taken does not fault, whatever its target; JALR clears bit 0 of its own.
#[test]
fn jumps_and_branches_go_to_their_targets(rt: HostRuntime) {
    static CASE: Case<'static> = Case {
        words: &JUMPS,
        registers: &[(5, 0x8000_0004), (6, 0), (8, 0x8000_0010), (9, 9)],
        ..PLAIN
    };
    check(&rt, rt.alloc(), &CASE);
}

// x0 and the immediate 0 set and clear nothing, so that they may name a read-only register.
#[test]
fn csr_instructions_answer_the_old_value(rt: HostRuntime) {
    static CASE: Case<'static> = Case {
        words: &CSR_INSTRUCTIONS,
        registers: &[
            (6, 0),
            (7, 0x5a),
            (9, 0x5a),
            (10, 0x7b),
            (11, 0x21),
            (12, 19),
            (13, 27),
            (14, 24),
            (15, 0),
            (16, 0),
            (17, 0),
        ],
        ..PLAIN
    };
    check(&rt, rt.alloc(), &CASE);
}

// The word, the cause's code and the word in mtval.
const FAULTS: [(u32, u32, u32); 22] = [
    (0x0022_80e7, 0, 0x8000_0002), // jalr x1,2(x5)
    (0x0060_00ef, 0, 0x8000_000e), // jal x1,6
    (0x0000_0363, 0, 0x8000_000e), // beq x0,x0,6
    (0x0000_0000, 2, 0x0000_0000), // .word 0
    (0xffff_ffff, 2, 0xffff_ffff), // .word -1
    (0xf142_93f3, 2, 0xf142_93f3), // csrrw x7,mhartid,x5
    (0xf140_f3f3, 2, 0xf140_f3f3), // csrrci x7,mhartid,1
    (0xb000_23f3, 2, 0xb000_23f3), // csrrs x7,0xb00,x0
    (0x0010_0073, 3, 0x0000_0000), // ebreak
    (0x0012_a383, 4, 0x8000_0001), // lw x7,1(x5)
    (0x0012_9383, 4, 0x8000_0001), // lh x7,1(x5)
    (0x0032_d383, 4, 0x8000_0003), // lhu x7,3(x5)
    (0x0023_2383, 4, 0x8001_0002), // lw x7,2(x6)
    (0x0003_2383, 5, 0x8001_0000), // lw x7,0(x6)
    (0x0003_0003, 5, 0x8001_0000), // lb x0,0(x6)
    (0xfff2_c383, 5, 0x7fff_ffff), // lbu x7,-1(x5)
    (0x0052_a123, 6, 0x8000_0002), // sw x5,2(x5)
    (0x0052_90a3, 6, 0x8000_0001), // sh x5,1(x5)
    (0x0053_2123, 6, 0x8001_0002), // sw x5,2(x6)
    (0x0053_2023, 7, 0x8001_0000), // sw x5,0(x6)
    (0xfe52_8fa3, 7, 0x7fff_ffff), // sb x5,-1(x5)
    (0x0000_0073, 11, 0x0000_0000), // ecall
];

// The pc of a step that trapped.
fn trap_pc(step: RefStep) -> Option<u32> {
    match step {
        RefStep::Trap { pc, .. } => Some(pc),
        _ => None,
    }
}

// Checks how the third step traps where a word is after auipc x5,0, lui x6,0x80010.
fn check_fault(rt: &impl Abort, alloc: Global, word: u32, code: u32, value: u32) {
    let mut reference = machine(rt, alloc, &[0x0000_0297, 0x8001_0337, word], 0);
    reference.step(LOW);
    reference.step(LOW);
    let step = reference.step(LOW);
    let seen = reference.observe();
    check_equal_at(rt, word, trap_pc(step), Some(BASE + 8));
    check_equal_at(rt, word, [seen.regs[1], seen.regs[7]], [0, 0]);
    check_csr(rt, &seen, 0x341, BASE + 8);
    check_equal_at(rt, word, seen.csrs.read(0x342, LOW), Some(code));
    check_equal_at(rt, word, seen.csrs.read(0x343, LOW), Some(value));
}

// x5 is RAM's first address, x6 the first after RAM; alignment is tested before the range. The
// codes are those of the Privileged Architecture 20211203, table 3.6.
#[test]
fn each_fault_has_its_code_and_value(rt: HostRuntime) {
    for (word, code, value) in &FAULTS {
        check_fault(&rt, rt.alloc(), *word, *code, *value);
    }
}

// Checks that the next step retires an instruction.
fn check_retires(
    rt: &impl Abort,
    reference: &mut Reference,
    pc: u32,
    word: u32,
    written: Option<(Reg, u32)>,
) {
    let step = RefStep::Retired { pc, word, written };
    check_equal_at(rt, word, reference.step(LOW), step);
}

// lui x6,0x80010, jalr x0,0(x6): the jump retires, and the fetch after RAM faults.
#[test]
fn fetch_outside_ram_faults_with_the_pc(rt: HostRuntime) {
    let mut reference = machine(&rt, rt.alloc(), &[0x8001_0337, 0x0003_0067], 0);
    reference.step(LOW);
    check_retires(&rt, &mut reference, BASE + 4, 0x0003_0067, None);
    let trap = RefStep::Trap {
        pc: 0x8001_0000,
        cause: Cause::InstructionAccessFault,
        value: 0x8001_0000,
    };
    check_equal(&rt, reference.step(LOW), trap);
    let seen = reference.observe();
    check_csr(&rt, &seen, 0x342, 1);
    check_csr(&rt, &seen, 0x343, 0x8001_0000);
}

// lui x6,0x80010, lb x7,-1(x6), addi x0,x6,1, fence, wfi
const STEPS: [u32; 5] = [
    0x8001_0337,
    0xfff3_0383,
    0x0013_0013,
    0x0ff0_000f,
    0x1050_0073,
];

// A register and what was written to it.
fn written(rt: &impl Abort, register: u8, value: u32) -> Option<(Reg, u32)> {
    Some((Reg::new(register).expect(rt, "a register"), value))
}

// lb x7,-1(x6) reads RAM's last byte; x0 drops what is written; fence and wfi only go on.
#[test]
fn a_step_says_what_retired(rt: HostRuntime) {
    let mut reference = machine(&rt, rt.alloc(), &STEPS, 0);
    let (x6, x7) = (written(&rt, 6, 0x8001_0000), written(&rt, 7, 0));
    check_retires(&rt, &mut reference, BASE, 0x8001_0337, x6);
    check_retires(&rt, &mut reference, BASE + 4, 0xfff3_0383, x7);
    check_retires(&rt, &mut reference, BASE + 8, 0x0013_0013, None);
    check_retires(&rt, &mut reference, BASE + 12, 0x0ff0_000f, None);
    check_retires(&rt, &mut reference, BASE + 16, 0x1050_0073, None);
}

// csrrwi x0,mstatus,8, li x5,0x80, csrw mie,x5, ebreak
const INTERRUPTED: [u32; 4] = [0x3004_5073, 0x0800_0293, 0x3042_9073, 0x0010_0073];

// The pc and the cause of a step that took an interrupt.
fn interrupt_of(step: RefStep) -> Option<(u32, u32)> {
    match step {
        RefStep::Interrupt { pc, cause } => Some((pc, cause)),
        _ => None,
    }
}

// Checks that three steps with the timer's line high retire instructions.
fn check_three_retire(rt: &impl Abort, reference: &mut Reference) {
    for _ in 0..3 {
        let step = reference.step(TIMER);
        check_true(rt, matches!(step, RefStep::Retired { .. }));
    }
}

// An interrupt comes before the instruction.
#[test]
fn an_interrupt_comes_before_the_instruction(rt: HostRuntime) {
    let mut reference = machine(&rt, rt.alloc(), &INTERRUPTED, 0);
    check_three_retire(&rt, &mut reference);
    let step = reference.step(TIMER);
    check_equal(&rt, interrupt_of(step), Some((BASE + 12, 0x8000_0007)));
    let seen = reference.observe();
    check_equal(&rt, seen.csrs.read(0x300, LOW), Some(0x1880));
    check_equal(&rt, seen.csrs.read(0x341, LOW), Some(BASE + 12));
    check_equal(&rt, seen.csrs.read(0x342, LOW), Some(0x8000_0007));
    check_equal(&rt, seen.csrs.read(0x343, LOW), Some(0));
}
