//! What is noted of a word, for each format of the manuals' listings: a word with rd x5, rs1 x6 and rs2 x7.

use crate::checks::check_equal_at;
use crate::words::code_of;
use rv_decode::Decoded;
use rv_isa::{Kind, Reg};
use std::process::Abort;

const ALU: Option<Kind> = Some(Kind::Alu);

const MUL: Option<Kind> = Some(Kind::Mul);

const DIV: Option<Kind> = Some(Kind::Div);

const MEM: Option<Kind> = Some(Kind::Mem);

// No register.
const NONE: u8 = 32;

fn register(number: u8) -> Option<Reg> {
    Reg::new(number)
}

#[test]
fn each_format_has_its_kind_its_target_and_its_sources(rt: HostRuntime) {
    const CASES: [(u32, Option<Kind>, u8, [u8; 2]); 20] = [
        (0x8000_12b7, ALU, 5, [NONE, NONE]), // lui
        (0x8000_1297, ALU, 5, [NONE, NONE]), // auipc
        (0x554a_52ef, ALU, 5, [NONE, NONE]), // jal
        (0x7a53_02e7, ALU, 5, [6, NONE]), // jalr
        (0x5473_0a63, ALU, NONE, [6, 7]), // beq
        (0x7a53_2283, MEM, 5, [6, NONE]), // lw
        (0x5473_2aa3, MEM, NONE, [6, 7]), // sw
        (0x7a53_0293, ALU, 5, [6, NONE]), // addi
        (0x0153_1293, ALU, 5, [6, NONE]), // slli
        (0x0073_02b3, ALU, 5, [6, 7]), // add
        (0x0273_02b3, MUL, 5, [6, 7]), // mul
        (0x0273_42b3, DIV, 5, [6, 7]), // div
        (0x3403_12f3, None, 5, [6, NONE]), // csrrw
        (0x3403_52f3, None, 5, [NONE, NONE]), // csrrwi
        (0x0ff0_000f, None, NONE, [NONE, NONE]), // fence
        (0x0000_100f, None, NONE, [NONE, NONE]), // fence.i
        (0x0000_0073, None, NONE, [NONE, NONE]), // ecall
        (0x3020_0073, None, NONE, [NONE, NONE]), // mret
        (0x0000_0013, ALU, NONE, [0, NONE]), // addi x0,x0,0
        (0x0000_0000, None, NONE, [NONE, NONE]), // an illegal word
    ];
    for (word, kind, target, sources) in &CASES {
        let decoded = Decoded::of(*word);
        let [first, second] = *sources;
        check_equal_at(&rt, *word, decoded.kind(), *kind);
        check_equal_at(&rt, *word, decoded.target(), register(*target));
        check_equal_at(
            &rt,
            *word,
            decoded.sources(),
            [register(first), register(second)],
        );
    }
}

// Checks what a word does beside its kind: it stores, it waits to be the oldest, its execution gives the next pc.
fn check_does(rt: &impl Abort, word: u32, stores: bool, serialises: bool, leads: bool) {
    let decoded = Decoded::of(word);
    check_equal_at(rt, word, decoded.is_store(), stores);
    check_equal_at(rt, word, decoded.is_serialising(), serialises);
    check_equal_at(rt, word, decoded.is_branch_or_jump(), leads);
}

#[test]
fn stores_serialising_instructions_branches_and_jumps_are_known(rt: HostRuntime) {
    for word in [0x5473_0aa3, 0x5473_1aa3, 0x5473_2aa3] {
        check_does(&rt, word, true, false, false);
    }
    // fence.i, csrrw, csrrwi, mret
    for word in [0x0000_100f, 0x3403_12f3, 0x3403_52f3, 0x3020_0073] {
        check_does(&rt, word, false, true, false);
    }
    // jal, jalr, beq
    for word in [0x554a_52ef, 0x7a53_02e7, 0x5473_0a63] {
        check_does(&rt, word, false, false, true);
    }
    // lui, lw, add, fence, ecall, wfi, and an illegal word
    for word in [
        0x8000_12b7,
        0x7a53_2283,
        0x0073_02b3,
        0x0ff0_000f,
        0x0000_0073,
        0x1050_0073,
        0,
    ] {
        check_does(&rt, word, false, false, false);
    }
}

#[test]
fn loads_are_known(rt: HostRuntime) {
    // lb, lh, lw, lbu, lhu
    for word in [
        0x7a53_0283,
        0x7a53_1283,
        0x7a53_2283,
        0x7a53_4283,
        0x7a53_5283,
    ] {
        check_equal_at(&rt, word, Decoded::of(word).is_load(), true);
    }
    // sw, jalr, addi, fence, an illegal width of a load, and an illegal word
    for word in [
        0x5473_2aa3,
        0x7a53_02e7,
        0x7a53_0293,
        0x0ff0_000f,
        0x7a53_3283,
        0,
    ] {
        check_equal_at(&rt, word, Decoded::of(word).is_load(), false);
    }
}

#[test]
fn a_place_without_a_word_is_as_an_illegal_word(rt: HostRuntime) {
    let none = Decoded::none();
    check_equal_at(&rt, 0, code_of(*none.instruction()), None);
    check_equal_at(&rt, 0, none.kind(), None);
    check_equal_at(&rt, 0, none.target(), None);
    check_equal_at(&rt, 0, none.sources(), [None, None]);
    check_equal_at(&rt, 0, none.is_serialising(), false);
    check_equal_at(
        &rt,
        0x0073_02b3,
        code_of(*Decoded::of(0x0073_02b3).instruction()),
        Some(0x0073_02b3),
    );
}
