use crate::checks::check_end;
use crate::json::expect_text;
use rv_decode::{Decoded, encode};
use rv_isa::{AluOp, Cause, Fault, Immediate, Instr, Issue, Message, Reg, Width};
use rv_rob::{Entry, Stage};
use rv_states::write_entry;
use rv_text::Sink;
use std::alloc::Global;
use std::process::Abort;

fn register(number: u8) -> Reg {
    Reg::new(number).unwrap_or(Reg::ZERO)
}

// An operation on x6 and x7 into x5.
fn operation(op: AluOp) -> Instr {
    Instr::Op {
        op,
        rd: register(5),
        rs1: register(6),
        rs2: register(7),
    }
}

// An instruction that has come so far.
fn entry(instruction: Instr, stage: Stage) -> Entry {
    Entry {
        pc: 20,
        word: Some(21),
        instruction: Decoded::of(encode(&instruction)),
        predicted_next: 24,
        fetched: 25,
        dispatched: 26,
        stage,
    }
}

const ISSUE: Issue = Issue {
    cycle: 27,
    cost: 28,
};

const MESSAGE: Message = Message {
    value: 30,
    fault: None,
    next_pc: 31,
    store: None,
};

const FAULTING: Message = Message {
    value: 30,
    fault: Some(Fault {
        cause: Cause::LoadAccessFault,
        value: 2147483680,
    }),
    next_pc: 31,
    store: None,
};

const HEAD: &str = "{\"sequence\":19,\"pc\":20,\"word\":21,\"fetched\":25,\"dispatched\":26,\
\"predicted\":24,\"target\":5,\"kind\":\"mul\"";

// What stands after the head at each stage.
const STAGES: [(Stage, &str); 5] = [
    (Stage::Waiting, ""),
    (
        Stage::Running {
            issue: ISSUE,
            message: FAULTING,
        },
        ",\"issued\":27,\"cost\":28",
    ),
    (
        Stage::Finished {
            issue: Some(ISSUE),
            cycle: 29,
            message: MESSAGE,
        },
        ",\"issued\":27,\"cost\":28,\"finished\":29,\"value\":30,\"next_pc\":31",
    ),
    (
        Stage::Finished {
            issue: Some(ISSUE),
            cycle: 29,
            message: FAULTING,
        },
        ",\"issued\":27,\"cost\":28,\"finished\":29,\"value\":30,\"next_pc\":31,\"cause\":5,\"mtval\":2147483680",
    ),
    (
        Stage::Finished {
            issue: None,
            cycle: 29,
            message: FAULTING,
        },
        ",\"finished\":29,\"value\":30,\"next_pc\":31,\"cause\":5,\"mtval\":2147483680",
    ),
];

// What an entry is shown as.
fn shown(alloc: Global, instruction: Instr, stage: Stage) -> Vec<u8> {
    let mut text = Vec::new(alloc);
    write_entry(&mut Sink::new(&mut text), 19, &entry(instruction, stage));
    text
}

// Checks what stands after the head at a stage.
fn check_stage(rt: &impl Abort, alloc: Global, stage: Stage, end: &str) {
    let text = shown(alloc, operation(AluOp::Mul), stage);
    let expected = format!(in alloc; "{HEAD}{end}").expect(rt, "a text");
    expect_text(rt, &text, expected.as_bytes());
}

#[test]
fn an_entry_shows_how_far_it_has_come(rt: HostRuntime) {
    for (stage, end) in &STAGES {
        check_stage(&rt, rt.alloc(), *stage, end);
    }
}

#[test]
fn an_entry_of_no_word_has_neither_target_nor_kind(rt: HostRuntime) {
    let mut text = Vec::new(rt.alloc());
    let entry = Entry {
        word: None,
        instruction: Decoded::none(),
        ..entry(Instr::Ecall, Stage::Waiting)
    };
    write_entry(&mut Sink::new(&mut text), 19, &entry);
    let expected = b"{\"sequence\":19,\"pc\":20,\"fetched\":25,\"dispatched\":26,\"predicted\":24";
    expect_text(&rt, &text, expected);
}

// Checks how an entry ends that waits.
fn check_kind(rt: &impl Abort, alloc: Global, instruction: Instr, end: &[u8]) {
    let text = shown(alloc, instruction, Stage::Waiting);
    check_end(rt, text.as_slice(), end);
}

#[test]
fn an_entry_has_its_target_and_its_kind_of_unit(rt: HostRuntime) {
    let alloc = rt.alloc();
    let store = Instr::Store {
        width: Width::Byte,
        rs1: register(8),
        rs2: register(9),
        offset: Immediate::new(10).expect(&rt, "an offset"),
    };
    let sum = b",\"predicted\":24,\"target\":5,\"kind\":\"alu\"";
    check_kind(&rt, alloc, operation(AluOp::Sub), sum);
    let product = b",\"target\":5,\"kind\":\"mul\"";
    check_kind(&rt, alloc, operation(AluOp::Mulh), product);
    let remainder = b",\"target\":5,\"kind\":\"div\"";
    check_kind(&rt, alloc, operation(AluOp::Remu), remainder);
    check_kind(&rt, alloc, store, b",\"predicted\":24,\"kind\":\"mem\"");
    check_kind(&rt, alloc, Instr::Ecall, b",\"predicted\":24");
}
