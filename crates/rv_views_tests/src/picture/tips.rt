use crate::checks::{check_none, check_part, check_text};
use crate::picture::rows::{WINDOW, drawn_rows, fetched};
use rv_decode::Decoded;
use rv_hardware::Stall;
use rv_isa::{Cause, Issue, Reg};
use rv_passage::{Ending, Passage, Producer, Producers};
use std::alloc::Global;
use std::process::Abort;

// beq x5,x6,8; addi x1,x0,5; add x8,x5,x6; mul x8,x5,x6; div x8,x5,x6; lw x7,0(x5); csrrw x0,mscratch,x0; mret.
const BRANCH: u32 = 0x0062_8463;

const ADDITION: u32 = 0x0050_0093;

const SUM: u32 = 0x0062_8433;

const PRODUCT: u32 = 0x0262_8433;

const QUOTIENT: u32 = 0x0262_c433;

const LOAD: u32 = 0x0002_a383;

const CSR: u32 = 0x3400_1073;

const RETURN: u32 = 0x3020_0073;

// An instruction at 80000010 that is fetched in cycle 10 and dispatched in 11, after which 80000014 is predicted.
fn dispatched(word: u32) -> Passage {
    Passage {
        instruction: Decoded::of(word),
        predicted: Some(0x8000_0014),
        dispatched: Some(11),
        ..fetched(7, 0x8000_0010, Some(word), 10)
    }
}

// It retires in cycle 19, and the program goes on at a pc.
fn retired(word: u32, next: u32) -> Passage {
    Passage {
        ending: Ending::Retired {
            order: 0,
            cycle: 19,
            written: None,
            next,
        },
        ..dispatched(word)
    }
}

// The SVG of some instructions, with what the oldest fetched word waits for in each cycle.
fn drawn(rt: &impl Abort, alloc: Global, rows: &[Passage], stalls: &[Option<Stall>]) -> String {
    drawn_rows(rt, alloc, rows, &[], stalls, None, &[], WINDOW)
}

// Checks that an instruction's row has one tip, and which.
fn check_tip(rt: &impl Abort, alloc: Global, row: Passage, tip: &str) {
    let svg = drawn(rt, alloc, &[row], &[]);
    let (_, after) = svg
        .split_once("</g>\n<title>")
        .expect(rt, "a tip of the row");
    let (shown, rest) = after.split_once("</title>\n</g>\n").expect(rt, "its end");
    check_text(rt, shown, tip);
    assert!(rt; !rest.contains("<title>"));
}

#[test]
fn the_tip_of_a_row_says_what_was_predicted_or_the_cause_of_a_trap(rt: HostRuntime) {
    let alloc = rt.alloc();
    let squashed = Passage {
        ending: Ending::Squashed { cycle: 14 },
        ..dispatched(BRANCH)
    };
    let trapped = Passage {
        ending: Ending::Trapped {
            cycle: 14,
            cause: Cause::LoadAccessFault,
        },
        ..dispatched(LOAD)
    };
    let went_on = retired(BRANCH, 0x8000_0018);
    let elsewhere = "predicted 80000014, but went on at 80000018";
    check_tip(&rt, alloc, went_on, elsewhere);
    let predicted = "predicted 80000014";
    check_tip(&rt, alloc, retired(BRANCH, 0x8000_0014), predicted);
    check_tip(&rt, alloc, dispatched(BRANCH), predicted);
    check_tip(&rt, alloc, squashed, predicted);
    check_tip(&rt, alloc, trapped, "trapped, cause 5");
}

// Checks that an instruction's row has no tip.
fn check_no_tip(rt: &impl Abort, alloc: Global, row: Passage) {
    static TIPS: [&str; 2] = ["</g>\n<title>", "predicted"];
    let svg = drawn(rt, alloc, &[row], &[]);
    check_none(rt, svg.as_str(), &TIPS);
}

// Only branches and jumps have predictions of their own: all others go on at the next word, but for MRET.
#[test]
fn other_rows_have_no_tip(rt: HostRuntime) {
    check_no_tip(&rt, rt.alloc(), retired(ADDITION, 0x8000_0014));
    check_no_tip(&rt, rt.alloc(), retired(RETURN, 0x8000_0100));
    check_no_tip(&rt, rt.alloc(), dispatched(LOAD));
}

// Checks that a cell has a tip of a cycle.
fn check_cell(rt: &impl Abort, alloc: Global, svg: &str, tip: &str, cycle: u32) {
    let shown = format!(in alloc; "<title>{tip} in cycle {cycle}</title>").expect(rt, "a text");
    check_part(rt, svg, shown.as_str());
}

// Checks that cells of some instructions have these tips of these cycles.
fn check_tips(
    rt: &impl Abort,
    alloc: Global,
    rows: &[Passage],
    stalls: &[Option<Stall>],
    tips: &[(&str, u32)],
) {
    let svg = drawn(rt, alloc, rows, stalls);
    for (tip, cycle) in tips {
        check_cell(rt, alloc, svg.as_str(), tip, *cycle);
    }
}

// What the oldest fetched word waits for from cycle 10 on.
const STALLS: [Option<Stall>; 10] = [
    Some(Stall::Fetch),
    Some(Stall::Rob),
    Some(Stall::Station),
    Some(Stall::Store),
    Some(Stall::Serial),
    None,
    None,
    Some(Stall::Station),
    None,
    Some(Stall::Fetch),
];

// What the tips of a word say that is fetched in cycle 10 and dispatched in cycle 16, while it is the oldest.
static ROOMS: [(&str, u32); 7] = [
    ("fetch", 10),
    ("wait for room in the reorder buffer", 11),
    ("wait for a station of its kind", 12),
    ("wait for room in the store queue", 13),
    ("wait for a serialising instruction", 14),
    ("wait for room or its turn to dispatch", 15),
    ("dispatch", 16),
];

// What those of a younger one say besides.
static TURNS: [(&str, u32); 6] = [
    ("wait for older ones to dispatch", 12),
    ("wait for older ones to dispatch", 15),
    ("wait for room or its turn to dispatch", 16),
    ("wait for a station of its kind", 17),
    ("wait for room or its turn to dispatch", 18),
    ("wait for room or its turn to dispatch", 19),
];

fn oldest() -> Passage {
    Passage {
        dispatched: Some(16),
        ..dispatched(ADDITION)
    }
}

#[test]
fn the_oldest_fetched_word_waits_for_room(rt: HostRuntime) {
    check_tips(&rt, rt.alloc(), &[oldest()], &STALLS, &ROOMS);
}

#[test]
fn the_others_wait_for_the_oldest_fetched_word(rt: HostRuntime) {
    let rows = [oldest(), fetched(8, 0x8000_0014, Some(ADDITION), 11)];
    check_tips(&rt, rt.alloc(), &rows, &STALLS, &ROOMS);
    check_tips(&rt, rt.alloc(), &rows, &STALLS, &TURNS);
}

fn producer(register: u8, pc: u32, broadcast: u64) -> Option<Producer> {
    Some(Producer {
        register: Reg::new(register)?,
        number: u64::from(register),
        pc,
        broadcast: Some(broadcast),
    })
}

#[test]
fn a_dispatched_one_waits_for_results_and_then_for_a_unit_the_bus_and_the_head(rt: HostRuntime) {
    static TIPS: [(&str, u32); 6] = [
        ("wait for x5/t0 of 80000000 and x6/t1 of 80000004", 12),
        ("wait for x5/t0 of 80000000 and x6/t1 of 80000004", 13),
        ("wait for x6/t1 of 80000004", 14),
        ("wait for a unit", 15),
        ("wait for the bus", 17),
        ("wait for the head", 19),
    ];
    let sum = Passage {
        producers: Producers {
            first: producer(5, 0x8000_0000, 13),
            second: producer(6, 0x8000_0004, 14),
        },
        issue: Some(Issue { cycle: 16, cost: 1 }),
        broadcast: Some(18),
        ending: Ending::Squashed { cycle: 20 },
        ..dispatched(SUM)
    };
    check_tips(&rt, rt.alloc(), &[sum], &[], &TIPS);
}

// Checks what an instruction waits for in cycle 12.
fn check_wait(rt: &impl Abort, alloc: Global, row: Passage, tip: &str) {
    let svg = drawn(rt, alloc, &[row], &[]);
    check_cell(rt, alloc, svg.as_str(), tip, 12);
}

#[test]
fn what_waits_for_no_result_waits_for_what_its_kind_needs(rt: HostRuntime) {
    let alloc = rt.alloc();
    let before = Passage {
        dispatched: Some(9),
        fetched: 8,
        ..dispatched(SUM)
    };
    let in_first = Passage {
        dispatched: Some(10),
        fetched: 9,
        ..dispatched(SUM)
    };
    let of_load = "wait for a unit, the port or older stores";
    check_wait(&rt, alloc, dispatched(LOAD), of_load);
    check_wait(&rt, alloc, dispatched(PRODUCT), "wait for a unit");
    check_wait(&rt, alloc, dispatched(QUOTIENT), "wait for a unit");
    check_wait(&rt, alloc, dispatched(CSR), "wait for the head");
    let unknown = "wait for operands, a unit or the head";
    check_wait(&rt, alloc, before, unknown);
    check_wait(&rt, alloc, in_first, "wait for a unit");
}
