use crate::checks::{check_part, check_text};
use crate::log::logged;
use crate::machine::narrow;
use rv_isa::Values;
use std::alloc::Global;
use std::process::Abort;

// The log of some cycles of a program, from a cycle on.
pub(crate) fn log_of(
    rt: &impl Abort,
    alloc: Global,
    values: Values,
    program: &[u8],
    first: u64,
    cycles: u64,
) -> String {
    let (_, text) = logged(rt, alloc, values, program, &[], first, cycles);
    String::from_utf8(text).expect(rt, "ASCII")
}

// Checks that such a log has a line.
fn check_log(
    rt: &impl Abort,
    alloc: Global,
    values: Values,
    program: &[u8],
    first: u64,
    cycles: u64,
    line: &str,
) {
    let log = log_of(rt, alloc, values, program, first, cycles);
    check_part(rt, log.as_str(), line);
}

// The machine that does one thing a cycle, with a reorder buffer for four, in which a division takes three cycles.
fn short() -> Values {
    let mut values = narrow();
    values.rob = 4;
    values.kinds.div.latency = 3;
    values.kinds.div.pipelined = true;
    values
}

// div x5,x6,x7; addi x8,x5,1; addi x9,x0,1; addi x10,x5,1; ebreak
const DIVISION: &[u8] = &[
    0xb3, 0x42, 0x73, 0x02, 0x13, 0x84, 0x12, 0x00, 0x93, 0x04, 0x10, 0x00, 0x13, 0x85, 0x12, 0x00,
    0x73, 0x00, 0x10, 0x00,
];

// The division is fetched in cycle 0, dispatched in 1, issued in 2, broadcast in 5 and retired in 6; 0 / 0 is -1. The result of
// instruction 2 is ready in 5 too, and the older one has the bus. Instructions 1 and 3 wait for x5: 1 is issued in 6, and 3 waits
// for the unit then. The reorder buffer is full from cycle 4 on, and each instruction that retires lets one in, in its cycle: 6, 8,
// 9 and 10. In 11 the breakpoint flushes what came after it.
const LOG: &str = "Kanata\t0004
C=\t0
I\t0\t0\t0
L\t0\t0\t80000000: 027342b3
S\t0\t0\tF
C\t1
S\t0\t0\tD
I\t1\t1\t0
L\t1\t0\t80000004: 00128413
S\t1\t0\tF
C\t1
S\t0\t0\tX
S\t1\t0\tD
I\t2\t2\t0
L\t2\t0\t80000008: 00100493
S\t2\t0\tF
C\t1
S\t2\t0\tD
I\t3\t3\t0
L\t3\t0\t8000000c: 00128513
S\t3\t0\tF
C\t1
S\t2\t0\tX
S\t3\t0\tD
I\t4\t4\t0
L\t4\t0\t80000010: 00100073
S\t4\t0\tF
C\t1
S\t0\t0\tB
W\t1\t0\t0
S\t2\t0\tW
W\t3\t0\t0
I\t5\t5\t0
L\t5\t0\t80000014: 00000000
S\t5\t0\tF
L\t4\t1\twait for room in the reorder buffer from cycle 5; 
C\t1
S\t0\t0\tC
S\t1\t0\tX
S\t2\t0\tB
S\t4\t0\tD
I\t6\t6\t0
L\t6\t0\t80000018: 00000000
S\t6\t0\tF
C\t1
L\t0\t1\tretired, x5 (t0) = ffffffff, cost 3
R\t0\t0\t0
S\t1\t0\tB
S\t3\t0\tX
I\t7\t7\t0
L\t7\t0\t8000001c: 00000000
S\t7\t0\tF
L\t5\t1\twait for room in the reorder buffer from cycle 7; 
C\t1
S\t1\t0\tC
S\t3\t0\tB
S\t5\t0\tD
I\t8\t8\t0
L\t8\t0\t80000020: 00000000
S\t8\t0\tF
C\t1
L\t1\t1\tretired, x8 (s0) = 00000000, cost 1, waited 3 for x5/t0 of 80000000
R\t1\t1\t0
S\t2\t0\tC
S\t6\t0\tD
I\t9\t9\t0
L\t9\t0\t80000024: 00000000
S\t9\t0\tF
C\t1
L\t2\t1\tretired, x9 (s1) = 00000001, cost 1, waited 1 for the bus, 2 for the head
R\t2\t2\t0
S\t3\t0\tC
S\t7\t0\tD
I\t10\t10\t0
L\t10\t0\t80000028: 00000000
S\t10\t0\tF
C\t1
L\t3\t1\tretired, x10 (a0) = 00000000, cost 1, waited 1 for x5/t0 of 80000000, 1 for a unit, 1 for the head
R\t3\t3\t0
I\t11\t11\t0
L\t11\t0\t00000000: -
S\t11\t0\tF
C\t1
L\t4\t1\ttrapped, cause 3, waited 1 to dispatch, 4 for the head
R\t4\t4\t1
L\t5\t1\tsquashed, waited 2 to dispatch, 2 for the head
R\t5\t5\t1
L\t6\t1\tsquashed, waited 2 to dispatch, 1 for the head
R\t6\t6\t1
L\t7\t1\tsquashed, waited 2 to dispatch
R\t7\t7\t1
L\t8\t1\tsquashed, waited 2 to dispatch
R\t8\t8\t1
L\t9\t1\tsquashed, waited 1 to dispatch
R\t9\t9\t1
L\t10\t1\tsquashed
R\t10\t10\t1
";

#[test]
fn the_details_say_what_an_instruction_waited_for(rt: HostRuntime) {
    let log = log_of(&rt, rt.alloc(), short(), DIVISION, 0, 100);
    check_text(&rt, log.as_str(), LOG);
}

// Of what was dispatched before the log began it is not known on whose results it waited. That is known from its first cycle on.
#[test]
fn of_an_instruction_from_before_the_log_the_operand_is_not_known(rt: HostRuntime) {
    static CASES: [(u64, &str); 4] = [
        (
            4,
            "L\t1\t1\tretired, x8 (s0) = 00000000, cost 1, waited 3 for operands, a unit or the head\n",
        ),
        (
            4,
            "L\t3\t1\tretired, x10 (a0) = 00000000, cost 1, waited 1 for x5/t0 of 80000000, 1 for a unit, 1 for the head\n",
        ),
        (
            5,
            "L\t3\t1\tretired, x10 (a0) = 00000000, cost 1, waited 2 for operands, a unit or the head, 1 for the head\n",
        ),
        (
            5,
            "L\t4\t1\ttrapped, cause 3, waited 1 to dispatch, 4 for the head\n",
        ),
    ];
    for (first, line) in &CASES {
        check_log(&rt, rt.alloc(), short(), DIVISION, *first, 100, line);
    }
}

// div x6,x7,x8; auipc x5,0; sw x0,16(x5); lw x8,16(x5), where an addition takes four cycles. The addition is broadcast in cycle 7;
// the store has the unit in 8 and is broadcast in 9, and the load may not start before its address is known, in 10. It is broadcast
// in 11. The division is broadcast in 18, and from 19 on each cycle retires one.
const LOAD: &[u8] = &[
    0x33, 0xc3, 0x83, 0x02, 0x97, 0x02, 0x00, 0x00, 0x23, 0xa8, 0x02, 0x00, 0x03, 0xa4, 0x02, 0x01,
];

#[test]
fn a_load_waits_for_a_unit_the_port_or_older_stores(rt: HostRuntime) {
    let store = "L\t2\t1\tretired, cost 1, waited 4 for x5/t0 of 80000004, 11 for the head\n";
    let load =
        "L\t3\t1\tretired, x8 (s0) = 00000000, cost 1, waited 3 for x5/t0 of 80000004, 2 for a unit, the port or older stores, 10 for the head\n";
    let mut values = narrow();
    values.kinds.alu.latency = 4;
    check_log(&rt, rt.alloc(), values, LOAD, 0, 23, store);
    check_log(&rt, rt.alloc(), values, LOAD, 0, 23, load);
}

// Of each of these programs the third instruction waits for the results of the first two, at 80000000 and 80000004: a division and
// addi x6,x0,1, which are broadcast in cycles 5 and 3; or addi x5,x0,1 and addi x6,x0,1, both in 3. Its operands are x6 and x5, or
// x5 and x6.
const DIVISION_ADDED_SECOND: &[u8] = &[
    0xb3, 0x42, 0x73, 0x02, 0x13, 0x03, 0x10, 0x00, 0xb3, 0x03, 0x53, 0x00,
];

const DIVISION_ADDED_FIRST: &[u8] = &[
    0xb3, 0x42, 0x73, 0x02, 0x13, 0x03, 0x10, 0x00, 0xb3, 0x83, 0x62, 0x00,
];

const TOGETHER: &[u8] = &[
    0x93, 0x02, 0x10, 0x00, 0x13, 0x03, 0x10, 0x00, 0xb3, 0x03, 0x53, 0x00,
];

#[test]
fn the_operand_that_came_last_is_named_and_of_two_the_first(rt: HostRuntime) {
    static CASES: [(&[u8], &str); 3] = [
        (
            DIVISION_ADDED_SECOND,
            "L\t2\t1\tretired, x7 (t2) = 00000000, cost 1, waited 3 for x5/t0 of 80000000\n",
        ),
        (
            DIVISION_ADDED_FIRST,
            "L\t2\t1\tretired, x7 (t2) = 00000000, cost 1, waited 3 for x5/t0 of 80000000\n",
        ),
        (
            TOGETHER,
            "L\t2\t1\tretired, x7 (t2) = 00000002, cost 1, waited 1 for x6/t1 of 80000004\n",
        ),
    ];
    let mut values = Values::standard();
    values.kinds.div.latency = 3;
    for (program, line) in &CASES {
        check_log(&rt, rt.alloc(), values, program, 0, 9, line);
    }
}

// The program is div x5,x6,x7; ebreak; div x6,x6,x7, and these two. The first division is broadcast in cycle 5, and in 7 the
// breakpoint flushes all that waits for the second one.
const FLUSHED: [u8; 12] = [
    0xb3, 0x42, 0x73, 0x02, 0x73, 0x00, 0x10, 0x00, 0x33, 0x43, 0x73, 0x02,
];

// A program of FLUSHED and two words, each from its lowest byte on.
fn flushed(rt: &impl Abort, alloc: Global, fourth: u32, fifth: u32) -> Vec<u8> {
    let mut program = FLUSHED.to_vec(alloc).expect(rt, "a program");
    for word in [fourth, fifth] {
        program
            .extend_from_slice(&word.to_le_bytes())
            .expect(rt, "room for a word");
    }
    program
}

#[test]
fn a_squashed_instruction_waited_for_what_did_not_come(rt: HostRuntime) {
    // add x8,x5,x6; add x8,x6,x5; div x9,x6,x7; add x8,x9,x6; add x8,x6,x9
    static CASES: [(u32, u32, &str); 4] = [
        (
            0x0062_8433,
            0,
            "L\t3\t1\tsquashed, waited 2 for x6/t1 of 80000008\n",
        ),
        (
            0x0053_0433,
            0,
            "L\t3\t1\tsquashed, waited 2 for x6/t1 of 80000008\n",
        ),
        (
            0x0273_44b3,
            0x0064_8433,
            "L\t4\t1\tsquashed, waited 1 for x9/s1 of 8000000c\n",
        ),
        (
            0x0273_44b3,
            0x0093_0433,
            "L\t4\t1\tsquashed, waited 1 for x6/t1 of 80000008\n",
        ),
    ];
    let mut values = short();
    values.rob = 8;
    for (fourth, fifth, line) in &CASES {
        let program = flushed(&rt, rt.alloc(), *fourth, *fifth);
        check_log(&rt, rt.alloc(), values, program.as_slice(), 0, 100, line);
    }
}

// div x5,x6,x7; csrrw x0,mscratch,x0; and what comes after that, which is flushed once that retires.
pub(crate) const SERIAL: &[u8] = &[0xb3, 0x42, 0x73, 0x02, 0x73, 0x10, 0x00, 0x34];

#[test]
fn an_instruction_without_a_unit_waits_for_the_head(rt: HostRuntime) {
    let csr = "L\t1\t1\tretired, waited 4 for the head\n";
    let next = "L\t2\t1\tsquashed, waited 4 to dispatch\n";
    check_log(&rt, rt.alloc(), short(), SERIAL, 0, 8, csr);
    check_log(&rt, rt.alloc(), short(), SERIAL, 0, 8, next);
}
