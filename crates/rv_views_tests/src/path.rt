use crate::checks::check_bytes;
use crate::machine::{described, listing, narrow, no_arrivals, pipeline};
use rv_front::NotTaken;
use rv_isa::Values;
use rv_path::write_path;
use std::alloc::Global;
use std::process::Abort;

// The path of a run of a program with these lines.
fn path_of(
    rt: &impl Abort,
    alloc: Global,
    values: Values,
    program: &[u8],
    lines: &[&str],
) -> Vec<u8> {
    let arrivals = no_arrivals(rt, alloc);
    let listing = listing(rt, alloc, lines);
    let mut pipeline = pipeline(rt, alloc, &described(rt, values), program);
    let mut output = Vec::new(alloc);
    write_path(
        alloc,
        &mut pipeline,
        &mut NotTaken,
        &arrivals,
        100,
        &listing,
        &mut output,
    )
    .expect(rt, "room");
    output
}

// Checks that path.
fn check_path(
    rt: &impl Abort,
    alloc: Global,
    values: Values,
    program: &[u8],
    lines: &[&str],
    expected: &[u8],
) {
    let path = path_of(rt, alloc, values, program, lines);
    check_bytes(rt, path.as_slice(), expected);
}

// addi x1,x0,1; addi x2,x1,1; ebreak: the first addition is broadcast in cycle 3, the second is issued in 4 and retires in 6, and
// the breakpoint traps in 7.
const CHAIN: [u8; 12] = [
    0x93, 0x00, 0x10, 0x00, 0x13, 0x81, 0x10, 0x00, 0x73, 0x00, 0x10, 0x00,
];

const CHAIN_PATH: &[u8] = b"\
cycles 8\n\
before the first event 0 0.0 %\n\
after the last step 1 12.5 %\n\
execution: alu 2 25.0 %\n\
front end 1 12.5 %\n\
dispatch to issue 1 12.5 %\n\
operand 1 12.5 %\n\
commit 1 12.5 %\n\
commit width 1 12.5 %\n\
The lines of the program with the most cycles on the path:\n\
80000000, line 1: addi x1, x0, 1\n       cycles 3 37.5 %\n\
\x20      front end 1 12.5 %\n       dispatch to issue 1 12.5 %\n       execution: alu 1 12.5 %\n\
80000004, line 2: addi x2, x1, 1\n       cycles 3 37.5 %\n\
\x20      operand 1 12.5 %\n       execution: alu 1 12.5 %\n       commit 1 12.5 %\n\
80000008, line 3: ebreak\n       cycles 1 12.5 %\n\
\x20      commit width 1 12.5 %\n";

#[test]
fn an_operand_is_waited_for(rt: HostRuntime) {
    static LINES: [&str; 3] = ["addi x1, x0, 1", "addi x2, x1, 1", "ebreak"];
    check_path(&rt, rt.alloc(), narrow(), &CHAIN, &LINES, CHAIN_PATH);
}

// beq x0,x0,8; addi x4,x0,1; ebreak: the branch retires in cycle 4, and the breakpoint is fetched in that cycle, dispatched in 5
// and traps in 6. The refill is the branch's, whose prediction was wrong.
const BRANCH: [u8; 12] = [
    0x63, 0x04, 0x00, 0x00, 0x13, 0x02, 0x10, 0x00, 0x73, 0x00, 0x10, 0x00,
];

const BRANCH_PATH: &[u8] = b"\
cycles 7\n\
before the first event 0 0.0 %\n\
after the last step 1 14.3 %\n\
refill: wrong prediction 2 28.6 %\n\
front end 1 14.3 %\n\
dispatch to issue 1 14.3 %\n\
execution: alu 1 14.3 %\n\
commit 1 14.3 %\n\
The lines of the program with the most cycles on the path:\n\
80000000, line 1: beq x0, x0, 8\n       cycles 6 85.7 %\n\
\x20      refill: wrong prediction 2 28.6 %\n       front end 1 14.3 %\n       dispatch to issue 1 14.3 %\n";

#[test]
fn what_follows_a_wrong_prediction_is_a_refill(rt: HostRuntime) {
    static LINES: [&str; 3] = ["beq x0, x0, 8", "addi x4, x0, 1", "ebreak"];
    check_path(&rt, rt.alloc(), narrow(), &BRANCH, &LINES, BRANCH_PATH);
}

// addi x1,x0,1; addi x2,x0,2; ebreak: both additions are issued in cycle 2, the first is broadcast in 3 and the second in 4, and the
// breakpoint traps in 5, in which the second retires.
const PAIR: [u8; 12] = [
    0x93, 0x00, 0x10, 0x00, 0x13, 0x01, 0x20, 0x00, 0x73, 0x00, 0x10, 0x00,
];

const PAIR_PATH: &[u8] = b"\
cycles 6\n\
before the first event 0 0.0 %\n\
after the last step 1 16.7 %\n\
front end 1 16.7 %\n\
dispatch to issue 1 16.7 %\n\
execution: alu 1 16.7 %\n\
common data bus full 1 16.7 %\n\
commit 1 16.7 %\n\
The lines of the program with the most cycles on the path:\n\
80000000, line 1: addi x1, x0, 1\n       cycles 3 50.0 %\n\
\x20      front end 1 16.7 %\n       dispatch to issue 1 16.7 %\n       execution: alu 1 16.7 %\n\
80000004, which no line of the program fills\n       cycles 2 33.3 %\n\
\x20      common data bus full 1 16.7 %\n       commit 1 16.7 %\n";

#[test]
fn a_result_waits_for_a_full_bus(rt: HostRuntime) {
    static LINES: [&str; 1] = ["addi x1, x0, 1"];
    let mut values = Values::standard();
    values.bus_width = 1;
    check_path(&rt, rt.alloc(), values, &PAIR, &LINES, PAIR_PATH);
}

// lui x5,0x80001; sw x0,0(x5); sw x0,64(x5); fence.i; ebreak: both stores miss, so the second begins to drain when the first has drained,
// 11 cycles after it, and the FENCE.I waits for the second one's drain.
const DRAINS: [u8; 20] = [
    0xb7, 0x12, 0x00, 0x80, 0x23, 0xa0, 0x02, 0x00, 0x23, 0xa0, 0x02, 0x04, 0x0f, 0x10, 0x00, 0x00,
    0x73, 0x00, 0x10, 0x00,
];

const DRAINS_PATH: &[u8] = b"\
cycles 52\n\
before the first event 0 0.0 %\n\
after the last step 1 1.9 %\n\
port: a store 23 44.2 %\n\
lines written back 20 38.5 %\n\
refill: serialising instruction 2 3.8 %\n\
front end 1 1.9 %\n\
dispatch to issue 1 1.9 %\n\
operand 1 1.9 %\n\
execution: alu 1 1.9 %\n\
execution: mem 1 1.9 %\n\
commit 1 1.9 %\n\
The lines of the program with the most cycles on the path:\n\
8000000c, line 4: fence.i\n       cycles 34 65.4 %\n\
\x20      lines written back 20 38.5 %\n       port: a store 12 23.1 %\n       refill: serialising instruction 2 3.8 %\n\
80000008, line 3: sw x0, 64(x5)\n       cycles 11 21.2 %\n\
\x20      port: a store 11 21.2 %\n\
80000000, line 1: lui x5, 0x80001\n       cycles 3 5.8 %\n\
\x20      front end 1 1.9 %\n       dispatch to issue 1 1.9 %\n       execution: alu 1 1.9 %\n\
80000004, line 2: sw x0, 0(x5)\n       cycles 3 5.8 %\n\
\x20      operand 1 1.9 %\n       execution: mem 1 1.9 %\n       commit 1 1.9 %\n";

#[test]
fn a_drain_is_on_account_of_its_store(rt: HostRuntime) {
    static LINES: [&str; 5] = [
        "lui x5, 0x80001",
        "sw x0, 0(x5)",
        "sw x0, 64(x5)",
        "fence.i",
        "ebreak",
    ];
    check_path(&rt, rt.alloc(), narrow(), &DRAINS, &LINES, DRAINS_PATH);
}
