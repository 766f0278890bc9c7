use crate::log::waits::{SERIAL, log_of};
use crate::machine::narrow;
use rv_isa::Values;
use std::alloc::Global;
use std::process::Abort;

// mul x9,x6,x7; div x5,x6,x7; div x8,x5,x7; div x10,x6,x7. The multiplication retires in cycle 6, and the second division leaves its
// station in 8.
const DIVISIONS: &[u8] = &[
    0xb3, 0x04, 0x73, 0x02, 0xb3, 0x42, 0x73, 0x02, 0x33, 0xc4, 0x72, 0x02, 0x33, 0x45, 0x73, 0x02,
];

// sw x0,0(x0); sw x0,0(x0)
const STORES: &[u8] = &[0x23, 0x20, 0x00, 0x00, 0x23, 0x20, 0x00, 0x00];

// The machine that does one thing a cycle, with a reorder buffer for three, a store queue for one, and one station for divisions,
// which take four cycles.
fn small() -> Values {
    let mut values = narrow();
    values.rob = 3;
    values.store_queue = 1;
    values.kinds.div.stations = 1;
    values.kinds.div.latency = 4;
    values
}

// Checks which lines of a log say what room is waited for.
fn check_lines(rt: &impl Abort, log: &str, expected: &[&str]) {
    let mut rooms = log.lines().filter(|line| line.ends_with("; "));
    for line in expected {
        assert_eq!(rt; rooms.next(), Some(*line));
    }
    assert_eq!(rt; rooms.next(), None);
}

// Checks them in the log of some cycles of a program, from a cycle on.
fn check_rooms(
    rt: &impl Abort,
    alloc: Global,
    values: Values,
    program: &[u8],
    first: u64,
    cycles: u64,
    expected: &[&str],
) {
    let log = log_of(rt, alloc, values, program, first, cycles);
    check_lines(rt, log.as_str(), expected);
}

#[test]
fn a_label_says_what_room_the_oldest_fetched_word_waits_for_and_from_which_cycle_on(
    rt: HostRuntime,
) {
    static EXPECTED: [&str; 2] = [
        "L\t3\t1\twait for room in the reorder buffer from cycle 4; ",
        "L\t3\t1\twait for a station of its kind from cycle 6; ",
    ];
    check_rooms(&rt, rt.alloc(), small(), DIVISIONS, 0, 9, &EXPECTED);
}

// Of the cycle before a log it is not known why it dispatched nothing.
#[test]
fn a_log_begins_with_a_reason_of_its_own(rt: HostRuntime) {
    static EXPECTED: [&str; 2] = [
        "L\t3\t1\twait for room in the reorder buffer from cycle 5; ",
        "L\t3\t1\twait for a station of its kind from cycle 6; ",
    ];
    check_rooms(&rt, rt.alloc(), small(), DIVISIONS, 5, 3, &EXPECTED);
}

#[test]
fn a_store_waits_for_room_in_the_store_queue(rt: HostRuntime) {
    static EXPECTED: [&str; 1] = ["L\t1\t1\twait for room in the store queue from cycle 2; "];
    check_rooms(&rt, rt.alloc(), small(), STORES, 0, 4, &EXPECTED);
}

#[test]
fn words_after_a_serialising_instruction_wait_for_it(rt: HostRuntime) {
    static EXPECTED: [&str; 1] = ["L\t2\t1\twait for a serialising instruction from cycle 3; "];
    check_rooms(&rt, rt.alloc(), narrow(), SERIAL, 0, 8, &EXPECTED);
}
