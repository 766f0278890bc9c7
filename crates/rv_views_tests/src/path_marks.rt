use crate::checks::check_bytes;
use crate::machine::{described, listing, narrow, no_arrivals, pipeline};
use rv_front::NotTaken;
use rv_path::{PathAccount, account_path, path_marks};
use rv_source::Listing;
use rv_text::Sink;
use std::alloc::Global;
use std::process::Abort;

// addi x1,x0,1; addi x2,x1,1; ebreak: the first addition is fetched in cycle 0, dispatched in 1, issued in 2 and broadcast in 3, the second
// is issued in 4, broadcast in 5 and retires in 6, and the breakpoint traps in 7. The first retires in 4.
const CHAIN: [u8; 12] = [
    0x93, 0x00, 0x10, 0x00, 0x13, 0x81, 0x10, 0x00, 0x73, 0x00, 0x10, 0x00,
];

// The numbers and columns of the marks in the window from a cycle on.
fn marks_from(rt: &impl Abort, alloc: Global, from: u64) -> Vec<(u64, u64)> {
    let arrivals = no_arrivals(rt, alloc);
    let mut pipeline = pipeline(rt, alloc, &described(rt, narrow()), &CHAIN);
    let marks = path_marks(alloc, &mut pipeline, &mut NotTaken, &arrivals, from, 100).expect(
        rt, "room",
    );
    let mut found = Vec::new(alloc);
    for mark in marks.iter() {
        found.reserve(1).expect(rt, "room");
        let _ = found.push((mark.number, mark.column));
    }
    found
}

// Checks those numbers and columns.
fn check_marks(rt: &impl Abort, alloc: Global, from: u64, expected: &[(u64, u64)]) {
    let marks = marks_from(rt, alloc, from);
    assert_eq!(rt; marks.as_slice(), expected);
}

#[test]
fn the_events_of_the_path_are_marked(rt: HostRuntime) {
    const ALL: [(u64, u64); 8] = [
        (2, 7),
        (1, 6),
        (1, 5),
        (1, 4),
        (0, 3),
        (0, 2),
        (0, 1),
        (0, 0),
    ];
    check_marks(&rt, rt.alloc(), 0, &ALL);
}

#[test]
fn a_later_window_numbers_what_is_in_flight_then(rt: HostRuntime) {
    const LATER: [(u64, u64); 3] = [(1, 2), (0, 1), (0, 0)];
    check_marks(&rt, rt.alloc(), 5, &LATER);
}

// Writes the sentences of an account, and answers whether a write failed.
fn fails_to_write(path: &PathAccount, listing: &Listing, output: &mut Vec<u8>) -> bool {
    let mut out = Sink::new(output);
    path.write_sentences(&mut out, listing);
    out.has_failed()
}

const SENTENCES: &[u8] = b"\
On the critical path, 25.0 % of the cycles: execution: alu, most at 80000000, line 1: addi x1, x0, 1\n\
On the critical path, 12.5 % of the cycles: front end, most at 80000000, line 1: addi x1, x0, 1\n\
On the critical path, 12.5 % of the cycles: dispatch to issue, most at 80000000, line 1: addi x1, x0, 1\n";

// The account of the whole run.
fn account(rt: &impl Abort, alloc: Global) -> PathAccount {
    let arrivals = no_arrivals(rt, alloc);
    let mut pipeline = pipeline(rt, alloc, &described(rt, narrow()), &CHAIN);
    account_path(alloc, &mut pipeline, &mut NotTaken, &arrivals, 100).expect(rt, "room")
}

// Checks the cycles on the path of words by their addresses.
fn check_cycles(rt: &impl Abort, path: &PathAccount, rows: &[(u32, u64)]) {
    for (address, cycles) in rows {
        assert_eq!(rt; path.cycles_at(*address), *cycles, "{address:08x}");
    }
}

#[test]
fn an_account_has_the_cycles_of_words_and_sentences(rt: HostRuntime) {
    const CYCLES: [(u32, u64); 3] = [(0x8000_0000, 3), (0x8000_0008, 1), (0x8000_0010, 0)];
    static LINES: [&str; 3] = ["addi x1, x0, 1", "addi x2, x1, 1", "ebreak"];
    let listing = listing(&rt, rt.alloc(), &LINES);
    let path = account(&rt, rt.alloc());
    check_cycles(&rt, &path, &CYCLES);
    let mut output = Vec::new(rt.alloc());
    assert!(&rt; !fails_to_write(&path, &listing, &mut output));
    check_bytes(&rt, output.as_slice(), SENTENCES);
}
