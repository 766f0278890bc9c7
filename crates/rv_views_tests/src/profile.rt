use crate::checks::{check, check_end, check_start};
use crate::machine::{described, listing, narrow, no_arrivals, pipeline};
use rv_front::NotTaken;
use rv_profile::write_profile;
use std::alloc::Global;
use std::process::Abort;

// auipc x1,0; lw x2,0(x1); lw x3,4(x1); beq x0,x0,8; addi x4,x0,1; ebreak
const BYTES: [u8; 24] = [
    0x97, 0x00, 0x00, 0x00, 0x03, 0xa1, 0x00, 0x00, 0x83, 0xa1, 0x40, 0x00, 0x63, 0x04, 0x00, 0x00,
    0x13, 0x02, 0x10, 0x00, 0x73, 0x00, 0x10, 0x00,
];

const HEAD: &[u8] = b"\
address\tline\tstatement\tfetched\tretired\tsquashed\tdispatch_mean\tdispatch_most\tissue_mean\tissue_most\t\
broadcast_mean\tbroadcast_most\tretire_mean\tretire_most\thits\tmisses\tmispredicted\thead\n";

// By the stamps of the instructions: the first load is issued in cycle 4 and broadcast in 15, from which on the second has the
// port of the cache; the branch is broadcast in cycle 6 and retires in 18, and what was fetched after it is squashed then.
const LINES: &[u8] = b"\
00000000\t\t\t1\t0\t0\t-\t-\t-\t-\t-\t-\t-\t-\t0\t0\t0\t0\n\
80000000\t1\tauipc x1,0\t1\t1\t0\t1.000\t1\t1.000\t1\t1.000\t1\t1.000\t1\t0\t0\t0\t3\n\
80000004\t2\tlw x2,0(x1)\t1\t1\t0\t1.000\t1\t2.000\t2\t11.000\t11\t1.000\t1\t0\t1\t0\t12\n\
80000008\t3\tlw x3,4(x1)\t1\t1\t0\t1.000\t1\t12.000\t12\t1.000\t1\t1.000\t1\t1\t0\t0\t1\n\
8000000c\t4\tbeq x0,x0,8\t1\t1\t0\t1.000\t1\t1.000\t1\t1.000\t1\t12.000\t12\t0\t0\t1\t1\n\
80000010\t5\taddi x4,x0,1\t1\t0\t1\t-\t-\t-\t-\t-\t-\t-\t-\t0\t0\t0\t0\n\
80000014\t\t\t2\t0\t1\t-\t-\t-\t-\t-\t-\t-\t-\t0\t0\t0\t1\n\
80000018\t\t\t2\t0\t2\t-\t-\t-\t-\t-\t-\t-\t-\t0\t0\t0\t0\n\
8000001c\t\t\t1\t0\t1\t-\t-\t-\t-\t-\t-\t-\t-\t0\t0\t0\t0\n";

// The profile of a program with these lines.
fn profiled(rt: &impl Abort, alloc: Global, program: &[u8], lines: &[&str]) -> Vec<u8> {
    let mut values = narrow();
    values.rob = 4;
    values.fetch_buffer = 1;
    let description = described(rt, values);
    let arrivals = no_arrivals(rt, alloc);
    let listing = listing(rt, alloc, lines);
    let mut output = Vec::new(alloc);
    let mut pipeline = pipeline(rt, alloc, &description, program);
    let mut predictor = NotTaken;
    write_profile(
        alloc,
        &mut pipeline,
        &mut predictor,
        &description,
        &arrivals,
        100,
        None,
        &listing,
        &mut output,
    )
    .expect(rt, "room");
    output
}

// Checks that the profile of a program is its head and these lines.
fn check_profile(rt: &impl Abort, alloc: Global, program: &[u8], source: &[&str], lines: &[u8]) {
    let profile = profiled(rt, alloc, program, source);
    check_start(rt, profile.as_slice(), HEAD);
    check_end(rt, profile.as_slice(), lines);
    check(rt, profile.len() == HEAD.len().wrapping_add(lines.len()));
}

// The first load misses and the second one hits; the branch, which is taken, was predicted not to be.
#[test]
fn each_address_has_a_line_of_its_counts(rt: HostRuntime) {
    static SOURCE: [&str; 5] = [
        "auipc x1,0",
        "lw x2,0(x1)",
        "lw x3,4(x1)",
        "beq x0,x0,8",
        "addi x4,x0,1",
    ];
    check_profile(&rt, rt.alloc(), &BYTES, &SOURCE, LINES);
}

// addi x1,x0,3; addi x1,x1,-1; bne x1,x0,-4; ebreak
const LOOP: [u8; 16] = [
    0x93, 0x00, 0x30, 0x00, 0x93, 0x80, 0xf0, 0xff, 0xe3, 0x9e, 0x00, 0xfe, 0x73, 0x00, 0x10, 0x00,
];

// The subtraction is dispatched in the cycles 2, 9 and 15 and issued in 4, 10 and 16; the branch is dispatched in 3, 10 and 16
// and issued in 6, 12 and 18.
const LINES_OF_LOOP: &[u8] = b"\
00000000\t\t\t1\t0\t0\t-\t-\t-\t-\t-\t-\t-\t-\t0\t0\t0\t0\n\
80000000\t1\taddi x1,x0,3\t1\t1\t0\t1.000\t1\t1.000\t1\t1.000\t1\t1.000\t1\t0\t0\t0\t3\n\
80000004\t2\taddi x1,x1,-1\t3\t3\t0\t1.000\t1\t1.333\t2\t1.000\t1\t1.000\t1\t0\t0\t0\t8\n\
80000008\t3\tbne x1,x0,-4\t3\t3\t0\t1.000\t1\t2.333\t3\t1.000\t1\t1.000\t1\t0\t0\t2\t6\n\
8000000c\t4\tebreak\t3\t0\t2\t-\t-\t-\t-\t-\t-\t-\t-\t0\t0\t0\t1\n\
80000010\t\t\t3\t0\t3\t-\t-\t-\t-\t-\t-\t-\t-\t0\t0\t0\t0\n\
80000014\t\t\t3\t0\t3\t-\t-\t-\t-\t-\t-\t-\t-\t0\t0\t0\t0\n\
80000018\t\t\t3\t0\t3\t-\t-\t-\t-\t-\t-\t-\t-\t0\t0\t0\t0\n\
8000001c\t\t\t1\t0\t1\t-\t-\t-\t-\t-\t-\t-\t-\t0\t0\t0\t0\n";

// A loop of three turns, whose branch is predicted wrong in two.
#[test]
fn the_turns_of_a_loop_are_counted_together(rt: HostRuntime) {
    static SOURCE: [&str; 4] = ["addi x1,x0,3", "addi x1,x1,-1", "bne x1,x0,-4", "ebreak"];
    check_profile(&rt, rt.alloc(), &LOOP, &SOURCE, LINES_OF_LOOP);
}
