use crate::checks::check;
use crate::machine::{described, narrow, no_arrivals, pipeline};
use crate::report::tables::A_HUNDRED_CYCLES;
use rv_front::NotTaken;
use rv_isa::{Lines, Recovery, Values};
use rv_report::{ComparedRun, Events, Losses, TableOptions, run_totals};
use std::alloc::Global;
use std::process::Abort;

// The bytes of a program, each word from its lowest byte on.
fn bytes_of(rt: &impl Abort, alloc: Global, words: &[u32]) -> Vec<u8> {
    let mut program = Vec::new(alloc);
    for word in words {
        program
            .extend_from_slice(&word.to_le_bytes())
            .expect(rt, "room");
    }
    program
}

// A run of a program after so many cycles, on a machine that predicts no branch as taken.
fn ran(rt: &impl Abort, alloc: Global, values: Values, words: &[u32], before: u32) -> ComparedRun {
    let program = bytes_of(rt, alloc, words);
    let mut pipeline = pipeline(rt, alloc, &described(rt, values), program.as_slice());
    let mut predictor = NotTaken;
    for _ in 0..before {
        pipeline.cycle(&mut predictor, Lines::default());
    }
    let arrivals = no_arrivals(rt, alloc);
    let options = TableOptions {
        limit: 1000,
        ..A_HUNDRED_CYCLES
    };
    run_totals(alloc, pipeline, &mut predictor, &arrivals, &options).expect(rt, "room")
}

// Checks how many predictions of the jumps below were wrong after so many cycles, and how many words were squashed.
fn check_losses(
    rt: &impl Abort,
    alloc: Global,
    values: Values,
    before: u32,
    mispredicted: u64,
    squashed: u64,
) {
    let expected = Losses {
        mispredicted,
        squashed,
    };
    check(
        rt,
        ran(rt, alloc, values, &JUMPS, before).losses == expected,
    );
}

// Checks the events of a whole run.
fn check_events(rt: &impl Abort, alloc: Global, values: Values, words: &[u32], expected: Events) {
    check(rt, ran(rt, alloc, values, words, 0).events == expected);
}

// auipc x1,0; jalr x5,12(x1); lw x6,256(x1); beq x0,x0,8; addi x6,x0,2; bne x0,x0,8; jal x0,8; addi x6,x0,3; csrw mscratch,x1;
// addi x7,x1,52; csrw mepc,x7; mret; addi x6,x0,4; ebreak
const JUMPS: [u32; 14] = [
    0x0000_0097,
    0x00c0_82e7,
    0x1000_a303,
    0x0000_0463,
    0x0020_0313,
    0x0000_1463,
    0x0080_006f,
    0x0030_0313,
    0x3400_9073,
    0x0340_8393,
    0x3413_9073,
    0x3020_0073,
    0x0040_0313,
    0x0010_0073,
];

// The jalr and the first branch go on where they were not predicted, the second branch and the jal where they were. A machine
// that does one thing a cycle fetches a word in each, so that what it squashes is what it fetched since. The jalr is fetched in
// cycle 1 and retires in 6, the branch in 6 and 10; the CSR instructions in 12 and 16, 17 and 21, mret in 21 and 23, and the
// ebreak in 23 and 25: that are 4, 3, 3, 3, 1 and 1 words. The load is one of the first four.
#[test]
fn wrong_predictions_and_squashed_words_are_counted(rt: HostRuntime) {
    check_losses(&rt, rt.alloc(), narrow(), 0, 2, 15);
    // The jalr is in flight before the first cycle.
    check_losses(&rt, rt.alloc(), narrow(), 5, 2, 15);
}

// The jalr and the branch are broadcast a cycle before they retire, and a word less is fetched after each.
#[test]
fn a_prediction_that_is_mended_early_was_wrong_too(rt: HostRuntime) {
    let mut values = narrow();
    values.recovery = Recovery::Early;
    check_losses(&rt, rt.alloc(), values, 0, 2, 13);
    // The jalr was mended before the first cycle.
    check_losses(&rt, rt.alloc(), values, 6, 1, 10);
}

// auipc x1,0; lw x2,256(x1); lw x3,260(x1); lw x4,272(x1); sw x2,264(x1); sw x3,268(x1); sw x3,276(x1); sw x2,280(x1);
// sw x2,288(x1); lw x5,288(x1); lw x6,304(x1); div x7,x6,x6; div x8,x7,x7; ebreak
const ACCESSES: [u32; 14] = [
    0x0000_0097,
    0x1000_a103,
    0x1040_a183,
    0x1100_a203,
    0x1020_a423,
    0x1030_a623,
    0x1030_aa23,
    0x1020_ac23,
    0x1220_a023,
    0x1200_a283,
    0x1300_a303,
    0x0263_43b3,
    0x0273_c433,
    0x0010_0073,
];

// Three loads and the last store are the first to their line. One load hits, four stores do, and one load's bytes all come from
// the last store. The two divisions take so long that the stores are in the cache before the ebreak retires.
#[test]
fn loads_and_drains_that_miss_are_counted(rt: HostRuntime) {
    const EVENTS: Events = Events {
        branches: 0,
        loads: 5,
        drains: 5,
        hits: 6,
        misses: 4,
        write_backs: 0,
    };
    let mut values = Values::standard();
    values.forward = 3;
    check_events(&rt, rt.alloc(), values, &ACCESSES, EVENTS);
}

// The jalr, the two branches and the jal retire, mret is none of them, and the load is jumped over.
#[test]
fn branches_and_jumps_are_counted(rt: HostRuntime) {
    let events = ran(&rt, rt.alloc(), narrow(), &JUMPS, 0).events;
    check(
        &rt,
        events.branches == 4 && events.loads == 0 && events.drains == 0,
    );
}

// auipc x1,0; sw x1,256(x1); sw x1,272(x1); div x7,x1,x1; div x8,x7,x7; add x9,x1,x8; lw x5,287(x9); ebreak
const DIRTY_LINES: [u32; 8] = [
    0x0000_0097,
    0x1010_a023,
    0x1010_a823,
    0x0210_c3b3,
    0x0273_c433,
    0x0080_84b3,
    0x11f4_a283,
    0x0010_0073,
];

// The cache has one line. The second store writes the first one's back, and the load, which waits for the divisions, the second one's.
#[test]
fn dirty_lines_that_are_written_back_are_counted(rt: HostRuntime) {
    const EVENTS: Events = Events {
        branches: 0,
        loads: 1,
        drains: 2,
        hits: 0,
        misses: 3,
        write_backs: 2,
    };
    let mut values = Values::standard();
    values.cache.sets = 1;
    values.cache.ways = 1;
    check_events(&rt, rt.alloc(), values, &DIRTY_LINES, EVENTS);
}
