use crate::checks::{check_end, check_start};
use crate::machine::{described, no_arrivals, pipeline};
use rv_arch::Stop;
use rv_core::{Outcome, Pipeline, run};
use rv_front::NotTaken;
use rv_isa::{Lines, Values};
use rv_report::{Options, write_report};
use rv_watch::Simulated;
use std::alloc::Global;
use std::process::Abort;

// addi x1,x0,5, and ebreak.
const ADDITION: [u8; 8] = [0x93, 0x00, 0x50, 0x00, 0x73, 0x00, 0x10, 0x00];

const OPTIONS: Options = Options {
    trace: true,
    limit: 100,
    dump_address: 0x8000_0000,
    dump_words: 1,
};

// A pipeline that holds the two words.
fn loaded(rt: &impl Abort, alloc: Global) -> Pipeline {
    pipeline(rt, alloc, &described(rt, Values::standard()), &ADDITION)
}

// What comes of a run of up to a hundred cycles.
fn outcome_of(rt: &impl Abort, alloc: Global, pipeline: &mut Pipeline) -> Outcome {
    let arrivals = no_arrivals(rt, alloc);
    match run(alloc, pipeline, &mut NotTaken, &arrivals, 100) {
        Ok(outcome) => outcome,
        Err(_) => panic!(rt; "no memory for the steps"),
    }
}

const FIRST_LINES: &[u8] = b"R 80000000 00500093 F0 D1 I2 B3 C4 x1=00000005
T 80000004 00000003 00000000 C4
stop breakpoint
cycles 5
retired 1
traps 1
";

#[test]
fn the_outcome_of_a_run_is_reported_with_its_steps(rt: HostRuntime) {
    let alloc = rt.alloc();
    let mut pipeline = loaded(&rt, alloc);
    let outcome = outcome_of(&rt, alloc, &mut pipeline);
    let mut report = Vec::new(alloc);
    write_report(&outcome, &pipeline.shown(), &OPTIONS, &mut report).expect(&rt, "room");
    check_start(&rt, report.as_slice(), FIRST_LINES);
    check_end(&rt, report.as_slice(), b"m 80000000 00500093\n");
}

// Checks how many steps the next cycle of a pipeline reports, and what stops it.
fn check_cycle(rt: &impl Abort, pipeline: &mut Pipeline, steps: usize, stop: Option<Stop>) {
    let report = pipeline.cycle(&mut NotTaken, Lines::default());
    assert!(rt; report.steps.len() == steps);
    assert!(rt; report.stop == stop);
}

#[test]
fn a_cycle_reports_its_own_steps_and_its_stop(rt: HostRuntime) {
    let mut pipeline = loaded(&rt, rt.alloc());
    for _ in 0..4 {
        check_cycle(&rt, &mut pipeline, 0, None);
    }
    check_cycle(&rt, &mut pipeline, 2, Some(Stop::Breakpoint));
}
