use crate::words::loaded_pipeline;
use rv_arch::Stop;
use rv_core::{Outcome, Pipeline, run};
use rv_front::NotTaken;
use rv_hardware::{StallCounts, Step};
use rv_isa::{Arrivals, Recovery};
use std::alloc::Global;
use std::process::Abort;

// What runs of a pipeline reported, one after the other.
#[derive(Drop)]
struct Reported {
    steps: Vec<Step>,
    cycles: u64,
    busy: u64,
    stalls: StallCounts,
    is_over: bool,
}

fn added(some: StallCounts, more: StallCounts) -> StallCounts {
    StallCounts {
        fetch: some.fetch.wrapping_add(more.fetch),
        serial: some.serial.wrapping_add(more.serial),
        rob: some.rob.wrapping_add(more.rob),
        station: some.station.wrapping_add(more.station),
        store: some.store.wrapping_add(more.store),
    }
}

impl Reported {
    fn nothing(alloc: Global) -> Reported {
        Reported {
            steps: Vec::new(alloc),
            cycles: 0,
            busy: 0,
            stalls: StallCounts::default(),
            is_over: false,
        }
    }

    fn add(&mut self, outcome: &Outcome) -> Option<()> {
        self.steps.extend_from_slice(outcome.steps.as_slice()).ok()?;
        self.cycles = self.cycles.wrapping_add(outcome.cycles);
        self.busy = self.busy.wrapping_add(outcome.busy);
        self.stalls = added(self.stalls, outcome.stalls);
        self.is_over = outcome.stop == Stop::Breakpoint;
        Some(())
    }
}

// Adds what one more run reports, unless a breakpoint ended the one before.
fn add_run(
    alloc: Global,
    pipeline: &mut Pipeline,
    arrivals: &Arrivals,
    cycles: u64,
    reported: &mut Reported,
) -> Option<()> {
    if reported.is_over {
        return Some(());
    }
    let outcome = run(alloc, pipeline, &mut NotTaken, arrivals, cycles).ok()?;
    reported.add(&outcome)
}

// What runs of so many cycles each report, up to a breakpoint.
fn reported_by(
    alloc: Global,
    pipeline: &mut Pipeline,
    arrivals: &Arrivals,
    cycles: u64,
) -> Option<Reported> {
    let mut reported = Reported::nothing(alloc);
    for _ in 0..200 {
        add_run(alloc, pipeline, arrivals, cycles, &mut reported)?;
    }
    Some(reported)
}

fn reported_in_pieces(
    rt: &impl Abort,
    alloc: Global,
    bytes: &[u8],
    recovery: Recovery,
    cycles: u64,
) -> Reported {
    let arrivals = Arrivals::new(Vec::new(alloc)).expect(rt, "no arrivals");
    let mut pipeline = loaded_pipeline(alloc, bytes, 0x8000_0000, recovery).expect(
        rt,
        "a pipeline",
    );
    reported_by(alloc, &mut pipeline, &arrivals, cycles).expect(rt, "memory for runs")
}

// addi x1,x0,5; addi x1,x1,-1; bne x1,x0,-4; ebreak
const COUNTS_DOWN: [u8; 16] = [
    0x93, 0x00, 0x50, 0x00, 0x93, 0x80, 0xf0, 0xff, 0xe3, 0x9e, 0x00, 0xfe, 0x73, 0x00, 0x10, 0x00,
];

// auipc x2,0; sw x2,64(x2); lw x3,64(x2); mul x4,x3,x3; ebreak
const STORES_AND_LOADS: [u8; 20] = [
    0x17, 0x01, 0x00, 0x00, 0x23, 0x20, 0x21, 0x04, 0x83, 0x21, 0x01, 0x04, 0x33, 0x82, 0x31, 0x02,
    0x73, 0x00, 0x10, 0x00,
];

// One run and runs of one cycle each report the same, and so many steps.
fn check_pieces(rt: &impl Abort, alloc: Global, bytes: &[u8], recovery: Recovery, steps: usize) {
    let whole = reported_in_pieces(rt, alloc, bytes, recovery, 1000);
    let pieces = reported_in_pieces(rt, alloc, bytes, recovery, 1);
    assert!(rt; whole.steps.len() == steps);
    assert!(rt; pieces.steps.as_slice() == whole.steps.as_slice());
    assert!(rt; pieces.cycles == whole.cycles && pieces.busy == whole.busy);
    assert!(rt; pieces.stalls == whole.stalls);
}

#[test]
fn runs_of_one_cycle_each_report_what_one_run_reports(rt: HostRuntime) {
    for recovery in [Recovery::Commit, Recovery::Early] {
        check_pieces(&rt, rt.alloc(), &COUNTS_DOWN, recovery, 12);
        check_pieces(&rt, rt.alloc(), &STORES_AND_LOADS, recovery, 5);
    }
}
