mod addition;
mod branch;
mod bus;
mod rooms;
mod waits;

use crate::machine::{described, listing, no_arrivals, pipeline};
use rv_arch::Stop;
use rv_core::run;
use rv_front::NotTaken;
use rv_isa::Values;
use rv_log::write_log;
use std::alloc::Global;
use std::process::Abort;

/// How some cycles of a program with these lines end, from a cycle on, and their log.
fn logged(
    rt: &impl Abort,
    alloc: Global,
    values: Values,
    program: &[u8],
    lines: &[&str],
    first: u64,
    cycles: u64,
) -> (Stop, Vec<u8>) {
    let listing = listing(rt, alloc, lines);
    let arrivals = no_arrivals(rt, alloc);
    let mut text = Vec::new(alloc);
    let mut pipeline = pipeline(rt, alloc, &described(rt, values), program);
    let mut predictor = NotTaken;
    assert!(rt; run(alloc, &mut pipeline, &mut predictor, &arrivals, first).is_ok());
    let stop = write_log(
        alloc,
        &mut pipeline,
        &mut predictor,
        &arrivals,
        cycles,
        &listing,
        &mut text,
    );
    (stop.expect(rt, "room"), text)
}
