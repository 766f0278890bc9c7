use crate::checks::check;
use crate::machine::{described, no_arrivals};
use rv_core::{Pipeline, run};
use rv_front::NotTaken;
use rv_hardware::Step;
use rv_isa::{Arrivals, Image, Values};
use std::alloc::Global;
use std::process::Abort;
use std::test::Fail;

const LIMIT: u64 = 100;

// Whether steps come in every second cycle, after so many.
fn follow(steps: &[Step], before: usize) -> bool {
    let mut stamp = (before as u64).wrapping_mul(2);
    for step in steps {
        stamp = stamp.wrapping_add(2);
        if step.stamp() != stamp {
            return false;
        }
    }
    true
}

// The steps, the cycles, the busy cycles and the waits for fetch of a run, whether memory cut it short or not.
fn part(
    alloc: Global,
    pipeline: &mut Pipeline,
    arrivals: &Arrivals,
    limit: u64,
) -> (Vec<Step>, u64, u64, u64) {
    match run(alloc, pipeline, &mut NotTaken, arrivals, limit) {
        Ok(it) => (it.steps, it.cycles, it.busy, it.stalls.fetch),
        Err(it) => (it.steps, it.cycles, it.busy, it.stalls.fetch),
    }
}

// A pipeline without a program.
fn empty(rt: &impl Abort, alloc: Global) -> Result<Pipeline, Fail> {
    let description = described(rt, Values::standard());
    let image = Image::from_bytes(alloc, 0x8000_0000, &[], 0x8000_0000)?;
    Ok(Pipeline::new(alloc, &description, &image)?)
}

// A run without a program traps in every second cycle, and its other cycles dispatch nothing. A second run does what is
// left: nothing where the first one found its memory.
#[test]
fn a_run_that_memory_cut_short_and_a_second_one_are_the_whole(rt: HostRuntime) -> Result<(), Fail> {
    let alloc = rt.alloc();
    let mut pipeline = empty(&rt, alloc)?;
    let arrivals = no_arrivals(&rt, alloc);
    let (mut steps, mut cycles, mut busy, mut waits) = (0, 0, 0, 0);
    for _ in 0..2 {
        let (part, more, more_busy, more_waits) = part(
            alloc,
            &mut pipeline,
            &arrivals,
            LIMIT.saturating_sub(cycles),
        );
        check(&rt, follow(part.as_slice(), steps));
        steps = part.len().wrapping_add(steps);
        cycles = more.wrapping_add(cycles);
        busy = more_busy.wrapping_add(busy);
        waits = more_waits.wrapping_add(waits);
    }
    assert!(&rt; steps == 49 && cycles == LIMIT && busy == 50 && waits == 50);
    Ok(())
}
