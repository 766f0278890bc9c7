use crate::checks::{check_equal, check_true, check_true_at};
use rv_isa::{Description, Values};
use rv_units::Bus;
use std::alloc::Global;
use std::process::Abort;

// The bus of the standard description.
fn standard_bus(rt: &impl Abort, alloc: Global) -> Bus {
    let description = Description::new(Values::standard()).expect(rt, "a legal description");
    Bus::new(alloc, &description).expect(rt, "a bus")
}

fn put(rt: &impl Abort, bus: &mut Bus, seq: u64, ready: u64) {
    check_true(rt, !bus.is_full() && !bus.holds(seq));
    bus.accept(seq, ready);
}

// The number of the result that is granted in a cycle, which is taken off the bus.
fn granted(bus: &mut Bus, cycle: u64) -> Option<u64> {
    match bus.grant_one(cycle) {
        Some(result) => Some(result.seq),
        None => None,
    }
}

// Checks which results are granted in a cycle. A failure shows the cycle.
fn broadcast(rt: &impl Abort, bus: &mut Bus, cycle: u64, numbers: &[u64]) {
    for number in numbers {
        check_true_at(rt, cycle, granted(bus, cycle) == Some(*number));
    }
    check_true_at(rt, cycle, granted(bus, cycle).is_none());
}

#[test]
fn older_results_go_first(rt: HostRuntime) {
    let mut bus = standard_bus(&rt, rt.alloc());
    check_equal(&rt, bus.width(), 2);
    put(&rt, &mut bus, 4, 10);
    put(&rt, &mut bus, 2, 12);
    put(&rt, &mut bus, 5, 10);
    put(&rt, &mut bus, 3, 11);
    put(&rt, &mut bus, 6, 9);
    broadcast(&rt, &mut bus, 8, &[]);
    broadcast(&rt, &mut bus, 10, &[4, 5, 6]);
    broadcast(&rt, &mut bus, 12, &[2, 3]);
}

#[test]
fn squashed_numbers_come_again(rt: HostRuntime) {
    let mut bus = standard_bus(&rt, rt.alloc());
    for number in 0..16 {
        put(&rt, &mut bus, number, 1);
    }
    check_true(&rt, bus.is_full());
    bus.squash(1);
    put(&rt, &mut bus, 1, 7);
    broadcast(&rt, &mut bus, 6, &[0]);
    broadcast(&rt, &mut bus, 7, &[1]);
}
