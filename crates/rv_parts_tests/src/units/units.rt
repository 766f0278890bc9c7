use crate::checks::{check_true, check_true_at};
use rv_isa::{Description, Kind, Values};
use rv_units::Units;
use std::alloc::Global;
use std::process::Abort;

// The units of the standard description.
fn standard_units(rt: &impl Abort, alloc: Global) -> Units {
    let description = Description::new(Values::standard()).expect(rt, "a legal description");
    Units::new(alloc, &description).expect(rt, "units")
}

fn begin(rt: &impl Abort, units: &mut Units, kind: Kind, cost: u32, cycle: u64) {
    check_true(rt, units.free(kind, cycle));
    units.start(kind, cost, cycle);
}

// Checks that no unit of a kind is free in a cycle.
fn check_held(rt: &impl Abort, units: &Units, kind: Kind, cycle: u64) {
    check_true_at(rt, cycle, !units.free(kind, cycle));
}

// A division of eight cycles that was issued in cycle 2 is broadcast in cycle 10 at the earliest.
#[test]
fn division_holds_its_unit_to_its_last_cycle(rt: HostRuntime) {
    let mut units = standard_units(&rt, rt.alloc());
    begin(&rt, &mut units, Kind::Div, 8, 2);
    for cycle in 2..10 {
        check_held(&rt, &units, Kind::Div, cycle);
    }
    begin(&rt, &mut units, Kind::Div, 8, 10);
    check_held(&rt, &units, Kind::Div, 10);
}

#[test]
fn pipelined_units_start_anew_in_each_cycle(rt: HostRuntime) {
    let mut units = standard_units(&rt, rt.alloc());
    for cycle in 0..4 {
        begin(&rt, &mut units, Kind::Alu, 1, cycle);
        begin(&rt, &mut units, Kind::Alu, 1, cycle);
        check_held(&rt, &units, Kind::Alu, cycle);
        begin(&rt, &mut units, Kind::Mul, 3, cycle);
        check_held(&rt, &units, Kind::Mul, cycle);
        check_true_at(&rt, cycle, units.free(Kind::Mem, cycle));
    }
}
