use crate::json::expect_text;
use crate::machine::described;
use rv_isa::{Kind, Values};
use rv_states::write_units;
use rv_text::Sink;
use rv_units::Units;

// Units that are pipelined hold an execution for a cycle, the others for its cost.
const UNITS: &[u8] = b",\"units\":{\"alu\":[{\"since\":7,\"cycles\":5},{\"since\":8,\"cycles\":6}],\
\"mul\":[{\"since\":9,\"cycles\":1}],\"div\":[{\"since\":10,\"cycles\":16}],\"mem\":[]}";

#[test]
fn each_kind_has_the_starts_that_hold_its_units(rt: HostRuntime) {
    let alloc = rt.alloc();
    let mut values = Values::standard();
    values.kinds.alu.pipelined = false;
    let mut units = Units::new(alloc, &described(&rt, values)).expect(&rt, "units");
    let starts = [
        (Kind::Alu, 5, 7),
        (Kind::Alu, 6, 8),
        (Kind::Mul, 3, 9),
        (Kind::Div, 16, 10),
    ];
    for (kind, cost, cycle) in starts {
        assert!(&rt; units.free(kind, cycle));
        units.start(kind, cost, cycle);
    }
    let mut text = Vec::new(alloc);
    write_units(&mut Sink::new(&mut text), &units);
    expect_text(&rt, &text, UNITS);
}

#[test]
fn the_unit_of_memory_is_the_last(rt: HostRuntime) {
    let alloc = rt.alloc();
    let mut units = Units::new(alloc, &described(&rt, Values::standard())).expect(&rt, "units");
    assert!(&rt; units.free(Kind::Mem, 11));
    units.start(Kind::Mem, 12, 11);
    let mut text = Vec::new(alloc);
    write_units(&mut Sink::new(&mut text), &units);
    let expected =
        b",\"units\":{\"alu\":[],\"mul\":[],\"div\":[],\"mem\":[{\"since\":11,\"cycles\":1}]}";
    expect_text(&rt, &text, expected);
}
