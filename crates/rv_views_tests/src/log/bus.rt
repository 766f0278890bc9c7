use crate::checks::{check, check_end};
use crate::log::logged;
use rv_arch::Stop;
use rv_isa::Values;

// addi x1,x0,5; addi x2,x0,1
const PROGRAM: &[u8] = &[0x93, 0x00, 0x50, 0x00, 0x13, 0x01, 0x10, 0x00];

// Both additions are issued in cycle 2, and both results are ready in 3: one result is broadcast in a cycle, the older first, so
// that the other one waits for the bus.
const LAST_CYCLE: &[u8] = b"C\t1
S\t0\t0\tB
S\t1\t0\tW
C\t1
";

#[test]
fn a_result_that_waits_for_the_bus_is_in_a_stage_of_its_own(rt: HostRuntime) {
    let mut values = Values::standard();
    values.bus_width = 1;
    values.fetch_buffer = 2;
    values.rob = 2;
    let (stop, text) = logged(&rt, rt.alloc(), values, PROGRAM, &[], 0, 4);
    check(&rt, stop == Stop::Limit);
    check_end(&rt, text.as_slice(), LAST_CYCLE);
}

// addi x1,x0,5; addi x2,x1,1
const CHAIN: &[u8] = &[0x93, 0x00, 0x50, 0x00, 0x13, 0x81, 0x10, 0x00];

// Both are dispatched in cycle 1. The first is issued in 2 and broadcast in 3, which wakes the second.
const WAKING: &[u8] = b"C\t1
S\t0\t0\tB
W\t1\t0\t0
C\t1
";

#[test]
fn an_instruction_depends_on_the_one_whose_result_it_waits_for(rt: HostRuntime) {
    let mut values = Values::standard();
    values.fetch_buffer = 2;
    values.rob = 2;
    let (stop, text) = logged(&rt, rt.alloc(), values, CHAIN, &[], 0, 4);
    check(&rt, stop == Stop::Limit);
    check_end(&rt, text.as_slice(), WAKING);
}
