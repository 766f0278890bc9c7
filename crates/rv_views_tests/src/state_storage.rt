use crate::checks::{check_bytes, check_end, check_has, check_has_all, check_start};
use crate::machine::{described, narrow, pipeline};
use crate::state_predictor::check_lines_from;
use crate::state_start::counts;
use rv_core::Pipeline;
use rv_front::NotTaken;
use rv_isa::Lines;
use rv_states::{write_memory, write_sets, write_start};
use rv_text::Sink;
use rv_watch::Simulated;
use std::alloc::Global;
use std::process::Abort;

// lui x1,0x80002; lw x3,-2048(x1); addi x2,x0,258; sw x2,-1792(x1); sw x0,-4(x1); jal x0,0
const PROGRAM: [u8; 24] = [
    0xb7, 0x20, 0x00, 0x80, 0x83, 0xa1, 0x00, 0x80, 0x13, 0x01, 0x20, 0x10, 0x23, 0xa0, 0x20, 0x90,
    0x23, 0xae, 0x00, 0xfe, 0x6f, 0x00, 0x00, 0x00,
];

// The machine after so many cycles of the program.
fn after(rt: &impl Abort, alloc: Global, cycles: u64) -> Pipeline {
    let mut values = narrow();
    values.ram_size = 8192;
    let mut pipeline = pipeline(rt, alloc, &described(rt, values), &PROGRAM);
    for _ in 0..cycles {
        let _report = pipeline.cycle(&mut NotTaken, Lines::default());
    }
    pipeline
}

const PROGRAM_LINES: &[u8] = b"{\"memory\":2147483648,\"word\":2147492023,\"stale\":false}\n\
{\"memory\":2147483652,\"word\":2147524995,\"stale\":false}\n\
{\"memory\":2147483656,\"word\":270532883,\"stale\":false}\n\
{\"memory\":2147483660,\"word\":2418057251,\"stale\":false}\n\
{\"memory\":2147483664,\"word\":4261457443,\"stale\":false}\n\
{\"memory\":2147483668,\"word\":111,\"stale\":false}\n";

#[test]
fn memory_before_a_run_is_the_program(rt: HostRuntime) {
    let alloc = rt.alloc();
    let pipeline = after(&rt, alloc, 0);
    let mut lines = Vec::new(alloc);
    write_memory(&mut Sink::new(&mut lines), &pipeline.shown());
    check_bytes(&rt, lines.as_slice(), PROGRAM_LINES);
    write_sets(&mut Sink::new(&mut lines), &pipeline.shown());
    check_bytes(&rt, lines.as_slice(), PROGRAM_LINES);
}

// The stores are to 80001900 and 80001ffc, the last word. What they wrote is in the cache alone, and stale; the second
// wrote 0.
const STORED: &[u8] = b"{\"memory\":2147483668,\"word\":111,\"stale\":false}\n\
{\"memory\":2147490048,\"word\":258,\"stale\":true}\n\
{\"memory\":2147491836,\"word\":0,\"stale\":true}\n";

#[test]
fn memory_has_what_programs_see(rt: HostRuntime) {
    let alloc = rt.alloc();
    let pipeline = after(&rt, alloc, 80);
    let mut lines = Vec::new(alloc);
    write_memory(&mut Sink::new(&mut lines), &pipeline.shown());
    check_start(&rt, lines.as_slice(), PROGRAM_LINES);
    check_end(&rt, lines.as_slice(), STORED);
}

// The load is from 80001800. Lines of 16 bytes: it and the first store are in lines 8000180 and 8000190, both of set 0 of
// 16, the second store in line 80001ff, of the last set.
const SETS: &[u8] = b"{\"set\":0,\"lines\":[{\"line\":134218128,\"dirty\":true},\
{\"line\":134218112,\"dirty\":false}]}\n\
{\"set\":15,\"lines\":[{\"line\":134218239,\"dirty\":true}]}\n";

#[test]
fn a_set_has_the_line_first_that_was_stored_to_last(rt: HostRuntime) {
    let alloc = rt.alloc();
    let pipeline = after(&rt, alloc, 80);
    let mut lines = Vec::new(alloc);
    write_sets(&mut Sink::new(&mut lines), &pipeline.shown());
    check_bytes(&rt, lines.as_slice(), SETS);
}

// The load is issued in cycle 4, after its address was broadcast in cycle 3; a hit costs 1 cycle, a miss 10 more. The
// first store was dispatched in cycle 4.
static MISSING: [&str; 2] = [
    "\"target\":3,\"kind\":\"mem\",\"issued\":4,\"cost\":11}",
    "\"mem\":[{\"since\":4,\"cycles\":1}]},\
\"store_queue\":[{\"sequence\":3,\"state\":\"waiting\"}],\"port_free\":15}}\n",
];

#[test]
fn a_load_that_misses_keeps_the_port(rt: HostRuntime) {
    let alloc = rt.alloc();
    let pipeline = after(&rt, alloc, 5);
    let mut line = Vec::new(alloc);
    write_start(
        &mut Sink::new(&mut line),
        &[],
        &pipeline.shown(),
        &counts(None),
    );
    check_has_all(&rt, line.as_slice(), &MISSING);
}

// auipc x1,0; lw x2,240(x1); jal x0,0
const LOAD_OF_THE_LAST_SET: [u8; 12] = [
    0x97, 0x00, 0x00, 0x00, 0x03, 0xa1, 0x00, 0x0f, 0x6f, 0x00, 0x00, 0x00,
];

// The line of 800000f0, of sixteen bytes, is the last of the first sixteen.
#[test]
fn the_last_set_stands_before_a_window(rt: HostRuntime) {
    let set = "{\"set\":15,\"lines\":[{\"line\":134217743,\"dirty\":false}]}\n";
    check_lines_from(&rt, rt.alloc(), 25, &LOAD_OF_THE_LAST_SET, set);
}
