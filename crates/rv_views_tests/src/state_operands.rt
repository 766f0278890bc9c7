use crate::checks::check_has;
use crate::machine::{described, narrow, pipeline};
use crate::state_start::counts;
use rv_front::NotTaken;
use rv_isa::Lines;
use rv_states::write_start;
use rv_text::Sink;
use rv_watch::Simulated;

// addi x1,x0,11; addi x2,x0,3; div x3,x1,x2; addi x1,x0,17; sub x4,x3,x1; addi x3,x4,19; xor x18,x3,x4; add x7,x2,x18
const PROGRAM: [u8; 32] = [
    0x93, 0x00, 0xb0, 0x00, 0x13, 0x01, 0x30, 0x00, 0xb3, 0xc1, 0x20, 0x02, 0x93, 0x00, 0x10, 0x01,
    0x33, 0x82, 0x11, 0x40, 0x93, 0x01, 0x32, 0x01, 0x33, 0xc9, 0x41, 0x00, 0xb3, 0x03, 0x21, 0x01,
];

// One is fetched in each cycle, and dispatched in the next. The division begins in cycle 5, after 3 was broadcast in
// cycle 4, and holds up the retirement of the rest. The second value of x1 is known, x2 has retired; x3 is written by
// the division and again by the second addition after it, and x18 is another register than x2.
const WAITING: &str = "\"reorder_buffer\":[\
{\"sequence\":2,\"pc\":2147483656,\"word\":35701171,\"fetched\":2,\"dispatched\":3,\"predicted\":2147483660,\
\"target\":3,\"kind\":\"div\",\"issued\":5,\"cost\":16},\
{\"sequence\":3,\"pc\":2147483660,\"word\":17825939,\"fetched\":3,\"dispatched\":4,\"predicted\":2147483664,\
\"target\":1,\"kind\":\"alu\",\"issued\":5,\"cost\":1,\"finished\":6,\"value\":17,\"next_pc\":2147483664},\
{\"sequence\":4,\"pc\":2147483664,\"word\":1074889267,\"fetched\":4,\"dispatched\":5,\"predicted\":2147483668,\
\"target\":4,\"kind\":\"alu\",\"first\":{\"register\":3,\"producer\":2},\"second\":{\"register\":1,\"value\":17}},\
{\"sequence\":5,\"pc\":2147483668,\"word\":20054419,\"fetched\":5,\"dispatched\":6,\"predicted\":2147483672,\
\"target\":3,\"kind\":\"alu\",\"first\":{\"register\":4,\"producer\":4}},\
{\"sequence\":6,\"pc\":2147483672,\"word\":4311347,\"fetched\":6,\"dispatched\":7,\"predicted\":2147483676,\
\"target\":18,\"kind\":\"alu\",\"first\":{\"register\":3,\"producer\":5},\"second\":{\"register\":4,\"producer\":4}},\
{\"sequence\":7,\"pc\":2147483676,\"word\":18940851,\"fetched\":7,\"dispatched\":8,\"predicted\":2147483680,\
\"target\":7,\"kind\":\"alu\",\"first\":{\"register\":2,\"value\":3},\"second\":{\"register\":18,\"producer\":6}},";

#[test]
fn what_an_instruction_waits_for_is_the_youngest_older_result(rt: HostRuntime) {
    let alloc = rt.alloc();
    let mut pipeline = pipeline(&rt, alloc, &described(&rt, narrow()), &PROGRAM);
    for _ in 0..14 {
        let _report = pipeline.cycle(&mut NotTaken, Lines::default());
    }
    let mut line = Vec::new(alloc);
    write_start(
        &mut Sink::new(&mut line),
        &[],
        &pipeline.shown(),
        &counts(None),
    );
    check_has(&rt, line.as_slice(), WAITING);
}
