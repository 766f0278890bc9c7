use crate::json::expect_text;
use rv_hardware::{Execution, Row, Step};
use rv_isa::{Cause, Reg};
use rv_states::{Steps, write_array_member};
use rv_text::Sink;

// A load that retired.
fn retired(register: Reg) -> Step {
    Step::Retired(Row {
        pc: 16,
        word: 17,
        written: Some((register, 18)),
        fetched: 19,
        dispatched: 20,
        execution: Some(Execution {
            issued: 21,
            cost: 22,
            broadcast: 23,
        }),
        retired: 24,
    })
}

const STEPS: &[u8] = b",\"steps\":[{\"pc\":16,\"step\":\"retired\"},\
{\"pc\":28,\"step\":\"trap\",\"cause\":5,\"value\":29},\
{\"pc\":32,\"step\":\"interrupt\",\"cause\":2147483659}]";

#[test]
fn each_kind_of_step_has_its_pc_and_what_it_was(rt: HostRuntime) {
    let steps = [
        retired(Reg::ZERO),
        Step::Trap {
            pc: 28,
            cause: Cause::LoadAccessFault,
            value: 29,
            cycle: 30,
        },
        Step::Interrupt {
            pc: 32,
            cause: 0x8000_000b,
            cycle: 33,
        },
    ];
    let mut text = Vec::new(rt.alloc());
    write_array_member(&mut Sink::new(&mut text), "steps", &Steps { steps: &steps });
    expect_text(&rt, &text, STEPS);
}
