use crate::json::expect_text;
use crate::machine::{described, pipeline};
use rv_front::NotTaken;
use rv_isa::{Lines, Values};
use rv_states::write_fetch_buffer;
use rv_text::Sink;
use rv_watch::Simulated;

// jal x0,-8, at the first address of RAM
const JUMP: [u8; 4] = [0x6f, 0xf0, 0x9f, 0xff];

// The jump is fetched in cycle 0; the words after it in cycle 1, of which the first is outside RAM.
static FETCHED: [&[u8]; 2] = [
    b",\"fetch_buffer\":[{\"pc\":2147483648,\"word\":4288671855,\"fetched\":0,\"predicted\":2147483640}],\
\"next_fetch\":2147483640,\"halted\":false",
    b",\"fetch_buffer\":[{\"pc\":2147483640,\"fetched\":1,\"predicted\":2147483644}],\
\"next_fetch\":2147483644,\"halted\":true",
];

#[test]
fn a_fetched_word_has_its_cycle_and_its_prediction(rt: HostRuntime) {
    let alloc = rt.alloc();
    let description = described(&rt, Values::standard());
    let mut pipeline = pipeline(&rt, alloc, &description, &JUMP);
    for expected in &FETCHED {
        let _report = pipeline.cycle(&mut NotTaken, Lines::default());
        let mut text = Vec::new(alloc);
        write_fetch_buffer(&mut Sink::new(&mut text), pipeline.shown().front());
        expect_text(&rt, &text, expected);
    }
}
