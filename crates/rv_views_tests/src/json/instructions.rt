use crate::json::expect_text;
use rv_decode::Decoded;
use rv_isa::{Cause, Issue, Reg};
use rv_passage::{Ending, Passage, Producers};
use rv_states::{Instructions, write_array_member};
use rv_text::Sink;
use std::alloc::Global;
use std::process::Abort;

// An instruction that passed through all stages.
fn passed(number: u64, ending: Ending) -> Passage {
    Passage {
        number,
        pc: 20,
        word: Some(21),
        instruction: Decoded::none(),
        predicted: Some(24),
        fetched: 25,
        dispatched: Some(26),
        producers: Producers::NONE,
        issue: Some(Issue {
            cycle: 27,
            cost: 28,
        }),
        broadcast: Some(29),
        ending,
    }
}

fn retired(written: Option<(Reg, u32)>) -> Ending {
    Ending::Retired {
        order: 30,
        cycle: 31,
        written,
        next: 32,
    }
}

const PASSED: &str = "\"pc\":20,\"word\":21,\"fetched\":25,\"dispatched\":26,\"issued\":27,\
\"cost\":28,\"broadcast\":29,";

// What instructions are shown as.
fn shown(alloc: Global, rows: &[Passage]) -> Vec<u8> {
    let mut text = Vec::new(alloc);
    write_array_member(
        &mut Sink::new(&mut text),
        "instructions",
        &Instructions { rows },
    );
    text
}

// Checks what stands after the stages of an instruction that ended so.
fn check_ending(rt: &impl Abort, alloc: Global, ending: Ending, end: &str) {
    let text = shown(alloc, &[passed(9, ending)]);
    let expected = format!(in alloc; ",\"instructions\":[{{\"number\":9,{PASSED}{end}").expect(
        rt, "a text",
    );
    expect_text(rt, &text, expected.as_bytes());
}

#[test]
fn an_instruction_that_left_has_its_stages_and_its_end(rt: HostRuntime) {
    const TRAPPED: Ending = Ending::Trapped {
        cycle: 33,
        cause: Cause::EnvironmentCall,
    };
    let alloc = rt.alloc();
    let register = Reg::new(6).expect(&rt, "a register");
    let written = retired(Some((register, 4294967289)));
    let value = "\"end\":\"retired\",\"register\":6,\"value\":4294967289}]";
    check_ending(&rt, alloc, written, value);
    check_ending(&rt, alloc, retired(None), "\"end\":\"retired\"}]");
    let cause = "\"end\":\"trapped\",\"cause\":11}]";
    check_ending(&rt, alloc, TRAPPED, cause);
    let squashed = Ending::Squashed { cycle: 34 };
    check_ending(&rt, alloc, squashed, "\"end\":\"squashed\"}]");
}

#[test]
fn an_instruction_in_flight_has_its_number_alone(rt: HostRuntime) {
    let rows = [passed(9, Ending::InFlight), passed(10, Ending::InFlight)];
    let text = shown(rt.alloc(), &rows);
    let expected = b",\"instructions\":[{\"number\":9},{\"number\":10}]";
    expect_text(&rt, &text, expected);
}
