use crate::checks::{check_has, check_has_none};
use crate::machine::{described, listing, no_arrivals, pipeline};
use rv_front::DescribedPredictor;
use rv_isa::{PredictorKind, Values};
use rv_states::{Form, write_states};
use std::alloc::Global;
use std::process::Abort;

// The states from a cycle on of a program on the standard machine with a bimodal predictor of four places, for thirty cycles.
fn lines_from(rt: &impl Abort, alloc: Global, from: u64, program: &[u8]) -> Vec<u8> {
    let mut values = Values::standard();
    values.predictor.kind = PredictorKind::Bimodal;
    values.predictor.entries = 4;
    let description = described(rt, values);
    let arrivals = no_arrivals(rt, alloc);
    let listing = listing(rt, alloc, &[]);
    let mut output = Vec::new(alloc);
    let mut pipeline = pipeline(rt, alloc, &description, program);
    let mut predictor = DescribedPredictor::new(alloc, PredictorKind::Bimodal, 4).expect(
        rt, "room",
    );
    write_states(
        alloc,
        &mut pipeline,
        &mut predictor,
        &arrivals,
        from,
        30,
        Form::Lines,
        &listing,
        &mut output,
    )
    .expect(rt, "room");
    output
}

/// Checks that they have a part.
pub(crate) fn check_lines_from(
    rt: &impl Abort,
    alloc: Global,
    from: u64,
    program: &[u8],
    part: &str,
) {
    let lines = lines_from(rt, alloc, from, program);
    check_has(rt, lines.as_slice(), part);
}

// auipc x1,0; jalr x0,4(x1)
const JUMP_TO_ITSELF: [u8; 8] = [0x97, 0x00, 0x00, 0x00, 0x67, 0x80, 0x40, 0x00];

// When the jump retires, the target of its place is learned, and the word that its cycle fetches, which is the jump again, is predicted by
// it. A place with a target has a line before a later window, though its counter is as at first.
#[test]
fn a_jump_by_register_is_learned_before_its_cycle_asks(rt: HostRuntime) {
    let cycle =
        "\"learned\":[{\"place\":1,\"counter\":1,\"target\":2147483652}],\"asked\":[{\"pc\":2147483652,\"place\":1,\"answer\":2147483652}]}\n";
    check_lines_from(&rt, rt.alloc(), 0, &JUMP_TO_ITSELF, cycle);
    let place = "\n{\"place\":1,\"counter\":1,\"target\":2147483652}\n{\"start\":20,";
    check_lines_from(&rt, rt.alloc(), 20, &JUMP_TO_ITSELF, place);
}

// bne x0,x0,8; bne x0,x0,8; ebreak
const NOT_TAKEN: [u8; 12] = [
    0x63, 0x14, 0x00, 0x00, 0x63, 0x14, 0x00, 0x00, 0x73, 0x00, 0x10, 0x00,
];

// Both retire in one cycle, and each goes on at the word after it.
#[test]
fn two_branches_of_one_cycle_count_down_each(rt: HostRuntime) {
    let learned = "\"learned\":[{\"place\":0,\"counter\":0},{\"place\":1,\"counter\":0}]";
    check_lines_from(&rt, rt.alloc(), 0, &NOT_TAKEN, learned);
}

// jal x0,4; ebreak
const JUMP: [u8; 8] = [0x6f, 0x00, 0x40, 0x00, 0x73, 0x00, 0x10, 0x00];

#[test]
fn a_jump_changes_no_place(rt: HostRuntime) {
    let lines = lines_from(&rt, rt.alloc(), 0, &JUMP);
    check_has(&rt, lines.as_slice(), "\"learned\":[]");
    check_has_none(&rt, lines.as_slice(), &["\"learned\":[{"]);
}
