use crate::checks::{check_end, check_has, check_has_all, check_has_none, check_start, text_of};
use crate::machine::{described, listing, narrow, no_arrivals, pipeline};
use rv_arch::Stop;
use rv_front::NotTaken;
use rv_states::{Form, write_states};
use std::alloc::Global;
use std::process::Abort;

// addi x1,x0,5; ebreak
const BYTES: [u8; 8] = [0x93, 0x00, 0x50, 0x00, 0x73, 0x00, 0x10, 0x00];

// The states of a run of three cycles, but for the first, of a program that reads so.
fn written(rt: &impl Abort, alloc: Global, form: Form, program: &[&str]) -> Vec<u8> {
    let description = described(rt, narrow());
    let arrivals = no_arrivals(rt, alloc);
    let listing = listing(rt, alloc, program);
    let mut output = Vec::new(alloc);
    let mut pipeline = pipeline(rt, alloc, &description, &BYTES);
    let mut predictor = NotTaken;
    let stop = write_states(
        alloc,
        &mut pipeline,
        &mut predictor,
        &arrivals,
        1,
        3,
        form,
        &listing,
        &mut output,
    )
    .expect(rt, "room");
    assert!(rt; stop == Stop::Limit);
    output
}

// Those of an addition and a breakpoint.
fn states_of(rt: &impl Abort, alloc: Global, form: Form) -> Vec<u8> {
    static LINES: [&str; 2] = ["addi x1,x0,5", "ebreak"];
    written(rt, alloc, form, &LINES)
}

// The words at 80000000 and 80000004 are 00500093 and 00100073; the addition was fetched in cycle 0, dispatched in 1 and issued
// in 2.
static PARTS: [&str; 4] = [
    "{\"address\":2147483652,\"line\":2,\"text\":\"ebreak\"}\n{\"memory\":2147483648,\"word\":5243027,\"stale\":false}\n{\"memory\":2147483652,\"word\":1048691,\"stale\":false}\n{\"start\":1,\"instructions\":[{\"number\":0}],",
    "}}\n{\"cycle\":1,\"instructions\":[{\"number\":0},{\"number\":1}],\"steps\":[],\"counts\":{\"cycles\":2,\"busy\":1,\"fetch\":1,",
    "]}\n{\"cycle\":2,",
    "]}\n{\"cycles\":3,\"stop\":\"limit\"}\n",
];

const HEAD: &[u8] =
    b"{\"first\":1,\"format\":\"rv_sim states 1\",\"machine\":{\"ram_base\":2147483648,";

#[test]
fn the_cycles_after_the_first_are_shown_line_by_line(rt: HostRuntime) {
    let lines = states_of(&rt, rt.alloc(), Form::Lines);
    check_start(&rt, lines.as_slice(), HEAD);
    check_has_all(&rt, lines.as_slice(), &PARTS);
    check_has_none(&rt, lines.as_slice(), &["{\"cycle\":0,"]);
}

#[test]
fn a_page_has_the_same_lines_in_a_viewer(rt: HostRuntime) {
    let lines = states_of(&rt, rt.alloc(), Form::Lines);
    let page = states_of(&rt, rt.alloc(), Form::Page);
    check_start(&rt, page.as_slice(), b"<!DOCTYPE html>\n");
    check_has(&rt, page.as_slice(), text_of(&rt, lines.as_slice()));
    check_end(&rt, page.as_slice(), b"</html>\n");
}

#[test]
fn a_statement_with_markup_leaves_none_in_the_lines(rt: HostRuntime) {
    static PROGRAM: [&str; 2] = ["</script><b>&amp;\"'", "<!-- ebreak"];
    static MARKUP: [&str; 3] = ["<", ">", "&"];
    let text = "\"text\":\"\\u003c/script\\u003e\\u003cb\\u003e\\u0026amp;\\u0022'\"}\n";
    let lines = written(&rt, rt.alloc(), Form::Lines, &PROGRAM);
    check_has(&rt, lines.as_slice(), text);
    check_has_none(&rt, lines.as_slice(), &MARKUP);
}
