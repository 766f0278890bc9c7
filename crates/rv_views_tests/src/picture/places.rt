use crate::checks::{check_count, check_end, check_parts};
use crate::picture::rows::{drawn_rows, fetched};
use rv_drawing::Window;
use rv_passage::Passage;
use std::alloc::Global;
use std::process::Abort;

const WINDOW: Window = Window {
    first: 0,
    cycles: 60,
    stopped: None,
};

// The size of 60 columns and 42 rows, the rows from the fortieth on, the numbers above the second of these, and the address
// before the fifty-first column.
static PLACES: [&str; 5] = [
    "<svg xmlns='http://www.w3.org/2000/svg' width='1448' height='912' viewBox='0 0 1448 912'>\n",
    "<g class='open' transform='translate(0 746)'><text x='8' y='13'>8000009c</text>",
    "<g class='open' transform='translate(0 782)'><text x='8' y='13'>800000a0</text><text x='84' y='13'>00000013</text>\
<text x='328' y='13'>-</text>\n<g class='n' transform='translate(3 -4)'>\n<text x='456'>0</text>\n<text x='596'>10</text>\n\
<text x='736'>20</text>\n<text x='876'>30</text>\n<text x='1016'>40</text>\n<text x='1156'>50</text>\n</g>\n<g class='p f' ",
    "<g class='open' transform='translate(0 800)'><text x='8' y='13'>800000a4</text>",
    "<text class='a' dx='-4' y='13' x='1156'>800000a4</text>\n</g>\n",
];

// Forty instructions that are fetched in cycle 0, one in cycle 49 and one in cycle 50.
fn passages() -> [Passage; 42] {
    let mut rows = [fetched(0, 0x8000_0000, Some(0x13), 0); 42];
    rows[39] = fetched(39, 0x8000_009c, Some(0x13), 0);
    rows[40] = fetched(40, 0x8000_00a0, Some(0x13), 49);
    rows[41] = fetched(41, 0x8000_00a4, Some(0x13), 50);
    rows
}

fn drawn(rt: &impl Abort, alloc: Global) -> String {
    drawn_rows(rt, alloc, &passages(), &[], &[], None, &[], WINDOW)
}

#[test]
fn the_cycle_numbers_stand_again_after_forty_rows_and_a_far_address_before_its_cell(
    rt: HostRuntime,
) {
    let svg = drawn(&rt, rt.alloc());
    check_parts(&rt, svg.as_str(), &PLACES);
    check_count(&rt, svg.as_str(), "translate(3 -4)", 1);
    check_count(&rt, svg.as_str(), "dx='-4' y='13' x='1142'", 0);
}

// A window of a run that ended after five cycles, before it, and how its picture ends.
const OVER: Window = Window {
    first: 5,
    cycles: 0,
    stopped: None,
};

const SENTENCE: &str = "<g transform='translate(0 76)'>\n\
<text x='8' y='34'>The run ended after 5 cycles, before those of this picture.</text>\n</g>\n</svg>\n";

#[test]
fn a_sentence_stands_below_the_legend_where_the_run_ended_before_the_window(rt: HostRuntime) {
    let svg = drawn_rows(&rt, rt.alloc(), &[], &[], &[], None, &[], OVER);
    check_end(&rt, svg.as_bytes(), SENTENCE.as_bytes());
}
