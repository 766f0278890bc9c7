use crate::checks::check_part;
use crate::machine::listing;
use crate::picture::rows::fetched;
use rv_drawing::{Window, write_picture_text};
use std::alloc::Global;
use std::process::Abort;

const WINDOW: Window = Window {
    first: 0,
    cycles: 1,
    stopped: None,
};

// A line of a program, and what of it stands in the 33 columns of a picture.
static CASES: [(&str, &str); 8] = [
    ("loop: addi x1,x0,5", "loop: addi x1,x0,5               "),
    (
        "a_label_of_twenty___: addi x1,x0",
        "a_label_of_twenty___: addi x1,x0 ",
    ),
    (
        "A_label_of_twenty_one: addi x1,x0",
        "A_label_of_twenty_..: addi x1,x0 ",
    ),
    (
        "label_of_thirty_two_bytes_in_all: ebreak",
        "label_of_thirty_two_by..: ebreak ",
    ),
    (
        "L.0$_9zZ_of_no_few_bytes: addi sp,sp,-2048+16+32",
        "L.0$_9..: addi sp,sp,-2048+16+32 ",
    ),
    (
        "a_label: addi sp,sp,-2048+16+32+64",
        "a_la..: addi sp,sp,-2048+16+32+6 ",
    ),
    (
        "labels: addi sp,sp,-2048+16+32+64",
        "labels: addi sp,sp,-2048+16+32+6 ",
    ),
    (
        ".ascii \"what stands here: no label at all\"",
        ".ascii \"what stands here: no lab ",
    ),
];

// The picture of one instruction that comes from a line.
fn drawn(rt: &impl Abort, alloc: Global, line: &str) -> String {
    let listing = listing(rt, alloc, &[line]);
    let rows = [fetched(0, 0x8000_0000, Some(0x13), 0)];
    let mut text = Vec::new(alloc);
    write_picture_text(&rows, &[], None, &listing, WINDOW, &mut text).expect(rt, "room");
    String::from_utf8(text).expect(rt, "ASCII")
}

// Checks what of a line stands in those columns.
fn check_label(rt: &impl Abort, alloc: Global, line: &str, field: &str) {
    let row = format!(in alloc; "\n80000000 {field}-                F\n").expect(rt, "a text");
    let text = drawn(rt, alloc, line);
    check_part(rt, text.as_str(), row.as_str());
}

#[test]
fn a_long_label_leaves_room_for_its_statement(rt: HostRuntime) {
    for (line, field) in &CASES {
        check_label(&rt, rt.alloc(), line, field);
    }
}
