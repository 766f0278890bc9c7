use crate::helpers::run_text;
use rv_command::Command;
use std::alloc::Global;
use std::process::Abort;

const TEXT: [u8; 20] = *b"addi x1,x0,5\nebreak\n";

// The line that the text's first bytes get, so many of them.
const fn line(length: usize) -> &'static str {
    match length {
        0 => "ok 0 bytes start 80000000\n",
        1..=2 => "error: assembly line 1: UnknownMnemonic\n",
        3..=11 => "error: assembly line 1: BadOperands\n",
        12..=13 => "ok 4 bytes start 80000000\n",
        14..=18 => "error: assembly line 2: UnknownMnemonic\n",
        _ => "ok 8 bytes start 80000000\n",
    }
}

const fn status(length: usize) -> u8 {
    match length {
        0 | 12..=13 | 19..=20 => 0,
        _ => 1,
    }
}

// Whether the check of a beginning of the text reports its line alone.
fn is_reported(alloc: Global, beginning: &[u8]) -> bool {
    let length = beginning.len();
    let ended = run_text(alloc, Command::Check, beginning);
    let (reported, other) = if status(length) == 0 {
        (ended.output, ended.errors)
    } else {
        (ended.errors, ended.output)
    };
    ended.status == status(length)
        && reported.as_slice() == line(length).as_bytes()
        && other.is_empty()
}

fn check_beginning(rt: &impl Abort, alloc: Global, beginning: &[u8]) {
    assert!(rt; is_reported(alloc, beginning), "at {}", beginning.len());
}

#[test]
fn each_beginning_of_a_text_is_checked(rt: HostRuntime) {
    for length in 0..=20 {
        check_beginning(&rt, rt.alloc(), &TEXT[..length]);
    }
}
