use crate::checks::{check_bytes, check_ended, check_status};
use crate::explanations::EXPLAIN;
use crate::helpers::{CORE, Closed, Ended, FailsOnce, HeldBack, Narrow, WHOLE, run_text};
use crate::programs::STORE_INTO_CODE;
use rv_command::Command;
use rv_job::FaultLines;
use rv_program::run;
use rv_text::TextError;
use std::alloc::Global;
use std::process::Abort;

const TEXT: &[u8] = b"report.dump_words = 2\n%%\naddi x1,x0,5\nebreak\n";

fn narrow(alloc: Global, width: usize, room: usize) -> Narrow {
    Narrow {
        width,
        room,
        taken: Vec::new(alloc),
    }
}

fn held_back(alloc: Global, can_flush: bool) -> HeldBack {
    HeldBack {
        can_flush,
        shown: 0,
        taken: Vec::new(alloc),
    }
}

// How the program ends with an output that takes so many bytes at a time, and no more than it has room for.
fn run_into(alloc: Global, command: Command, width: usize, room: usize) -> Ended {
    let output = narrow(alloc, width, room);
    let mut errors = FaultLines::new(Vec::new(alloc));
    let mut reader = TEXT;
    let exit = run(alloc, &command, &mut reader, output, &mut errors);
    let output = exit.output.unwrap_or(narrow(alloc, 0, 0));
    Ended {
        status: exit.status,
        output: output.taken,
        refusal: exit.refusal,
        errors: errors.into_writer(),
    }
}

// How the program ends with an output that shows what it has taken once it is flushed, which may fail.
fn run_held(alloc: Global, command: Command, text: &str, can_flush: bool) -> Ended {
    let output = held_back(alloc, can_flush);
    let mut errors = FaultLines::new(Vec::new(alloc));
    let mut reader = text.as_bytes();
    let exit = run(alloc, &command, &mut reader, output, &mut errors);
    let output = exit.output.unwrap_or(held_back(alloc, false));
    let shown = output.shown;
    let mut taken = output.taken;
    taken.truncate(shown);
    Ended {
        status: exit.status,
        output: taken,
        refusal: exit.refusal,
        errors: errors.into_writer(),
    }
}

// Whether an output that holds back shows the whole report of a run.
fn is_shown(alloc: Global, command: &Command, text: &str, status: u8) -> bool {
    let whole = run_text(alloc, *command, text.as_bytes());
    let ended = run_held(alloc, *command, text, true);
    ended.status == status
        && ended.output.as_slice() == whole.output.as_slice()
        && !ended.output.is_empty()
        && ended.errors.is_empty()
}

#[test]
fn an_output_that_holds_back_is_flushed(rt: HostRuntime) {
    for command in &[CORE, WHOLE] {
        assert!(&rt; is_shown(rt.alloc(), command, "addi x1,x0,5\nebreak\n", 0));
        assert!(&rt; is_shown(rt.alloc(), command, STORE_INTO_CODE, 3));
    }
    assert!(&rt; is_shown(rt.alloc(), &Command::Check, "ebreak\n", 0));
}

#[test]
fn an_output_that_cannot_be_flushed_gives_status_4(rt: HostRuntime) {
    static TEXTS: [&str; 2] = ["ebreak\n", STORE_INTO_CODE];
    for text in &TEXTS {
        let ended = run_held(rt.alloc(), CORE, text, false);
        check_ended(&rt, &ended, 4, b"", b"error: output\n");
    }
}

#[test]
fn an_output_that_takes_few_bytes_gets_the_whole_report(rt: HostRuntime) {
    let whole = run_text(rt.alloc(), WHOLE, TEXT);
    for width in [1, 3, 64] {
        let ended = run_into(rt.alloc(), WHOLE, width, 10_000);
        check_status(&rt, &ended, 0);
        check_bytes(&rt, ended.output.as_slice(), whole.output.as_slice());
    }
}

const REFUSED: &str = "frobnicate\n";

// Checks that a job is refused, and whether that is written.
fn check_refusal(rt: &impl Abort, ended: &Ended, refusal: Result<(), TextError>) {
    check_status(rt, ended, 1);
    assert!(rt; ended.refusal == refusal);
}

#[test]
fn why_a_job_is_refused_is_flushed(rt: HostRuntime) {
    let whole = run_text(rt.alloc(), EXPLAIN, REFUSED.as_bytes());
    assert!(&rt; !whole.output.is_empty());
    check_refusal(&rt, &whole, Ok(()));
    let ended = run_held(rt.alloc(), EXPLAIN, REFUSED, true);
    check_bytes(&rt, ended.output.as_slice(), whole.output.as_slice());
    check_refusal(&rt, &ended, Ok(()));
}

#[test]
fn why_a_job_is_refused_may_fail_to_be_written(rt: HostRuntime) {
    let ended = run_held(rt.alloc(), EXPLAIN, REFUSED, false);
    check_refusal(&rt, &ended, Err(TextError::WriteFailed));
}

const LOOP: &[u8] = b"again: addi x1,x1,1\nj again\n";

// Whether an output failed that answers an error after so many writes, and whether it was asked to write again.
fn after_failure(
    alloc: Global,
    command: Command,
    mut input: &[u8],
    before: u64,
) -> Option<(bool, bool)> {
    let output = FailsOnce {
        before,
        has_failed: false,
        is_asked_again: false,
    };
    let mut errors = FaultLines::new(Vec::new(alloc));
    let exit = run(alloc, &command, &mut input, output, &mut errors);
    let output = exit.output?;
    Some((output.has_failed, output.is_asked_again))
}

// Checks that an output which fails after so many writes is not asked again.
fn check_failure(rt: &impl Abort, alloc: Global, command: Command, input: &[u8], before: u64) {
    let output = after_failure(alloc, command, input, before);
    assert_eq!(rt; output, Some((true, false)), "after {before}");
}

#[test]
fn nothing_is_written_after_a_write_that_failed(rt: HostRuntime) {
    const LOG: Command = Command::Log { limit: 1000 };
    for before in [0, 1, 2] {
        check_failure(&rt, rt.alloc(), LOG, LOOP, before);
    }
    check_failure(&rt, rt.alloc(), WHOLE, TEXT, 0);
    check_failure(&rt, rt.alloc(), Command::Check, TEXT, 0);
}

// Whether a full output has a beginning of a report and the status says so.
fn is_cut(alloc: Global, command: &Command, room: usize) -> bool {
    let whole = run_text(alloc, *command, TEXT);
    let cut = run_into(alloc, *command, 9, room);
    cut.status == 4
        && cut.output.len() == room
        && whole.output.as_slice().starts_with(cut.output.as_slice())
        && cut.errors.as_slice() == b"error: output\n".as_slice()
}

fn check_cut(rt: &impl Abort, alloc: Global, command: &Command, room: usize) {
    assert!(rt; is_cut(alloc, command, room), "at {room}");
}

#[test]
fn an_output_that_is_full_has_a_beginning_of_the_report(rt: HostRuntime) {
    for room in [0, 1, 15, 16, 100, 400] {
        check_cut(&rt, rt.alloc(), &WHOLE, room);
    }
    check_cut(&rt, rt.alloc(), &Command::Check, 3);
}

// The status of a run whose faults cannot be reported, and whether there were none to report.
fn run_unreported(alloc: Global, mut input: &[u8]) -> (u8, bool) {
    let mut errors = FaultLines::new(Closed);
    let exit = run(alloc, &WHOLE, &mut input, Closed, &mut errors);
    (exit.status, errors.is_whole())
}

// Checks that status, and that there were faults to report.
fn check_unreported(rt: &impl Abort, alloc: Global, input: &[u8], status: u8) {
    assert_eq!(rt; run_unreported(alloc, input), (status, false));
}

#[test]
fn a_fault_that_cannot_be_reported_has_its_status_too(rt: HostRuntime) {
    check_unreported(&rt, rt.alloc(), b"frobnicate\n", 1);
    check_unreported(&rt, rt.alloc(), b"ebreak\n", 4);
}
