//! What many tests compare, each comparison as a call: a test that holds it itself takes several times as long to prove.

use crate::helpers::{Ended, Narrow, missing, run_text};
use rv_command::Command;
use rv_job::SimError;
use std::alloc::Global;
use std::process::Abort;

/// Checks bytes that were written.
pub(crate) fn check_bytes(rt: &impl Abort, found: &[u8], expected: &[u8]) {
    assert_eq!(rt; found, expected);
}

/// Checks that a report has some lines.
pub(crate) fn check_lines(rt: &impl Abort, report: &[u8], lines: &[&str]) {
    assert_eq!(rt; missing(report, lines), None);
}

/// Checks the exit status of the program.
pub(crate) fn check_status(rt: &impl Abort, ended: &Ended, status: u8) {
    assert_eq!(rt; ended.status, status);
}

/// Checks that the program ends with status 0 and reports no fault.
pub(crate) fn check_fine(rt: &impl Abort, ended: &Ended) {
    check_status(rt, ended, 0);
    assert!(rt; ended.errors.is_empty());
}

/// Checks the exit status of the program, all that it writes, and what it reports.
pub(crate) fn check_ended(
    rt: &impl Abort,
    ended: &Ended,
    status: u8,
    output: &[u8],
    errors: &[u8],
) {
    check_status(rt, ended, status);
    check_bytes(rt, ended.output.as_slice(), output);
    check_bytes(rt, ended.errors.as_slice(), errors);
}

/// Checks that an output with so much room is full and has a beginning of the whole, and that its error says so.
pub(crate) fn check_full(
    rt: &impl Abort,
    error: Option<SimError>,
    output: &Narrow,
    room: usize,
    whole: &[u8],
) {
    assert!(rt; error == Some(SimError::WriteFailed));
    assert!(rt; output.taken.len() == room);
    assert!(rt; whole.starts_with(output.taken.as_slice()));
}

/// Checks that a run of the program ends with status 0, and that its report has not some line.
pub(crate) fn check_without(
    rt: &impl Abort,
    alloc: Global,
    command: Command,
    text: &str,
    line: &'static str,
) {
    let ended = run_text(alloc, command, text.as_bytes());
    let missing = missing(ended.output.as_slice(), &[line]);
    let found = (ended.status, missing);
    assert_eq!(rt; found, (0, Some(line)), "{text}");
}

/// Checks that a run of the program ends with a status, that its report has some lines, and that it reports no fault.
pub(crate) fn check_run(
    rt: &impl Abort,
    alloc: Global,
    command: Command,
    text: &str,
    status: u8,
    lines: &[&str],
) {
    let ended = run_text(alloc, command, text.as_bytes());
    let missing = missing(ended.output.as_slice(), lines);
    let found = (ended.status, missing, ended.errors.is_empty());
    assert_eq!(rt; found, (status, None, true), "{text}");
}
