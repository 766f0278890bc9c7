use crate::checks::check_ended;
use crate::helpers::{CORE, missing, run_text};
use crate::programs::INTERRUPTED_SUM;
use std::alloc::Global;
use std::process::Abort;
use std::test::Fail;

// A job whose timer rises in a cycle and stays.
fn interrupted_at(alloc: Global, cycle: u64, recovery: &str) -> Result<String, Fail> {
    let mut job = format!(in alloc;
        "recovery = \"{recovery}\"\n%%\n[[arrival]]\ncycle = {cycle}\nline = \"timer\"\n%%\n"
    )?;
    job.push_str(INTERRUPTED_SUM)?;
    Ok(job)
}

static SUM: [&str; 3] = ["stop breakpoint", "x5 00000037", "x6 00000000"];

static ONCE: [&str; 2] = ["interrupts 1", "x30 00000001"];

static NEVER: [&str; 2] = ["interrupts 0", "x30 00000000"];

// Whether a report has the sum, and one interrupt or, where it may come too late, none.
fn is_summed(report: &[u8], cycle: u64) -> bool {
    missing(report, &SUM).is_none()
        && (missing(report, &ONCE).is_none() || cycle > 0 && missing(report, &NEVER).is_none())
}

// Checks that the sum is so after an interrupt in a cycle.
fn check_sum(rt: &impl Abort, alloc: Global, cycle: u64, recovery: &str) -> Result<(), Fail> {
    let job = interrupted_at(alloc, cycle, recovery)?;
    let ended = run_text(alloc, CORE, job.as_bytes());
    assert!(rt;
        is_summed(ended.output.as_slice(), cycle),
        "{recovery} {cycle}"
    );
    Ok(())
}

#[test]
fn an_interrupt_in_any_cycle_leaves_the_sum_as_it_is(rt: HostRuntime) -> Result<(), Fail> {
    for cycle in 0..=60 {
        check_sum(&rt, rt.alloc(), cycle, "commit")?;
        check_sum(&rt, rt.alloc(), cycle, "early")?;
    }
    Ok(())
}

// Checks that a job is refused with a line, and nothing else is written.
fn is_refused(rt: &impl Abort, alloc: Global, text: &str, line: &str) {
    let ended = run_text(alloc, CORE, text.as_bytes());
    check_ended(rt, &ended, 1, b"", line.as_bytes());
}

#[test]
fn a_job_that_is_refused_is_not_run(rt: HostRuntime) {
    static CASES: [(&str, &str); 4] = [
        (
            "ram_size = 4096\nrom_bytes = 8192\n%%\nebreak\n",
            "error: description: OutOfRange rom_bytes\n",
        ),
        (
            "%%\n[[arrival]]\ncycle = 0\nline = \"front\"\n%%\nebreak\n",
            "error: arrivals: OutOfRange 1\n",
        ),
        ("%%\n%%\n%%\n", "error: assembly line 1: BadToken\n"),
        (".zero 65537\n", "error: image does not fit\n"),
    ];
    for (text, line) in &CASES {
        is_refused(&rt, rt.alloc(), text, line);
    }
}
