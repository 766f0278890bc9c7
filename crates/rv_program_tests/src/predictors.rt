use crate::guesses::{GUESSES, Guesses, RECOVERIES};
use crate::helpers::missing;
use crate::programs::{INTERRUPTED_SUM, STORE_AND_FENCE, STORE_INTO_CODE};
use rv_job::read_job;
use rv_program::BoxedPredictor;
use rv_program::reference::reference;
use rv_program::simulate::simulate;
use rv_report::Options;
use std::alloc::Global;
use std::process::Abort;
use std::test::Fail;

const OPTIONS: Options = Options {
    trace: false,
    limit: 100_000,
    dump_address: 0,
    dump_words: 0,
};

// A description that shows the beginning of memory.
const DUMP: &str = "report.dump_address = 0x80000000\nreport.dump_words = 32\n";

const DIVISIONS: (&str, &[&str]) = (
    "lui x5,0x80000
addi x6,x0,-1
div x10,x5,x6
rem x11,x5,x6
divu x12,x5,x6
remu x13,x5,x6
div x14,x5,x0
rem x15,x5,x0
divu x16,x5,x0
remu x17,x5,x0
mulh x18,x5,x5
mulhu x19,x6,x6
mulhsu x20,x5,x6
mulhsu x21,x6,x6
ebreak
",
    &[
        "x10 80000000",
        "x11 00000000",
        "x12 00000000",
        "x13 80000000",
        "x14 ffffffff",
        "x15 80000000",
        "x16 ffffffff",
        "x17 80000000",
        "x18 40000000",
        "x19 fffffffe",
        "x20 80000000",
        "x21 ffffffff",
    ],
);

const BYTE_STORED: (&str, &[&str]) = (
    "la x5,w
addi x6,x0,0x7f
sb x6,1(x5)
lw x7,0(x5)
ebreak
.data
w: .word 0x44332211
",
    &["x5 80000020", "x7 44337f11"],
);

const STORE_PASSED_OVER: (&str, &[&str]) = (
    "la x5,w
div x6,x5,x5
bne x6,x0,o
sw x0,0(x5)
o: lw x7,0(x5)
ebreak
.data
w: .word 0xabcd
",
    &["x7 0000abcd"],
);

const LOAD_OUTSIDE: (&str, &[&str]) = (
    "la x31,h
csrw mtvec,x31
lui x5,0x80010
lw x6,-4(x5)
lw x7,0(x5)
h: csrr x10,mcause
csrr x11,mtval
csrr x12,mepc
ebreak
",
    &[
        "x6 00000000",
        "x10 00000005",
        "x11 80010000",
        "x12 80000014",
    ],
);

const JUMP_MISALIGNED: (&str, &[&str]) = (
    "la x31,h
csrw mtvec,x31
la x5,h
jalr ra,2(x5)
h: csrr x10,mcause
csrr x11,mtval
csrr x12,mepc
ebreak
",
    &[
        "x1 00000000",
        "x10 00000000",
        "x11 8000001a",
        "x12 80000014",
    ],
);

const ILLEGAL_WORD: (&str, &[&str]) = (
    "la x31,h
csrw mtvec,x31
beq x0,x0,k
.word 0
k: .word 0xffffffff
h: csrr x10,mcause
csrr x11,mtval
csrr x12,mepc
ebreak
",
    &["x10 00000002", "x11 ffffffff", "x12 80000014"],
);

const STALE_WORD: (&str, &[&str]) = (STORE_INTO_CODE, &["pc 80000014", "x7 00000000"]);

const FRESH_WORD: (&str, &[&str]) = (STORE_AND_FENCE, &["mcause 00000003", "x7 00000001"]);

// Programs, with what their ends show.
static PROGRAMS: [(&str, &[&str]); 8] = [
    DIVISIONS,
    BYTE_STORED,
    STORE_PASSED_OVER,
    LOAD_OUTSIDE,
    JUMP_MISALIGNED,
    ILLEGAL_WORD,
    STALE_WORD,
    FRESH_WORD,
];

// The part of a report that shows the state: from the line of the pc on.
fn state_part(report: &[u8]) -> &[u8] {
    for start in 0..report.len() {
        if report[start..].starts_with(b"\npc ") {
            return &report[start..];
        }
    }
    &[]
}

// The report of a job on the machine that takes one step at a time.
fn expected(alloc: Global, text: &str) -> Result<Vec<u8>, Fail> {
    let mut report = Vec::new(alloc);
    reference(
        alloc,
        &read_job(alloc, text.as_bytes())?,
        &OPTIONS,
        &mut report,
    )?;
    Ok(report)
}

// The report of a job on the core.
fn simulated(alloc: Global, text: &str, guesses: Guesses) -> Result<Vec<u8>, Fail> {
    let mut report = Vec::new(alloc);
    let job = read_job(alloc, text.as_bytes())?;
    let predictor = BoxedPredictor {
        predictor: Box::new(alloc, guesses)?,
    };
    simulate(alloc, &job, predictor, &OPTIONS, &mut report)?;
    Ok(report)
}

// Whether runs of a job on the core end in a state, however they guess.
fn end_in(alloc: Global, text: &str, state: &[u8]) -> Result<bool, Fail> {
    for guesses in GUESSES {
        let report = simulated(alloc, text, guesses)?;
        if state_part(report.as_slice()) != state {
            return Ok(false);
        }
    }
    Ok(true)
}

// Whether runs of a job on the core end as the one on the reference, whose state has some lines.
fn end_as_the_reference(alloc: Global, text: &str, lines: &[&str]) -> Result<bool, Fail> {
    let whole = expected(alloc, text)?;
    let state = state_part(whole.as_slice());
    Ok(missing(state, lines).is_none() && end_in(alloc, text, state)?)
}

// Checks that runs of a program end so, however they mend wrong predictions.
fn check_program(
    rt: &impl Abort,
    alloc: Global,
    program: &str,
    lines: &[&str],
) -> Result<(), Fail> {
    for recovery in &RECOVERIES {
        let text = format!(in alloc; "{recovery}{DUMP}%%\n{program}")?;
        let ends_alike = end_as_the_reference(alloc, text.as_str(), lines)?;
        assert!(rt; ends_alike, "{program}");
    }
    Ok(())
}

#[test]
fn no_guess_and_no_recovery_changes_the_state_at_the_end(rt: HostRuntime) -> Result<(), Fail> {
    for (program, lines) in &PROGRAMS {
        check_program(&rt, rt.alloc(), program, lines)?;
    }
    Ok(())
}

// The timer's line in the cycles 0 to 999: high in the even ones and low in the odd ones.
fn alternating(alloc: Global) -> Result<String, Fail> {
    let mut text = String::new(alloc);
    for cycle in 0..1000 {
        let level = if cycle % 2 == 0 { 1 } else { 0 };
        writeln!(
            text,
            "[[arrival]]\ncycle = {cycle}\nline = \"timer\"\nlevel = {level}"
        )?;
    }
    Ok(text)
}

static SUM: [&str; 5] = [
    "stop breakpoint",
    "interrupts 1",
    "x5 00000037",
    "x6 00000000",
    "x30 00000001",
];

// Whether runs of a job on the core have the sum and one interrupt, however they guess.
fn are_interrupted_once(alloc: Global, text: &str) -> Result<bool, Fail> {
    for guesses in GUESSES {
        let report = simulated(alloc, text, guesses)?;
        if missing(report.as_slice(), &SUM).is_some() {
            return Ok(false);
        }
    }
    Ok(true)
}

// Checks that runs with these arrivals do so, as they mend wrong predictions.
fn check_interrupted(
    rt: &impl Abort,
    alloc: Global,
    recovery: &str,
    arrivals: &str,
) -> Result<(), Fail> {
    let text = format!(in alloc; "{recovery}%%\n{arrivals}%%\n{INTERRUPTED_SUM}")?;
    let is_once = are_interrupted_once(alloc, text.as_str())?;
    assert!(rt; is_once, "{recovery}");
    Ok(())
}

#[test]
fn a_timer_line_that_changes_in_each_cycle_interrupts_the_sum_once(
    rt: HostRuntime,
) -> Result<(), Fail> {
    let arrivals = alternating(rt.alloc())?;
    for recovery in &RECOVERIES {
        check_interrupted(&rt, rt.alloc(), recovery, arrivals.as_str())?;
    }
    Ok(())
}
