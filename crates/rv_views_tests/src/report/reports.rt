use crate::checks::{check, check_bytes, check_end, check_start};
use crate::machine::{described, pipeline};
use rv_arch::{RefOutcome, Reference, Stop, run_reference};
use rv_front::NotTaken;
use rv_hardware::{Execution, Row, StallCounts, Step};
use rv_isa::{Arrival, Arrivals, Cause, Line, Reg, Values};
use rv_report::{
    Options, StepCounts, Totals, write_reference, write_run, write_totals, write_trace,
};
use rv_watch::Simulated;
use std::alloc::Global;
use std::process::Abort;
use std::test::Fail;

const BASE: u32 = 0x8000_0000;

// addi rd,x0,value
fn addi(rd: u32, value: u32) -> u32 {
    value << 20 | rd << 7 | 0x13
}

// csrw csr,rs1
fn csrw(csr: u32, rs1: u32) -> u32 {
    csr << 20 | rs1 << 15 | 0x1073
}

// Gives each CSR that can be written another value, then each register 17 times its number, and jumps to the jump.
fn program(alloc: Global) -> Result<Vec<u8>, Fail> {
    let mut bytes = Vec::new(alloc);
    let kept = [
        (0x300, 0x80),
        (0x304, 0x808),
        (0x305, 0x40),
        (0x340, 0x123),
        (0x341, 0x24),
        (0x342, 0x7),
        (0x343, 0x9),
    ];
    for (csr, value) in kept {
        bytes.extend_from_slice(&addi(1, value).to_le_bytes())?;
        bytes.extend_from_slice(&csrw(csr, 1).to_le_bytes())?;
    }
    for register in 1u32..32 {
        let word = addi(register, register.wrapping_mul(17));
        bytes.extend_from_slice(&word.to_le_bytes())?;
    }
    bytes.extend_from_slice(&0x6fu32.to_le_bytes())?;
    Ok(bytes)
}

// What a report shows of the state after that program, with the line of the timer high, and of three words of memory.
fn state_lines(alloc: Global) -> Result<Vec<u8>, Fail> {
    let mut lines = Vec::new(alloc);
    lines.extend_from_slice(b"pc 800000b4\nx0 00000000\n")?;
    for register in 1u32..32 {
        let value = register.wrapping_mul(17);
        let line = format!(in alloc; "x{register} {value:08x}\n")?;
        lines.extend_from_slice(line.as_bytes())?;
    }
    lines.extend_from_slice(
        b"mstatus 00001880
mie 00000808
mtvec 00000040
mscratch 00000123
mepc 00000024
mcause 00000007
mtval 00000009
mip 00000080
m 7ffffffc --------
m 80000000 08000093
m 80000004 30009073
",
    )?;
    Ok(lines)
}

const OPTIONS: Options = Options {
    trace: false,
    limit: 1000,
    dump_address: 0x7fff_fffc,
    dump_words: 3,
};

fn timer(alloc: Global) -> Result<Arrivals, Fail> {
    let mut arrivals = Vec::new(alloc);
    arrivals.push(Arrival {
        cycle: 0,
        line: Line::Timer,
        level: true,
    })?;
    match Arrivals::new(arrivals) {
        Some(arrivals) => Ok(arrivals),
        None => Err(Fail::from("no arrivals")),
    }
}

// How a run of that program ends, and its report.
fn run_report(rt: &impl Abort, alloc: Global) -> Result<(Stop, Vec<u8>), Fail> {
    let bytes = program(alloc)?;
    let arrivals = timer(alloc)?;
    let steps = Vec::with_capacity(alloc, 8)?;
    let mut report = Vec::new(alloc);
    let description = described(rt, Values::standard());
    let pipeline = pipeline(rt, alloc, &description, bytes.as_slice());
    let mut predictor = NotTaken;
    let stop = write_run(
        pipeline,
        &mut predictor,
        &arrivals,
        &OPTIONS,
        steps,
        &mut report,
    )?;
    Ok((stop, report))
}

#[test]
fn each_line_of_a_run_s_state_has_its_own_value(rt: HostRuntime) -> Result<(), Fail> {
    let lines = state_lines(rt.alloc())?;
    let (stop, report) = run_report(&rt, rt.alloc())?;
    check(&rt, stop == Stop::Limit);
    assert!(&rt; report.as_slice().starts_with(b"stop limit\ncycles 1000\n"));
    check_end(&rt, report.as_slice(), lines.as_slice());
    Ok(())
}

// The one-at-a-time machine after a hundred steps of that program.
fn reference_after(alloc: Global) -> Result<Reference, Fail> {
    let bytes = program(alloc)?;
    let text = bytes.as_slice();
    if text.len() > 65536 {
        return Err(Fail::from("no image"));
    }
    let mut reference = Reference::new(alloc, BASE, 65536, 0, text, BASE)?;
    run_reference(&mut reference, &timer(alloc)?, 100);
    Ok(reference)
}

const OUTCOME: RefOutcome = RefOutcome {
    steps: 11,
    retired: 7,
    traps: 3,
    interrupts: 1,
    stop: Stop::Exhausted,
};

// The lines of that outcome and of that state.
fn reference_lines(alloc: Global) -> Result<Vec<u8>, Fail> {
    let mut lines = Vec::new(alloc);
    lines.extend_from_slice(b"stop exhausted\nsteps 11\nretired 7\ntraps 3\ninterrupts 1\n")?;
    lines.extend_from_slice(state_lines(alloc)?.as_slice())?;
    Ok(lines)
}

#[test]
fn each_line_of_the_reference_s_report_has_its_own_value(rt: HostRuntime) -> Result<(), Fail> {
    let reference = reference_after(rt.alloc())?;
    let lines = reference_lines(rt.alloc())?;
    let mut report = Vec::new(rt.alloc());
    write_reference(&OUTCOME, &reference, &OPTIONS, &mut report)?;
    check_bytes(&rt, report.as_slice(), lines.as_slice());
    Ok(())
}

const TOTALS: Totals = Totals {
    stop: Stop::Stale(0x8000_0014),
    cycles: 1009,
    steps: StepCounts {
        retired: 300,
        traps: 7,
        interrupts: 11,
    },
    longest_gap: 13,
    busy: 17,
    stalls: StallCounts {
        fetch: 19,
        serial: 23,
        rob: 29,
        station: 31,
        store: 37,
    },
};

#[test]
fn each_count_of_a_run_has_its_own_line(rt: HostRuntime) -> Result<(), Fail> {
    let alloc = rt.alloc();
    let mut report = Vec::new(alloc);
    let pipeline = pipeline(&rt, alloc, &described(&rt, Values::standard()), &[]);
    write_totals(&TOTALS, &pipeline.shown(), &OPTIONS, &mut report)?;
    let lines = b"stop stale 80000014
cycles 1009
retired 300
traps 7
interrupts 11
cpi 3.363
longest_gap 13
busy 17
stall fetch 19
stall serial 23
stall rob 29
stall station 31
stall store 37
pc 80000000
x0 00000000
";
    check_start(&rt, report.as_slice(), lines);
    Ok(())
}

const NOT_EXECUTED: Row = Row {
    pc: 0x8000_0010,
    word: 0x0050_0093,
    written: None,
    fetched: 1,
    dispatched: 2,
    execution: None,
    retired: 8,
};

const EXECUTION: Execution = Execution {
    issued: 4,
    cost: 2,
    broadcast: 6,
};

#[test]
fn each_stamp_of_a_step_has_its_own_letter(rt: HostRuntime) -> Result<(), Fail> {
    let mut executed = NOT_EXECUTED;
    executed.written = Some((Reg::new(31).expect(&rt, "a register"), 0xdead_beef));
    executed.execution = Some(EXECUTION);
    let steps = [
        Step::Retired(executed),
        Step::Retired(NOT_EXECUTED),
        Step::Trap {
            pc: 0x8000_0020,
            cause: Cause::StoreAddressMisaligned,
            value: 0x8000_1002,
            cycle: 9,
        },
        Step::Interrupt {
            pc: 0x8000_0024,
            cause: 0x8000_0007,
            cycle: 10,
        },
    ];
    let mut trace = Vec::new(rt.alloc());
    write_trace(&mut trace, true, &steps)?;
    let lines = "R 80000010 00500093 F1 D2 I4 B6 C8 x31=deadbeef
R 80000010 00500093 F1 D2 I- B- C8 -
T 80000020 00000006 80001002 C9
N 80000024 80000007 C10
";
    check_bytes(&rt, trace.as_slice(), lines.as_bytes());
    Ok(())
}
