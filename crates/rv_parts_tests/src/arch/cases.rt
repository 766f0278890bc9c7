//! A program on the reference, and what it leaves.

use crate::checks::{check_equal, check_equal_at, check_true, check_true_at};
use crate::words::bytes_of;
use rv_arch::{Observed, Reference, Stop, run_reference};
use rv_isa::{Arrival, Arrivals, Line, Lines};
use std::alloc::Global;
use std::process::Abort;

pub(super) const BASE: u32 = 0x8000_0000;

const SIZE: u32 = 65536;

pub(super) const LOW: Lines = Lines {
    software: false,
    timer: false,
    external: false,
};

pub(super) const TIMER: Lines = Lines {
    software: false,
    timer: true,
    external: false,
};

pub(super) const HIGH: Lines = Lines {
    software: true,
    timer: true,
    external: true,
};

// In a box, which a test drops by one call.
pub(super) fn machine(
    rt: &impl Abort,
    alloc: Global,
    words: &[u32],
    rom_bytes: u32,
) -> Box<Reference> {
    let bytes = bytes_of(rt, alloc, words);
    check_true(rt, bytes.len() <= SIZE as usize && rom_bytes <= SIZE);
    let reference = Reference::new(alloc, BASE, SIZE, rom_bytes, bytes.as_slice(), BASE).expect(
        rt,
        "room for the machine",
    );
    Box::new(alloc, reference).expect(rt, "a box")
}

/// Each line has its level from a cycle on.
pub(super) fn arrivals(rt: &impl Abort, alloc: Global, cycle: u64, lines: Lines) -> Arrivals {
    let levels = [
        (Line::Software, lines.software),
        (Line::Timer, lines.timer),
        (Line::External, lines.external),
    ];
    let mut items = Vec::new(alloc);
    for (line, level) in levels {
        items
            .push(Arrival { cycle, line, level })
            .expect(rt, "room for an arrival");
    }
    Arrivals::new(items).expect(rt, "a cycle within bounds")
}

/// A program, what it is started with, and what it leaves at its breakpoint.
#[derive(Clone, Copy)]
pub(super) struct Case<'a> {
    pub(super) words: &'a [u32],
    pub(super) rom_bytes: u32,
    pub(super) lines: Lines,
    pub(super) traps: u64,
    pub(super) interrupts: u64,
    pub(super) registers: &'a [(usize, u32)],
}

/// A program that takes no trap but its breakpoint.
pub(super) const PLAIN: Case<'static> = Case {
    words: &[],
    rom_bytes: 0,
    lines: LOW,
    traps: 1,
    interrupts: 0,
    registers: &[],
};

/// What the program has left.
pub(super) fn check(rt: &impl Abort, alloc: Global, case: &Case) -> Observed {
    let arrivals = arrivals(rt, alloc, 0, case.lines);
    let mut reference = machine(rt, alloc, case.words, case.rom_bytes);
    let outcome = run_reference(&mut reference, &arrivals, 1000);
    let seen = reference.observe();
    check_equal(rt, outcome.stop, Stop::Breakpoint);
    check_equal(
        rt,
        (outcome.traps, outcome.interrupts),
        (case.traps, case.interrupts),
    );
    check_registers(rt, &seen, case.registers);
    seen
}

/// Checks what each program of a list leaves.
pub(super) fn check_each(rt: &impl Abort, alloc: Global, cases: &[Case]) {
    for case in cases {
        check(rt, alloc, case);
    }
}

fn check_registers(rt: &impl Abort, seen: &Observed, registers: &[(usize, u32)]) {
    for (register, value) in registers {
        holds(rt, seen, *register, *value);
    }
}

/// Checks a register. A failure shows its number.
pub(super) fn holds(rt: &impl Abort, seen: &Observed, register: usize, value: u32) {
    check_true(rt, register < 32);
    check_true_at(rt, register as u64, seen.regs[register] == value);
}

/// Checks the control and status register at an address.
pub(super) fn check_csr(rt: &impl Abort, seen: &Observed, address: u32, value: u32) {
    check_equal_at(
        rt,
        address,
        seen.csrs.read(address, seen.lines),
        Some(value),
    );
}
