//! The simulator's worked examples on the reference: what each program leaves.

mod cases;
mod control_registers;
mod instructions;
mod programs;

use crate::checks::{check_equal, check_equal_at, check_true, check_true_at};
use cases::{
    Case, HIGH, LOW, PLAIN, TIMER, arrivals, check, check_csr, check_each, holds, machine,
};
use programs::{
    BRANCH_TO_ILLEGAL, BYTE_STORE, DIVISIONS, FORWARDED, JUMP_TO_ODD_HALF, LOAD_PAST_RAM,
    NO_SUCH_CSR, READ_MIP, ROM_EDGE, ROM_HALF, ROM_STORE, SET_MHARTID, STORE_AND_FENCE,
    STORE_TO_NEXT, THREE_LINES, TIMER_PROGRAM, VECTORED, WARL, WRITE_MHARTID,
};
use rv_arch::{CsrOperand, Csrs, Illegal, RefOutcome, Stop, run_reference};
use rv_isa::{CsrAddress, CsrOp};
use std::alloc::Global;
use std::process::Abort;
use std::test::Fail;

#[test]
fn load_takes_the_stored_word(rt: HostRuntime) {
    static CASES: [Case<'static>; 2] = [
        Case {
            words: &FORWARDED,
            registers: &[(7, 7)],
            ..PLAIN
        },
        Case {
            words: &BYTE_STORE,
            registers: &[(7, 0x4433_7f11)],
            ..PLAIN
        },
    ];
    check_each(&rt, rt.alloc(), &CASES);
}

#[test]
fn divisions_and_products(rt: HostRuntime) {
    static CASE: Case<'static> = Case {
        words: &DIVISIONS,
        registers: &[
            (3, 0x8000_0000),
            (4, 0),
            (5, 0),
            (6, 0x8000_0000),
            (7, 0xffff_ffff),
            (8, 0x8000_0000),
            (9, 0xffff_ffff),
            (10, 0x8000_0000),
            (11, 0x4000_0000),
            (12, 0xffff_fffe),
            (13, 0x8000_0000),
            (14, 0xffff_ffff),
        ],
        ..PLAIN
    };
    check(&rt, rt.alloc(), &CASE);
}

#[test]
fn load_after_ram_faults(rt: HostRuntime) {
    static CASE: Case<'static> = Case {
        words: &LOAD_PAST_RAM,
        traps: 2,
        registers: &[(6, 0), (10, 5), (11, 0x8001_0000), (12, 0x8000_0014)],
        ..PLAIN
    };
    check(&rt, rt.alloc(), &CASE);
}

#[test]
fn jump_to_no_multiple_of_4_writes_no_link(rt: HostRuntime) {
    static CASE: Case<'static> = Case {
        words: &JUMP_TO_ODD_HALF,
        traps: 2,
        registers: &[(1, 0), (10, 0), (11, 0x8000_001a), (12, 0x8000_0014)],
        ..PLAIN
    };
    check(&rt, rt.alloc(), &CASE);
}

#[test]
fn branch_skips_an_illegal_word(rt: HostRuntime) {
    static CASE: Case<'static> = Case {
        words: &BRANCH_TO_ILLEGAL,
        traps: 2,
        registers: &[(10, 2), (11, 0xffff_ffff), (12, 0x8000_0014)],
        ..PLAIN
    };
    check(&rt, rt.alloc(), &CASE);
}

#[test]
fn external_comes_before_software_and_that_before_timer(rt: HostRuntime) {
    static CASES: [Case<'static>; 2] = [
        Case {
            words: &THREE_LINES,
            lines: HIGH,
            interrupts: 3,
            registers: &[(12, 0x0000_0b37)],
            ..PLAIN
        },
        Case {
            words: &READ_MIP,
            lines: TIMER,
            registers: &[(5, 0x0000_0080)],
            ..PLAIN
        },
    ];
    check_each(&rt, rt.alloc(), &CASES);
}

#[test]
fn illegal_csr_accesses_trap_with_the_word(rt: HostRuntime) {
    static CASES: [Case<'static>; 3] = [
        Case {
            words: &WRITE_MHARTID,
            lines: TIMER,
            traps: 2,
            registers: &[(10, 2), (11, 0xf140_1073)],
            ..PLAIN
        },
        Case {
            words: &NO_SUCH_CSR,
            lines: TIMER,
            traps: 2,
            registers: &[(10, 2), (11, 0xb000_22f3)],
            ..PLAIN
        },
        Case {
            words: &SET_MHARTID,
            lines: TIMER,
            traps: 2,
            registers: &[(10, 2), (11, 0xf143_22f3)],
            ..PLAIN
        },
    ];
    check_each(&rt, rt.alloc(), &CASES);
}

#[test]
fn csrs_keep_their_legal_bits(rt: HostRuntime) {
    static CASE: Case<'static> = Case {
        words: &WARL,
        registers: &[
            (6, 0x0000_1888),
            (7, 0x0000_0888),
            (8, 0xffff_fffc),
            (9, 0xffff_fffc),
            (10, 0x4000_1100),
            (11, 0),
        ],
        ..PLAIN
    };
    check(&rt, rt.alloc(), &CASE);
}

#[test]
fn the_read_only_front_is_kept_from_stores(rt: HostRuntime) {
    static CASES: [Case<'static>; 3] = [
        Case {
            words: &ROM_STORE,
            rom_bytes: 4096,
            traps: 2,
            registers: &[(6, 7), (10, 7), (11, 0x8000_0030), (12, 0x8000_0018)],
            ..PLAIN
        },
        Case {
            words: &ROM_HALF,
            rom_bytes: 4096,
            traps: 2,
            registers: &[(6, 7), (10, 6), (11, 0x8000_0031)],
            ..PLAIN
        },
        Case {
            words: &ROM_EDGE,
            rom_bytes: 4096,
            traps: 2,
            registers: &[(10, 7), (11, 0x8000_0ffc), (12, 0x8000_0014)],
            ..PLAIN
        },
    ];
    check_each(&rt, rt.alloc(), &CASES);
}

// Runs the program of the timer, whose line rises in a cycle, and checks how often it interrupts.
fn check_timer(rt: &impl Abort, alloc: Global, cycle: u64, interrupts: u32) {
    let mut reference = machine(rt, alloc, &TIMER_PROGRAM, 0);
    let outcome = run_reference(&mut reference, &arrivals(rt, alloc, cycle, TIMER), 1000);
    let seen = reference.observe();
    check_true_at(rt, cycle, outcome.stop == Stop::Breakpoint);
    check_true_at(rt, cycle, outcome.interrupts == u64::from(interrupts));
    holds(rt, &seen, 5, 0x37);
    holds(rt, &seen, 30, interrupts);
}

#[test]
fn interrupt_comes_once_whenever_the_line_rises(rt: HostRuntime) {
    for cycle in 0..61 {
        check_timer(&rt, rt.alloc(), cycle, if cycle < 39 { 1 } else { 0 });
    }
}

// Checks how a run stops at a stale word.
fn check_stale(rt: &impl Abort, alloc: Global) {
    const OUTCOME: RefOutcome = RefOutcome {
        steps: 5,
        retired: 5,
        traps: 0,
        interrupts: 0,
        stop: Stop::Stale(0x8000_0014),
    };
    let low = arrivals(rt, alloc, 0, LOW);
    let mut reference = machine(rt, alloc, &STORE_TO_NEXT, 0);
    check_equal(rt, run_reference(&mut reference, &low, 1000), OUTCOME);
    holds(rt, &reference.observe(), 7, 0);
    check_true(rt, reference.is_stale(0x8000_0017));
    check_true(rt, !reference.is_stale(0x8000_0010));
}

#[test]
fn stale_word_stops_the_run_until_a_fence(rt: HostRuntime) {
    static FENCED: Case<'static> = Case {
        words: &STORE_AND_FENCE,
        registers: &[(7, 1)],
        ..PLAIN
    };
    check_stale(&rt, rt.alloc());
    check(&rt, rt.alloc(), &FENCED);
}

#[test]
fn stamps_lead_to_where_the_run_stops(rt: HostRuntime) {
    let low = arrivals(&rt, rt.alloc(), 0, LOW);
    let mut reference = machine(&rt, rt.alloc(), &STORE_TO_NEXT, 0);
    check_equal(&rt, reference.run_stamps(&[0, 2, 4, 4, 5, 9, 9], &low), 5);
    check_equal(&rt, reference.observe().pc, 0x8000_0014);
}

#[test]
fn vectored_interrupt_goes_to_its_own_place(rt: HostRuntime) {
    static CASE: Case<'static> = Case {
        words: &VECTORED,
        lines: TIMER,
        interrupts: 1,
        registers: &[(10, 0x8000_0007), (12, 0x8000_001c)],
        ..PLAIN
    };
    let seen = check(&rt, rt.alloc(), &CASE);
    check_equal(&rt, seen.pc, 0x8000_0020);
    check_csr(&rt, &seen, 0x305, 0x8000_0021);
    check_csr(&rt, &seen, 0x341, 0x8000_0044);
}

#[test]
fn bytes_are_those_of_ram(rt: HostRuntime) {
    let mut reference = machine(&rt, rt.alloc(), &ROM_EDGE, 4096);
    let outcome = run_reference(&mut reference, &arrivals(&rt, rt.alloc(), 0, LOW), 1000);
    check_equal(&rt, outcome.stop, Stop::Breakpoint);
    check_equal(&rt, reference.byte(0x8000_1001), Some(0x10));
    check_equal(&rt, reference.byte(0x8000_1003), Some(0x80));
    check_equal(&rt, reference.byte(0x8001_0000), None);
    check_equal(&rt, reference.byte(0x7fff_ffff), None);
}

// What mtvec keeps of a word that is written.
fn kept_in_mtvec(csrs: &mut Csrs, value: u32) -> Option<u32> {
    let source = CsrOperand {
        value,
        field_is_zero: false,
    };
    match csrs.csr_access(CsrOp::Write, CsrAddress::from_field(0x305), source, LOW) {
        Ok(_) => csrs.read(0x305, LOW),
        Err(_) => None,
    }
}

#[test]
fn mtvec_keeps_modes_0_and_1(rt: HostRuntime) {
    const CASES: [(u32, u32); 5] = [(4, 4), (5, 5), (6, 4), (7, 4), (0xffff_ffff, 0xffff_fffc)];
    let mut csrs = Csrs::reset();
    for (written, kept) in &CASES {
        check_equal_at(
            &rt,
            *written,
            kept_in_mtvec(&mut csrs, *written),
            Some(*kept),
        );
    }
}

#[test]
fn an_illegal_csr_access_says_so(rt: HostRuntime) -> Result<(), Fail> {
    let text = format!(in rt.alloc(); "{Illegal}")?;
    check_equal(
        &rt,
        text.as_str(),
        "illegal access to a control and status register",
    );
    Ok(())
}
