//! The control and status registers by themselves: their addresses, traps and returns, and the
//! interrupt that is due.

ghost use Rattle.std.specs.Prelude.{◌<◌};

use super::cases::{HIGH, LOW, TIMER};
use crate::checks::{check_equal, check_equal_at, check_true};
use rv_arch::{CsrOperand, Csrs};
use rv_isa::{CsrAddress, CsrOp, Lines};
use std::process::Abort;

const SOFTWARE: Lines = Lines {
    software: true,
    timer: false,
    external: false,
};

const EXTERNAL: Lines = Lines {
    software: false,
    timer: false,
    external: true,
};

fn write(rt: &impl Abort, csrs: &mut Csrs, address: u32, value: u32)
    requires { address < 4096 }
{
    let source = CsrOperand {
        value,
        field_is_zero: false,
    };
    let access = csrs.csr_access(CsrOp::Write, CsrAddress::from_field(address), source, LOW);
    check_true(rt, access.is_ok());
}

// The addresses, and what is read there once the test has written.
const VALUES: [(u32, Option<u32>); 20] = [
    (0x300, Some(0x1880)),
    (0x301, Some(0x4000_1100)),
    (0x302, None),
    (0x304, Some(0x808)),
    (0x305, Some(0x100)),
    (0x306, None),
    (0x310, Some(0)),
    (0x340, Some(0x340)),
    (0x341, Some(0x344)),
    (0x342, Some(0x342)),
    (0x343, Some(0x343)),
    (0x344, Some(0x88)),
    (0xb00, None),
    (0xf10, None),
    (0xf11, Some(0)),
    (0xf12, Some(0)),
    (0xf13, Some(0)),
    (0xf14, Some(0)),
    (0xf15, Some(0)),
    (0xf16, None),
];

#[test]
fn each_register_stands_at_its_address(rt: HostRuntime) {
    let mut csrs = Csrs::reset();
    write(&rt, &mut csrs, 0x300, 0x80);
    write(&rt, &mut csrs, 0x304, 0x808);
    write(&rt, &mut csrs, 0x305, 0x100);
    write(&rt, &mut csrs, 0x310, 0x200);
    write(&rt, &mut csrs, 0x340, 0x340);
    write(&rt, &mut csrs, 0x341, 0x344);
    write(&rt, &mut csrs, 0x342, 0x342);
    write(&rt, &mut csrs, 0x343, 0x343);
    let lines = Lines {
        timer: true,
        ..SOFTWARE
    };
    for (address, value) in &VALUES {
        check_equal_at(&rt, *address, csrs.read(*address, lines), *value);
    }
}

// Privileged Architecture 20211203, 3.1.13, 3.1.15 and 3.1.16: all 32 bits are kept.
#[test]
fn some_registers_keep_each_bit(rt: HostRuntime) {
    for address in [0x340, 0x342, 0x343] {
        let mut csrs = Csrs::reset();
        write(&rt, &mut csrs, address, 0xffff_ffff);
        check_equal_at(&rt, address, csrs.read(address, LOW), Some(0xffff_ffff));
    }
}

// mtvec's low bit makes interrupts alone go to a place of their own, four bytes a code.
#[test]
fn vectored_mode_is_for_interrupts(rt: HostRuntime) {
    let mut csrs = Csrs::reset();
    write(&rt, &mut csrs, 0x305, 0x8000_0101);
    check_equal(&rt, csrs.enter_trap(0, 0x8000_000b, 0), 0x8000_012c);
    check_equal(&rt, csrs.enter_trap(0, 0x8000_0003, 0), 0x8000_010c);
    check_equal(&rt, csrs.enter_trap(0, 11, 0), 0x8000_0100);
    write(&rt, &mut csrs, 0x305, 0x8000_0100);
    check_equal(&rt, csrs.enter_trap(0, 0x8000_000b, 0), 0x8000_0100);
}

// A trap moves MIE to MPIE and clears it; MRET moves MPIE to MIE and sets it; MPP stays 3.
#[test]
fn mret_undoes_a_trap(rt: HostRuntime) {
    let mut csrs = Csrs::reset();
    write(&rt, &mut csrs, 0x300, 8);
    csrs.enter_trap(0x8000_0014, 5, 0x55);
    check_equal(&rt, csrs.read(0x300, LOW), Some(0x1880));
    check_equal(&rt, csrs.read(0x341, LOW), Some(0x8000_0014));
    check_equal(&rt, csrs.read(0x342, LOW), Some(5));
    check_equal(&rt, csrs.read(0x343, LOW), Some(0x55));
    check_equal(&rt, csrs.mret(), 0x8000_0014);
    check_equal(&rt, csrs.read(0x300, LOW), Some(0x1888));
    csrs.enter_trap(0x8000_0018, 2, 0);
    csrs.enter_trap(0x8000_001c, 2, 0);
    check_equal(&rt, csrs.read(0x300, LOW), Some(0x1800));
    check_equal(&rt, csrs.mret(), 0x8000_001c);
    check_equal(&rt, csrs.read(0x300, LOW), Some(0x1880));
}

// What mie has, the lines, and the code that is due.
const DUE_INTERRUPTS: [(u32, Lines, Option<u32>); 12] = [
    (0x888, HIGH, Some(11)),
    (0x088, HIGH, Some(3)),
    (0x080, HIGH, Some(7)),
    (0x880, HIGH, Some(11)),
    (0x888, SOFTWARE, Some(3)),
    (0x888, TIMER, Some(7)),
    (0x888, EXTERNAL, Some(11)),
    (0x808, TIMER, None),
    (0x880, SOFTWARE, None),
    (0x088, EXTERNAL, None),
    (0x888, LOW, None),
    (0x000, HIGH, None),
];

// An interrupt is due where its bit is 1 in mie and in mip: external first, then software, then
// timer.
#[test]
fn due_interrupt_is_the_first_enabled(rt: HostRuntime) {
    for (enabled, lines, code) in &DUE_INTERRUPTS {
        let mut csrs = Csrs::reset();
        write(&rt, &mut csrs, 0x304, *enabled);
        check_equal_at(&rt, *enabled, csrs.due_interrupt(*lines), None);
        write(&rt, &mut csrs, 0x300, 8);
        check_equal_at(&rt, *enabled, csrs.due_interrupt(*lines), *code);
    }
}
