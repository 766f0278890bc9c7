use crate::checks::check;
use crate::json::expect_text;
use rv_arch::{CsrOperand, Csrs, Observed};
use rv_isa::{CsrAddress, CsrOp, Lines};
use rv_states::write_observed;
use rv_text::Sink;
use std::alloc::Global;
use std::process::Abort;

// x0 to x31.
const REGISTERS: [u32; 32] = [
    0, 131, 130, 129, 128, 127, 126, 125, 124, 123, 122, 121, 120, 119, 118, 117, 116, 115, 114,
    113, 112, 111, 110, 109, 108, 107, 106, 105, 104, 103, 102, 101,
];

// Each address of a register that keeps what is written, and a word for it.
const WRITTEN: [(u32, u32); 7] = [
    (0x300, 0x80),
    (0x304, 0x808),
    (0x305, 0x40),
    (0x340, 0x123),
    (0x341, 0x24),
    (0x342, 0x7),
    (0x343, 0x9),
];

// Control and status registers that hold those words.
fn csrs(rt: &impl Abort) -> Csrs {
    let mut csrs = Csrs::reset();
    for (address, value) in WRITTEN {
        let address = CsrAddress::new(address).expect(rt, "an address");
        let operand = CsrOperand {
            value,
            field_is_zero: false,
        };
        let accessed = csrs.csr_access(CsrOp::Write, address, operand, Lines::default());
        check(rt, accessed.is_ok());
    }
    csrs
}

// The levels of the lines, and what comes after the registers: mip has a bit for each line, software bit 3, timer bit 7
// and external bit 11. mstatus has MPP beside the bit that was written.
static LEVELS: [(bool, bool, bool, &str); 3] = [
    (
        true,
        false,
        false,
        "\"mip\":8,\"mtvec\":64,\"mscratch\":291,\"mepc\":36,\"mcause\":7,\"mtval\":9},\
\"software\":true,\"timer\":false,\"external\":false",
    ),
    (
        false,
        true,
        false,
        "\"mip\":128,\"mtvec\":64,\"mscratch\":291,\"mepc\":36,\"mcause\":7,\"mtval\":9},\
\"software\":false,\"timer\":true,\"external\":false",
    ),
    (
        false,
        false,
        true,
        "\"mip\":2048,\"mtvec\":64,\"mscratch\":291,\"mepc\":36,\"mcause\":7,\"mtval\":9},\
\"software\":false,\"timer\":false,\"external\":true",
    ),
];

const FRONT: &str =
    "{\"pc\":200,\"registers\":[0,131,130,129,128,127,126,125,124,123,122,121,120,119,118,117,\
116,115,114,113,112,111,110,109,108,107,106,105,104,103,102,101],\
\"csrs\":{\"mstatus\":6272,\"mie\":2056,";

// Checks what stands after the registers at these levels of the lines.
fn check_levels(rt: &impl Abort, alloc: Global, lines: Lines, end: &str) {
    let seen = Observed {
        pc: 200,
        regs: REGISTERS,
        csrs: csrs(rt),
        lines,
    };
    let mut text = Vec::new(alloc);
    write_observed(&mut Sink::new(&mut text), &seen);
    let expected = format!(in alloc; "{FRONT}{end}").expect(rt, "a text");
    expect_text(rt, &text, expected.as_bytes());
}

#[test]
fn what_retired_instructions_left_has_each_register(rt: HostRuntime) {
    for (software, timer, external, end) in &LEVELS {
        let lines = Lines {
            software: *software,
            timer: *timer,
            external: *external,
        };
        check_levels(&rt, rt.alloc(), lines, end);
    }
}
