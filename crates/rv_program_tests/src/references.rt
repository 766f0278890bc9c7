use crate::checks::check_lines;
use crate::helpers::{WHOLE, run_text};

// A store to the read-only front of RAM, and the handler that ends the run.
const READ_ONLY: &[u8] = b"rom_bytes = 4096
%%
la x31,h
csrw mtvec,x31
la x5,w
lw x6,0(x5)
sw x6,0(x5)
ebreak
h: csrr x10,mcause
csrr x11,mtval
csrr x12,mepc
ebreak
.data
w: .word 7
";

#[test]
fn the_reference_runs_the_machine_that_is_described(rt: HostRuntime) {
    static LINES: [&str; 4] = [
        "stop breakpoint",
        "x6 00000007",
        "x10 00000007",
        "x12 80000018",
    ];
    let ended = run_text(rt.alloc(), WHOLE, READ_ONLY);
    check_lines(&rt, ended.output.as_slice(), &LINES);
}

// Counts up until an interrupt of the timer; its handler keeps the count.
const INTERRUPTED: &[u8] = b"%%
[[arrival]]
cycle = 20
line = \"timer\"
%%
la x31,h
csrw mtvec,x31
li x5,0x80
csrw mie,x5
csrsi mstatus,8
l: addi x6,x6,1
j l
h: csrr x10,mcause
ebreak
";

#[test]
fn the_reference_takes_arrivals_by_the_numbers_of_steps(rt: HostRuntime) {
    // Twenty steps, six of them before the loop; the twenty-first is the interrupt.
    static LINES: [&str; 5] = [
        "stop breakpoint",
        "steps 23",
        "interrupts 1",
        "x6 00000007",
        "x10 80000007",
    ];
    let ended = run_text(rt.alloc(), WHOLE, INTERRUPTED);
    check_lines(&rt, ended.output.as_slice(), &LINES);
}
