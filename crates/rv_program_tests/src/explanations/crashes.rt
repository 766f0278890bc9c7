use crate::checks::{check_ended, check_run, check_without};
use crate::explanations::EXPLAIN;
use crate::helpers::run_text;
use rv_command::Command;
use std::alloc::Global;
use std::process::Abort;

const BARE: Command = Command::Explain {
    figures: false,
    path: false,
    limit: 100,
};

// That a program is explained by these lines and nothing else.
fn is_explained_by(rt: &impl Abort, alloc: Global, text: &str, lines: &str) {
    let ended = run_text(alloc, BARE, text.as_bytes());
    check_ended(rt, &ended, 0, lines.as_bytes(), b"");
}

#[test]
fn a_crash_stands_alone(rt: HostRuntime) {
    let lines = "\
The first exception came in cycle 4: Environment call from M-mode, mtval 00000000, at 80000004, line 2: ecall
No handler was set (the address in mtvec was 0), and the program went on at 00000000
A program ends at ebreak
";
    is_explained_by(&rt, rt.alloc(), "addi x1,x0,5\necall\n", lines);
}

#[test]
fn a_program_that_ran_past_its_last_line_is_explained_so(rt: HostRuntime) {
    let lines = "\
The program ran past its last line, at 80000000, line 1: addi x1,x0,5
The first exception came in cycle 4: Illegal instruction, mtval 00000000, at 80000004, which no line of the program fills
No handler was set (the address in mtvec was 0), and the program went on at 00000000
A program ends at ebreak
";
    is_explained_by(&rt, rt.alloc(), "addi x1,x0,5\n", lines);
    // Data stand after the code, in the next sixteen bytes.
    is_explained_by(&rt, rt.alloc(), "addi x1,x0,5\n.data\n.word 7\n", lines);
}

// It retires in cycle 4, in which the word at 0 is fetched.
#[test]
fn a_return_where_nobody_had_called_is_explained_so(rt: HostRuntime) {
    let lines = "\
The program went to 00000000, outside RAM, from 80000004, line 2: ret
The first exception came in cycle 6: Instruction access fault, mtval 00000000, at 00000000, which no line of the program fills
No handler was set (the address in mtvec was 0), and the program went on at 00000000
A program ends at ebreak
";
    is_explained_by(&rt, rt.alloc(), "addi x5,x0,5\nret\n", lines);
}

// A jump by another register; and a return to another address, which waits for ra up to cycle 3.
#[test]
fn other_jumps_out_of_ram_do_not_tell_where_a_program_ends(rt: HostRuntime) {
    let jump = "\
The program went to 00000000, outside RAM, from 80000004, line 2: jr x6
The first exception came in cycle 6: Instruction access fault, mtval 00000000, at 00000000, which no line of the program fills
No handler was set (the address in mtvec was 0), and the program went on at 00000000
";
    let elsewhere = "\
The program went to 00000010, outside RAM, from 80000004, line 2: ret
The first exception came in cycle 8: Instruction access fault, mtval 00000010, at 00000010, which no line of the program fills
No handler was set (the address in mtvec was 0), and the program went on at 00000000
";
    is_explained_by(&rt, rt.alloc(), "addi x5,x0,5\njr x6\n", jump);
    is_explained_by(&rt, rt.alloc(), "addi x1,x0,16\nret\n", elsewhere);
}

// There is no stack to push to. The call after it is not reached.
#[test]
fn another_crash_does_not_tell_where_a_program_ends(rt: HostRuntime) {
    let lines = "\
The first exception came in cycle 4: Store/AMO access fault, mtval fffffffc, at 80000000, line 1: sw x1,-4(x2)
No handler was set (the address in mtvec was 0), and the program went on at 00000000
";
    is_explained_by(&rt, rt.alloc(), "sw x1,-4(x2)\necall\n", lines);
}

const END: &str = "A program ends at ebreak";

// The figures of a crash have it too. A call with a handler is none, nor is a run that ended: its call goes on at the first word of the
// program, at address 0, and the second turn comes to the breakpoint.
#[test]
fn where_a_program_ends_is_told_of_a_crash_alone(rt: HostRuntime) {
    let alloc = rt.alloc();
    check_run(&rt, alloc, EXPLAIN, "addi x1,x0,5\necall\n", 0, &[END]);
    let handled = "la x5,h\ncsrw mtvec,x5\necall\nh: j h";
    let ended = "ram_base = 0\n%%\nbnez x5,e\naddi x5,x0,1\necall\ne: ebreak\n";
    check_without(&rt, alloc, EXPLAIN, handled, END);
    check_without(&rt, alloc, EXPLAIN, ended, END);
}

#[test]
fn an_empty_program_is_explained_so(rt: HostRuntime) {
    let lines = "\
The program is empty
The first exception came in cycle 2: Illegal instruction, mtval 00000000, at 80000000, which no line of the program fills
No handler was set (the address in mtvec was 0), and the program went on at 00000000
";
    let elsewhere = "\
The program is empty
The first exception came in cycle 2: Illegal instruction, mtval 00000000, at 00001000, which no line of the program fills
No handler was set (the address in mtvec was 0), and the program went on at 00000000
";
    // Data alone stand where the program begins.
    let data = "\
The first exception came in cycle 2: Illegal instruction, mtval 00000007, at 80000000, line 2: .word 7
No handler was set (the address in mtvec was 0), and the program went on at 00000000
";
    let alloc = rt.alloc();
    is_explained_by(&rt, alloc, "", lines);
    is_explained_by(&rt, alloc, "# nothing\n.equ a, 4\n", lines);
    is_explained_by(&rt, alloc, "ram_base = 0x1000\n%%\n", elsewhere);
    is_explained_by(&rt, alloc, ".data\n.word 7\n", data);
    check_run(&rt, alloc, EXPLAIN, "", 0, &["The program is empty"]);
}

// The timer's line rises while the program goes round.
const UNHANDLED_INTERRUPT: &str = "%%
[[arrival]]
cycle = 30
line = \"timer\"
%%
li x5,0x80
csrw mie,x5
csrsi mstatus,8
l: j l
";

#[test]
fn an_interrupt_that_found_no_handler_is_explained_too(rt: HostRuntime) {
    let lines = "\
The first exception came in cycle 32: Instruction access fault, mtval 00000000, at 00000000, which no line of the program fills
No handler was set (the address in mtvec was 0), and the program went on at 00000000
Timer interrupts: 1, the first in cycle 30, before 8000000c, line 4: l: j l
";
    is_explained_by(&rt, rt.alloc(), UNHANDLED_INTERRUPT, lines);
}

// Each has its ending and its figures: one is asked for them; one has a handler, which goes round; one has none, and no exception.
#[test]
fn other_runs_have_their_figures(rt: HostRuntime) {
    static ASKED: [&str; 3] = [
        "The run was cut off at its limit of cycles, and the program stood at 00000000, which no line of the program fills",
        "The program ran past its last line, at 80000000, line 1: addi x1,x0,5",
        "cycles 100, retired instructions 1",
    ];
    static HANDLED: [&str; 2] = [
        "The program went on at its handler, at 80000010",
        "drains: 0, of them 0 at the cost of a hit, 0 at that of a miss",
    ];
    static GOES_ROUND: [&str; 1] = [
        "drains: 0, of them 0 at the cost of a hit, 0 at that of a miss",
    ];
    let alloc = rt.alloc();
    let handled = "la x5,h\ncsrw mtvec,x5\necall\nh: j h";
    check_run(&rt, alloc, EXPLAIN, "addi x1,x0,5", 0, &ASKED);
    check_run(&rt, alloc, BARE, handled, 0, &HANDLED);
    check_run(&rt, alloc, BARE, "l: j l", 0, &GOES_ROUND);
}
