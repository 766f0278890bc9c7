use crate::checks::check_run;
use crate::explanations::{EXPLAIN, Explained, check_explained};
use rv_command::Command;

// Each instruction that faults retires in cycle 4 where it has to be executed, and in 2 where it has not; the target of the
// jump that retires in 4 is fetched then.
static CAUSES: [Explained; 8] = [
    Explained {
        program: "jalr x0,2(x0)",
        line: "The first exception came in cycle 4: Instruction address misaligned, mtval 00000002, at 80000000, line 1: jalr x0,2(x0)",
    },
    Explained {
        program: "jalr x0,0(x0)",
        line: "The first exception came in cycle 6: Instruction access fault, mtval 00000000, at 00000000, which no line of the program fills",
    },
    Explained {
        program: ".word 0xffffffff",
        line: "The first exception came in cycle 2: Illegal instruction, mtval ffffffff, at 80000000, line 1: .word 0xffffffff",
    },
    Explained {
        program: "lw x1,1(x0)",
        line: "The first exception came in cycle 4: Load address misaligned, mtval 00000001, at 80000000, line 1: lw x1,1(x0)",
    },
    Explained {
        program: "lw x1,16(x0)",
        line: "The first exception came in cycle 4: Load access fault, mtval 00000010, at 80000000, line 1: lw x1,16(x0)",
    },
    Explained {
        program: "sw x1,1(x0)",
        line: "The first exception came in cycle 4: Store/AMO address misaligned, mtval 00000001, at 80000000, line 1: sw x1,1(x0)",
    },
    Explained {
        program: "sw x1,16(x0)",
        line: "The first exception came in cycle 4: Store/AMO access fault, mtval 00000010, at 80000000, line 1: sw x1,16(x0)",
    },
    Explained {
        program: "ecall",
        line: "The first exception came in cycle 2: Environment call from M-mode, mtval 00000000, at 80000000, line 1: ecall",
    },
];

#[test]
fn each_cause_has_its_name(rt: HostRuntime) {
    check_explained(&rt, rt.alloc(), &CAUSES, 0);
}

const NO_HANDLER: &str =
    "No handler was set (the address in mtvec was 0), and the program went on at 00000000";

#[test]
fn a_mode_without_an_address_is_no_handler(rt: HostRuntime) {
    let alloc = rt.alloc();
    for program in ["ecall", "csrwi mtvec,1\necall"] {
        check_run(&rt, alloc, EXPLAIN, program, 0, &[NO_HANDLER]);
    }
    let handled = "la x5,h\ncsrw mtvec,x5\necall\nh: ebreak";
    let line = "The program went on at its handler, at 80000010";
    check_run(&rt, alloc, EXPLAIN, handled, 0, &[line]);
}

// Two exceptions, with a handler that goes on after each.
const TWO_EXCEPTIONS: &str = "la x31,h
csrw mtvec,x31
lw x1,1(x0)
ecall
ebreak
h: csrr x5,mepc
addi x5,x5,4
csrw mepc,x5
mret
";

#[test]
fn each_of_two_exceptions_is_named(rt: HostRuntime) {
    static LINES: [&str; 6] = [
        "The first exception came in cycle 10: Load address misaligned, mtval 00000001, at 8000000c, line 3: lw x1,1(x0)",
        "The program went on at its handler, at 80000018",
        "The last exception came in cycle 20: Environment call from M-mode, mtval 00000000, at 80000010, line 4: ecall",
        "Exceptions by cause and place:",
        "      1 in cycle 10: Load address misaligned, at 8000000c, line 3: lw x1,1(x0)",
        "      1 in cycle 20: Environment call from M-mode, at 80000010, line 4: ecall",
    ];
    check_run(&rt, rt.alloc(), EXPLAIN, TWO_EXCEPTIONS, 0, &LINES);
}

// Nine calls, each twice, one every ten cycles but where the loop goes back.
const NINE_CALLS: &str = "la x31,h
csrw mtvec,x31
li x6,2
l: ecall
ecall
ecall
ecall
ecall
ecall
ecall
ecall
ecall
addi x6,x6,-1
bnez x6,l
ebreak
h: csrr x5,mepc
addi x5,x5,4
csrw mepc,x5
mret
";

#[test]
fn eight_kinds_of_exceptions_are_set_apart(rt: HostRuntime) {
    let command = Command::Explain {
        figures: true,
        path: false,
        limit: 400,
    };
    let others = "      2 of other causes or at other places";
    check_run(&rt, rt.alloc(), command, NINE_CALLS, 0, &[others]);
}

// Each line rises for one cycle, the timer's twice, while the program goes round at line 6.
const INTERRUPTS: &str = "%%
[[arrival]]
cycle = 30
line = \"software\"
[[arrival]]
cycle = 31
line = \"software\"
level = 0
[[arrival]]
cycle = 50
line = \"timer\"
[[arrival]]
cycle = 51
line = \"timer\"
level = 0
[[arrival]]
cycle = 70
line = \"timer\"
[[arrival]]
cycle = 71
line = \"timer\"
level = 0
[[arrival]]
cycle = 90
line = \"external\"
[[arrival]]
cycle = 91
line = \"external\"
level = 0
%%
la x31,h
csrw mtvec,x31
li x5,0x888
csrw mie,x5
csrsi mstatus,8
l: j l
h: mret
";

#[test]
fn the_interrupts_of_each_line_are_counted(rt: HostRuntime) {
    static LINES: [&str; 4] = [
        "Software interrupts: 1, the first in cycle 30, before 8000001c, line 6: l: j l",
        "Timer interrupts: 2, the first in cycle 50, before 8000001c, line 6: l: j l",
        "The last came in cycle 70, before 8000001c, line 6: l: j l",
        "External interrupts: 1, the first in cycle 90, before 8000001c, line 6: l: j l",
    ];
    check_run(&rt, rt.alloc(), EXPLAIN, INTERRUPTS, 0, &LINES);
}
