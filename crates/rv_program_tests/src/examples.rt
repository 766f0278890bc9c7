use crate::checks::check_run;
use crate::helpers::{CORE, WHOLE};
use std::alloc::Global;
use std::process::Abort;

// The texts are those of the files in `examples/`, which a test cannot read.

const ADDITION: &str =
    "# One addition on a machine that does one thing a cycle. `./rv_sim run --trace < examples/addition.job` begins with
#     R 80000000 00500093 F0 D1 I2 B3 C4 x1=00000005
# for it: fetched in cycle 0, dispatched in 1, issued in 2, its result broadcast in 3, and committed in 4.
# A test runs this text too: crates/rv_program_tests/src/examples.rt.
fetch_width = 1
dispatch_width = 1
commit_width = 1
bus_width = 1
alu.units = 1
%%
        addi x1, x0, 5
        ebreak
";

const DIVISOR: &str =
    "# The greatest common divisor of 252 and 105 by subtraction. At the end a0, which is x10, is 21 (00000015).
# A test runs this text too: crates/rv_program_tests/src/examples.rt.
        li a0, 252
        li a1, 105
again:  beq a0, a1, done
        bltu a0, a1, less
        sub a0, a0, a1
        j again
less:   sub a1, a1, a0
        j again
done:   ebreak
";

const FACTORIAL: &str =
    "# 5 factorial, each product by repeated addition. At the end a0, which is x10, is 120 (00000078).
# A test runs this text too: crates/rv_program_tests/src/examples.rt.
        li a0, 1                # the product so far
        li t0, 5                # the next factor
factor: mv t1, t0               # how often a0 is still to be added
        li t2, 0                # the sum
again:  add t2, t2, a0
        addi t1, t1, -1
        bnez t1, again
        mv a0, t2
        addi t0, t0, -1
        bnez t0, factor
        ebreak
";

const FIBONACCI: &str =
    "# The tenth Fibonacci number, where the first two are 1. At the end a0, which is x10, is 55 (00000037).
# A test runs this text too: crates/rv_program_tests/src/examples.rt.
        li a0, 0                # one number, the zeroth
        li a1, 1                # the number after it
        li t0, 10               # how many steps are left
next:   add t1, a0, a1
        mv a0, a1
        mv a1, t1
        addi t0, t0, -1
        bnez t0, next
        ebreak
";

const LARGEST: &str =
    "# The largest of five signed words. At the end a1, which is x11, is 42 (0000002a).
# A test runs this text too: crates/rv_program_tests/src/examples.rt.
        la a0, numbers
        li t0, 4                # how many are left after the first
        lw a1, 0(a0)            # the largest so far
next:   addi a0, a0, 4
        lw t1, 0(a0)
        bge a1, t1, keep
        mv a1, t1
keep:   addi t0, t0, -1
        bnez t0, next
        ebreak

        .data
numbers:
        .word 3, -7, 42, 8, 19
";

const SUM: &str = "# The sum of 1 to 10. At the end x5 is 55 (00000037).
# A test runs this text too: crates/rv_program_tests/src/examples.rt.
        addi x6, x0, 10         # the next number to add
next:   add x5, x5, x6
        addi x6, x6, -1
        bne x6, x0, next
        ebreak
";

const SQUARES: &str =
    "# The squares of 1 to 4 on a small machine with RAM from 0 on, whose description asks for the four words at the end:
# m 00000100 00000001, m 00000104 00000004, m 00000108 00000009 and m 0000010c 00000010.
# A test runs this text too: crates/rv_program_tests/src/examples.rt.
ram_base = 0
ram_size = 4096
rob = 4
recovery = \"early\"

[cache]
sets = 1
ways = 1
line = 4

[report]
dump_address = 0x100
dump_words = 4
%%
        li t0, 1                # the number
        li t1, 0x100            # where its square goes
        li t2, 5                # the number after the last
next:   mul t3, t0, t0
        sw t3, 0(t1)
        addi t1, t1, 4
        addi t0, t0, 1
        bne t0, t2, next
        ebreak
";

const TIMER: &str =
    "# An interrupt of the timer, at step 50, ends a wait. At the end s0, which is x8, is its cause (80000007).
# A test runs this text too: crates/rv_program_tests/src/examples.rt.
%%
[[arrival]]
cycle = 50
line = \"timer\"
%%
        la t0, handler
        csrw mtvec, t0
        li t0, 0x80             # the timer's bit of mie
        csrw mie, t0
        csrsi mstatus, 8        # from here on interrupts are taken
wait:   beqz s0, wait
        ebreak

handler:
        csrr s0, mcause
        csrw mie, x0            # the line stays high: no second interrupt
        mret
";

// Checks that a run by each of the two machines ends at a breakpoint with a line.
fn check_example(rt: &impl Abort, alloc: Global, text: &str, line: &str) {
    for command in [WHOLE, CORE] {
        check_run(rt, alloc, command, text, 0, &["stop breakpoint", line]);
    }
}

#[test]
fn the_examples_end_with_what_their_comments_say(rt: HostRuntime) {
    static CASES: [(&str, &str); 8] = [
        (ADDITION, "x1 00000005"),
        (DIVISOR, "x10 00000015"),
        (FACTORIAL, "x10 00000078"),
        (FIBONACCI, "x10 00000037"),
        (LARGEST, "x11 0000002a"),
        (SQUARES, "m 0000010c 00000010"),
        (SUM, "x5 00000037"),
        (TIMER, "x8 80000007"),
    ];
    for (text, line) in &CASES {
        check_example(&rt, rt.alloc(), text, line);
    }
}
