use crate::refusal::{Refused, check_ends, check_whole};
use std::test::Fail;

const COUNTERS: &str =
    "\nhint: the machine has no counters: the lines cycles and retired of the report say what a run took\n";

const STACK: &str =
    "\nhint: addi sp, sp, -4 and sw ra, 0(sp) push ra; lw ra, 0(sp) and addi sp, sp, 4 pop it\n";

const RAM: &str =
    "\nhint: ram_base says where RAM begins, and ram_size its bytes, both above the first [table]\n";

// Jobs by habits from other machines: mnemonics in capital letters, counters, a stack of registers in braces, and RAM
// under another name.
static HABITS: [Refused; 9] = [
    Refused {
        job: b"CMP R0, R1\nebreak\n",
        why: b"\
line 1 of the job, line 1 of its assembly: UnknownMnemonic
    CMP R0, R1
    ^
expected: a statement that begins with an instruction or a directive
hint: a branch compares two registers itself, as in beq a0, a1, loop
",
    },
    Refused {
        job: b"MOV a0, a1\nebreak\n",
        why: b"\
line 1 of the job, line 1 of its assembly: UnknownMnemonic
    MOV a0, a1
    ^
expected: a statement that begins with an instruction or a directive
nearest: mv
",
    },
    Refused {
        job: b"HALT\n",
        why: b"\
line 1 of the job, line 1 of its assembly: UnknownMnemonic
    HALT
    ^
expected: a statement that begins with an instruction or a directive
nearest: ebreak
",
    },
    Refused {
        job: b".ALIGN 2\nebreak\n",
        why: b"\
line 1 of the job, line 1 of its assembly: UnknownMnemonic
    .ALIGN 2
    ^
expected: a statement that begins with an instruction or a directive
nearest: .balign, in bytes: .balign 4 for .align 2, .balign 8 for .align 3
",
    },
    Refused {
        job: b"csrr a0, time\nebreak\n",
        why: b"\
line 1 of the job, line 1 of its assembly: BadOperands
    csrr a0, time
             ^
expected: csrr rd, csr, as in 'csrr x5, mscratch'
hint: the machine has no counters: the lines cycles and retired of the report say what a run took
",
    },
    Refused {
        job: b"rdcycle a0\nebreak\n",
        why: b"\
line 1 of the job, line 1 of its assembly: UnknownMnemonic
    rdcycle a0
    ^
expected: a statement that begins with an instruction or a directive
hint: the machine has no counters: the lines cycles and retired of the report say what a run took
",
    },
    Refused {
        job: b"push {ra}\nebreak\n",
        why: b"\
line 1 of the job, line 1 of its assembly: BadToken
    push {ra}
         ^
expected: names, numbers up to 4294967295, strings that end on their line, and the marks , : ( ) + -
hint: addi sp, sp, -4 and sw ra, 0(sp) push ra; lw ra, 0(sp) and addi sp, sp, 4 pop it
",
    },
    Refused {
        job: b"ram = 65536\n%%\nebreak\n",
        why: b"\
line 1 of the job, line 1 of its description
    ram = 65536
    ^
expected: a key or a table of a description
hint: ram_base says where RAM begins, and ram_size its bytes, both above the first [table]
",
    },
    Refused {
        job: b"[memory]\nsize = 65536\n%%\nebreak\n",
        why: b"\
line 1 of the job, line 1 of its description
    [memory]
     ^
expected: a key or a table of a description
hint: ram_base says where RAM begins, and ram_size its bytes, both above the first [table]
",
    },
];

// Each of the names that have one hint, and names beside them.
static ROWS: [(&str, &str); 36] = [
    ("csrr a0, cycle", COUNTERS),
    ("csrr a0, cycleh", COUNTERS),
    ("csrr a0, timeh", COUNTERS),
    ("csrr a0, instret", COUNTERS),
    ("csrr a0, instreth", COUNTERS),
    ("csrw mcycle, a0", COUNTERS),
    ("csrrs a0, mcycleh, a1", COUNTERS),
    ("csrci minstret, 1", COUNTERS),
    ("csrrwi a0, minstreth, 1", COUNTERS),
    ("csrr a0, mtime", COUNTERS),
    ("csrr a0, mtimeh", COUNTERS),
    ("rdcycleh a0", COUNTERS),
    ("rdtime a0", COUNTERS),
    ("rdtimeh a0", COUNTERS),
    ("rdinstret a0", COUNTERS),
    ("rdinstreth a0", COUNTERS),
    ("RDCYCLE a0", COUNTERS),
    (
        "csrr a0, sstatus",
        "\nexpected: csrr rd, csr, as in 'csrr x5, mscratch'\nnearest: mstatus\n",
    ),
    (
        ".zero time",
        "\nexpected: .zero number from 0 to 16777216, as in '.zero 8'\n",
    ),
    ("pop {ra}", STACK),
    ("PUSH {R4, LR}", STACK),
    ("POP {R4, PC}", STACK),
    ("PUSH ra", STACK),
    (
        "lw a0, {sp}",
        "\nhint: an address is written as offset(register), as in 8(sp)\n",
    ),
    (".SECTION .text", "\nnearest: .text, .data\n"),
    (".OPTION norvc", "\nhint: this line may be left out\n"),
    (".Word 5", "\nnames are written in small letters: .word\n"),
    ("memory = 1\n%%\nebreak\n", RAM),
    ("memory_size = 1\n%%\nebreak\n", RAM),
    ("mem_size = 1\n%%\nebreak\n", RAM),
    ("[mem]\nsize = 1\n%%\nebreak\n", RAM),
    ("[ram]\nbase = 1\n%%\nebreak\n", RAM),
    ("ram.size = 1\n%%\nebreak\n", RAM),
    ("ram.base = 1\n%%\nebreak\n", RAM),
    ("memory.size = 1\n%%\nebreak\n", RAM),
    ("memory.base = 1\n%%\nebreak\n", RAM),
];

#[test]
fn a_refusal_knows_habits_from_other_machines(rt: HostRuntime) -> Result<(), Fail> {
    check_whole(&rt, rt.alloc(), &HABITS)?;
    check_ends(&rt, rt.alloc(), &ROWS)
}
