use crate::refusal::{check_end, check_ends};
use std::test::Fail;

const COMMENT: &str = "\nhint: a comment begins with #, and a line has one statement\n";

const CHARACTER: &str =
    "\nhint: a character is written as its number, as 65 for A, and a string in double quotes\n";

const TOKENS: &str =
    "\nexpected: names, numbers up to 4294967295, strings that end on their line, and the marks , : ( ) + -\n";

const CONSTANT: &str = "\nhint: .equ gives a name its number, as in .equ size, 64\n";

const STRING: &str = "\nhint: a string ends on its line, and after \\ stands one of n t \\ \" 0\n";

const SUM: &str = "\nhint: a symbol and a number may be added or subtracted, as in table+4\n";

const OFFSET: &str = "\nhint: an address is written as offset(register), as in 8(sp)\n";

const NUMBER: &str =
    "\nhint: a number is decimal, or has 0x or 0b before it, and is at most 4294967295; no name begins with a digit\n";

const LEFT_OUT: &str = "\nhint: this line may be left out\n";

const MACROS: &str = "\nhint: there are no macros and no conditions: the lines stand themselves\n";

const TWO_WORDS: &str = "\nnearest: .word\nhint: two words, the lower one first\n";

const NO_FLOAT: &str = "\nhint: the machine has no floating point\n";

const BRANCHES: &str = "\nhint: a branch compares two registers itself, as in beq a0, a1, loop\n";

const SETS: &str =
    "\nhint: the machine has the base instructions, M, Zicsr, Zifencei, and three of Zba\n";

const NOTHING: &str =
    "\nhint: no operand stands after the last comma; what stands after # is a comment\n";

const ALONE: &str = "\nhint: it takes no operand, and a line has one statement\n";

const REGISTERS: &str = "\nhint: it takes registers alone: li loads a number into one\n";

const COMMA: &str = "\nhint: a comma stands between two operands\n";

const FOREIGN: &str =
    "\nhint: this byte is not ASCII, as a blank, a quote or a minus of a word processor is none\n";

const LOADED: &str =
    "\nhint: a register stands here: li t0, 5 loads 5 into t0, and zero is a register that holds 0\n";

const TURNED: &str = "\nhint: the register stands before offset(register), as in sw a0, 8(sp)\n";

const ADDRESS: &str =
    "\nhint: an address is in a register: la t0, symbol loads it, and 0(t0) is the word there\n";

// Lines with bytes that are no token, and what to write instead.
static BYTES: [(&str, &str); 32] = [
    ("nop // again", COMMENT),
    ("nop ; nop", COMMENT),
    ("li a0, 'A'", CHARACTER),
    (".ascii \"a", STRING),
    ("li a0, 2*3", SUM),
    ("li a0, (1<<3)", SUM),
    ("li a0, 8>>1", SUM),
    ("li a0, 6&3", SUM),
    ("li a0, 6|3", SUM),
    ("li a0, 6^3", SUM),
    ("li a0, ~6", SUM),
    ("li a0, !6", SUM),
    ("%%\na = 5", CONSTANT),
    ("%%\nrob = 5", CONSTANT),
    (".set a = 5", CONSTANT),
    ("lw a0, [sp]", OFFSET),
    ("lw a0, {sp}", OFFSET),
    (
        ".type main, @function",
        "\nhint: a line of .type may be left out, and a comment begins with #\n",
    ),
    ("li a0,\u{a0}5", FOREIGN),
    (
        "\u{feff}li a0, 5",
        "\nhint: these bytes are a byte order mark: save the text as UTF-8 without one\n",
    ),
    ("\u{ff3f}li a0, 5", FOREIGN),
    ("\u{fec0}li a0, 5", FOREIGN),
    ("\u{2eff}li a0, 5", FOREIGN),
    ("li a0, 5\u{7f}", TOKENS),
    ("li a0, 5 % 3", TOKENS),
    ("add %rax, a0, a1", TOKENS),
    (".word {1, 2}", TOKENS),
    (".string 'no'", CHARACTER),
    ("li a0, 0X10", NUMBER),
    ("beq a0, a1, 1b", NUMBER),
    ("2nd: nop", NUMBER),
    ("li a0, 4294967296", NUMBER),
];

// Statements of other assemblers and machines, and what to write instead.
static COUNTERPARTS: [(&str, &str); 101] = [
    ("b f", "\nnearest: j\n"),
    ("jmp f", "\nnearest: j\n"),
    ("br f", "\nnearest: j\n"),
    ("jump f", "\nnearest: j\n"),
    ("cbz a0, f", "\nnearest: beqz\n"),
    ("cbnz a0, f", "\nnearest: bnez\n"),
    ("tail f", "\nnearest: j\n"),
    ("goto f", "\nnearest: j\n"),
    ("subi a0, a0, 1", "\nnearest: addi\n"),
    ("inc a0", "\nnearest: addi\n"),
    ("dec a0", "\nnearest: addi\n"),
    ("mov a0, a1", "\nnearest: mv\n"),
    ("move a0, a1", "\nnearest: mv\n"),
    ("lla a0, s", "\nnearest: la\n"),
    ("movi a0, 5", "\nnearest: li\n"),
    ("ldi a0, 5", "\nnearest: li\n"),
    ("load a0, s", "\nnearest: lw\n"),
    ("store a0, s", "\nnearest: sw\n"),
    ("shl a0, 1", "\nnearest: sll\n"),
    ("lsl a0, a0, 1", "\nnearest: sll\n"),
    ("sal a0, 1", "\nnearest: sll\n"),
    ("shr a0, 1", "\nnearest: srl\n"),
    ("lsr a0, a0, 1", "\nnearest: srl\n"),
    ("sar a0, 1", "\nnearest: sra\n"),
    ("asr a0, a0, 1", "\nnearest: sra\n"),
    ("mod a0, a1, a2", "\nnearest: rem\n"),
    ("ld a0, 0(sp)", "\nnearest: lw\n"),
    ("lwu a0, 0(sp)", "\nnearest: lw\n"),
    ("ldr a0, 0(sp)", "\nnearest: lw\n"),
    ("sd a0, 0(sp)", "\nnearest: sw\n"),
    ("str a0, 0(sp)", "\nnearest: sw\n"),
    ("scall", "\nnearest: ecall\n"),
    ("syscall", "\nnearest: ecall\n"),
    ("svc 0", "\nnearest: ecall\n"),
    ("swi 0", "\nnearest: ecall\n"),
    ("int 0x80", "\nnearest: ecall\n"),
    ("halt", "\nnearest: ebreak\n"),
    ("hlt", "\nnearest: ebreak\n"),
    ("exit", "\nnearest: ebreak\n"),
    ("sbreak", "\nnearest: ebreak\n"),
    ("bl f", "\nnearest: call\n"),
    ("bx ra", "\nnearest: jr\n"),
    ("return", "\nnearest: ret\n"),
    ("fence.tso", "\nnearest: fence\n"),
    ("mflo a0", "\nnearest: mul\n"),
    ("mfhi a0", "\nnearest: mulh\n"),
    ("sret", "\nnearest: mret\n"),
    ("uret", "\nnearest: mret\n"),
    ("eret", "\nnearest: mret\n"),
    ("iret", "\nnearest: mret\n"),
    ("noop", "\nnearest: nop\n"),
    ("break", "\nnearest: ebreak\n"),
    (".int 5", "\nnearest: .word\n"),
    ("x: dd 5", "\nnearest: .word\n"),
    (".hword 5", "\nnearest: .half\n"),
    ("x: dw 5", "\nnearest: .half\n"),
    ("x: db 5", "\nnearest: .byte\n"),
    (".section .rodata", "\nnearest: .text, .data\n"),
    (".rodata", "\nnearest: .data\n"),
    (".rdata", "\nnearest: .data\n"),
    (".bss", "\nnearest: .data\n"),
    (".sdata", "\nnearest: .data\n"),
    (".sbss", "\nnearest: .data\n"),
    (".define N 5", "\nnearest: .equ\n"),
    (".comm x, 4", "\nnearest: .zero\n"),
    (".lcomm x, 4", "\nnearest: .zero\n"),
    (".quad 5", TWO_WORDS),
    (".dword 5", TWO_WORDS),
    (".8byte 5", TWO_WORDS),
    (".macro m", MACROS),
    (".rept 3", MACROS),
    (".if 1", MACROS),
    (".include \"a\"", MACROS),
    (".endm", MACROS),
    (".endr", MACROS),
    (".else", MACROS),
    (".endif", MACROS),
    (".double 1", NO_FLOAT),
    ("flw fa0, 0(a1)", NO_FLOAT),
    ("fsw fa0, 0(a1)", NO_FLOAT),
    ("fld fa0, 0(a1)", NO_FLOAT),
    ("tst a0, a1", BRANCHES),
    ("tbz a0, 3, f", BRANCHES),
    ("tbnz a0, 3, f", BRANCHES),
    ("je f", BRANCHES),
    ("jz f", BRANCHES),
    ("jne f", BRANCHES),
    ("jnz f", BRANCHES),
    ("jg f", BRANCHES),
    ("jge f", BRANCHES),
    ("jl f", BRANCHES),
    ("minu a0, a1, a2", SETS),
    ("max a0, a1, a2", SETS),
    ("maxu a0, a1, a2", SETS),
    ("abs a0, a1", SETS),
    ("rol a0, a1, a2", SETS),
    ("ror a0, a1, a2", SETS),
    ("clz a0, a1", SETS),
    ("ctz a0, a1", SETS),
    ("cpop a0, a1", SETS),
    ("lr.w a0, (a1)", SETS),
];

// Directives that say nothing to this machine.
static IDLE: [&str; 11] = [
    ".option norvc",
    ".size f, 4",
    ".file \"a.c\"",
    ".ident \"a\"",
    ".attribute 4, 16",
    ".end",
    ".weak f",
    ".local f",
    ".loc 1 1",
    ".extern f",
    ".cfi_startproc",
];

// Names that read as labels, and others that do not.
static LABELS: [(&str, &str); 8] = [
    (
        "frob",
        "\nhint: a label has a colon after it, as in frob:\n",
    ),
    (
        "frob addi a0, a0, 1",
        "\nhint: a label has a colon after it, as in frob:\n",
    ),
    (
        "frob x1",
        "\nexpected: a statement that begins with an instruction or a directive\n",
    ),
    (
        ".frob",
        "\nexpected: a statement that begins with an instruction or a directive\n",
    ),
    ("EBREAK", "\nnames are written in small letters: ebreak\n"),
    ("1: nop", "\nhint: a label is a name, as in again:\n"),
    (
        "my-loop: nop",
        "\nhint: a name has letters, digits, _ . and $\n",
    ),
    (
        "1, nop",
        "\nexpected: a statement that begins with an instruction or a directive\n",
    ),
];

// Statements with other operands, and what to write instead.
static OPERANDS: [(&str, &str); 84] = [
    (
        "addi a0, a1, a2",
        "\nhint: a2 is a register, and a symbol or a number stands here\n",
    ),
    (
        "j t0",
        "\nhint: t0 is a register, and a symbol or a number stands here\n",
    ),
    ("add a0 a1 a2", COMMA),
    ("li a0 5", COMMA),
    (".word 1 2 3", COMMA),
    ("li a0, 5 a1", COMMA),
    ("lw a0 4(a1)", COMMA),
    (
        "csrw mtvec t0",
        "\nexpected: csrw csr, rs1, as in 'csrw mscratch, x6'\nhint: a comma stands between two operands\n",
    ),
    ("lw a0, 4 a1)", OFFSET),
    ("lh a0, -4 a1", OFFSET),
    ("jalr ra, 4 a1)", OFFSET),
    ("sw a0, 4(a1", OFFSET),
    ("lw a0, 4, sp", OFFSET),
    ("sw a0, -4, sp", OFFSET),
    ("jalr ra, 0, t0", OFFSET),
    ("lw a0, (a1", OFFSET),
    ("add a0, a1,", NOTHING),
    ("addi a0, a0, #1", NOTHING),
    (".word 1, 2,", NOTHING),
    ("add a0, a1, -5", "\nhint: with a number it is addi\n"),
    ("and a0, a1, 5", "\nhint: with a number it is andi\n"),
    ("or a0, a1, 5", "\nhint: with a number it is ori\n"),
    ("xor a0, a1, 5", "\nhint: with a number it is xori\n"),
    ("slt a0, a1, 5", "\nhint: with a number it is slti\n"),
    ("sll a0, a1, 5", "\nhint: with a number it is slli\n"),
    ("srl a0, a1, 5", "\nhint: with a number it is srli\n"),
    ("sra a0, a1, 5", "\nhint: with a number it is srai\n"),
    (
        "sub a0, a1, 5",
        "\nhint: with a number it is addi, and the number has the other sign\n",
    ),
    ("mv a0, 5", "\nhint: with a number it is li\n"),
    ("mv 5, a0", "\nexpected: mv rd, rs1, as in 'mv x5, x6'\n"),
    ("la a0, -5", "\nhint: with a number it is li\n"),
    (
        "la a0, 4(sp)",
        "\nexpected: la rd, symbol, as in 'la x5, loop'\n",
    ),
    ("csrw mscratch, 5", "\nhint: with a number it is csrwi\n"),
    ("csrrc a0, mie, 5", "\nhint: with a number it is csrrci\n"),
    ("csrs mie, 5", "\nhint: with a number it is csrsi\n"),
    ("csrc mie, 5", "\nhint: with a number it is csrci\n"),
    ("csrrw a0, mie, 5", "\nhint: with a number it is csrrwi\n"),
    ("csrrs a0, mie, 5", "\nhint: with a number it is csrrsi\n"),
    (
        "beq a0, a1, 8",
        "\nexpected: beq rs1, rs2, symbol, as in 'beq x6, x7, loop'\n",
    ),
    (
        "sw a0, 5",
        "\nexpected: sw rs2, offset(rs1), as in 'sw x7, 8(x6)'\n",
    ),
    ("bleu a0, -5, f", LOADED),
    ("bne -5, a1, f", LOADED),
    ("blt -5, a1, f", LOADED),
    ("bge -5, a1, f", LOADED),
    ("bltu -5, a1, f", LOADED),
    ("bgeu -5, a1, f", LOADED),
    ("bgt -5, a1, f", LOADED),
    ("ble -5, a1, f", LOADED),
    ("bgtu -5, a1, f", LOADED),
    ("sh 5, 0(a1)", LOADED),
    ("sb 5, 0(a1)", LOADED),
    ("lw (sp), a0", TURNED),
    (
        "jalr done",
        "\nhint: jr and jalr take a register, and j, jal and call a symbol\n",
    ),
    (
        "jr done",
        "\nhint: jr and jalr take a register, and j, jal and call a symbol\n",
    ),
    (
        "jalr done, 0(t0)",
        "\nexpected: a register, x0 to x31, or its name in the calling convention\n",
    ),
    (
        "li a0, $10",
        "\nexpected: li rd, number or .equ symbol above, as in 'li x5, 8'\n",
    ),
    (".text addi a0, a0, 1", ALONE),
    ("nop nop", ALONE),
    ("ebreak 1", ALONE),
    ("mret x", ALONE),
    ("wfi wfi", ALONE),
    ("fence.i rw", ALONE),
    ("fence rw", ALONE),
    ("mul a0, a1, 3", REGISTERS),
    ("mulh a0, a1, 3", REGISTERS),
    ("mulhsu a0, a1, 3", REGISTERS),
    ("mulhu a0, a1, 3", REGISTERS),
    ("div a0, a1, 3", REGISTERS),
    ("divu a0, a1, 3", REGISTERS),
    ("rem a0, a1, 3", REGISTERS),
    ("remu a0, a1, -3", REGISTERS),
    (
        "sltu a0, a1, 5",
        "\nexpected: sltu rd, rs1, rs2, as in 'sltu x5, x6, x7'\n",
    ),
    ("lb a0, s", ADDRESS),
    ("lh a0, s", ADDRESS),
    ("lw a0, s", ADDRESS),
    ("lbu a0, s", ADDRESS),
    ("lhu a0, s", ADDRESS),
    ("sb a0, s, t0", ADDRESS),
    ("sh a0, s, t0", ADDRESS),
    ("sw a0, s, t0", ADDRESS),
    ("sw a0, a1", OFFSET),
    (
        "lw a0, 5",
        "\nexpected: lw rd, offset(rs1), as in 'lw x5, 8(x6)'\n",
    ),
    (
        "la a0, (s)",
        "\nexpected: la rd, symbol, as in 'la x5, loop'\n",
    ),
    (
        "auipc a0, 0x100000",
        "\nexpected: a value from 0 to 1048575\n",
    ),
];

#[test]
fn a_refusal_says_what_to_write_instead(rt: HostRuntime) -> Result<(), Fail> {
    check_ends(&rt, rt.alloc(), &BYTES)?;
    check_ends(&rt, rt.alloc(), &COUNTERPARTS)?;
    check_ends(&rt, rt.alloc(), &LABELS)?;
    check_ends(&rt, rt.alloc(), &OPERANDS)?;
    for job in &IDLE {
        check_end(&rt, rt.alloc(), job, LEFT_OUT)?;
    }
    Ok(())
}
