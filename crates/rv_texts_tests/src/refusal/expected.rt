use crate::refusal::check_ends;
use std::test::Fail;

const JUMP: &str = "\nexpected: a target from -1048576 to 1048574 bytes away\n";

const IMMEDIATE: &str = "\nexpected: a value from -2048 to 2047\n";

const NUMBER: &str =
    "\nexpected: a value from -2048 to 2047\nhint: li loads each number of 32 bits, and la the address of a label\n";

const UPPER: &str = "\nexpected: a value from 0 to 1048575\n";

// Statements with a value that is out of range, and the range.
static RANGES: [(&str, &str); 16] = [
    (
        "lui x1, 0x100000",
        "\nexpected: a value from 0 to 1048575\nhint: li loads each number of 32 bits, and la the address of a label\n",
    ),
    ("auipc x1, 0x100000", UPPER),
    (".equ far, 0\nj far", JUMP),
    (".equ far, 0\njal far", JUMP),
    (
        ".equ far, 0\nbeq x1, x2, far",
        "\nexpected: a target from -4096 to 4094 bytes away\n",
    ),
    ("jalr x1, 2048(x2)", IMMEDIATE),
    ("jr x2\nlw x1, -2049(x2)", IMMEDIATE),
    ("sw x1, 2048(x2)", IMMEDIATE),
    ("addi x1, x2, 2048", NUMBER),
    ("slli x1, x1, 32", "\nexpected: a value from 0 to 31\n"),
    ("csrrw x0, 4096, x1", "\nexpected: a CSR from 0 to 4095\n"),
    (
        "csrrwi x0, 4096, 1",
        "\nexpected: a CSR from 0 to 4095, and a value from 0 to 31\n",
    ),
    (".byte 256", "\nexpected: values from -128 to 255\n"),
    (".half 65536", "\nexpected: values from -32768 to 65535\n"),
    (
        ".word -2147483649",
        "\nexpected: values from -2147483648 to 4294967295\n",
    ),
    (
        "j here + 1\nhere:",
        "\nexpected: an instruction or _start at a multiple of 4, and a target an even distance away\n",
    ),
];

// Statements with operands that they do not have, and those that they may have.
static SHAPES: [(&str, &str); 24] = [
    (
        "add x1",
        "\nexpected: add rd, rs1, rs2, as in 'add x5, x6, x7'\n",
    ),
    (
        "ble x1, loop",
        "\nexpected: ble rs1, rs2, symbol, as in 'ble x6, x7, loop'\n",
    ),
    (
        "blez x1",
        "\nexpected: blez rs1, symbol, as in 'blez x6, loop'\n",
    ),
    ("neg x1", "\nexpected: neg rd, rs1, as in 'neg x5, x6'\n"),
    ("snez x1", "\nexpected: snez rd, rs1, as in 'snez x5, x6'\n"),
    ("seqz x1", "\nexpected: seqz rd, rs1, as in 'seqz x5, x6'\n"),
    (
        "beqz x1",
        "\nexpected: beqz rs1, symbol, as in 'beqz x6, loop'\n",
    ),
    (
        "beq x1",
        "\nexpected: beq rs1, rs2, symbol, as in 'beq x6, x7, loop'\n",
    ),
    (
        "sw x1",
        "\nexpected: sw rs2, offset(rs1), as in 'sw x7, 8(x6)'\n",
    ),
    (
        "lw x1",
        "\nexpected: lw rd, offset(rs1), as in 'lw x5, 8(x6)'\n",
    ),
    (
        "slli x1",
        "\nexpected: slli rd, rs1, value, as in 'slli x5, x6, 8'\n",
    ),
    (
        "csrr x1",
        "\nexpected: csrr rd, csr, as in 'csrr x5, mscratch'\n",
    ),
    (
        "li x1, no",
        "\nexpected: li rd, number or .equ symbol above, as in 'li x5, 8'\nhint: la loads the address of a label; a line .equ stands above each use of its name\n",
    ),
    (
        "ret x1",
        "\nexpected: ret, as in 'ret'\nhint: it takes no operand, and a line has one statement\n",
    ),
    (
        "jal",
        "\nexpected: jal symbol, as in 'jal loop'\nexpected: jal rd, symbol, as in 'jal x5, loop'\n",
    ),
    (
        "jalr",
        "\nexpected: jalr rs1, as in 'jalr x6'\nexpected: jalr rd, offset(rs1), as in 'jalr x5, 8(x6)'\nexpected: jalr rd, rs1, value, as in 'jalr x5, x6, 8'\n",
    ),
    (
        ".zero",
        "\nexpected: .zero number from 0 to 16777216, as in '.zero 8'\n",
    ),
    (
        ".balign 3",
        "\nexpected: .balign 1 or 2 or 4 or 8 or 16, as in '.balign 8'\n",
    ),
    (
        ".ascii",
        "\nexpected: .ascii \"text\", as in '.ascii \"text\"'\n",
    ),
    (
        ".data 5",
        "\nexpected: .data, as in '.data'\nhint: it takes no operand, and a line has one statement\n",
    ),
    (".globl", "\nexpected: .globl symbol, as in '.globl loop'\n"),
    (
        ".equ a",
        "\nexpected: .equ symbol, number, as in '.equ loop, 8'\n",
    ),
    (
        ".word",
        "\nexpected: .word value, as in '.word 8'\nexpected: .word value, value, as in '.word 8, 8'\n",
    ),
    (
        "a: ecall 5",
        "\nexpected: ecall, as in 'ecall'\nhint: it takes no operand, and a line has one statement\n",
    ),
];

// Other faults, and what is said of each.
static OTHERS: [(&str, &str); 6] = [
    (
        "nop ; nop",
        "\nexpected: names, numbers up to 4294967295, strings that end on their line, and the marks , : ( ) + -\nhint: a comment begins with #, and a line has one statement\n",
    ),
    (
        "5 nop",
        "\nexpected: a statement that begins with an instruction or a directive\n",
    ),
    (
        "mv x1, y1",
        "\nexpected: a register, x0 to x31, or its name in the calling convention\nnearest: x1, t1, s1\n",
    ),
    (
        "a: a: nop",
        "\nexpected: a symbol that is not defined above\n",
    ),
    (
        ".zero 16777201",
        "\nexpected: at most 16777200 bytes of text and data\n",
    ),
    (
        "j nowhere",
        "\nexpected: a symbol that a label or .equ defines\n",
    ),
];

#[test]
fn a_refusal_says_what_was_expected(rt: HostRuntime) -> Result<(), Fail> {
    check_ends(&rt, rt.alloc(), &RANGES)?;
    check_ends(&rt, rt.alloc(), &SHAPES)?;
    check_ends(&rt, rt.alloc(), &OTHERS)
}
