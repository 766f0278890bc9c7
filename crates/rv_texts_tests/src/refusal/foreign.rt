use crate::refusal::{Refused, check_whole};
use std::test::Fail;

// Jobs as other assemblers, machines and editors have them, and some that are wrong in the same way at first.
static FOREIGN: [Refused; 31] = [
    Refused {
        job: b"[cache]\nsize = 1024\n%%\nebreak\n",
        why: b"\
line 2 of the job, line 2 of its description
    size = 1024
    ^
expected: a key or a table of a description
hint: the cache has cache.sets times cache.ways times cache.line bytes
",
    },
    Refused {
        job: b"cache_size = 1024\n%%\nebreak\n",
        why: b"\
line 1 of the job, line 1 of its description
    cache_size = 1024
    ^
expected: a key or a table of a description
hint: the cache has cache.sets times cache.ways times cache.line bytes
",
    },
    Refused {
        job: b"rob = 8\n%%\nrob = 16\n%%\nrob = 32\n%%\nebreak\n",
        why: b"\
line 3 of the job, line 1 of its arrivals
    rob = 16
    ^
expected: entries [[arrival]], each with cycle, line and level
hint: a description is the first of three parts, with no line %% before it; compare alone reads several
",
    },
    Refused {
        job: b"\xff\xfen\x00o\x00p\x00",
        why: b"\
line 1 of the job, line 1 of its assembly: BadToken
    ??n?o?p?
    ^
expected: names, numbers up to 4294967295, strings that end on their line, and the marks , : ( ) + -
hint: this text is UTF-16: save it as ASCII, or as UTF-8 without a byte order mark
",
    },
    Refused {
        job: b"\xfe\xff\x00n\x00o\x00p",
        why: b"\
line 1 of the job, line 1 of its assembly: BadToken
    ???n?o?p
    ^
expected: names, numbers up to 4294967295, strings that end on their line, and the marks , : ( ) + -
hint: this text is UTF-16: save it as ASCII, or as UTF-8 without a byte order mark
",
    },
    Refused {
        job: b"\xff\xff",
        why: b"\
line 1 of the job, line 1 of its assembly: BadToken
    ??
    ^
expected: names, numbers up to 4294967295, strings that end on their line, and the marks , : ( ) + -
hint: this byte is not ASCII, as a blank, a quote or a minus of a word processor is none
",
    },
    Refused {
        job: b"\xfe\xfe",
        why: b"\
line 1 of the job, line 1 of its assembly: BadToken
    ??
    ^
expected: names, numbers up to 4294967295, strings that end on their line, and the marks , : ( ) + -
hint: this byte is not ASCII, as a blank, a quote or a minus of a word processor is none
",
    },
    Refused {
        job: b"\x80",
        why: b"\
line 1 of the job, line 1 of its assembly: BadToken
    ?
    ^
expected: names, numbers up to 4294967295, strings that end on their line, and the marks , : ( ) + -
hint: this byte is not ASCII, as a blank, a quote or a minus of a word processor is none
",
    },
    Refused {
        job: b"x = y + 1\nebreak\n",
        why: b"\
line 1 of the job, line 1 of its assembly: BadToken
    x = y + 1
      ^
expected: names, numbers up to 4294967295, strings that end on their line, and the marks , : ( ) + -
is a line %% missing?
hint: .equ gives a name its number, as in .equ size, 64
",
    },
    Refused {
        job: b"a0 = a1 + a2\nebreak\n",
        why: b"\
line 1 of the job, line 1 of its assembly: BadToken
    a0 = a1 + a2
       ^
expected: names, numbers up to 4294967295, strings that end on their line, and the marks , : ( ) + -
is a line %% missing?
hint: an instruction stands first, and what it writes next, as in add a0, a1, a2
",
    },
    Refused {
        job: b"ldr a0, =x\nebreak\n",
        why: b"\
line 1 of the job, line 1 of its assembly: BadToken
    ldr a0, =x
            ^
expected: names, numbers up to 4294967295, strings that end on their line, and the marks , : ( ) + -
hint: la loads the address of a symbol, and li a number
",
    },
    Refused {
        job: b"beq a0, 5, f\nf: ebreak\n",
        why: b"\
line 1 of the job, line 1 of its assembly: BadOperands
    beq a0, 5, f
            ^
expected: beq rs1, rs2, symbol, as in 'beq x6, x7, loop'
hint: a register stands here: li t0, 5 loads 5 into t0, and zero is a register that holds 0
",
    },
    Refused {
        job: b"sw -5, 0(a1)\nebreak\n",
        why: b"\
line 1 of the job, line 1 of its assembly: BadOperands
    sw -5, 0(a1)
       ^
expected: sw rs2, offset(rs1), as in 'sw x7, 8(x6)'
hint: a register stands here: li t0, 5 loads 5 into t0, and zero is a register that holds 0
",
    },
    Refused {
        job: b"sw 8(sp), a0\nebreak\n",
        why: b"\
line 1 of the job, line 1 of its assembly: BadOperands
    sw 8(sp), a0
       ^
expected: sw rs2, offset(rs1), as in 'sw x7, 8(x6)'
hint: the register stands before offset(register), as in sw a0, 8(sp)
",
    },
    Refused {
        job: b"jalr a0, a1\nebreak\n",
        why: b"\
line 1 of the job, line 1 of its assembly: BadOperands
    jalr a0, a1
             ^
expected: jalr rs1, as in 'jalr x6'
expected: jalr rd, offset(rs1), as in 'jalr x5, 8(x6)'
expected: jalr rd, rs1, value, as in 'jalr x5, x6, 8'
hint: it jumps to offset(register), as in jalr ra, 0(t0)
",
    },
    Refused {
        job: b"jalr a0, f\nf: ebreak\n",
        why: b"\
line 1 of the job, line 1 of its assembly: BadOperands
    jalr a0, f
             ^
expected: jalr rs1, as in 'jalr x6'
expected: jalr rd, offset(rs1), as in 'jalr x5, 8(x6)'
expected: jalr rd, rs1, value, as in 'jalr x5, x6, 8'
hint: jal and call take a symbol, and jalr a register
",
    },
    Refused {
        job: b"li a0, a1\nebreak\n",
        why: b"\
line 1 of the job, line 1 of its assembly: BadOperands
    li a0, a1
           ^
expected: li rd, number or .equ symbol above, as in 'li x5, 8'
hint: with a register it is mv
",
    },
    Refused {
        job: b"li a0, f\nf: ebreak\n",
        why: b"\
line 1 of the job, line 1 of its assembly: BadOperands
    li a0, f
           ^
expected: li rd, number or .equ symbol above, as in 'li x5, 8'
hint: la loads the address of a label; a line .equ stands above each use of its name
",
    },
    Refused {
        job: b".org 100\nebreak\n",
        why: b"\
line 1 of the job, line 1 of its assembly: UnknownMnemonic
    .org 100
    ^
expected: a statement that begins with an instruction or a directive
hint: no line chooses its address: .zero 8 leaves 8 bytes, .balign 8 goes on at a multiple of 8
",
    },
    Refused {
        job: b".cfi_endproc\nebreak\n",
        why: b"\
line 1 of the job, line 1 of its assembly: UnknownMnemonic
    .cfi_endproc
    ^
expected: a statement that begins with an instruction or a directive
hint: this line may be left out
",
    },
    Refused {
        job: b".ent main\nebreak\n",
        why: b"\
line 1 of the job, line 1 of its assembly: UnknownMnemonic
    .ent main
    ^
expected: a statement that begins with an instruction or a directive
hint: this line may be left out
",
    },
    Refused {
        job: b"fsd fa0, 0(a1)\nebreak\n",
        why: b"\
line 1 of the job, line 1 of its assembly: UnknownMnemonic
    fsd fa0, 0(a1)
    ^
expected: a statement that begins with an instruction or a directive
hint: the machine has no floating point
",
    },
    Refused {
        job: b".float 1\nebreak\n",
        why: b"\
line 1 of the job, line 1 of its assembly: UnknownMnemonic
    .float 1
    ^
expected: a statement that begins with an instruction or a directive
hint: the machine has no floating point
",
    },
    Refused {
        job: b"push ra\nebreak\n",
        why: b"\
line 1 of the job, line 1 of its assembly: UnknownMnemonic
    push ra
    ^
expected: a statement that begins with an instruction or a directive
hint: addi sp, sp, -4 and sw ra, 0(sp) push ra; lw ra, 0(sp) and addi sp, sp, 4 pop it
",
    },
    Refused {
        job: b"pop ra\nebreak\n",
        why: b"\
line 1 of the job, line 1 of its assembly: UnknownMnemonic
    pop ra
    ^
expected: a statement that begins with an instruction or a directive
hint: addi sp, sp, -4 and sw ra, 0(sp) push ra; lw ra, 0(sp) and addi sp, sp, 4 pop it
",
    },
    Refused {
        job: b"cmp a0, a1\nebreak\n",
        why: b"\
line 1 of the job, line 1 of its assembly: UnknownMnemonic
    cmp a0, a1
    ^
expected: a statement that begins with an instruction or a directive
hint: a branch compares two registers itself, as in beq a0, a1, loop
",
    },
    Refused {
        job: b"jle f\nf: ebreak\n",
        why: b"\
line 1 of the job, line 1 of its assembly: UnknownMnemonic
    jle f
    ^
expected: a statement that begins with an instruction or a directive
hint: a branch compares two registers itself, as in beq a0, a1, loop
",
    },
    Refused {
        job: b"min a0, a1, a2\nebreak\n",
        why: b"\
line 1 of the job, line 1 of its assembly: UnknownMnemonic
    min a0, a1, a2
    ^
expected: a statement that begins with an instruction or a directive
hint: the machine has the base instructions, M, Zicsr, Zifencei, and three of Zba
",
    },
    Refused {
        job: b"sc.w a0, a1, (a2)\nebreak\n",
        why: b"\
line 1 of the job, line 1 of its assembly: UnknownMnemonic
    sc.w a0, a1, (a2)
    ^
expected: a statement that begins with an instruction or a directive
hint: the machine has the base instructions, M, Zicsr, Zifencei, and three of Zba
",
    },
    Refused {
        job: b"section .text\nebreak\n",
        why: b"\
line 1 of the job, line 1 of its assembly: UnknownMnemonic
    section .text
    ^
expected: a statement that begins with an instruction or a directive
hint: a line .text or .data begins a section
",
    },
    Refused {
        job: b".rept 3\nebreak\n",
        why: b"\
line 1 of the job, line 1 of its assembly: UnknownMnemonic
    .rept 3
    ^
expected: a statement that begins with an instruction or a directive
hint: there are no macros and no conditions: the lines stand themselves
",
    },
];

#[test]
fn a_refusal_says_what_stands_for_what_others_write(rt: HostRuntime) -> Result<(), Fail> {
    check_whole(&rt, rt.alloc(), &FOREIGN)
}
