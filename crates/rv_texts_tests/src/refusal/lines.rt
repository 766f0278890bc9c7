use crate::refusal::{Refused, check_whole};
use std::test::Fail;

// Assembly texts that are refused, with the line that is shown of each.
static REFUSED: [Refused; 33] = [
    Refused {
        job: b"rob = 8\n%%\nnop\n\tslli x1, x1, 32 # \xc3\xa4\n",
        why: b"\
line 4 of the job, line 2 of its assembly: OutOfRange
     slli x1, x1, 32 # ??
                  ^
expected: a value from 0 to 31
",
    },
    Refused {
        job: b"again: addq x1, x2, x3",
        why: b"\
line 1 of the job, line 1 of its assembly: UnknownMnemonic
    again: addq x1, x2, x3
           ^
expected: a statement that begins with an instruction or a directive
nearest: addi, add
",
    },
    Refused {
        job: b"%%\n.wrod 5\n",
        why: b"\
line 2 of the job, line 1 of its assembly: UnknownMnemonic
    .wrod 5
    ^
expected: a statement that begins with an instruction or a directive
nearest: .word
",
    },
    Refused {
        job: b".align 2\n",
        why: b"\
line 1 of the job, line 1 of its assembly: UnknownMnemonic
    .align 2
    ^
expected: a statement that begins with an instruction or a directive
nearest: .balign, in bytes: .balign 4 for .align 2, .balign 8 for .align 3
",
    },
    Refused {
        job: b".p2align 2\n",
        why: b"\
line 1 of the job, line 1 of its assembly: UnknownMnemonic
    .p2align 2
    ^
expected: a statement that begins with an instruction or a directive
nearest: .balign, in bytes: .balign 4 for .align 2, .balign 8 for .align 3
",
    },
    Refused {
        job: b".org 5\n",
        why: b"\
line 1 of the job, line 1 of its assembly: UnknownMnemonic
    .org 5
    ^
expected: a statement that begins with an instruction or a directive
hint: no line chooses its address: .zero 8 leaves 8 bytes, .balign 8 goes on at a multiple of 8
",
    },
    Refused {
        job: b".set a, 5\n",
        why: b"\
line 1 of the job, line 1 of its assembly: UnknownMnemonic
    .set a, 5
    ^
expected: a statement that begins with an instruction or a directive
nearest: .equ
",
    },
    Refused {
        job: b".eqv a, 5\n",
        why: b"\
line 1 of the job, line 1 of its assembly: UnknownMnemonic
    .eqv a, 5
    ^
expected: a statement that begins with an instruction or a directive
nearest: .equ
",
    },
    Refused {
        job: b".long 5\n",
        why: b"\
line 1 of the job, line 1 of its assembly: UnknownMnemonic
    .long 5
    ^
expected: a statement that begins with an instruction or a directive
nearest: .word
",
    },
    Refused {
        job: b".4byte 5\n",
        why: b"\
line 1 of the job, line 1 of its assembly: UnknownMnemonic
    .4byte 5
    ^
expected: a statement that begins with an instruction or a directive
nearest: .word
",
    },
    Refused {
        job: b".short 5\n",
        why: b"\
line 1 of the job, line 1 of its assembly: UnknownMnemonic
    .short 5
    ^
expected: a statement that begins with an instruction or a directive
nearest: .half
",
    },
    Refused {
        job: b".2byte 5\n",
        why: b"\
line 1 of the job, line 1 of its assembly: UnknownMnemonic
    .2byte 5
    ^
expected: a statement that begins with an instruction or a directive
nearest: .half
",
    },
    Refused {
        job: b".fill 5\n",
        why: b"\
line 1 of the job, line 1 of its assembly: UnknownMnemonic
    .fill 5
    ^
expected: a statement that begins with an instruction or a directive
nearest: .zero
",
    },
    Refused {
        job: b".rep 5\n",
        why: b"\
line 1 of the job, line 1 of its assembly: UnknownMnemonic
    .rep 5
    ^
expected: a statement that begins with an instruction or a directive
",
    },
    Refused {
        job: b".add x1, x2, x3\n",
        why: b"\
line 1 of the job, line 1 of its assembly: UnknownMnemonic
    .add x1, x2, x3
    ^
expected: a statement that begins with an instruction or a directive
",
    },
    Refused {
        job: b".word x5, x5\n",
        why: b"\
line 1 of the job, line 1 of its assembly: UnknownSymbol
    .word x5, x5
          ^
expected: a symbol that a label or .equ defines
hint: x5 is a register, and a symbol or a number stands here
",
    },
    Refused {
        job: b"loop: .word loop, lop + 4, lop\n.equ size, 4\n.half size\n",
        why: b"\
line 1 of the job, line 1 of its assembly: UnknownSymbol
    loop: .word loop, lop + 4, lop
                      ^
expected: a symbol that a label or .equ defines
nearest: loop
",
    },
    Refused {
        job: b"a: .byte b, 1, c\n.equ b, 2",
        why: b"\
line 1 of the job, line 1 of its assembly: UnknownSymbol
    a: .byte b, 1, c
                   ^
expected: a symbol that a label or .equ defines
",
    },
    Refused {
        job: b"li x1, 5 # five\n  .ascii \"a\\q\"",
        why: b"\
line 2 of the job, line 2 of its assembly: BadToken
      .ascii \"a\\q\"
             ^
expected: names, numbers up to 4294967295, strings that end on their line, and the marks , : ( ) + -
hint: a string ends on its line, and after \\ stands one of n t \\ \" 0
",
    },
    Refused {
        job: b"rob = 8\nebreak\n",
        why: b"\
line 1 of the job, line 1 of its assembly: BadToken
    rob = 8
        ^
expected: names, numbers up to 4294967295, strings that end on their line, and the marks , : ( ) + -
is a line %% missing?
",
    },
    Refused {
        job: b"%%\nrob = 8\n",
        why: b"\
line 2 of the job, line 1 of its assembly: BadToken
    rob = 8
        ^
expected: names, numbers up to 4294967295, strings that end on their line, and the marks , : ( ) + -
hint: .equ gives a name its number, as in .equ size, 64
",
    },
    Refused {
        job: b"add x1, x2, 5",
        why: b"\
line 1 of the job, line 1 of its assembly: BadOperands
    add x1, x2, 5
                ^
expected: add rd, rs1, rs2, as in 'add x5, x6, x7'
hint: with a number it is addi
",
    },
    Refused {
        job: b"add x1, x2, x3, x4",
        why: b"\
line 1 of the job, line 1 of its assembly: BadOperands
    add x1, x2, x3, x4
                    ^
expected: add rd, rs1, rs2, as in 'add x5, x6, x7'
",
    },
    Refused {
        job: b"a: add x1, x2",
        why: b"\
line 1 of the job, line 1 of its assembly: BadOperands
    a: add x1, x2
       ^
expected: add rd, rs1, rs2, as in 'add x5, x6, x7'
",
    },
    Refused {
        job: b"lw a0, 8(a9)",
        why: b"\
line 1 of the job, line 1 of its assembly: BadRegister
    lw a0, 8(a9)
             ^
expected: a register, x0 to x31, or its name in the calling convention
nearest: x9, a0, a1
",
    },
    Refused {
        job: b"csrr x1, mstatsu",
        why: b"\
line 1 of the job, line 1 of its assembly: BadOperands
    csrr x1, mstatsu
             ^
expected: csrr rd, csr, as in 'csrr x5, mscratch'
nearest: mstatus, mstatush
",
    },
    Refused {
        job: b"loop: nop\n.equ lop, 1\nj loup\n",
        why: b"\
line 3 of the job, line 3 of its assembly: UnknownSymbol
    j loup
      ^
expected: a symbol that a label or .equ defines
nearest: loop, lop
",
    },
    Refused {
        job: b"a: nop\nb: .equ a, 1\n",
        why: b"\
line 2 of the job, line 2 of its assembly: DuplicateSymbol
    b: .equ a, 1
expected: a symbol that is not defined above
",
    },
    Refused {
        job: b"nop: nop\na: nop: nop",
        why: b"\
line 2 of the job, line 2 of its assembly: DuplicateSymbol
    a: nop: nop
expected: a symbol that is not defined above
",
    },
    Refused {
        job: b"a: nop\n.equ a, 1\n",
        why: b"\
line 2 of the job, line 2 of its assembly: DuplicateSymbol
    .equ a, 1
         ^
expected: a symbol that is not defined above
",
    },
    Refused {
        job: b".byte 1, 256, 2",
        why: b"\
line 1 of the job, line 1 of its assembly: OutOfRange
    .byte 1, 256, 2
             ^
expected: values from -128 to 255
",
    },
    Refused {
        job: b"rob = 8\n%%\nnop\nfrob x1\nnop\nadd x1\nl: mv x1, y\n5k\n",
        why: b"\
line 4 of the job, line 2 of its assembly: UnknownMnemonic
    frob x1
    ^
expected: a statement that begins with an instruction or a directive
line 6 of the job, line 4 of its assembly: BadOperands
line 7 of the job, line 5 of its assembly: BadRegister
line 8 of the job, line 6 of its assembly: BadToken
",
    },
    Refused {
        job: b"x\nx\nx\nx\nx\nx\nx\nx\nx\nx\nx\nx\nx\nx\nx\nx\nx\nx\nx\nx\nx\nx\n",
        why: b"\
line 1 of the job, line 1 of its assembly: UnknownMnemonic
    x
    ^
expected: a statement that begins with an instruction or a directive
hint: a label has a colon after it, as in x:
line 2 of the job, line 2 of its assembly: UnknownMnemonic
line 3 of the job, line 3 of its assembly: UnknownMnemonic
line 4 of the job, line 4 of its assembly: UnknownMnemonic
line 5 of the job, line 5 of its assembly: UnknownMnemonic
line 6 of the job, line 6 of its assembly: UnknownMnemonic
line 7 of the job, line 7 of its assembly: UnknownMnemonic
line 8 of the job, line 8 of its assembly: UnknownMnemonic
line 9 of the job, line 9 of its assembly: UnknownMnemonic
line 10 of the job, line 10 of its assembly: UnknownMnemonic
line 11 of the job, line 11 of its assembly: UnknownMnemonic
line 12 of the job, line 12 of its assembly: UnknownMnemonic
line 13 of the job, line 13 of its assembly: UnknownMnemonic
line 14 of the job, line 14 of its assembly: UnknownMnemonic
line 15 of the job, line 15 of its assembly: UnknownMnemonic
line 16 of the job, line 16 of its assembly: UnknownMnemonic
line 17 of the job, line 17 of its assembly: UnknownMnemonic
line 18 of the job, line 18 of its assembly: UnknownMnemonic
line 19 of the job, line 19 of its assembly: UnknownMnemonic
line 20 of the job, line 20 of its assembly: UnknownMnemonic
line 21 of the job, line 21 of its assembly: UnknownMnemonic
and 1 more
",
    },
];

#[test]
fn a_refusal_shows_the_line_and_what_was_expected(rt: HostRuntime) -> Result<(), Fail> {
    check_whole(&rt, rt.alloc(), &REFUSED)
}
