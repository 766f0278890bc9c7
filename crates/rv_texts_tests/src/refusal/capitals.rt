use crate::refusal::{Refused, check_whole};
use std::test::Fail;

// Names that are known in small letters; a symbol may have capital ones.
static CAPITALS: [Refused; 5] = [
    Refused {
        job: b"nop\nADDI x1, x0, 5",
        why: b"\
line 2 of the job, line 2 of its assembly: UnknownMnemonic
    ADDI x1, x0, 5
    ^
expected: a statement that begins with an instruction or a directive
names are written in small letters: addi
",
    },
    Refused {
        job: b".Word 5",
        why: b"\
line 1 of the job, line 1 of its assembly: UnknownMnemonic
    .Word 5
    ^
expected: a statement that begins with an instruction or a directive
names are written in small letters: .word
",
    },
    Refused {
        job: b"add x1, A0, a1",
        why: b"\
line 1 of the job, line 1 of its assembly: BadRegister
    add x1, A0, a1
            ^
expected: a register, x0 to x31, or its name in the calling convention
names are written in small letters: a0
",
    },
    Refused {
        job: b"csrr x1, MTVEC",
        why: b"\
line 1 of the job, line 1 of its assembly: BadOperands
    csrr x1, MTVEC
             ^
expected: csrr rd, csr, as in 'csrr x5, mscratch'
names are written in small letters: mtvec
",
    },
    Refused {
        job: b"again: j AGAIN",
        why: b"\
line 1 of the job, line 1 of its assembly: UnknownSymbol
    again: j AGAIN
             ^
expected: a symbol that a label or .equ defines
",
    },
];

#[test]
fn a_refusal_says_that_a_name_is_known_in_small_letters(rt: HostRuntime) -> Result<(), Fail> {
    check_whole(&rt, rt.alloc(), &CAPITALS)
}
