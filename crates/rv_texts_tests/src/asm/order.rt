use super::each_is_refused;
use rv_asm::AsmFault;
use std::test::Fail;

#[test]
fn the_first_faults_of_a_line_are_looked_for_in_their_order(rt: HostRuntime) -> Result<(), Fail> {
    static CASES: [(&str, AsmFault, usize); 10] = [
        ("a: nop\na: frob ?", AsmFault::BadToken, 2),
        ("a: nop\na: frob", AsmFault::DuplicateSymbol, 2),
        ("frob x1 x2", AsmFault::UnknownMnemonic, 1),
        ("add x1,x99", AsmFault::BadOperands, 1),
        ("li x99,unknown", AsmFault::BadOperands, 1),
        ("lw x99,0(x1", AsmFault::BadOperands, 1),
        (".zero 16777200\nadd x1,x2,x99", AsmFault::BadRegister, 2),
        (".zero 16777200\nnop", AsmFault::TooLarge, 2),
        // the earliest line first
        ("add x1,x2,x99\n?", AsmFault::BadRegister, 1),
        ("nop\nnop\n?\nfrob", AsmFault::BadToken, 3),
    ];
    each_is_refused(rt.alloc(), &CASES)
}

#[test]
fn values_are_looked_at_once_the_whole_text_is_read(rt: HostRuntime) -> Result<(), Fail> {
    static CASES: [(&str, AsmFault, usize); 14] = [
        ("j nowhere\nfrob", AsmFault::UnknownMnemonic, 2),
        // on one line: symbols, ranges, multiples
        (".byte 256,nowhere", AsmFault::UnknownSymbol, 1),
        ("csrwi 4096,nowhere", AsmFault::UnknownSymbol, 1),
        (".byte 0\naddi x1,x0,2048", AsmFault::OutOfRange, 2),
        (".byte 0\nj nowhere", AsmFault::UnknownSymbol, 2),
        (".byte 0\nli x1,5", AsmFault::Misaligned, 2),
        ("a: beq x0,x0,a+1", AsmFault::Misaligned, 1),
        ("a: jal a+3", AsmFault::Misaligned, 1),
        // a start that is no multiple of 4
        (".byte 0\n_start: .byte 256", AsmFault::OutOfRange, 2),
        (".byte 0\n_start: .byte 1", AsmFault::Misaligned, 2),
        ("nop\n.equ _start,2", AsmFault::Misaligned, 2),
        // the earliest line first
        ("j nowhere\naddi x1,x0,2048", AsmFault::UnknownSymbol, 1),
        ("addi x1,x0,2048\nj nowhere", AsmFault::OutOfRange, 1),
        (".byte 0\n_start:\n.byte 256", AsmFault::Misaligned, 2),
    ];
    each_is_refused(rt.alloc(), &CASES)
}
