use super::{each_has_fault, each_is_refused, each_means, is_refused, means};
use rv_asm::AsmFault;
use std::test::Fail;

#[test]
fn a_symbol_is_defined_once(rt: HostRuntime) -> Result<(), Fail> {
    static CASES: [(&str, usize); 7] = [
        ("a: nop\na: nop", 2),
        ("a: a: nop", 1),
        ("a: .equ a,1", 1),
        (".equ a,1\n.equ a,1", 2),
        (".equ a,1\nnop\na: nop", 3),
        // before the shape of the operands
        ("a: nop\n.equ a", 2),
        ("a: nop\n.equ a,b", 2),
    ];
    for (text, line) in &CASES {
        is_refused(rt.alloc(), text, AsmFault::DuplicateSymbol, *line)?;
    }
    Ok(())
}

#[test]
fn li_takes_the_number_of_an_earlier_line(rt: HostRuntime) -> Result<(), Fail> {
    means(
        rt.alloc(),
        ".equ a,0x12345678\nli x5,a",
        &[0x123452b7, 0x67828293],
    )?;
    static CASES: [&str; 3] = ["a: li x5,a", "li x5,a\n.equ a,5", "li x5,a"];
    each_has_fault(rt.alloc(), AsmFault::BadOperands, &CASES)
}

#[test]
fn other_symbols_may_be_defined_later(rt: HostRuntime) -> Result<(), Fail> {
    static CASES: [(&str, &[u32]); 4] = [
        ("addi x5,x0,a\n.equ a,5", &[0x00500293]),
        ("j a\nnop\na:", &[0x0080006f, 0x00000013]),
        ("la x5,a\n.data\na:", &[0x00000297, 0x01028293]),
        (".word a\n.equ a,-1", &[0xffffffff]),
    ];
    each_means(rt.alloc(), &CASES)
}

#[test]
fn a_distance_is_exact_and_only_la_counts_modulo_2_to_the_32(rt: HostRuntime) -> Result<(), Fail> {
    static CASES: [(&str, AsmFault, usize); 4] = [
        ("a: j a+4294967292", AsmFault::OutOfRange, 1),
        ("a: beq x0,x0,a+4294967292", AsmFault::OutOfRange, 1),
        (".equ a,-2147483648\nj a", AsmFault::OutOfRange, 2),
        (".equ big,4294967295\n.word big+1", AsmFault::OutOfRange, 2),
    ];
    means(
        rt.alloc(),
        "a: la x5,a+4294967292",
        &[0x00000297, 0xffc28293],
    )?;
    each_is_refused(rt.alloc(), &CASES)
}

// The first word of RAM lies at 80000000.
#[test]
fn a_number_is_taken_from_a_symbol(rt: HostRuntime) -> Result<(), Fail> {
    means(rt.alloc(), "l: .word l-4, l+4", &[0x7ffffffc, 0x80000004])
}
