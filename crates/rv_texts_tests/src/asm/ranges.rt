use super::{BASE, each_has_fault};
use rv_asm::{AsmFault, assemble};
use std::alloc::Global;
use std::test::Fail;

#[test]
fn a_value_outside_its_fields_range_is_refused(rt: HostRuntime) -> Result<(), Fail> {
    static CASES: [&str; 28] = [
        "addi x1,x0,2048",
        "addi x1,x0,-2049",
        "lw x1,2048(x0)",
        "sw x1,-2049(x0)",
        "jalr x1,2048(x0)",
        "slli x1,x0,32",
        "srai x1,x0,-1",
        "lui x1,1048576",
        "lui x5,-1",
        "auipc x1,-1",
        "csrr x1,4096",
        "csrr x1,-1",
        "csrwi mtvec,32",
        "csrwi mtvec,-1",
        "csrrwi x1,4096,0",
        "a: beq x0,x0,a+4096",
        "a: beq x0,x0,a-4097",
        "a: bnez x0,a+4095",
        "a: jal a+1048576",
        "a: jal a-1048577",
        "a: call a+1048575",
        ".byte 256",
        ".byte -129",
        ".half 65536",
        ".half 0,-32769",
        ".word -2147483649",
        "a: .word a+4294967295",
        "a: addi x1,x0,a",
    ];
    each_has_fault(rt.alloc(), AsmFault::OutOfRange, &CASES)
}

// Fails with the text where it is refused.
fn is_taken(alloc: Global, text: &'static str) -> Result<(), Fail> {
    match assemble(alloc, text.as_bytes(), BASE) {
        Ok(_) => Ok(()),
        Err(_) => Err(text.into()),
    }
}

#[test]
fn the_ends_of_each_range_are_taken(rt: HostRuntime) -> Result<(), Fail> {
    static CASES: [&str; 15] = [
        "addi x1,x0,2047\naddi x1,x0,-2048",
        "lw x1,2047(x0)\nsw x1,-2048(x0)",
        "slli x1,x0,31\nsrli x1,x0,0",
        "lui x1,1048575\nauipc x1,0",
        "auipc x5,1048575",
        "csrr x1,4095\ncsrr x1,0",
        "csrwi 4095,31\ncsrwi 0,0",
        "a: beq x0,x0,a+4094",
        "a: beq x0,x0,a-4096",
        "a: jal a+1048574",
        "a: jal a-1048576",
        ".byte 255,-128",
        ".half 65535,-32768",
        ".word 4294967295,-2147483648",
        ".balign 16\n.zero 0",
    ];
    for text in &CASES {
        is_taken(rt.alloc(), text)?;
    }
    Ok(())
}
