use super::BASE;
use rv_asm::{AsmFault, assemble};
use std::alloc::Global;
use std::process::Abort;

const TEXT: &[u8; 20] = b"addi x1,x0,5\nebreak\n";

/// How many bytes a text means and where it starts, or its fault and the fault's line.
fn found(alloc: Global, prefix: &[u8]) -> Result<(usize, u32), (AsmFault, usize)> {
    match assemble(alloc, prefix, BASE) {
        Ok(image) => Ok((image.bytes.len(), image.start)),
        Err(error) => Err((error.fault, error.line)),
    }
}

/// What is expected of the first `n` bytes of the text.
fn expected(n: usize) -> Result<(usize, u32), (AsmFault, usize)> {
    match n {
        0 => Ok((0, BASE)),
        1..=2 => Err((AsmFault::UnknownMnemonic, 1)),
        3..=11 => Err((AsmFault::BadOperands, 1)),
        12..=13 => Ok((4, BASE)),
        14..=18 => Err((AsmFault::UnknownMnemonic, 2)),
        _ => Ok((8, BASE)),
    }
}

/// Checks what a beginning of the text means.
fn check_prefix(rt: &impl Abort, alloc: Global, prefix: &[u8]) {
    let expected = expected(prefix.len());
    assert_eq!(rt; found(alloc, prefix), expected, "{}", prefix.len());
}

#[test]
fn each_prefix_of_a_text_is_assembled_or_has_its_own_fault(rt: HostRuntime) {
    for n in 0..21 {
        let (prefix, _) = TEXT.split_at(n);
        check_prefix(&rt, rt.alloc(), prefix);
    }
}
