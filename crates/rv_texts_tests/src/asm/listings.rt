use super::BASE;
use crate::checks::check_lines;
use rv_asm::{AsmFault, assemble_listed};
use std::alloc::Global;
use std::test::Fail;

#[test]
fn a_word_has_the_line_whose_bytes_hold_its_first_byte(rt: HostRuntime) -> Result<(), Fail> {
    static ROWS: [(u32, Option<usize>, Option<&[u8]>); 10] = [
        (BASE, Some(4), Some(b"la x8,d")),
        (BASE + 4, Some(4), Some(b"la x8,d")),
        (BASE + 8, Some(6), Some(b"nop")),
        (BASE + 12, Some(7), Some(b".half 3 #: main a.c:5")),
        (BASE + 16, Some(9), Some(b"ebreak")),
        (BASE + 20, None, None),
        (BASE + 28, None, None),
        (BASE + 32, Some(2), Some(b"d: .byte 1")),
        (BASE + 36, Some(11), Some(b".byte 2,3,4,5")),
        (BASE + 40, None, None),
    ];
    let text =
        " .data\nd: .byte 1\n .text\n\tla x8,d \r\n\nnop # x #: y\n.half 3\t#: main a.c:5 \n.half 4\nebreak\n.data\n.byte 2,3,4,5";
    let listed = assemble_listed(rt.alloc(), text.as_bytes(), BASE)?;
    check_lines(&rt, &listed.listing, &ROWS);
    Ok(())
}

// Fails where a text's listed image has another fault, or in another line.
fn is_refused(alloc: Global, text: &[u8], fault: AsmFault, line: usize) -> Result<(), Fail> {
    let refused = assemble_listed(alloc, text, BASE).err().ok_or("a fault")?;
    if refused.fault != fault || refused.line != line {
        return Err(Fail::from("another fault"));
    }
    Ok(())
}

#[test]
fn a_listed_image_is_refused_as_the_image_is(rt: HostRuntime) -> Result<(), Fail> {
    static ROWS: [(&[u8], AsmFault, usize); 2] = [
        (b"nop\n\nfoo", AsmFault::UnknownMnemonic, 3),
        (b"nop\nj nowhere", AsmFault::UnknownSymbol, 2),
    ];
    for (text, fault, line) in &ROWS {
        is_refused(rt.alloc(), text, *fault, *line)?;
    }
    Ok(())
}
