use super::{BASE, fault};
use crate::checks::check_bytes;
use rv_asm::{AsmFault, assemble};
use std::alloc::Global;
use std::process::Abort;
use std::test::Fail;

// Checks the bytes of the image that a line makes.
fn check_image(rt: &impl Abort, alloc: Global, line: &[u8], bytes: &[u8]) -> Result<(), Fail> {
    let image = assemble(alloc, line, BASE)?;
    check_bytes(rt, image.bytes.as_slice(), bytes);
    Ok(())
}

#[test]
fn tokens_stand_with_or_without_blanks_and_a_comment_is_left_out(
    rt: HostRuntime,
) -> Result<(), Fail> {
    static CASES: [(&[u8], &[u8]); 8] = [
        (b"l: lw x7, -4(x5) # load", b"\x83\xa3\xc2\xff"),
        (b"l:lw\tx7 ,- 4 ( x5 )\r", b"\x83\xa3\xc2\xff"),
        (b"_.$a1:.half 0010,0xFf,0b101", b"\x0a\x00\xff\x00\x05\x00"),
        (
            b".word 4294967295, 0xFFFFFFFF, 0",
            b"\xff\xff\xff\xff\xff\xff\xff\xff\0\0\0\0",
        ),
        (b".asciz \"a#b\" #\xff", b"a#b\0"),
        (b".ascii \"\\n\\t\\\\\\\"\\0\xe9\"", b"\n\t\\\"\0\xe9"),
        (b"# \x07 and \"", b""),
        (b"", b""),
    ];
    for (line, bytes) in &CASES {
        check_image(&rt, rt.alloc(), line, bytes)?;
    }
    Ok(())
}

// Checks that a line is refused for what is no token.
fn is_bad(rt: &impl Abort, alloc: Global, line: &[u8]) {
    assert_eq!(rt; fault(alloc, line), Some((AsmFault::BadToken, 1)));
}

#[test]
fn what_is_no_token_is_refused(rt: HostRuntime) {
    static LINES: [&[u8]; 22] = [
        b"4294967296",
        b"0x100000000",
        b"0x",
        b"0b",
        b"0b2",
        b"0xg",
        b"0X1",
        b"12a",
        b"1_0",
        b"5.",
        b"7$",
        b"a@b: nop",
        b"\"abc",
        b"\"a\\q\"",
        b"\"a\\r\"",
        b"\"\\",
        b"a ; b",
        b"'a'",
        b"addi\x80",
        b"\x07",
        b"nop // nothing",
        b"nop\x0c",
    ];
    for line in &LINES {
        is_bad(&rt, rt.alloc(), line);
    }
}
