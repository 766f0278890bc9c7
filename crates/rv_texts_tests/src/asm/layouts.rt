use super::{BASE, each_is_refused, each_means, is_refused, means};
use rv_asm::{AsmFault, assemble};
use std::alloc::Global;
use std::process::Abort;
use std::test::Fail;

#[test]
fn a_label_is_the_address_where_its_line_begins(rt: HostRuntime) -> Result<(), Fail> {
    static CASES: [(&str, &[u32]); 6] = [
        // before the padding of its line
        (".byte 1\na: .balign 4\n.word a", &[1, 0x80000001]),
        // in the section before a directive of its line
        (
            "nop\na: .data\n.word a\nb: .text\n.word b",
            &[0x00000013, 0x80000014, 0, 0, 0x80000004],
        ),
        // in a data section without bytes
        (".data\na:\n.text\n.word a", &[0x80000010]),
        (
            "a: b:c:nop\nd:\n.word a,b,c,d",
            &[0x00000013, 0x80000000, 0x80000000, 0x80000000, 0x80000004],
        ),
        (".word a+4\n.word a-4\na:", &[0x8000000c, 0x80000004]),
        ("l: nop\n.data\n.word l", &[0x00000013, 0, 0, 0, 0x80000000]),
    ];
    each_means(rt.alloc(), &CASES)
}

#[test]
fn data_begin_at_the_next_multiple_of_16_after_the_text(rt: HostRuntime) -> Result<(), Fail> {
    static CASES: [(&str, &[u32]); 5] = [
        ("nop\n.data\n", &[0x00000013]),
        ("nop\n.data\n.zero 0", &[0x00000013]),
        (
            "nop\nnop\nnop\nnop\n.data\n.word 1",
            &[0x00000013, 0x00000013, 0x00000013, 0x00000013, 1],
        ),
        (".data\n.word 1", &[1]),
        (
            ".data\n.word 1\n.text\nnop\n.data\n.word 2",
            &[0x00000013, 0, 0, 0, 1, 2],
        ),
    ];
    each_means(rt.alloc(), &CASES)
}

#[test]
fn data_stand_lowest_byte_first_and_without_alignment(rt: HostRuntime) -> Result<(), Fail> {
    static CASES: [(&str, &[u32]); 8] = [
        (
            ".word -1,4294967295,-2147483648",
            &[0xffffffff, 0xffffffff, 0x80000000],
        ),
        (".half -1,65535,-32768,0x1234", &[0xffffffff, 0x12348000]),
        (".byte -1,255,-128,0x7f", &[0x7f80ffff]),
        (".byte 1\n.half 2\n.byte 3", &[0x03000201]),
        // the number of a symbol modulo 2^32
        (".equ s,-1\n.word s,s-1", &[0xffffffff, 0xfffffffe]),
        (".word 0x1F,0b101,0010", &[0x1f, 5, 10]),
        (".byte 1\n.zero 2\n.space 1\n.skip 4", &[1, 0]),
        (
            ".byte 1\n.balign 1\n.balign 2\n.balign 4\n.byte 2\n.balign 8\n.balign 16",
            &[1, 2, 0, 0],
        ),
    ];
    each_means(rt.alloc(), &CASES)
}

#[test]
fn strings_stand_with_their_escapes_resolved(rt: HostRuntime) -> Result<(), Fail> {
    static CASES: [(&str, &[u32]); 5] = [
        (".asciz \"a#b\"", &[0x00622361]),
        (".string \"abc\"", &[0x00636261]),
        (".ascii \"\\n\\t\\\\\\\"\"", &[0x225c090a]),
        (".ascii \"\\0\u{e9}\x07\"", &[0x07a9c300]),
        (".asciz \"\"\n.ascii \"\"\n.zero 3", &[0]),
    ];
    each_means(rt.alloc(), &CASES)
}

#[test]
fn instructions_may_stand_in_the_data_at_multiples_of_4(rt: HostRuntime) -> Result<(), Fail> {
    means(rt.alloc(), ".data\nebreak", &[0x00100073])?;
    is_refused(
        rt.alloc(),
        ".data\n.byte 0\nebreak",
        AsmFault::Misaligned,
        3,
    )
}

// The base of a text's image, and where it starts.
fn places(alloc: Global, text: &str) -> Option<(u32, u32)> {
    match assemble(alloc, text.as_bytes(), BASE) {
        Ok(image) => Some((image.base, image.start)),
        Err(_) => None,
    }
}

// Checks where a text's image starts.
fn starts_at(rt: &impl Abort, alloc: Global, text: &str, start: u32) {
    assert_eq!(rt; places(alloc, text), Some((BASE, start)), "{text}");
}

#[test]
fn execution_starts_at_the_symbol_start_or_at_the_base(rt: HostRuntime) {
    static CASES: [(&str, u32); 6] = [
        ("nop", 0x80000000),
        ("nop\n_start: nop", 0x80000004),
        ("nop\n.data\n_start:", 0x80000010),
        // outside the image
        (".equ _start,0x1000", 0x1000),
        // modulo 2^32
        (".equ _start,-4", 0xfffffffc),
        (".globl _start\n.global _start", 0x80000000),
    ];
    for (text, start) in &CASES {
        starts_at(&rt, rt.alloc(), text, *start);
    }
}

#[test]
fn text_and_data_may_have_16777200_bytes_the_gap_between_them_not_counted(
    rt: HostRuntime,
) -> Result<(), Fail> {
    static CASES: [(&str, AsmFault, usize); 6] = [
        (".zero 16777200\n.byte 0", AsmFault::TooLarge, 2),
        (".zero 16777200\nnop", AsmFault::TooLarge, 2),
        (".zero 16777200\n.data\n.byte 0", AsmFault::TooLarge, 3),
        (".zero 16777216", AsmFault::TooLarge, 1),
        // padding is counted
        (
            ".zero 16777185\n.data\n.byte 0\n.balign 16",
            AsmFault::TooLarge,
            4,
        ),
        // the gap is not
        (
            ".word a\n.zero 16777181\n.data\n.zero 15",
            AsmFault::UnknownSymbol,
            1,
        ),
    ];
    each_is_refused(rt.alloc(), &CASES)
}
