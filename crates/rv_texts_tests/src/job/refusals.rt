use crate::job::helpers::{check_faults, check_image_line, check_job_fault, check_job_image};
use std::test::Fail;

#[test]
fn the_first_fault_of_a_text_is_reported_with_its_line(rt: HostRuntime) -> Result<(), Fail> {
    static CASES: [(&[u8], &str); 14] = [
        (b"nop\n\xff\n", "error: assembly line 2: BadToken\n"),
        (b".ascii \"abc", "error: assembly line 1: BadToken\n"),
        (
            b"frobnicate x1",
            "error: assembly line 1: UnknownMnemonic\n",
        ),
        (b"add x1,x2\n", "error: assembly line 1: BadOperands\n"),
        (b"addi x32,x0,1\n", "error: assembly line 1: BadRegister\n"),
        (
            b"a: nop\n\na: nop\n",
            "error: assembly line 3: DuplicateSymbol\n",
        ),
        (b".zero 16777216\n", "error: assembly line 1: TooLarge\n"),
        (b"j nowhere\n", "error: assembly line 1: UnknownSymbol\n"),
        (b"addi x1,x0,2048\n", "error: assembly line 1: OutOfRange\n"),
        (
            b"beq x0,x0,far\n.zero 4092\nfar: ebreak\n",
            "error: assembly line 1: OutOfRange\n",
        ),
        (b".byte 1\nnop\n", "error: assembly line 2: Misaligned\n"),
        // The second pass begins where the first one finds nothing.
        (
            b"j nowhere\nadd x1\n",
            "error: assembly line 2: BadOperands\n",
        ),
        (
            b"addi x1,x0,2048\nj nowhere\n",
            "error: assembly line 1: OutOfRange\n",
        ),
        (
            b"# a comment\n\n\naddi x1,x0,2048",
            "error: assembly line 4: OutOfRange\n",
        ),
    ];
    check_faults(&rt, rt.alloc(), &CASES)
}

#[test]
fn a_branch_of_4094_bytes_is_near_enough(rt: HostRuntime) -> Result<(), Fail> {
    let text = b"beq x0,x0,far-2\n.zero 4092\nfar: ebreak\n";
    check_image_line(&rt, rt.alloc(), text, "ok 4100 bytes start 80000000\n")
}

#[test]
fn an_image_longer_than_memory_is_checked_but_no_job(rt: HostRuntime) -> Result<(), Fail> {
    let text = b".zero 65537\n";
    check_image_line(&rt, rt.alloc(), text, "ok 65537 bytes start 80000000\n")?;
    check_job_fault(&rt, rt.alloc(), text, "error: image does not fit\n")?;
    check_job_image(&rt, rt.alloc(), b".zero 65536\n", (65536, 0x8000_0000))
}
