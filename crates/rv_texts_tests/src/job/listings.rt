use crate::checks::{check_count, check_lines};
use rv_job::read_listed_job;
use std::test::Fail;

#[test]
fn the_lines_of_a_job_are_those_of_its_program(rt: HostRuntime) -> Result<(), Fail> {
    static ROWS: [(u32, Option<usize>, Option<&[u8]>); 6] = [
        (4092, None, None),
        (4096, Some(1), Some(b"nop")),
        (4104, Some(2), Some(b"la x8,d")),
        (4108, None, None),
        (4112, Some(4), Some(b"d: .word 1")),
        (4116, None, None),
    ];
    let text = b"ram_base = 4096\n%%\nnop\n  la x8,d # where\n.data\nd: .word 1\n";
    let listed = read_listed_job(rt.alloc(), text)?;
    check_count(&rt, listed.job.image.bytes.len(), 20);
    check_lines(&rt, &listed.listing, &ROWS);
    Ok(())
}
