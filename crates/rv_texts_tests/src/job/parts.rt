use crate::job::helpers::{
    check_faults, check_image_line, check_job_fault, check_job_faults, check_job_image,
};
use std::test::Fail;

#[test]
fn a_fault_of_the_description_is_reported_with_its_key(rt: HostRuntime) -> Result<(), Fail> {
    static CASES: [(&[u8], &str); 10] = [
        (b"rob = \n%%\n", "error: description: NotToml\n"),
        (b"sets = 4\n%%\n", "error: description: UnknownKey\n"),
        (b"rob = \"a\"\n%%\n", "error: description: WrongKind rob\n"),
        (
            b"cache = 3\n%%\n",
            "error: description: WrongKind cache.sets\n",
        ),
        (
            b"rob = 0\ncache.sets = 3\n%%\n",
            "error: description: OutOfRange rob\n",
        ),
        (
            b"cache.sets = 3\n%%\n",
            "error: description: NotPowerOfTwo cache.sets\n",
        ),
        (
            b"predictor.kind = \"gshare\"\n%%\n",
            "error: description: OutOfRange predictor.kind\n",
        ),
        (
            b"recovery = \"late\"\n%%\n",
            "error: description: OutOfRange recovery\n",
        ),
        (
            b"ram_size = 4096\nrom_bytes = 8192\n%%\n",
            "error: description: OutOfRange rom_bytes\n",
        ),
        // A description's fault comes before those of the parts after it.
        (
            b"sets = 4\n%%\nsets = 4\n%%\nfrobnicate\n",
            "error: description: UnknownKey\n",
        ),
    ];
    check_faults(&rt, rt.alloc(), &CASES)
}

#[test]
fn a_fault_of_the_arrivals_is_reported_with_its_entry(rt: HostRuntime) -> Result<(), Fail> {
    static CASES: [(&[u8], &str); 6] = [
        (b"%%\narrival\n%%\n", "error: arrivals: NotToml\n"),
        (b"%%\nrob = 16\n%%\n", "error: arrivals: UnknownKey\n"),
        (b"%%\narrival = 3\n%%\n", "error: arrivals: WrongKind 1\n"),
        (
            b"%%\n[[arrival]]\ncycle = 5\nline = \"timer\"\n[[arrival]]\ncycle = 4\nline = \"timer\"\n%%\n",
            "error: arrivals: Unsorted 2\n",
        ),
        (
            b"%%\n[[arrival]]\ncycle = 1000001\nline = \"timer\"\n%%\n",
            "error: arrivals: OutOfRange 1\n",
        ),
        // A fault of the arrivals comes before those of the assembly.
        (
            b"%%\nrob = 16\n%%\nfrobnicate\n",
            "error: arrivals: UnknownKey\n",
        ),
    ];
    check_job_faults(&rt, rt.alloc(), &CASES)
}

#[test]
fn only_the_first_two_separators_separate(rt: HostRuntime) -> Result<(), Fail> {
    static CASES: [(&[u8], &str); 8] = [
        (b"%%\n%%\n%%\n", "error: assembly line 1: BadToken\n"),
        (b"%%\n%%\nnop\n%%\n", "error: assembly line 2: BadToken\n"),
        // Two carriage returns, a blank before or after and a third sign make another line of it.
        (b"%%\r\r\n", "error: assembly line 1: BadToken\n"),
        (b"nop\n %%\n", "error: assembly line 2: BadToken\n"),
        (b"nop\n%% \n", "error: assembly line 2: BadToken\n"),
        (b"%%%\n", "error: assembly line 1: BadToken\n"),
        // Lines are counted from the part's first.
        (
            b"rob = 8\nforward = 2\n%%\nnop\nadd x1\n",
            "error: assembly line 2: BadOperands\n",
        ),
        // A separator ends a description even within a string.
        (
            b"predictor.kind = \"\"\"\n%%\n\"\"\"\n",
            "error: description: NotToml\n",
        ),
    ];
    check_faults(&rt, rt.alloc(), &CASES)
}

#[test]
fn missing_parts_are_empty_and_lines_may_end_by_a_return(rt: HostRuntime) -> Result<(), Fail> {
    static CASES: [(&[u8], &str); 9] = [
        (b"", "ok 0 bytes start 80000000\n"),
        (b"%%\n", "ok 0 bytes start 80000000\n"),
        (b"%%", "ok 0 bytes start 80000000\n"),
        (b"%%\r", "ok 0 bytes start 80000000\n"),
        (b"%%\n%%", "ok 0 bytes start 80000000\n"),
        (b"%%\r\n%%\r\nnop\r\n", "ok 4 bytes start 80000000\n"),
        (b"rob = 8\r\n%%\r\nnop", "ok 4 bytes start 80000000\n"),
        (
            b"ram_base = 4096\n%%\n%%\nnop\n",
            "ok 4 bytes start 00001000\n",
        ),
        // The arrivals of a text that is only checked are not read.
        (b"%%\nrob = 16\n%%\nnop\n", "ok 4 bytes start 80000000\n"),
    ];
    for (text, line) in &CASES {
        check_image_line(&rt, rt.alloc(), text, line)?;
    }
    Ok(())
}

#[test]
fn an_image_fits_the_memory_that_is_described(rt: HostRuntime) -> Result<(), Fail> {
    let small = b"ram_size = 4096\n%%\n.zero 4097\n";
    check_job_fault(&rt, rt.alloc(), small, "error: image does not fit\n")?;
    let large = b"ram_size = 69632\nram_base = 0\n%%\nebreak\n.zero 69628\n";
    check_job_image(&rt, rt.alloc(), large, (69632, 0))
}
