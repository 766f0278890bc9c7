use crate::checks::{check_bytes, check_count};
use crate::job::helpers::check_comparison_fault;
use rv_job::{Comparison, read_comparison};
use std::alloc::Global;
use std::process::Abort;
use std::test::Fail;

// How many bytes RAM has in the machine of a job, and where its image starts.
fn sizes(comparison: &Comparison, place: usize) -> Option<(u32, u32)> {
    let job = comparison.jobs.get(place)?;
    Some((job.description.values().ram_size, job.image.start))
}

// Checks those of a job.
fn check_job(rt: &impl Abort, comparison: &Comparison, place: usize, expected: (u32, u32)) {
    assert_eq!(rt; sizes(comparison, place), Some(expected), "{place}");
}

// Checks how many jobs a comparison has, and the sizes of each.
fn check_sizes(rt: &impl Abort, comparison: &Comparison, expected: &[(u32, u32)]) {
    check_count(rt, comparison.jobs.len(), expected.len());
    for (place, of_place) in expected.iter().enumerate() {
        check_job(rt, comparison, place, *of_place);
    }
}

#[test]
fn a_program_is_assembled_for_each_description(rt: HostRuntime) -> Result<(), Fail> {
    let text = b"ram_size = 4096\n%%\nram_base = 0\n%%\r\nnop\n_start: ebreak\n";
    let comparison = read_comparison(rt.alloc(), text)?;
    check_sizes(&rt, &comparison, &[(4096, 0x8000_0004), (65536, 4)]);
    Ok(())
}

// Checks the names of machines.
fn check_names(rt: &impl Abort, found: &[Vec<u8>], names: &[&[u8]]) {
    check_count(rt, found.len(), names.len());
    for (each, name) in found.iter().zip(names) {
        check_bytes(rt, each.as_slice(), name);
    }
}

#[test]
fn a_comment_on_the_first_line_names_a_machine(rt: HostRuntime) -> Result<(), Fail> {
    static NAMES: [&[u8]; 4] = [b"one ", b"", b"", b"four"];
    let text =
        b"\xef\xbb\xbf# name: one \nrob = 4\n%%\nrob = 8\n# name: late\n%%\n%%\n# name: four\r\n%%\n# name: none\nnop\n";
    let comparison = read_comparison(rt.alloc(), text)?;
    check_names(&rt, comparison.names.as_slice(), &NAMES);
    Ok(())
}

#[test]
fn a_text_without_separator_is_a_program_on_the_standard_machine(
    rt: HostRuntime,
) -> Result<(), Fail> {
    let comparison = read_comparison(rt.alloc(), b"ebreak\n")?;
    check_sizes(&rt, &comparison, &[(65536, 0x8000_0000)]);
    Ok(())
}

// A beginning, so many separators, and an end.
fn described(alloc: Global, beginning: &[u8], count: usize, end: &[u8]) -> Result<Vec<u8>, Fail> {
    let mut text = Vec::new(alloc);
    text.extend_from_slice(beginning)?;
    for _ in 0..count {
        text.extend_from_slice(b"%%\n")?;
    }
    text.extend_from_slice(end)?;
    Ok(text)
}

// How many jobs so many empty descriptions and a program are.
fn job_count(alloc: Global, count: usize) -> Result<usize, Fail> {
    let text = described(alloc, b"", count, b"ebreak\n")?;
    let comparison = read_comparison(alloc, text.as_slice())?;
    Ok(comparison.jobs.len())
}

// Checks that a text has too many descriptions.
fn are_too_many(
    rt: &impl Abort,
    alloc: Global,
    beginning: &[u8],
    count: usize,
    end: &[u8],
) -> Result<(), Fail> {
    let text = described(alloc, beginning, count, end)?;
    check_comparison_fault(rt, alloc, text.as_slice(), "error: too many descriptions\n")
}

#[test]
fn sixty_four_machines_are_compared_and_not_one_more(rt: HostRuntime) -> Result<(), Fail> {
    let alloc = rt.alloc();
    check_count(&rt, job_count(alloc, 64)?, 64);
    are_too_many(&rt, alloc, b"", 65, b"")?;
    // The descriptions are counted before one of them is read.
    are_too_many(&rt, alloc, b"", 64, b"rob = 0\n%%")?;
    are_too_many(&rt, alloc, b"rob = 0\n", 65, b"")
}

#[test]
fn a_fault_of_one_of_several_descriptions_is_reported_with_its_number(
    rt: HostRuntime,
) -> Result<(), Fail> {
    static CASES: [(&[u8], &str); 8] = [
        (
            b"rob = 0\n%%\n%%\n",
            "error: description 1: OutOfRange rob\n",
        ),
        (
            b"%%\nrob = 8\n%%\ncache.sets = 3\n%%\nadd\n",
            "error: description 3: NotPowerOfTwo cache.sets\n",
        ),
        (
            b"%%\n%%\nsets = 4\n%%\n",
            "error: description 3: UnknownKey\n",
        ),
        (b"%%\nrob = \n%%\n", "error: description 2: NotToml\n"),
        // The program is assembled for the first machine first.
        (
            b"ram_base = 0\n%%\n%%\nnop\nadd x1\n",
            "error: assembly line 2: BadOperands\n",
        ),
        (
            b"%%\nram_size = 4096\n%%\n.zero 4097\n",
            "error: image does not fit description 2\n",
        ),
        (
            b".zero 65537\n",
            "error: image does not fit description 1\n",
        ),
        (b"add x1\n", "error: assembly line 1: BadOperands\n"),
    ];
    for (text, line) in &CASES {
        check_comparison_fault(&rt, rt.alloc(), text, line)?;
    }
    Ok(())
}
