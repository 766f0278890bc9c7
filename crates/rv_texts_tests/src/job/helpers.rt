use crate::checks::check_bytes;
use rv_job::{FaultLines, SimError, read_comparison, read_image_text, read_job, write_image_line};
use std::alloc::Global;
use std::process::Abort;
use std::test::Fail;

/// The line of a fault, where its exit status is 1.
fn line_of(alloc: Global, error: SimError) -> Result<Vec<u8>, Fail> {
    let mut errors = FaultLines::new(Vec::new(alloc));
    if errors.report(error) == 1 {
        Ok(errors.into_writer())
    } else {
        Err(Fail::from("a fault has another status"))
    }
}

/// What is reported of a text that is refused as a job.
fn job_fault(alloc: Global, text: &[u8]) -> Result<Vec<u8>, Fail> {
    match read_job(alloc, text) {
        Ok(_) => Err(Fail::from("a job was taken")),
        Err(error) => line_of(alloc, error),
    }
}

/// What is reported of a text that is refused where its image alone is asked for.
fn image_fault(alloc: Global, text: &[u8]) -> Result<Vec<u8>, Fail> {
    match read_image_text(alloc, text) {
        Ok(_) => Err(Fail::from("a text was taken")),
        Err(error) => line_of(alloc, error),
    }
}

/// What is reported of a text that is refused as a comparison.
fn comparison_fault(alloc: Global, text: &[u8]) -> Result<Vec<u8>, Fail> {
    match read_comparison(alloc, text) {
        Ok(_) => Err(Fail::from("a comparison was taken")),
        Err(error) => line_of(alloc, error),
    }
}

/// How many bytes the image of a job has, and where it starts.
fn job_image(alloc: Global, text: &[u8]) -> Result<(usize, u32), Fail> {
    let job = read_job(alloc, text)?;
    Ok((job.image.bytes.len(), job.image.start))
}

/// Checks the line of the image that a text makes.
pub(crate) fn check_image_line(
    rt: &impl Abort,
    alloc: Global,
    text: &[u8],
    line: &str,
) -> Result<(), Fail> {
    let made = read_image_text(alloc, text)?;
    let mut output = Vec::new(alloc);
    write_image_line(&mut output, &made.image)?;
    check_bytes(rt, output.as_slice(), line.as_bytes());
    Ok(())
}

/// Checks how many bytes the image of a job has, and where it starts.
pub(crate) fn check_job_image(
    rt: &impl Abort,
    alloc: Global,
    text: &[u8],
    image: (usize, u32),
) -> Result<(), Fail> {
    assert_eq!(rt; job_image(alloc, text)?, image);
    Ok(())
}

/// Checks the line of a text that is refused as a job.
pub(crate) fn check_job_fault(
    rt: &impl Abort,
    alloc: Global,
    text: &[u8],
    line: &str,
) -> Result<(), Fail> {
    let fault = job_fault(alloc, text)?;
    check_bytes(rt, fault.as_slice(), line.as_bytes());
    Ok(())
}

/// Checks the line of a text that is refused where its image alone is asked for.
fn check_image_fault(rt: &impl Abort, alloc: Global, text: &[u8], line: &str) -> Result<(), Fail> {
    let fault = image_fault(alloc, text)?;
    check_bytes(rt, fault.as_slice(), line.as_bytes());
    Ok(())
}

/// Checks the line of a text that is refused as a comparison.
pub(crate) fn check_comparison_fault(
    rt: &impl Abort,
    alloc: Global,
    text: &[u8],
    line: &str,
) -> Result<(), Fail> {
    let fault = comparison_fault(alloc, text)?;
    check_bytes(rt, fault.as_slice(), line.as_bytes());
    Ok(())
}

/// Checks the lines of texts that are refused as jobs.
pub(crate) fn check_job_faults(
    rt: &impl Abort,
    alloc: Global,
    cases: &[(&[u8], &str)],
) -> Result<(), Fail> {
    for (text, line) in cases {
        check_job_fault(rt, alloc, text, line)?;
    }
    Ok(())
}

/// Checks the lines of texts that are refused as jobs, and just so where their images alone are asked for.
pub(crate) fn check_faults(
    rt: &impl Abort,
    alloc: Global,
    cases: &[(&[u8], &str)],
) -> Result<(), Fail> {
    for (text, line) in cases {
        check_image_fault(rt, alloc, text, line)?;
    }
    check_job_faults(rt, alloc, cases)
}
