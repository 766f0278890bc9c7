mod arrivals;
mod capitals;
mod expected;
mod first_lines;
mod foreign;
mod habits;
mod hints;
mod lines;
mod misplaced;
mod parts;

use crate::checks::check_bytes;
use rv_job::read_job;
use rv_refusal::write_refusal;
use std::alloc::Global;
use std::process::Abort;
use std::test::Fail;

// A job that is refused, and why.
#[derive(Clone, Copy)]
pub(crate) struct Refused {
    pub(crate) job: &'static [u8],
    pub(crate) why: &'static [u8],
}

// What is shown of a job, which has to be refused.
pub(crate) fn shown(alloc: Global, job: &[u8]) -> Result<Vec<u8>, Fail> {
    let mut shown = Vec::new(alloc);
    match read_job(alloc, job) {
        Ok(_) => return Err(Fail::from("a job was taken")),
        Err(error) => write_refusal(alloc, job, error, &mut shown)?,
    }
    Ok(shown)
}

// Checks that this is shown of each job.
pub(crate) fn check_whole(rt: &impl Abort, alloc: Global, cases: &[Refused]) -> Result<(), Fail> {
    for it in cases {
        let found = shown(alloc, it.job)?;
        check_bytes(rt, found.as_slice(), it.why);
    }
    Ok(())
}

// Checks that what is shown of a job ends so.
pub(crate) fn check_end(rt: &impl Abort, alloc: Global, job: &str, end: &str) -> Result<(), Fail> {
    let found = shown(alloc, job.as_bytes())?;
    assert!(rt; found.as_slice().ends_with(end.as_bytes()), "{job}");
    Ok(())
}

// Checks that what is shown of each job ends so.
pub(crate) fn check_ends(
    rt: &impl Abort,
    alloc: Global,
    cases: &[(&str, &str)],
) -> Result<(), Fail> {
    for (job, end) in cases {
        check_end(rt, alloc, job, end)?;
    }
    Ok(())
}
