use crate::checks::{check_bytes, check_reported};
use rv_job::{FaultLines, InputError, read_input};
use std::alloc::Global;
use std::io;
use std::io::Read;
use std::process::Abort;
use std::test::Fail;

// A reader that gives so many zeros, and then an error.
#[derive(Drop)]
struct Broken {
    zeros: usize,
}

impl Read for Broken {
    fn read(&mut self, buf: &mut [u8]) -> io::Result<usize> {
        if self.zeros == 0 {
            return Err(io::Error::from(io::ErrorKind::Other));
        }
        let count = buf.len().min(self.zeros);
        self.zeros -= count;
        Ok(count)
    }
}

// Whether reading is reported as failed where so many zeros come before the error.
fn fails_after(alloc: Global, zeros: usize) -> bool {
    matches!(
        read_input(alloc, &mut Broken { zeros }),
        Err(InputError::Failed)
    )
}

fn check_failing(rt: &impl Abort, alloc: Global, zeros: usize) {
    assert!(rt; fails_after(alloc, zeros), "{zeros}");
}

#[test]
fn input_is_read_to_its_end_and_a_failed_read_is_reported(rt: HostRuntime) -> Result<(), Fail> {
    let mut text: &[u8] = b"ebreak\n";
    let input = read_input(rt.alloc(), &mut text)?;
    check_bytes(&rt, input.as_slice(), b"ebreak\n");
    for zeros in [0, 1, 16_384, 20_000] {
        check_failing(&rt, rt.alloc(), zeros);
    }
    Ok(())
}

// Checks how an input that cannot be read is reported.
fn is_reported(rt: &impl Abort, alloc: Global, error: InputError, status: u8, line: &str) {
    let mut errors = FaultLines::new(Vec::new(alloc));
    let found = errors.report_unread(error);
    let reported = errors.into_writer();
    check_reported(rt, (found, reported.as_slice()), status, line);
}

#[test]
fn an_input_that_cannot_be_read_is_reported_with_its_status(rt: HostRuntime) {
    is_reported(&rt, rt.alloc(), InputError::Failed, 4, "error: input\n");
    is_reported(&rt, rt.alloc(), InputError::Memory, 5, "error: memory\n");
}
