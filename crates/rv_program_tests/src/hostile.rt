use crate::checks::check_ended;
use crate::helpers::{WHOLE, run_read};
use rv_command::Command;
use rv_job::read_input;
use std::io;
use std::io::Read;
use std::test::Fail;

// A reader that always gives as many zeros as it is asked for.
#[derive(Drop)]
struct Endless;

impl Read for Endless {
    fn read(&mut self, buf: &mut [u8]) -> io::Result<usize> {
        Ok(buf.len())
    }
}

#[test]
fn an_input_without_end_is_cut(rt: HostRuntime) -> Result<(), Fail> {
    let input = read_input(rt.alloc(), &mut Endless)?;
    assert!(&rt; input.len() == 33_554_433);
    Ok(())
}

// What a command shows of a job that is too long.
const SHOWN: [(Command, &str); 3] = [
    (WHOLE, ""),
    (Command::Check, ""),
    (
        Command::Explain {
            figures: true,
            path: false,
            limit: 100_000,
        },
        "expected: at most 33554432 bytes\n",
    ),
];

#[test]
fn what_is_cut_is_too_long(rt: HostRuntime) {
    for (command, shown) in &SHOWN {
        let ended = run_read(rt.alloc(), *command, &mut Endless);
        check_ended(&rt, &ended, 1, shown.as_bytes(), b"error: job too long\n");
    }
}
