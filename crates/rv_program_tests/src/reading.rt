use crate::checks::check_ended;
use crate::helpers::{WHOLE, run_read};
use std::io;
use std::io::Read;

// A reader that gives so many zeros, and then an error.
#[derive(Drop)]
struct Broken {
    zeros: usize,
}

impl Read for Broken {
    fn read(&mut self, buf: &mut [u8]) -> io::Result<usize> {
        if self.zeros == 0 {
            return Err(io::Error::from(io::ErrorKind::Other));
        }
        let count = buf.len().min(self.zeros);
        self.zeros -= count;
        Ok(count)
    }
}

#[test]
fn an_input_that_cannot_be_read_gives_status_4(rt: HostRuntime) {
    let ended = run_read(rt.alloc(), WHOLE, &mut Broken { zeros: 5 });
    check_ended(&rt, &ended, 4, b"", b"error: input\n");
}
