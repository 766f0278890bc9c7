use rv_command::Command;
use rv_job::FaultLines;
use rv_program::run;
use rv_text::TextError;
use std::alloc::Global;
use std::io;
use std::io::{Read, Write};

/// A run of the reference as long as it is by default.
pub(crate) const WHOLE: Command = Command::Reference { limit: 100_000 };

/// A run of the core as long as it is by default, without a trace.
pub(crate) const CORE: Command = Command::Run {
    trace: false,
    limit: 100_000,
};

/// How the program ends: its exit status, what it has written, and whether it has written why a job is refused.
#[derive(Drop)]
pub(crate) struct Ended {
    pub(crate) status: u8,
    pub(crate) output: Vec<u8>,
    pub(crate) refusal: Result<(), TextError>,
    pub(crate) errors: Vec<u8>,
}

/// How the program ends on a command and an input.
pub(crate) fn run_text(alloc: Global, command: Command, input: &[u8]) -> Ended {
    let mut reader = input;
    run_read(alloc, command, &mut reader)
}

/// How the program ends on a command and what a reader gives.
pub(crate) fn run_read<R: Read>(alloc: Global, command: Command, reader: &mut R) -> Ended {
    let mut errors = FaultLines::new(Vec::new(alloc));
    let exit = run(alloc, &command, reader, Vec::new(alloc), &mut errors);
    Ended {
        status: exit.status,
        output: exit.output.unwrap_or(Vec::new(alloc)),
        refusal: exit.refusal,
        errors: errors.into_writer(),
    }
}

/// Whether a report has a line.
pub(crate) fn has_line(report: &[u8], line: &str) -> bool {
    report
        .split(|byte| *byte == b'\n')
        .any(|each| each == line.as_bytes())
}

/// The first of some lines that a report has not.
pub(crate) fn missing<'a>(report: &[u8], lines: &[&'a str]) -> Option<&'a str> {
    for line in lines {
        if !has_line(report, line) {
            return Some(*line);
        }
    }
    None
}

/// A writer that takes few bytes at a time, and nothing more where it is full.
#[derive(Drop)]
pub(crate) struct Narrow {
    pub(crate) width: usize,
    pub(crate) room: usize,
    pub(crate) taken: Vec<u8>,
}

impl Write for Narrow {
    fn write(&mut self, buf: &[u8]) -> io::Result<usize> {
        let count = buf.len().min(self.width).min(self.room);
        let Ok(()) = self.taken.extend_from_slice(&buf[..count]) else {
            return Err(io::Error::from(io::ErrorKind::OutOfMemory));
        };
        self.room -= count;
        Ok(count)
    }

    fn flush(&mut self) -> io::Result<()> {
        Ok(())
    }
}

/// A writer that shows what it has taken once it is flushed, where it can be: so many bytes of it.
#[derive(Drop)]
pub(crate) struct HeldBack {
    pub(crate) can_flush: bool,
    pub(crate) shown: usize,
    pub(crate) taken: Vec<u8>,
}

impl Write for HeldBack {
    fn write(&mut self, buf: &[u8]) -> io::Result<usize> {
        match self.taken.extend_from_slice(buf) {
            Ok(()) => Ok(buf.len()),
            Err(_) => Err(io::Error::from(io::ErrorKind::OutOfMemory)),
        }
    }

    fn flush(&mut self) -> io::Result<()> {
        if !self.can_flush {
            return Err(io::Error::from(io::ErrorKind::BrokenPipe));
        }
        self.shown = self.taken.len();
        Ok(())
    }
}

/// A writer that answers an error once, after so many writes, and sees whether it is asked to write again.
#[derive(Drop)]
pub(crate) struct FailsOnce {
    pub(crate) before: u64,
    pub(crate) has_failed: bool,
    pub(crate) is_asked_again: bool,
}

impl Write for FailsOnce {
    fn write(&mut self, buf: &[u8]) -> io::Result<usize> {
        if self.has_failed {
            self.is_asked_again = true;
            return Ok(buf.len());
        }
        if self.before == 0 {
            self.has_failed = true;
            return Err(io::Error::from(io::ErrorKind::BrokenPipe));
        }
        self.before -= 1;
        Ok(buf.len())
    }

    fn flush(&mut self) -> io::Result<()> {
        Ok(())
    }
}

/// A writer that answers an error.
#[derive(Drop)]
pub(crate) struct Closed;

impl Write for Closed {
    fn write(&mut self, _buf: &[u8]) -> io::Result<usize> {
        Err(io::Error::from(io::ErrorKind::BrokenPipe))
    }

    fn flush(&mut self) -> io::Result<()> {
        Ok(())
    }
}
