//! The program `rv_sim`: simulates a RISC-V core on a job from standard input. `main` passes the
//! words and the streams on; what they come to stands in rv_program.
#![tactic(auto)]

use rv_command::parse_words;
use rv_job::{FaultLines, SimError};
use rv_program::run;
use rv_refusal::show_usage;
use std::io::Eprint;
use std::process::ExitCode;
use std::{env, io};

fn words(rt: &HostRuntime) -> io::Result<Vec<String>> {
    let mut words = Vec::new(rt.alloc());
    for word in env::args(rt)? {
        words.push(word)?;
    }
    Ok(words)
}

// What the program does, and its exit status.
fn status(rt: &HostRuntime) -> u8 {
    let mut errors = FaultLines::new(rt.stderr());
    let words = match words(rt) {
        Ok(words) => words,
        Err(error) if error.kind() == io::ErrorKind::OutOfMemory => {
            return errors.report(SimError::Memory);
        }
        Err(_) => {
            let _ = rt.eprintln("error: a word is not UTF-8");
            return 2;
        }
    };
    match parse_words(rt.alloc(), words.as_slice()) {
        Ok(command) => {
            let alloc = rt.alloc();
            run(alloc, &command, &mut rt.reader(), rt.stdout(), &mut errors).status
        }
        Err(error) => show_usage(rt.alloc(), &error, &mut rt.stdout(), &mut errors),
    }
}

fn main(rt: HostRuntime) -> ExitCode {
    ExitCode::from(status(&rt))
}
