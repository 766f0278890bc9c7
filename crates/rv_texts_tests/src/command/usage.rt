use super::refused;
use crate::checks::{check_bytes, check_reported};
use rv_job::FaultLines;
use rv_refusal::show_usage;
use std::alloc::Global;
use std::process::Abort;
use std::test::Fail;

const HELP: &str = "Simulates a RISC-V core

Usage: rv_sim <COMMAND>

Commands:
  run          Runs the text on standard input on the core, cycle by cycle
  reference    Runs the text on standard input, one step at a time
  check        Assembles the text on standard input
  picture      Draws some cycles of a run of the text on standard input
  log          Writes a run of the text on standard input as a log for pipeline viewers (Konata)
  states       Writes the hardware in some cycles of a run of the text on standard input, as lines of JSON
  page         Makes a page of some cycles of a run of the text on standard input, to step through in a browser
  explain      Says in sentences how a run of the text on standard input went
  profile      Writes a table of what each line of the text on standard input cost in a run
  path         Writes which causes and lines have the cycles of the critical path of a run of the text on standard input
  compare      Runs one program on several machines, and compares their totals
  sensitivity  Says which key of the machine would help the text on standard input
  help         Print this message or the help of the given subcommand(s)

Options:
  -h, --help     Print help
  -V, --version  Print version

A job is a program in assembly; or a description of the machine in TOML, a line %%, and a program;
or a description, %%, interrupt arrivals in TOML, %%, and a program.

Example:
  printf 'addi x1,x0,5\\nebreak\\n' | rv_sim run --trace
";

// The help of a command that runs a job: its beginning, and its example.
macro_rules! help_of_run {
    ($beginning:literal, $example:literal) => {
        concat!(
            $beginning,
            "
Reads a job from standard input, as in:
  ",
            $example,
            "

Exit status:
  0  the run ended by a breakpoint or its limit
  1  the job was refused
  2  wrong usage
  3  the run stopped at a stale word
  4  standard input or output failed
  5  out of memory
"
        )
    };
}

const HELP_OF_RUN: &str = help_of_run!(
    "Runs the text on standard input on the core, cycle by cycle

Usage: rv_sim run [OPTIONS]

Options:
      --trace      Begins the report with a line for each step
      --limit <N>  The most cycles, 1 to 1000000 [default: 100000]
  -h, --help       Print help
",
    "rv_sim run --trace < FILE"
);

const HELP_OF_REFERENCE: &str = help_of_run!(
    "Runs the text on standard input, one step at a time

Usage: rv_sim reference [OPTIONS]

Options:
      --limit <N>  The most steps, 1 to 1000000 [default: 100000]
  -h, --help       Print help
",
    "rv_sim reference < FILE"
);

const HELP_OF_CHECK: &str = "Assembles the text on standard input

Usage: rv_sim check

Options:
  -h, --help  Print help

Reads a job from standard input, and of it not the arrivals, as in:
  rv_sim check < FILE

Exit status:
  0  the program was assembled
  1  the job was refused
  2  wrong usage
  4  standard input or output failed
  5  out of memory
";

const HELP_OF_PICTURE: &str = "Draws some cycles of a run of the text on standard input

Usage: rv_sim picture [OPTIONS]

Options:
      --text        Draws in characters, and not as SVG
      --retired     Leaves out the rows of squashed instructions
      --path        Marks the critical path, by a second run
      --from <N>    The first cycle, 0 to 999999 [default: 0]
      --cycles <N>  How many cycles, 1 to 1000 [default: 60]
  -h, --help        Print help

Reads a job from standard input, runs it up to the last of those cycles, and draws a column for each
of them and a row for each instruction that was in the core then, as in:
  rv_sim picture --from 100 --cycles 40 < FILE > FILE.svg
  rv_sim picture --text < FILE

Exit status:
  0  the run ended by a breakpoint or with the last of those cycles
  1  the job was refused
  2  wrong usage
  3  the run stopped at a stale word
  4  standard input or output failed
  5  out of memory
";

const HELP_OF_LOG: &str = help_of_run!(
    "Writes a run of the text on standard input as a log for pipeline viewers (Konata)

Usage: rv_sim log [OPTIONS]

Options:
      --limit <N>  The most cycles, 1 to 1000000 [default: 100000]
  -h, --help       Print help
",
    "rv_sim log < FILE > FILE.log"
);

const HELP_OF_STATES: &str =
    "Writes the hardware in some cycles of a run of the text on standard input, as lines of JSON

Usage: rv_sim states [OPTIONS]

Options:
      --from <N>    The first cycle, 0 to 999999 [default: 0]
      --cycles <N>  How many cycles, 1 to 10000 [default: 200]
  -h, --help        Print help

Reads a job from standard input, runs it up to the last of those cycles, and writes a line for each of them:
what happened in it, and the whole hardware after it, as in:
  rv_sim states --from 100 --cycles 40 < FILE

Exit status:
  0  the run ended by a breakpoint or with the last of those cycles
  1  the job was refused
  2  wrong usage
  3  the run stopped at a stale word
  4  standard input or output failed
  5  out of memory
";

const HELP_OF_PAGE: &str =
    "Makes a page of some cycles of a run of the text on standard input, to step through in a browser

Usage: rv_sim page [OPTIONS]

Options:
      --from <N>    The first cycle, 0 to 999999 [default: 0]
      --cycles <N>  How many cycles, 1 to 10000 [default: 200]
  -h, --help        Print help

Reads a job from standard input, runs it up to the last of those cycles, and writes one file, which a browser
opens from disk: the states of those cycles and a viewer of them, as in:
  rv_sim page --from 100 --cycles 40 < FILE > FILE.html

Exit status:
  0  the run ended by a breakpoint or with the last of those cycles
  1  the job was refused
  2  wrong usage
  3  the run stopped at a stale word
  4  standard input or output failed
  5  out of memory
";

const HELP_OF_EXPLAIN: &str = help_of_run!(
    "Says in sentences how a run of the text on standard input went

Usage: rv_sim explain [OPTIONS]

Options:
      --figures    After a crash says too where the cycles went
      --path       Says too what is on the critical path, by a second run
      --limit <N>  The most cycles, 1 to 1000000 [default: 100000]
  -h, --help       Print help
",
    "rv_sim explain < FILE"
);

const HELP_OF_PROFILE: &str = help_of_run!(
    "Writes a table of what each line of the text on standard input cost in a run

Usage: rv_sim profile [OPTIONS]

Options:
      --path       Adds each line's cycles on the critical path, by a second run
      --limit <N>  The most cycles, 1 to 1000000 [default: 100000]
  -h, --help       Print help
",
    "rv_sim profile < FILE"
);

const HELP_OF_PATH: &str = help_of_run!(
    "Writes which causes and lines have the cycles of the critical path of a run of the text on standard input

Usage: rv_sim path [OPTIONS]

Options:
      --limit <N>  The most cycles, 1 to 1000000 [default: 100000]
  -h, --help       Print help
",
    "rv_sim path < FILE"
);

const HELP_OF_COMPARE: &str = "Runs one program on several machines, and compares their totals

Usage: rv_sim compare [OPTIONS]

Options:
      --limit <N>    The most cycles of each run, 1 to 1000000 [default: 100000]
      --show <WHAT>  Shows a register or the word at an address at each run's end, or the places for dispatch; four at most
  -h, --help         Print help

Reads from standard input up to 64 descriptions of machines in TOML, a line %% after each, and a program,
as in:
  rv_sim compare --show a0 < FILE

Writes a line for each machine, in their order, its cells with a tab between two: its number, the
counts of its run, its name, why the run ended, and more counts. No machine of a comparison has
interrupt arrivals.

Exit status:
  0  the table was written; its column stop says how each run ended
  1  a description or the program was refused
  2  wrong usage
  4  standard input or output failed
  5  out of memory
";

const HELP_OF_SENSITIVITY: &str =
    "Says which key of the machine would help the text on standard input

Usage: rv_sim sensitivity [OPTIONS]

Options:
      --limit <N>         The most cycles of each run, 1 to 1000000 [default: 100000]
      --also <KEY=VALUE>  Tries a value of your own for a key of the description too, four at most
  -h, --help              Print help

Reads a job from standard input and runs it on its machine and on machines that differ in one key:
each size and width twice as large, each latency and cost half as long, a kind pipelined, the other
recovery, the other predictors, and all widths at once, each within its key's range, as in:
  rv_sim sensitivity < FILE
  rv_sim sensitivity --also rob=64 --also predictor.kind=not_taken < FILE

Writes a line for the machine as it is and one for each other, the fewest cycles first, its cells with
a tab between two: the key, its value and the one tried, the cycles, how many thousandths of the cycles
that is more or less, and why the run ended.

Exit status:
  0  the table was written; its column stop says how each run ended
  1  the job was refused
  2  wrong usage
  4  standard input or output failed
  5  out of memory
";

const FROM_TOO_LATE: &str =
    "error: invalid value '1000000' for '--from <N>': 1000000 is not in 0..=999999

For more information, try '--help'.
";

const CYCLES_TOO_MANY: &str =
    "error: invalid value '1001' for '--cycles <N>': 1001 is not in 1..=1000

For more information, try '--help'.
";

const VERSION: &str = "rv_sim 0.1.0
What stays while it is 0.1: lines of reports and faults, exit statuses, keys, commands and options, columns of
tables by their names, members of states by theirs (format rv_sim states 1), calls of the libraries
";

const LIMIT_OF_ZERO: &str = "error: invalid value '0' for '--limit <N>': 0 is not in 1..=1000000

For more information, try '--help'.
";

const NO_COMMAND: &str = "error: 'rv_sim' requires a subcommand but one was not provided
  [subcommands: run, reference, check, picture, log, states, page, explain, profile, path, compare, sensitivity, help]

Usage: rv_sim <COMMAND>

For more information, try '--help'.
";

const FILE_AS_ARGUMENT: &str = "error: unexpected argument 'FILE' found

Usage: rv_sim run [OPTIONS]

For more information, try '--help'.
A job comes on standard input, as in 'rv_sim run < FILE'.
";

const FILE_AS_COMMAND: &str = "error: unrecognized subcommand 'FILE'

Usage: rv_sim <COMMAND>

For more information, try '--help'.
A job comes on standard input, as in 'rv_sim run < FILE'.
";

// Checks a text and an exit status that were shown, and that nothing is beside the text.
fn check_shown(
    rt: &impl Abort,
    (found_status, output, reported): (u8, &[u8], &[u8]),
    text: &str,
    status: u8,
) {
    let (found, other) = if status == 0 {
        (output, reported)
    } else {
        (reported, output)
    };
    check_reported(rt, (found_status, found), status, text);
    check_bytes(rt, other, b"");
}

// The words are refused with this text and exit status, and no fault is reported beside it.
fn is_shown(
    rt: &impl Abort,
    alloc: Global,
    words: &[&str],
    text: &str,
    status: u8,
) -> Result<(), Fail> {
    let error = refused(alloc, words)?;
    let mut output = Vec::new(alloc);
    let mut errors = FaultLines::new(Vec::new(alloc));
    let found = show_usage(alloc, &error, &mut output, &mut errors);
    let reported = errors.into_writer();
    let shown = (found, output.as_slice(), reported.as_slice());
    check_shown(rt, shown, text, status);
    Ok(())
}

/// Each of the words is refused with the text beside it and this exit status.
pub(super) fn each_is_shown(
    rt: &impl Abort,
    alloc: Global,
    cases: &[(&[&str], &str)],
    status: u8,
) -> Result<(), Fail> {
    for (words, text) in cases {
        is_shown(rt, alloc, words, text, status)?;
    }
    Ok(())
}

#[test]
fn help_and_version_have_their_texts(rt: HostRuntime) -> Result<(), Fail> {
    static CASES: [(&[&str], &str); 16] = [
        (&["rv_sim", "--help"], HELP),
        (&["rv_sim", "help"], HELP),
        (&["rv_sim", "run", "-h"], HELP_OF_RUN),
        (&["rv_sim", "run", "--help"], HELP_OF_RUN),
        (&["rv_sim", "reference", "--help"], HELP_OF_REFERENCE),
        (&["rv_sim", "check", "--help"], HELP_OF_CHECK),
        (&["rv_sim", "help", "picture"], HELP_OF_PICTURE),
        (&["rv_sim", "log", "--help"], HELP_OF_LOG),
        (&["rv_sim", "states", "--help"], HELP_OF_STATES),
        (&["rv_sim", "page", "--help"], HELP_OF_PAGE),
        (&["rv_sim", "explain", "--help"], HELP_OF_EXPLAIN),
        (&["rv_sim", "profile", "--help"], HELP_OF_PROFILE),
        (&["rv_sim", "path", "--help"], HELP_OF_PATH),
        (&["rv_sim", "compare", "--help"], HELP_OF_COMPARE),
        (&["rv_sim", "sensitivity", "--help"], HELP_OF_SENSITIVITY),
        (&["rv_sim", "--version"], VERSION),
    ];
    each_is_shown(&rt, rt.alloc(), &CASES, 0)
}

#[test]
fn mistakes_have_their_texts_with_a_hint_where_a_word_may_be_a_file(
    rt: HostRuntime,
) -> Result<(), Fail> {
    static CASES: [(&[&str], &str); 7] = [
        (&["rv_sim", "reference", "--limit", "0"], LIMIT_OF_ZERO),
        (&["rv_sim", "compare", "--limit=0"], LIMIT_OF_ZERO),
        (&["rv_sim", "picture", "--from", "1000000"], FROM_TOO_LATE),
        (&["rv_sim", "picture", "--cycles", "1001"], CYCLES_TOO_MANY),
        (&["rv_sim"], NO_COMMAND),
        (&["rv_sim", "run", "FILE"], FILE_AS_ARGUMENT),
        (&["rv_sim", "FILE"], FILE_AS_COMMAND),
    ];
    each_is_shown(&rt, rt.alloc(), &CASES, 2)
}
