//! What help says of the program and of its commands.

/// What help says of a command: in a line what it does, and at the end what it reads, an example and the exit
/// statuses.
pub(crate) struct CommandHelp {
    pub(crate) about: &'static str,
    pub(crate) ending: &'static str,
}

/// What help says of a command that takes a flag and a limit, and of both.
pub(crate) struct FlaggedHelp {
    pub(crate) texts: CommandHelp,
    pub(crate) flag: &'static str,
    pub(crate) limit: &'static str,
}

/// What help says of a command that takes a limit and nothing else, and of the limit.
pub(crate) struct LimitedHelp {
    pub(crate) texts: CommandHelp,
    pub(crate) limit: &'static str,
}

const STEPS: &str = "The most steps, 1 to 1000000";

pub(crate) const CYCLES: &str = "The most cycles, 1 to 1000000";

const CYCLES_OF_EACH: &str = "The most cycles of each run, 1 to 1000000";

// The end of the help of a command that runs a job.
macro_rules! ending_of_run {
    ($example:literal) => {
        concat!(
            "Reads a job from standard input, as in:\n  ",
            $example,
            "\n
Exit status:
  0  the run ended by a breakpoint or its limit
  1  the job was refused
  2  wrong usage
  3  the run stopped at a stale word
  4  standard input or output failed
  5  out of memory",
        )
    };
}

pub(crate) static PROGRAM: CommandHelp = CommandHelp {
    about: "Simulates a RISC-V core",
    ending: "A job is a program in assembly; or a description of the machine in TOML, a line %%, and a program;
or a description, %%, interrupt arrivals in TOML, %%, and a program.

Example:
  printf 'addi x1,x0,5\\nebreak\\n' | rv_sim run --trace",
};

pub(crate) static RUN: FlaggedHelp = FlaggedHelp {
    texts: CommandHelp {
        about: "Runs the text on standard input on the core, cycle by cycle",
        ending: ending_of_run!("rv_sim run --trace < FILE"),
    },
    flag: "Begins the report with a line for each step",
    limit: CYCLES,
};

pub(crate) static REFERENCE: LimitedHelp = LimitedHelp {
    texts: CommandHelp {
        about: "Runs the text on standard input, one step at a time",
        ending: ending_of_run!("rv_sim reference < FILE"),
    },
    limit: STEPS,
};

pub(crate) static CHECK: CommandHelp = CommandHelp {
    about: "Assembles the text on standard input",
    ending: "Reads a job from standard input, and of it not the arrivals, as in:
  rv_sim check < FILE

Exit status:
  0  the program was assembled
  1  the job was refused
  2  wrong usage
  4  standard input or output failed
  5  out of memory",
};

pub(crate) static PICTURE: CommandHelp = CommandHelp {
    about: "Draws some cycles of a run of the text on standard input",
    ending: "Reads a job from standard input, runs it up to the last of those cycles, and draws a column for each
of them and a row for each instruction that was in the core then, as in:
  rv_sim picture --from 100 --cycles 40 < FILE > FILE.svg
  rv_sim picture --text < FILE

Exit status:
  0  the run ended by a breakpoint or with the last of those cycles
  1  the job was refused
  2  wrong usage
  3  the run stopped at a stale word
  4  standard input or output failed
  5  out of memory",
};

pub(crate) static LOG: LimitedHelp = LimitedHelp {
    texts: CommandHelp {
        about: "Writes a run of the text on standard input as a log for pipeline viewers (Konata)",
        ending: ending_of_run!("rv_sim log < FILE > FILE.log"),
    },
    limit: CYCLES,
};

// The end of the help of a command that shows some cycles.
macro_rules! ending_of_states {
    ($beginning:literal, $example:literal) => {
        concat!(
            "Reads a job from standard input, runs it up to the last of those cycles, and ",
            $beginning,
            ", as in:\n  ",
            $example,
            "\n
Exit status:
  0  the run ended by a breakpoint or with the last of those cycles
  1  the job was refused
  2  wrong usage
  3  the run stopped at a stale word
  4  standard input or output failed
  5  out of memory",
        )
    };
}

pub(crate) static STATES: CommandHelp = CommandHelp {
    about: "Writes the hardware in some cycles of a run of the text on standard input, as lines of JSON",
    ending: ending_of_states!(
        "writes a line for each of them:
what happened in it, and the whole hardware after it",
        "rv_sim states --from 100 --cycles 40 < FILE"
    ),
};

pub(crate) static PAGE: CommandHelp = CommandHelp {
    about: "Makes a page of some cycles of a run of the text on standard input, to step through in a browser",
    ending: ending_of_states!(
        "writes one file, which a browser
opens from disk: the states of those cycles and a viewer of them",
        "rv_sim page --from 100 --cycles 40 < FILE > FILE.html"
    ),
};

pub(crate) static EXPLAIN: CommandHelp = CommandHelp {
    about: "Says in sentences how a run of the text on standard input went",
    ending: ending_of_run!("rv_sim explain < FILE"),
};

pub(crate) static PROFILE: FlaggedHelp = FlaggedHelp {
    texts: CommandHelp {
        about: "Writes a table of what each line of the text on standard input cost in a run",
        ending: ending_of_run!("rv_sim profile < FILE"),
    },
    flag: "Adds each line's cycles on the critical path, by a second run",
    limit: CYCLES,
};

pub(crate) static PATH: LimitedHelp = LimitedHelp {
    texts: CommandHelp {
        about: "Writes which causes and lines have the cycles of the critical path of a run of the text on standard input",
        ending: ending_of_run!("rv_sim path < FILE"),
    },
    limit: CYCLES,
};

pub(crate) static COMPARE: LimitedHelp = LimitedHelp {
    texts: CommandHelp {
        about: "Runs one program on several machines, and compares their totals",
        ending: "Reads from standard input up to 64 descriptions of machines in TOML, a line %% after each, and a program,
as in:
  rv_sim compare --show a0 < FILE

Writes a line for each machine, in their order, its cells with a tab between two: its number, the
counts of its run, its name, why the run ended, and more counts. No machine of a comparison has
interrupt arrivals.

Exit status:
  0  the table was written; its column stop says how each run ended
  1  a description or the program was refused
  2  wrong usage
  4  standard input or output failed
  5  out of memory",
    },
    limit: CYCLES_OF_EACH,
};

pub(crate) static SENSITIVITY: LimitedHelp = LimitedHelp {
    texts: CommandHelp {
        about: "Says which key of the machine would help the text on standard input",
        ending: "Reads a job from standard input and runs it on its machine and on machines that differ in one key:
each size and width twice as large, each latency and cost half as long, a kind pipelined, the other
recovery, the other predictors, and all widths at once, each within its key's range, as in:
  rv_sim sensitivity < FILE
  rv_sim sensitivity --also rob=64 --also predictor.kind=not_taken < FILE

Writes a line for the machine as it is and one for each other, the fewest cycles first, its cells with
a tab between two: the key, its value and the one tried, the cycles, how many thousandths of the cycles
that is more or less, and why the run ended.

Exit status:
  0  the table was written; its column stop says how each run ended
  1  the job was refused
  2  wrong usage
  4  standard input or output failed
  5  out of memory",
    },
    limit: CYCLES_OF_EACH,
};
