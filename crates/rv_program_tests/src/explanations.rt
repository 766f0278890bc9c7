mod accesses;
mod crashes;
mod endings;
mod exceptions;
mod places;
mod predictions;
mod slowest;
mod untaken;
mod waits;

use crate::checks::{check_ended, check_fine, check_run};
use crate::helpers::{CORE, run_text};
use rv_command::Command;
use std::alloc::Global;
use std::process::Abort;

/// A run up to so many cycles that is explained in sentences, with its figures.
pub(crate) const EXPLAIN: Command = Command::Explain {
    figures: true,
    path: false,
    limit: 100,
};

/// A program, and a line of the explanation of its run.
#[derive(Clone, Copy)]
pub(crate) struct Explained {
    pub(crate) program: &'static str,
    pub(crate) line: &'static str,
}

/// Checks that the explanation of each program has the line beside it, with a status.
pub(crate) fn check_explained(rt: &impl Abort, alloc: Global, rows: &[Explained], status: u8) {
    for it in rows {
        check_run(rt, alloc, EXPLAIN, it.program, status, &[it.line]);
    }
}

const ADDITION: &[u8] = b"alu.units = 1
%%
addi x1,x0,5
ebreak
";

const SENTENCES: &[u8] = b"\
The run ended at a breakpoint, at 80000004, line 2: ebreak
cycles of instructions in flight: 6, of them 4 waiting for retirement (66.7%)
places for dispatch: 10, of them 1 retired (10.0%), 4 squashed by traps (40.0%), 4 lost: fetch gave no word (40.0%), 1 trapped (10.0%)
Longest at the head of the reorder buffer, or had flushed it, for 3 of 5 cycles: 80000000, line 1: addi x1,x0,5
Where the 10 places for dispatch went, 2 in each cycle:
squashed by traps                     4   40.0%  ####################
lost: fetch gave no word              4   40.0%  ####################
retired                               1   10.0%  #####
trapped                               1   10.0%  #####
cycles 5, retired instructions 1
cycles per instruction 5.000
busy            3   60.0%  ##############################
fetch           2   40.0%  ####################
of the busy cycles 1 dispatched something that retired, 2 only what did not
fetched words: 9, of them 6 squashed (66.7%)
branches and jumps: none
Where the 6 cycles of instructions in flight went:
in execution                          2   33.3%  #################
waiting for retirement                4   66.7%  #################################
loads: 0, of them 0 at the cost of a hit or of forwarding, 0 at that of a miss
drains: 0, of them 0 at the cost of a hit, 0 at that of a miss
The lines that stood longest at the head of the reorder buffer, or had flushed it, in cycles:
80000000, line 1: addi x1,x0,5
                3   60.0%  ##############################
80000004, line 2: ebreak
                1   20.0%  ##########
none: the reorder buffer was empty
                1   20.0%  ##########
";

#[test]
fn a_run_is_explained_with_the_lines_of_its_program(rt: HostRuntime) {
    let ended = run_text(rt.alloc(), EXPLAIN, ADDITION);
    check_ended(&rt, &ended, 0, SENTENCES, b"");
}

// Each of the four waits of the addition has one of the five cycles.
const ON_THE_PATH: &[u8] = b"\
On the critical path, 20.0 % of the cycles: front end, most at 80000000, line 1: addi x1,x0,5
On the critical path, 20.0 % of the cycles: dispatch to issue, most at 80000000, line 1: addi x1,x0,5
On the critical path, 20.0 % of the cycles: execution: alu, most at 80000000, line 1: addi x1,x0,5
";

#[test]
fn the_critical_path_comes_first_where_that_is_asked_for(rt: HostRuntime) {
    const WITH_PATH: Command = Command::Explain {
        figures: true,
        path: true,
        limit: 100,
    };
    let ended = run_text(rt.alloc(), WITH_PATH, ADDITION);
    let output = ended.output.as_slice();
    check_fine(&rt, &ended);
    assert!(&rt; output.starts_with(ON_THE_PATH));
    assert!(&rt; output.ends_with(SENTENCES));
    assert!(&rt; output.len() == ON_THE_PATH.len() + SENTENCES.len());
}

const REFUSED: &[u8] = b"\
line 4 of the job, line 2 of its assembly: BadOperands
    jal x1, 4
            ^
expected: jal symbol, as in 'jal loop'
expected: jal rd, symbol, as in 'jal x5, loop'
";

#[test]
fn a_job_that_is_refused_is_explained_by_its_line(rt: HostRuntime) {
    let job = b"alu.units = 1\n%%\nnop\njal x1, 4\n";
    let ended = run_text(rt.alloc(), EXPLAIN, job);
    check_ended(
        &rt,
        &ended,
        1,
        REFUSED,
        b"error: assembly line 2: BadOperands\n",
    );
    let run = run_text(rt.alloc(), CORE, job);
    assert!(&rt; run.output.is_empty());
}
