use crate::checks::{check_fine, check_lines};
use crate::helpers::{has_line, run_text};
use crate::programs::ADDITION;
use rv_command::Command;

// The addition was fetched in cycle 0, dispatched in 1, issued in 2, broadcast in 3, and retired in 4; from 1 to 3 it was left at the
// head.
const ADDITION_LINE: &str =
    "80000000\t1\taddi x1,x0,5\t1\t1\t0\t1.000\t1\t1.000\t1\t1.000\t1\t1.000\t1\t0\t0\t0\t3";

#[test]
fn the_lines_of_a_run_are_counted(rt: HostRuntime) {
    let profile = Command::Profile {
        path: false,
        limit: 100,
    };
    let ended = run_text(rt.alloc(), profile, ADDITION);
    check_fine(&rt, &ended);
    assert!(&rt; has_line(ended.output.as_slice(), ADDITION_LINE));
}

// Four of the six cycles lead to the retirement of the addition, and one to the trap of the breakpoint, which retires alone.
static PATH_LINES: [&str; 2] = [
    "80000000\t1\taddi x1,x0,5\t1\t1\t0\t1.000\t1\t1.000\t1\t1.000\t1\t1.000\t1\t0\t0\t0\t3\t4",
    "80000004\t2\tebreak\t1\t0\t0\t-\t-\t-\t-\t-\t-\t-\t-\t0\t0\t0\t1\t1",
];

#[test]
fn the_cycles_on_the_critical_path_are_counted_where_that_is_asked_for(rt: HostRuntime) {
    let profile = Command::Profile {
        path: true,
        limit: 100,
    };
    let ended = run_text(rt.alloc(), profile, ADDITION);
    check_fine(&rt, &ended);
    check_lines(&rt, ended.output.as_slice(), &PATH_LINES);
}
