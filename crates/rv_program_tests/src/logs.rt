use crate::checks::check_fine;
use crate::helpers::run_text;
use crate::programs::ADDITION;
use rv_command::Command;

// In cycle 0 the addition is fetched.
const FIRST_CYCLE: &[u8] = b"Kanata\t0004
C=\t0
I\t0\t0\t0
L\t0\t0\t80000000: addi x1,x0,5
S\t0\t0\tF
C\t1
";

#[test]
fn the_cycles_of_a_run_are_logged_with_the_lines_of_its_program(rt: HostRuntime) {
    let ended = run_text(rt.alloc(), Command::Log { limit: 5 }, ADDITION);
    check_fine(&rt, &ended);
    assert!(&rt; ended.output.as_slice().starts_with(FIRST_CYCLE));
}
