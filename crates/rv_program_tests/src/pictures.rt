use crate::checks::{check_ended, check_fine};
use crate::helpers::run_text;
use crate::programs::ADDITION;
use rv_command::Command;

// The cycles 2 to 4: the addition is issued in 2, its result broadcast in 3, and it retires in 4.
const THREE_CYCLES: &[u8] = b"\
\x20                                                            \x20
80000000 addi x1,x0,5                     x1/ra=00000005   IBC
80000004 ebreak                           -                D..
80000008 00000000                         -                FD.
8000000c 00000000                         -                 FD
80000010 00000000                         -                  F
F fetch  D dispatch  I issue  = execution  ~ wait for the bus  B broadcast  C retirement  T trap  x squash  . wait  ! interrupt
";

#[test]
fn the_cycles_in_view_are_shown_with_the_lines_of_the_program(rt: HostRuntime) {
    const THREE: Command = Command::Picture {
        text: true,
        retired: false,
        path: false,
        from: 2,
        cycles: 3,
    };
    let ended = run_text(rt.alloc(), THREE, ADDITION);
    check_ended(&rt, &ended, 0, THREE_CYCLES, b"");
}

// The same cycles: the events of the addition lead to its retirement, the last one up to the end of the picture.
const THREE_MARKED: &[u8] = b"\
\x20                                                            \x20
80000000 addi x1,x0,5                     x1/ra=00000005   ibc
80000004 ebreak                           -                D..
80000008 00000000                         -                FD.
8000000c 00000000                         -                 FD
80000010 00000000                         -                  F
F fetch  D dispatch  I issue  = execution  ~ wait for the bus  B broadcast  C retirement  T trap  x squash  . wait  ! interrupt
In lower case, or * in place of = ~ x . : on the critical path
";

#[test]
fn the_critical_path_is_marked_where_that_is_asked_for(rt: HostRuntime) {
    const THREE: Command = Command::Picture {
        text: true,
        retired: false,
        path: true,
        from: 2,
        cycles: 3,
    };
    let ended = run_text(rt.alloc(), THREE, ADDITION);
    check_ended(&rt, &ended, 0, THREE_MARKED, b"");
}

// The run ends in cycle 5.
const AFTER_THE_END: &[u8] = b"\
\x20                                                         \x20
The run ended after 6 cycles, before those of this picture.
F fetch  D dispatch  I issue  = execution  ~ wait for the bus  B broadcast  C retirement  T trap  x squash  . wait  ! interrupt
";

const REPORTED: &[u8] = b"note: the run ended after 6 cycles, before those of the picture\n";

#[test]
fn a_picture_is_an_svg_where_no_text_is_asked_for(rt: HostRuntime) {
    const DRAWN: Command = Command::Picture {
        text: false,
        retired: false,
        path: false,
        from: 0,
        cycles: 6,
    };
    let ended = run_text(rt.alloc(), DRAWN, ADDITION);
    check_fine(&rt, &ended);
    let svg = ended.output.as_slice();
    assert!(&rt; svg.starts_with(b"<svg xmlns='http://www.w3.org/2000/svg' "));
    assert!(&rt; svg.ends_with(b"</svg>\n"));
}

// The whole run without the three words that the breakpoint squashes.
const WITHOUT_SQUASHED: &[u8] = b"\
\x20                                                          0        \x20
80000000 addi x1,x0,5                     x1/ra=00000005   FDIBC\x20
80000004 ebreak                           -                 FD..T
00000000 -                                -                     F
F fetch  D dispatch  I issue  = execution  ~ wait for the bus  B broadcast  C retirement  T trap  x squash  . wait  ! interrupt
";

#[test]
fn squashed_rows_are_left_out_where_that_is_asked_for(rt: HostRuntime) {
    const DRAWN: Command = Command::Picture {
        text: true,
        retired: true,
        path: false,
        from: 0,
        cycles: 60,
    };
    let ended = run_text(rt.alloc(), DRAWN, ADDITION);
    check_ended(&rt, &ended, 0, WITHOUT_SQUASHED, b"");
}

// The run ends in cycle 5, so after six cycles.
#[test]
fn a_picture_after_the_end_of_a_run_says_so_and_is_reported(rt: HostRuntime) {
    for retired in [false, true] {
        let after = Command::Picture {
            text: true,
            retired,
            path: false,
            from: 7,
            cycles: 3,
        };
        let ended = run_text(rt.alloc(), after, ADDITION);
        check_ended(&rt, &ended, 0, AFTER_THE_END, REPORTED);
    }
}
