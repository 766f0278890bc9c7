use crate::explanations::{Explained, check_explained};

// Lines that are high at the end of the run, and what keeps each from being taken: the program enables interrupts all but for one bit, sets
// neither bit, or waits while each external interrupt comes before that of the timer. A line that falls begins anew when it rises.
static UNTAKEN: [Explained; 6] = [
    Explained {
        program: "ram_base = 0\n%%\n[[arrival]]\ncycle = 50\nline = \"timer\"\n%%\nli t0, 128\ncsrw mie, t0\nl: j l",
        line: "The timer line is high from cycle 50 on, and was never taken: mstatus.MIE is 0",
    },
    Explained {
        program: "ram_base = 0\n%%\n[[arrival]]\ncycle = 50\nline = \"timer\"\n%%\ncsrsi mstatus, 8\nl: j l",
        line: "The timer line is high from cycle 50 on, and was never taken: mie.MTIE is 0",
    },
    Explained {
        program: FALLS,
        line: "The software line is high from cycle 40 on, and was never taken: mstatus.MIE and mie.MSIE are 0",
    },
    Explained {
        program: FALLS,
        line: "The timer line is high from cycle 20 on, and was never taken: mstatus.MIE and mie.MTIE are 0",
    },
    Explained {
        program: PASSED,
        line: "The timer line is high from cycle 20 on, and was never taken: a higher one was taken, and mstatus.MIE is 0",
    },
    Explained {
        program: "ram_base = 0\n%%\n[[arrival]]\ncycle = 0\nline = \"external\"\n%%\nlui t0, 1\nsrli t0, t0, 1\ncsrw mie, t0\nl: j l",
        line: "The external line is high from cycle 0 on, and was never taken: mstatus.MIE is 0",
    },
];

const FALLS: &str = "ram_base = 0
%%
[[arrival]]
cycle = 20
line = \"timer\"
[[arrival]]
cycle = 30
line = \"software\"
[[arrival]]
cycle = 31
line = \"software\"
level = 0
[[arrival]]
cycle = 40
line = \"software\"
%%
l: j l
";

const PASSED: &str = "%%
[[arrival]]
cycle = 20
line = \"timer\"
[[arrival]]
cycle = 20
line = \"external\"
%%
la   t0, h
csrw mtvec, t0
li   t0, 2176
csrw mie, t0
csrsi mstatus, 8
l: j l
h: mret
";

#[test]
fn a_line_that_is_never_taken_is_named_with_what_stands_in_its_way(rt: HostRuntime) {
    check_explained(&rt, rt.alloc(), &UNTAKEN, 0);
}
