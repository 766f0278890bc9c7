use crate::checks::{check, check_bytes};
use crate::log::logged;
use crate::machine::narrow;
use rv_arch::Stop;

// One addition and a breakpoint.
const PROGRAM: &[u8] = &[0x93, 0x00, 0x50, 0x00, 0x73, 0x00, 0x10, 0x00];

static LINES: [&str; 2] = [
    "addi\tx1",
    "ebreak # a label has at most sixty-four bytes of a line of the source text",
];

// The addition is fetched in cycle 0, dispatched in 1, issued in 2, broadcast in 3 and retired in 4; the breakpoint traps in 5,
// which flushes what was fetched after it, and fetches where mtvec points to, outside RAM. A viewer ends an instruction's last
// stage where it reads the R, so that this stands after the C of the cycle.
const LOG: &[u8] = b"Kanata\t0004
C=\t0
I\t0\t0\t0
L\t0\t0\t80000000: addi x1
S\t0\t0\tF
C\t1
S\t0\t0\tD
I\t1\t1\t0
L\t1\t0\t80000004: ebreak # a label has at most sixty-four bytes of a line of the s
S\t1\t0\tF
C\t1
S\t0\t0\tX
S\t1\t0\tD
I\t2\t2\t0
L\t2\t0\t80000008: 00000000
S\t2\t0\tF
C\t1
S\t0\t0\tB
S\t2\t0\tD
I\t3\t3\t0
L\t3\t0\t8000000c: 00000000
S\t3\t0\tF
C\t1
S\t0\t0\tC
S\t3\t0\tD
I\t4\t4\t0
L\t4\t0\t80000010: 00000000
S\t4\t0\tF
C\t1
L\t0\t1\tretired, x1 (ra) = 00000005, cost 1
R\t0\t0\t0
I\t5\t5\t0
L\t5\t0\t00000000: -
S\t5\t0\tF
C\t1
L\t1\t1\ttrapped, cause 3, waited 2 for the head
R\t1\t1\t1
L\t2\t1\tsquashed, waited 1 for the head
R\t2\t2\t1
L\t3\t1\tsquashed
R\t3\t3\t1
L\t4\t1\tsquashed
R\t4\t4\t1
";

#[test]
fn an_addition_passes_through_each_stage(rt: HostRuntime) {
    let (stop, text) = logged(&rt, rt.alloc(), narrow(), PROGRAM, &LINES, 0, 100);
    check(&rt, stop == Stop::Breakpoint);
    check_bytes(&rt, text.as_slice(), LOG);
}
