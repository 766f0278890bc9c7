use crate::checks::{check, check_bytes};
use crate::log::logged;
use crate::machine::narrow;
use rv_arch::Stop;

// beq x0,x0,8; addi x2,x0,1; addi x1,x0,5; ebreak
const PROGRAM: &[u8] = &[
    0x63, 0x04, 0x00, 0x00, 0x13, 0x01, 0x10, 0x00, 0x93, 0x00, 0x50, 0x00, 0x73, 0x00, 0x10, 0x00,
];

static LINES: [&str; 4] = ["beq x0,x0,8", "addi x2,x0,1", "addi x1,x0,5", "ebreak"];

// The cycles 4 to 8. The branch retires in 4, which squashes the three instructions that were fetched after it, and its target is
// fetched then, as instruction 4; that is the second that retires, in 8.
const LOG: &[u8] = b"Kanata\t0004
C=\t4
I\t0\t0\t0
L\t0\t0\t80000000: beq x0,x0,8
I\t1\t1\t0
L\t1\t0\t80000004: addi x2,x0,1
I\t2\t2\t0
L\t2\t0\t80000008: addi x1,x0,5
I\t3\t3\t0
L\t3\t0\t8000000c: ebreak
S\t0\t0\tC
I\t4\t4\t0
L\t4\t0\t80000008: addi x1,x0,5
S\t4\t0\tF
C\t1
L\t0\t1\tretired, cost 1, predicted 80000004, but went on at 80000008
R\t0\t0\t0
L\t1\t1\tsquashed, cost 1
R\t1\t1\t1
L\t2\t1\tsquashed
R\t2\t2\t1
L\t3\t1\tsquashed
R\t3\t3\t1
S\t4\t0\tD
I\t5\t5\t0
L\t5\t0\t8000000c: ebreak
S\t5\t0\tF
C\t1
S\t4\t0\tX
S\t5\t0\tD
I\t6\t6\t0
L\t6\t0\t80000010: 00000000
S\t6\t0\tF
C\t1
S\t4\t0\tB
S\t6\t0\tD
I\t7\t7\t0
L\t7\t0\t80000014: 00000000
S\t7\t0\tF
C\t1
S\t4\t0\tC
S\t7\t0\tD
I\t8\t8\t0
L\t8\t0\t80000018: 00000000
S\t8\t0\tF
C\t1
L\t4\t1\tretired, x1 (ra) = 00000005, cost 1
R\t4\t1\t0
";

#[test]
fn a_log_that_begins_in_a_run_counts_what_retires(rt: HostRuntime) {
    let (stop, text) = logged(&rt, rt.alloc(), narrow(), PROGRAM, &LINES, 4, 5);
    check(&rt, stop == Stop::Limit);
    check_bytes(&rt, text.as_slice(), LOG);
}
