use crate::explanations::{EXPLAIN, Explained, check_explained};
use crate::helpers::run_text;
use std::alloc::Global;
use std::process::Abort;
use std::str;

// A loop of five rounds, of which four go back, and a jump; a handler that returns by MRET, which is neither; and a call that comes
// back. The predictor follows jumps by their offsets alone.
static PREDICTIONS: [Explained; 3] = [
    Explained {
        program: "predictor.kind = \"not_taken\"\n%%\nli x1,5\nl: addi x1,x1,-1\nbnez x1,l\nj e\nnop\ne: ebreak",
        line: "branches and jumps: 6, of them 4 mispredicted (66.7%)",
    },
    Explained {
        program: "predictor.kind = \"not_taken\"\n%%\nla x31,h\ncsrw mtvec,x31\necall\nebreak\nh: csrr x5,mepc\naddi x5,x5,4\ncsrw mepc,x5\nmret",
        line: "branches and jumps: none",
    },
    Explained {
        program: "predictor.kind = \"not_taken\"\n%%\ncall f\nebreak\nf: ret",
        line: "branches and jumps: 2, of them 1 mispredicted (50.0%)",
    },
];

#[test]
fn branches_and_jumps_that_retired_are_counted(rt: HostRuntime) {
    check_explained(&rt, rt.alloc(), &PREDICTIONS, 0);
}

// Four lines have wrong predictions, the loop two, the others one each. The last branch is squashed after the one before it.
const FOUR_LINES: Explained = Explained {
    program: "predictor.kind = \"not_taken\"
%%
li x1,3
beqz x0,a
nop
a: beqz x0,b
nop
b: addi x1,x1,-1
bnez x1,b
beqz x0,c
beqz x0,c
c: ebreak
",
    line: "
branches and jumps: 6, of them 5 mispredicted (83.3%)
The lines with the most wrong predictions:
80000018, line 7: bnez x1,b
       retired 3, of them 2 mispredicted (66.7%)
80000004, line 2: beqz x0,a
       retired 1, of them 1 mispredicted (100.0%)
8000000c, line 4: a: beqz x0,b
       retired 1, of them 1 mispredicted (100.0%)
Where the ",
};

// Two branches of one line: the first goes to the second, where fetch goes, too, and the second goes past the jump.
const ONE_LINE: Explained = Explained {
    program: "predictor.kind = \"not_taken\"
%%
nop
.word 0x00000263, 0x00000463
j e
e: ebreak
",
    line: "
branches and jumps: 2, of them 1 mispredicted (50.0%)
The lines with the most wrong predictions:
80000004, line 2: .word 0x00000263, 0x00000463
       retired 2, of them 1 mispredicted (50.0%)
Where the ",
};

// The jump goes where it is predicted to go.
const NO_LINE: Explained = Explained {
    program: "j e
nop
e: ebreak
",
    line: "
branches and jumps: 1, of them 0 mispredicted (0.0%)
Where the ",
};

// Checks that the explanation of a program has some lines, one after another.
fn check_together(rt: &impl Abort, alloc: Global, explained: Explained) {
    let ended = run_text(alloc, EXPLAIN, explained.program.as_bytes());
    let text = str::from_utf8(ended.output.as_slice()).expect(rt, "ASCII");
    assert!(rt; text.contains(explained.line), "{text}");
}

#[test]
fn the_lines_with_the_most_wrong_predictions_are_named(rt: HostRuntime) {
    check_together(&rt, rt.alloc(), FOUR_LINES);
    check_together(&rt, rt.alloc(), ONE_LINE);
    check_together(&rt, rt.alloc(), NO_LINE);
}
