use crate::checks::{check_run, check_status};
use crate::explanations::EXPLAIN;
use crate::helpers::run_text;

// The breakpoint in the last word stands at the head after the cycle in which the jump retires, and flushes in the next one.
const LAST_WORD: &str = "ram_size = 4096
commit_width = 1
%%
j e
.zero 4088
e: ebreak
";

#[test]
fn the_last_word_of_memory_is_counted(rt: HostRuntime) {
    static LINES: [&str; 2] = [
        "80000ffc, line 3: e: ebreak",
        "                2   33.3%  #################",
    ];
    check_run(&rt, rt.alloc(), EXPLAIN, LAST_WORD, 0, &LINES);
}

// A loop of five rounds of 7 cycles, but for the first, which waits for the division. Each branch back is mispredicted.
const LOOP: &[u8] = b"predictor.kind = \"not_taken\"
%%
li x1,5
div x3,x1,x1
l: li x2,0x12345678
addi x1,x1,-1
bnez x1,l
ebreak
";

// The division stands at the head after the cycles 4 to 20. The two words of `li` stand there for 3 and 2 cycles of each
// later round, the second for 1 of the first round. After each wrong prediction the buffer is empty for a cycle, and in the first cycle.
const LINES_OF_LOOP: &[u8] = b"
The lines that stood longest at the head of the reorder buffer, or had flushed it, in cycles:
80000008, line 3: l: li x2,0x12345678
               21   40.4%  ####################
80000004, line 2: div x3,x1,x1
               17   32.7%  ################
80000014, line 5: bnez x1,l
                9   17.3%  #########
80000000, line 1: li x1,5
                3    5.8%  ###
80000018, line 6: ebreak
                1    1.9%  #
none: the reorder buffer was empty
                1    1.9%  #
";

#[test]
fn the_words_of_a_line_are_counted_together(rt: HostRuntime) {
    let ended = run_text(rt.alloc(), EXPLAIN, LOOP);
    check_status(&rt, &ended, 0);
    assert!(&rt; ended.output.as_slice().ends_with(LINES_OF_LOOP));
}

// Each addition waits for the one before it.
const CHAIN: &[u8] = b"li x1,5
mul x2,x1,x1
addi x3,x2,1
addi x4,x3,1
addi x5,x4,1
addi x6,x5,1
ebreak
";

// The multiplication stands at the head after the cycles 4 to 7, each addition after the next two.
const LINES_OF_CHAIN: &[u8] = b"
The lines that stood longest at the head of the reorder buffer, or had flushed it, in cycles:
80000004, line 2: mul x2,x1,x1
                4   23.5%  ############
80000000, line 1: li x1,5
                3   17.6%  #########
80000008, line 3: addi x3,x2,1
                2   11.8%  ######
8000000c, line 4: addi x4,x3,1
                2   11.8%  ######
80000010, line 5: addi x5,x4,1
                2   11.8%  ######
none: the reorder buffer was empty
                1    5.9%  ###
";

#[test]
fn of_equal_lines_the_first_are_named(rt: HostRuntime) {
    let ended = run_text(rt.alloc(), EXPLAIN, CHAIN);
    check_status(&rt, &ended, 0);
    assert!(&rt; ended.output.as_slice().ends_with(LINES_OF_CHAIN));
}
