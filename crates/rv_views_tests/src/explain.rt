use crate::checks::{check_bytes, check_end, check_has, check_start};
use crate::machine::{described, listing, no_arrivals};
use rv_core::Pipeline;
use rv_explain::{Figures, write_explanation};
use rv_front::NotTaken;
use rv_isa::{Description, Image, Values};
use std::alloc::Global;
use std::process::Abort;

// addi x1,x0,5; ecall
const BYTES: [u8; 8] = [0x93, 0x00, 0x50, 0x00, 0x73, 0x00, 0x00, 0x00];

const SENTENCES: &[u8] = b"\
The run was cut off at its limit of cycles, and the program stood at 00000000, which no line of the program fills
The first exception came in cycle 4: Environment call from M-mode, mtval 00000000, at 80000004, line 2: ecall
No handler was set (the address in mtvec was 0), and the program went on at 00000000
The last exception came in cycle 18: Instruction access fault, mtval 00000000, at 00000000, which no line of the program fills
No handler was set (the address in mtvec was 0), and the program went on at 00000000
Exceptions by cause and place:
      1 in cycle 4: Environment call from M-mode, at 80000004, line 2: ecall
      7 in cycles 6 to 18: Instruction access fault, at 00000000, which no line of the program fills
A program ends at ebreak
cycles of instructions in flight: 6, of them 4 waiting for retirement (66.7%)
places for dispatch: 40, of them 1 retired (2.5%), 26 lost: fetch gave no word (65.0%), 8 trapped (20.0%), 4 squashed by traps (10.0%)
Longest at the head of the reorder buffer, or had flushed it, for 3 of 20 cycles: 80000000, line 1: addi x1,x0,5
Where the 40 places for dispatch went, 2 in each cycle:
lost: fetch gave no word             26   65.0%  #################################
trapped                               8   20.0%  ##########
squashed by traps                     4   10.0%  #####
retired                               1    2.5%  #
in flight at the end                  1    2.5%  #
cycles 20, retired instructions 1
cycles per instruction 20.000
busy           11   55.0%  ############################
fetch           9   45.0%  #######################
of the busy cycles 1 dispatched something that retired, 10 only what did not
fetched words: 16, of them 6 squashed (37.5%)
branches and jumps: none
Where the 6 cycles of instructions in flight went:
in execution                          2   33.3%  #################
waiting for retirement                4   66.7%  #################################
loads: 0, of them 0 at the cost of a hit or of forwarding, 0 at that of a miss
drains: 0, of them 0 at the cost of a hit, 0 at that of a miss
The lines that stood longest at the head of the reorder buffer, or had flushed it, in cycles:
80000000, line 1: addi x1,x0,5
                3   15.0%  ########
80000004, line 2: ecall
                1    5.0%  ###
none: the reorder buffer was empty
                1    5.0%  ###
";

// A pipeline of a machine at reset with a program at the front of its RAM.
fn loaded(rt: &impl Abort, alloc: Global, description: &Description, program: &[u8]) -> Pipeline {
    let base = description.values().ram_base;
    let image = Image::from_bytes(alloc, base, program, base).expect(rt, "an image");
    Pipeline::new(alloc, description, &image).expect(rt, "a pipeline")
}

// The explanation of some cycles of a program with these lines, which stands where RAM begins.
fn explained(
    rt: &impl Abort,
    alloc: Global,
    base: u32,
    cycles: u64,
    figures: Figures,
    program: &[u8],
    lines: &[&str],
) -> Vec<u8> {
    let mut values = Values::standard();
    values.ram_base = base;
    let description = described(rt, values);
    let arrivals = no_arrivals(rt, alloc);
    let listing = listing(rt, alloc, lines);
    let mut output = Vec::new(alloc);
    let mut pipeline = loaded(rt, alloc, &description, program);
    write_explanation(
        alloc,
        &mut pipeline,
        &mut NotTaken,
        &description,
        &arrivals,
        cycles,
        figures,
        None,
        &listing,
        &mut output,
    )
    .expect(rt, "room");
    output
}

// The explanation of twenty cycles of a program with these lines.
fn explained_whole(rt: &impl Abort, alloc: Global, program: &[u8], lines: &[&str]) -> Vec<u8> {
    explained(rt, alloc, 0x8000_0000, 20, Figures::Always, program, lines)
}

// A call without a handler goes on at address 0, outside RAM, where each fetch traps again.
#[test]
fn a_trap_without_a_handler_is_explained(rt: HostRuntime) {
    let output = explained_whole(&rt, rt.alloc(), &BYTES, &["addi x1,x0,5", "ecall"]);
    check_bytes(&rt, output.as_slice(), SENTENCES);
}

// addi x1,x0,5; addi x2,x1,1; addi x3,x2,1; ebreak
const CHAIN: [u8; 16] = [
    0x93, 0x00, 0x50, 0x00, 0x13, 0x81, 0x10, 0x00, 0x93, 0x01, 0x11, 0x00, 0x73, 0x00, 0x10, 0x00,
];

// The first addition stands at the head after the cycles 1 to 3, the others, which no line fills, each after two of the nine. In the last
// cycle the breakpoint flushes the reorder buffer, which is empty in the first one, too.
const LINES_OF_CHAIN: &[u8] = b"
The lines that stood longest at the head of the reorder buffer, or had flushed it, in cycles:
80000000, line 1: addi x1,x0,5
                3   33.3%  #################
80000004, which no line of the program fills
                2   22.2%  ###########
80000008, which no line of the program fills
                2   22.2%  ###########
8000000c, which no line of the program fills
                1   11.1%  ######
none: the reorder buffer was empty
                1   11.1%  ######
";

#[test]
fn words_of_no_line_are_explained_each_by_itself(rt: HostRuntime) {
    let output = explained_whole(&rt, rt.alloc(), &CHAIN, &["addi x1,x0,5"]);
    check_end(&rt, output.as_slice(), LINES_OF_CHAIN);
}

// What is explained of a hundred cycles of a program at an address, unless it crashed its crash alone.
fn explained_at(rt: &impl Abort, alloc: Global, base: u32, program: &[u8]) -> Vec<u8> {
    explained(rt, alloc, base, 100, Figures::UnlessCrashed, program, &[])
}

// Checks how that begins.
fn check_beginning(rt: &impl Abort, alloc: Global, base: u32, program: &[u8], beginning: &str) {
    let output = explained_at(rt, alloc, base, program);
    check_start(rt, output.as_slice(), beginning.as_bytes());
}

// Checks that it has a part.
fn check_explained(rt: &impl Abort, alloc: Global, base: u32, program: &[u8], part: &str) {
    let output = explained_at(rt, alloc, base, program);
    check_has(rt, output.as_slice(), part);
}

// addi x1,x0,4; csrw mtvec,x1; ecall
const HANDLER_AT_4: [u8; 12] = [
    0x93, 0x00, 0x40, 0x00, 0x73, 0x90, 0x50, 0x30, 0x73, 0x00, 0x00, 0x00,
];

// The least address that is a handler's: no word of RAM is there, so the program traps again and again, at that address.
#[test]
fn a_handler_at_4_is_one(rt: HostRuntime) {
    let ending = "The run was cut off at its limit of cycles, and the program stood at 00000004";
    check_beginning(&rt, rt.alloc(), 0x8000_0000, &HANDLER_AT_4, ending);
}

// addi x1,x1,1; addi x2,x0,2; beq x1,x2,8; ecall; ebreak
const SECOND_TURN: [u8; 20] = [
    0x93, 0x80, 0x10, 0x00, 0x13, 0x01, 0x20, 0x00, 0x63, 0x84, 0x20, 0x00, 0x73, 0x00, 0x00, 0x00,
    0x73, 0x00, 0x10, 0x00,
];

// The call finds no handler, and the program goes on at its own first word, at address 0. The second turn ends at the breakpoint.
#[test]
fn a_run_that_ended_at_a_breakpoint_did_not_crash(rt: HostRuntime) {
    let ending = "The run ended at a breakpoint, at 00000010";
    check_beginning(&rt, rt.alloc(), 0, &SECOND_TURN, ending);
}

// addi x1,x0,5; div x2,x1,x1; add x3,x1,x2; ebreak
const SECOND_IS_LATER: [u8; 16] = [
    0x93, 0x00, 0x50, 0x00, 0x33, 0xc1, 0x10, 0x02, 0xb3, 0x81, 0x20, 0x00, 0x73, 0x00, 0x10, 0x00,
];

// The sum waits for its first operand in cycle 3, and then for the quotient, its second one, from cycle 4 up to its broadcast in 20.
#[test]
fn of_two_operands_the_first_that_is_missing_is_awaited(rt: HostRuntime) {
    let awaited = "Awaited most, for 17 of 24 cycles: 80000004, which no line of the program fills";
    check_explained(&rt, rt.alloc(), 0x8000_0000, &SECOND_IS_LATER, awaited);
}

// auipc x1,0; lw x2,256(x1); ebreak
const LOAD_THAT_MISSES: [u8; 12] = [
    0x97, 0x00, 0x00, 0x00, 0x03, 0xa1, 0x00, 0x10, 0x73, 0x00, 0x10, 0x00,
];

// sw x0,1024(x0); ebreak
const STORE_THAT_MISSES: [u8; 8] = [0x23, 0x20, 0x00, 0x40, 0x73, 0x00, 0x10, 0x00];

// beq x0,x0,8; addi x1,x0,1; ebreak
const WRONG_BRANCH: [u8; 12] = [
    0x63, 0x04, 0x00, 0x00, 0x93, 0x00, 0x10, 0x00, 0x73, 0x00, 0x10, 0x00,
];

// The load is issued in cycle 4, when it has its address, costs 11, and stands at the head from the end of cycle 4 to that
// of 15. The store has its address in cycle 3 and stands there up to its retirement in 4, in which its drain begins; the
// breakpoint traps in the same cycle. The branch retires in cycle 4, and leaves the reorder buffer empty in that one, too.
static LONGEST: [(u32, &[u8], &str); 3] = [
    (
        0x8000_0000,
        &LOAD_THAT_MISSES,
        "\nLongest at the head of the reorder buffer, or had flushed it, for 12 of 17 cycles (its loads: hits 0, misses 1, write-backs 0): 80000004, which",
    ),
    (
        0,
        &STORE_THAT_MISSES,
        "\nLongest at the head of the reorder buffer, or had flushed it, for 3 of 5 cycles (its stores: hits 0, misses 1, write-backs 0): 00000000, which",
    ),
    (
        0,
        &WRONG_BRANCH,
        "\nLongest at the head of the reorder buffer, or had flushed it, for 4 of 7 cycles (its branches and jumps: 1, of them 1 mispredicted): 00000000, which",
    ),
];

#[test]
fn the_line_that_stood_longest_at_the_head_is_named_with_what_it_did(rt: HostRuntime) {
    for (base, program, line) in &LONGEST {
        check_explained(&rt, rt.alloc(), *base, program, line);
    }
}

// auipc x1,0; lw x2,256(x1); sw x0,256(x1); jal x0,0
const STORE_THAT_HITS: [u8; 16] = [
    0x97, 0x00, 0x00, 0x00, 0x03, 0xa1, 0x00, 0x10, 0x23, 0xa0, 0x00, 0x10, 0x6f, 0x00, 0x00, 0x00,
];

// The load brought the line in, to which the store is drained.
#[test]
fn a_drain_into_a_line_that_is_there_hits(rt: HostRuntime) {
    let drains = "drains: 1, of them 1 at the cost of a hit, 0 at that of a miss";
    check_explained(&rt, rt.alloc(), 0x8000_0000, &STORE_THAT_HITS, drains);
}
