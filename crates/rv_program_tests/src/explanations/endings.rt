use crate::checks::{check_run, check_without};
use crate::explanations::{EXPLAIN, Explained, check_explained};
use crate::programs::STORE_INTO_CODE;
use rv_command::Command;

#[test]
fn a_stale_word_that_is_explained_gives_status_3(rt: HostRuntime) {
    static LINES: [&str; 2] = [
        "The run ended at a word that was stored to and then fetched without a FENCE.I in between, at 80000014, line 4: t: addi x7,x0,2",
        "The last store to that word was the one at 80000010, line 3: sw x6,0(x5)",
    ];
    check_run(&rt, rt.alloc(), EXPLAIN, STORE_INTO_CODE, 3, &LINES);
}

#[test]
fn a_run_that_is_cut_off_stands_at_the_first_that_has_not_retired(rt: HostRuntime) {
    static LINES: [&str; 3] = [
        "The run was cut off at its limit of cycles, and the program stood at 80000000, line 1: addi x1,x0,5",
        "cycles 4, retired instructions 0",
        "cycles per instruction -",
    ];
    let command = Command::Explain {
        figures: false,
        path: false,
        limit: 4,
    };
    let program = "addi x1,x0,5\nebreak";
    check_run(&rt, rt.alloc(), command, program, 0, &LINES);
}

// Two stores to the word that is fetched then, and one to the word after it.
const STORES_INTO_CODE: &str = "la x5,t
li x6,0x00100393
sw x6,0(x5)
sw x6,0(x5)
sw x6,4(x5)
t: addi x7,x0,2
ebreak
";

// The store retires in the cycle in which the register of its address is written, and puts the last byte of the word.
const STORE_OF_A_BYTE: &str = "la x5,t
li x6,0
div x7,x6,x6
nop
addi x5,x5,4
sb x6,-1(x5)
t: addi x7,x0,2
ebreak
";

#[test]
fn the_last_store_to_the_stale_word_is_named(rt: HostRuntime) {
    static ROWS: [Explained; 2] = [
        Explained {
            program: STORES_INTO_CODE,
            line: "The last store to that word was the one at 80000014, line 4: sw x6,0(x5)",
        },
        Explained {
            program: STORE_OF_A_BYTE,
            line: "The last store to that word was the one at 80000018, line 6: sb x6,-1(x5)",
        },
    ];
    check_explained(&rt, rt.alloc(), &ROWS, 3);
}

const TO_ITSELF: &str = "This return goes to itself: ra was overwritten by a call and not restored";

// The call leaves in ra the address of the return after it.
#[test]
fn a_return_that_goes_to_itself_is_explained_so(rt: HostRuntime) {
    static LINES: [&str; 2] = [
        "The run was cut off at its limit of cycles, and the program stood at 80000004, line 2: ret",
        TO_ITSELF,
    ];
    let program = "call f\nret\nf: ret\n";
    check_run(&rt, rt.alloc(), EXPLAIN, program, 0, &LINES);
}

// A jump to itself; returns that go on elsewhere; a return to a call that its handler leads back from; and one that
// goes to a breakpoint, whose handler it is.
const OTHERS: [&str; 4] = [
    "l: j l",
    "l: call f\nj l\nf: ret",
    "la x5,h\ncsrw mtvec,x5\nla ra,e\nl: ret\ne: ecall\nh: j l",
    "la x5,l\ncsrw mtvec,x5\nla ra,e\nl: ret\ne: ebreak",
];

// Some of these limits cut a run off right after a return.
#[test]
fn no_other_end_is_one_in_a_return_that_goes_to_itself(rt: HostRuntime) {
    for limit in 20..36 {
        for program in OTHERS {
            let command = Command::Explain {
                figures: true,
                path: false,
                limit,
            };
            check_without(&rt, rt.alloc(), command, program, TO_ITSELF);
        }
    }
}
