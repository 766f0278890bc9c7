use crate::explanations::{EXPLAIN, Explained, check_explained};
use crate::helpers::run_text;

// In cycle 0 nothing is there to dispatch. In 1 the first addition takes the one station, and the second waits for it: one place is
// lost. In 2 the second and the breakpoint are dispatched, in 3 and 4 two words each after it, which its trap squashes in 5. After its
// dispatch each addition is in execution or broadcast for two cycles and then retires. The breakpoint waits for its retirement for two, and
// two of the words after it for one.
const ONE_STATION: &[u8] = b"alu.stations = 1
%%
addi x1,x0,5
addi x2,x0,6
ebreak
";

const SENTENCES: &[u8] = b"\
The run ended at a breakpoint, at 80000008, line 3: ebreak
cycles of instructions in flight: 8, of them 4 waiting for retirement (50.0%)
places for dispatch: 12, of them 2 retired (16.7%), 4 squashed by traps (33.3%), 4 lost: fetch gave no word (33.3%), 1 trapped (8.3%)
Longest at the head of the reorder buffer, or had flushed it, for 3 of 6 cycles: 80000000, line 1: addi x1,x0,5
Where the 12 places for dispatch went, 2 in each cycle:
squashed by traps                     4   33.3%  #################
lost: fetch gave no word              4   33.3%  #################
retired                               2   16.7%  ########
trapped                               1    8.3%  ####
lost: alu stations full               1    8.3%  ####
cycles 6, retired instructions 2
";

#[test]
fn each_place_is_used_or_lost(rt: HostRuntime) {
    let ended = run_text(rt.alloc(), EXPLAIN, ONE_STATION);
    assert!(&rt; ended.output.as_slice().starts_with(SENTENCES));
}

// What places are lost for, and how many of them: in a buffer for one instruction, after a CSR instruction that waits for a division, by
// divisions with one station, by a second store with a queue of one. And how many instructions after a branch are squashed that is
// taken against its prediction, when it retires or, early, at its broadcast.
static LINES: [Explained; 6] = [
    Explained {
        program: "rob = 1\n%%\naddi x1,x0,1\nebreak",
        line: "lost: reorder buffer full             6   50.0%  #########################",
    },
    Explained {
        program: "div x6,x0,x0\ncsrrs x5,mip,x0\nebreak",
        line: "lost: serialising in flight          34   77.3%  #######################################",
    },
    Explained {
        program: "div.stations = 1\nrob = 3\n%%\ndiv x3,x1,x1\ndiv x4,x3,x1\ndiv x5,x1,x1\nebreak",
        line: "lost: div stations full              34   32.1%  ################",
    },
    Explained {
        program: "store_queue = 1\n%%\nlui x5,0x80001\nsw x0,0(x5)\nsw x0,4(x5)\nebreak",
        line: "lost: store queue full               30   71.4%  ####################################",
    },
    Explained {
        program: "predictor.kind = \"not_taken\"\n%%\nbeq x0,x0,l\naddi x1,x0,1\nl: ebreak",
        line: "squashed by wrong predictions         5   35.7%  ##################",
    },
    Explained {
        program: "predictor.kind = \"not_taken\"\nrecovery = \"early\"\n%%\nbeq x0,x0,l\naddi x1,x0,1\nl: ebreak",
        line: "squashed by wrong predictions         3   25.0%  #############",
    },
];

#[test]
fn each_reason_has_its_places(rt: HostRuntime) {
    check_explained(&rt, rt.alloc(), &LINES, 0);
}
