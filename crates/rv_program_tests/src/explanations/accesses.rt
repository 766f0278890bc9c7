use crate::checks::check_run;
use crate::explanations::{EXPLAIN, Explained, check_explained};

// A load that misses, one that hits, and one whose bytes come from the store before it. The last one is squashed.
const LOADS: &str = "forward = 3
%%
lui x5,0x80001
lw x6,0(x5)
lw x7,4(x5)
sw x0,8(x5)
lw x8,8(x5)
ebreak
lw x9,12(x5)
";

#[test]
fn loads_are_counted_when_they_retire(rt: HostRuntime) {
    let line = "loads: 3, of them 2 at the cost of a hit or of forwarding, 1 at that of a miss";
    check_run(&rt, rt.alloc(), EXPLAIN, LOADS, 0, &[line]);
}

// Stores to the words of two lines of the cache, of which the first to each misses; FENCE.I waits for them all.
const FIVE_DRAINS: &str = "lui x5,0x80001
sw x0,0(x5)
sw x0,4(x5)
sw x0,16(x5)
sw x0,8(x5)
sw x0,12(x5)
fence.i
ebreak
";

// The run ends while the first store goes into the cache, and the second waits for it.
const ONE_DRAIN: &str = "lui x5,0x80001
sw x0,0(x5)
sw x0,4(x5)
ebreak
";

#[test]
fn drains_are_counted_when_they_begin(rt: HostRuntime) {
    static ROWS: [Explained; 2] = [
        Explained {
            program: FIVE_DRAINS,
            line: "drains: 5, of them 3 at the cost of a hit, 2 at that of a miss",
        },
        Explained {
            program: ONE_DRAIN,
            line: "drains: 1, of them 0 at the cost of a hit, 1 at that of a miss",
        },
    ];
    check_explained(&rt, rt.alloc(), &ROWS, 0);
}

// A cache of one word. The first load drops the word that the store put there, which is written back; the second one drops what the
// first brought; the third one hits.
const DIRTY_VICTIM: &str = "cache.sets = 1
cache.ways = 1
cache.line = 4
%%
lui x5,0x80001
sw x5,0(x5)
csrr x6,mip
div x7,x5,x5
div x7,x7,x5
add x5,x5,x7
lw x8,4(x5)
lw x9,0(x5)
lw x10,0(x5)
ebreak
";

#[test]
fn the_loads_of_the_slowest_lines_are_counted(rt: HostRuntime) {
    static LINES: [&str; 4] = [
        "80000018, line 7: lw x8,4(x5)",
        "       its loads: hits 0, misses 1, write-backs 1",
        "8000001c, line 8: lw x9,0(x5)",
        "       its loads: hits 0, misses 1, write-backs 0",
    ];
    check_run(&rt, rt.alloc(), EXPLAIN, DIRTY_VICTIM, 0, &LINES);
}

// A cache of one word. The first store brings its word in. The second one drops that, which is dirty, and the third one hits; while the first
// one drains, both wait.
const THREE_STORES: &str = "ram_base = 0
cache.sets = 1
cache.ways = 1
cache.line = 4
commit_width = 1
%%
sw x0,1024(x0)
sw x0,1028(x0)
sw x5,1028(x0)
fence.i
ebreak
";

#[test]
fn the_stores_of_the_slowest_lines_are_counted(rt: HostRuntime) {
    static LINES: [&str; 6] = [
        "00000000, line 1: sw x0,1024(x0)",
        "       its stores: hits 0, misses 1, write-backs 0",
        "00000004, line 2: sw x0,1028(x0)",
        "       its stores: hits 0, misses 1, write-backs 1",
        "00000008, line 3: sw x5,1028(x0)",
        "       its stores: hits 1, misses 0, write-backs 0",
    ];
    check_run(&rt, rt.alloc(), EXPLAIN, THREE_STORES, 0, &LINES);
}
