use crate::checks::check_run;
use crate::explanations::{EXPLAIN, Explained, check_explained};

// What each first waits for after the second cycle: the division, a place in the reorder buffer, the one station, in which an
// instruction waits for the division, and the end of the first store's drain.
static WAITS: [Explained; 4] = [
    Explained {
        program: "div x6,x0,x0\ncsrrs x5,mip,x0\nebreak",
        line: "serial         17   77.3%  #######################################",
    },
    Explained {
        program: "rob = 1\n%%\naddi x1,x0,1\nebreak",
        line: "rob             2   33.3%  #################",
    },
    Explained {
        program: "div.stations = 1\nrob = 3\n%%\ndiv x3,x1,x1\ndiv x4,x3,x1\ndiv x5,x1,x1\nebreak",
        line: "station        16   30.2%  ###############",
    },
    Explained {
        program: "store_queue = 1\n%%\nlui x5,0x80001\nsw x0,0(x5)\nsw x0,4(x5)\nebreak",
        line: "store          15   71.4%  ####################################",
    },
];

#[test]
fn each_reason_to_wait_has_its_cycles(rt: HostRuntime) {
    check_explained(&rt, rt.alloc(), &WAITS, 0);
}

// Four results that are ready in cycle 3, of which the bus takes one a cycle, the oldest first.
const FOUR_RESULTS: &str = "ram_base = 0
bus_width = 1
fetch_width = 4
dispatch_width = 4
mul.latency = 1
div.latency = 1
%%
mul x1,x0,x0
addi x2,x0,1
div x3,x0,x0
sw x0,1024(x0)
ebreak
";

#[test]
fn waits_of_results_for_the_bus_are_counted(rt: HostRuntime) {
    let line = "waiting for the bus                   6   11.5%  ######";
    check_run(&rt, rt.alloc(), EXPLAIN, FOUR_RESULTS, 0, &[line]);
}

// Eight instructions that are dispatched in cycle 1 and three in 2, with one unit of each kind; a division takes 4 cycles.
const ONE_UNIT: &str = "ram_base = 0
bus_width = 8
fetch_width = 8
dispatch_width = 8
alu.units = 1
div.latency = 4
%%
addi x1,x0,1
addi x2,x0,1
addi x3,x0,1
addi x4,x0,1
mul x5,x0,x0
mul x6,x0,x0
div x7,x0,x0
div x8,x0,x0
sw x0,1024(x0)
sw x0,1028(x0)
sw x0,1032(x0)
ebreak
";

#[test]
fn waits_of_instructions_for_a_unit_are_counted(rt: HostRuntime) {
    static LINES: [&str; 4] = [
        "waiting for an alu unit               6    3.8%  ##",
        "waiting for a mul unit                1    0.6%  ",
        "waiting for a div unit                4    2.5%  #",
        "waiting for a mem unit                3    1.9%  #",
    ];
    check_run(&rt, rt.alloc(), EXPLAIN, ONE_UNIT, 0, &LINES);
}

// The division is issued in cycle 2 and broadcast in 18. The sum waits for it from cycle 2 to 18, and is executed and broadcast in 19 and
// 20. The breakpoint has a place in the reorder buffer in cycle 19, and waits in 20.
const OPERAND: &str = "rob = 2\n%%\ndiv x5,x0,x0\naddi x6,x5,0\nebreak";

// The store has its address in cycle 20, up to which the load waits from 3 on. Then the store drains, and the port is busy up to 31. The
// breakpoint waits from cycle 20 to 43, the word after it from 22 on.
const ADDRESS: &str =
    "ram_base = 0\nrob = 3\n%%\nrem x5,x0,x0\nsw x0,1024(x5)\nlw x6,0(x0)\nebreak";

// The first load has the unit in cycle 2, and the port up to cycle 12: the second one waits for the one and then for the other.
const PORT: &str = "ram_base = 0\nrob = 2\n%%\nlw x5,0(x0)\nlw x6,64(x0)\nebreak";

// A CSR instruction, which uses no unit, waits for the division in front of it, from cycle 2 to 18.
const HEAD: &str = "rob = 2\n%%\ndiv x5,x0,x0\ncsrrs x6,mip,x0\nebreak";

// The first sum waits for the division from cycle 2 to 18, and the two others for that sum, from 3 to 20. Up to cycle 18 the oldest that waits
// waits for the division.
const CHAIN: &str = "%%\ndiv x5,x0,x0\naddi x6,x5,0\naddi x7,x6,0\naddi x8,x6,0\nebreak";

// The load is issued in cycle 2, misses, and is broadcast in 13: so long the sum waits.
const MISSED: &str = "ram_base = 0\n%%\nlw x5,0(x0)\naddi x6,x5,0\nebreak";

// The store has its address in cycle 3. The load is issued in 4, takes what is stored out of the queue, and is broadcast in 9; from 3 on the
// sum waits for it.
const FORWARDED: &str =
    "ram_base = 0\nforward = 5\n%%\nsw x0,1024(x0)\nlw x5,1024(x0)\naddi x6,x5,1\nebreak";

static IN_FLIGHT: [Explained; 11] = [
    Explained {
        program: OPERAND,
        line: "waiting for operands                 17   45.9%  #######################",
    },
    Explained {
        program: OPERAND,
        line: "in execution                         19   51.4%  ##########################",
    },
    Explained {
        program: OPERAND,
        line: "Awaited most, for 17 of 22 cycles: 80000000, line 1: div x5,x0,x0",
    },
    Explained {
        program: CHAIN,
        line: "Awaited most, for 17 of 25 cycles: 80000000, line 1: div x5,x0,x0",
    },
    Explained {
        program: MISSED,
        line: "Awaited most, for 12 of 17 cycles (its loads: hits 0, misses 1, write-backs 0): 00000000, line 1: lw x5,0(x0)",
    },
    Explained {
        program: FORWARDED,
        line: "Awaited most, for 7 of 13 cycles (its loads: hits 1, of them forwarded 1, misses 0, write-backs 0): 00000004, line 2: lw x5,1024(x0)",
    },
    Explained {
        program: ADDRESS,
        line: "waiting for a store's address        18   14.6%  #######",
    },
    Explained {
        program: ADDRESS,
        line: "waiting for retirement               46   37.4%  ###################",
    },
    Explained {
        program: PORT,
        line: "waiting for a mem unit                1    2.2%  #",
    },
    Explained {
        program: PORT,
        line: "waiting for the port                 10   22.2%  ###########",
    },
    Explained {
        program: HEAD,
        line: "waiting for retirement               17   50.0%  #########################",
    },
];

#[test]
fn each_wait_in_flight_has_its_cycles(rt: HostRuntime) {
    check_explained(&rt, rt.alloc(), &IN_FLIGHT, 0);
}

// The greatest wait comes first, of equal ones the one that an instruction meets first; a wait that never was is not named.
static GREATEST: [Explained; 3] = [
    Explained {
        program: ADDRESS,
        line: "cycles of instructions in flight: 123, of them 46 waiting for retirement (37.4%), 18 waiting for an older store's address (14.6%)",
    },
    Explained {
        program: PORT,
        line: "cycles of instructions in flight: 45, of them 10 waiting for the port (22.2%), 10 waiting for retirement (22.2%)",
    },
    Explained {
        program: HEAD,
        line: "cycles of instructions in flight: 34, of them 17 waiting for retirement (50.0%)",
    },
];

#[test]
fn the_greatest_waits_lead(rt: HostRuntime) {
    check_explained(&rt, rt.alloc(), &GREATEST, 0);
}
