use crate::checks::{check, check_bytes, check_end, check_start};
use crate::machine::{described, no_arrivals, pipeline};
use rv_arch::Stop;
use rv_core::Pipeline;
use rv_counts::{Lost, Places, RunPlaces, Squashed};
use rv_front::NotTaken;
use rv_hardware::StallCounts;
use rv_isa::{Image, PerKind, Reg, Values};
use rv_report::{
    Columns, ComparedRun, Events, Losses, Shown, StepCounts, TableOptions, Totals, run_totals,
    write_table,
};
use std::alloc::Global;
use std::process::Abort;

// A table without further columns, of runs up to a hundred cycles.
const NOTHING_SHOWN: Columns<Option<Shown>> = Columns {
    first: None,
    second: None,
    third: None,
    fourth: None,
};

const NO_WORDS: Columns<Option<u32>> = Columns {
    first: None,
    second: None,
    third: None,
    fourth: None,
};

pub(crate) const A_HUNDRED_CYCLES: TableOptions = TableOptions {
    limit: 100,
    shown: NOTHING_SHOWN,
};

const NO_STEPS: StepCounts = StepCounts {
    retired: 0,
    traps: 0,
    interrupts: 0,
};

/// A run in which nothing happened.
pub(crate) const NO_RUN: ComparedRun = ComparedRun {
    totals: Totals {
        stop: Stop::Limit,
        cycles: 0,
        steps: NO_STEPS,
        longest_gap: 0,
        busy: 0,
        stalls: StallCounts {
            fetch: 0,
            serial: 0,
            rob: 0,
            station: 0,
            store: 0,
        },
    },
    losses: Losses {
        mispredicted: 0,
        squashed: 0,
    },
    events: Events {
        branches: 0,
        loads: 0,
        drains: 0,
        hits: 0,
        misses: 0,
        write_backs: 0,
    },
    words: NO_WORDS,
    places: None,
};

// Each count is another one, but for those of waits.
const STALE_RUN: ComparedRun = ComparedRun {
    totals: Totals {
        stop: Stop::Stale(0x8000_0014),
        cycles: 17,
        steps: StepCounts {
            retired: 3,
            traps: 7,
            interrupts: 6,
        },
        longest_gap: 4,
        busy: 2,
        stalls: StallCounts {
            fetch: 1,
            serial: 2,
            rob: 3,
            station: 4,
            store: 5,
        },
    },
    losses: Losses {
        mispredicted: 8,
        squashed: 9,
    },
    events: Events {
        branches: 11,
        loads: 12,
        drains: 13,
        hits: 14,
        misses: 10,
        write_backs: 15,
    },
    words: NO_WORDS,
    places: None,
};

#[test]
fn a_table_has_a_line_for_each_run(rt: HostRuntime) {
    let mut without_steps = STALE_RUN;
    without_steps.totals.stop = Stop::Limit;
    without_steps.totals.steps = NO_STEPS;
    let mut table = Vec::new(rt.alloc());
    let names = [Vec::from_slice(rt.alloc(), b"a\tb").expect(&rt, "room")];
    let runs = [STALE_RUN, without_steps];
    write_table(&NOTHING_SHOWN, &names, &runs, &mut table).expect(&rt, "room");
    let lines = "\
number\tcycles\tretired\tcpi\ttraps\tinterrupts\tbusy\tstall_fetch\tstall_serial\tstall_rob\tstall_station\tstall_store\t\
mispredicted\tsquashed\tmisses\tname\tstop\tipc\tlongest_gap\tbranches\tloads\tdrains\thits\twrite_backs
1\t17\t3\t5.666\t7\t6\t2\t1\t2\t3\t4\t5\t8\t9\t10\ta b\tstale 80000014\t0.176\t4\t11\t12\t13\t14\t15
2\t17\t0\t-\t0\t0\t2\t1\t2\t3\t4\t5\t8\t9\t10\t-\tlimit\t0.000\t4\t11\t12\t13\t14\t15
";
    check_bytes(&rt, table.as_slice(), lines.as_bytes());
}

// A run of a program on the standard machine, which predicts no branch as taken.
fn ran(rt: &impl Abort, alloc: Global, program: &[u8], options: &TableOptions) -> ComparedRun {
    let arrivals = no_arrivals(rt, alloc);
    let pipeline = pipeline(rt, alloc, &described(rt, Values::standard()), program);
    run_totals(alloc, pipeline, &mut NotTaken, &arrivals, options).expect(rt, "room")
}

// The table of that run.
fn table_of(rt: &impl Abort, alloc: Global, program: &[u8], options: &TableOptions) -> Vec<u8> {
    let run = ran(rt, alloc, program, options);
    let mut table = Vec::new(alloc);
    write_table(&options.shown, &[], &[run], &mut table).expect(rt, "room");
    table
}

// Checks the head of a table and how it ends.
fn check_table(rt: &impl Abort, table: &[u8], head: &str, end: &[u8]) {
    check_start(rt, table, head.as_bytes());
    check_end(rt, table, end);
}

// A run without a program traps in every second cycle, and its other cycles dispatch nothing.
#[test]
fn a_run_comes_to_its_totals(rt: HostRuntime) {
    let run = ran(&rt, rt.alloc(), &[], &A_HUNDRED_CYCLES);
    let totals = run.totals;
    assert!(&rt; totals.cycles == 100 && totals.busy == 50 && totals.stalls.fetch == 50);
    assert!(&rt; totals.steps.traps == 49 && totals.steps.retired == 0);
}

// addi x10,x0,5; auipc x1,0; sw x10,256(x1); ebreak
const STORE: [u8; 16] = [
    0x13, 0x05, 0x50, 0x00, 0x97, 0x00, 0x00, 0x00, 0x23, 0xa0, 0xa0, 0x10, 0x73, 0x00, 0x10, 0x00,
];

// A register, the word that was stored, whether or not the cache has it, and an address outside RAM.
#[test]
fn a_table_shows_registers_and_words_at_the_end(rt: HostRuntime) {
    let options = TableOptions {
        limit: 100,
        shown: Columns {
            first: Some(Shown::Register(Reg::new(10).expect(&rt, "a register"))),
            second: Some(Shown::Word(0x8000_0104)),
            third: None,
            fourth: Some(Shown::Word(4)),
        },
    };
    let table = table_of(&rt, rt.alloc(), &STORE, &options);
    let head = "\
number\tcycles\tretired\tcpi\ttraps\tinterrupts\tbusy\tstall_fetch\tstall_serial\tstall_rob\tstall_station\tstall_store\t\
mispredicted\tsquashed\tmisses\tname\tstop\tipc\tlongest_gap\tbranches\tloads\tdrains\thits\twrite_backs\t\
a0\t0x80000104\t0x00000004
";
    let end = b"\t00000005\t00000005\t--------\n";
    check_table(&rt, table.as_slice(), head, end);
}

// Columns stand in the order in which they are asked for: the word of the first instruction, the address of the second, what the first
// computed, and the word of the last.
#[test]
fn four_columns_stand_in_their_order(rt: HostRuntime) {
    let options = TableOptions {
        limit: 100,
        shown: Columns {
            first: Some(Shown::Word(0x8000_0000)),
            second: Some(Shown::Register(Reg::new(1).expect(&rt, "a register"))),
            third: Some(Shown::Register(Reg::new(10).expect(&rt, "a register"))),
            fourth: Some(Shown::Word(0x8000_000c)),
        },
    };
    let table = table_of(&rt, rt.alloc(), &STORE, &options);
    let head = "\
number\tcycles\tretired\tcpi\ttraps\tinterrupts\tbusy\tstall_fetch\tstall_serial\tstall_rob\tstall_station\tstall_store\t\
mispredicted\tsquashed\tmisses\tname\tstop\tipc\tlongest_gap\tbranches\tloads\tdrains\thits\twrite_backs\t\
0x80000000\tra\ta0\t0x8000000c
";
    let end = b"\t00500513\t80000004\t00000005\t00100073\n";
    check_table(&rt, table.as_slice(), head, end);
}

// sw x0,256(x0); sw x0,256(x0); ebreak
const TWO_STORES: [u8; 12] = [
    0x23, 0x20, 0x00, 0x10, 0x23, 0x20, 0x00, 0x10, 0x73, 0x00, 0x10, 0x00,
];

const PLACES_SHOWN: Columns<Option<Shown>> = Columns {
    first: None,
    second: Some(Shown::Places),
    third: None,
    fourth: None,
};

// A pipeline with the two stores, whose reorder buffer and store queue have a place each.
fn narrow_pipeline(rt: &impl Abort, alloc: Global) -> Pipeline {
    let mut values = Values::standard();
    values.ram_base = 0;
    values.rob = 1;
    values.store_queue = 1;
    let image = Image::from_bytes(alloc, 0, &TWO_STORES, 0).expect(rt, "room");
    Pipeline::new(alloc, &described(rt, values), &image).expect(rt, "room")
}

// One place is in the reorder buffer, and one in the store queue. The second store waits for both in the two cycles until the first
// retires, and then for the eleven cycles of its drain; the breakpoint waits two cycles for the second store. The run has 20 cycles of two
// places. In 0 and 19 there is no word: 4. A store in 1 and in 15 and the breakpoint in 18 each take one of two, and what is next finds the
// reorder buffer full, as it does in two whole cycles after each store: 11. Eleven cycles wait for the store queue: 22.
#[test]
fn a_full_reorder_buffer_is_the_reason_before_a_full_store_queue(rt: HostRuntime) {
    const OPTIONS: TableOptions = TableOptions {
        limit: 100,
        shown: PLACES_SHOWN,
    };
    let pipeline = narrow_pipeline(&rt, rt.alloc());
    let arrivals = no_arrivals(&rt, rt.alloc());
    let run = run_totals(rt.alloc(), pipeline, &mut NotTaken, &arrivals, &OPTIONS).expect(
        &rt, "room",
    );
    check(
        &rt,
        run.totals.stalls.rob == 4 && run.totals.stalls.store == 11,
    );
    let mut table = Vec::new(rt.alloc());
    write_table(&PLACES_SHOWN, &[], &[run], &mut table).expect(&rt, "room");
    let end = b"\t2\t1\t0\t0\t0\t0\t0\t4\t0\t11\t0\t0\t0\t0\t22\n";
    check_end(&rt, table.as_slice(), end);
}

// Each count is another one.
const SOME_PLACES: RunPlaces = RunPlaces {
    places: Places {
        retired: 11,
        trapped: 12,
        squashed: Squashed {
            predictions: 13,
            serialising: 14,
            traps: 15,
            interrupts: 16,
        },
        lost: Lost {
            fetch: 17,
            serial: 18,
            rob: 19,
            stations: PerKind {
                alu: 20,
                mul: 21,
                div: 22,
                mem: 23,
            },
            store: 24,
        },
    },
    in_flight: 25,
};

#[test]
fn the_places_have_fifteen_columns(rt: HostRuntime) {
    let mut run = NO_RUN;
    run.places = Some(SOME_PLACES);
    let mut table = Vec::new(rt.alloc());
    write_table(&PLACES_SHOWN, &[], &[run], &mut table).expect(&rt, "room");
    let end = "\thits\twrite_backs\t\
places_retired\tplaces_trapped\tplaces_squashed_predictions\tplaces_squashed_serialising\tplaces_squashed_traps\t\
places_squashed_interrupts\tplaces_in_flight\tplaces_lost_fetch\tplaces_lost_serial\tplaces_lost_rob\tplaces_lost_alu\t\
places_lost_mul\tplaces_lost_div\tplaces_lost_mem\tplaces_lost_store
1\t0\t0\t-\t0\t0\t0\t0\t0\t0\t0\t0\t0\t0\t0\t-\tlimit\t-\t0\t0\t0\t0\t0\t0\t\
11\t12\t13\t14\t15\t16\t25\t17\t18\t19\t20\t21\t22\t23\t24
";
    check_end(&rt, table.as_slice(), end.as_bytes());
}
