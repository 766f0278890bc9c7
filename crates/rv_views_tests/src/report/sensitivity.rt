use crate::checks::{check_bytes, check_end, check_start};
use crate::machine::{described, narrow};
use crate::report::tables::NO_RUN;
use rv_arch::Stop;
use rv_isa::{Description, Kind, NumberKey, PredictorKind, Recovery, Values};
use rv_report::{ComparedRun, TriedRun, in_order, write_sensitivity};
use rv_sensitivity::{Change, KeyValue, Setting, Settings, all_trials, changes, neighbours};
use std::alloc::Global;
use std::process::Abort;

// A run of so many cycles that ended by a breakpoint.
fn run_of(cycles: u64) -> ComparedRun {
    let mut run = NO_RUN;
    run.totals.stop = Stop::Breakpoint;
    run.totals.cycles = cycles;
    run
}

// Runs of the neighbours of a machine, which take these cycles in turn, and then so many, up to the limit.
fn runs_of(
    rt: &impl Abort,
    alloc: Global,
    machine: &Description,
    own: &[Change],
    cycles: u64,
    tried: &[u64],
) -> Vec<TriedRun> {
    let mut runs = Vec::new(alloc);
    for neighbour in neighbours(alloc, machine, own)
        .expect(rt, "room")
        .as_slice()
    {
        runs.push(TriedRun {
            neighbour: *neighbour,
            cycles: tried.get(runs.len()).copied().unwrap_or(cycles),
            stop: Stop::Limit,
        })
        .expect(rt, "room");
    }
    runs
}

// The table of a machine that takes so many cycles, and whose neighbours take these in turn, and then as many as it does
// itself, up to the limit.
fn table_of(
    rt: &impl Abort,
    alloc: Global,
    values: Values,
    own: &[Change],
    cycles: u64,
    tried: &[u64],
) -> Vec<u8> {
    let machine = described(rt, values);
    let runs = runs_of(rt, alloc, &machine, own, cycles, tried);
    let ordered = in_order(alloc, runs.as_slice()).expect(rt, "room");
    let mut table = Vec::new(alloc);
    write_sensitivity(&machine, &run_of(cycles), ordered.as_slice(), &mut table).expect(rt, "room");
    table
}

#[test]
fn the_standard_machine_has_these_neighbours(rt: HostRuntime) {
    let table = table_of(&rt, rt.alloc(), Values::standard(), &[], 7, &[]);
    let lines = "\
key\tfrom\tto\tcycles\tchange\tstop
-\t-\t-\t7\t0\tbreakpoint
fetch_width\t2\t4\t7\t0\tlimit
dispatch_width\t2\t4\t7\t0\tlimit
commit_width\t2\t4\t7\t0\tlimit
bus_width\t2\t4\t7\t0\tlimit
widths\t2,2,2,2\t4,4,4,4\t7\t0\tlimit
fetch_buffer\t8\t16\t7\t0\tlimit
rob\t16\t32\t7\t0\tlimit
store_queue\t8\t16\t7\t0\tlimit
recovery\tcommit\tearly\t7\t0\tlimit
alu.stations\t4\t8\t7\t0\tlimit
alu.units\t2\t4\t7\t0\tlimit
mul.stations\t2\t4\t7\t0\tlimit
mul.units\t1\t2\t7\t0\tlimit
mul.latency\t3\t2\t7\t0\tlimit
div.stations\t2\t4\t7\t0\tlimit
div.units\t1\t2\t7\t0\tlimit
div.latency\t16\t8\t7\t0\tlimit
div.pipelined\tfalse\ttrue\t7\t0\tlimit
mem.stations\t4\t8\t7\t0\tlimit
mem.units\t1\t2\t7\t0\tlimit
cache.sets\t16\t32\t7\t0\tlimit
cache.ways\t2\t4\t7\t0\tlimit
cache.line\t16\t32\t7\t0\tlimit
cache.miss\t10\t5\t7\t0\tlimit
cache.write_back\t10\t5\t7\t0\tlimit
predictor.kind\tbimodal\tnot_taken\t7\t0\tlimit
predictor.kind\tbimodal\tbackward_taken\t7\t0\tlimit
predictor.entries\t64\t128\t7\t0\tlimit
";
    check_bytes(&rt, table.as_slice(), lines.as_bytes());
}

// The machine at the ends of all ranges: each size and width at its most, each latency and cost at its least.
fn greatest() -> Values {
    let mut values = Values::standard();
    values.fetch_width = 8;
    values.dispatch_width = 8;
    values.commit_width = 8;
    values.bus_width = 8;
    values.fetch_buffer = 32;
    values.rob = 256;
    values.store_queue = 64;
    values.recovery = Recovery::Early;
    let mut kind = values.kinds.alu;
    kind.stations = 64;
    kind.units = 8;
    values.kinds.alu = kind;
    values.kinds.mul = kind;
    values.kinds.div = kind;
    values.kinds.mem = kind;
    values.cache.sets = 256;
    values.cache.ways = 16;
    values.cache.line = 128;
    values.cache.miss = 0;
    values.cache.write_back = 0;
    values.predictor.kind = PredictorKind::NotTaken;
    values
}

#[test]
fn a_machine_at_the_ends_of_its_ranges_has_its_choices_alone(rt: HostRuntime) {
    let table = table_of(&rt, rt.alloc(), greatest(), &[], 7, &[]);
    let lines = "\
key\tfrom\tto\tcycles\tchange\tstop
-\t-\t-\t7\t0\tbreakpoint
recovery\tearly\tcommit\t7\t0\tlimit
predictor.kind\tnot_taken\tbackward_taken\t7\t0\tlimit
predictor.kind\tnot_taken\tbimodal\t7\t0\tlimit
";
    check_bytes(&rt, table.as_slice(), lines.as_bytes());
}

// Near the ends, a number is no more than the most, and a half is rounded up.
#[test]
fn a_number_near_its_end_is_tried_at_the_end(rt: HostRuntime) {
    let mut values = greatest();
    values.rob = 200;
    values.commit_width = 5;
    values.forward = 64;
    values.kinds.mem.pipelined = false;
    values.cache.hit = 3;
    values.cache.miss = 1;
    let table = table_of(&rt, rt.alloc(), values, &[], 7, &[]);
    let lines = "\
key\tfrom\tto\tcycles\tchange\tstop
-\t-\t-\t7\t0\tbreakpoint
commit_width\t5\t8\t7\t0\tlimit
widths\t8,8,5,8\t8,8,8,8\t7\t0\tlimit
rob\t200\t256\t7\t0\tlimit
forward\t64\t32\t7\t0\tlimit
recovery\tearly\tcommit\t7\t0\tlimit
mem.pipelined\tfalse\ttrue\t7\t0\tlimit
cache.hit\t3\t2\t7\t0\tlimit
predictor.kind\tnot_taken\tbackward_taken\t7\t0\tlimit
predictor.kind\tnot_taken\tbimodal\t7\t0\tlimit
";
    check_bytes(&rt, table.as_slice(), lines.as_bytes());
}

// The fewest cycles first, ties in their order. A change is rounded to the nearest thousandth, and half of one away from 0.
#[test]
fn a_table_begins_with_what_gains_most(rt: HostRuntime) {
    const NOT_TAKEN: Change = Change::Predictor(PredictorKind::NotTaken);
    const OWN: [Change; 6] = [
        Change::Number(NumberKey::Rob, 1),
        Change::Number(NumberKey::Rob, 2),
        Change::Number(NumberKey::Rob, 3),
        Change::Pipelined(Kind::Mem, false),
        // The machine as it is, and a value out of its range.
        NOT_TAKEN,
        Change::Number(NumberKey::Rob, 257),
    ];
    const TRIED: [u64; 7] = [2000, 1999, 1444, 4000, 1444, 2001, 1];
    let table = table_of(&rt, rt.alloc(), greatest(), &OWN, 2000, &TRIED);
    let lines = "\
key\tfrom\tto\tcycles\tchange\tstop
-\t-\t-\t2000\t0\tbreakpoint
mem.pipelined\ttrue\tfalse\t1\t-1000\tlimit
predictor.kind\tnot_taken\tbimodal\t1444\t-278\tlimit
rob\t256\t2\t1444\t-278\tlimit
predictor.kind\tnot_taken\tbackward_taken\t1999\t-1\tlimit
recovery\tearly\tcommit\t2000\t0\tlimit
rob\t256\t3\t2001\t+1\tlimit
rob\t256\t1\t4000\t+1000\tlimit
";
    check_bytes(&rt, table.as_slice(), lines.as_bytes());
}

#[test]
fn less_than_half_of_a_thousandth_is_no_change(rt: HostRuntime) {
    let odd = table_of(&rt, rt.alloc(), greatest(), &[], 2001, &[2000, 2002, 0]);
    let end = b"\t2000\t0\tlimit\npredictor.kind\tnot_taken\tbackward_taken\t2002\t0\tlimit\n";
    check_end(&rt, odd.as_slice(), end);
}

#[test]
fn a_run_of_no_cycles_has_no_change(rt: HostRuntime) {
    let none = table_of(&rt, rt.alloc(), greatest(), &[], 0, &[]);
    let beginning = b"key\tfrom\tto\tcycles\tchange\tstop\n-\t-\t-\t0\t-\tbreakpoint\n";
    check_start(&rt, none.as_slice(), beginning);
}

#[test]
fn each_trial_stands_once_and_settings_make_changes(rt: HostRuntime) {
    const SETTINGS: Settings = Settings {
        first: Some(Setting {
            index: 8,
            value: KeyValue::Number(64),
        }),
        second: None,
        third: Some(Setting {
            index: 23,
            value: KeyValue::Truth(true),
        }),
        // That of RAM's size.
        fourth: Some(Setting {
            index: 1,
            value: KeyValue::Number(4096),
        }),
    };
    assert!(&rt; all_trials().len() == 36);
    let own = changes(rt.alloc(), &SETTINGS).expect(&rt, "room");
    let table = table_of(&rt, rt.alloc(), narrow(), own.as_slice(), 7, &[]);
    let end = b"\nrob\t16\t64\t7\t0\tlimit\ndiv.pipelined\tfalse\ttrue\t7\t0\tlimit\n";
    check_end(&rt, table.as_slice(), end);
    assert!(&rt; own.len() == 2);
}
