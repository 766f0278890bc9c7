use crate::checks::{check_end, check_has};
use crate::json::expect_text;
use rv_isa::{
    CacheValues, KindValues, PerKind, PredictorKind, PredictorValues, Recovery, ReportValues,
    Values,
};
use rv_states::write_header;
use rv_text::Sink;
use std::alloc::Global;
use std::process::Abort;

// No two numbers of it are equal.
const VALUES: Values = Values {
    ram_base: 4096,
    ram_size: 8192,
    rom_bytes: 12288,
    fetch_width: 1,
    dispatch_width: 2,
    commit_width: 3,
    bus_width: 4,
    fetch_buffer: 5,
    rob: 6,
    store_queue: 8,
    forward: 9,
    recovery: Recovery::Early,
    kinds: PerKind {
        alu: KindValues {
            stations: 10,
            units: 11,
            latency: 12,
            pipelined: true,
        },
        mul: KindValues {
            stations: 13,
            units: 14,
            latency: 15,
            pipelined: false,
        },
        div: KindValues {
            stations: 16,
            units: 17,
            latency: 18,
            pipelined: true,
        },
        mem: KindValues {
            stations: 19,
            units: 20,
            latency: 21,
            pipelined: false,
        },
    },
    cache: CacheValues {
        sets: 22,
        ways: 23,
        line: 24,
        hit: 25,
        miss: 26,
        write_back: 27,
    },
    predictor: PredictorValues {
        kind: PredictorKind::NotTaken,
        entries: 28,
    },
    report: ReportValues {
        dump_address: 29,
        dump_words: 30,
    },
};

const HEADER: &[u8] = b"{\"first\":7,\"format\":\"rv_sim states 1\",\"machine\":{\
\"ram_base\":4096,\"ram_size\":8192,\"rom_bytes\":12288,\
\"fetch_width\":1,\"dispatch_width\":2,\"commit_width\":3,\"bus_width\":4,\
\"fetch_buffer\":5,\"rob\":6,\"store_queue\":8,\"forward\":9,\"recovery\":\"early\",\
\"alu\":{\"stations\":10,\"units\":11,\"latency\":12,\"pipelined\":true},\
\"mul\":{\"stations\":13,\"units\":14,\"latency\":15,\"pipelined\":false},\
\"div\":{\"stations\":16,\"units\":17,\"latency\":18,\"pipelined\":true},\
\"mem\":{\"stations\":19,\"units\":20,\"latency\":21,\"pipelined\":false},\
\"cache\":{\"sets\":22,\"ways\":23,\"line\":24,\"hit\":25,\"miss\":26,\"write_back\":27},\
\"predictor\":{\"entries\":28,\"kind\":\"not_taken\"}}}\n";

#[test]
fn the_first_line_has_each_value_of_the_machine(rt: HostRuntime) {
    let mut text = Vec::new(rt.alloc());
    write_header(&mut Sink::new(&mut text), 7, &VALUES);
    expect_text(&rt, &text, HEADER);
}

static CHOICES: [(Recovery, &str, PredictorKind, &str); 3] = [
    (
        Recovery::Commit,
        ",\"recovery\":\"commit\",\"alu\":",
        PredictorKind::BackwardTaken,
        ",\"kind\":\"backward_taken\"}}}\n",
    ),
    (
        Recovery::Early,
        ",\"recovery\":\"early\",\"alu\":",
        PredictorKind::Bimodal,
        ",\"kind\":\"bimodal\"}}}\n",
    ),
    (
        Recovery::Commit,
        ",\"recovery\":\"commit\",\"alu\":",
        PredictorKind::NotTaken,
        ",\"kind\":\"not_taken\"}}}\n",
    ),
];

// The first line of the machine with a recovery and a predictor.
fn header(alloc: Global, recovery: Recovery, predictor: PredictorKind) -> Vec<u8> {
    let mut values = VALUES;
    values.recovery = recovery;
    values.predictor.kind = predictor;
    let mut text = Vec::new(alloc);
    write_header(&mut Sink::new(&mut text), 7, &values);
    text
}

// Checks that a first line has a part and an end.
fn check_header(rt: &impl Abort, header: &[u8], part: &str, end: &str) {
    check_has(rt, header, part);
    check_end(rt, header, end.as_bytes());
}

#[test]
fn the_first_line_names_the_recovery_and_the_predictor(rt: HostRuntime) {
    for (recovery, mends, predictor, end) in &CHOICES {
        let text = header(rt.alloc(), *recovery, *predictor);
        check_header(&rt, text.as_slice(), mends, end);
    }
}
