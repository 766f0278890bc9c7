use crate::checks::{check_bytes, check_has};
use crate::machine::{described, narrow, pipeline};
use rv_core::Pipeline;
use rv_decode::Decoded;
use rv_front::NotTaken;
use rv_hardware::{Stall, StallCounts};
use rv_isa::Lines;
use rv_passage::{Ending, Passage, Producers};
use rv_states::write_start;
use rv_text::Sink;
use rv_watch::{Progress, Simulated};
use std::alloc::Global;

// addi x1,x0,5
const ADDITION: [u8; 4] = [0x93, 0x00, 0x50, 0x00];

// The addition was fetched in cycle 0.
const START: &[u8] = b"{\"start\":1,\"instructions\":[{\"number\":24}],\
\"counts\":{\"cycles\":21,\"busy\":6,\"fetch\":1,\"serial\":2,\"rob\":3,\"station\":4,\"store\":5},\
\"state\":{\"pc\":2147483648,\"registers\":[0,0,0,0,0,0,0,0,0,0,0,0,0,0,0,0,0,0,0,0,0,0,0,0,0,0,0,0,0,0,0,0],\
\"csrs\":{\"mstatus\":6144,\"mie\":0,\"mip\":0,\"mtvec\":0,\"mscratch\":0,\"mepc\":0,\"mcause\":0,\"mtval\":0},\
\"software\":false,\"timer\":false,\"external\":false,\
\"reorder_buffer\":[],\
\"fetch_buffer\":[{\"pc\":2147483648,\"word\":5243027,\"fetched\":0,\"predicted\":2147483652}],\
\"next_fetch\":2147483652,\"halted\":false,\
\"units\":{\"alu\":[],\"mul\":[],\"div\":[],\"mem\":[]},\
\"store_queue\":[],\"port_free\":0}}\n";

// Counts of which no two are equal.
const COUNTS: Progress = Progress {
    stalls: StallCounts {
        fetch: 1,
        serial: 2,
        rob: 3,
        station: 4,
        store: 5,
    },
    busy: 6,
    cycles: 21,
    stall: None,
    silent: 22,
    longest_gap: 23,
};

// Those, and why the last cycle dispatched nothing.
pub(crate) fn counts(stall: Option<Stall>) -> Progress {
    let mut counts = COUNTS;
    counts.stall = stall;
    counts
}

// An instruction in flight.
fn row() -> Passage {
    Passage {
        number: 24,
        pc: 25,
        word: Some(26),
        instruction: Decoded::none(),
        predicted: Some(27),
        fetched: 28,
        dispatched: None,
        producers: Producers::NONE,
        issue: None,
        broadcast: None,
        ending: Ending::InFlight,
    }
}

#[test]
fn the_hardware_before_a_window_has_the_number_of_its_first_cycle(rt: HostRuntime) {
    let alloc = rt.alloc();
    let mut pipeline = pipeline(&rt, alloc, &described(&rt, narrow()), &ADDITION);
    let _report = pipeline.cycle(&mut NotTaken, Lines::default());
    let mut line = Vec::new(alloc);
    write_start(
        &mut Sink::new(&mut line),
        &[row()],
        &pipeline.shown(),
        &COUNTS,
    );
    check_bytes(&rt, line.as_slice(), START);
}

static STALLS: [(Stall, &str); 5] = [
    (Stall::Fetch, "],\"stall\":\"fetch\",\"counts\":{"),
    (Stall::Serial, "],\"stall\":\"serial\",\"counts\":{"),
    (Stall::Rob, "],\"stall\":\"rob\",\"counts\":{"),
    (Stall::Station, "],\"stall\":\"station\",\"counts\":{"),
    (Stall::Store, "],\"stall\":\"store\",\"counts\":{"),
];

// What the hardware of a pipeline is shown as where the last cycle dispatched nothing for a reason.
fn started(alloc: Global, pipeline: &Pipeline, stall: Stall) -> Vec<u8> {
    let mut line = Vec::new(alloc);
    write_start(
        &mut Sink::new(&mut line),
        &[],
        &pipeline.shown(),
        &counts(Some(stall)),
    );
    line
}

#[test]
fn the_reason_to_dispatch_nothing_has_its_name(rt: HostRuntime) {
    let pipeline = pipeline(&rt, rt.alloc(), &described(&rt, narrow()), &ADDITION);
    for (stall, part) in &STALLS {
        let line = started(rt.alloc(), &pipeline, *stall);
        check_has(&rt, line.as_slice(), part);
    }
}
