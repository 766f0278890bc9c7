use crate::checks::check_bytes;
use crate::machine::{described, narrow, pipeline};
use crate::state_start::counts;
use rv_core::Pipeline;
use rv_decode::Decoded;
use rv_front::{DescribedPredictor, NotTaken};
use rv_hardware::{Stall, Step};
use rv_isa::{Cause, Issue, Lines, Reg};
use rv_passage::{Ending, Passage, Producers};
use rv_states::write_cycle;
use rv_text::Sink;
use rv_watch::Simulated;
use std::alloc::Global;
use std::process::Abort;

// An addition, and a breakpoint.
const PROGRAM: &[u8] = &[0x93, 0x00, 0x50, 0x00, 0x73, 0x00, 0x10, 0x00];

// In cycle 2 the addition is issued, the breakpoint is dispatched, which uses no unit, and the word after it is fetched.
const LINE: &[u8] = b"{\"cycle\":2,\"instructions\":[{\"number\":0},\
{\"number\":7,\"pc\":4,\"word\":19,\"fetched\":1,\"dispatched\":2,\"issued\":3,\"cost\":4,\"broadcast\":7,\
\"end\":\"retired\",\"register\":6,\"value\":9},\
{\"number\":8,\"pc\":8,\"fetched\":5,\"end\":\"trapped\",\"cause\":1},\
{\"number\":9,\"pc\":12,\"fetched\":6,\"dispatched\":7,\"issued\":8,\"cost\":30,\"end\":\"squashed\"}],\
\"steps\":[{\"pc\":16,\"step\":\"trap\",\"cause\":2,\"value\":3},{\"pc\":20,\"step\":\"interrupt\",\"cause\":21}],\
\"stall\":\"rob\",\
\"counts\":{\"cycles\":21,\"busy\":6,\"fetch\":1,\"serial\":2,\"rob\":3,\"station\":4,\"store\":5},\
\"state\":{\"pc\":2147483648,\"registers\":[0,0,0,0,0,0,0,0,0,0,0,0,0,0,0,0,0,0,0,0,0,0,0,0,0,0,0,0,0,0,0,0],\
\"csrs\":{\"mstatus\":6144,\"mie\":0,\"mip\":128,\"mtvec\":0,\"mscratch\":0,\"mepc\":0,\"mcause\":0,\"mtval\":0},\
\"software\":false,\"timer\":true,\"external\":false,\
\"reorder_buffer\":[{\"sequence\":0,\"pc\":2147483648,\"word\":5243027,\"fetched\":0,\"dispatched\":1,\
\"predicted\":2147483652,\"target\":1,\"kind\":\"alu\",\"issued\":2,\"cost\":1},\
{\"sequence\":1,\"pc\":2147483652,\"word\":1048691,\"fetched\":1,\"dispatched\":2,\"predicted\":2147483656,\
\"finished\":2,\"value\":0,\"next_pc\":0,\"cause\":3,\"mtval\":0}],\
\"fetch_buffer\":[{\"pc\":2147483656,\"word\":0,\"fetched\":2,\"predicted\":2147483660}],\
\"next_fetch\":2147483660,\"halted\":false,\
\"units\":{\"alu\":[{\"since\":2,\"cycles\":1}],\"mul\":[],\"div\":[],\"mem\":[]},\
\"store_queue\":[],\"port_free\":0},\
\"asked\":[{\"pc\":2147483656,\"answer\":2147483660}]}\n";

// An instruction of which nothing is known but its number, its address, its fetch and how it ended.
fn passage(number: u64, pc: u32, fetched: u64, ending: Ending) -> Passage {
    Passage {
        number,
        pc,
        word: None,
        instruction: Decoded::none(),
        predicted: None,
        fetched,
        dispatched: None,
        producers: Producers::NONE,
        issue: None,
        broadcast: None,
        ending,
    }
}

// One that retired.
fn retired(rt: &impl Abort) -> Passage {
    Passage {
        word: Some(19),
        dispatched: Some(2),
        issue: Some(Issue { cycle: 3, cost: 4 }),
        broadcast: Some(7),
        ..passage(
            7,
            4,
            1,
            Ending::Retired {
                order: 0,
                cycle: 8,
                written: Some((Reg::new(6).expect(rt, "a register"), 9)),
                next: 8,
            },
        )
    }
}

// One that was squashed after its execution had begun.
fn squashed() -> Passage {
    Passage {
        dispatched: Some(7),
        issue: Some(Issue { cycle: 8, cost: 30 }),
        ..passage(9, 12, 6, Ending::Squashed { cycle: 8 })
    }
}

const TRAPPED: Ending = Ending::Trapped {
    cycle: 8,
    cause: Cause::InstructionAccessFault,
};

const STEPS: [Step; 2] = [
    Step::Trap {
        pc: 16,
        cause: Cause::IllegalInstruction,
        value: 3,
        cycle: 2,
    },
    Step::Interrupt {
        pc: 20,
        cause: 21,
        cycle: 2,
    },
];

// The pipeline after three cycles in which the timer's line is high.
fn after_three(rt: &impl Abort, alloc: Global) -> Pipeline {
    let mut pipeline = pipeline(rt, alloc, &described(rt, narrow()), PROGRAM);
    let timer = Lines {
        timer: true,
        ..Lines::default()
    };
    for _ in 0..3 {
        let _report = pipeline.cycle(&mut NotTaken, timer);
    }
    pipeline
}

#[test]
fn a_cycle_shows_its_instructions_and_the_hardware(rt: HostRuntime) {
    let rows = [
        passage(0, 0, 0, Ending::InFlight),
        retired(&rt),
        passage(8, 8, 5, TRAPPED),
        squashed(),
    ];
    let pipeline = after_three(&rt, rt.alloc());
    let predictor = DescribedPredictor::NotTaken(NotTaken);
    let mut line = Vec::new(rt.alloc());
    write_cycle(
        &mut Sink::new(&mut line),
        2,
        &rows,
        &STEPS,
        &pipeline.shown(),
        &counts(Some(Stall::Rob)),
        &predictor,
    );
    check_bytes(&rt, line.as_slice(), LINE);
}
