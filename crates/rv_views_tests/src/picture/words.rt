use crate::checks::{check, check_bytes, check_count};
use crate::machine::{described, listing, no_arrivals, pipeline};
use rv_arch::Stop;
use rv_drawing::Mark;
use rv_front::NotTaken;
use rv_isa::Values;
use rv_picture::{Form, Rows, RunEnd, View, write_picture};
use std::alloc::Global;
use std::process::Abort;

const EXPECTED: &str = "                                                           0         \n\
80000000 00500093                         x1/ra=00000005   FDIBC\n\
80000004 00100073                         -                 FD.T\n\
80000008 00000000                         -                  FDx\n\
8000000c 00000000                         -                   Fx\n\
00000000 -                                -                    F\n\
F fetch  D dispatch  I issue  = execution  ~ wait for the bus  B broadcast  C retirement  T trap  x squash  . wait  ! interrupt\n";

// The same without the two words that are squashed.
const UNSQUASHED: &str = "                                                           0         \n\
80000000 00500093                         x1/ra=00000005   FDIBC\n\
80000004 00100073                         -                 FD.T\n\
00000000 -                                -                    F\n\
F fetch  D dispatch  I issue  = execution  ~ wait for the bus  B broadcast  C retirement  T trap  x squash  . wait  ! interrupt\n";

// addi x1,x0,5 and ebreak.
const PROGRAM: [u8; 8] = [0x93, 0x00, 0x50, 0x00, 0x73, 0x00, 0x10, 0x00];

// The first instruction's dispatch and its retirement are marked, and the trap of the second one.
const MARKED: &str = "                                                           0         \n\
80000000 00500093                         x1/ra=00000005   FdIBc\n\
80000004 00100073                         -                 FD.t\n\
80000008 00000000                         -                  FDx\n\
8000000c 00000000                         -                   Fx\n\
00000000 -                                -                    F\n\
F fetch  D dispatch  I issue  = execution  ~ wait for the bus  B broadcast  C retirement  T trap  x squash  . wait  ! interrupt\n\
In lower case, or * in place of = ~ x . : on the critical path\n";

// All cycles but the first.
const FROM_THE_SECOND: &str = "                                                               \n\
80000000 00500093                         x1/ra=00000005   DIBC\n\
80000004 00100073                         -                FD.T\n\
80000008 00000000                         -                 FDx\n\
8000000c 00000000                         -                  Fx\n\
00000000 -                                -                   F\n\
F fetch  D dispatch  I issue  = execution  ~ wait for the bus  B broadcast  C retirement  T trap  x squash  . wait  ! interrupt\n";

// The last cycle, in which each instruction but the one that was fetched leaves the hardware.
const LAST_CYCLE: &str = "                                                            \n\
80000000 00500093                         x1/ra=00000005   C\n\
80000004 00100073                         -                T\n\
80000008 00000000                         -                x\n\
8000000c 00000000                         -                x\n\
00000000 -                                -                F\n\
F fetch  D dispatch  I issue  = execution  ~ wait for the bus  B broadcast  C retirement  T trap  x squash  . wait  ! interrupt\n";

const NOTHING: &str = "                                                           \n\
The run ended after 5 cycles, before those of this picture.\n\
F fetch  D dispatch  I issue  = execution  ~ wait for the bus  B broadcast  C retirement  T trap  x squash  . wait  ! interrupt\n";

// The picture of at most sixty cycles from one on, with some rows, and how the run ended.
fn picture_of(
    rt: &impl Abort,
    alloc: Global,
    program: &[u8],
    from: u64,
    rows: Rows,
    marks: Option<&[Mark]>,
) -> (RunEnd, Vec<u8>) {
    let mut values = Values::standard();
    values.fetch_width = 1;
    let arrivals = no_arrivals(rt, alloc);
    let listing = listing(rt, alloc, &[]);
    let mut text = Vec::new(alloc);
    let mut pipeline = pipeline(rt, alloc, &described(rt, values), program);
    let mut predictor = NotTaken;
    let view = View {
        form: Form::Text,
        rows,
        from,
        cycles: 60,
    };
    let end = write_picture(
        alloc,
        &mut pipeline,
        &mut predictor,
        &arrivals,
        view,
        marks,
        &listing,
        &mut text,
    );
    (end.expect(rt, "a picture"), text)
}

// How a run ended that a breakpoint ended.
fn at_breakpoint(over: Option<u64>) -> RunEnd {
    RunEnd {
        stop: Stop::Breakpoint,
        over,
    }
}

// Checks a picture of the two words, and that a breakpoint ended their run.
fn check_picture(
    rt: &impl Abort,
    alloc: Global,
    from: u64,
    rows: Rows,
    marks: Option<&[Mark]>,
    over: Option<u64>,
    expected: &str,
) {
    let (end, text) = picture_of(rt, alloc, &PROGRAM, from, rows, marks);
    assert!(rt; end == at_breakpoint(over), "from {from}");
    check_bytes(rt, text.as_slice(), expected.as_bytes());
}

#[test]
fn two_words_in_characters(rt: HostRuntime) {
    let alloc = rt.alloc();
    check_picture(&rt, alloc, 0, Rows::All, None, None, EXPECTED);
    check_picture(&rt, alloc, 0, Rows::Unsquashed, None, None, UNSQUASHED);
}

const MARKS: [Mark; 3] = [
    Mark {
        number: 0,
        column: 1,
    },
    Mark {
        number: 0,
        column: 4,
    },
    Mark {
        number: 1,
        column: 4,
    },
];

#[test]
fn two_words_with_marks(rt: HostRuntime) {
    let marks = Some(MARKS.as_slice());
    check_picture(&rt, rt.alloc(), 0, Rows::All, marks, None, MARKED);
}

// The breakpoint is taken in cycle 4.
#[test]
fn the_cycles_from_one_on_are_shown_and_after_the_end_of_a_run_nothing(rt: HostRuntime) {
    static CASES: [(u64, &str, Option<u64>); 4] = [
        (1, FROM_THE_SECOND, None),
        (4, LAST_CYCLE, None),
        (5, NOTHING, Some(5)),
        (6, NOTHING, Some(5)),
    ];
    for (from, shown, over) in &CASES {
        check_picture(&rt, rt.alloc(), *from, Rows::All, None, *over, shown);
    }
}

// lui x1,0x80000; sw x0,8(x1); addi x2,x0,1, which the store makes stale.
const STALE: [u8; 12] = [
    0xb7, 0x00, 0x00, 0x80, 0x23, 0xa4, 0x00, 0x00, 0x13, 0x01, 0x10, 0x00,
];

#[test]
fn the_row_whose_stale_word_ended_the_run_says_so(rt: HostRuntime) {
    let (end, text) = picture_of(&rt, rt.alloc(), &STALE, 0, Rows::Unsquashed, None);
    check(&rt, end.stop == Stop::Stale(0x8000_0008));
    let text = String::from_utf8(text).expect(&rt, "ASCII");
    let row = "\n80000008 00100113                         stale            ";
    check_count(&rt, text.as_str(), row, 1);
    check_count(&rt, text.as_str(), "stale", 1);
}
