use super::commands::{each_is_refused, has_a_limit_alone, is_refused, is_taken};
use rv_command::{Command, Shown, ShownColumns};
use rv_isa::{PredictorKind, Recovery, Reg};
use rv_sensitivity::{KeyValue, Setting, Settings};
use std::alloc::Global;
use std::process::Abort;
use std::test::Fail;

const NOTHING_SHOWN: ShownColumns = ShownColumns {
    first: None,
    second: None,
    third: None,
    fourth: None,
};

#[test]
fn a_comparison_shows_four_registers_words_and_the_places_at_most(
    rt: HostRuntime,
) -> Result<(), Fail> {
    static REFUSED: [&[&str]; 8] = [
        &["rv_sim", "compare", "--show", "place"],
        &["rv_sim", "compare", "--show", "Places"],
        &["rv_sim", "compare", "--show", "a8"],
        &["rv_sim", "compare", "--show", "0x80001002"],
        &["rv_sim", "compare", "--show", "a0 "],
        &["rv_sim", "compare", "--show", ""],
        &["rv_sim", "compare", "--show"],
        &[
            "rv_sim",
            "compare",
            "--show=a0",
            "--show=a1",
            "--show=a2",
            "--show=a3",
            "--show=a4",
        ],
    ];
    let alloc = rt.alloc();
    let bare = Command::Compare {
        shown: NOTHING_SHOWN,
        limit: 9,
    };
    is_taken(&rt, alloc, &["rv_sim", "compare", "--limit", "9"], bare)?;
    let shown = ShownColumns {
        first: Some(Shown::Register(Reg::new(10).expect(&rt, "a register"))),
        second: Some(Shown::Word(0x8000_1000)),
        third: Some(Shown::Register(Reg::new(31).expect(&rt, "a register"))),
        fourth: Some(Shown::Places),
    };
    let words = &[
        "rv_sim",
        "compare",
        "--show",
        "a0",
        "--show=0x80001000",
        "--show",
        "x31",
        "--show",
        "places",
    ];
    let whole = Command::Compare {
        shown,
        limit: 100_000,
    };
    is_taken(&rt, alloc, words, whole)?;
    let by_decimal = Command::Compare {
        shown: ShownColumns {
            first: Some(Shown::Word(16)),
            ..NOTHING_SHOWN
        },
        limit: 100_000,
    };
    is_taken(
        &rt,
        alloc,
        &["rv_sim", "compare", "--show", "16"],
        by_decimal,
    )?;
    each_is_refused(&rt, alloc, &REFUSED)
}

const NOTHING_SET: Settings = Settings {
    first: None,
    second: None,
    third: None,
    fourth: None,
};

// The changes of a user's own are refused.
fn also_is_refused(rt: &impl Abort, alloc: Global, texts: &[&str]) -> Result<(), Fail> {
    for text in texts {
        is_refused(rt, alloc, &["rv_sim", "sensitivity", "--also", text])?;
    }
    Ok(())
}

#[test]
fn a_machine_is_tried_with_four_values_of_a_users_own_at_most(rt: HostRuntime) -> Result<(), Fail> {
    static NO_VALUES: [&str; 23] = [
        "rob",
        "rob=",
        "=64",
        "",
        "rib=64",
        "Rob=64",
        "rob =64",
        "rob=64=64",
        "rob=0",
        "rob=257",
        "rob=true",
        "rob=\"8\"",
        "cache.line=48",
        "ram_base=4096",
        "ram_size=8192",
        "rom_bytes=4096",
        "rom_bytes=0",
        "report.dump_address=4",
        "report.dump_words=1",
        "div.pipelined=yes",
        "div.pipelined=1",
        "recovery=\"early\"",
        "predictor.kind=perceptron",
    ];
    static REFUSED: [&[&str]; 4] = [
        &["rv_sim", "sensitivity", "--also"],
        &["rv_sim", "sensitivity", "--show", "a0"],
        &["rv_sim", "sensitivity", "--also=rob=1", "--also=rob=2"],
        &[
            "rv_sim",
            "sensitivity",
            "--also=rob=1",
            "--also=fetch_width=1",
            "--also=bus_width=1",
            "--also=commit_width=1",
            "--also=store_queue=1",
        ],
    ];
    let alloc = rt.alloc();
    let bare = Command::Sensitivity {
        also: NOTHING_SET,
        limit: 9,
    };
    is_taken(&rt, alloc, &["rv_sim", "sensitivity", "--limit", "9"], bare)?;
    let also = Settings {
        first: Some(Setting {
            index: 8,
            value: KeyValue::Number(256),
        }),
        second: Some(Setting {
            index: 23,
            value: KeyValue::Truth(true),
        }),
        third: Some(Setting {
            index: 11,
            value: KeyValue::Recovery(Recovery::Early),
        }),
        fourth: Some(Setting {
            index: 34,
            value: KeyValue::Predictor(PredictorKind::NotTaken),
        }),
    };
    let words = &[
        "rv_sim",
        "sensitivity",
        "--also",
        "rob=0x100",
        "--also=div.pipelined=true",
        "--also",
        "recovery=early",
        "--also=predictor.kind=not_taken",
    ];
    let whole = Command::Sensitivity {
        also,
        limit: 100_000,
    };
    is_taken(&rt, alloc, words, whole)?;
    also_is_refused(&rt, alloc, &NO_VALUES)?;
    has_a_limit_alone(&rt, alloc, "sensitivity")?;
    each_is_refused(&rt, alloc, &REFUSED)
}
