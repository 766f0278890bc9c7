use super::{is_read, is_read_as, values};
use rv_isa::{
    CacheValues, KindValues, PerKind, PredictorKind, PredictorValues, Recovery, ReportValues,
    Values,
};
use std::alloc::Global;
use std::test::Fail;

#[test]
fn a_text_without_keys_is_the_standard_machine(rt: HostRuntime) {
    for text in ["", "# nothing\n[cache]\n"] {
        is_read(&rt, rt.alloc(), text, Values::standard());
    }
}

#[test]
fn each_key_has_its_value(rt: HostRuntime) {
    const EXPECTED: Values = Values {
        ram_base: 4096,
        ram_size: 12288,
        rom_bytes: 8192,
        fetch_width: 1,
        dispatch_width: 3,
        commit_width: 4,
        bus_width: 5,
        fetch_buffer: 6,
        rob: 7,
        store_queue: 9,
        forward: 10,
        recovery: Recovery::Early,
        kinds: PerKind {
            alu: KindValues {
                stations: 11,
                units: 3,
                latency: 12,
                pipelined: false,
            },
            mul: KindValues {
                stations: 13,
                units: 4,
                latency: 14,
                pipelined: false,
            },
            div: KindValues {
                stations: 15,
                units: 5,
                latency: 17,
                pipelined: true,
            },
            mem: KindValues {
                stations: 18,
                units: 6,
                latency: 19,
                pipelined: false,
            },
        },
        cache: CacheValues {
            sets: 32,
            ways: 3,
            line: 64,
            hit: 4,
            miss: 20,
            write_back: 21,
        },
        predictor: PredictorValues {
            kind: PredictorKind::BackwardTaken,
            entries: 22,
        },
        report: ReportValues {
            dump_address: 24,
            dump_words: 23,
        },
    };
    let text = "ram_base = 4096\nram_size = 12288\nrom_bytes = 8192\nfetch_width = 1\n\
        dispatch_width = 3\ncommit_width = 4\nbus_width = 5\nfetch_buffer = 6\nrob = 7\n\
        store_queue = 9\nforward = 10\nrecovery = \"early\"\n\
        [alu]\nstations = 11\nunits = 3\nlatency = 12\npipelined = false\n\
        [mul]\nstations = 13\nunits = 4\nlatency = 14\npipelined = false\n\
        [div]\nstations = 15\nunits = 5\nlatency = 17\npipelined = true\n\
        [mem]\nstations = 18\nunits = 6\nlatency = 19\npipelined = false\n\
        [cache]\nsets = 32\nways = 3\nline = 64\nhit = 4\nmiss = 20\nwrite_back = 21\n\
        [predictor]\nkind = \"backward_taken\"\nentries = 22\n\
        [report]\ndump_address = 24\ndump_words = 23\n";
    is_read(&rt, rt.alloc(), text, EXPECTED);
}

#[test]
fn a_front_that_is_all_of_ram(rt: HostRuntime) {
    let expected = Values {
        ram_size: 4096,
        rom_bytes: 4096,
        ..Values::standard()
    };
    is_read(
        &rt,
        rt.alloc(),
        "rom_bytes = 4096\nram_size = 4096",
        expected,
    );
}

fn with_recovery(recovery: Recovery) -> Values {
    Values {
        recovery,
        ..Values::standard()
    }
}

fn with_predictor(kind: PredictorKind) -> Values {
    let standard = Values::standard();
    let predictor = PredictorValues {
        kind,
        ..standard.predictor
    };
    Values {
        predictor,
        ..standard
    }
}

#[test]
fn names_that_the_recovery_knows(rt: HostRuntime) {
    static CASES: [(&str, Recovery); 2] = [
        ("recovery = \"commit\"", Recovery::Commit),
        ("recovery = \"early\"", Recovery::Early),
    ];
    for (text, recovery) in &CASES {
        is_read(&rt, rt.alloc(), text, with_recovery(*recovery));
    }
}

#[test]
fn names_that_the_predictor_knows(rt: HostRuntime) {
    static CASES: [(&str, PredictorKind); 3] = [
        ("predictor.kind = \"not_taken\"", PredictorKind::NotTaken),
        (
            "predictor.kind = \"backward_taken\"",
            PredictorKind::BackwardTaken,
        ),
        ("predictor.kind = \"bimodal\"", PredictorKind::Bimodal),
    ];
    for (text, kind) in &CASES {
        is_read(&rt, rt.alloc(), text, with_predictor(*kind));
    }
}

// What a text means whose end is after so many empty lines.
fn values_after(alloc: Global, lines: usize, end: &[u8]) -> Result<Option<Values>, Fail> {
    let mut text = vec![in alloc; b'\n'; lines]?;
    text.extend_from_slice(end)?;
    Ok(values(alloc, text.as_slice()))
}

#[test]
fn a_text_of_ten_million_bytes(rt: HostRuntime) -> Result<(), Fail> {
    let found = values_after(rt.alloc(), 10_000_000, b"rob = 7")?;
    let expected = Values {
        rob: 7,
        ..Values::standard()
    };
    assert!(&rt; is_read_as(found, &expected));
    Ok(())
}
