use super::{fault, is_refused};
use rv_describe::DescriptionError;
use rv_describe::DescriptionError::{NotPowerOfTwo, NotToml, OutOfRange, UnknownKey, WrongKind};
use std::alloc::Global;
use std::process::Abort;

#[test]
fn the_first_fault_of_a_value_is_named(rt: HostRuntime) {
    static CASES: [(&str, DescriptionError, &str); 31] = [
        ("rob = \"a\"", WrongKind { place: 9 }, "rob"),
        ("rob.x = 1", WrongKind { place: 9 }, "rob"),
        ("[rob]", WrongKind { place: 9 }, "rob"),
        ("rob = 1.0", WrongKind { place: 9 }, "rob"),
        ("recovery = true", WrongKind { place: 12 }, "recovery"),
        (
            "alu.pipelined = 1",
            WrongKind { place: 16 },
            "alu.pipelined",
        ),
        (
            "mul.pipelined = 0",
            WrongKind { place: 20 },
            "mul.pipelined",
        ),
        (
            "div.pipelined = \"true\"",
            WrongKind { place: 24 },
            "div.pipelined",
        ),
        (
            "mem.pipelined = []",
            WrongKind { place: 28 },
            "mem.pipelined",
        ),
        ("cache = 3", WrongKind { place: 29 }, "cache.sets"),
        ("[[cache]]", WrongKind { place: 29 }, "cache.sets"),
        ("cache.line = []", WrongKind { place: 31 }, "cache.line"),
        (
            "predictor.kind = 1979-05-27",
            WrongKind { place: 35 },
            "predictor.kind",
        ),
        ("ram_base = 2048", OutOfRange { place: 1 }, "ram_base"),
        ("ram_size = 4100", OutOfRange { place: 2 }, "ram_size"),
        (
            "ram_size = 4096\nrom_bytes = 8192",
            OutOfRange { place: 3 },
            "rom_bytes",
        ),
        ("rom_bytes = 1024", OutOfRange { place: 3 }, "rom_bytes"),
        ("rob = 4294967312", OutOfRange { place: 9 }, "rob"),
        ("recovery = \"never\"", OutOfRange { place: 12 }, "recovery"),
        ("recovery = \"Early\"", OutOfRange { place: 12 }, "recovery"),
        ("recovery = \"\"", OutOfRange { place: 12 }, "recovery"),
        (
            "predictor.kind = \"gshare\"",
            OutOfRange { place: 35 },
            "predictor.kind",
        ),
        (
            "predictor.kind = \"taken\"",
            OutOfRange { place: 35 },
            "predictor.kind",
        ),
        (
            "report.dump_address = 2",
            OutOfRange { place: 37 },
            "report.dump_address",
        ),
        ("cache.line = 24", NotPowerOfTwo { place: 31 }, "cache.line"),
        ("rob = \"a\"\nsets = 4", UnknownKey, ""),
        (
            "rob = 0\nreport.dump_words = true",
            WrongKind { place: 38 },
            "report.dump_words",
        ),
        (
            "cache.sets = 3\nreport.dump_words = 257",
            OutOfRange { place: 38 },
            "report.dump_words",
        ),
        ("forward = 0\nrob = 0", OutOfRange { place: 9 }, "rob"),
        (
            "cache.line = 5\ncache.sets = 3",
            NotPowerOfTwo { place: 29 },
            "cache.sets",
        ),
        (
            "rom_bytes = 8192\nram_size = 0",
            OutOfRange { place: 2 },
            "ram_size",
        ),
    ];
    for (text, error, key) in &CASES {
        is_refused(&rt, rt.alloc(), text, *error, key);
    }
}

#[test]
fn names_that_no_key_has(rt: HostRuntime) {
    static TEXTS: [&str; 6] = [
        "sets = 4",
        "\"cache.sets\" = 4",
        "\"\".rob = 4",
        "cache.size = 4",
        "cache.rob = 4",
        "[arrival]",
    ];
    for text in &TEXTS {
        is_refused(&rt, rt.alloc(), text, UnknownKey, "");
    }
}

// Checks that bytes are no TOML.
fn is_no_toml(rt: &impl Abort, alloc: Global, bytes: &[u8]) {
    assert!(rt; fault(alloc, bytes) == Some(NotToml));
}

#[test]
fn bytes_that_are_no_toml(rt: HostRuntime) {
    static TEXTS: [&[u8]; 5] = [
        b"rob = 16\nrob = 16",
        b"rob = 0x",
        b"rob = ",
        b"# \xff",
        b"rob = 16 # \xc3",
    ];
    for bytes in &TEXTS {
        is_no_toml(&rt, rt.alloc(), bytes);
    }
}
