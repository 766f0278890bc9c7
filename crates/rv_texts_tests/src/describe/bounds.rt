use super::check_fault;
use rv_describe::{DescriptionError, key_name};
use std::alloc::Global;
use std::process::Abort;
use std::test::Fail;

// Checks the fault, if any, of a text that gives one key a number.
fn check_key(
    rt: &impl Abort,
    alloc: Global,
    place: usize,
    number: i64,
    expected: Option<DescriptionError>,
) -> Result<(), Fail> {
    let text = format!(in alloc; "{} = {number}", key_name(place))?;
    check_fault(rt, alloc, text.as_str(), expected);
    Ok(())
}

// The numbers at a key's ends are taken, and those beside them are out of range.
fn is_bounded(
    rt: &impl Abort,
    alloc: Global,
    place: usize,
    low: u32,
    high: u32,
) -> Result<(), Fail> {
    let low = i64::from(low);
    let high = i64::from(high);
    let outside = Some(DescriptionError::OutOfRange { place });
    check_key(rt, alloc, place, low, None)?;
    check_key(rt, alloc, place, high, None)?;
    check_key(rt, alloc, place, low - 1, outside)?;
    check_key(rt, alloc, place, high + 1, outside)
}

#[test]
fn the_least_and_the_greatest_number_of_each_key(rt: HostRuntime) -> Result<(), Fail> {
    const BOUNDS: [(usize, u32, u32); 32] = [
        (1, 0, 0xff00_0000),
        (2, 4096, 16_777_216),
        (3, 0, 65_536),
        (4, 1, 8),
        (5, 1, 8),
        (6, 1, 8),
        (7, 1, 8),
        (8, 1, 32),
        (9, 1, 256),
        (10, 1, 64),
        (11, 1, 64),
        (13, 1, 64),
        (14, 1, 8),
        (15, 1, 64),
        (17, 1, 64),
        (18, 1, 8),
        (19, 1, 64),
        (21, 1, 64),
        (22, 1, 8),
        (23, 1, 64),
        (25, 1, 64),
        (26, 1, 8),
        (27, 1, 64),
        (29, 1, 256),
        (30, 1, 16),
        (31, 4, 128),
        (32, 1, 16),
        (33, 0, 1000),
        (34, 0, 1000),
        (36, 1, 4096),
        (37, 0, 0xffff_fffc),
        (38, 0, 256),
    ];
    for (place, low, high) in &BOUNDS {
        is_bounded(&rt, rt.alloc(), *place, *low, *high)?;
    }
    Ok(())
}

#[test]
fn ram_begins_no_page_after_the_last_that_it_may_begin(rt: HostRuntime) -> Result<(), Fail> {
    let outside = Some(DescriptionError::OutOfRange { place: 1 });
    check_key(&rt, rt.alloc(), 1, 0xff00_1000, outside)
}

fn check_name(rt: &impl Abort, place: usize, key: &str) {
    assert!(rt; key_name(place) == key, "{place}");
}

#[test]
fn the_texts_of_keys(rt: HostRuntime) {
    static KEYS: [(usize, &str); 9] = [
        (0, ""),
        (1, "ram_base"),
        (3, "rom_bytes"),
        (12, "recovery"),
        (13, "alu.stations"),
        (28, "mem.pipelined"),
        (34, "cache.write_back"),
        (38, "report.dump_words"),
        (39, ""),
    ];
    for (place, key) in &KEYS {
        check_name(&rt, *place, key);
    }
}
