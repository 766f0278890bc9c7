use crate::checks::{check_equal, check_true};
use rv_isa::Width;
use rv_memory::{Backing, Ram};
use std::test::Fail;

const BASE: u32 = 0x8000_0000;

#[test]
fn front_of_ram_is_kept_from_stores(rt: HostRuntime) -> Result<(), Fail> {
    let ram = Ram::new(rt.alloc(), BASE, 65536, 4096)?;
    check_true(&rt, !ram.writable(0x8000_0ffc, 4));
    check_true(&rt, ram.in_range(0x8000_0ffc, 4));
    check_true(&rt, ram.writable(0x8000_1000, 4));
    check_true(&rt, ram.writable(0x8000_fffc, 4));
    check_true(&rt, !ram.writable(0x8001_0000, 1));
    check_true(&rt, !ram.writable(0x7fff_fffc, 4));
    Ok(())
}

#[test]
fn word_is_fetched_lowest_byte_first(rt: HostRuntime) -> Result<(), Fail> {
    let mut ram = Ram::new(rt.alloc(), BASE, 4096, 0)?;
    check_equal(&rt, ram.size(), 4096);
    ram.load(&[0x13, 0x05, 0xa0, 0x02]);
    check_equal(&rt, ram.fetch(BASE), Some(0x02a0_0513));
    check_equal(&rt, ram.fetch(BASE + 4), Some(0));
    check_equal(&rt, ram.fetch(BASE + 4096), None);
    check_equal(&rt, ram.fetch(BASE - 4), None);
    Ok(())
}

#[test]
fn half_word_has_its_lowest_byte_first(rt: HostRuntime) -> Result<(), Fail> {
    let mut ram = Ram::new(rt.alloc(), BASE, 4096, 0)?;
    check_true(&rt, ram.writable(BASE + 2, 2));
    ram.store(BASE + 2, Width::Half, 0x1234_5678);
    check_equal(&rt, ram.byte(BASE + 1), Some(0));
    check_equal(&rt, ram.byte(BASE + 2), Some(0x78));
    check_equal(&rt, ram.byte(BASE + 3), Some(0x56));
    check_equal(&rt, ram.byte(BASE + 4), Some(0));
    check_equal(&rt, ram.fetch(BASE), Some(0x5678_0000));
    check_equal(&rt, ram.byte(BASE + 4096), None);
    Ok(())
}
