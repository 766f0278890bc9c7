use crate::checks::check_true;
use rv_memory::StaleMap;
use std::test::Fail;

#[test]
fn stored_word_is_stale_until_cleared(rt: HostRuntime) -> Result<(), Fail> {
    let mut stale = StaleMap::new(rt.alloc(), 0x8000_0000, 4096)?;
    check_true(&rt, stale.covers(0x8000_0ffd));
    check_true(&rt, !stale.covers(0x8000_1000));
    check_true(&rt, !stale.covers(0x7fff_ffff));
    stale.mark(0x8000_0ffd);
    check_true(&rt, stale.is_stale(0x8000_0ffc));
    check_true(&rt, stale.is_stale(0x8000_0fff));
    check_true(&rt, !stale.is_stale(0x8000_0ff8));
    check_true(&rt, !stale.is_stale(0x8000_1000));
    check_true(&rt, !stale.is_stale(0x7fff_fffc));
    stale.mark(0x8000_0010);
    check_true(&rt, stale.is_stale(0x8000_0010));
    check_true(&rt, !stale.is_stale(0x8000_000c));
    check_true(&rt, !stale.is_stale(0x8000_0014));
    stale.clear();
    check_true(&rt, !stale.is_stale(0x8000_0ffc));
    Ok(())
}
