use crate::checks::check_true_at;
use rv_isa::{StoreBytes, Width};

#[test]
fn the_low_bytes_of_a_word_come_first(rt: HostRuntime) {
    static CASES: [(Width, &[u8]); 3] = [
        (Width::Byte, &[0x81]),
        (Width::Half, &[0x81, 2]),
        (Width::Word, &[0x81, 2, 3, 4]),
    ];
    for (width, bytes) in &CASES {
        let stored = StoreBytes::of_word(*width, 0x0403_0281);
        check_true_at(&rt, bytes.len() as u64, stored.as_slice() == *bytes);
    }
}
