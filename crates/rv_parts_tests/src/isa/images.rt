use crate::checks::check_equal;
use rv_isa::Image;
use std::test::Fail;

#[test]
fn an_image_holds_a_copy_of_the_bytes(rt: HostRuntime) -> Result<(), Fail> {
    let image = Image::from_bytes(rt.alloc(), 0x8000_0000, b"abc", 0x8000_0004)?;
    check_equal(&rt, image.bytes.as_slice(), b"abc".as_slice());
    check_equal(&rt, (image.base, image.start), (0x8000_0000, 0x8000_0004));
    Ok(())
}
