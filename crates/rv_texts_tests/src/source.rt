use crate::checks::check_lines;
use rv_source::{Listing, SourceLine};
use std::alloc::Global;
use std::test::Fail;

// Adds a line that has so many words.
fn push(
    listing: &mut Listing,
    alloc: Global,
    number: usize,
    text: &[u8],
    words: usize,
) -> Result<(), Fail> {
    let mut bytes = Vec::new(alloc);
    bytes.extend_from_slice(text)?;
    listing.push_line(SourceLine::new(number, bytes), words)?;
    Ok(())
}

#[test]
fn a_word_has_the_line_that_was_pushed_for_it(rt: HostRuntime) -> Result<(), Fail> {
    static ROWS: [(u32, Option<usize>, Option<&[u8]>); 6] = [
        (0x7fff_ffff, None, None),
        (0x8000_0000, Some(2), Some(b"la")),
        (0x8000_0007, Some(2), Some(b"la")),
        (0x8000_0008, None, None),
        (0x8000_000c, Some(9), Some(b"r")),
        (0x8000_0010, None, None),
    ];
    let alloc = rt.alloc();
    let mut listing = Listing::new(alloc, 0x8000_0000);
    push(&mut listing, alloc, 2, b"la", 2)?;
    listing.push_gap(1)?;
    push(&mut listing, alloc, 9, b"r", 1)?;
    check_lines(&rt, &listing, &ROWS);
    Ok(())
}
