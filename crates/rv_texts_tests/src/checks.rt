//! What many tests compare, each comparison as a call.

use rv_source::Listing;
use std::process::Abort;

/// Checks bytes that were written.
pub(crate) fn check_bytes(rt: &impl Abort, found: &[u8], expected: &[u8]) {
    assert_eq!(rt; found, expected);
}

/// Checks an exit status and the text that was shown with it.
pub(crate) fn check_reported(
    rt: &impl Abort,
    (found_status, found): (u8, &[u8]),
    status: u8,
    text: &str,
) {
    assert_eq!(rt; found_status, status, "{text}");
    check_bytes(rt, found, text.as_bytes());
}

/// Checks how many there are of something.
pub(crate) fn check_count(rt: &impl Abort, found: usize, expected: usize) {
    assert_eq!(rt; found, expected);
}

/// Checks the number and the text of the line that the word at an address has, if it has one.
fn check_line(
    rt: &impl Abort,
    listing: &Listing,
    address: u32,
    number: Option<usize>,
    text: Option<&[u8]>,
) {
    let found = (listing.number_at(address), listing.text_at(address));
    assert_eq!(rt; found, (number, text), "{address}");
}

/// Checks the lines of the words at these addresses.
pub(crate) fn check_lines(
    rt: &impl Abort,
    listing: &Listing,
    rows: &[(u32, Option<usize>, Option<&[u8]>)],
) {
    for (address, number, text) in rows {
        check_line(rt, listing, *address, *number, *text);
    }
}
