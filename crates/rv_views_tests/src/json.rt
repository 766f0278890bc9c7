mod entry;
mod fetched;
mod header;
mod instructions;
mod listing;
mod observed;
mod operands;
mod sets;
mod steps;
mod stops;
mod stores;
mod units;
mod words;

use crate::checks::check_bytes;
use std::process::Abort;

// A text that was written is this one.
fn expect_text(rt: &impl Abort, text: &Vec<u8>, expected: &[u8]) {
    check_bytes(rt, text.as_slice(), expected);
}
