//! The decoder and the encoder of instruction words: the manuals' listings as a table in `specs/`, and code that
//! branches on the fields of the word, proved to give what the table says. Every crate that reads or writes
//! instruction words stands on it.
#![tactic(auto)]

mod codec;
mod decoded;
mod fields;
mod formats;
mod opcodes;
mod operations;

pub use codec::{decode, encode};
pub use decoded::Decoded;
