//! Texts that are written whole, or a beginning of them where a write fails: bytes, words in hexadecimal digits, and lines of a
//! name and a value. Its model is the text. The reports of runs and the lines that report faults stand on it.
#![tactic(auto)]

mod digits;
mod fields;
mod output;
mod plain;
mod sink;

pub use digits::{hexadecimal, three_digits};
pub use fields::{Field, Value};
pub use output::{ReportError, TextError, put};
pub use plain::{front, write_plain};
pub use sink::Sink;
