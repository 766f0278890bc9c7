//! The reorder buffer: the instructions in flight in program order, each under its sequence number.
//!
//! A contract sees a `Rob` as its capacity, the count of retired instructions, and the list of its entries, oldest
//! first: the entry at place i has the number `retired + i`. The core stands on it.
#![tactic(auto)]

mod entry;
mod reorder_buffer;

pub use entry::{Entry, Stage};
pub use reorder_buffer::Rob;
