//! A write-back, write-allocate cache with least recently used lines replaced first, over any
//! backing. Callers see the list of bytes that a program sees, and for each set the lines that it
//! holds, most recently used first.
#![tactic(auto)]

mod cache;
mod line;
mod set;
mod write_back;

pub use cache::Cache;
pub use line::CacheLine;
