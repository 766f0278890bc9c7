//! What lies below the cache: RAM as a list of bytes, and the set of words that were stored to
//! since the last FENCE.I. The cache and the front of the core stand on it.
#![tactic(auto)]

mod backing;
mod byte_access;
mod ram;
mod stale;

pub use backing::Backing;
pub use ram::Ram;
pub use stale::StaleMap;
