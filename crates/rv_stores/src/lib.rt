//! The store queue of the out-of-order core: stores in program order, from their dispatch until their bytes are in the
//! cache. Its model is the list of the stores, oldest first, and the capacity. The core enters stores at dispatch, fills
//! them at broadcast, commits them at retirement and drains them to the cache; loads read the bytes that it forwards.
#![tactic(auto)]

mod forwarding;
mod queue;
mod store;

pub use queue::StoreQueue;
pub use store::{Store, StorePhase, StoreState};
