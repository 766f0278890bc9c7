//! The functional units and the common data bus: the units' model is, kind by kind, the starts that
//! still hold a unit, and the bus's is the results in order of their sequence numbers that wait for
//! their broadcast. The core issues by the one and broadcasts by the other.
#![tactic(auto)]

mod bus;
mod unit_pool;
mod units;

pub use bus::{Bus, PendingResult};
pub use units::Units;
