//! What the simulated hardware is: its definition, in `specs/`, cycle by cycle, and what a cycle reports. The definition
//! has no reservation station, bus, operand tag or checkpoint in it: those are how `rv_core` computes it.
#![tactic(auto)]

mod draining;
mod report;
mod step;

pub use draining::{is_new_drain, new_drain_cost};
pub use report::{Stall, StallCounts};
pub use step::{Execution, Row, Step, first_pc};
