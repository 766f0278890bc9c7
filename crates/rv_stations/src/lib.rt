//! The reservation stations: for each kind of unit, the instructions that wait for their operands or
//! for a unit, in order of their sequence numbers, each operand a value or the tag of its producer.
//! The core dispatches into them, and issues the oldest ready instruction of a kind.
#![tactic(auto)]

mod column;
mod lanes;
mod marks;
mod places;
mod pool;
mod stations;
mod waiting;

pub use stations::Stations;
pub use waiting::{Operand, Ready, Taken, Verdict, Waiting};
