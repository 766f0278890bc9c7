//! The core: a speculative, out-of-order machine by Tomasulo's algorithm with a reorder buffer, cycle by cycle. It joins
//! the parts (reorder buffer, reservation stations, common data bus, rename map, store queue, units, cache, front) into
//! the hardware that `rv_hardware` defines.
#![tactic(auto)]

mod broadcast;
mod collector;
mod commit;
mod counting;
mod cycles;
mod dispatch;
mod drain;
mod errors;
mod execute;
mod head;
mod issue;
mod lent;
mod load;
mod outcome;
mod parts;
mod pipeline;
mod serialising;
mod simulated;
mod steps;
mod watching;

pub use counting::{Counted, count_run};
pub use cycles::run;
pub use errors::{NewError, OutOfMemory};
pub use outcome::{CycleReport, Outcome};
pub use pipeline::Pipeline;
