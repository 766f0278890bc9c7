//! What becomes of each fetched instruction, cycle by cycle: when it was fetched, dispatched, issued and broadcast, and how
//! it left the hardware. Its model is the list of passages in order of fetch; `specs/` defines what a cycle makes of it.
//! The pictures and logs of a run stand on it.
#![tactic(auto)]

mod by_address;
mod following;
mod in_flight;
mod kept;
mod left;
mod names;
mod passage;
mod producers;
mod put;
mod rows;
mod table;

pub use by_address::{Addressed, place_of, search_address};
pub use in_flight::MOST_IN_FLIGHT;
pub use left::up_to_youngest_left;
pub use names::register_name;
pub use passage::{Ending, Passage};
pub use producers::{Producer, Producers};
pub use table::Table;
