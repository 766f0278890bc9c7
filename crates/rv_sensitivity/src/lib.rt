//! Which machines are one change away from a described one: each size and width twice as large, each latency and cost half as
//! long, and the other choices, within the ranges of the keys. Its model is the list of these neighbours, a function of the
//! machine. The table of what would help a program stands on it.
#![tactic(auto)]

mod change;
mod neighbour;
mod setting;
mod trials;

pub use change::{Change, Widths};
pub use neighbour::{Neighbour, neighbours};
pub use setting::{KeyValue, Setting, Settings, changes, says_how_fast};
pub use trials::{Trial, all_trials};
