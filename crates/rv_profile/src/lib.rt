//! A table of what each instruction of a program cost in a run: how often it was fetched, retired and squashed, how long it
//! waited between its stages, how its loads fared, and the cycles that it stood at the head of the reorder buffer. The table is
//! a function of the counts of the run and of the listing of its program.
#![tactic(auto)]

mod running;
mod text;
mod written;

pub use text::write_table;
pub use written::write_profile;
