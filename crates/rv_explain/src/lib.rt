//! What a run of the core came to, in plain sentences: by which exception it crashed, or how it ended and why, its exceptions and
//! interrupts, what became of its places for dispatch, where its cycles went, what became of the fetched words and of the
//! predictions, the lines with the most wrong ones, what its loads and the drains of its stores cost, and the lines that stood
//! longest at the head of the reorder buffer. The text is a function of the run and of the listing of its program.
#![tactic(auto)]

mod at_end;
mod crash;
mod cycle_places;
mod ending;
mod explanation;
mod figures;
mod head;
mod high_lines;
mod last_before;
mod origin;
mod running;
mod tally;
mod traps;

pub use explanation::write_explanation;
pub use figures::Figures;
