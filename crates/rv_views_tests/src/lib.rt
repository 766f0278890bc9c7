//! The tests of what shows a run: reports, logs, pictures, states and explanations. They stand apart, so that no crate is proved
//! a second time for them.
#![tactic(auto)]

#[cfg(test)]
mod checks;
#[cfg(test)]
mod explain;
#[cfg(test)]
mod json;
#[cfg(test)]
mod log;
#[cfg(test)]
mod machine;
#[cfg(test)]
mod passage;
#[cfg(test)]
mod path;
#[cfg(test)]
mod path_marks;
#[cfg(test)]
mod picture;
#[cfg(test)]
mod profile;
#[cfg(test)]
mod registers;
#[cfg(test)]
mod report;
#[cfg(test)]
mod state_lines;
#[cfg(test)]
mod state_operands;
#[cfg(test)]
mod state_predictor;
#[cfg(test)]
mod state_start;
#[cfg(test)]
mod state_storage;
#[cfg(test)]
mod states;
