//! The tests of what is read: assembly texts, descriptions, jobs and why they are refused, and words of a command; and of the texts that are
//! written. They stand apart, so that no crate is proved a second time for them.
#![tactic(auto)]

#[cfg(test)]
mod asm;
#[cfg(test)]
mod checks;
#[cfg(test)]
mod command;
#[cfg(test)]
mod describe;
#[cfg(test)]
mod errors;
#[cfg(test)]
mod job;
#[cfg(test)]
mod refusal;
#[cfg(test)]
mod source;
#[cfg(test)]
mod text;
