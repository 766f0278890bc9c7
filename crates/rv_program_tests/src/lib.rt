//! The tests of the program by its library: of one call over any streams, of what a job and a command come to, and of what fails.
//! They stand apart, so that no crate is proved a second time for them.
#![tactic(auto)]

#[cfg(test)]
mod checks;
#[cfg(test)]
mod comparisons;
#[cfg(test)]
mod described;
#[cfg(test)]
mod examples;
#[cfg(test)]
mod explanations;
#[cfg(test)]
mod guesses;
#[cfg(test)]
mod helpers;
#[cfg(test)]
mod hostile;
#[cfg(test)]
mod logs;
#[cfg(test)]
mod outputs;
#[cfg(test)]
mod pictures;
#[cfg(test)]
mod pieces;
#[cfg(test)]
mod predictors;
#[cfg(test)]
mod prefixes;
#[cfg(test)]
mod profiles;
#[cfg(test)]
mod programs;
#[cfg(test)]
mod reading;
#[cfg(test)]
mod recoveries;
#[cfg(test)]
mod references;
#[cfg(test)]
mod reports;
#[cfg(test)]
mod sensitivities;
#[cfg(test)]
mod simulations;
#[cfg(test)]
mod statements;
#[cfg(test)]
mod words;
