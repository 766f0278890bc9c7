//! The tests of the instruction set, of the one-at-a-time machine and of the parts of the core, each by what its crate
//! makes public. They stand apart, so that no crate is proved a second time for them.
#![tactic(auto)]

#[cfg(test)]
mod arch;
#[cfg(test)]
mod cache;
#[cfg(test)]
mod checks;
#[cfg(test)]
mod decode;
#[cfg(test)]
mod decoded;
#[cfg(test)]
mod front;
#[cfg(test)]
mod halves;
#[cfg(test)]
mod isa;
#[cfg(test)]
mod memory;
#[cfg(test)]
mod rename;
#[cfg(test)]
mod rob;
#[cfg(test)]
mod stations;
#[cfg(test)]
mod stores;
#[cfg(test)]
mod units;
#[cfg(test)]
mod words;
