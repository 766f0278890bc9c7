//! A run of the core as a log in Konata's format, version 0004: when each fetched instruction began each stage, and how it
//! left the hardware, written cycle by cycle as the run goes. Its model is the text of the log.
#![tactic(auto)]

mod command;
mod cycle;
mod dependence;
mod details;
mod event;
mod numbered;
mod room;
mod running;
mod stage;
mod statement;
mod wait;
mod waited;
mod written;

pub use written::write_log;
