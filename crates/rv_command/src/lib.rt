//! The command line of the program `rv_sim`: what its words ask for. Its model is `clap`'s reading of the words with the program's
//! arguments. The program stands on it.
#![tactic(auto)]

mod also;
mod also_fault;
mod also_line;
mod arguments;
mod command;
mod help;
mod lone_token;
mod refused;
mod show_line;
mod shown;

pub use command::{Command, parse_words};
pub use shown::{Shown, ShownColumns};
