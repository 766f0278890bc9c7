//! The critical path of a run: a view that reads what hardware shows of each cycle for the path that rv_causes follows, and keeps
//! it as far as the last retirement, trap or interrupt. The text of a run, its account and the marks of a window of it are
//! functions of that path.
#![tactic(auto)]

mod marked;
mod marking;
mod marks;
mod path_account;
mod reading;
mod running;
mod written;

pub use marked::path_marks;
pub use path_account::{PathAccount, account_path};
pub use written::write_path;
