//! The machine that programs see: the control and status registers, traps, and the reference that
//! takes one step at a time. Its definitions, in `specs/`, are what the whole simulator is held
//! against.
#![tactic(auto)]

mod csr;
mod csr_fields;
mod csrs;
mod observed;
mod outcome;
mod reference;
mod run;

pub use csr::{CsrOperand, Illegal};
pub use csrs::Csrs;
pub use observed::Observed;
pub use outcome::{RefOutcome, RefStep, Stop};
pub use reference::{Reference, extended};
pub use run::run_reference;
