//! The reports of a run, as text: what a run of the core or of the one-at-a-time machine did, and the state that it left;
//! the table that compares runs by what they came to, and the one that says which change of a machine would help. A report
//! is a function of the run and the state, a table of the runs' totals; where a write fails, what was written is a beginning
//! of it.
#![tactic(auto)]

mod compared_run;
mod comparison;
mod events;
mod live_report;
mod losses;
mod memory;
mod options;
mod reference_report;
mod rows;
mod run_report;
mod sensitivity;
mod shown;
mod speculation;
mod state;
mod totals;

pub use compared_run::run_totals;
pub use comparison::write_table;
pub use events::Events;
pub use live_report::write_run;
pub use losses::{ComparedRun, Losses};
pub use options::Options;
pub use reference_report::write_reference;
pub use run_report::{write_report, write_totals, write_trace};
pub use sensitivity::{TriedRun, in_order, write_sensitivity};
pub use shown::{Columns, Shown, TableOptions};
pub use totals::{StepCounts, Totals, count_steps};
