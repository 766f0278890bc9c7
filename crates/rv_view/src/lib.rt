//! One loop that shows a run: it follows the instructions through the hardware, and shows each cycle to a view, with what became
//! of them by its end. Its model is the walk through the cycles of the run; a view says what it keeps of them and what its text is.
#![tactic(auto)]

mod following;
mod shown_cycle;
mod view;
mod viewed;

pub use following::{Following, begin_table, follow, follow_numbers, follow_on};
pub use shown_cycle::ShownCycle;
pub use view::View;
pub use viewed::{Viewed, run_view};
