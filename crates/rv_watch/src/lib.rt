//! What a run shows: the hardware after each cycle, by the parts that a core lends, and the counts of the cycles so far;
//! and what is shown it, a watcher. Its model is the hardware of `rv_hardware` and the cycles that led to it. A core runs
//! watchers, and the views are some, so that neither stands on the other.
#![tactic(auto)]

mod progress;
mod shown_hardware;
mod simulated;
mod watcher;

pub use progress::Progress;
pub use shown_hardware::ShownHardware;
pub use simulated::{Ended, Simulated};
pub use watcher::Watcher;
