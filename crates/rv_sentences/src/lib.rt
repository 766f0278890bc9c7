//! What `explain` counts of a run and how it is written in plain sentences, but for the run itself: exceptions and
//! interrupts, what became of the places for dispatch, where the cycles went, what became of the fetched words and of
//! the predictions, why instructions stayed in flight, what loads and drains cost, and the lines that cost the most.
//! Each text is a function of the counts and of the listing of the program.
#![tactic(auto)]

mod accesses;
mod counted_line;
mod dispatches;
mod drained;
mod drains;
mod exception;
mod exceptions;
mod flushers;
mod greatest_lines;
mod hotspots;
mod interrupt_lines;
mod interruption;
mod interrupts;
mod kind_lines;
mod kinds;
mod left;
mod lines;
mod loads;
mod longest;
mod outcome_text;
mod outcomes;
mod place_lines;
mod raised;
mod series;
mod stack;
mod stay;
mod stay_lines;
mod stays;
mod store_counts;
mod stored;
mod stores;
mod untaken;
mod waiting_stores;
mod word_notes;
mod work;
mod worst;

pub use accesses::Accesses;
pub use dispatches::{Dispatches, write_dispatches};
pub use drained::Drained;
pub use drains::{add_drain, write_drains};
pub use exception::Exception;
pub use exceptions::write_first;
pub use flushers::{flusher_after, idle_with};
pub use hotspots::write_hotspots;
pub use interrupt_lines::write_interrupts;
pub use interruption::Interruption;
pub use interrupts::{Interrupts, interruption_in};
pub use kind_lines::write_exceptions;
pub use kinds::Exceptions;
pub use left::add_left;
pub use loads::write_loads;
pub use longest::write_longest;
pub use outcomes::Outcomes;
pub use place_lines::{write_greatest_places, write_places};
pub use raised::Raised;
pub use series::Series;
pub use stack::{write_counts, write_stalls};
pub use stay::Stay;
pub use stay_lines::{write_awaited, write_greatest_waits, write_stays};
pub use stays::{Stays, add_stays};
pub use store_counts::StoreCounts;
pub use stores::note_stores;
pub use untaken::write_untaken;
pub use waiting_stores::WaitingStores;
pub use word_notes::{WordNotes, count_one};
pub use work::{Class, Work, write_work};
pub use worst::write_worst;
