//! What the instructions at each address of a program came to in a run: how often they were fetched, retired and
//! squashed, how long they waited between their stages, how their loads and predictions fared, and the cycles that they
//! stood at the head of the reorder buffer. Its model is the list of the counts, in order of address; `specs/` defines
//! what they are of the passages of a run. And what became of the places for dispatch of a run, of which each cycle has
//! as many as the dispatch width. The tables and the sentences on a run stand on it.
#![tactic(auto)]

mod counts;
mod cycle_places;
mod in_flight;
mod loads;
mod passing;
mod place_uses;
mod profile;
mod run_places;
mod wait;

pub use counts::WordCounts;
pub use cycle_places::places_by;
pub use loads::{LoadCosts, load_cost};
pub use passing::{has_retired, was_squashed};
pub use place_uses::{count_retired, count_traps, flush_of};
pub use profile::Profile;
pub use run_places::{CyclePlaces, Flush, Loss, Lost, Places, RunPlaces, Squashed};
pub use wait::Wait;
