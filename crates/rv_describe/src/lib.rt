//! Reads machine descriptions and lists of arrivals. Both are TOML documents: the model of a text is
//! the table that `toml` gives for its bytes. What is read is a [`Description`](rv_isa::Description)
//! or [`Arrivals`](rv_isa::Arrivals), legal by its type, or the text's first fault. Of a key it says in words what it
//! takes, and of a name that is none which keys are near.
#![tactic(auto)]

mod arrival_list;
mod arrivals_error;
mod description;
mod description_error;
mod document;
mod entries;
mod entry;
mod faults;
mod field;
mod held;
mod key_range;
mod near;
mod settings;
mod unknown;

pub use arrival_list::read_arrivals;
pub use arrivals_error::ArrivalsError;
pub use description::read_description;
pub use description_error::DescriptionError;
pub use document::is_toml;
pub use field::Field;
pub use key_range::{KeyNumber, KeyRange};
pub use near::{is_near, nearest_keys};
pub use rv_isa::key_name;
