//! The states of a run as JSON, and a page for a browser with a viewer of them: before a window of cycles memory and the
//! cache, and for each cycle what happened in it and the hardware after it, a line each. Its model is the text of a line, a
//! function of the hardware alone, and of a run the lines of its cycles. What a line is made of has a text of its own, a
//! function of it alone: the machine's values, a line of the program, a word of memory, a set of the cache, an instruction in
//! flight, a fetched word, a store, the units, the registers, a place of the predictor's tables.
#![tactic(auto)]

mod array;
mod counts;
mod cycle;
mod entries;
mod entry;
mod fetched;
mod form;
mod in_flight;
mod instruction;
mod json;
mod listing;
mod machine;
mod memory;
mod moment;
mod observed;
mod operand;
mod operands;
mod page;
mod place;
mod prediction;
mod predictor;
mod queue;
mod registers;
mod running;
mod set;
mod sets;
mod state;
mod states;
mod step;
mod stop;
mod units;
mod viewer;
mod word;

pub use array::{Values, write_array_member};
pub use cycle::{write_cycle, write_start};
pub use entry::write_entry;
pub use fetched::write_fetch_buffer;
pub use form::Form;
pub use instruction::Instructions;
pub use listing::write_listing;
pub use machine::write_header;
pub use memory::write_memory;
pub use observed::write_observed;
pub use operand::write_operand;
pub use queue::write_store_queue;
pub use set::write_set;
pub use sets::write_sets;
pub use states::write_states;
pub use step::Steps;
pub use stop::write_stop;
pub use units::write_units;
pub use word::write_word;
