//! Why a job is refused, for its reader: the line at fault as it stands, where it stands, and what was expected there.
//! Its model is that text, as a function of the job's bytes and of its fault. The program shows it where a job is to be
//! explained. Beside it stands what is shown of words that are no command: some text of `clap`, with a hint after it.
#![tactic(auto)]

mod arrivals;
mod assembly;
mod byte_hint;
mod caret;
mod counterpart;
mod culprit;
mod definition;
mod described;
mod entry_line;
mod expected;
mod foreign_name;
mod further;
mod hint;
mod key_default;
mod key_hint;
mod key_line;
mod key_names;
mod lines;
mod name_hint;
mod name_on;
mod name_set;
mod names;
mod near;
mod operand_hint;
mod operand_shape;
mod operand_tokens;
mod operands;
mod place;
mod ranges;
mod refusal;
mod separator;
mod statement;
mod symbols;
mod text;
mod toml_fault;
mod unfit;
mod unknown;
mod usage;

pub use refusal::write_refusal;
pub use usage::show_usage;
