//! Which line of a source text each word of an image comes from, for those that show what a program did, and how a
//! place is printed. Its model is, for each word, the line with its number and its text, if the word comes from one.
#![tactic(auto)]

mod line;
mod listing;
mod place_text;

pub use line::SourceLine;
pub use listing::Listing;
pub use place_text::write_place;
