//! Pictures of a run: what became of each fetched instruction in the cycles of a window, drawn as text for a terminal or as an
//! SVG. Its model is the text of the picture.
#![tactic(auto)]

mod picture;
mod recording;
mod written;

pub use picture::{Form, Rows, RunEnd, View};
pub use written::write_picture;
