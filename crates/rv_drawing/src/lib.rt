//! The drawing of instructions in a window of cycles: a row for each of them, a column for each cycle, and in each cell what the
//! hardware did with the instruction then; as text for a terminal, and as an SVG. Its model is the text of the picture. It needs
//! no core, so that it is proved beside it.
#![tactic(auto)]

mod boxes;
mod cell;
mod columns;
mod frame;
mod label;
mod legend;
mod mark;
mod marks;
mod outcome;
mod over;
mod place;
mod room;
mod shorter;
mod style;
mod svg;
mod text;
mod title;
mod wait;
mod window;

pub use mark::Mark;
pub use room::room_name;
pub use svg::write_picture_svg;
pub use text::write_picture_text;
pub use title::put_correction;
pub use wait::{put_result, unit_name};
pub use window::Window;
