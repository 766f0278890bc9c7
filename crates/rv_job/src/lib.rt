//! Jobs and comparisons: their texts, read from the bytes of the input, and the lines that report their faults. Its
//! model of a job is the machine, the arrivals and the image that the parts of its text mean, and of a comparison a job
//! for each machine that is described. The program stands on it.
#![tactic(auto)]

mod comparison;
mod errors;
mod fault_lines;
mod faults;
mod image_text;
mod input;
mod job;
mod job_text;
mod listed_job;
mod parts;

pub use comparison::{Comparison, read_comparison};
pub use errors::SimError;
pub use fault_lines::FaultLines;
pub use image_text::{DescribedImage, read_image_text, write_image_line};
pub use input::{InputError, read_input};
pub use job::Job;
pub use job_text::read_job;
pub use listed_job::{ListedJob, read_listed_job};
pub use parts::{Parts, cut_into_parts, without_mark, without_return};
