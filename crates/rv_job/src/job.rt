ghost use Rattle.std.specs.Prelude.{◌≡◌, ◌%◌, ◌≤◌, length};

use rv_isa::{Arrivals, Description, Image};

/// The most bytes of a job.
pub const MOST_BYTES: usize = 33_554_432;

/// What is to be simulated: an image that fits into the RAM of the machine that is described.
#[derive(Drop)]
pub struct Job {
    /// The machine.
    pub description: Description,
    /// When its interrupt lines change.
    pub arrivals: Arrivals,
    /// What RAM holds at first, and where execution starts.
    pub image: Image,
    ghost based: { image.base ≡ description.ram_base },
    ghost fits: { length image.bytes ≤ description.ram_size },
    ghost aligned: { image.start % 4 ≡ 0 },
}
