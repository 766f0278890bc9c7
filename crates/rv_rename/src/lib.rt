//! The rename map: which instruction in flight writes a register, and the checkpoints that undo a wrong path.
//!
//! A contract sees a `RenameMap` as its capacity, the list of the producers in flight (register and sequence number),
//! oldest first, and the list of its checkpoints, each with the producers that it would restore. The core stands on it.
#![tactic(auto)]

mod checkpoints;
mod producer;
mod rename_map;

pub use producer::Producer;
pub use rename_map::RenameMap;
