//! Checkpoints of a run: where its sessions stand, as bytes and of bytes.
#![tactic(auto)]

pub mod checkpoint;
pub mod laws;
mod reader;
mod reading;
mod writing;

pub use checkpoint::{Checkpoint, CheckpointError, CheckpointSession, MOST_SESSIONS};
