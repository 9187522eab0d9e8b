//! The files of a run: what is read for the sessions of a configuration, and what is written after them.
#![tactic(auto)]

mod error;
mod forked;
mod input;
mod output;
mod recording;
mod restored;
mod saved;
mod source;

pub use error::ReadError;
pub use input::{Input, Start, read_inputs};
pub use output::{SessionFiles, outputs_of};
pub use saved::{SavedMachine, SavingRefusal, version_in};
pub use source::{Replay, key_file};
