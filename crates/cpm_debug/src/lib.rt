//! The debugger: orders that are read line by line, and what a machine answers them.
#![tactic(auto)]

mod answer;
mod debug;
mod error;
mod grant_line;
mod hear;
mod memory;
mod order;
mod press;
mod source;
mod write;

pub use debug::{debug_machine, run_debug};
pub use error::DebugError;
pub use order::Order;
