//! Files on a drive: what a directory and a file control block say of them, the parts of which the file functions
//! consist, and their laws.
#![tactic(auto)]

pub mod answer;
mod encoding;
pub mod extent;
pub mod fcb;
pub mod laws;
pub mod rows;

pub use answer::{Answer, Fault};
pub use extent::{Entry, Extent};
pub use fcb::Fcb;
