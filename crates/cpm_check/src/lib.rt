//! The command `check`: whether the image of a drive is in order, or why not.
#![tactic(auto)]

mod check;
mod error;

pub use check::run_check;
pub use error::CheckError;
