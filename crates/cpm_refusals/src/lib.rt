//! The codes of refusals: what is at fault, and the exit status that a program gives for it.
#![tactic(auto)]

mod code;

pub use code::RefusalCode;
