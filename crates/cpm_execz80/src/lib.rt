//! One instruction of the Zilog Z80, over any memory.
#![tactic(auto)]

pub mod bits;
pub mod blocks;
pub mod exec;
pub mod extended;
pub mod indexed;
pub mod laws;
pub mod registers;

pub use cpm_decode::Ran;
pub use exec::{execz80, stepz80};
