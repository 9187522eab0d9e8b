//! The rows of memories and of instructions.
#![tactic(auto)]

mod instructions;
mod memories;
mod memory_lines;
mod registers;

pub use instructions::Instructions;
pub use memories::Memories;
pub use registers::register;
