//! The rows of sessions, step by step: calls of the BDOS and the BIOS, the command processor, consoles and lines that are edited.
#![tactic(auto)]

mod calls;
mod commands;
mod consoles;
mod edited_lines;
mod looks;
mod mode;
mod session;
mod steps;
mod text;

pub use calls::Calls;
pub use commands::Commands;
pub use consoles::Consoles;
pub use edited_lines::EditedLines;
