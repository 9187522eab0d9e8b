//! The command processor: what it makes of the lines that are typed, its steps in a session, and what a program finds of its line.
#![tactic(auto)]

mod built_in;
mod capitals;
mod command;
mod files;
pub mod laws;
mod listing;
mod loading;
mod message;
mod names;
mod number;
mod operands;
mod parse;
mod parts;
mod prompt;
mod showing;
mod step;
mod tail;
mod words;

pub use command::Command;
pub use loading::load_step;
pub use parse::parse_command;
pub use step::ccp_step;
pub use tail::{MOST_TAIL, Tail, leave_tail};
