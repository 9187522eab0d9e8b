//! Rows of what the commands of `cpmhost` do: programs, sources, listings, checks, the debugger, and runs of sessions over a store.
#![tactic(auto)]

mod asked;
mod config;
mod given;
mod looks;
mod played;
mod programs;
mod recorder;
mod runs;
mod texts;

pub use programs::Programs;
pub use runs::Runs;
