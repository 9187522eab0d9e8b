//! The rows of machines and of hosts.
#![tactic(auto)]

mod hosts;
mod look;
mod machines;
mod playing;
mod restored;
mod saved;
mod shown;
mod timed_typist;

pub use hosts::Hosts;
pub use machines::Machines;
pub use restored::RestoredSlots;
pub use saved::SavedMachines;
