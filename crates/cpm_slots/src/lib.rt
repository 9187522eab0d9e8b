//! A host of up to 64 sessions over one system drive, each of which is a machine alone.
#![tactic(auto)]

mod drives;
pub mod event;
mod fork;
pub mod host;
pub mod laws;
mod remaking;
mod run;
mod saved;
mod slots;
mod system;
mod wait_grant;

pub use cpm_machine::{Closed, End, Granted, KeysFull, Look, Machine, OpenError, Opening, Why};
pub use cpm_memory::MOST_FRAMES;
pub use event::{Event, ForkError, HostRestoreError, Refusal, Reply, Request, SaveError, SlotId};
pub use host::{Host, LEAST_FRAMES, MOST_SLOTS};
