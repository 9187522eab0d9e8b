//! One machine: a session with its memory, run step by step.
#![tactic(auto)]

pub mod digest;
pub mod laws;
pub mod machine;
pub mod opening;
mod program;
pub mod reply;
pub mod saving;
pub mod steps;
pub mod to_wait;
mod trap;
pub mod until;

pub use cpm_ccp::{MOST_TAIL, Tail};
pub use cpm_saved::{RestoreError, SavingDamage, SavingPart};
pub use digest::{SystemDigest, digest_of};
pub use machine::Machine;
pub use opening::{LEAST_QUOTA, MOST_DRIVES, MOST_PROGRAM, MOST_QUOTA, OpenError, Opening};
pub use reply::{Closed, End, Granted, KeysFull, Look, Why};
