//! Checkpoints as values.

ghost use Rattle.std.specs.Prelude.{◌≡◌, ◌≤◌, IfOk, Ok, length};
ghost use Rattle.cpm_checkpoint.specs.CheckpointBytes.{checkpoint_bytes, checkpoint_value, most_sessions};
ghost use Rattle.cpm_checkpoint.specs.CheckpointReading.{IsWholeParsed, checkpoint_read};

use crate::reading::read_checkpoint;
use crate::writing::checkpoint_bytes;
use std::alloc::{AllocError, AllocFailed, Global};
use thiserror::Error;

/// So many sessions a checkpoint may have.
pub const MOST_SESSIONS: usize = 64;

/// Where a session of a run stands.
#[derive(Debug, PartialEq, Eq, Drop)]
pub struct CheckpointSession {
    /// How many of its keys were pressed.
    pub pressed: u64,
    /// The steps that are done.
    pub done: u64,
    /// The console bytes that were taken.
    pub console: Vec<u8>,
    /// The list bytes that were taken.
    pub list: Vec<u8>,
    /// The saving of its machine.
    pub saving: Vec<u8>,
}

/// Where the sessions of a run stand.
#[derive(Debug, PartialEq, Eq, Drop)]
pub struct Checkpoint {
    /// The digest, by SHA-256, of what the run began with.
    pub beginning: [u8; 32],
    /// Its sessions; none is one that has not begun.
    pub sessions: Vec<Option<CheckpointSession>>,
}

/// Why bytes are not read as a checkpoint.
#[derive(Clone, Copy, Debug, PartialEq, Eq, Drop, Error)]
pub enum CheckpointError {
    /// They are none: the place of the first fault, counted from 0.
    #[error("the checkpoint is damaged at byte {at}")]
    Damaged { at: usize },
    #[error("out of memory")]
    OutOfMemory,
}

impl From<AllocError> for CheckpointError {
    ghost use Rattle.std.specs.Prelude.{◌≡◌};
    ghost use Rattle.cpm_checkpoint.specs.declared.checkpoint.CheckpointError.TheVariants.{OutOfMemory};

    ghost from_gives = { λ _ e. e ≡ OutOfMemory };

    fn from(_: AllocError) -> CheckpointError {
        CheckpointError::OutOfMemory
    }
}

impl<T: Drop> From<AllocFailed<T>> for CheckpointError {
    ghost use Rattle.std.specs.Prelude.{◌≡◌};
    ghost use Rattle.cpm_checkpoint.specs.declared.checkpoint.CheckpointError.TheVariants.{OutOfMemory};

    ghost from_gives = { λ _ e. e ≡ OutOfMemory };

    fn from(_: AllocFailed<T>) -> CheckpointError {
        CheckpointError::OutOfMemory
    }
}

impl Checkpoint {
    /// The bytes of a checkpoint; refused if out of memory.
    pub fn bytes(&self, alloc: Global) -> Result<Vec<u8>, AllocError>
        requires { length self.now.sessions.items ≤ most_sessions }
        ensures written { IfOk result (λ bytes. bytes.items ≡ checkpoint_bytes (checkpoint_value self.now)) }
        ensures restores { IfOk result (λ bytes. checkpoint_read bytes.items ≡ Ok (checkpoint_value self.now)) }
    {
        checkpoint_bytes(alloc, self)
    }

    /// The checkpoint of bytes. It is refused with the place of the first fault, or if out of memory.
    pub fn read(alloc: Global, bytes: &[u8]) -> Result<Checkpoint, CheckpointError>
        ensures read { IsWholeParsed checkpoint_value (checkpoint_read bytes.now) result }
        ensures written { IfOk result (λ c. checkpoint_bytes (checkpoint_value c) ≡ bytes.now) }
        ensures few { IfOk result (λ c. length c.sessions.items ≤ most_sessions) }
    {
        read_checkpoint(alloc, bytes)
    }
}
