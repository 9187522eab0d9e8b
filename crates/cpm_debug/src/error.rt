//! Why the debugger is refused.

ghost use Rattle.std.specs.Prelude.{◌≡◌};
ghost use Rattle.cpm_debug.specs.Debug.{IsReadFailure};
ghost use Rattle.cpm_debug.specs.declared.error.DebugError.TheVariants.{OutOfMemory};

use std::alloc::{AllocError, AllocFailed};
use std::io;
use std::io::ErrorKind;
use thiserror::Error;

/// Why the debugger does not start, or ends early.
#[derive(Clone, Copy, Debug, Drop, Error)]
pub enum DebugError {
    /// The program has this many bytes, which is more than a machine takes.
    #[error("the program has {0} bytes, and a machine takes at most 58112")]
    ProgramTooLong(usize),
    /// The orders can't be read.
    #[error("can't read orders: {0}")]
    Unreadable(io::Error),
    /// The answers can't be written.
    #[error("can't write answers: {0}")]
    Unwritable(io::Error),
    /// Memory was refused.
    #[error("out of memory")]
    OutOfMemory,
}

impl DebugError {
    /// What a failed read comes to.
    pub(crate) fn of_read(error: io::Error) -> DebugError
        ensures { IsReadFailure result }
    {
        if error.kind() == ErrorKind::OutOfMemory {
            DebugError::OutOfMemory
        } else {
            DebugError::Unreadable(error)
        }
    }
}

impl From<AllocError> for DebugError {
    ghost from_gives = { λ _ e. e ≡ OutOfMemory };

    fn from(_error: AllocError) -> DebugError {
        DebugError::OutOfMemory
    }
}

impl<T: Drop> From<AllocFailed<T>> for DebugError {
    ghost from_gives = { λ _ e. e ≡ OutOfMemory };

    fn from(_error: AllocFailed<T>) -> DebugError {
        DebugError::OutOfMemory
    }
}
