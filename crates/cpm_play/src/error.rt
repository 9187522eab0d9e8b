//! Why sessions are not played to their end.
ghost use Rattle.std.specs.Prelude.{◌≡◌};
ghost use Rattle.cpm_play.specs.declared.error.PlayError.TheVariants.{OutOfMemory};

use cpm_slots::ForkError;
use std::alloc::AllocError;
use thiserror::Error;

/// Why sessions are not played to their end.
#[derive(Clone, Copy, Debug, Drop, Error)]
pub enum PlayError {
    /// The fork of the session at this place is refused for another reason than memory.
    #[error("the session at place {place} is not forked: {fault}")]
    ForkRefused { place: usize, fault: ForkError },
    /// Memory was refused.
    #[error("out of memory")]
    OutOfMemory,
}

impl From<AllocError> for PlayError {
    ghost from_gives = { λ _ e. e ≡ OutOfMemory };

    fn from(_error: AllocError) -> PlayError {
        PlayError::OutOfMemory
    }
}
