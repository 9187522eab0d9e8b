//! Why a run is refused.
ghost use Rattle.std.specs.Prelude.{◌≡◌};
ghost use Rattle.cpm_run.specs.declared.error.RunError.TheVariants.{OutOfMemory};
ghost use Rattle.cpm_run.specs.Refusals.{code_of_run, run_error_of_live, run_error_of_reading};

use cpm_batch::ReadError;
use cpm_config::ConfigError;
use cpm_machine::OpenError;
use cpm_play::LiveError;
use cpm_refusals::RefusalCode;
use cpm_shown::ShownWord;
use std::alloc::{AllocError, AllocFailed};
use std::{fmt, io};
use thiserror::Error;

/// Why the sessions of a configuration are not run. Its text is one line, which is shown after its code.
#[derive(Clone, Copy, Drop, Error)]
pub enum RunError {
    /// The configuration has no session of this name.
    #[error("the configuration has no session '{0}'")]
    NoSession(ShownWord),
    /// The session of this name is forked, so that its first keys are those of another.
    #[error("session '{0}' is forked: its keys can't be typed, but those of the session that it is forked from")]
    NotOpened(ShownWord),
    /// The configuration is refused.
    #[error("{0}")]
    ConfigRefused(ConfigError),
    /// The session of this name has too many keys, with those that the one had before that it is forked from.
    #[error("session '{0}' has more than 4096 keys, with those of the session that it is forked from")]
    TooManyKeys(ShownWord),
    /// A file of a run is refused: a key script, what can't be read, an image.
    #[error("{0}")]
    FileRefused(ReadError),
    /// Standard input can't be read.
    #[error("can't read standard input: {0}")]
    InputUnreadable(io::Error),
    /// Standard output can't be written.
    #[error("can't write to standard output: {0}")]
    OutputUnwritable(io::Error),
    /// The list device of a machine can't be written.
    #[error("can't write the list device: {0}")]
    ListUnwritable(io::Error),
    /// The record of the keys can't be written.
    #[error("can't write the record of the keys: {0}")]
    RecordUnwritable(io::Error),
    /// A file of a run can't be written.
    #[error("can't write '{0}'")]
    WriteFault(ShownWord),
    /// Memory was refused.
    #[error("out of memory")]
    OutOfMemory,
    /// The session of this name can't be opened so.
    #[error("session '{name}': {fault}")]
    SessionRefused {
        name: ShownWord,
        fault: OpenError,
    },
    /// The session of this name goes on from a saving that was made over another system drive.
    #[error("session '{0}' goes on from a machine that was saved over another system drive")]
    SavedElsewhere(ShownWord),
    /// The session of this name can't be opened: the quotas of all sessions are more pages than there are frames.
    #[error("session '{name}': quotas of {quotas} pages in all, and frames = {frames}")]
    FramesExceeded {
        name: ShownWord,
        quotas: u128,
        frames: u16,
    },
}

/// Why a host has no slot for a session.
#[derive(Clone, Copy, Drop)]
pub(crate) enum StartFault {
    /// It can't be opened, or forked, for this reason.
    Unopened(OpenError),
    /// It goes on from a saving that was made over another system drive.
    Elsewhere,
}

impl fmt::Debug for RunError {
    fn fmt<W: fmt::Write>(&self, f: &mut fmt::Formatter<W>) -> fmt::Result {
        let code = self.code();
        write!(f, "{code} {self}")
    }
}

impl RunError {
    /// The code that it is shown with.
    pub fn code(&self) -> RefusalCode
        ensures { result ≡ code_of_run self.now }
    {
        match self {
            RunError::NoSession(_) | RunError::NotOpened(_) => RefusalCode::Usage,
            RunError::ConfigRefused(_) => RefusalCode::Configuration,
            RunError::TooManyKeys(_) => RefusalCode::Script,
            RunError::FileRefused(error) => error.code(),
            RunError::InputUnreadable(_) => RefusalCode::Unreadable,
            RunError::OutputUnwritable(_)
            | RunError::ListUnwritable(_)
            | RunError::RecordUnwritable(_)
            | RunError::WriteFault(_) => RefusalCode::Unwritable,
            RunError::OutOfMemory => RefusalCode::OutOfMemory,
            RunError::SessionRefused { .. }
            | RunError::SavedElsewhere(_)
            | RunError::FramesExceeded { .. } => RefusalCode::Machine,
        }
    }
}

impl From<ReadError> for RunError {
    ghost from_gives = { λ r e. e ≡ run_error_of_reading r };

    fn from(error: ReadError) -> RunError {
        match error {
            ReadError::OutOfMemory => RunError::OutOfMemory,
            fault => RunError::FileRefused(fault),
        }
    }
}

impl From<LiveError> for RunError {
    ghost from_gives = { λ l e. e ≡ run_error_of_live l };

    fn from(error: LiveError) -> RunError {
        match error {
            LiveError::Unreadable(reason) => RunError::InputUnreadable(reason),
            LiveError::Unwritable(reason) => RunError::OutputUnwritable(reason),
            LiveError::Unprinted(reason) => RunError::ListUnwritable(reason),
            LiveError::Unrecorded(reason) => RunError::RecordUnwritable(reason),
            LiveError::OutOfMemory => RunError::OutOfMemory,
        }
    }
}

impl From<AllocError> for RunError {
    ghost from_gives = { λ _ e. e ≡ OutOfMemory };

    fn from(_error: AllocError) -> RunError {
        RunError::OutOfMemory
    }
}

impl<T: Drop> From<AllocFailed<T>> for RunError {
    ghost from_gives = { λ _ e. e ≡ OutOfMemory };

    fn from(_error: AllocFailed<T>) -> RunError {
        RunError::OutOfMemory
    }
}
