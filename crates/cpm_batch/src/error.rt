//! Why reading is given up.
ghost use Rattle.std.specs.Prelude.{◌≡◌};
ghost use Rattle.cpm_batch.specs.Inputs.{code_of_reading};
ghost use Rattle.cpm_batch.specs.declared.error.ReadError.TheVariants.{OutOfMemory};

use crate::saved::SavingRefusal;
use cpm_refusals::RefusalCode;
use cpm_script::LineFault;
use cpm_shown::ShownWord;
use std::alloc::{AllocError, AllocFailed};
use thiserror::Error;

/// Why what the sessions of a configuration need can't be read. Its text is shown after its code.
#[derive(Clone, Copy, Debug, Drop, Error)]
pub enum ReadError {
    /// A file can't be read, or has more than 16,777,216 bytes.
    #[error("can't read '{0}'")]
    File(ShownWord),
    /// A file is no image, by its length.
    #[error("'{name}' has {length} bytes, and the image of a drive has 256256 or 2105344")]
    Image {
        name: ShownWord,
        length: usize,
    },
    /// The file of a saved machine is none, or it is damaged.
    #[error("{0}")]
    Saving(SavingRefusal),
    /// A session names another number of files for the images of its drives than its saving, or its parent's, has.
    #[error("session '{session}': its saving has drives: {drives}; names in 'out': {names}")]
    SavedDrives {
        session: ShownWord,
        drives: usize,
        names: usize,
    },
    /// A session is forked at a count that is before the one that its parent was saved at.
    #[error("session '{session}' is forked at count {at}, and its parent was saved at count {count}")]
    ForkedEarly {
        session: ShownWord,
        at: u64,
        count: u64,
    },
    /// A line of a key script is wrong.
    #[error("'{name}', line {line}: {fault}")]
    Script {
        name: ShownWord,
        line: u64,
        fault: LineFault,
    },
    /// Memory was refused.
    #[error("out of memory")]
    OutOfMemory,
}

impl ReadError {
    /// The code that it is shown with.
    pub fn code(&self) -> RefusalCode
        ensures { result ≡ code_of_reading self.now }
    {
        match self {
            ReadError::Script { .. } => RefusalCode::Script,
            ReadError::File(_) => RefusalCode::Unreadable,
            ReadError::Image { .. } => RefusalCode::Image,
            ReadError::Saving(_) => RefusalCode::Machine,
            ReadError::SavedDrives { .. } | ReadError::ForkedEarly { .. } => {
                RefusalCode::Configuration
            }
            ReadError::OutOfMemory => RefusalCode::OutOfMemory,
        }
    }
}

impl From<AllocError> for ReadError {
    ghost from_gives = { λ _ e. e ≡ OutOfMemory };

    fn from(_error: AllocError) -> ReadError {
        ReadError::OutOfMemory
    }
}

impl<T: Drop> From<AllocFailed<T>> for ReadError {
    ghost from_gives = { λ _ e. e ≡ OutOfMemory };

    fn from(_error: AllocFailed<T>) -> ReadError {
        ReadError::OutOfMemory
    }
}
