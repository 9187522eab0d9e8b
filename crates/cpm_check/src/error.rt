//! Why an image is not in order.
ghost use Rattle.std.specs.Prelude.{◌≡◌};
ghost use Rattle.cpm_check.specs.Check.{code_of_check};

use cpm_batch::ReadError;
use cpm_disk_commands::Damage;
use cpm_refusals::RefusalCode;
use cpm_shown::ShownWord;
use std::{fmt, io};
use thiserror::Error;

/// Why the check of an image is refused. Its text is one line, which is shown after its code.
#[derive(Clone, Copy, Drop, Error)]
pub enum CheckError {
    /// The file is no image, by its length.
    #[error("{0}")]
    FileRefused(ReadError),
    /// The directory of the image in a file doesn't agree with itself.
    #[error("'{name}': {damage}")]
    ImageDamaged { name: ShownWord, damage: Damage },
    /// Standard output can't be written.
    #[error("can't write to standard output: {0}")]
    OutputUnwritable(io::Error),
}

impl fmt::Debug for CheckError {
    fn fmt<W: fmt::Write>(&self, f: &mut fmt::Formatter<W>) -> fmt::Result {
        let code = self.code();
        write!(f, "{code} {self}")
    }
}

impl CheckError {
    /// The code that it is shown with.
    pub fn code(&self) -> RefusalCode
        ensures { result ≡ code_of_check self.now }
    {
        match self {
            CheckError::FileRefused(error) => error.code(),
            CheckError::ImageDamaged { .. } => RefusalCode::Image,
            CheckError::OutputUnwritable(_) => RefusalCode::Unwritable,
        }
    }
}
