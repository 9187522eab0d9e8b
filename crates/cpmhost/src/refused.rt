//! A refusal with what the machine says of it.
ghost use Rattle.std.specs.Prelude.{◌≡◌};

use cpm_host::{HostError, ShownWord, shown};
use std::alloc::{AllocError, AllocFailed};
use std::path::PathBuf;
use std::{fmt, io};

/// What is said after the text of a refusal.
#[derive(Debug, Drop)]
pub enum RefusalDetail {
    Nothing,
    /// Why the machine didn't read or write the file.
    Reason(io::Error),
    /// The output of this name is the same file.
    Output(ShownWord),
    /// The input of this name is the same file.
    Input(ShownWord),
    /// The output lies in a folder that files are written into, of which one may get its name.
    InFolder,
    /// It is a pipe, which is named twice.
    NamedTwice,
    /// It is a pipe, on which keys are typed.
    TypedOn,
    /// The file is there, and is not to be replaced.
    Present,
    /// The file lies in none of the folders that a run may use.
    Outside,
    /// It lies there, and is a device, a pipe or a folder.
    NotRegular,
    /// The name of an output is not of a kind that is taken.
    NotPlain,
    /// What was to be written is whole in the file of this path.
    Kept(PathBuf),
    /// The command can do it again.
    RunAgain,
}

/// A path as it stands on a line: `?` for what a refusal doesn't show either.
#[derive(Drop)]
pub struct PathLine<'a>(pub &'a str);

impl fmt::Display for PathLine<'_> {
    fn fmt<W: fmt::Write>(&self, f: &mut fmt::Formatter<W>) -> fmt::Result {
        for c in self.0.chars() {
            let mut room = [0; 4];
            let character = shown(c.encode_utf8(&mut room));
            write!(f, "{character}")?;
        }
        Ok(())
    }
}

impl fmt::Display for RefusalDetail {
    fn fmt<W: fmt::Write>(&self, f: &mut fmt::Formatter<W>) -> fmt::Result {
        match self {
            RefusalDetail::Nothing => Ok(()),
            RefusalDetail::Reason(reason) => write!(f, ": {reason}"),
            RefusalDetail::Output(other) => write!(f, " and '{other}': they are one file"),
            RefusalDetail::Input(other) => write!(
                f,
                " over the input '{other}': they are one file"
            ),
            RefusalDetail::InFolder => write!(f, ": it lies in a folder of --out-folder"),
            RefusalDetail::NamedTwice => write!(
                f,
                ": it is a pipe, which gives its bytes only once, and it is named twice"
            ),
            RefusalDetail::TypedOn => {
                write!(f, ": it is the pipe from which the typed keys come")
            }
            RefusalDetail::Present => write!(f, ": it is there; --force replaces it"),
            RefusalDetail::Outside => write!(f, ": it is not in the folders of --within"),
            RefusalDetail::NotRegular => write!(f, ": it is no regular file, as --within wants"),
            RefusalDetail::NotPlain => write!(f, ": it is no plain name, as --outputs-here wants"),
            RefusalDetail::Kept(path) => {
                let path = PathLine(path.as_path().as_str());
                write!(f, "; the new bytes are in '{path}'; move them yourself")
            }
            RefusalDetail::RunAgain => write!(f, "; run it again"),
        }
    }
}

/// Why a command is refused, on one line.
#[derive(Debug, Drop)]
pub struct CommandRefusal {
    pub error: HostError,
    pub behind: RefusalDetail,
}

impl fmt::Display for CommandRefusal {
    fn fmt<W: fmt::Write>(&self, f: &mut fmt::Formatter<W>) -> fmt::Result {
        let code = self.error.code();
        let (error, behind) = (&self.error, &self.behind);
        write!(f, "{code} {error}{behind}")
    }
}

impl From<HostError> for CommandRefusal {
    fn from(error: HostError) -> CommandRefusal {
        CommandRefusal {
            error,
            behind: RefusalDetail::Nothing,
        }
    }
}

impl From<AllocError> for CommandRefusal {
    fn from(_error: AllocError) -> CommandRefusal {
        CommandRefusal::from(HostError::OutOfMemory)
    }
}

impl<T: Drop> From<AllocFailed<T>> for CommandRefusal {
    fn from(_error: AllocFailed<T>) -> CommandRefusal {
        CommandRefusal::from(HostError::OutOfMemory)
    }
}
