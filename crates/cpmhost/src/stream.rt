//! The standard streams of the program where an output is one of them, by whatever name: each is written where it stands, so that nothing that the program
//! prints there lies over it.

ghost use Rattle.std.specs.Prelude.{◌≤◌, IfOk, length};

use crate::held::LockableFiles;
use crate::patient::{PatientError, PatientOutput};
use std::alloc::AllocError;
use std::io::{ErrorKind, Write};
use std::path::{Path, PathBuf};
use std::rt::Files;
use std::{fs, io};

/// A standard stream that is written.
#[derive(Clone, Copy, Debug, PartialEq, Eq, Drop)]
pub enum Stream {
    Output,
    Error,
}

impl Stream {
    /// Writes some of the bytes to it, and says how many.
    pub fn write(self, rt: &impl LockableFiles, bytes: &[u8]) -> io::Result<usize>
        ensures bound { IfOk result (λ n. n ≤ length bytes.now) }
    {
        match self {
            Stream::Output => PatientOutput::new(rt).write(bytes),
            Stream::Error => PatientError::new(rt).write(bytes),
        }
    }
}

/// The folders in which this process has what it has open, each under its number.
const OWN_FOLDERS: [&str; 2] = ["/proc/self/fd", "/proc/thread-self/fd"];

/// A path without links that leads where this one does, or why there is none. The empty path is that of the current folder.
pub fn real_path(
    rt: &(impl Files + AllocGlobal),
    path: Path<'_>,
) -> Result<io::Result<PathBuf>, AllocError> {
    let path = match path.as_str() {
        "" => Path::new("."),
        _ => path,
    };
    match fs::canonicalize(rt, path) {
        Err(error) if error.kind() == ErrorKind::OutOfMemory => Err(AllocError),
        found => Ok(found),
    }
}

/// Whether a folder is one in which this process has what it has open.
fn is_own_folder(rt: &(impl Files + AllocGlobal), folder: Path<'_>) -> Result<bool, AllocError> {
    let Ok(folder) = real_path(rt, folder)? else {
        return Ok(false);
    };
    for own in OWN_FOLDERS {
        if let Ok(own) = real_path(rt, Path::new(own))?
            && own.as_path().as_str() == folder.as_path().as_str()
        {
            return Ok(true);
        }
    }
    Ok(false)
}

/// The standard stream that a path is of by its number, if it is one of this process. The path is of something that a process has open.
pub fn stream_of(
    rt: &(impl Files + AllocGlobal),
    path: &str,
) -> Result<Option<Stream>, AllocError> {
    let path = Path::new(path);
    let (Some(folder), Some(number)) = (path.parent(), path.file_name()) else {
        return Ok(None);
    };
    let stream = match number {
        "1" => Stream::Output,
        "2" => Stream::Error,
        _ => return Ok(None),
    };
    if is_own_folder(rt, folder)? {
        Ok(Some(stream))
    } else {
        Ok(None)
    }
}
