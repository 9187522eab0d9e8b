//! Files that lie beside the ones whose names they are to take.

use std::alloc::{AllocError, Global};
use std::fs::Metadata;
use std::io::ErrorKind;
use std::path::{Path, PathBuf};
use std::rt::Files;
use std::{fs, io};

/// Where a file is that is being written, and the one that it is to replace.
#[derive(Drop)]
pub struct Replacement {
    path: PathBuf,
    target: PathBuf,
}

impl Replacement {
    /// A file at a path, beside the one that it is to replace.
    pub fn new(path: PathBuf, target: PathBuf) -> Replacement {
        Replacement { path, target }
    }

    /// Where it is.
    pub fn path(&self) -> Path<'_> {
        self.path.as_path()
    }

    /// Where the one is that it is to replace.
    pub fn target(&self) -> Path<'_> {
        self.target.as_path()
    }

    /// Takes it away.
    pub fn remove(&self, rt: &impl Files) -> io::Result<()> {
        fs::remove_file(rt, self.path())
    }

    /// Gives it the name of the one that it is to replace.
    pub fn take_name(&self, rt: &impl Files) -> io::Result<()> {
        fs::rename(rt, self.path(), self.target())
    }

    /// Gives it its name, if nothing has that name by then. Where that fails nothing is left of it.
    pub fn take_new_name(&self, rt: &impl Files) -> io::Result<()> {
        let named = give_name(rt, self.path(), self.target());
        let _ = self.remove(rt);
        named
    }

    /// Leaves it under a name that a person can see, and says where it is: beside the one that it was to replace, by that one's name and its own. Where it can
    /// have no such name, it is where it was. None where it is there no more.
    pub fn keep(self, rt: &(impl Files + AllocGlobal)) -> Option<PathBuf> {
        if is_missing(fs::symlink_metadata(rt, self.path())) {
            return None;
        }
        match self.visible_path(rt.alloc()) {
            Ok(seen) if give_name(rt, self.path(), seen.as_path()).is_ok() => {
                let _ = self.remove(rt);
                Some(seen)
            }
            _ => Some(self.path),
        }
    }

    /// The path by which a person sees it.
    fn visible_path(&self, alloc: Global) -> Result<PathBuf, AllocError> {
        let name = self.path().file_name().unwrap_or("");
        let target = self.target();
        let path = format!(in alloc; "{}{name}", target.as_str())?;
        PathBuf::from_str(alloc, path.as_str())
    }
}

/// Whether a look at a path says that nothing is there. What can't be looked at may be there.
pub fn is_missing(looked: io::Result<Metadata>) -> bool {
    match looked {
        Ok(_) => false,
        Err(error) => error.kind() == ErrorKind::NotFound,
    }
}

/// Gives the file of a path another name too, if nothing has that: by a link, since a renaming would replace what has it. Where the file system has no second
/// names, the file is renamed.
fn give_name(rt: &impl Files, path: Path<'_>, name: Path<'_>) -> io::Result<()> {
    match fs::hard_link(rt, path, name) {
        Ok(()) => Ok(()),
        Err(error) if error.kind() == ErrorKind::AlreadyExists => Err(error),
        Err(_) if is_missing(fs::symlink_metadata(rt, name)) => fs::rename(rt, path, name),
        Err(error) => Err(error),
    }
}
