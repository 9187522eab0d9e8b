//! Why a file is not put on a disk, taken off it or given another name.

use cpm_directory::DriveFault;
use thiserror::Error;

/// Why what was asked of a sound disk is not done.
#[derive(Clone, Copy, Debug, PartialEq, Eq, Drop, Error)]
pub enum FileRefusal {
    /// The file may not be changed: an entry of it has the attribute read-only.
    #[error("the file is read-only")]
    ReadOnly,
    /// Fewer directory entries are free than the file needs.
    #[error("the directory is full")]
    DirectoryFull,
    /// Fewer blocks are free than the file needs.
    #[error("the disk is full")]
    DiskFull,
    /// The disk has no file of the name.
    #[error("no such file")]
    NoFile,
    /// The disk has a file of the name that another is to get.
    #[error("a file of that name is there")]
    Exists,
}

/// Why nothing is done.
#[derive(Clone, Copy, Debug, PartialEq, Eq, Drop, Error)]
pub enum ImageFilesError {
    /// The disk's directory doesn't agree with itself.
    #[error("{0}")]
    Damaged(DriveFault),
    #[error("{0}")]
    Refused(FileRefusal),
    #[error("out of memory")]
    OutOfMemory,
}
