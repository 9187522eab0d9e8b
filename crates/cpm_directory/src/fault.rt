//! What is wrong with the directory of a drive.

use thiserror::Error;

/// What is wrong with an entry that is in use. Entries are told by their indices.
#[derive(Clone, Copy, Debug, PartialEq, Eq, Drop, Error)]
pub enum DriveFault {
    /// The entry has a block number that no file can have: above the drive's last block, or of the directory's blocks.
    #[error("entry {entry} has the number {block}, which no file can have")]
    BadBlock { entry: u16, block: u16 },
    /// The entry has a block that stands before: in the map of `owner`, the first entry that has it, which may be this one.
    #[error("entry {entry} has block {block}, which entry {owner} has before")]
    TwiceBlock { entry: u16, block: u16, owner: u16 },
    /// The entry is of the user, the name and the group of extents of an earlier one.
    #[error("entry {entry} is of the same file and extents as entry {earlier}")]
    TwiceEntry { entry: u16, earlier: u16 },
}
