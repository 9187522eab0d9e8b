//! What calls on files answer.

/// A fault, of which the operating system prints its message.
#[derive(Clone, Copy, Debug, PartialEq, Eq)]
pub enum Fault {
    /// A block number above the drive's last.
    BadSector,
    /// No such drive.
    Select,
    /// The file is protected.
    FileReadOnly,
    /// The drive is protected.
    ReadOnly,
}

/// What a call on a record of a file answers.
#[derive(Clone, Copy, Debug, PartialEq, Eq)]
pub enum Answer {
    /// It was read or written: code 0.
    Done,
    /// The file has no such record, or can't go on: code 1.
    NoRecord,
    /// No block is free: code 2.
    NoBlock,
    /// The extent that was open can't be closed: code 3.
    CannotClose,
    /// The file has no such extent: code 4.
    NoExtent,
    /// No directory entry is free: code 5.
    NoEntryFree,
    Fault(Fault),
}
