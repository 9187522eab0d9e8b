//! The words of replies.
ghost use Rattle.std.specs.Prelude.{◌≡◌};
ghost use Rattle.cpm_protocol.specs.Words.{ending_word, refusal_why, refusal_word, stop_word};

/// Why a grant ended.
#[derive(Clone, Copy, Debug, PartialEq, Eq, Drop)]
pub enum GrantStop {
    /// All steps were executed.
    All,
    /// The session ended.
    Stopped,
    /// The next step begins in the program at the address before which the grant was to stop.
    Break,
    /// The console or the list device has no room for what a step may put: take some output.
    Blocked,
    /// The next step waits for a key.
    Waiting,
}

impl GrantStop {
    /// The word of a reply.
    pub fn word(self) -> &'static str
        ensures { result.now ≡ stop_word self }
    {
        match self {
            GrantStop::All => "All",
            GrantStop::Stopped => "Stopped",
            GrantStop::Break => "Break",
            GrantStop::Blocked => "Blocked",
            GrantStop::Waiting => "Waiting",
        }
    }
}

/// Whether a session still runs, and else how it ended.
#[derive(Clone, Copy, Debug, PartialEq, Eq, Drop)]
pub enum WireEnd {
    Running,
    Halted,
    Illegal,
    Quota,
    CountEnd,
    Exited,
}

impl WireEnd {
    /// The word of a reply.
    pub fn word(self) -> &'static str
        ensures { result.now ≡ ending_word self }
    {
        match self {
            WireEnd::Running => "Running",
            WireEnd::Halted => "Halted",
            WireEnd::Illegal => "Illegal",
            WireEnd::Quota => "Quota",
            WireEnd::CountEnd => "CountEnd",
            WireEnd::Exited => "Exited",
        }
    }
}

/// Why a request is refused. Nothing was changed.
#[derive(Clone, Copy, Debug, PartialEq, Eq, Drop)]
pub enum WireRefusal {
    NoSuchSlot,
    NoSlot,
    NoFrames,
    BadQuota,
    BadDrives,
    Damaged,
    OtherSystem,
    OutOfMemory,
    ReadOnly,
    DirectoryFull,
    DiskFull,
    NoFile,
    Exists,
    BadName,
    AbsentFile,
    BusyFile,
    DamagedDisk,
    FileFault,
}

impl WireRefusal {
    /// The word of a reply.
    pub fn word(self) -> &'static str
        ensures { result.now ≡ refusal_word self }
    {
        match self {
            WireRefusal::NoSuchSlot => "NoSuchSlot",
            WireRefusal::NoSlot => "NoSlot",
            WireRefusal::NoFrames => "NoFrames",
            WireRefusal::BadQuota => "BadQuota",
            WireRefusal::BadDrives => "BadDrives",
            WireRefusal::Damaged => "Damaged",
            WireRefusal::OtherSystem => "OtherSystem",
            WireRefusal::OutOfMemory => "OutOfMemory",
            WireRefusal::ReadOnly => "ReadOnly",
            WireRefusal::DirectoryFull => "DirectoryFull",
            WireRefusal::DiskFull => "DiskFull",
            WireRefusal::NoFile => "NoFile",
            WireRefusal::Exists => "Exists",
            WireRefusal::BadName => "BadName",
            WireRefusal::AbsentFile => "AbsentFile",
            WireRefusal::BusyFile => "BusyFile",
            WireRefusal::DamagedDisk => "DamagedDisk",
            WireRefusal::FileFault => "FileFault",
        }
    }

    /// What a person is told.
    pub fn why(self) -> &'static str
        ensures { result.now ≡ refusal_why self }
    {
        match self {
            WireRefusal::NoSuchSlot => "no slot of that number is open",
            WireRefusal::NoSlot => "no slot is free",
            WireRefusal::NoFrames => "the quotas of all open slots exceed the frames",
            WireRefusal::BadQuota => "the quota is not 16 to 256 pages",
            WireRefusal::BadDrives => "the session has no drive, or more than 4",
            WireRefusal::Damaged => "the bytes are no saving",
            WireRefusal::OtherSystem => "it was saved over another system drive",
            WireRefusal::OutOfMemory => "out of memory",
            WireRefusal::ReadOnly => "the file is read-only",
            WireRefusal::DirectoryFull => "the directory is full",
            WireRefusal::DiskFull => "the disk is full",
            WireRefusal::NoFile => "no such file",
            WireRefusal::Exists => "a file of that name is there",
            WireRefusal::BadName => "no file of a disk has such a name",
            WireRefusal::AbsentFile => "the folder has no such file",
            WireRefusal::BusyFile => "another command has the file",
            WireRefusal::DamagedDisk => "the file is no image of a sound disk",
            WireRefusal::FileFault => "the file can't be read or written",
        }
    }
}
