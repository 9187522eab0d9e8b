//! What a saving is made of, by name.

/// A part of a saving, as it is named where the saving is refused.
#[derive(Clone, Copy, Debug, PartialEq, Eq, Drop)]
pub enum SavingPart {
    /// What every saving begins with.
    Magic,
    /// The version of the format.
    Version,
    /// The digest of the system drive.
    SystemDigest,
    Processor,
    /// Whether the machine was made with a program.
    Program,
    Quota,
    Count,
    End,
    Registers,
    /// A page of the memory.
    Page,
    /// The keys that were pressed and not yet read.
    Keys,
    /// The console bytes that were not taken.
    ConsoleBytes,
    /// The list bytes that were not taken.
    ListBytes,
    /// The column of the cursor.
    Column,
    /// Whether the list device gets what the console shows.
    ListEcho,
    /// The line that is being read.
    Line,
    /// What the next step does.
    Mode,
    /// The address of the buffer of a record.
    Buffer,
    /// The sector that the BIOS reads or writes next.
    SectorPlace,
    /// The file of the command processor's command.
    CommandFile,
    /// A drive and its marks.
    Drive,
    /// The image of a drive.
    Image,
    CurrentDrive,
    User,
    Search,
    /// Where the saving ends.
    Rest,
}

/// Where bytes are no saving: the part that can't be read there, and the place where it begins, counted from 0.
#[derive(Clone, Copy, Debug, PartialEq, Eq, Drop)]
pub struct SavingDamage {
    pub field: SavingPart,
    pub at: usize,
}
