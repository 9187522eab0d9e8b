//! What the command processor says.

ghost use Rattle.std.specs.Prelude.{◌≡◌, ◌≤◌, length};
ghost use Rattle.cpm_ccp.specs.Message.{message_text};

/// A message, which is shown on a fresh line.
#[derive(Clone, Copy, PartialEq, Eq, Debug)]
pub(crate) enum Message {
    /// No file has the name.
    NoFile,
    /// The new name is that of a file.
    FileExists,
    /// The directory or the disk is full.
    NoSpace,
    /// Asks whether all files are to be erased.
    EraseAll,
    /// The program is too long.
    BadLoad,
    RenameForm,
    SaveForm,
    TypeForm,
    UserForm,
}

impl Message {
    /// Its text.
    pub(crate) fn text(self) -> &'static [u8]
        ensures value { result.now ≡ message_text self }
        ensures short { length result.now ≤ 16 }
    {
        match self {
            Message::NoFile => b"NO FILE",
            Message::FileExists => b"FILE EXISTS",
            Message::NoSpace => b"NO SPACE",
            Message::EraseAll => b"ALL (Y/N)?",
            Message::BadLoad => b"BAD LOAD",
            Message::RenameForm => b"REN?",
            Message::SaveForm => b"SAVE?",
            Message::TypeForm => b"TYPE?",
            Message::UserForm => b"USER?",
        }
    }
}
