//! Why a command on disk images is refused.
ghost use Rattle.std.specs.Prelude.{◌≡◌};
ghost use Rattle.cpm_disk_commands.specs.Refusals.{code_of_disk_command};

use crate::damage::{Damage, NamedFile};
use cpm_image_files::FileRefusal;
use cpm_refusals::RefusalCode;
use cpm_shown::ShownWord;
use std::io;
use thiserror::Error;

/// Why a command is refused. Its text is one line, which is shown after its code.
#[derive(Clone, Copy, Debug, Drop, Error)]
pub enum DiskCommandError {
    /// The text is no name of a file.
    #[error("'{0}' is no name of a file: 1 to 8 characters and, after a dot, up to 3 are wanted, none of them a blank or of <>.,;:=?*[]_")]
    NotName(ShownWord),
    /// The text is no pattern of names.
    #[error("'{0}' is no pattern of names: a name is wanted, where '?' stands for any character and a last '*' for all that follow")]
    NotPattern(ShownWord),
    /// The text gives no file another name.
    #[error("'{0}' gives no file another name: NEW.TYP=OLD.TYP is wanted")]
    NotPair(ShownWord),
    /// Two files of the host would be one file of a disk.
    #[error("'{word}' would be {file}, as an earlier file is; give one of them another name: FILE=NAME.TYP")]
    PutTwice {
        word: ShownWord,
        file: NamedFile,
    },
    /// A file of the host is no image, by its length.
    #[error("'{image}' has {length} bytes, and the image of a drive has 256256 or 2105344; 'cpmhost disk new' makes a blank one")]
    NotImage {
        image: ShownWord,
        length: usize,
    },
    /// The directory of the image in a file of the host doesn't agree with itself.
    #[error("'{image}': {damage}; a session can still read it")]
    Damaged {
        image: ShownWord,
        damage: Damage,
    },
    /// The directory of a drive whose files were to go into a folder doesn't agree with itself.
    #[error("the drive that '{folder}' was to get the files of: {damage}; '--out-disk' writes it as it is")]
    LeftDamaged {
        folder: ShownWord,
        damage: Damage,
    },
    /// No file of the user has a name that matches.
    #[error("'{image}' has no file '{pattern}' of user {user}; 'cpmhost disk list' shows its files")]
    NoFile {
        image: ShownWord,
        pattern: ShownWord,
        user: u8,
    },
    /// What was asked of a file of a disk is not done.
    #[error("'{image}', {file}: {reason}; {advice}", advice = advice(*.reason))]
    Refused {
        image: ShownWord,
        file: NamedFile,
        reason: FileRefusal,
    },
    /// A file of a disk has a name that no file of the host gets.
    #[error("'{image}', {file}: a file of the host can't get this name; take it alone, by a pattern, to a file with '--to FILE'")]
    NoHostName {
        image: ShownWord,
        file: NamedFile,
    },
    /// Standard output can't be written.
    #[error("can't write to standard output: {0}")]
    OutputUnwritable(io::Error),
    /// Memory was refused.
    #[error("out of memory")]
    OutOfMemory,
}

/// What a person can do about it.
fn advice(reason: FileRefusal) -> &'static str {
    match reason {
        FileRefusal::ReadOnly => "a program in a session can take the attribute away",
        FileRefusal::DirectoryFull | FileRefusal::DiskFull => {
            "remove files, or put some on another disk; a large one ('cpmhost disk new --large') has more room"
        }
        FileRefusal::NoFile => "'cpmhost disk list' shows its files",
        FileRefusal::Exists => "remove that one first, or choose another name",
    }
}

impl DiskCommandError {
    /// The code that it is shown with.
    pub fn code(&self) -> RefusalCode
        ensures { result ≡ code_of_disk_command self.now }
    {
        match self {
            DiskCommandError::NotName(_)
            | DiskCommandError::NotPattern(_)
            | DiskCommandError::NotPair(_)
            | DiskCommandError::PutTwice { .. } => RefusalCode::Usage,
            DiskCommandError::OutputUnwritable(_) => RefusalCode::Unwritable,
            DiskCommandError::NotImage { .. }
            | DiskCommandError::Damaged { .. }
            | DiskCommandError::LeftDamaged { .. }
            | DiskCommandError::NoFile { .. }
            | DiskCommandError::Refused { .. }
            | DiskCommandError::NoHostName { .. } => RefusalCode::Image,
            DiskCommandError::OutOfMemory => RefusalCode::OutOfMemory,
        }
    }
}
