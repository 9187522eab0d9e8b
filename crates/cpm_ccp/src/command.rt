//! The commands that a line can be.

use cpm_directory::Fcb;

/// A command with its operands, or the refusal that its line gets.
///
/// Names with a `?` stand in `Directory`, `Erase` and `EraseAll` alone.
#[derive(Clone, Copy, PartialEq, Eq, Debug)]
pub enum Command {
    /// A blank line.
    Nothing,
    /// Another current drive, 0 for A.
    SelectDrive(u8),
    /// DIR: the files that are to be listed.
    Directory(Fcb),
    /// ERA: the files that are to be erased.
    Erase(Fcb),
    /// ERA of all files of a drive, which is asked for first.
    EraseAll(Fcb),
    /// REN: both names are of the new one's drive.
    Rename { old: Fcb, new: Fcb },
    /// `REN?`
    RenameForm,
    /// SAVE: the pages of memory from 0100h on, and their file.
    Save { pages: u8, file: Fcb },
    /// `SAVE?`
    SaveForm,
    /// TYPE: the file that is to be shown.
    TypeFile(Fcb),
    /// `TYPE?`
    TypeForm,
    /// USER: another user, 0 to 15.
    User(u8),
    /// `USER?`
    UserForm,
    /// The file of a program, whose type is COM; the tail of the line is its own.
    Program(Fcb),
    /// The line's first word and `?`.
    Unknown,
}
