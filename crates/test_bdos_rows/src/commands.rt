//! Rows of lines at the prompt, and what each of them is.

use crate::text::{add_number, add_quoted};
use cpm_ccp::{Command, parse_command};
use cpm_directory::{Extent, Fcb};
use std::alloc::{AllocError, Global};
use test_language::{RowAnswer, RowFault, RowLine, Scene, Word, bytes_of};

/// Nothing: each line stands by itself.
#[derive(Drop)]
pub struct Commands;

impl Scene for Commands {
    fn new(_alloc: Global) -> Result<Self, AllocError> {
        Ok(Commands)
    }

    fn is_alone(_verb: &str) -> bool {
        false
    }

    fn takes_text(_verb: &str) -> bool {
        false
    }

    fn act(&mut self, alloc: Global, line: &RowLine<'_>) -> Result<RowAnswer, RowFault> {
        match line.verb() {
            "line" => parse(alloc, line.arguments()),
            _ => Err(RowFault::Unknown),
        }
    }
}

/// `line DRIVE BYTES`: what a line is where this drive is the current one.
fn parse(alloc: Global, arguments: &[Word<'_>]) -> Result<RowAnswer, RowFault> {
    let [drive, text @ ..] = arguments else {
        return Err(RowFault::Words);
    };
    let text = bytes_of(alloc, text)?;
    Ok(RowAnswer::Words(command_words(alloc, *drive, text.as_slice())?))
}

/// What a line is where this drive is the current one, in words.
fn command_words(alloc: Global, drive: Word<'_>, text: &[u8]) -> Result<String, RowFault> {
    let command = parse_command(text, drive_of(drive.text)?);
    let mut words = String::new(alloc);
    add_command(alloc, &mut words, &command)?;
    Ok(words)
}

/// The number of a drive by its letter, 0 for A.
fn drive_of(letter: &str) -> Result<u8, RowFault> {
    match letter.as_bytes() {
        [letter @ b'A'..=b'P'] => Ok(*letter - b'A'),
        _ => Err(RowFault::Words),
    }
}

/// Adds the name of a command and its operands.
fn add_command(alloc: Global, out: &mut String, command: &Command) -> Result<(), AllocError> {
    match command {
        Command::Directory(file) => add_named(alloc, out, "Directory", file),
        Command::Erase(file) => add_named(alloc, out, "Erase", file),
        Command::EraseAll(file) => add_named(alloc, out, "EraseAll", file),
        Command::TypeFile(file) => add_named(alloc, out, "TypeFile", file),
        Command::Program(file) => add_named(alloc, out, "Program", file),
        _ => add_other(alloc, out, command),
    }
}

/// The same of a command that has no file, or more than one.
fn add_other(alloc: Global, out: &mut String, command: &Command) -> Result<(), AllocError> {
    match command {
        Command::SelectDrive(drive) => add_number(alloc, out, "SelectDrive ", u16::from(*drive)),
        Command::User(user) => add_number(alloc, out, "User ", u16::from(*user)),
        Command::Save { pages, file } => {
            add_number(alloc, out, "Save ", u16::from(*pages))?;
            add_file(alloc, out, file)
        }
        Command::Rename { old, new } => {
            add_named(alloc, out, "Rename", old)?;
            add_file(alloc, out, new)
        }
        _ => out.push_str(format!(in alloc; "{command:?}")?.as_str()),
    }
}

/// Adds the name of a command and its file.
fn add_named(alloc: Global, out: &mut String, name: &str, file: &Fcb) -> Result<(), AllocError> {
    out.push_str(name)?;
    add_file(alloc, out, file)
}

/// Adds the drive of a file control block, 1 for A, and its name; and that it has more than these, if it has.
fn add_file(alloc: Global, out: &mut String, file: &Fcb) -> Result<(), AllocError> {
    add_number(alloc, out, " ", u16::from(file.drive))?;
    out.push(' ')?;
    add_quoted(alloc, out, &file.extent.name)?;
    out.push_str(if has_more(file) { " and more" } else { "" })
}

/// Whether a file control block has more than a drive and a name.
fn has_more(file: &Fcb) -> bool {
    let plain = Fcb {
        drive: file.drive,
        extent: Extent {
            name: file.extent.name,
            ex: 0,
            s1: 0,
            s2: 0,
            record_count: 0,
            blocks: [0; 16],
        },
        current_record: 0,
        random_record: [0; 3],
    };
    *file != plain
}
