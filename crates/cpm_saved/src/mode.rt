//! What the next step does, in a saving.

ghost use Rattle.std.specs.Prelude.{◌≡◌, OnOk};
ghost use Rattle.cpm_saved.specs.Reading.{IsPartAppended, IsPartRead};
ghost use Rattle.cpm_saved.specs.SavedMode.{IsCommandFit, IsModeFit, command_numbered, command_row};
ghost use Rattle.cpm_saved.specs.SavedMode.{mode_bytes, mode_layout, mode_numbered, mode_of_bytes, mode_row};

use crate::append::append_bytes;
use crate::part::SavingPart;
use crate::reader::{Reader, RestoreError};
use cpm_bdos::{CommandPart, HeldOutput, Mode};
use std::alloc::AllocError;

/// The bytes of a mode's number, of the number of a part of the command processor, and of two numbers of theirs.
fn row(mode: u8, part: u8, first: u16, second: u16) -> [u8; 6]
    ensures { result ≡ mode_row mode part first second }
{
    let [first_low, first_high] = first.to_le_bytes();
    let [second_low, second_high] = second.to_le_bytes();
    [mode, part, first_low, first_high, second_low, second_high]
}

/// The bytes of a part of the command processor, in the mode of a number.
fn command_row(mode: u8, command: CommandPart) -> [u8; 6]
    ensures bytes { result ≡ command_row mode command }
    ensures fits { IsCommandFit command }
{
    match command {
        CommandPart::Line => row(mode, 0, 0, 0),
        CommandPart::Begin => row(mode, 1, 0, 0),
        CommandPart::Directory { next, column } => row(mode, 2, next, u16::from(column)),
        CommandPart::Answer => row(mode, 3, 0, 0),
        CommandPart::EraseAll => row(mode, 4, 0, 0),
        CommandPart::Save { next, left } => row(mode, 5, next, left),
        CommandPart::Close => row(mode, 6, 0, 0),
        CommandPart::Show => row(mode, 7, 0, 0),
        CommandPart::Load { next } => row(mode, 8, next, 0),
    }
}

/// The bytes of a mode.
pub fn mode_bytes(mode: Mode) -> [u8; 6]
    ensures bytes { result ≡ mode_bytes mode }
    ensures fits { IsModeFit mode }
{
    match mode {
        Mode::Program => row(0, 0, 0, 0),
        Mode::Text { next } => row(1, 0, next, 0),
        Mode::Line => row(2, 0, 0, 0),
        Mode::Hold(HeldOutput::Call) => row(3, 0, 0, 0),
        Mode::Hold(HeldOutput::Text { next }) => row(4, 0, next, 0),
        Mode::Hold(HeldOutput::Command(command)) => command_row(5, command),
        Mode::Fault => row(6, 0, 0, 0),
        Mode::Command(command) => command_row(7, command),
    }
}

/// The part of the command processor of a number, with two numbers of its own.
fn command_numbered(part: u8, first: u16, second: u16) -> CommandPart
    ensures { result ≡ command_numbered part first second }
{
    match part {
        0 => CommandPart::Line,
        1 => CommandPart::Begin,
        2 => CommandPart::Directory {
            next: first,
            column: (second % 256) as u8,
        },
        3 => CommandPart::Answer,
        4 => CommandPart::EraseAll,
        5 => CommandPart::Save {
            next: first,
            left: second,
        },
        6 => CommandPart::Close,
        7 => CommandPart::Show,
        _ => CommandPart::Load { next: first },
    }
}

/// The mode of a number.
fn mode_numbered(mode: u8, first: u16, command: CommandPart) -> Mode
    ensures { result ≡ mode_numbered mode first command }
{
    match mode {
        0 => Mode::Program,
        1 => Mode::Text { next: first },
        2 => Mode::Line,
        3 => Mode::Hold(HeldOutput::Call),
        4 => Mode::Hold(HeldOutput::Text { next: first }),
        5 => Mode::Hold(HeldOutput::Command(command)),
        6 => Mode::Fault,
        _ => Mode::Command(command),
    }
}

/// The mode of such bytes.
fn mode_of_bytes(bytes: &[u8; 6]) -> Mode
    ensures { result ≡ mode_of_bytes bytes.now }
{
    let first = u16::from(bytes[2]) + 256 * u16::from(bytes[3]);
    let second = u16::from(bytes[4]) + 256 * u16::from(bytes[5]);
    mode_numbered(bytes[0], first, command_numbered(bytes[1], first, second))
}

/// Appends a mode.
pub fn append_mode(out: &mut Vec<u8>, mode: Mode) -> Result<(), AllocError>
    ensures appended { OnOk result (IsPartAppended mode_layout (mode_bytes mode) out.old.items out.new.items) }
    ensures fits { IsModeFit mode }
{
    append_bytes(out, &mode_bytes(mode))?;
    Ok(())
}

/// Reads a mode. Bytes that are not just those of their mode are refused.
pub fn read_mode(reader: &mut Reader<'_>) -> Result<Mode, RestoreError>
    ensures { IsPartRead mode_layout mode_bytes reader.old reader.new result }
{
    let at = reader.at();
    let bytes: [u8; 6] = reader.array(SavingPart::Mode)?;
    let mode = mode_of_bytes(&bytes);
    if mode_bytes(mode) == bytes {
        Ok(mode)
    } else {
        Reader::damaged(SavingPart::Mode, at)
    }
}
