//! The console and the line that is being read, in a saving.

ghost use Rattle.std.specs.Prelude.{◌≡◌, OnOk};
ghost use Rattle.cpm_console.specs.Terminal.{most_pending, most_waiting, waiting_on};
ghost use Rattle.cpm_saved.specs.Layout.{Run};
ghost use Rattle.cpm_saved.specs.Reading.{IsPartAppended, IsPartRead};
ghost use Rattle.cpm_saved.specs.SavedConsole.{console_fields, console_layout, line_fields, line_layout};
ghost use Rattle.cpm_saved.specs.declared.part.SavingPart.{SavingPart as Part};

use crate::append::{append_byte, append_flag, append_run};
use crate::part::SavingPart;
use crate::reader::{Reader, RestoreError};
use cpm_console::{Console, Device, Line};
use std::alloc::{AllocError, Global};

/// How many keys may be pending.
const MOST_PENDING: u16 = 4096;

/// How many bytes may wait on each device.
const MOST_WAITING: u16 = 8192;

/// The most characters that a line has.
const MOST_CHARACTERS: u16 = 255;

/// Appends the keys that were not read.
fn append_keys(out: &mut Vec<u8>, console: &Console) -> Result<(), AllocError>
    ensures { OnOk result ((part : Part) → IsPartAppended (Run part most_pending 256) console.now.keys out.old.items out.new.items) }
{
    let (front, back) = console.keys();
    append_run(out, front, back, MOST_PENDING)?;
    Ok(())
}

/// Appends the bytes that were not taken from a device.
fn append_waiting(out: &mut Vec<u8>, console: &Console, device: Device) -> Result<(), AllocError>
    ensures { OnOk result ((part : Part) → IsPartAppended (Run part most_waiting 256) (waiting_on device console.now) out.old.items out.new.items) }
{
    let (front, back) = console.waiting_on(device);
    append_run(out, front, back, MOST_WAITING)?;
    Ok(())
}

/// Appends the console.
pub fn append_console(out: &mut Vec<u8>, console: &Console) -> Result<(), AllocError>
    ensures { OnOk result (IsPartAppended console_layout (console_fields console.now) out.old.items out.new.items) }
{
    append_keys(out, console)?;
    append_waiting(out, console, Device::Console)?;
    append_waiting(out, console, Device::List)?;
    append_byte(out, console.column())?;
    append_flag(out, console.list_echo())?;
    Ok(())
}

/// Reads the console. It is refused if out of memory too.
pub fn read_console(alloc: Global, reader: &mut Reader<'_>) -> Result<Console, RestoreError>
    ensures { IsPartRead console_layout console_fields reader.old reader.new result }
{
    let keys = reader.run(SavingPart::Keys, MOST_PENDING, 256)?;
    let screen = reader.run(SavingPart::ConsoleBytes, MOST_WAITING, 256)?;
    let printer = reader.run(SavingPart::ListBytes, MOST_WAITING, 256)?;
    let column = reader.byte(SavingPart::Column)?;
    let list_echo = reader.flag(SavingPart::ListEcho)?;
    Ok(Console::with_contents(alloc, keys, screen, printer, column, list_echo)?)
}

/// Appends the line that is being read.
pub fn append_line(out: &mut Vec<u8>, line: &Line) -> Result<(), AllocError>
    ensures { OnOk result (IsPartAppended line_layout (line_fields line.now) out.old.items out.new.items) }
{
    append_byte(out, line.start())?;
    append_byte(out, line.limit())?;
    append_run(out, line.characters(), &[], MOST_CHARACTERS)?;
    Ok(())
}

/// Reads the line that is being read.
pub fn read_line(reader: &mut Reader<'_>) -> Result<Line, RestoreError>
    ensures { IsPartRead line_layout line_fields reader.old reader.new result }
{
    let start = reader.byte(SavingPart::Line)?;
    let limit = reader.byte(SavingPart::Line)?;
    let characters = reader.run(SavingPart::Line, MOST_CHARACTERS, 256)?;
    Ok(Line::with_characters(start, limit, characters))
}
