//! A session: registers, console, and the call in progress. Its memory lies elsewhere.

ghost use Rattle.std.specs.Prelude.{◌≡◌, IfOk};
ghost use Rattle.cpm_bdos.specs.Step.{no_file, opened_session};
ghost use Rattle.cpm_bdos.specs.Bounds.{IsFit};

use crate::registers::{at_opening, pair_de};
use cpm_console::{Console, Line};
use cpm_drives::Disks;
use cpm_flags::Regs;
use cpm_geom::Image;
use cpm_volume::{Extent, Fcb};
use std::alloc::{AllocError, Global};

/// How a step of a call ended.
#[derive(Clone, Copy, Debug, PartialEq, Eq)]
pub enum Went {
    /// The call returned to the program.
    Returned,
    /// It needs a key, and none is pending.
    Waits,
    /// Its next step is still to come.
    GoesOn,
    /// The session was booted anew.
    Reboot,
}

/// Output that ^S stopped, and that begins anew after a key.
#[derive(Clone, Copy, Debug, PartialEq, Eq)]
pub enum HeldOutput {
    /// A call that showed nothing yet.
    Call,
    /// A text, from the character at an address on.
    Text { next: u16 },
    /// A part of the command processor.
    Command(CommandPart),
}

/// What the command processor does next. Its own crate does it; PC stays where it is called.
#[derive(Clone, Copy, Debug, PartialEq, Eq)]
pub enum CommandPart {
    /// A key of the line after the prompt.
    Line,
    /// The first part of the command on the line.
    Begin,
    /// The files of a directory, from an entry on; so many are shown on the last line, of four.
    Directory { next: u16, column: u8 },
    /// A key of the answer whether all files are to be erased.
    Answer,
    /// The files are erased, if the answer is yes.
    EraseAll,
    /// The record at an address is saved; so many are left.
    Save { next: u16, left: u16 },
    /// The saved file is closed.
    Close,
    /// A record of a file is shown.
    Show,
    /// A record of a program is loaded at an address.
    Load { next: u16 },
}

/// What the next step of a session does.
#[derive(Clone, Copy, Debug, PartialEq, Eq)]
pub enum Mode {
    /// The instruction at PC, or the call that PC names.
    Program,
    /// The character at an address, in a call that shows a text.
    Text { next: u16 },
    /// A key of the session's line, in a call that reads a line.
    Line,
    /// The key that ends a hold of output.
    Hold(HeldOutput),
    /// The key that ends the message of a fault.
    Fault,
    /// A part of the command processor.
    Command(CommandPart),
}

/// The sector that the BIOS reads or writes next, and where in memory.
#[derive(Clone, Copy, Debug, PartialEq, Eq)]
pub struct SectorPlace {
    /// The drive, 0 for A.
    pub drive: u8,
    pub track: u16,
    pub sector: u16,
    /// The address of the buffer.
    pub buffer: u16,
}

/// A session without its memory.
#[derive(Drop)]
pub struct Session {
    pub regs: Regs,
    pub console: Console,
    /// The line that is being read, in mode `Line`.
    pub line: Line,
    pub mode: Mode,
    pub disks: Disks,
    /// The address of the buffer of a record, for the BDOS.
    pub buffer: u16,
    /// What the BIOS keeps of a sector.
    pub place: SectorPlace,
    /// The file of the command processor's command.
    pub file: Fcb,
}

/// A blank file control block.
fn no_file() -> Fcb
    ensures { result ≡ no_file }
{
    Fcb {
        drive: 0,
        extent: Extent {
            name: [b' '; 11],
            ex: 0,
            s1: 0,
            s2: 0,
            record_count: 0,
            blocks: [0; 16],
        },
        current_record: 0,
        random_record: [0; 3],
    }
}

impl Session {
    /// A session at its opening, with this console and drives of these images, the first as A. It takes no memory.
    pub fn new(console: Console, images: Vec<Image>) -> Self
        ensures { result ≡ opened_session console images.items }
    {
        Session {
            regs: at_opening(),
            console,
            line: Line::new(0, 0),
            mode: Mode::Program,
            disks: Disks::new(images),
            buffer: 0x0080,
            place: SectorPlace {
                drive: 0,
                track: 0,
                sector: 1,
                buffer: 0x0080,
            },
            file: no_file(),
        }
    }

    /// An equal session; refused if out of memory.
    pub fn copy(&self, alloc: Global) -> Result<Session, AllocError>
        ensures { IfOk result (λ session. session ≡ self.now) }
    {
        Ok(Session {
            regs: self.regs,
            console: self.console.copy(alloc)?,
            line: self.line.copied(),
            mode: self.mode,
            disks: self.disks.copy(alloc)?,
            buffer: self.buffer,
            place: self.place,
            file: self.file,
        })
    }

    /// Does nothing, and says of every session that its columns and its line's length are bytes, and its addresses words.
    pub fn numbers_fit(&self)
        ensures { IsFit self.now }
    {
        let _column = self.console.column();
        let _start = self.line.start();
        let _characters = self.line.characters();
        let _parameter = pair_de(&self.regs);
        let _buffer = self.buffer;
        let _sector_buffer = self.place.buffer;
    }
}
