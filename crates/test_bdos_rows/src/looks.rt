//! What a session is asked, and what is put into it as it stands.

use crate::mode::{mode_of, mode_words};
use crate::session::Caller;
use crate::text::middle;
use cpm_bdos::waits;
use cpm_ccp::{Tail, leave_tail};
use cpm_flags::Regs;
use cpm_memory::{Memory, get_run, has_room};
use std::alloc::Global;
use test_language::{RowAnswer, RowFault, Word, address, byte, bytes_of, count};

/// The bytes of a directory entry.
const ENTRY: usize = 32;

/// A register of 8 bits by its name.
fn register_of<'a>(regs: &'a mut Regs, name: &str) -> Option<&'a mut u8> {
    match name {
        "A" => Some(&mut regs.a),
        "B" => Some(&mut regs.b),
        "C" => Some(&mut regs.c),
        "D" => Some(&mut regs.d),
        "E" => Some(&mut regs.e),
        "H" => Some(&mut regs.h),
        "L" => Some(&mut regs.l),
        _ => None,
    }
}

/// What a register of 8 bits, PC or SP has.
fn register_value(alloc: Global, regs: &mut Regs, name: &str) -> Result<RowAnswer, RowFault> {
    match name {
        "PC" => RowAnswer::address(alloc, regs.pc),
        "SP" => RowAnswer::address(alloc, regs.sp),
        _ => match register_of(regs, name) {
            Some(register) => RowAnswer::byte(alloc, *register),
            None => Err(RowFault::Words),
        },
    }
}

/// Gives a register of 8 bits or PC the value that a word names.
fn set_register(regs: &mut Regs, name: &str, value: Word<'_>) -> Result<RowAnswer, RowFault> {
    if name == "PC" {
        regs.pc = address(value)?;
        return Ok(RowAnswer::Done);
    }
    match register_of(regs, name) {
        Some(register) => {
            *register = byte(value)?;
            Ok(RowAnswer::Done)
        }
        None => Err(RowFault::Words),
    }
}

/// The number of a drive by its letter, among those that a session has.
fn drive_number(letter: &str) -> Option<usize> {
    match letter {
        "A" => Some(0),
        "B" => Some(1),
        "C" => Some(2),
        "D" => Some(3),
        _ => None,
    }
}

impl Caller {
    /// `register NAME`: what a register of 8 bits, PC or SP has. `register NAME HH`, or HHHH for PC: it gets this.
    pub fn register(
        &mut self,
        alloc: Global,
        arguments: &[Word<'_>],
    ) -> Result<RowAnswer, RowFault> {
        let regs = &mut self.session.regs;
        match arguments {
            [name] => register_value(alloc, regs, name.text),
            [name, value] => set_register(regs, name.text, *value),
            _ => Err(RowFault::Words),
        }
    }

    /// `mode`: the mode in words. With words: it becomes this.
    pub fn mode(&mut self, alloc: Global, arguments: &[Word<'_>]) -> Result<RowAnswer, RowFault> {
        if arguments.is_empty() {
            return Ok(RowAnswer::Words(mode_words(alloc, self.session.mode)?));
        }
        self.session.mode = mode_of(arguments)?;
        Ok(RowAnswer::Done)
    }

    /// `buffer`: the address of the buffer of a record. With an address: it becomes this.
    pub fn buffer(&mut self, alloc: Global, arguments: &[Word<'_>]) -> Result<RowAnswer, RowFault> {
        match arguments {
            [] => RowAnswer::address(alloc, self.session.buffer),
            [at] => {
                self.session.buffer = address(*at)?;
                Ok(RowAnswer::Done)
            }
            _ => Err(RowFault::Words),
        }
    }

    /// `tail BYTES`: leaves the tail of a command where programs look.
    pub fn tail(&mut self, alloc: Global, arguments: &[Word<'_>]) -> Result<RowAnswer, RowFault> {
        let text = bytes_of(alloc, arguments)?;
        let Some(tail) = Tail::new(text.as_slice()) else {
            return RowAnswer::refused_text(alloc, "too long");
        };
        if !has_room(&self.memory) {
            return Err(RowFault::Unready);
        }
        leave_tail(&mut self.memory, &tail);
        Ok(RowAnswer::Done)
    }

    /// `bytes HHHH COUNT`: the bytes of memory from an address on.
    pub fn bytes(&self, alloc: Global, arguments: &[Word<'_>]) -> Result<RowAnswer, RowFault> {
        let [from, length] = arguments else {
            return Err(RowFault::Words);
        };
        let mut bytes = [0; 256];
        let length = count(*length)?;
        if length > 256 {
            return Err(RowFault::Number);
        }
        get_run(&self.memory, address(*from)?, &mut bytes[..length]);
        RowAnswer::bytes(alloc, &bytes[..length])
    }

    /// The bytes of a record of a drive, named by its letter.
    fn record(&self, drive: &str, number: u16) -> Result<&[u8], RowFault> {
        let Some(place) = drive_number(drive) else {
            return Err(RowFault::Words);
        };
        match self.session.disks.drives.get(place) {
            Some(Some(drive)) => drive.image.record(number).map_err(|_| RowFault::Absent),
            _ => Err(RowFault::Absent),
        }
    }

    /// `disk DRIVE N`: record N of the disk in a drive.
    pub fn disk(&self, alloc: Global, arguments: &[Word<'_>]) -> Result<RowAnswer, RowFault> {
        let [drive, record] = arguments else {
            return Err(RowFault::Words);
        };
        RowAnswer::bytes(alloc, self.record(drive.text, middle(*record)?)?)
    }

    /// `directory DRIVE N PLACE COUNT`: so many bytes, from this place on, of directory entry N of the disk in a drive.
    pub fn directory(&self, alloc: Global, arguments: &[Word<'_>]) -> Result<RowAnswer, RowFault> {
        let [drive, entry, place, length] = arguments else {
            return Err(RowFault::Words);
        };
        let (entry, place, length) = (middle(*entry)?, count(*place)?, count(*length)?);
        self.entry_bytes(alloc, drive.text, entry, place, length)
    }

    /// So many bytes of a directory entry, from a place on.
    fn entry_bytes(
        &self,
        alloc: Global,
        drive: &str,
        entry: u16,
        place: usize,
        length: usize,
    ) -> Result<RowAnswer, RowFault> {
        if place > ENTRY || length > ENTRY - place {
            return Err(RowFault::Number);
        }
        let record = self.record(drive, entry / 4)?;
        let from = ENTRY * usize::from(entry % 4) + place;
        match record.get(from..from + length) {
            Some(bytes) => RowAnswer::bytes(alloc, bytes),
            None => Err(RowFault::Number),
        }
    }

    /// `place WHAT`: the drive, track, sector or buffer that the BIOS keeps.
    pub fn place(&self, alloc: Global, arguments: &[Word<'_>]) -> Result<RowAnswer, RowFault> {
        let [what] = arguments else {
            return Err(RowFault::Words);
        };
        let place = self.session.place;
        match what.text {
            "drive" => RowAnswer::words(alloc, place.drive),
            "track" => RowAnswer::words(alloc, place.track),
            "sector" => RowAnswer::words(alloc, place.sector),
            "buffer" => RowAnswer::address(alloc, place.buffer),
            _ => Err(RowFault::Words),
        }
    }

    /// `drives WHAT`: the number of the current drive, the user, or the vector of the drives that are logged in.
    pub fn drives(&self, alloc: Global, arguments: &[Word<'_>]) -> Result<RowAnswer, RowFault> {
        let [what] = arguments else {
            return Err(RowFault::Words);
        };
        let disks = &self.session.disks;
        match what.text {
            "current" => RowAnswer::words(alloc, disks.current),
            "user" => RowAnswer::words(alloc, disks.user),
            "logged-in" => RowAnswer::address(alloc, disks.login_vector()),
            _ => Err(RowFault::Words),
        }
    }

    /// `pages`: how many pages of the memory were written.
    pub fn pages(&self, alloc: Global) -> Result<RowAnswer, RowFault> {
        RowAnswer::words(alloc, self.memory.touched())
    }

    /// `waits`: whether the session waits for a key.
    pub fn waits(&self, alloc: Global) -> Result<RowAnswer, RowFault> {
        RowAnswer::truth(alloc, waits(&self.session, &self.memory))
    }
}
