//! Rows of the drives of a session: the functions on files over a file control block and a buffer, and the sectors.

use crate::fcb::FcbBytes;
use crate::file_functions::function_of;
use crate::runs::{WordCounts, yes_or_no};
use crate::words::{byte_at, done, filled, is_of_images, name, number, only, small};
use cpm_drives::{Disks, FileFunction};
use cpm_geom::{Format, Image};
use cpm_volume::Fault as DriveError;
use std::alloc::{AllocError, Global};
use std::mem;
use test_images::Images;
use test_language::{RowAnswer, RowFault, RowLine, Scene, Word, address, count};

/// Where the new name of a file stands in a file control block.
const NEW_NAME: usize = 17;

/// The lines of one word.
const ALONE: [&str; 20] = [
    "other-session",
    "open",
    "close",
    "make",
    "erase",
    "set-attributes",
    "size",
    "set-random",
    "search-first",
    "search-next",
    "read",
    "read-random",
    "protect",
    "reset",
    "warm-boot",
    "current",
    "login-vector",
    "read-only-vector",
    "allocation-vector",
    "drives-there",
];

/// A session: its drives, a file control block, and the buffer of a record.
#[derive(Drop)]
struct DriveCaller {
    disks: Disks,
    fcb: FcbBytes,
    buffer: [u8; 128],
}

/// Two sessions, the system drive that they share, and images.
#[derive(Drop)]
pub struct Drives {
    images: Images,
    system: Image,
    here: DriveCaller,
    other: DriveCaller,
}

impl Scene for Drives {
    fn new(alloc: Global) -> Result<Self, AllocError> {
        Ok(Drives {
            images: Images::new(alloc),
            system: Image::blank(alloc, Format::Ibm3740)?,
            here: DriveCaller::on(Vec::new(alloc)),
            other: DriveCaller::on(Vec::new(alloc)),
        })
    }

    fn is_alone(verb: &str) -> bool {
        ALONE.contains(&verb)
    }

    fn takes_text(_verb: &str) -> bool {
        false
    }

    fn act(&mut self, alloc: Global, line: &RowLine<'_>) -> Result<RowAnswer, RowFault> {
        let arguments = line.arguments();
        match line.verb() {
            "session" => {
                self.here = DriveCaller::on(self.images.copies(alloc, arguments)?);
                Ok(RowAnswer::Done)
            }
            "other-session" => {
                mem::swap(&mut self.here, &mut self.other);
                done(arguments)
            }
            "end" => self.end(alloc, arguments),
            "system" => self.lend(alloc, arguments),
            verb if is_of_images(verb) => self.images.act(alloc, line),
            verb => self.here.act(alloc, &self.system, verb, arguments),
        }
    }
}

impl Drives {
    /// `system NAME`: drive P is a copy of the image.
    fn lend(&mut self, alloc: Global, arguments: &[Word<'_>]) -> Result<RowAnswer, RowFault> {
        self.system = self.images.copy(alloc, only(arguments)?.text)?;
        Ok(RowAnswer::Done)
    }

    /// `end NAME..`: the session ends, and its drives leave images of these names.
    fn end(&mut self, alloc: Global, arguments: &[Word<'_>]) -> Result<RowAnswer, RowFault> {
        let ended = mem::replace(&mut self.here.disks, Disks::new(Vec::new(alloc)));
        let mut images = ended.into_images();
        for (name, image) in arguments.iter().zip(images.iter_mut()) {
            self.leave(alloc, name.text, image.take())?;
        }
        Ok(RowAnswer::Done)
    }

    /// Gives an image that is left its name.
    fn leave(&mut self, alloc: Global, name: &str, image: Option<Image>) -> Result<(), RowFault> {
        match image {
            Some(image) => self.images.put(alloc, name, image),
            None => Err(RowFault::Absent),
        }
    }
}

impl DriveCaller {
    /// A session whose drives A to D are these images.
    fn on(images: Vec<Image>) -> DriveCaller {
        DriveCaller {
            disks: Disks::new(images),
            fcb: FcbBytes::new(),
            buffer: [0; 128],
        }
    }

    /// Does a line about files.
    fn act(
        &mut self,
        alloc: Global,
        system: &Image,
        verb: &str,
        arguments: &[Word<'_>],
    ) -> Result<RowAnswer, RowFault> {
        match verb {
            "fcb" => self.fcb.whole(alloc, arguments),
            "field" => self.fcb.field(alloc, arguments),
            "buffer" => byte_at(alloc, &self.buffer, arguments),
            "repeat" => self.repeat(alloc, system, arguments),
            "each-drive" => self.each_drive(alloc, system, arguments),
            _ => match function_of(verb) {
                Some(function) => self.call_with(alloc, system, function, arguments),
                None => self.choose(alloc, system, verb, arguments),
            },
        }
    }

    /// Does a line that chooses drives.
    fn choose(
        &mut self,
        alloc: Global,
        system: &Image,
        verb: &str,
        arguments: &[Word<'_>],
    ) -> Result<RowAnswer, RowFault> {
        match verb {
            "select" => {
                let drive = one_number(arguments)?;
                code(alloc, self.disks.select(system, drive))
            }
            "user" => {
                self.disks.user = one_number(arguments)?;
                Ok(RowAnswer::Done)
            }
            "protect" => {
                self.disks.protect(system);
                done(arguments)
            }
            "reset" => {
                self.disks.reset(system);
                done(arguments)
            }
            "warm-boot" => {
                self.disks.reboot();
                done(arguments)
            }
            "reset-drives" => self.reset_drives(arguments),
            _ => self.look(alloc, system, verb, arguments),
        }
    }

    /// Does a line that asks about drives, or moves a sector.
    fn look(
        &mut self,
        alloc: Global,
        system: &Image,
        verb: &str,
        arguments: &[Word<'_>],
    ) -> Result<RowAnswer, RowFault> {
        match verb {
            "current" => RowAnswer::words(alloc, self.disks.current),
            "login-vector" => RowAnswer::address(alloc, self.disks.login_vector()),
            "read-only-vector" => RowAnswer::address(alloc, self.disks.read_only_vector()),
            "allocation-vector" => {
                let blocks = self.disks.allocation_vector(system);
                RowAnswer::bytes(alloc, blocks.as_slice())
            }
            "drives-there" => self.drives_there(alloc),
            "read-sector" => self.read_sector(alloc, system, arguments),
            "write-sector" => self.write_sector(alloc, arguments),
            _ => Err(RowFault::Unknown),
        }
    }

    /// Puts what stands after the name of a function: the new name of a file, or the record that is written.
    fn prepare(
        &mut self,
        alloc: Global,
        function: FileFunction,
        arguments: &[Word<'_>],
    ) -> Result<(), RowFault> {
        match (function, arguments) {
            (_, []) => Ok(()),
            (FileFunction::RenameFiles, [word]) => {
                let name = name(alloc, *word)?;
                self.fcb.put(NEW_NAME, &name)
            }
            (
                FileFunction::WriteNext
                | FileFunction::WriteRandom
                | FileFunction::WriteRandomCleared,
                bytes,
            ) => {
                self.buffer = filled(alloc, bytes)?;
                Ok(())
            }
            _ => Err(RowFault::Words),
        }
    }

    /// Calls a function with what stands after its name.
    fn call_with(
        &mut self,
        alloc: Global,
        system: &Image,
        function: FileFunction,
        arguments: &[Word<'_>],
    ) -> Result<RowAnswer, RowFault> {
        self.prepare(alloc, function, arguments)?;
        code(alloc, self.call(system, function))
    }

    /// Calls a function.
    fn call(&mut self, system: &Image, function: FileFunction) -> Result<u8, DriveError> {
        self.disks
            .call(system, function, &mut self.fcb.bytes, &mut self.buffer)
    }

    /// `repeat N FUNCTION ..`: the function so often, and its codes.
    fn repeat(
        &mut self,
        alloc: Global,
        system: &Image,
        arguments: &[Word<'_>],
    ) -> Result<RowAnswer, RowFault> {
        let [times, verb, rest @ ..] = arguments else {
            return Err(RowFault::Words);
        };
        let function = function_of(verb.text).ok_or(RowFault::Unknown)?;
        self.prepare(alloc, function, rest)?;
        self.repeat_call(alloc, system, function, count(*times)?)
    }

    fn repeat_call(
        &mut self,
        alloc: Global,
        system: &Image,
        function: FileFunction,
        times: usize,
    ) -> Result<RowAnswer, RowFault> {
        let mut codes = WordCounts::new(alloc);
        for _ in 0..times {
            add_code(alloc, &mut codes, self.call(system, function))?;
        }
        codes.into_answer()
    }

    /// `each-drive FUNCTION`: the function with each of the bytes 0 to 255 as the drive of the same file control block.
    fn each_drive(
        &mut self,
        alloc: Global,
        system: &Image,
        arguments: &[Word<'_>],
    ) -> Result<RowAnswer, RowFault> {
        let Some(function) = function_of(only(arguments)?.text) else {
            return Err(RowFault::Unknown);
        };
        let bytes = self.fcb.bytes;
        let mut codes = WordCounts::new(alloc);
        for drive in 0..=255u8 {
            self.fcb.bytes = bytes;
            self.fcb.bytes[0] = drive;
            add_code(alloc, &mut codes, self.call(system, function))?;
        }
        codes.into_answer()
    }

    /// `drives-there`: which of the drives 0 to 255 are there.
    fn drives_there(&self, alloc: Global) -> Result<RowAnswer, RowFault> {
        let mut found = WordCounts::new(alloc);
        for drive in 0..=255u8 {
            found.add(alloc, yes_or_no(self.disks.is_there(drive)))?;
        }
        found.into_answer()
    }

    /// `reset-drives VECTOR`: RESET DRIVE.
    fn reset_drives(&mut self, arguments: &[Word<'_>]) -> Result<RowAnswer, RowFault> {
        self.disks.reset_drives(address(only(arguments)?)?);
        Ok(RowAnswer::Done)
    }

    /// `read-sector DRIVE TRACK SECTOR`: into the buffer; whether the sector is there.
    fn read_sector(
        &mut self,
        alloc: Global,
        system: &Image,
        arguments: &[Word<'_>],
    ) -> Result<RowAnswer, RowFault> {
        let [drive, track, sector] = arguments else {
            return Err(RowFault::Words);
        };
        let (drive, track, sector) = sector_of(*drive, *track, *sector)?;
        let buffer = &mut self.buffer;
        let is_there = self.disks.read_sector(system, drive, track, sector, buffer);
        RowAnswer::truth(alloc, is_there)
    }

    /// `write-sector DRIVE TRACK SECTOR BYTES`: a sector that begins so; whether it is there.
    fn write_sector(
        &mut self,
        alloc: Global,
        arguments: &[Word<'_>],
    ) -> Result<RowAnswer, RowFault> {
        let [drive, track, sector, bytes @ ..] = arguments else {
            return Err(RowFault::Words);
        };
        let (drive, track, sector) = sector_of(*drive, *track, *sector)?;
        let bytes = filled(alloc, bytes)?;
        let is_there = self.disks.write_sector(drive, track, sector, &bytes);
        RowAnswer::truth(alloc, is_there)
    }
}

/// The place of a sector: its drive, its track and its number there.
fn sector_of(
    drive: Word<'_>,
    track: Word<'_>,
    sector: Word<'_>,
) -> Result<(u8, u16, u16), RowFault> {
    Ok((small(drive)?, number(track)?, number(sector)?))
}

/// The one number after a first word.
fn one_number(arguments: &[Word<'_>]) -> Result<u8, RowFault> {
    small(only(arguments)?)
}

/// What a function answers: its code, or the fault of the drive.
fn code(alloc: Global, code: Result<u8, DriveError>) -> Result<RowAnswer, RowFault> {
    match code {
        Ok(code) => RowAnswer::byte(alloc, code),
        Err(fault) => RowAnswer::refused(alloc, fault),
    }
}

/// Adds it to others.
fn add_code(
    alloc: Global,
    codes: &mut WordCounts,
    code: Result<u8, DriveError>,
) -> Result<(), AllocError> {
    match code {
        Ok(code) => codes.add_byte(alloc, code),
        Err(fault) => codes.add(alloc, format!(in alloc; "{fault:?}")?.as_str()),
    }
}
