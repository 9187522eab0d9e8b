//! Rows of one drive by itself, without the session's choice of drives.

use crate::fcb::FcbBytes;
use crate::words::{byte_at, filled, is_of_images, name, number, only};
use cpm_directory::{LentImage, Pattern};
use cpm_drive::{
    Drive, Marks, close_file_lent, compute_size, open_file_lent, read_next_protected,
    read_random_protected, search,
};
use cpm_geom::{Format, Image};
use cpm_volume::{Answer as RecordAnswer, Fault as DriveError, Fcb};
use std::alloc::{AllocError, Global};
use std::fmt::Display;
use test_images::Images;
use test_language::{RowAnswer, RowFault, RowLine, Scene, Word};

/// The lines of one word.
const ALONE: [&str; 11] = [
    "log-in",
    "protect",
    "is-logged-in",
    "is-protected",
    "open",
    "close",
    "make",
    "read",
    "open-lent",
    "close-lent",
    "read-protected",
];

/// A drive, a user, a file control block, and the buffer of a record.
#[derive(Drop)]
pub struct OneDrive {
    images: Images,
    drive: Drive,
    user: u8,
    fcb: FcbBytes,
    buffer: [u8; 128],
}

impl Scene for OneDrive {
    fn new(alloc: Global) -> Result<Self, AllocError> {
        Ok(OneDrive {
            images: Images::new(alloc),
            drive: Drive::new(Image::blank(alloc, Format::Ibm3740)?),
            user: 0,
            fcb: FcbBytes::new(),
            buffer: [0; 128],
        })
    }

    fn is_alone(verb: &str) -> bool {
        ALONE.contains(&verb)
    }

    fn takes_text(_verb: &str) -> bool {
        false
    }

    fn act(&mut self, alloc: Global, line: &RowLine<'_>) -> Result<RowAnswer, RowFault> {
        let arguments = line.arguments();
        match line.verb() {
            "drive" => self.begin(alloc, arguments),
            "keep" => self.keep(alloc, arguments),
            verb if is_of_images(verb) => self.images.act(alloc, line),
            "fcb" => self.fcb.whole(alloc, arguments),
            "field" => self.fcb.field(alloc, arguments),
            "buffer" => byte_at(alloc, &self.buffer, arguments),
            verb => match arguments {
                [] => self.act_file(alloc, verb),
                _ => self.act_words(alloc, verb, arguments),
            },
        }
    }
}

impl OneDrive {
    /// `drive NAME`: a copy of the image, never logged in. `drive NAME protected`: also protected.
    fn begin(&mut self, alloc: Global, arguments: &[Word<'_>]) -> Result<RowAnswer, RowFault> {
        let [image, rest @ ..] = arguments else {
            return Err(RowFault::Words);
        };
        let image = self.images.copy(alloc, image.text)?;
        let format = image.format();
        self.drive = Drive::new(image);
        match rest {
            [] => Ok(RowAnswer::Done),
            [word] if word.text == "protected" => {
                self.drive.marks = Marks::new(format, true);
                Ok(RowAnswer::Done)
            }
            _ => Err(RowFault::Words),
        }
    }

    /// `keep NAME`: what is on the drive gets the name of an image.
    fn keep(&mut self, alloc: Global, arguments: &[Word<'_>]) -> Result<RowAnswer, RowFault> {
        let name = only(arguments)?;
        let image = self.drive.image.image().copy(alloc)?;
        self.images.put(alloc, name.text, image)?;
        Ok(RowAnswer::Done)
    }

    /// Does a line of one word.
    fn act_file(&mut self, alloc: Global, verb: &str) -> Result<RowAnswer, RowFault> {
        match verb {
            "log-in" => {
                self.drive.log_in();
                Ok(RowAnswer::Done)
            }
            "protect" => {
                self.drive.marks.is_protected = true;
                Ok(RowAnswer::Done)
            }
            "is-logged-in" => RowAnswer::truth(alloc, self.drive.marks.is_logged_in),
            "is-protected" => RowAnswer::truth(alloc, self.drive.marks.is_protected),
            _ => self.act_fcb(alloc, verb),
        }
    }

    /// Does a line that is a call on a file.
    fn act_fcb(&mut self, alloc: Global, verb: &str) -> Result<RowAnswer, RowFault> {
        let dpb = self.drive.image.format().dpb();
        let mut fcb = Fcb::from_bytes(&dpb, &self.fcb.bytes);
        let answer = self.call(alloc, verb, &mut fcb)?;
        self.fcb.bytes = fcb.to_bytes(&dpb);
        Ok(answer)
    }

    /// A call on the file of a file control block.
    fn call(&mut self, alloc: Global, verb: &str, fcb: &mut Fcb) -> Result<RowAnswer, RowFault> {
        let user = self.user;
        match verb {
            "open" => code(alloc, Ok(self.drive.open_file(user, fcb))),
            "close" => code(alloc, self.drive.close_file(user, fcb)),
            "make" => code(alloc, Ok(self.drive.make_file(user, fcb))),
            "read" => record(alloc, self.drive.read_next(user, fcb, &mut self.buffer)),
            "open-lent" => {
                let image = LentImage::new(self.drive.image.image());
                code(alloc, Ok(open_file_lent(&image, user, fcb)))
            }
            "close-lent" => code(alloc, close_file_lent(self.drive.image.image(), user, fcb)),
            "read-protected" => self.read_protected(alloc, fcb),
            _ => Err(RowFault::Unknown),
        }
    }

    /// `read-protected`: `read_next_protected`.
    fn read_protected(&mut self, alloc: Global, fcb: &mut Fcb) -> Result<RowAnswer, RowFault> {
        if !self.drive.marks.is_protected {
            return Err(RowFault::Unready);
        }
        let (image, marks) = (self.drive.image.image(), &self.drive.marks);
        record(
            alloc,
            read_next_protected(image, marks, self.user, fcb, &mut self.buffer),
        )
    }

    /// Does a line of several words.
    fn act_words(
        &mut self,
        alloc: Global,
        verb: &str,
        arguments: &[Word<'_>],
    ) -> Result<RowAnswer, RowFault> {
        match verb {
            "read-random" | "read-random-protected" | "write-random" | "write-cleared" => {
                self.move_record(alloc, verb, arguments)
            }
            "search" => self.search(alloc, arguments),
            "user" | "is-reserved" | "is-read-only" => {
                self.act_number(alloc, verb, number(only(arguments)?)?)
            }
            _ => self.act_name(alloc, verb, arguments),
        }
    }

    /// `user N`, `is-reserved BLOCK`, or `is-read-only ENTRY`.
    fn act_number(
        &mut self,
        alloc: Global,
        verb: &str,
        number: u16,
    ) -> Result<RowAnswer, RowFault> {
        match verb {
            "user" => {
                self.user = u8::try_from(number).map_err(|_| RowFault::Number)?;
                Ok(RowAnswer::Done)
            }
            "is-reserved" => RowAnswer::truth(alloc, self.drive.marks.reserved.contains(number)),
            _ => self.is_read_only(alloc, number),
        }
    }

    /// `is-read-only ENTRY`.
    fn is_read_only(&self, alloc: Global, entry: u16) -> Result<RowAnswer, RowFault> {
        if entry > self.drive.image.format().dpb().last_entry {
            return Err(RowFault::Unready);
        }
        let extent = self.drive.image.entry(entry).extent;
        RowAnswer::truth(alloc, extent.is_read_only())
    }

    /// `read-random N`, `write-random N BYTES` and the like: record N of the file of the file control block.
    fn move_record(
        &mut self,
        alloc: Global,
        verb: &str,
        arguments: &[Word<'_>],
    ) -> Result<RowAnswer, RowFault> {
        let [place, bytes @ ..] = arguments else {
            return Err(RowFault::Words);
        };
        let place = number(*place)?;
        let dpb = self.drive.image.format().dpb();
        let mut fcb = Fcb::from_bytes(&dpb, &self.fcb.bytes);
        let answer = match bytes {
            [] => self.read_record(verb, place, &mut fcb)?,
            _ => self.write_record(verb, place, &mut fcb, &filled(alloc, bytes)?)?,
        };
        self.fcb.bytes = fcb.to_bytes(&dpb);
        record(alloc, answer)
    }

    /// A random read.
    fn read_record(
        &mut self,
        verb: &str,
        place: u16,
        fcb: &mut Fcb,
    ) -> Result<RecordAnswer, RowFault> {
        let user = self.user;
        match verb {
            "read-random" => Ok(self.drive.read_random(user, place, fcb, &mut self.buffer)),
            "read-random-protected" => self.read_random_protected(place, fcb),
            _ => Err(RowFault::Words),
        }
    }

    /// `read_random_protected`.
    fn read_random_protected(
        &mut self,
        place: u16,
        fcb: &mut Fcb,
    ) -> Result<RecordAnswer, RowFault> {
        if !self.drive.marks.is_protected {
            return Err(RowFault::Unready);
        }
        let (image, marks) = (self.drive.image.image(), &self.drive.marks);
        let buffer = &mut self.buffer;
        Ok(read_random_protected(image, marks, self.user, place, fcb, buffer))
    }

    /// A random write.
    fn write_record(
        &mut self,
        verb: &str,
        place: u16,
        fcb: &mut Fcb,
        bytes: &[u8; 128],
    ) -> Result<RecordAnswer, RowFault> {
        if self.drive.marks.is_protected {
            return Err(RowFault::Unready);
        }
        match verb {
            "write-random" => Ok(self.drive.write_random(self.user, place, fcb, bytes)),
            "write-cleared" => Ok(
                self.drive
                    .write_random_cleared(self.user, place, fcb, bytes),
            ),
            _ => Err(RowFault::Words),
        }
    }

    /// Does a line about all entries of a name.
    fn act_name(
        &mut self,
        alloc: Global,
        verb: &str,
        arguments: &[Word<'_>],
    ) -> Result<RowAnswer, RowFault> {
        let [word, rest @ ..] = arguments else {
            return Err(RowFault::Words);
        };
        let name = name(alloc, *word)?;
        match (verb, rest) {
            ("size", []) => {
                let image = LentImage::new(self.drive.image.image());
                one_or_none(alloc, compute_size(&image, self.user, &name))
            }
            _ => self.change_files(alloc, verb, &name, rest),
        }
    }

    /// Does a line that changes all entries of a name: `erase NAME`, `set-attributes NAME` or `rename NAME OTHER`.
    fn change_files(
        &mut self,
        alloc: Global,
        verb: &str,
        name: &[u8; 11],
        rest: &[Word<'_>],
    ) -> Result<RowAnswer, RowFault> {
        if self.drive.marks.is_protected {
            return Err(RowFault::Unready);
        }
        match (verb, rest) {
            ("erase", []) => code(alloc, self.drive.erase_files(self.user, name)),
            ("set-attributes", []) => code(alloc, Ok(self.drive.set_attributes(self.user, name))),
            ("rename", [other]) => self.rename(alloc, name, *other),
            _ => Err(RowFault::Unknown),
        }
    }

    /// `rename NAME OTHER`.
    fn rename(
        &mut self,
        alloc: Global,
        old: &[u8; 11],
        new: Word<'_>,
    ) -> Result<RowAnswer, RowFault> {
        if self.drive.marks.is_protected {
            return Err(RowFault::Unready);
        }
        let new = name(alloc, new)?;
        code(alloc, self.drive.rename_files(self.user, old, &new))
    }

    /// `search NAME FROM`: the first entry of the name, from an entry on; `search every FROM`: of any.
    fn search(&mut self, alloc: Global, arguments: &[Word<'_>]) -> Result<RowAnswer, RowFault> {
        let [word, from] = arguments else {
            return Err(RowFault::Words);
        };
        let pattern = pattern(alloc, self.user, *word)?;
        let image = LentImage::new(self.drive.image.image());
        let found = search(&image, &pattern, number(*from)?, &mut self.buffer);
        one_or_none(alloc, found)
    }
}

/// The entries of a user with a name, or `every` entry.
pub(crate) fn pattern(alloc: Global, user: u8, word: Word<'_>) -> Result<Pattern, RowFault> {
    if word.text == "every" {
        return Ok(Pattern::Every);
    }
    Ok(Pattern::Files {
        user,
        name: name(alloc, word)?,
        group: None,
    })
}

/// What a call on entries answers: a directory code, `none`, or the fault of the drive.
fn code(alloc: Global, code: Result<Option<u8>, DriveError>) -> Result<RowAnswer, RowFault> {
    match code {
        Ok(Some(code)) => RowAnswer::byte(alloc, code),
        Ok(None) => RowAnswer::words(alloc, "none"),
        Err(fault) => RowAnswer::refused(alloc, fault),
    }
}

/// What a call on a record answers.
fn record(alloc: Global, answer: RecordAnswer) -> Result<RowAnswer, RowFault> {
    match answer {
        RecordAnswer::Done => RowAnswer::name(alloc, answer),
        _ => RowAnswer::refused(alloc, answer),
    }
}

/// A number, or `none`.
fn one_or_none(alloc: Global, found: Option<impl Display + Drop>) -> Result<RowAnswer, RowFault> {
    match found {
        Some(number) => RowAnswer::words(alloc, number),
        None => RowAnswer::words(alloc, "none"),
    }
}
