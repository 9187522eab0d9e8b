//! Rows of files on an image as wholes, and of texts.

use crate::words::{name as name_of, only, small, write_name};
use cpm_drive::Drive;
use cpm_geom::Image;
use cpm_image_files::{
    DiskFile, DiskListing, FileName, ImageFilesError, from_text, get, list, put, remove, rename,
    to_text,
};
use cpm_volume::{Answer as RecordAnswer, Extent, Fcb};
use std::alloc::{AllocError, Global};
use test_images::Images;
use test_language::{RowAnswer, RowFault, RowLine, Scene, Word, bytes_of};

/// The most records that are read of a file.
const MOST_RECORDS: usize = 20_000;

/// Images with files.
#[derive(Drop)]
pub struct ImageFiles {
    images: Images,
}

impl Scene for ImageFiles {
    fn new(alloc: Global) -> Result<Self, AllocError> {
        Ok(ImageFiles {
            images: Images::new(alloc),
        })
    }

    fn is_alone(_verb: &str) -> bool {
        false
    }

    fn takes_text(verb: &str) -> bool {
        matches!(verb, "to-text" | "from-text")
    }

    fn act(&mut self, alloc: Global, line: &RowLine<'_>) -> Result<RowAnswer, RowFault> {
        let arguments = line.arguments();
        match line.verb() {
            "put" => self.put(alloc, arguments),
            "remove" => self.remove(alloc, arguments),
            "rename" => self.rename(alloc, arguments),
            "get" => self.get(alloc, arguments),
            "read" => self.read(alloc, arguments),
            "list" => self.list(alloc, arguments),
            "is-name" => is_name(alloc, arguments),
            "to-text" => in_host_form(alloc, line),
            "from-text" => in_disk_form(alloc, line),
            _ => self.images.act(alloc, line),
        }
    }
}

impl ImageFiles {
    /// `put OLD NEW USER NAME BYTES`: NEW is OLD with a file of these bytes.
    fn put(&mut self, alloc: Global, arguments: &[Word<'_>]) -> Result<RowAnswer, RowFault> {
        let [old, new, user, name, bytes @ ..] = arguments else {
            return Err(RowFault::Words);
        };
        let file = file_name(alloc, *user, *name)?;
        let image = self.images.copy(alloc, old.text)?;
        let bytes = bytes_of(alloc, bytes)?;
        let now = put(alloc, &image, &file, bytes.as_slice());
        self.keep(alloc, *new, now)
    }

    /// `remove OLD NEW USER NAME`: NEW is OLD without the file.
    fn remove(&mut self, alloc: Global, arguments: &[Word<'_>]) -> Result<RowAnswer, RowFault> {
        let [old, new, user, name] = arguments else {
            return Err(RowFault::Words);
        };
        let file = file_name(alloc, *user, *name)?;
        let image = self.images.copy(alloc, old.text)?;
        let now = remove(alloc, &image, &file);
        self.keep(alloc, *new, now)
    }

    /// `rename OLD NEW USER NAME OTHER`: NEW is OLD, where the file has the other name.
    fn rename(&mut self, alloc: Global, arguments: &[Word<'_>]) -> Result<RowAnswer, RowFault> {
        let [old, new, user, name, other] = arguments else {
            return Err(RowFault::Words);
        };
        let file = file_name(alloc, *user, *name)?;
        let other = file_name(alloc, *user, *other)?;
        if file.user() != other.user() {
            return Err(RowFault::Unready);
        }
        let image = self.images.copy(alloc, old.text)?;
        let now = rename(alloc, &image, &file, &other);
        self.keep(alloc, *new, now)
    }

    /// Gives the image that a call made its name.
    fn keep(
        &mut self,
        alloc: Global,
        name: Word<'_>,
        image: Result<Image, ImageFilesError>,
    ) -> Result<RowAnswer, RowFault> {
        match image {
            Ok(image) => {
                self.images.put(alloc, name.text, image)?;
                Ok(RowAnswer::Done)
            }
            Err(error) => refusal(alloc, error),
        }
    }

    /// `get IMAGE USER NAME`: the bytes of a file.
    fn get(&self, alloc: Global, arguments: &[Word<'_>]) -> Result<RowAnswer, RowFault> {
        let [image, user, name] = arguments else {
            return Err(RowFault::Words);
        };
        let file = file_name(alloc, *user, *name)?;
        let image = self.images.copy(alloc, image.text)?;
        match get(alloc, &image, &file) {
            Ok(bytes) => Ok(RowAnswer::Bytes(bytes)),
            Err(error) => refusal(alloc, error),
        }
    }

    /// `read IMAGE USER NAME`: the records of a file as OPEN FILE and READ SEQUENTIAL give them.
    fn read(&self, alloc: Global, arguments: &[Word<'_>]) -> Result<RowAnswer, RowFault> {
        let [image, user, name] = arguments else {
            return Err(RowFault::Words);
        };
        let user = small(*user)?;
        let name = name_of(alloc, *name)?;
        let mut drive = Drive::new(self.images.copy(alloc, image.text)?);
        read_file(alloc, &mut drive, user, name)
    }

    /// `list IMAGE`: a line for each file, with its user, its name and its records, and one with the free blocks.
    fn list(&self, alloc: Global, arguments: &[Word<'_>]) -> Result<RowAnswer, RowFault> {
        let image = self.images.copy(alloc, only(arguments)?.text)?;
        match list(alloc, &image) {
            Ok(listing) => shown_listing(alloc, &listing),
            Err(error) => refusal(alloc, error),
        }
    }
}

/// `to-text BYTES`: a text in the form of a disk in that of the host.
fn in_host_form(alloc: Global, line: &RowLine<'_>) -> Result<RowAnswer, RowFault> {
    let given = line.given(alloc, line.arguments())?;
    Ok(RowAnswer::Bytes(to_text(alloc, given.as_slice())?))
}

/// `from-text BYTES`: the reverse.
fn in_disk_form(alloc: Global, line: &RowLine<'_>) -> Result<RowAnswer, RowFault> {
    let given = line.given(alloc, line.arguments())?;
    Ok(RowAnswer::Bytes(from_text(alloc, given.as_slice())?))
}

/// The lines of a list.
fn shown_listing(alloc: Global, listing: &DiskListing) -> Result<RowAnswer, RowFault> {
    let mut text = String::new(alloc);
    for file in &listing.files {
        write_listed(&mut text, file)?;
    }
    write!(text, "{} blocks free", listing.free_blocks)?;
    Ok(RowAnswer::Words(text))
}

/// Adds the line of a file.
fn write_listed(text: &mut String, file: &DiskFile) -> Result<(), AllocError> {
    write!(text, "{} ", file.user)?;
    write_name(text, &file.name)?;
    writeln!(text, " {}", file.records)
}

/// The records of a file, or `NoFile`.
fn read_file(
    alloc: Global,
    drive: &mut Drive,
    user: u8,
    name: [u8; 11],
) -> Result<RowAnswer, RowFault> {
    drive.log_in();
    let mut fcb = fcb_of(name);
    if drive.open_file(user, &mut fcb).is_none() {
        return RowAnswer::refused_text(alloc, "NoFile");
    }
    let mut bytes = Vec::new(alloc);
    add_records(&mut bytes, drive, user, &mut fcb)?;
    Ok(RowAnswer::Bytes(bytes))
}

/// Adds the records of an open file, to the last.
fn add_records(
    bytes: &mut Vec<u8>,
    drive: &mut Drive,
    user: u8,
    fcb: &mut Fcb,
) -> Result<(), AllocError> {
    let mut buffer = [0; 128];
    for _ in 0..MOST_RECORDS {
        match drive.read_next(user, fcb, &mut buffer) {
            RecordAnswer::Done => bytes.extend_from_slice(&buffer)?,
            _ => break,
        }
    }
    Ok(())
}

/// Why nothing is done, as the code names it.
fn refusal(alloc: Global, error: ImageFilesError) -> Result<RowAnswer, RowFault> {
    match error {
        ImageFilesError::Refused(refusal) => RowAnswer::refused(alloc, refusal),
        ImageFilesError::Damaged(fault) => RowAnswer::refused(alloc, fault),
        ImageFilesError::OutOfMemory => Err(RowFault::OutOfMemory),
    }
}

/// The name of a file.
fn file_name(alloc: Global, user: Word<'_>, word: Word<'_>) -> Result<FileName, RowFault> {
    FileName::new(small(user)?, name_of(alloc, word)?).ok_or(RowFault::Unready)
}

/// `is-name USER NAME`: whether a file may have it.
fn is_name(alloc: Global, arguments: &[Word<'_>]) -> Result<RowAnswer, RowFault> {
    let [user, word] = arguments else {
        return Err(RowFault::Words);
    };
    let file = FileName::new(small(*user)?, name_of(alloc, *word)?);
    RowAnswer::truth(alloc, file.is_some())
}

/// The file control block of a name.
fn fcb_of(name: [u8; 11]) -> Fcb {
    Fcb {
        drive: 0,
        extent: Extent {
            name,
            ex: 0,
            s1: 0,
            s2: 0,
            record_count: 0,
            blocks: [0; 16],
        },
        current_record: 0,
        random_record: [0; 3],
    }
}
