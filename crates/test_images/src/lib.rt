//! Disk images by their names, as rows make them and look at them.
#![tactic(auto)]

use cpm_geom::{Format, GeomError, Image};
use std::alloc::{AllocError, Global};
use test_language::{RowAnswer, RowFault, RowLine, Word, bytes_of};

/// The bytes of a directory entry, and of a record.
const ENTRY: usize = 32;

const RECORD: usize = 128;

/// An image with its name.
#[derive(Drop)]
struct NamedImage {
    name: String,
    image: Image,
}

/// The images of a row.
#[derive(Drop)]
pub struct Images {
    named: Vec<NamedImage>,
}

impl Images {
    /// None yet.
    pub fn new(alloc: Global) -> Images {
        Images {
            named: Vec::new(alloc),
        }
    }

    /// Gives an image a name, in place of the one that had it.
    pub fn put(&mut self, alloc: Global, name: &str, image: Image) -> Result<(), RowFault> {
        let name = String::from_str(alloc, name)?;
        self.named.push(NamedImage { name, image })?;
        Ok(())
    }

    /// The image of a name: the last one that got it.
    pub fn get(&self, name: &str) -> Result<&Image, RowFault> {
        for named in self.named.iter().rev() {
            if named.name.as_str() == name {
                return Ok(&named.image);
            }
        }
        Err(RowFault::Absent)
    }

    /// The same, to be changed.
    fn get_mut(&mut self, name: &str) -> Result<&mut Image, RowFault> {
        for named in self.named.iter_mut().rev() {
            if named.name.as_str() == name {
                return Ok(&mut named.image);
            }
        }
        Err(RowFault::Absent)
    }

    /// A copy of the image of a name. `blank` and `blank-large` need not be made.
    pub fn copy(&self, alloc: Global, name: &str) -> Result<Image, RowFault> {
        match name {
            "blank" => Ok(Image::blank(alloc, Format::Ibm3740)?),
            "blank-large" => Ok(Image::blank(alloc, Format::Large)?),
            _ => Ok(self.get(name)?.copy(alloc)?),
        }
    }

    /// Copies of the images of names, in order.
    pub fn copies(&self, alloc: Global, names: &[Word<'_>]) -> Result<Vec<Image>, RowFault> {
        let mut images = Vec::new(alloc);
        for name in names {
            self.add_copy(alloc, &mut images, name.text)?;
        }
        Ok(images)
    }

    /// Adds a copy of the image of a name.
    fn add_copy(&self, alloc: Global, images: &mut Vec<Image>, name: &str) -> Result<(), RowFault> {
        images.push(self.copy(alloc, name)?)?;
        Ok(())
    }

    /// Does a line about images: `image`, `entry`, `record` or `sector`; any other is `Unknown`.
    pub fn act(&mut self, alloc: Global, line: &RowLine<'_>) -> Result<RowAnswer, RowFault> {
        match line.verb() {
            "image" => self.make(alloc, line.arguments()),
            "entry" => self.entry(alloc, line.arguments()),
            "record" => self.record(alloc, line.arguments()),
            "sector" => self.sector(alloc, line.arguments()),
            _ => Err(RowFault::Unknown),
        }
    }

    /// `image NAME OTHER`: a copy of another image, or of `blank` or `blank-large`.
    fn make(&mut self, alloc: Global, arguments: &[Word<'_>]) -> Result<RowAnswer, RowFault> {
        let [name, other] = arguments else {
            return Err(RowFault::Words);
        };
        let image = self.copy(alloc, other.text)?;
        self.put(alloc, name.text, image)?;
        Ok(RowAnswer::Done)
    }

    /// `entry NAME NUMBER BYTES`: the directory entry begins so, and else has zeros. Without bytes: what it is.
    fn entry(&mut self, alloc: Global, arguments: &[Word<'_>]) -> Result<RowAnswer, RowFault> {
        let [name, number, bytes @ ..] = arguments else {
            return Err(RowFault::Words);
        };
        let number = number_of(*number)?;
        let image = self.get_mut(name.text)?;
        if bytes.is_empty() {
            shown_entry(alloc, image, number)
        } else {
            put_entry(alloc, image, number, bytes)
        }
    }

    /// `record NAME NUMBER BYTES`: the record begins so, and else has zeros. Without bytes: what it is.
    fn record(&mut self, alloc: Global, arguments: &[Word<'_>]) -> Result<RowAnswer, RowFault> {
        let [name, number, bytes @ ..] = arguments else {
            return Err(RowFault::Words);
        };
        let number = number_of(*number)?;
        let image = self.get_mut(name.text)?;
        if bytes.is_empty() {
            shown(alloc, image.record(number))
        } else {
            put_record(alloc, image, number, &given(alloc, bytes)?)
        }
    }

    /// `sector NAME TRACK SECTOR BYTES`: the sector begins so, and else has zeros. Without bytes: what it is.
    fn sector(&mut self, alloc: Global, arguments: &[Word<'_>]) -> Result<RowAnswer, RowFault> {
        let [name, track, sector, bytes @ ..] = arguments else {
            return Err(RowFault::Words);
        };
        let (track, sector) = (number_of(*track)?, number_of(*sector)?);
        let image = self.get_mut(name.text)?;
        if bytes.is_empty() {
            shown(alloc, image.sector(track, sector))
        } else {
            put_sector(alloc, image, track, sector, bytes)
        }
    }
}

/// The bytes of a place, or why there is none.
fn shown(alloc: Global, found: Result<&[u8], GeomError>) -> Result<RowAnswer, RowFault> {
    match found {
        Ok(bytes) => RowAnswer::bytes(alloc, bytes),
        Err(error) => RowAnswer::refused(alloc, error),
    }
}

/// That something was put, or why it wasn't.
fn done(alloc: Global, put: Result<(), GeomError>) -> Result<RowAnswer, RowFault> {
    match put {
        Ok(()) => Ok(RowAnswer::Done),
        Err(error) => RowAnswer::refused(alloc, error),
    }
}

/// A decimal number of 16 bits.
fn number_of(word: Word<'_>) -> Result<u16, RowFault> {
    word.text.parse::<u16>().map_err(|_| RowFault::Number)
}

/// Bytes that begin with those that words stand for, and else are zeros.
fn given<const N: usize>(alloc: Global, words: &[Word<'_>]) -> Result<[u8; N], RowFault> {
    let bytes = bytes_of(alloc, words)?;
    filled(bytes.as_slice())
}

/// Bytes that begin so, and else are zeros.
fn filled<const N: usize>(start: &[u8]) -> Result<[u8; N], RowFault> {
    let mut bytes = [0; N];
    for (place, byte) in bytes.iter_mut().enumerate() {
        *byte = start.get(place).copied().unwrap_or(0);
    }
    if start.len() > N {
        return Err(RowFault::Bytes);
    }
    Ok(bytes)
}

/// The bytes of a record.
fn record_of(image: &Image, number: u16) -> Result<[u8; RECORD], RowFault> {
    match image.record(number) {
        Ok(record) => filled(record),
        Err(_) => Err(RowFault::Absent),
    }
}

/// The bytes of a directory entry.
fn shown_entry(alloc: Global, image: &Image, number: u16) -> Result<RowAnswer, RowFault> {
    let record = record_of(image, number / 4)?;
    let place = ENTRY * usize::from(number % 4);
    RowAnswer::bytes(alloc, &record[place..place + ENTRY])
}

/// Puts a directory entry.
fn put_entry(
    alloc: Global,
    image: &mut Image,
    number: u16,
    words: &[Word<'_>],
) -> Result<RowAnswer, RowFault> {
    let mut record = record_of(image, number / 4)?;
    let place = ENTRY * usize::from(number % 4);
    record[place..place + ENTRY].copy_from_slice(&given::<ENTRY>(alloc, words)?);
    put_record(alloc, image, number / 4, &record)
}

/// Puts a sector.
fn put_sector(
    alloc: Global,
    image: &mut Image,
    track: u16,
    sector: u16,
    words: &[Word<'_>],
) -> Result<RowAnswer, RowFault> {
    let bytes = given(alloc, words)?;
    done(alloc, image.put_sector(track, sector, &bytes))
}

/// Puts a record.
fn put_record(
    alloc: Global,
    image: &mut Image,
    number: u16,
    record: &[u8; RECORD],
) -> Result<RowAnswer, RowFault> {
    done(alloc, image.put_record(number, record))
}
