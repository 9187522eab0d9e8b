//! The bytes of a file control block.

use crate::words::filled;
use std::alloc::Global;
use test_language::{RowAnswer, RowFault, Word, bytes_of};

/// The bytes of a file control block.
const SIZE: usize = 36;

/// The fields that the manual names, but for the blocks: where each is, and how long.
const FIELDS: [(&str, usize, usize); 9] = [
    ("dr", 0, 1),
    ("name", 1, 11),
    ("ex", 12, 1),
    ("s1", 13, 1),
    ("s2", 14, 1),
    ("rc", 15, 1),
    ("new-name", 17, 11),
    ("cr", 32, 1),
    ("r0", 33, 3),
];

/// A file control block in memory.
#[derive(Drop)]
pub(crate) struct FcbBytes {
    pub(crate) bytes: [u8; SIZE],
}

impl FcbBytes {
    /// One of zeros.
    pub(crate) fn new() -> FcbBytes {
        FcbBytes { bytes: [0; SIZE] }
    }

    /// `fcb BYTES`: it begins so, and else has zeros. Without bytes: what it is.
    pub(crate) fn whole(
        &mut self,
        alloc: Global,
        arguments: &[Word<'_>],
    ) -> Result<RowAnswer, RowFault> {
        if arguments.is_empty() {
            return RowAnswer::bytes(alloc, &self.bytes);
        }
        self.bytes = filled(alloc, arguments)?;
        Ok(RowAnswer::Done)
    }

    /// `field NAME BYTES`: the field and what is after it become so. Without bytes: what the field is.
    pub(crate) fn field(
        &mut self,
        alloc: Global,
        arguments: &[Word<'_>],
    ) -> Result<RowAnswer, RowFault> {
        let [field, bytes @ ..] = arguments else {
            return Err(RowFault::Words);
        };
        let (start, length) = place_of(field.text)?;
        if bytes.is_empty() {
            return RowAnswer::bytes(alloc, self.part(start, length)?);
        }
        self.put(start, bytes_of(alloc, bytes)?.as_slice())?;
        Ok(RowAnswer::Done)
    }

    /// So many bytes from a place on.
    fn part(&self, start: usize, length: usize) -> Result<&[u8], RowFault> {
        if start > SIZE || length > SIZE - start {
            return Err(RowFault::Bytes);
        }
        Ok(&self.bytes[start..start + length])
    }

    /// Puts bytes at a place.
    pub(crate) fn put(&mut self, start: usize, bytes: &[u8]) -> Result<(), RowFault> {
        if start > SIZE || bytes.len() > SIZE - start {
            return Err(RowFault::Bytes);
        }
        self.bytes[start..start + bytes.len()].copy_from_slice(bytes);
        Ok(())
    }
}

/// Where a field is that the manual names, and how long it is.
fn place_of(field: &str) -> Result<(usize, usize), RowFault> {
    for (name, start, length) in &FIELDS {
        if *name == field {
            return Ok((*start, *length));
        }
    }
    Ok((place_of_block(field)?, 1))
}

/// Where a byte of the blocks is, `d0` to `d15`.
fn place_of_block(field: &str) -> Result<usize, RowFault> {
    let number = field.strip_prefix('d').ok_or(RowFault::Words)?;
    match number.parse::<u8>() {
        Ok(number) if number < 16 => Ok(16 + usize::from(number)),
        _ => Err(RowFault::Words),
    }
}
