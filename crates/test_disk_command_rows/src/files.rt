//! What is told of files on images.

use cpm_disk_commands::{NamedFile, write_list};
use cpm_geom::Format;
use cpm_image_files::{DiskListing, FileName};
use std::alloc::Global;
use std::fmt::Display;
use test_language::{RowAnswer, RowFault, Word};

/// A file as it is named in what is told.
pub fn named(file: &FileName) -> NamedFile {
    NamedFile {
        user: file.user(),
        name: *file.name(),
    }
}

/// The user that words name, if they name one.
pub fn user_of(words: &[Word<'_>]) -> Result<Option<u8>, RowFault> {
    match words {
        [] => Ok(None),
        [user] => Ok(Some(user.text.parse::<u8>().map_err(|_| RowFault::Number)?)),
        _ => Err(RowFault::Words),
    }
}

/// The lines of a list.
pub fn lines_of(
    alloc: Global,
    format: Format,
    listing: &DiskListing,
    user: Option<u8>,
) -> Result<RowAnswer, RowFault> {
    let mut out: Vec<u8> = Vec::new(alloc);
    match write_list(alloc, format, listing, user, &mut out) {
        Ok(()) => Ok(RowAnswer::Bytes(out)),
        Err(error) => refused_with(alloc, error.code(), error),
    }
}

/// A refusal, whole: its code and its text.
pub fn refused_with(
    alloc: Global,
    code: impl Display + Drop,
    error: impl Display + Drop,
) -> Result<RowAnswer, RowFault> {
    Ok(RowAnswer::Refused(format!(in alloc; "{code} {error}")?))
}

/// The status of the last refusal, or `none`.
pub fn shown_status(alloc: Global, status: Option<u8>) -> Result<RowAnswer, RowFault> {
    match status {
        Some(status) => RowAnswer::words(alloc, status),
        None => RowAnswer::words(alloc, "none"),
    }
}

/// Files with their users.
pub fn shown_files(alloc: Global, files: &[FileName]) -> Result<RowAnswer, RowFault> {
    let mut out = String::new(alloc);
    let mut separator = "";
    for file in files {
        out.push_str(separator)?;
        out.write(named(file))?;
        separator = ", ";
    }
    Ok(RowAnswer::Words(out))
}
