//! The list of a disk's files.

ghost use Rattle.std.specs.Prelude.{◌≡◌, ◌≤◌, ◌+◌, ◌++◌, IfErr, IfOk, MatchResult, OnOk, length};
ghost use Rattle.std.specs.Io.KnownBytes.{Appends};
ghost use Rattle.std.specs.List.{position_or_len};
ghost use Rattle.cpm_image_files.specs.Listing.{IsListed};
ghost use Rattle.cpm_disk_commands.specs.Listing.{comes_before, in_order, is_less, list_text, IsListTold, IsListWriteRefusal};

use crate::disk_commands::damaged;
use crate::error::DiskCommandError;
use crate::lines::{add_free_line, add_lines};
use cpm_geom::{Format, Image};
use cpm_image_files::{DiskFile, DiskListing, ImageFilesError, list};
use std::alloc::{AllocError, Global};
use std::io;
use std::io::Write;

/// The files of an image, each once, and how many of its blocks are free. The name is that of the image's file. Refused as
/// `list` refuses it.
pub fn list_files(alloc: Global, image: &Image, name: &str) -> Result<DiskListing, DiskCommandError>
    ensures { MatchResult result
        (λ listing. IsListed image.now listing)
        (λ e. IsListTold image.now name.now e) }
{
    match list(alloc, image) {
        Ok(listing) => Ok(listing),
        Err(ImageFilesError::Damaged(fault)) => Err(damaged(image, name, fault)),
        Err(ImageFilesError::Refused(_)) => unreachable!(),
        Err(ImageFilesError::OutOfMemory) => Err(DiskCommandError::OutOfMemory),
    }
}

/// Writes a line for each file of a disk of this format, or of one user, in the order of users and names, and a line that says
/// how many blocks are free. `OutputUnwritable` has the error of the writer, who may have got the beginning; where memory is
/// refused the writer gets nothing.
pub fn write_list<W: Write>(
    alloc: Global,
    format: Format,
    listing: &DiskListing,
    user: Option<u8>,
    out: &mut W,
) -> Result<(), DiskCommandError>
    ensures text { OnOk result (Appends (W.contents out.old) (W.contents out.new) (list_text format user listing.now)) }
    ensures refusal { IfErr result (λ e. IsListWriteRefusal e out.old out.new) }
{
    let text = match text_of(alloc, format, listing, user) {
        Ok(text) => text,
        Err(_) => return Err(DiskCommandError::OutOfMemory),
    };
    match write_text(out, &text) {
        Ok(()) => Ok(()),
        Err(reason) => Err(DiskCommandError::OutputUnwritable(reason)),
    }
}

/// Writes a text.
fn write_text<W: Write>(out: &mut W, text: &[u8]) -> io::Result<()>
    ensures { OnOk result (Appends (W.contents out.old) (W.contents out.new) text.now) }
{
    out.write_all(text)?;
    out.flush()?;
    Ok(())
}

/// The lines of a list; refused if out of memory.
fn text_of(
    alloc: Global,
    format: Format,
    listing: &DiskListing,
    user: Option<u8>,
) -> Result<Vec<u8>, AllocError>
    ensures { IfOk result (λ text. text.items ≡ list_text format user listing.now) }
{
    let files = in_order(alloc, &listing.files)?;
    let mut text = Vec::new(alloc);
    add_lines(&mut text, user, &files)?;
    add_free_line(&mut text, format, listing.free_blocks)?;
    Ok(text)
}

/// Files in the order of their users and names; refused if out of memory.
fn in_order(alloc: Global, files: &[DiskFile]) -> Result<Vec<DiskFile>, AllocError>
    ensures { IfOk result (λ sorted. sorted.items ≡ in_order files.now) }
{
    let mut sorted = Vec::new(alloc);
    for file in files {
        let place = place_of(&sorted, file);
        sorted.insert(place, *file)?;
    }
    Ok(sorted)
}

/// The place of the first file that another comes before, or the end.
fn place_of(files: &[DiskFile], file: &DiskFile) -> usize
    ensures place { result ≡ position_or_len (comes_before file.now) files.now }
    ensures within { result ≤ length files.now }
{
    for (place, other) in files.iter().enumerate() {
        if comes_before(file, other) {
            return place;
        }
    }
    files.len()
}

/// Whether a file comes before another: by the users, and by the low seven bits of the names' characters.
#[tactic(auto, unfolding(crate::specs::Listing::comes_before))]
fn comes_before(file: &DiskFile, other: &DiskFile) -> bool
    ensures { result ≡ comes_before file.now other.now }
{
    file.user < other.user || (file.user == other.user && is_less(&file.name, &other.name))
}

/// Whether a name is less than another.
fn is_less(name: &[u8; 11], other: &[u8; 11]) -> bool
    ensures { result ≡ is_less name.now other.now }
{
    for place in 0..11 {
        let (character, beside) = (name[place] % 128, other[place] % 128);
        if character != beside {
            return character < beside;
        }
    }
    false
}
