//! Takes the bytes of a file off a disk.

ghost use Rattle.std.specs.Prelude.{MatchResult, IfOk};
ghost use Rattle.cpm_image_files.specs.ImageFiles.{IsSoundDisk};
ghost use Rattle.cpm_image_files.specs.Filled.{FilledLaw};
ghost use Rattle.cpm_image_files.specs.Taken.{AreBytesOf, IsGot, IsGetRefusal};

use crate::name::FileName;
use crate::needs::RECORD_SIZE;
use crate::records::{is_there, next_entry, record_by, record_count};
use crate::refusal::{FileRefusal, ImageFilesError};
use cpm_directory::{LentImage, well_formed};
use cpm_geom::Image;
use std::alloc::{AllocError, Global};

/// The bytes of a file: its records in their order up to the last, with zeros for those that it has not. Refused where the
/// disk is damaged and where it has no such file, and if out of memory.
pub fn get(alloc: Global, image: &Image, file: &FileName) -> Result<Vec<u8>, ImageFilesError>
    ensures { MatchResult result
        (λ bytes. IsGot image.now file.now.user file.now.name bytes.items)
        (λ e. IsGetRefusal image.now file.now.user file.now.name e) }
{
    if let Err(fault) = well_formed(image) {
        return Err(ImageFilesError::Damaged(fault));
    }
    let image = LentImage::new(image);
    if !is_there(&image, file) {
        return Err(ImageFilesError::Refused(FileRefusal::NoFile));
    }
    match bytes_of(alloc, &image, file) {
        Ok(bytes) => Ok(bytes),
        Err(_) => Err(ImageFilesError::OutOfMemory),
    }
}

/// The bytes of a file of a sound disk; refused if out of memory.
fn bytes_of(alloc: Global, image: &LentImage<'_>, file: &FileName) -> Result<Vec<u8>, AllocError>
    requires { IsSoundDisk image.now }
    ensures { IfOk result (λ bytes. AreBytesOf image.now file.now.user file.now.name bytes.items) }
{
    let (user, name) = (file.user(), file.name());
    let count = record_count(image, user, name);
    let mut bytes = Vec::with_capacity(alloc, RECORD_SIZE * count as usize)?;
    let mut entry = None;
    for number in 0..count {
        entry = next_entry(image, user, name, number, entry);
        bytes.extend_from_slice(&record_by(image, entry, number))?;
    }
    Ok(bytes)
}

/// The bytes of a file that was put are those that it was put with, filled up to whole records.
pub fn what_is_put_is_taken()
    ensures { FilledLaw }
{}
