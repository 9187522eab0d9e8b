//! Takes a file off a disk.

ghost use Rattle.std.specs.Prelude.{MatchOption, MatchResult};
ghost use Rattle.cpm_geom.specs.Disk.{HasBytes, IsDisk};
ghost use Rattle.cpm_image_files.specs.ImageFiles.{IsSoundDisk};
ghost use Rattle.cpm_image_files.specs.Taken.{IsRemovable, IsRemoved, IsRemovalReason, IsRemovalRefusal};

use crate::copies::copy_of;
use crate::name::FileName;
use crate::needs::is_protected;
use crate::records::is_there;
use crate::refusal::{FileRefusal, ImageFilesError};
use cpm_directory::{LentImage, well_formed};
use cpm_drive::Drive;
use cpm_geom::Image;
use std::alloc::Global;

/// The disk without a file, exactly as DELETE FILE leaves it. The image is only looked at. Refused where the disk is damaged,
/// where it has no such file, where an entry of the file is read-only, and else if out of memory.
pub fn remove(alloc: Global, image: &Image, file: &FileName) -> Result<Image, ImageFilesError>
    ensures { MatchResult result
        (λ new. IsRemoved image.now file.now.user file.now.name new)
        (λ e. IsRemovalRefusal image.now file.now.user file.now.name e) }
{
    if let Err(fault) = well_formed(image) {
        return Err(ImageFilesError::Damaged(fault));
    }
    if let Some(refusal) = refusal_of(&LentImage::new(image), file) {
        return Err(ImageFilesError::Refused(refusal));
    }
    match copy_of(alloc, image) {
        Ok(copy) => Ok(without(copy, file)),
        Err(_) => Err(ImageFilesError::OutOfMemory),
    }
}

/// Why a file is not taken off a disk.
fn refusal_of(image: &LentImage<'_>, file: &FileName) -> Option<FileRefusal>
    ensures { MatchOption result
        (IsRemovable image.now file.now.user file.now.name)
        (λ e. IsRemovalReason image.now file.now.user file.now.name e) }
{
    if !is_there(image, file) {
        return Some(FileRefusal::NoFile);
    }
    if is_protected(image, file) {
        return Some(FileRefusal::ReadOnly);
    }
    None
}

/// The image without a file, against which nothing is.
fn without(image: Image, file: &FileName) -> Image
    requires whole { IsDisk image }
    requires bytes { HasBytes image }
    requires sound { IsSoundDisk image }
    requires removable { IsRemovable image file.now.user file.now.name }
    ensures { IsRemoved image file.now.user file.now.name result }
{
    let mut drive = Drive::new(image);
    drive.log_in();
    drive.erase_files(file.user(), file.name()).unwrap();
    drive.image.into_image()
}
