//! Gives a file of a disk another name.

ghost use Rattle.std.specs.Prelude.{◌≡◌, ◌≤◌, ◌+◌, ◌*◌, ◌/◌, ◌%◌, ◌&&◌, not, MatchOption, MatchResult, length};
ghost use Rattle.std.specs.List.{list_any};
ghost use Rattle.cpm_geom.specs.Disk.{HasBytes, IsDisk};
ghost use Rattle.cpm_volume.specs.Encoding.{AreBytes};
ghost use Rattle.cpm_volume.specs.Files.{same_name};
ghost use Rattle.cpm_volume.specs.Names.{is_named, first_named, with_attributes};
ghost use Rattle.cpm_directory.specs.Directory.{entries_of};
ghost use Rattle.cpm_image_files.specs.ImageFiles.{IsSoundDisk};
ghost use Rattle.cpm_image_files.specs.Taken.{kept_name, IsRenamable, IsRenamed, IsRenameReason, IsRenameRefusal};

use crate::copies::copy_of;
use crate::name::FileName;
use crate::needs::is_protected;
use crate::records::{is_same_name, is_there};
use crate::refusal::{FileRefusal, ImageFilesError};
use cpm_directory::{LentImage, is_named, well_formed};
use cpm_drive::Drive;
use cpm_geom::Image;
use std::alloc::Global;

/// The disk with a file under another name of its user, exactly as RENAME FILE leaves it. The file keeps its attributes, those
/// of its first entry; the new name's count for nothing. The image is only looked at. Refused, in this order, where the disk is
/// damaged, where it has no such file, where another has the new name, where an entry of the file is read-only, and
/// else if out of memory.
pub fn rename(
    alloc: Global,
    image: &Image,
    file: &FileName,
    name: &FileName,
) -> Result<Image, ImageFilesError>
    requires { name.now.user ≡ file.now.user }
    ensures { MatchResult result
        (λ new. IsRenamed image.now file.now.user file.now.name name.now.name new)
        (λ e. IsRenameRefusal image.now file.now.user file.now.name name.now.name e) }
{
    if let Err(fault) = well_formed(image) {
        return Err(ImageFilesError::Damaged(fault));
    }
    if let Some(refusal) = refusal_of(&LentImage::new(image), file, name) {
        return Err(ImageFilesError::Refused(refusal));
    }
    match copy_of(alloc, image) {
        Ok(copy) => Ok(renamed(copy, file, name)),
        Err(_) => Err(ImageFilesError::OutOfMemory),
    }
}

/// Why a file doesn't get another name.
fn refusal_of(image: &LentImage<'_>, file: &FileName, name: &FileName) -> Option<FileRefusal>
    requires { name.now.user ≡ file.now.user }
    ensures { MatchOption result
        (IsRenamable image.now file.now.user file.now.name name.now.name)
        (λ e. IsRenameReason image.now file.now.user file.now.name name.now.name e) }
{
    if !is_there(image, file) {
        return Some(FileRefusal::NoFile);
    }
    if is_taken(image, file, name) {
        return Some(FileRefusal::Exists);
    }
    if is_protected(image, file) {
        return Some(FileRefusal::ReadOnly);
    }
    None
}

/// Whether another file has the name.
fn is_taken(image: &LentImage<'_>, file: &FileName, name: &FileName) -> bool
    ensures { result ≡ (not (same_name file.now.name name.now.name) && list_any (is_named name.now.user name.now.name) (entries_of image.now)) }
{
    !is_same_name(file.name(), name.name()) && is_there(image, name)
}

/// The image with a file under another name, against which nothing is.
fn renamed(image: Image, file: &FileName, name: &FileName) -> Image
    requires whole { IsDisk image }
    requires bytes { HasBytes image }
    requires sound { IsSoundDisk image }
    requires renamable { IsRenamable image file.now.user file.now.name name.now.name }
    ensures { IsRenamed image file.now.user file.now.name name.now.name result }
{
    let mut drive = Drive::new(image);
    drive.log_in();
    let kept = kept_name(&drive.image.lent(), file, name).unwrap();
    drive.rename_files(file.user(), file.name(), &kept).unwrap();
    drive.image.into_image()
}

/// A new name with the attributes of a file's first entry, if the file is there.
fn kept_name(image: &LentImage<'_>, file: &FileName, name: &FileName) -> Option<[u8; 11]>
    ensures { MatchOption result
        (length (entries_of image.now) ≤ first_named (entries_of image.now) file.now.user file.now.name)
        (λ kept. (kept ≡ kept_name image.now file.now.user file.now.name name.now.name) × AreBytes 11 kept) }
{
    let (user, old_name) = (file.user(), file.name());
    for index in 0..image.format().dpb().last_entry + 1 {
        let entry = image.entry(index);
        if is_named(user, old_name, &entry) {
            return Some(with_attributes(name.name(), &entry.extent.name));
        }
    }
    None
}

/// The low seven bits of a name's characters, with the high bits of another's.
fn with_attributes(name: &[u8; 11], attributes: &[u8; 11]) -> [u8; 11]
    ensures value { result ≡ with_attributes name.now attributes.now }
    ensures bytes { AreBytes 11 result }
{
    let mut marked = [0; 11];
    for place in 0..11 {
        marked[place] = with_attribute(name[place], attributes[place]);
    }
    marked
}

/// The low seven bits of a character, with the high bit of another.
fn with_attribute(character: u8, attribute: u8) -> u8
    ensures { result ≡ character % 128 + attribute / 128 * 128 }
{
    character % 128 + attribute / 128 * 128
}
