//! Files are put on an image, taken off it, removed and given other names.

ghost use Rattle.std.specs.Prelude.{◌≡◌, Err, MatchResult};
ghost use Rattle.cpm_directory.specs.Directory.{entries_of};
ghost use Rattle.cpm_directory.specs.WellFormed.{IsChecked};
ghost use Rattle.cpm_geom.specs.Disk.{blank_disk};
ghost use Rattle.cpm_geom.specs.Geometry.{dpb_of};
ghost use Rattle.cpm_image_files.specs.ImageFiles.{records_for, IsPut, IsPutRefusal};
ghost use Rattle.cpm_image_files.specs.Taken.{IsGetRefusal, IsRemovalRefusal, IsRemoved, IsRenamed, IsRenameRefusal};
ghost use Rattle.cpm_disk_commands.specs.DiskCommands.{format_for, stored, IsImageFile, IsPutTold, IsTaken};
ghost use Rattle.cpm_disk_commands.specs.Refusals.{file_named, IsDamageTold, IsFaultOf, IsNotImage, IsTold, IsToldRefusal};
ghost use Rattle.std.specs.Prelude.{length};

use crate::damage::{NamedFile, damage_of};
use crate::error::DiskCommandError;
use cpm_directory::DriveFault;
use cpm_geom::{Format, Image};
use cpm_image_files::{FileName, ImageFilesError, from_text, get, put, remove, rename, to_text};
use cpm_shown::shown;
use std::alloc::Global;

/// The image of these bytes, of the file of this name. Refused where no image has so many.
pub fn image_of(name: &str, bytes: Vec<u8>) -> Result<Image, DiskCommandError>
    ensures { MatchResult result
        (λ image. IsImageFile bytes.items image)
        (λ e. IsNotImage name.now bytes.items e) }
{
    match Image::from_bytes(bytes) {
        Ok(image) => Ok(image),
        Err((bytes, _)) => Err(DiskCommandError::NotImage {
            image: shown(name),
            length: bytes.len(),
        }),
    }
}

/// The fault of an image's directory as it is told.
pub(crate) fn damaged(image: &Image, name: &str, fault: DriveFault) -> DiskCommandError
    requires { IsChecked (dpb_of image.now.format) (entries_of image.now) (Err fault) }
    ensures { IsDamageTold image.now name.now fault result }
{
    DiskCommandError::Damaged {
        image: shown(name),
        damage: damage_of(image, fault),
    }
}

/// Why nothing is done with a file, as it is told.
fn told(image: &Image, name: &str, file: &FileName, error: ImageFilesError) -> DiskCommandError
    requires { IsFaultOf image.now error }
    ensures { IsTold image.now name.now (file_named file.now) error result }
{
    match error {
        ImageFilesError::Damaged(fault) => damaged(image, name, fault),
        ImageFilesError::Refused(reason) => DiskCommandError::Refused {
            image: shown(name),
            file: NamedFile {
                user: file.user(),
                name: *file.name(),
            },
            reason,
        },
        ImageFilesError::OutOfMemory => DiskCommandError::OutOfMemory,
    }
}

/// The image with a file of these bytes on it, in place of the one of its name if there is one; a text gets the line ends of
/// CP/M. The name is that of the image's file. Refused as `put` refuses it, and where there is no memory for the text.
pub fn put_file(
    alloc: Global,
    image: &Image,
    name: &str,
    file: &FileName,
    is_text: bool,
    bytes: &[u8],
) -> Result<Image, DiskCommandError>
    ensures { MatchResult result
        (λ new. IsPut image.now file.now.user file.now.name (stored is_text bytes.now) new)
        (λ e. IsPutTold image.now name.now file.now is_text bytes.now e) }
{
    if !is_text {
        return put_bytes(alloc, image, name, file, bytes);
    }
    match to_text(alloc, bytes) {
        Ok(text) => put_bytes(alloc, image, name, file, &text),
        Err(_) => Err(DiskCommandError::OutOfMemory),
    }
}

/// The image with a file of these bytes as they are.
fn put_bytes(
    alloc: Global,
    image: &Image,
    name: &str,
    file: &FileName,
    bytes: &[u8],
) -> Result<Image, DiskCommandError>
    ensures { MatchResult result
        (λ new. IsPut image.now file.now.user file.now.name bytes.now new)
        (λ e. IsToldRefusal image.now name.now (file_named file.now) (IsPutRefusal image.now file.now.user file.now.name (records_for (length bytes.now))) e) }
{
    match put(alloc, image, file, bytes) {
        Ok(new) => Ok(new),
        Err(error) => Err(told(image, name, file, error)),
    }
}

/// The bytes of a file of an image; a text gets the line ends of a host. Refused as `get` refuses it.
pub fn get_file(
    alloc: Global,
    image: &Image,
    name: &str,
    file: &FileName,
    is_text: bool,
) -> Result<Vec<u8>, DiskCommandError>
    ensures { MatchResult result
        (λ bytes. IsTaken image.now file.now is_text bytes.items)
        (λ e. IsToldRefusal image.now name.now (file_named file.now) (IsGetRefusal image.now file.now.user file.now.name) e) }
{
    let bytes = match get(alloc, image, file) {
        Ok(bytes) => bytes,
        Err(error) => return Err(told(image, name, file, error)),
    };
    if !is_text {
        return Ok(bytes);
    }
    match from_text(alloc, &bytes) {
        Ok(text) => Ok(text),
        Err(_) => Err(DiskCommandError::OutOfMemory),
    }
}

/// The image without a file. Refused as `remove` refuses it.
pub fn remove_file(
    alloc: Global,
    image: &Image,
    name: &str,
    file: &FileName,
) -> Result<Image, DiskCommandError>
    ensures { MatchResult result
        (λ new. IsRemoved image.now file.now.user file.now.name new)
        (λ e. IsToldRefusal image.now name.now (file_named file.now) (IsRemovalRefusal image.now file.now.user file.now.name) e) }
{
    match remove(alloc, image, file) {
        Ok(new) => Ok(new),
        Err(error) => Err(told(image, name, file, error)),
    }
}

/// The image with a file under another name of its user. Refused as `rename` refuses it; it is told of the old name.
pub fn rename_file(
    alloc: Global,
    image: &Image,
    name: &str,
    file: &FileName,
    new_name: &FileName,
) -> Result<Image, DiskCommandError>
    requires { new_name.now.user ≡ file.now.user }
    ensures { MatchResult result
        (λ new. IsRenamed image.now file.now.user file.now.name new_name.now.name new)
        (λ e. IsToldRefusal image.now name.now (file_named file.now) (IsRenameRefusal image.now file.now.user file.now.name new_name.now.name) e) }
{
    match rename(alloc, image, file, new_name) {
        Ok(new) => Ok(new),
        Err(error) => Err(told(image, name, file, error)),
    }
}

/// A new image, every byte of which is E5h: of the large disk or of the small one. Refused if out of memory.
pub fn new_image(alloc: Global, is_large: bool) -> Result<Image, DiskCommandError>
    ensures { MatchResult result
        (λ image. image ≡ blank_disk (format_for is_large))
        (λ e. e ≡ DiskCommandError.OutOfMemory) }
{
    let format = if is_large {
        Format::Large
    } else {
        Format::Ibm3740
    };
    match Image::blank(alloc, format) {
        Ok(image) => Ok(image),
        Err(_) => Err(DiskCommandError::OutOfMemory),
    }
}
