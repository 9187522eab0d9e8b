//! The list of a disk's files.

ghost use Rattle.std.specs.Prelude.{◌≡◌, ◌≢◌, MatchResult, IfOk, length};
ghost use Rattle.std.specs.List.{list_any};
ghost use Rattle.cpm_geom.specs.Geometry.{dpb_of};
ghost use Rattle.cpm_directory.specs.Directory.{entries_of};
ghost use Rattle.cpm_directory.specs.Login.{reserved_at_login};
ghost use Rattle.cpm_image_files.specs.ImageFiles.{IsSoundDisk};
ghost use Rattle.cpm_image_files.specs.Appending.{unreserved};
ghost use Rattle.cpm_volume.specs.Files.{deleted};
ghost use Rattle.cpm_image_files.specs.Taken.{HasRecords};
ghost use Rattle.cpm_image_files.specs.Listing.{lists, AreListed, IsListed, IsListRefusal};

use crate::needs::count_free;
use crate::records::{is_of_file, record_count};
use crate::refusal::ImageFilesError;
use cpm_directory::directory::DELETED;
use cpm_directory::{LentImage, login, well_formed};
use cpm_geom::Image;
use cpm_volume::Entry;
use std::alloc::{AllocError, Global};

/// A file of a disk.
#[derive(Clone, Copy, PartialEq, Eq, Debug)]
pub struct DiskFile {
    pub user: u8,
    /// Eight characters of a name and three of a type, with the attribute bits of the file's first entry.
    pub name: [u8; 11],
    /// Its records up to the last one; those between may be holes.
    pub records: u32,
}

/// The files of a disk, and how many of its blocks are free.
#[derive(Drop)]
pub struct DiskListing {
    pub files: Vec<DiskFile>,
    pub free_blocks: u16,
}

/// The files of a disk, each once, in the order of their first entries. Refused where the disk is damaged, and if out of
/// memory.
pub fn list(alloc: Global, image: &Image) -> Result<DiskListing, ImageFilesError>
    ensures { MatchResult result
        (λ listing. IsListed image.now listing)
        (λ e. IsListRefusal image.now e) }
{
    if let Err(fault) = well_formed(image) {
        return Err(ImageFilesError::Damaged(fault));
    }
    let image = LentImage::new(image);
    match files_of(alloc, &image) {
        Ok(files) => Ok(DiskListing {
            files,
            free_blocks: free_blocks(&image),
        }),
        Err(_) => Err(ImageFilesError::OutOfMemory),
    }
}

/// The files of a sound disk; refused if out of memory.
fn files_of(alloc: Global, image: &LentImage<'_>) -> Result<Vec<DiskFile>, AllocError>
    requires { IsSoundDisk image.now }
    ensures { IfOk result (λ files. AreListed image.now (length (entries_of image.now)) files.items) }
{
    let mut files = Vec::new(alloc);
    for index in 0..image.format().dpb().last_entry + 1 {
        let entry = image.entry(index);
        if entry.user != DELETED && !is_listed(&files, &entry) {
            files.push(file_of(image, &entry))?;
        }
    }
    Ok(files)
}

/// Whether the file of an entry is among these.
fn is_listed(files: &[DiskFile], entry: &Entry) -> bool
    ensures { result ≡ list_any (lists entry.now) files.now }
{
    for file in files {
        if is_of_file(file.user, &file.name, entry) {
            return true;
        }
    }
    false
}

/// The file of an entry.
fn file_of(image: &LentImage<'_>, entry: &Entry) -> DiskFile
    requires sound { IsSoundDisk image.now }
    requires used { entry.now.user ≢ deleted }
    ensures user { result.user ≡ entry.now.user }
    ensures name { result.name ≡ entry.now.extent.name }
    ensures records { HasRecords image.now result.user result.name result.records }
{
    DiskFile {
        user: entry.user,
        name: entry.extent.name,
        records: record_count(image, entry.user, &entry.extent.name),
    }
}

/// How many blocks are not reserved where the drive of an image is logged in.
fn free_blocks(image: &LentImage<'_>) -> u16
    ensures { result ≡ unreserved (reserved_at_login (dpb_of image.now.format) (entries_of image.now)) }
{
    count_free(&login(image), image.format().dpb().last_block)
}
