//! What a file needs of a disk, and what is free for it.

ghost use Rattle.std.specs.Prelude.{◌≡◌, ◌≤◌, ◌<◌, ◌+◌, ◌^◌, length, count_by, not, true};
ghost use Rattle.std.specs.List.{list_any};
ghost use Rattle.cpm_geom.specs.Geometry.{dpb_of};
ghost use Rattle.cpm_geom.specs.Disk.{IsDisk};
ghost use Rattle.cpm_volume.specs.Names.{protects};
ghost use Rattle.cpm_directory.specs.Directory.{entries_of};
ghost use Rattle.cpm_image_files.specs.ImageFiles.{records_for, blocks_for, entries_for, free_entries, free_blocks, file_refusal_of, is_free_for};

use crate::name::FileName;
use crate::refusal::FileRefusal;
use cpm_directory::directory::DELETED;
use cpm_directory::{LentImage, Reserved, is_named, login, without_files};
use cpm_geom::Dpb;
use cpm_volume::Entry;

/// The bytes of a record.
pub(crate) const RECORD_SIZE: usize = 128;

/// How many records a file of these bytes has.
pub(crate) fn records_for(bytes: &[u8]) -> usize
    ensures value { result ≡ records_for (length bytes.now) }
    ensures small { result < 2 ^ 60 }
{
    let whole = bytes.len() / RECORD_SIZE;
    if bytes.len() % RECORD_SIZE == 0 {
        whole
    } else {
        whole + 1
    }
}

/// Why a file of so many records is not put on a disk: the first reason that there is.
#[tactic(auto, unfolding(crate::specs::ImageFiles::file_refusal_of))]
pub(crate) fn file_refusal_of(
    image: &LentImage<'_>,
    file: &FileName,
    records: usize,
) -> Option<FileRefusal>
    requires { records < 2 ^ 60 }
    ensures whole { IsDisk image.now }
    ensures value { result ≡ file_refusal_of (dpb_of image.now.format) (entries_of image.now) file.now.user file.now.name records }
{
    let dpb = image.format().dpb();
    if is_protected(image, file) {
        return Some(FileRefusal::ReadOnly);
    }
    if free_entries(image, file) < entries_for(&dpb, records) {
        return Some(FileRefusal::DirectoryFull);
    }
    if free_blocks(image, file) < blocks_for(&dpb, records) {
        return Some(FileRefusal::DiskFull);
    }
    None
}

/// How many entries a file of so many records has.
fn entries_for(dpb: &Dpb, records: usize) -> usize
    requires { records < 2 ^ 60 }
    ensures { result ≡ entries_for dpb.now records }
{
    let in_entry = RECORD_SIZE * (usize::from(dpb.extent_mask) + 1);
    ((records + in_entry - 1) / in_entry).max(1)
}

/// How many blocks it has.
fn blocks_for(dpb: &Dpb, records: usize) -> usize
    requires { records < 2 ^ 60 }
    ensures { result ≡ blocks_for dpb.now records }
{
    let mask = usize::from(dpb.block_mask);
    (records + mask) / (mask + 1)
}

/// Whether an entry of the file is read-only.
pub(crate) fn is_protected(image: &LentImage<'_>, file: &FileName) -> bool
    ensures { result ≡ list_any (protects file.now.user file.now.name) (entries_of image.now) }
{
    for index in 0..image.format().dpb().last_entry + 1 {
        if protects(file, &image.entry(index)) {
            return true;
        }
    }
    false
}

/// Whether an entry is one of the file's and read-only.
#[tactic(auto, unfolding(cpm_volume::specs::Names::protects))]
fn protects(file: &FileName, entry: &Entry) -> bool
    ensures { result ≡ protects file.now.user file.now.name entry.now }
{
    is_named(file.user(), file.name(), entry) && entry.extent.is_read_only()
}

/// How many entries are free for a file: those not in use, and its own.
fn free_entries(image: &LentImage<'_>, file: &FileName) -> usize
    ensures { result ≡ free_entries file.now.user file.now.name (entries_of image.now) }
{
    let mut free = 0;
    for index in 0..image.format().dpb().last_entry + 1 {
        if is_free_for(file, &image.entry(index)) {
            free += 1;
        }
    }
    free
}

/// Whether an entry is not in use or one of the file's.
fn is_free_for(file: &FileName, entry: &Entry) -> bool
    ensures { result ≡ is_free_for file.now.user file.now.name entry.now }
{
    entry.user == DELETED || is_named(file.user(), file.name(), entry)
}

/// How many blocks are free for a file: those not in use, and its own.
#[tactic(auto, unfolding(crate::specs::ImageFiles::free_blocks))]
fn free_blocks(image: &LentImage<'_>, file: &FileName) -> usize
    ensures { result ≡ free_blocks (dpb_of image.now.format) file.now.user file.now.name (entries_of image.now) }
{
    let reserved = without_files(&login(image), image, file.user(), file.name());
    usize::from(count_free(&reserved, image.format().dpb().last_block))
}

/// How many blocks of a drive with this last block are not reserved.
pub(crate) fn count_free(reserved: &Reserved, last_block: u16) -> u16
    requires size { length reserved.now ≡ last_block + 1 }
    requires small { last_block < 512 }
    ensures { result ≡ count_by not reserved.now }
{
    let mut free = 0;
    for block in 0..last_block + 1 {
        if !reserved.contains(block) {
            free += 1;
        }
    }
    free
}
