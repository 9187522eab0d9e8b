//! What has become of the files of a disk, from its start to how it was left, and the names that they get in a folder of the host.

ghost use Rattle.std.specs.Prelude.{◌≡◌, IfOk, MatchOption, MatchResult, None, Some, false, map, option_map, string_bytes, true};
ghost use Rattle.cpm_image_files.specs.Listing.{IsListRefusal};
ghost use Rattle.cpm_disk_commands.specs.Changed.{AreFilesCompared, HadFile, IsChangeOf, IsCompareRefusal, IsDiskCompared, IsFileCompared};
ghost use Rattle.cpm_disk_commands.specs.Changed.{first_spelling, name_in_folder};
ghost use Rattle.cpm_disk_commands.specs.Folder.{spells};

use crate::damage::{NamedFile, damage_of};
use crate::error::DiskCommandError;
use crate::host_names::{is_read_as, text_of_name};
use cpm_geom::Image;
use cpm_image_files::{DiskFile, FileName, ImageFilesError, get, list};
use cpm_shown::shown;
use std::alloc::{AllocError, Global};

/// What has become of a file of a disk.
#[derive(Drop)]
pub enum FileChange {
    /// It has the bytes that it had at the start.
    Unchanged,
    /// The disk hadn't it at the start, or it had other bytes. It has these.
    Changed(Vec<u8>),
    /// No command can name it: its user is above 15, or a character of its name is `?`.
    Unnamed,
}

/// A file of a disk, and what has become of it.
#[derive(Drop)]
pub struct ComparedFile {
    pub file: NamedFile,
    pub change: FileChange,
}

/// What has become of each file of a disk that was left, in the order of a disk's list. A disk whose directory doesn't agree with itself had no files at the
/// start, nor had one that wasn't there. A refusal is told of a folder. Refused where the directory of the left disk doesn't agree with itself, and if out of
/// memory.
pub fn compare_disks(
    alloc: Global,
    folder: &str,
    start: Option<&Image>,
    left: &Image,
) -> Result<Vec<ComparedFile>, DiskCommandError>
    ensures { MatchResult result
        (λ compared. IsDiskCompared (option_map (λ d. d.now) start.entry) left.now compared.items)
        (λ e. IsCompareRefusal folder.now left.now e) }
{
    let listing = match list(alloc, left) {
        Ok(listing) => listing,
        Err(error) => return Err(untold(folder, left, error)),
    };
    match compare_files(alloc, start, left, listing.files.as_slice()) {
        Ok(compared) => Ok(compared),
        Err(_) => Err(DiskCommandError::OutOfMemory),
    }
}

/// Why a disk that was left has no list, as it is told.
fn untold(folder: &str, left: &Image, error: ImageFilesError) -> DiskCommandError
    requires { IsListRefusal left.now error }
    ensures { IsCompareRefusal folder.now left.now result }
{
    match error {
        ImageFilesError::Damaged(fault) => DiskCommandError::LeftDamaged {
            folder: shown(folder),
            damage: damage_of(left, fault),
        },
        ImageFilesError::Refused(_) | ImageFilesError::OutOfMemory => DiskCommandError::OutOfMemory,
    }
}

/// What has become of these files.
fn compare_files(
    alloc: Global,
    start: Option<&Image>,
    left: &Image,
    files: &[DiskFile],
) -> Result<Vec<ComparedFile>, AllocError>
    ensures { IfOk result (λ v. AreFilesCompared (option_map (λ d. d.now) start.entry) left.now files.now v.items) }
{
    let mut compared = Vec::new(alloc);
    for file in files {
        compared.push(compare_file(alloc, start, left, file)?)?;
    }
    Ok(compared)
}

/// What has become of a file.
fn compare_file(
    alloc: Global,
    start: Option<&Image>,
    left: &Image,
    file: &DiskFile,
) -> Result<ComparedFile, AllocError>
    ensures { IfOk result (IsFileCompared (option_map (λ d. d.now) start.entry) left.now file.now) }
{
    Ok(ComparedFile {
        file: NamedFile {
            user: file.user,
            name: file.name,
        },
        change: change_of(alloc, start, left, file)?,
    })
}

/// The change of a file that a disk has: it is not taken off it only where memory is refused.
fn change_of(
    alloc: Global,
    start: Option<&Image>,
    left: &Image,
    file: &DiskFile,
) -> Result<FileChange, AllocError>
    ensures { IfOk result (IsChangeOf (option_map (λ d. d.now) start.entry) left.now file.now) }
{
    let Some(name) = FileName::new(file.user, file.name) else {
        return Ok(FileChange::Unnamed);
    };
    let Ok(bytes) = get(alloc, left, &name) else {
        return Err(AllocError);
    };
    if had_file(alloc, start, &name, bytes.as_slice())? {
        Ok(FileChange::Unchanged)
    } else {
        Ok(FileChange::Changed(bytes))
    }
}

/// Whether a disk had a file of these bytes, if there was a disk.
fn had_file(
    alloc: Global,
    start: Option<&Image>,
    file: &FileName,
    bytes: &[u8],
) -> Result<bool, AllocError>
    ensures had { IfOk result (λ had. had ≡ true → HadFile (option_map (λ d. d.now) start.entry) file.now.user file.now.name bytes.now) }
    ensures had_not { IfOk result (λ had. had ≡ false → HadFile (option_map (λ d. d.now) start.entry) file.now.user file.now.name bytes.now → ⊥) }
{
    let Some(disk) = start else {
        return Ok(false);
    };
    match get(alloc, disk, file) {
        Ok(had) => Ok(had.as_slice() == bytes),
        Err(ImageFilesError::OutOfMemory) => Err(AllocError),
        Err(_) => Ok(false),
    }
}

/// The name that a file of a disk has in a folder with files of these names: that of the first which spells its name, so that it is replaced; and else its
/// own in small letters. None where no file of the host can have it. Refused if out of memory.
#[tactic(auto, unfolding(crate::specs::Changed::name_in_folder))]
pub fn name_in_folder(
    alloc: Global,
    names: &[String],
    name: &[u8; 11],
) -> Result<Option<String>, AllocError>
    ensures { IfOk result (λ text. option_map string_bytes text ≡ name_in_folder (map string_bytes names.now) name.now) }
{
    if let Some(text) = first_spelling(names, name) {
        return Ok(Some(String::from_str(alloc, text)?));
    }
    match text_of_name(name) {
        Some(text) => Ok(Some(String::from_str(alloc, text.as_str())?)),
        None => Ok(None),
    }
}

/// The first of these names that spells a name.
fn first_spelling<'a>(names: &'a [String], name: &[u8; 11]) -> Option<&'a str>
    ensures { option_map (λ n. n.now) result ≡ first_spelling (map string_bytes names.now) name.now }
{
    for text in names {
        let word = text.as_str();
        if spells(name, word) {
            return Some(word);
        }
    }
    None
}

/// Whether a text spells a name.
fn spells(name: &[u8; 11], text: &str) -> bool
    ensures { result ≡ spells name.now text.now }
{
    is_read_as(name, text)
}
