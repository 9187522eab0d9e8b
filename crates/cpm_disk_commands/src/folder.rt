//! A folder of the host as a disk: which of its files a disk can have, and the disk that has them.

ghost use Rattle.std.specs.Prelude.{◌≡◌, MatchOption, MatchResult, None, Some, IfOk, map, string_bytes};
ghost use Rattle.cpm_geom.specs.Disk.{blank_disk};
ghost use Rattle.cpm_disk_commands.specs.DiskCommands.{format_for};
ghost use Rattle.cpm_disk_commands.specs.Folder.{folder_name, host_file, is_kept, kept_names, left_out_names, name_unless};
ghost use Rattle.cpm_disk_commands.specs.Folder.{AreFilesPut, FilesLaw, IsDiskOfFiles, IsDiskOfFilesRefusal, IsFilesRefusal, KeptLaw};
ghost use Rattle.cpm_disk_commands.specs.Names.{one_name};

use crate::disk_commands::{new_image, put_file};
use crate::error::DiskCommandError;
use crate::host_names::is_same_name;
use crate::words::file_name;
use cpm_geom::Image;
use cpm_image_files::FileName;
use std::alloc::{AllocError, Global};

/// A file of a folder that goes onto a disk: its name in the folder, and on the disk.
#[derive(Clone, Copy)]
pub struct FolderName<'a> {
    pub name: &'a str,
    /// Of user 0, without attributes.
    pub file: FileName,
}

/// The names of a folder: those that a disk can have, and those that are left out.
#[derive(Drop)]
pub struct FolderNames<'a> {
    pub kept: Vec<FolderName<'a>>,
    pub left_out: Vec<&'a str>,
}

/// A file of the host that goes onto a disk.
#[derive(Drop)]
pub struct HostFile {
    pub file: FileName,
    pub bytes: Vec<u8>,
}

/// Which names of a folder a disk can have, in the order given: a name is kept where it spells the name of a file of CP/M and
/// none before it spells the same; the others are left out. Refused if out of memory.
pub fn names_of_folder<'a>(
    alloc: Global,
    names: &'a [String],
) -> Result<FolderNames<'a>, AllocError>
    ensures kept { IfOk result (λ found. map folder_name found.kept.items ≡ kept_names (map string_bytes names.entry.now)) }
    ensures left_out { IfOk result (λ found. map (λ n. n.now) found.left_out.items ≡ left_out_names (map string_bytes names.entry.now)) }
{
    let mut kept: Vec<FolderName<'a>> = Vec::new(alloc);
    let mut left_out: Vec<&'a str> = Vec::new(alloc);
    for name in names {
        match file_after(kept.as_slice(), name.as_str()) {
            Some(file) => kept.push(FolderName {
                name: name.as_str(),
                file,
            })?,
            None => left_out.push(name.as_str())?,
        }
    }
    Ok(FolderNames { kept, left_out })
}

/// The file that a name spells, if it does and none of those before it is the same.
fn file_after(before: &[FolderName<'_>], name: &str) -> Option<FileName>
    ensures { MatchOption result
        (name_unless (is_kept before.now) (one_name name.now) ≡ None)
        (λ file. (name_unless (is_kept before.now) (one_name name.now) ≡ Some file.name) × (file.user ≡ 0)) }
{
    let Ok(file) = file_name(name, 0, false, false) else {
        return None;
    };
    if is_kept(before, &file) {
        None
    } else {
        Some(file)
    }
}

/// Whether one of the files before it has the same name.
fn is_kept(before: &[FolderName<'_>], file: &FileName) -> bool
    ensures { result ≡ is_kept before.now file.now.name }
{
    before
        .iter()
        .any(|kept| is_same_name(kept.file.name(), file.name()))
}

/// The disk that has these files, each put after those before it: of the small format where all find room on it, and else of the
/// large one. A refusal is told of the folder of this name. Refused where the large one doesn't take a file, the first of which
/// is told; and if out of memory.
pub fn disk_of_files(
    alloc: Global,
    name: &str,
    files: &[HostFile],
) -> Result<Image, DiskCommandError>
    ensures { MatchResult result
        (λ disk. IsDiskOfFiles (map host_file files.now) disk)
        (λ e. IsDiskOfFilesRefusal name.now (map host_file files.now) e) }
{
    match disk_with(alloc, false, name, files) {
        Err(DiskCommandError::Refused { .. }) => disk_with(alloc, true, name, files),
        made => made,
    }
}

/// A new disk, of the large format or of the small one, that has these files.
fn disk_with(
    alloc: Global,
    is_large: bool,
    name: &str,
    files: &[HostFile],
) -> Result<Image, DiskCommandError>
    ensures { MatchResult result
        (λ disk. AreFilesPut (map host_file files.now) (blank_disk (format_for is_large)) disk)
        (λ e. IsFilesRefusal name.now (map host_file files.now) (blank_disk (format_for is_large)) e) }
{
    let mut disk = new_image(alloc, is_large)?;
    for file in files {
        disk = put_file(alloc, &disk, name, &file.file, false, file.bytes.as_slice())?;
    }
    Ok(disk)
}

/// No two of the names of a folder that are kept are of one file.
pub fn kept_names_are_apart()
    ensures { KeptLaw }
{}

/// The disk of files has each of them, where no two are one on a disk.
pub fn disks_have_their_files()
    ensures { FilesLaw }
{}
