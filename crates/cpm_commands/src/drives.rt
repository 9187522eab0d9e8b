//! Where the drives of a machine come from: the images in files, and the files in folders.
ghost use Rattle.std.specs.Prelude.{◌≡◌, ◌++◌, IfErr, IfOk, OnOk, Some, map, string_bytes};
ghost use Rattle.cpm_commands.specs.Drives.{AreAllLeftOutTold, AreDrivesRead, AreDrivesRefused, AreLeftOutTold, ArePlacesFound, ArePlacesUnfound};
ghost use Rattle.cpm_commands.specs.Drives.{AreReadBy, AreRefusedBy, IsFileRead, IsFileRefused, IsFolderOf, IsFolderRead, IsFolderUnread, IsPlaceFound};
ghost use Rattle.cpm_commands.specs.Drives.{IsPlaceLeftOutTold, IsPlaceRead, IsPlaceUnfound, IsPlaceUnread, files_given, inputs_of_place, inputs_of_places};
ghost use Rattle.cpm_commands.specs.Drives.{left_out_line, placed_in, placed_view};
ghost use Rattle.cpm_commands.specs.Plan.{named_files};
ghost use Rattle.cpm_commands.specs.Disk.{IsDiskRefusal};
ghost use Rattle.cpm_disk_commands.specs.Folder.{folder_name, host_file, IsDiskOfFiles, IsDiskOfFilesRefusal};

use crate::disk::read_image;
use crate::files::{CommandFiles, read_file};
use crate::messages::Messages;
use crate::plan::{FileRole, PlannedFile, add_file};
use cpm_disk_commands::{FolderName, FolderNames, HostFile, disk_of_files, names_of_folder};
use cpm_geom::Image;
use cpm_host::{HostError, ShownWord, shown};
use cpm_image_files::FileName;
use std::alloc::{AllocError, Global};
use std::fmt;
use std::path::Path;

/// Where a drive comes from.
#[derive(Drop)]
pub enum DrivePlace<'a> {
    /// The image in the file of this name.
    Image(&'a str),
    /// The files in a folder.
    Folder(FolderPlace<'a>),
}

/// A folder whose files become a drive.
#[derive(Drop)]
pub struct FolderPlace<'a> {
    pub folder: &'a str,
    /// The files of the drive, in the order in which they are put there.
    pub files: Vec<PlacedFile>,
    /// The names of the files that are left out.
    pub left_out: Vec<String>,
}

/// A file in a folder: its path, and the file of the drive that it becomes.
#[derive(Drop)]
pub struct PlacedFile {
    pub path: String,
    pub file: FileName,
}

// ---- finding them

/// The files of a folder that become files of its drive.
fn placed_files(
    alloc: Global,
    folder: &str,
    kept: &[FolderName<'_>],
) -> Result<Vec<PlacedFile>, AllocError>
    ensures { IfOk result (λ v. map placed_view v.items ≡ placed_in folder.now (map folder_name kept.now)) }
{
    let mut files = Vec::new(alloc);
    for name in kept {
        let path = Path::new(folder).join(alloc, name.name)?;
        files.push(PlacedFile {
            path: path.into_string(),
            file: name.file,
        })?;
    }
    Ok(files)
}

/// These names as texts of their own.
fn owned_names(alloc: Global, names: &[&str]) -> Result<Vec<String>, AllocError>
    ensures { IfOk result (λ v. map string_bytes v.items ≡ map (λ n. n.now) names.now) }
{
    let mut owned = Vec::new(alloc);
    for name in names {
        owned.push(String::from_str(alloc, name)?)?;
    }
    Ok(owned)
}

/// A folder with files of these names.
fn folder_of<'a>(
    alloc: Global,
    folder: &'a str,
    names: &[String],
) -> Result<FolderPlace<'a>, AllocError>
    ensures { IfOk result (IsFolderOf folder.now (map string_bytes names.now)) }
{
    let FolderNames { kept, left_out } = names_of_folder(alloc, names)?;
    Ok(FolderPlace {
        folder,
        files: placed_files(alloc, folder, kept.as_slice())?,
        left_out: owned_names(alloc, left_out.as_slice())?,
    })
}

/// Where a drive comes from that is given by this name. No file is read for that.
fn find_place<'a, F: CommandFiles>(
    alloc: Global,
    name: &'a str,
    files: &F,
) -> Result<DrivePlace<'a>, HostError>
    ensures found { IfOk result (IsPlaceFound F.tells_folder F.lists files.now name.now) }
    ensures refusal { IfErr result (IsPlaceUnfound F.tells_folder F.unlists files.now name.now) }
{
    if !files.is_folder(name) {
        return Ok(DrivePlace::Image(name));
    }
    let names = files.files_in(alloc, name)?;
    let folder = folder_of(alloc, name, names.as_slice())?;
    Ok(DrivePlace::Folder(folder))
}

/// Where the drives come from that are given by these names, the first as A.
pub(crate) fn find_places<'a, F: CommandFiles>(
    alloc: Global,
    names: &[&'a str],
    files: &F,
) -> Result<Vec<DrivePlace<'a>>, HostError>
    ensures found { IfOk result (λ v. ArePlacesFound F.tells_folder F.lists files.now (map (λ n. n.now) names.now) v.items) }
    ensures refusal { IfErr result (ArePlacesUnfound F.tells_folder F.unlists files.now (map (λ n. n.now) names.now)) }
{
    let mut places = Vec::new(alloc);
    for name in names {
        places.push(find_place(alloc, name, files)?)?;
    }
    Ok(places)
}

// ---- what is read of them

/// Adds the files of a folder that are read.
fn add_placed<'a>(
    inputs: &mut Vec<PlannedFile<'a>>,
    files: &'a [PlacedFile],
) -> Result<(), AllocError>
    ensures { OnOk result (named_files inputs.new.items ≡ named_files inputs.old.items ++ files_given files.entry.now) }
{
    for file in files {
        add_file(inputs, file.path.as_str(), FileRole::Plain)?;
    }
    Ok(())
}

/// Adds the files that are read for a drive.
fn add_place<'a>(
    inputs: &mut Vec<PlannedFile<'a>>,
    place: &'a DrivePlace<'a>,
) -> Result<(), AllocError>
    ensures { OnOk result (named_files inputs.new.items ≡ named_files inputs.old.items ++ inputs_of_place place.entry.now) }
{
    match place {
        DrivePlace::Image(name) => add_file(inputs, name, FileRole::Image),
        DrivePlace::Folder(folder) => add_placed(inputs, folder.files.as_slice()),
    }
}

/// Adds the files that are read for these drives.
pub(crate) fn add_places<'a>(
    inputs: &mut Vec<PlannedFile<'a>>,
    places: &'a [DrivePlace<'a>],
) -> Result<(), AllocError>
    ensures { OnOk result (named_files inputs.new.items ≡ named_files inputs.old.items ++ inputs_of_places places.entry.now) }
{
    for place in places {
        add_place(inputs, place)?;
    }
    Ok(())
}

// ---- what is told of them

/// A file of a folder that is left out of its drive.
#[derive(Drop)]
struct LeftOutLine {
    folder: ShownWord,
    name: ShownWord,
}

impl fmt::Display for LeftOutLine {
    ghost output = { λ line. Some (left_out_line line.folder.bytes line.name.bytes) };

    fn fmt<W: fmt::Write>(&self, f: &mut fmt::Formatter<W>) -> fmt::Result {
        let folder = self.folder;
        let name = self.name;
        write!(
            f,
            "left out: '{name}' in '{folder}': CP/M can't have the name, or has it already"
        )
    }
}

/// Tells the files of a folder that are left out.
fn tell_names<M: Messages>(folder: &str, names: &[String], messages: &mut M)
    ensures { AreLeftOutTold M.tells folder.now (map string_bytes names.now) messages.old messages.new }
{
    for name in names {
        messages.tell(&LeftOutLine {
            folder: shown(folder),
            name: shown(name.as_str()),
        });
    }
}

/// Tells what is left out of a drive.
fn tell_place<M: Messages>(place: &DrivePlace<'_>, messages: &mut M)
    ensures { IsPlaceLeftOutTold M.tells place.now messages.old messages.new }
{
    if let DrivePlace::Folder(folder) = place {
        tell_names(folder.folder, folder.left_out.as_slice(), messages);
    }
}

/// Tells what is left out of these drives.
pub(crate) fn tell_left_out<M: Messages>(places: &[DrivePlace<'_>], messages: &mut M)
    ensures { AreAllLeftOutTold M.tells places.now messages.old messages.new }
{
    for place in places {
        tell_place(place, messages);
    }
}

// ---- reading them

/// The file of the drive that one in a folder becomes.
fn read_placed<F: CommandFiles>(
    alloc: Global,
    placed: &PlacedFile,
    files: &mut F,
) -> Result<HostFile, HostError>
    ensures read { IfOk result (IsFileRead F.does placed.now files.old files.new) }
    ensures refusal { IfErr result (IsFileRefused F.does placed.now files.old files.new) }
{
    let bytes = read_file(alloc, files, placed.path.as_str())?;
    Ok(HostFile {
        file: placed.file,
        bytes,
    })
}

/// The files of the drive that those in a folder become.
fn read_all_placed<F: CommandFiles>(
    alloc: Global,
    placed: &[PlacedFile],
    files: &mut F,
) -> Result<Vec<HostFile>, HostError>
    ensures read { IfOk result (λ v. AreReadBy (IsFileRead F.does) placed.now files.old files.new v.items) }
    ensures refusal { IfErr result (AreRefusedBy (IsFileRead F.does) (IsFileRefused F.does) placed.now files.old files.new) }
{
    let mut read = Vec::new(alloc);
    for file in placed {
        read.push(read_placed(alloc, file, files)?)?;
    }
    Ok(read)
}

/// The drive that files of a folder become, of which this is the name.
fn disk_of(alloc: Global, folder: &str, hosts: &[HostFile]) -> Result<Image, HostError>
    ensures made { IfOk result (IsDiskOfFiles (map host_file hosts.now)) }
    ensures refusal { IfErr result (IsDiskRefusal (IsDiskOfFilesRefusal folder.now (map host_file hosts.now))) }
{
    Ok(disk_of_files(alloc, folder, hosts)?)
}

/// The drive that a folder becomes.
fn read_folder<F: CommandFiles>(
    alloc: Global,
    folder: &FolderPlace<'_>,
    files: &mut F,
) -> Result<Image, HostError>
    ensures read { IfOk result (IsFolderRead F.does folder.now files.old files.new) }
    ensures refusal { IfErr result (IsFolderUnread F.does folder.now files.old files.new) }
{
    let read = read_all_placed(alloc, folder.files.as_slice(), files)?;
    disk_of(alloc, folder.folder, read.as_slice())
}

/// A drive, from where it comes.
fn read_place<F: CommandFiles>(
    alloc: Global,
    place: &DrivePlace<'_>,
    files: &mut F,
) -> Result<Image, HostError>
    ensures read { IfOk result (IsPlaceRead F.does place.now files.old files.new) }
    ensures refusal { IfErr result (IsPlaceUnread F.does place.now files.old files.new) }
{
    match place {
        DrivePlace::Image(name) => read_image(alloc, name, files),
        DrivePlace::Folder(folder) => read_folder(alloc, folder, files),
    }
}

/// The drives, the first as A, each from where it comes.
pub(crate) fn read_drives<F: CommandFiles>(
    alloc: Global,
    places: &[DrivePlace<'_>],
    files: &mut F,
) -> Result<Vec<Image>, HostError>
    ensures read { IfOk result (λ v. AreDrivesRead F.does places.now files.old files.new v.items) }
    ensures refusal { IfErr result (AreDrivesRefused F.does places.now files.old files.new) }
{
    let mut drives = Vec::new(alloc);
    for place in places {
        drives.push(read_place(alloc, place, files)?)?;
    }
    Ok(drives)
}
