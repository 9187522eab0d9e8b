//! The files of drives that go into folders of the host once a machine was played: those that are new or have changed.
ghost use Rattle.std.specs.Prelude.{◌≡◌, [], ◌∷◌, IfErr, IfOk, OnOk, Some, chars, flat_map, map, option_map, slice_get, string_bytes};
ghost use Rattle.cpm_shown.specs.Shown.{shown_of};
ghost use Rattle.cpm_commands.specs.Drives.{AreToldBy};
ghost use Rattle.cpm_commands.specs.OutFolder.{AreFoldersLeft, AreFoldersUnleft, HasAddedFiles, HasAddedFolder, IsEven, IsFolderUnleft, IsUnwrittenTold};
ghost use Rattle.cpm_commands.specs.OutFolder.{folder_starts_of, folder_view, left_outputs, left_unwritten, outputs_of_change, outputs_of_file, path_in};
ghost use Rattle.cpm_commands.specs.OutFolder.{unwritten_line, unwritten_of_file, unwritten_unless, unwritten_view};

use crate::files::CommandFiles;
use crate::messages::Messages;
use cpm_disk_commands::{
    ComparedFile, FileChange, NamedFile, compare_disks, host_text, name_in_folder,
};
use cpm_geom::Image;
use cpm_host::{HostError, ShownWord, shown};
use std::alloc::{AllocError, Global};
use std::fmt;
use std::path::Path;

/// A folder that gets the files of a drive, and that drive at the start, if there was one.
#[derive(Drop)]
pub(crate) struct FolderStart {
    pub folder: String,
    pub start: Option<Image>,
}

/// A file of a drive that is not written into its folder.
#[derive(Drop)]
pub(crate) struct UnwrittenFile {
    pub folder: ShownWord,
    pub file: NamedFile,
}

/// What is written into folders, the path of each file and its bytes; and what is not written.
#[derive(Drop)]
pub(crate) struct LeftFiles {
    pub paths: Vec<String>,
    pub contents: Vec<Vec<u8>>,
    pub unwritten: Vec<UnwrittenFile>,
}

// ---- the drives at the start

/// A copy of the drive at a place, if there is one.
fn start_at(alloc: Global, drives: &[Image], place: usize) -> Result<Option<Image>, AllocError>
    ensures { IfOk result (λ start. start ≡ slice_get drives.now place) }
{
    if place < drives.len() {
        Ok(Some(drives[place].copy(alloc)?))
    } else {
        Ok(None)
    }
}

/// The folders, the first of drive A, each with a copy of its drive.
pub(crate) fn folder_starts(
    alloc: Global,
    folders: &[&str],
    drives: &[Image],
) -> Result<Vec<FolderStart>, AllocError>
    ensures { IfOk result (λ v. map folder_view v.items ≡ folder_starts_of (map (λ n. n.now) folders.now) drives.now) }
{
    let mut starts = Vec::new(alloc);
    for folder in folders {
        let start = start_at(alloc, drives, starts.len())?;
        starts.push(FolderStart {
            folder: String::from_str(alloc, folder)?,
            start,
        })?;
    }
    Ok(starts)
}

// ---- what becomes of a file

/// The path that a file of a drive has in a folder with files of these names, if it can have one.
fn path_in(
    alloc: Global,
    folder: &str,
    names: &[String],
    file: &NamedFile,
) -> Result<Option<String>, AllocError>
    ensures { IfOk result (λ path. option_map string_bytes path ≡ path_in folder.now (map string_bytes names.now) file.now) }
{
    if file.user != 0 {
        return Ok(None);
    }
    match name_in_folder(alloc, names, &file.name)? {
        Some(name) => {
            let path = Path::new(folder).join(alloc, name.as_str())?;
            Ok(Some(path.into_string()))
        }
        None => Ok(None),
    }
}

impl LeftFiles {
    /// None.
    fn none(alloc: Global) -> LeftFiles
        ensures outputs { left_outputs result ≡ [] }
        ensures unwritten { left_unwritten result ≡ [] }
        ensures even { IsEven result }
    {
        LeftFiles {
            paths: Vec::new(alloc),
            contents: Vec::new(alloc),
            unwritten: Vec::new(alloc),
        }
    }

    /// One more file that is written.
    pub(crate) fn add_output(&mut self, path: String, bytes: Vec<u8>) -> Result<(), AllocError>
        requires { IsEven self.old }
        ensures { OnOk result (HasAddedFiles self.old self.new ((string_bytes path, bytes.items) ∷ []) []) }
    {
        self.paths.push(path)?;
        self.contents.push(bytes)?;
        Ok(())
    }

    /// One more file that is not written.
    fn add_unwritten(&mut self, folder: &str, file: NamedFile) -> Result<(), AllocError>
        requires { IsEven self.old }
        ensures { OnOk result (HasAddedFiles self.old self.new [] ((shown_of (chars folder.now), file) ∷ [])) }
    {
        self.unwritten.push(UnwrittenFile {
            folder: shown(folder),
            file,
        })?;
        Ok(())
    }

    /// One more file that has changed.
    fn add_changed(
        &mut self,
        alloc: Global,
        folder: &str,
        names: &[String],
        file: NamedFile,
        bytes: Vec<u8>,
    ) -> Result<(), AllocError>
        requires { IsEven self.old }
        ensures { OnOk result (HasAddedFiles self.old self.new
            (outputs_of_change (path_in folder.now (map string_bytes names.now) file) bytes.items)
            (unwritten_unless (path_in folder.now (map string_bytes names.now) file) folder.now file)) }
    {
        match path_in(alloc, folder, names, &file)? {
            Some(path) => self.add_output(path, bytes),
            None => self.add_unwritten(folder, file),
        }
    }

    /// One more file, which has changed or not.
    fn add_file(
        &mut self,
        alloc: Global,
        folder: &str,
        names: &[String],
        compared: ComparedFile,
    ) -> Result<(), AllocError>
        requires { IsEven self.old }
        ensures { OnOk result (HasAddedFiles self.old self.new
            (outputs_of_file folder.now (map string_bytes names.now) compared)
            (unwritten_of_file folder.now (map string_bytes names.now) compared)) }
    {
        let ComparedFile { file, change } = compared;
        match change {
            FileChange::Unchanged => Ok(()),
            FileChange::Changed(bytes) => self.add_changed(alloc, folder, names, file, bytes),
            FileChange::Unnamed => self.add_unwritten(folder, file),
        }
    }

    /// The files of a drive.
    fn add_files(
        &mut self,
        alloc: Global,
        folder: &str,
        names: &[String],
        compared: Vec<ComparedFile>,
    ) -> Result<(), AllocError>
        requires { IsEven self.old }
        ensures { OnOk result (HasAddedFiles self.old self.new
            (flat_map (outputs_of_file folder.now (map string_bytes names.now)) compared.items)
            (flat_map (unwritten_of_file folder.now (map string_bytes names.now)) compared.items)) }
    {
        for file in compared {
            self.add_file(alloc, folder, names, file)?;
        }
        Ok(())
    }
}

// ---- what becomes of a drive

/// Adds what a folder gets of the drive that was left.
fn add_drive<F: CommandFiles>(
    alloc: Global,
    left: &mut LeftFiles,
    start: &FolderStart,
    drive: &Image,
    files: &F,
) -> Result<(), HostError>
    requires { IsEven left.old }
    ensures added { OnOk result (HasAddedFolder F.lists files.now (folder_view start.now) (Some drive.now) left.old left.new) }
    ensures refusal { IfErr result (IsFolderUnleft F.unlists files.now (folder_view start.now) (Some drive.now)) }
{
    let folder = start.folder.as_str();
    let names = files.files_in(alloc, folder)?;
    let compared = compare_disks(alloc, folder, start.start.as_ref(), drive)?;
    left.add_files(alloc, folder, names.as_slice(), compared)?;
    Ok(())
}

/// Adds what a folder gets of the drive that was left, if one was.
fn add_folder<F: CommandFiles>(
    alloc: Global,
    left: &mut LeftFiles,
    start: &FolderStart,
    drive: &Option<Image>,
    files: &F,
) -> Result<(), HostError>
    requires { IsEven left.old }
    ensures added { OnOk result (HasAddedFolder F.lists files.now (folder_view start.now) drive.now left.old left.new) }
    ensures refusal { IfErr result (IsFolderUnleft F.unlists files.now (folder_view start.now) drive.now) }
{
    match drive {
        Some(drive) => add_drive(alloc, left, start, drive, files),
        None => Ok(()),
    }
}

/// What these folders get of the drives that were left, the first of drive A. No file is read or written for that.
pub(crate) fn left_files<F: CommandFiles>(
    alloc: Global,
    starts: &[FolderStart],
    drives: &[Option<Image>],
    files: &F,
) -> Result<LeftFiles, HostError>
    ensures left { IfOk result (λ l. AreFoldersLeft F.lists files.now (map folder_view starts.now) drives.now (left_outputs l) (left_unwritten l)) }
    ensures even { IfOk result IsEven }
    ensures refusal { IfErr result (AreFoldersUnleft F.unlists files.now (map folder_view starts.now) drives.now) }
{
    let mut left = LeftFiles::none(alloc);
    for (start, drive) in starts.iter().zip(drives.iter()) {
        add_folder(alloc, &mut left, start, drive, files)?;
    }
    Ok(left)
}

// ---- what is told of it

/// A file of a drive that is not written into a folder.
#[derive(Drop)]
struct UnwrittenLine {
    name: ShownWord,
    user: u8,
    folder: ShownWord,
}

impl fmt::Display for UnwrittenLine {
    ghost output = { λ line. Some (unwritten_line line.name.bytes line.user line.folder.bytes) };

    fn fmt<W: fmt::Write>(&self, f: &mut fmt::Formatter<W>) -> fmt::Result {
        let name = self.name;
        let user = self.user;
        let folder = self.folder;
        write!(
            f,
            "not written: '{name}' of user {user} in '{folder}': only a file of user 0 whose name the host can have is; --out-disk writes all"
        )
    }
}

/// Tells a file that is not written.
fn tell_file<M: Messages>(unwritten: &UnwrittenFile, messages: &mut M)
    ensures { IsUnwrittenTold M.tells (unwritten_view unwritten.now) messages.old messages.new }
{
    let name = host_text(&unwritten.file.name);
    messages.tell(&UnwrittenLine {
        name: shown(name.as_str()),
        user: unwritten.file.user,
        folder: unwritten.folder,
    });
}

/// Tells the files that are not written.
pub(crate) fn tell_unwritten<M: Messages>(unwritten: &[UnwrittenFile], messages: &mut M)
    ensures { AreToldBy (IsUnwrittenTold M.tells) (map unwritten_view unwritten.now) messages.old messages.new }
{
    for file in unwritten {
        tell_file(file, messages);
    }
}
