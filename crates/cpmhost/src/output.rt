//! Files of the machine that are written whole: what is new is written to a file beside the old one, which then takes its name. So a full
//! device, a limit on the size of files or a kill leaves the old bytes.

use crate::beside::{Replacement, is_missing};
use crate::held::LockableFiles;
use crate::stream::{Stream, real_path, stream_of};
use std::alloc::{AllocError, Global};
use std::fs::{File, OpenOptions, Permissions};
use std::io::{ErrorKind, Write};
use std::os::unix::fs::{MetadataExt, PermissionsExt, fchown};
use std::path::{Path, PathBuf};
use std::random::RandomSource;
use std::rt::Files;
use std::{fs, io};

/// How many links are followed from a name to its file.
const MOST_LINKS: u32 = 40;

/// What a name stands for.
#[derive(Clone, Copy, Debug, PartialEq, Eq)]
enum Kind {
    /// A file with bytes, which are replaced.
    Regular,
    /// Nothing yet.
    Absent,
    /// A pipe, a device or a folder: what is written to it goes there at once, or fails.
    Other,
}

/// What a path stands for, links followed.
fn kind_of(rt: &impl Files, path: &str) -> io::Result<Kind> {
    match fs::metadata(rt, path) {
        Ok(found) if found.is_file() => Ok(Kind::Regular),
        Ok(_) => Ok(Kind::Other),
        Err(error) if error.kind() == ErrorKind::NotFound && !path.is_empty() => Ok(Kind::Absent),
        Err(error) => Err(error),
    }
}

/// A path beside another one, of the folder that has that.
fn path_beside(alloc: Global, path: &str, name: &str) -> Result<PathBuf, AllocError> {
    match Path::new(path).parent() {
        Some(folder) => folder.join(alloc, name),
        None => Path::new(name).to_path_buf(alloc),
    }
}

/// Whether a text is a number.
fn is_number(text: &str) -> bool {
    !text.is_empty() && text.bytes().all(|byte| byte.is_ascii_digit())
}

/// Whether a folder below `/proc` is of a process, or of one of its threads.
fn is_process(name: &str) -> bool {
    match name.split_once("/task/") {
        Some((process, thread)) => (process == "self" || is_number(process)) && is_number(thread),
        None => name == "self" || name == "thread-self" || is_number(name),
    }
}

/// Whether a folder has what a process has open, each under its number.
fn is_folder_of_open_files(folder: &str) -> bool {
    if folder == "/dev/fd" {
        return true;
    }
    let Some(process) = folder.strip_prefix("/proc/") else {
        return false;
    };
    match process.strip_suffix("/fd") {
        Some(process) => is_process(process),
        None => false,
    }
}

/// Whether a path is of something that a process has open, as `/dev/stdout` is: the link of that names no file.
pub fn is_open_already(path: &str) -> bool {
    match path.rsplit_once('/') {
        Some((folder, number)) => is_number(number) && is_folder_of_open_files(folder),
        None => false,
    }
}

/// The path of something that a process has open, by the true name of its folder, where a path leads there by another one.
fn open_file_at(
    rt: &(impl Files + AllocGlobal),
    path: Path<'_>,
) -> Result<Option<PathBuf>, AllocError> {
    let (Some(folder), Some(number)) = (path.parent(), path.file_name()) else {
        return Ok(None);
    };
    if !is_number(number) {
        return Ok(None);
    }
    match real_path(rt, folder)? {
        Ok(folder) if is_folder_of_open_files(folder.as_path().as_str()) => {
            Ok(Some(folder.as_path().join(rt.alloc(), number)?))
        }
        _ => Ok(None),
    }
}

/// Where the file of a name lies, once its links are followed.
pub fn target_of(rt: &(impl Files + AllocGlobal), name: &str) -> io::Result<PathBuf> {
    let mut path = Path::new(name).to_path_buf(rt.alloc())?;
    for _link in 0..MOST_LINKS {
        if is_open_already(path.as_path().as_str()) {
            return Ok(path);
        }
        if let Some(found) = open_file_at(rt, path.as_path())? {
            return Ok(found);
        }
        match fs::read_link(rt, path.as_path()) {
            Ok(to) => path = path_beside(
                rt.alloc(),
                path.as_path().as_str(),
                to.as_path().as_str(),
            )?,
            Err(error) if is_link(rt, path.as_path(), &error) => return Err(error),
            Err(_) => return Ok(path),
        }
    }
    Err(io::Error::from(ErrorKind::FilesystemLoop))
}

/// Whether a path is of a link, though this was the answer when it was read as one. (Of most paths the answer says that they are none, or that nothing is
/// there.)
fn is_link(rt: &impl Files, path: Path<'_>, answer: &io::Error) -> bool {
    match answer.kind() {
        ErrorKind::InvalidInput | ErrorKind::NotFound => false,
        ErrorKind::OutOfMemory => true,
        _ => path.is_symlink(rt),
    }
}

/// How many names are tried for a file beside another one, where there are files of these names.
const MOST_NAMES: u64 = 16;

/// What a number rises by from one such name to the next.
const NEXT_NAME: u64 = 0x9E37_79B9_7F4A_7C15;

/// All permissions that a file keeps which is replaced, and those of a file that nobody can execute. Set-user-ID, set-group-ID and the sticky bit are not
/// among them: they were given to the old bytes.
pub const PERMISSIONS: u32 = 0o777;

pub const PLAIN_PERMISSIONS: u32 = 0o666;

/// The outputs of this process. A file that is being written has a name of a number that was drawn, so that no two processes have one.
#[derive(Clone, Copy, Drop)]
pub struct Outputs {
    drawn: u64,
}

/// What a file is written by.
#[derive(Drop)]
enum Sink {
    File(File),
    Stream(Stream),
}

/// A file that is being written: beside the one whose name it takes in the end, or where that is a pipe, a device or a standard stream, that itself.
#[derive(Drop)]
pub struct OutputFile<'a, R: LockableFiles> {
    rt: &'a R,
    sink: Sink,
    beside: Option<Replacement>,
}

impl<R: LockableFiles> OutputFile<'_, R> {
    /// Whether there is a file that it is to replace.
    pub fn is_to_replace(&self) -> bool {
        match &self.beside {
            Some(beside) => !is_missing(fs::metadata(self.rt, beside.target())),
            None => false,
        }
    }

    /// Puts all that was written to the file on the device, where it lies beside another one.
    fn sync(&self) -> io::Result<()> {
        match (&self.sink, &self.beside) {
            (Sink::File(file), Some(_)) => file.sync_all(),
            _ => Ok(()),
        }
    }

    /// Gives it the name of the file that it is to replace, once it is on the device.
    pub fn take_name(&self) -> io::Result<()> {
        self.sync()?;
        match &self.beside {
            Some(beside) => beside.take_name(self.rt),
            None => Ok(()),
        }
    }

    /// Takes the file away where it lies beside another one.
    pub fn remove(&self) -> io::Result<()> {
        match &self.beside {
            Some(beside) => beside.remove(self.rt),
            None => Ok(()),
        }
    }

    /// Closes it, and says where it lies beside another one.
    pub fn close(self) -> Option<Replacement> {
        self.beside
    }

    /// Gives it those of the permissions of the file that it is to replace that are in a mask. Where that is another user's, it has those of a new file.
    fn keep_permissions(&self, mask: u32) -> io::Result<()> {
        let (Sink::File(file), Some(beside)) = (&self.sink, &self.beside) else {
            return Ok(());
        };
        let old = match fs::metadata(self.rt, beside.target()) {
            Ok(old) => old,
            Err(error) if error.kind() == ErrorKind::NotFound => return Ok(()),
            Err(error) => return Err(error),
        };
        let new = file.metadata()?;
        if old.uid() != new.uid() {
            return Ok(());
        }
        let mode = old.permissions().mode() & mask;
        let has_group = old.gid() == new.gid() || fchown(file, None, Some(old.gid())).is_ok();
        let mode = if has_group { mode } else { narrowed(mode) };
        file.set_permissions(Permissions::from_mode(mode))
    }
}

impl<R: LockableFiles> Write for OutputFile<'_, R> {
    fn write(&mut self, buf: &[u8]) -> io::Result<usize> {
        match &mut self.sink {
            Sink::File(file) => file.write(buf),
            Sink::Stream(stream) => stream.write(self.rt, buf),
        }
    }

    fn flush(&mut self) -> io::Result<()> {
        Ok(())
    }
}

/// The permissions of a file that can't have the group of the one that it replaces: of its group and of others, each has what both had.
fn narrowed(mode: u32) -> u32 {
    let shared = (mode >> 3) & mode & 0o7;
    (mode & 0o700) | (shared << 3) | shared
}

impl Outputs {
    /// Those of a process, whose number serves where the system draws none.
    pub fn draw(source: &impl RandomSource, process: u32) -> Outputs {
        let mut bytes = [0; 8];
        let drawn = match source.fill_bytes(&mut bytes) {
            Ok(()) => u64::from_ne_bytes(bytes),
            Err(_) => u64::from(process),
        };
        Outputs { drawn }
    }

    /// Those for one of several files that are beside others at a time: no two of them try the same names.
    pub fn nth(self, place: usize) -> Outputs {
        let names = (place as u64).wrapping_mul(MOST_NAMES);
        Outputs {
            drawn: self.drawn.wrapping_add(names.wrapping_mul(NEXT_NAME)),
        }
    }

    /// A new file beside the one that it is to replace. A file that is there is left alone.
    fn create_beside<'a, R: LockableFiles>(
        self,
        rt: &'a R,
        target: PathBuf,
    ) -> io::Result<OutputFile<'a, R>> {
        for place in 0..MOST_NAMES {
            let number = self.drawn.wrapping_add(place.wrapping_mul(NEXT_NAME));
            let name = format!(in rt.alloc(); ".cpmhost-{number:016x}")?;
            let path = path_beside(rt.alloc(), target.as_path().as_str(), name.as_str())?;
            match fs::File::create_new(rt, path.as_path()) {
                Ok(file) => {
                    return Ok(OutputFile {
                        rt,
                        sink: Sink::File(file),
                        beside: Some(Replacement::new(path, target)),
                    });
                }
                Err(error) if error.kind() == ErrorKind::AlreadyExists => {}
                Err(error) => return Err(error),
            }
        }
        Err(io::Error::from(ErrorKind::AlreadyExists))
    }

    /// Begins to write what is no file of its own: where a standard stream stands, or behind all that a pipe or a device has.
    fn begin_at<'a, R: LockableFiles>(
        self,
        rt: &'a R,
        target: PathBuf,
    ) -> io::Result<OutputFile<'a, R>> {
        let sink = match stream_of(rt, target.as_path().as_str())? {
            Some(stream) => Sink::Stream(stream),
            None => Sink::File(OpenOptions::new().append(true).open(rt, target.as_path())?),
        };
        Ok(OutputFile {
            rt,
            sink,
            beside: None,
        })
    }

    /// Begins to write a file, which stays as it is meanwhile, or a pipe or a device. Of the permissions that the file has it keeps those of a mask.
    fn begin_with<'a, R: LockableFiles>(
        self,
        rt: &'a R,
        name: &str,
        mask: u32,
    ) -> io::Result<OutputFile<'a, R>> {
        let target = target_of(rt, name)?;
        if !is_replaceable(rt, target.as_path().as_str())? {
            return self.begin_at(rt, target);
        }
        let begun = self.create_beside(rt, target)?;
        match begun.keep_permissions(mask) {
            Ok(()) => Ok(begun),
            Err(error) => {
                let _ = begun.remove();
                Err(error)
            }
        }
    }

    /// Begins to write a file, which stays as it is meanwhile, or a pipe or a device.
    pub fn begin<'a, R: LockableFiles>(
        self,
        rt: &'a R,
        name: &str,
    ) -> io::Result<OutputFile<'a, R>> {
        self.begin_with(rt, name, PERMISSIONS)
    }

    /// Makes a file of these bytes beside the one that it is to replace, down to the device, and says where it lies; or writes them to a pipe or a device.
    /// Of the permissions that the file has it keeps those of a mask. Where it fails nothing is left of it.
    pub fn make(
        self,
        rt: &impl LockableFiles,
        name: &str,
        mask: u32,
        bytes: &[u8],
    ) -> io::Result<Option<Replacement>> {
        let mut begun = self.begin_with(rt, name, mask)?;
        let written = match begun.write_all(bytes) {
            Ok(()) => begun.sync(),
            Err(error) => Err(error),
        };
        match written {
            Ok(()) => Ok(begun.close()),
            Err(error) => {
                let _ = begun.remove();
                Err(error)
            }
        }
    }

    /// Whether files can be made in a folder, before there is one to make. Nothing is left of the trial.
    pub fn check_folder(self, rt: &impl LockableFiles, folder: &str) -> io::Result<()> {
        let target = Path::new(folder).join(rt.alloc(), "file")?;
        self.create_beside(rt, target)?.remove()
    }

    /// Whether a file of this name can be written, before there is anything to write. Nothing is left of the trial.
    pub fn check(self, rt: &impl LockableFiles, name: &str) -> io::Result<()> {
        let target = target_of(rt, name)?;
        if !is_replaceable(rt, target.as_path().as_str())? {
            return Ok(());
        }
        self.create_beside(rt, target)?.remove()
    }
}

/// Whether the bytes of a path are replaced by a file that takes its name: not where it is a pipe or a device. It fails where it is a
/// folder, has no name or may not be written.
fn is_replaceable(rt: &impl Files, path: &str) -> io::Result<bool> {
    if is_open_already(path) {
        return Ok(false);
    }
    match kind_of(rt, path)? {
        Kind::Regular => {
            OpenOptions::new().write(true).open(rt, path)?;
            Ok(true)
        }
        Kind::Absent => Ok(true),
        Kind::Other if Path::new(path).is_dir(rt) => Err(io::Error::from(ErrorKind::IsADirectory)),
        Kind::Other => Ok(false),
    }
}
