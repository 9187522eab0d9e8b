//! Files that are read and then replaced. A command holds such a file from its reading to its replacement, so that of two commands that change one file
//! each has what the other one did; and it replaces the file only where that still is what it was when it was read.

use crate::files::{found_of_input, unwritable};
use crate::output::{is_open_already, target_of};
use crate::patient::StandardError;
use crate::refused::CommandRefusal;
use cpm_commands::{FilePlan, FileRole, PlannedFile};
use cpm_host::{HostError, ShownWord, shown};
use std::alloc::{AllocError, Global};
use std::fs::{File, Metadata, OpenOptions, TryLockError};
use std::io::ErrorKind;
use std::os::unix::fs::MetadataExt;
use std::path::{Path, PathBuf};
use std::rt::{Clock, Files};
use std::time::Duration;
use std::{fs, io, thread};

/// How often a file that another command holds is asked for again, and after how many milliseconds each time: 10 seconds in all.
const MOST_LOCK_PAUSES: u32 = 1000;

const LOCK_PAUSE: u64 = 10;

/// What holding files asks of the system: files that can be locked, a clock to wait by, standard output and error, and memory.
pub trait LockableFiles: Files<File = File>
    + Clock
    + Print
    + StandardError
    + AllocGlobal
    + Clone
    + Drop {}

impl LockableFiles for HostRuntime {}

/// What a file was when it was read: which file, how long, and when it was changed last.
#[derive(Clone, Copy, Debug, PartialEq, Eq, Drop)]
pub struct Mark {
    device: u64,
    node: u64,
    length: u64,
    seconds: i64,
    nanoseconds: i64,
}

impl Mark {
    /// That of a file of which the machine tells this.
    fn of(found: &Metadata) -> Mark {
        Mark {
            device: found.dev(),
            node: found.ino(),
            length: found.len(),
            seconds: found.ctime(),
            nanoseconds: found.ctime_nsec(),
        }
    }

    /// That of the file of a name, its links followed.
    pub fn at(rt: &(impl Files + AllocGlobal), name: &str) -> io::Result<Mark> {
        let target = target_of(rt, name)?;
        Ok(Mark::of(&fs::metadata(rt, target.as_path())?))
    }

    /// Fails where the file of a path is no longer what it was.
    pub fn check(&self, rt: &impl Files, path: Path<'_>) -> io::Result<()> {
        match fs::metadata(rt, path) {
            Ok(found) if Mark::of(&found) == *self => Ok(()),
            Err(error) if error.kind() != ErrorKind::NotFound => Err(error),
            _ => Err(io::Error::new(
                ErrorKind::Other,
                "it changed while this command ran; nothing was written to it",
            )),
        }
    }
}

/// A file that is held.
#[derive(Drop)]
struct HeldFile {
    /// The name by which it is written.
    name: String,
    mark: Mark,
    /// The file, open, which has the lock.
    lock: File,
}

/// The files that a command holds. They are let go when this is dropped.
#[derive(Drop)]
pub struct HeldFiles {
    all: Vec<HeldFile>,
}

impl HeldFiles {
    /// None.
    pub fn none(alloc: Global) -> HeldFiles {
        HeldFiles {
            all: Vec::new(alloc),
        }
    }

    /// Those that others hold too.
    pub fn add(&mut self, others: HeldFiles) -> Result<(), AllocError> {
        for held in others.all {
            self.all.push(held)?;
        }
        Ok(())
    }

    /// What the file of a name was when it was read, if it is held.
    pub fn mark_of(&self, name: &str) -> Option<Mark> {
        let found = self.all.iter().find(|held| held.name.as_str() == name)?;
        Some(found.mark)
    }
}

/// A file that is read and written, by its numbers, and by its place among the names that are written.
#[derive(Clone, Copy, Debug, PartialEq, Eq, PartialOrd, Ord, Drop)]
struct RewrittenFile {
    device: u64,
    node: u64,
    place: usize,
}

/// The outcome of an attempt to hold files.
#[derive(Drop)]
enum Attempt {
    Held(Vec<HeldFile>),
    /// Another command holds the file of this name.
    Busy(ShownWord),
}

/// Holds those of the files that are written that are also read, and waits for them where others hold them, if that is asked. It holds all or none of them, so
/// that no two commands wait for each other.
fn hold(
    rt: &impl LockableFiles,
    reads: &[&str],
    outs: &[&str],
    waits: bool,
) -> Result<HeldFiles, CommandRefusal> {
    let pauses = if waits { MOST_LOCK_PAUSES } else { 0 };
    let mut attempt = try_hold(rt, reads, outs)?;
    for _pause in 0..pauses {
        if let Attempt::Held(_) = &attempt {
            break;
        }
        thread::sleep(rt, Duration::from_millis(LOCK_PAUSE));
        attempt = try_hold(rt, reads, outs)?;
    }
    match attempt {
        Attempt::Held(all) => Ok(HeldFiles { all }),
        Attempt::Busy(name) => Err(CommandRefusal::from(HostError::FileUnwritable {
            name,
            reason: held_elsewhere(),
        })),
    }
}

/// The reason where another command holds a file.
pub fn held_elsewhere() -> io::Error {
    io::Error::new(
        ErrorKind::ResourceBusy,
        "it is held by another command; try again when that has ended",
    )
}

/// Holds the images and the saved machines that a plan reads and writes. Others that hold one are waited for, if that is asked.
pub fn hold_images(
    rt: &impl LockableFiles,
    plan: &FilePlan<'_>,
    waits: bool,
) -> Result<HeldFiles, CommandRefusal> {
    let reads = images_of(rt.alloc(), &plan.inputs)?;
    let outs = images_of(rt.alloc(), &plan.outputs)?;
    hold(rt, &reads, &outs, waits)
}

/// The names of those of the files that are images or saved machines.
fn images_of<'a>(alloc: Global, files: &[PlannedFile<'a>]) -> Result<Vec<&'a str>, AllocError> {
    let mut names = Vec::new(alloc);
    for file in files {
        if matches!(file.role, FileRole::Image | FileRole::Saving) {
            names.push(file.name)?;
        }
    }
    Ok(names)
}

/// Holds all of the files that are read and written, or none where another command holds one of them.
fn try_hold(
    rt: &impl LockableFiles,
    reads: &[&str],
    outs: &[&str],
) -> Result<Attempt, CommandRefusal> {
    let mut all = Vec::new(rt.alloc());
    for both in &both_of(rt, reads, outs)? {
        let Some(name) = outs.get(both.place) else {
            continue;
        };
        match held_at(rt, name)? {
            FileAttempt::Held(held) => all.push(held)?,
            FileAttempt::Busy => return Ok(Attempt::Busy(shown(name))),
            FileAttempt::Unopened => {}
        }
    }
    Ok(Attempt::Held(all))
}

/// The files that are read and written, in the order of their numbers, and each once. It fails where one can't be looked at.
fn both_of(
    rt: &(impl Files + AllocGlobal),
    reads: &[&str],
    outs: &[&str],
) -> Result<Vec<RewrittenFile>, CommandRefusal> {
    let inputs = spots_of(rt, reads)?;
    let mut all: Vec<RewrittenFile> = Vec::new(rt.alloc());
    for (place, name) in outs.iter().enumerate() {
        let spot = spot_of(rt, name).map_err(|reason| unwritable(name, reason))?;
        if let Some(spot) = spot
            && inputs.iter().any(|input| input.is_one_with(&spot))
        {
            let Spot { device, node, .. } = spot;
            all.push(RewrittenFile {
                device,
                node,
                place,
            })?;
        }
    }
    all.sort_unstable();
    all.dedup_by_key(|both| (both.device, both.node));
    Ok(all)
}

/// Where the files lie that are read.
fn spots_of(rt: &(impl Files + AllocGlobal), names: &[&str]) -> Result<Vec<Spot>, CommandRefusal> {
    let mut spots: Vec<Spot> = Vec::new(rt.alloc());
    for name in names {
        if let Some(spot) = found_of_input(rt, name, spot_of(rt, name))? {
            spots.push(spot)?;
        }
    }
    Ok(spots)
}

/// Where a file lies that is replaced where it is written: its path without links, and the numbers of what is there now.
#[derive(Drop)]
struct Spot {
    path: PathBuf,
    device: u64,
    node: u64,
}

impl Spot {
    /// Whether two are of one file. Its numbers may have changed between two looks at its path, since a command replaced it; and two paths may be of one
    /// file, by a link.
    fn is_one_with(&self, other: &Spot) -> bool {
        self.path.as_path().as_str() == other.path.as_path().as_str()
            || (self.device == other.device && self.node == other.node)
    }
}

/// Where the file of a name lies. None of what is no file of its own, and where there is none. It fails where it can't be looked at.
fn spot_of(rt: &(impl Files + AllocGlobal), name: &str) -> io::Result<Option<Spot>> {
    match spot_at(rt, name) {
        Err(error) if error.kind() == ErrorKind::NotFound => Ok(None),
        found => found,
    }
}

/// Where the file of a name lies, and none where it is no file of its own. It fails where there is none, and where it can't be looked at.
fn spot_at(rt: &(impl Files + AllocGlobal), name: &str) -> io::Result<Option<Spot>> {
    let target = target_of(rt, name)?;
    if is_open_already(target.as_path().as_str()) {
        return Ok(None);
    }
    // (where a folder above can't be searched, the path is as it was given)
    let path = match fs::canonicalize(rt, target.as_path()) {
        Ok(path) => path,
        Err(error) if error.kind() == ErrorKind::OutOfMemory => return Err(error),
        Err(_) => target,
    };
    let found = fs::metadata(rt, path.as_path())?;
    if !found.is_file() {
        return Ok(None);
    }
    let (device, node) = (found.dev(), found.ino());
    Ok(Some(Spot { path, device, node }))
}

/// The outcome of an attempt to hold one file.
#[derive(Drop)]
enum FileAttempt {
    Held(HeldFile),
    /// Another command holds it, or has just replaced it.
    Busy,
    /// It can't be opened, which is refused where it is read.
    Unopened,
}

/// The outcome of an attempt to hold the file of a name.
fn held_at(rt: &impl LockableFiles, name: &str) -> Result<FileAttempt, AllocError> {
    match locked(rt, name) {
        Ok(Some((mark, lock))) => Ok(FileAttempt::Held(HeldFile {
            name: String::from_str(rt.alloc(), name)?,
            mark,
            lock,
        })),
        Ok(None) => Ok(FileAttempt::Busy),
        Err(error) if error.kind() == ErrorKind::NotFound => Ok(FileAttempt::Busy),
        Err(error) if error.kind() == ErrorKind::OutOfMemory => Err(AllocError),
        Err(_) => Ok(FileAttempt::Unopened),
    }
}

/// The file of a name, locked where the system can lock it, and what it is. None where another command has the lock, or where the name is of another file by
/// now, since a command has replaced this one.
fn locked(rt: &impl LockableFiles, name: &str) -> io::Result<Option<(Mark, File)>> {
    let target = target_of(rt, name)?;
    let file = opened(rt, target.as_path())?;
    locked_at(rt, file, target.as_path())
}

/// The same, of a file that was opened by this path.
pub fn locked_at(
    rt: &impl LockableFiles,
    file: File,
    path: Path<'_>,
) -> io::Result<Option<(Mark, File)>> {
    if is_locked_elsewhere(&file) {
        return Ok(None);
    }
    let mark = Mark::of(&file.metadata()?);
    let there = fs::metadata(rt, path)?;
    if there.dev() == mark.device && there.ino() == mark.node {
        Ok(Some((mark, file)))
    } else {
        Ok(None)
    }
}

/// Whether another command has the lock of a file; else this one has it from now on, where the system can lock it. A signal that comes meanwhile is no answer.
fn is_locked_elsewhere(file: &File) -> bool {
    for _attempt in 0..MOST_LOCK_PAUSES {
        match file.try_lock() {
            Err(TryLockError::WouldBlock) => return true,
            Err(TryLockError::Error(error)) if error.kind() == ErrorKind::Interrupted => {}
            _ => return false,
        }
    }
    true
}

/// The file of a path, opened for writing too where that may be: some file systems lock no other.
fn opened(rt: &impl LockableFiles, path: Path<'_>) -> io::Result<File> {
    match OpenOptions::new().read(true).write(true).open(rt, path) {
        Ok(file) => Ok(file),
        Err(_) => fs::open(rt, path),
    }
}
