//! The journal of a served host, as a file.
ghost use Rattle.std.specs.Prelude.{◌≡◌};
ghost use Rattle.cpmhost.specs.Journals.{IsJournalRefusal};

use crate::beside::is_missing;
use crate::files::{unreadable, unwritable};
use crate::held::{LockableFiles, held_elsewhere, locked_at};
use crate::output::{Outputs, PERMISSIONS, target_of};
use cpm_host::{HostError, JournalRefusal};
use cpm_journal::{EntryFault, HeadFault, append_head};
use cpm_serve::{JournalError, JournalFault, RedoFault, Server, resume_journal, write_journal};
use std::alloc::Global;
use std::fs::{File, Metadata, OpenOptions};
use std::io::{BufReader, BufWriter, ErrorKind, Seek, SeekFrom, Write};
use std::os::unix::fs::MetadataExt;
use std::path::Path;
use std::{fs, io};

/// The file of a journal, locked and open at its end; or none.
#[derive(Drop)]
pub struct JournalFile {
    file: Option<File>,
    /// Why it was not written, where that failed last.
    fault: Option<io::Error>,
}

impl JournalFile {
    /// None.
    pub fn none() -> JournalFile {
        JournalFile {
            file: None,
            fault: None,
        }
    }

    /// Whether there is one.
    pub fn is_there(&self) -> bool {
        self.file.is_some()
    }

    /// Why it can't be written.
    pub fn fault(&self) -> io::Error {
        match self.fault {
            Some(reason) => reason,
            None => io::Error::from(ErrorKind::WriteZero),
        }
    }
}

impl Write for JournalFile {
    fn write(&mut self, buf: &[u8]) -> io::Result<usize> {
        let Some(file) = &mut self.file else {
            return Ok(buf.len());
        };
        let written = file.write(buf);
        if let Err(reason) = &written {
            self.fault = Some(*reason);
        }
        written
    }

    fn flush(&mut self) -> io::Result<()> {
        Ok(())
    }
}

/// Why a journal is not gone on with.
fn journal_refusal(name: &str, error: JournalError) -> HostError
    ensures { IsJournalRefusal name.now error.line error.fault result }
{
    let refusal = match error.fault {
        JournalFault::Unreadable(reason) => return unreadable(name, reason),
        JournalFault::Head(HeadFault::OutOfMemory)
        | JournalFault::Entry(EntryFault::OutOfMemory)
        | JournalFault::Redo(RedoFault::OutOfMemory) => return HostError::OutOfMemory,
        JournalFault::Head(HeadFault::NoJournal) => JournalRefusal::NoJournal,
        JournalFault::Head(HeadFault::OtherVersion) => JournalRefusal::OtherVersion,
        JournalFault::Head(HeadFault::OtherSystem) => JournalRefusal::OtherSystem,
        JournalFault::Head(HeadFault::OtherFrames) => JournalRefusal::OtherFrames,
        JournalFault::Entry(_) => JournalRefusal::WrongLine(error.line),
        JournalFault::Redo(RedoFault::Refused) => JournalRefusal::UndoneLine(error.line),
    };
    HostError::JournalRefused(refusal)
}

/// The path of the folder that a file lies in.
fn folder_of<'a>(path: &'a str) -> &'a str {
    match Path::new(path).parent() {
        Some(folder) if !folder.as_str().is_empty() => folder.as_str(),
        _ => ".",
    }
}

/// Whether two looks found one file or folder.
fn is_same(one: &Metadata, other: &Metadata) -> bool {
    one.dev() == other.dev() && one.ino() == other.ino()
}

/// Whether a file lies in this folder, its links followed.
fn lies_in(rt: &impl LockableFiles, name: &str, folder: &str) -> io::Result<bool> {
    let target = target_of(rt, name)?;
    let own = fs::metadata(rt, folder_of(target.as_path().as_str()))?;
    match fs::metadata(rt, folder) {
        Ok(theirs) => Ok(is_same(&own, &theirs)),
        Err(error) if error.kind() == ErrorKind::NotFound => Ok(false),
        Err(error) => Err(error),
    }
}

/// Refuses a journal that lies in the folder whose files requests name: one of them would write over it.
pub fn check_apart(rt: &impl LockableFiles, name: &str, folders: &[&str]) -> Result<(), HostError> {
    for folder in folders {
        let reason = match lies_in(rt, name, folder) {
            Ok(false) => continue,
            Ok(true) => io::Error::new(
                ErrorKind::InvalidInput,
                "it lies in the folder of the requests' files; put it elsewhere",
            ),
            Err(reason) => reason,
        };
        return Err(unwritable(name, reason));
    }
    Ok(())
}

/// Refuses a journal that is no file of its own, or that the process has open already, as a standard stream.
fn check_plain(rt: &impl LockableFiles, name: &str) -> io::Result<()> {
    let found = fs::metadata(rt, name)?;
    if !found.is_file() {
        return Err(io::Error::new(
            ErrorKind::InvalidInput,
            "it is no file but a device, a pipe or a folder",
        ));
    }
    for stream in ["/dev/stdin", "/dev/stdout"] {
        if let Ok(open) = fs::metadata(rt, stream)
            && is_same(&open, &found)
        {
            return Err(io::Error::new(
                ErrorKind::InvalidInput,
                "it is standard input or output of this command too",
            ));
        }
    }
    Ok(())
}

/// The file of a name, open to be read and written, and locked. None where another command has it.
fn try_locked(rt: &impl LockableFiles, name: &str) -> io::Result<Option<File>> {
    let file = OpenOptions::new().read(true).write(true).open(rt, name)?;
    match locked_at(rt, file, Path::new(name))? {
        Some((_, file)) => Ok(Some(file)),
        None => Ok(None),
    }
}

/// The same. It is refused where another command has it.
fn locked(rt: &impl LockableFiles, name: &str) -> Result<File, HostError> {
    if let Err(reason) = check_plain(rt, name) {
        return Err(unreadable(name, reason));
    }
    let reason = match try_locked(rt, name) {
        Ok(Some(file)) => return Ok(file),
        Ok(None) => held_elsewhere(),
        Err(reason) => reason,
    };
    Err(unwritable(name, reason))
}

/// A file with its end behind so many bytes, where it is written next.
fn ended_at(mut file: File, length: u64) -> io::Result<JournalFile> {
    file.set_len(length)?;
    file.seek(SeekFrom::Start(length))?;
    Ok(JournalFile {
        file: Some(file),
        fault: None,
    })
}

/// A file without so many bytes at its end.
fn cut_off(file: File, torn: u64) -> io::Result<JournalFile> {
    let length = file.metadata()?.len();
    ended_at(file, length.saturating_sub(torn))
}

/// The file of a name, locked, to be written on behind all that it has.
fn at_its_end(rt: &impl LockableFiles, name: &str) -> Result<JournalFile, HostError> {
    let file = locked(rt, name)?;
    cut_off(file, 0).map_err(|reason| unwritable(name, reason))
}

/// Makes the file of a new journal, with its first line. Where something has the name nothing is made.
pub fn new_journal(
    rt: &impl LockableFiles,
    outputs: Outputs,
    name: &str,
    server: &mut Server,
) -> Result<JournalFile, HostError>
    ensures { server.new ≡ server.old }
{
    if !is_missing(fs::symlink_metadata(rt, name)) {
        let reason = io::Error::new(
            ErrorKind::AlreadyExists,
            "it is there already; '--resume' goes on with it",
        );
        return Err(unwritable(name, reason));
    }
    let mut line = Vec::new(rt.alloc());
    append_head(&mut line, rt.alloc(), &server.head())?;
    let made = match outputs.make(rt, name, PERMISSIONS, &line) {
        Ok(Some(beside)) => beside.take_new_name(rt),
        Ok(None) => Err(io::Error::from(ErrorKind::AlreadyExists)),
        Err(reason) => Err(reason),
    };
    match made {
        Ok(()) => at_its_end(rt, name),
        Err(reason) => Err(unwritable(name, reason)),
    }
}

/// Makes a host again of the journal in a file. Says how many bytes are torn at its end.
fn redone(
    rt: &impl LockableFiles,
    name: &str,
    file: &File,
    server: &mut Server,
) -> Result<u64, HostError> {
    let Ok(mut reader) = BufReader::new(rt.alloc(), file) else {
        return Err(HostError::OutOfMemory);
    };
    match resume_journal(server, rt.alloc(), &mut reader) {
        Ok(torn) => Ok(torn as u64),
        Err(error) => Err(journal_refusal(name, error)),
    }
}

/// Makes a host again of the journal in a file, which is written on behind it. What is torn at its end is cut off.
pub fn resumed_journal(
    rt: &impl LockableFiles,
    name: &str,
    server: &mut Server,
) -> Result<JournalFile, HostError> {
    let file = locked(rt, name)?;
    let torn = redone(rt, name, &file, server)?;
    cut_off(file, torn).map_err(|reason| unwritable(name, reason))
}

/// Writes a journal of a host's savings to a file beside, which takes the name of the journal once it is on the device.
fn write_savings(
    rt: &impl LockableFiles,
    outputs: Outputs,
    name: &str,
    server: &mut Server,
    alloc: Global,
) -> io::Result<()> {
    let begun = outputs.begin(rt, name)?;
    let mut writer = BufWriter::new(alloc, begun)?;
    let written = match write_journal(server, alloc, &mut writer) {
        Ok(()) => writer.flush(),
        Err(error) => Err(error),
    };
    let begun = writer.get_ref();
    let named = match written {
        Ok(()) => begun.take_name(),
        Err(error) => Err(error),
    };
    if named.is_err() {
        let _ = begun.remove();
    }
    named
}

/// Puts a journal of a host's savings in the place of its journal, which stays as it was where that fails.
pub fn journal_of_savings(
    rt: &impl LockableFiles,
    outputs: Outputs,
    name: &str,
    server: &mut Server,
) -> Result<JournalFile, HostError> {
    match write_savings(rt, outputs, name, server, rt.alloc()) {
        Ok(()) => at_its_end(rt, name),
        Err(reason) => Err(unwritable(name, reason)),
    }
}
