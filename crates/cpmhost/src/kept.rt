//! The checkpoints of a run: where its sessions stand, kept in a file beside its configuration, from which the same command goes on if it was ended.

use crate::files::{unreadable, unwritable};
use crate::held::{LockableFiles, Mark};
use crate::output::{Outputs, PERMISSIONS};
use crate::patient::PatientError;
use crate::refused::PathLine;
use cpm_checkpoint::{Checkpoint, CheckpointError};
use cpm_host::{HostError, Task, shown};
use std::io::{ErrorKind, Read, Write};
use std::{fs, io};

/// All bytes of a file that was written before, which may have more than other files that are read. It is refused where it is none, as a pipe that nobody
/// writes, or a device that has no end.
fn kept_bytes(rt: &impl LockableFiles, name: &str) -> io::Result<Vec<u8>> {
    let found = fs::metadata(rt, name)?;
    if !found.is_file() {
        return Err(io::Error::new(
            ErrorKind::InvalidInput,
            "it is no file but a device, a pipe or a folder",
        ));
    }
    let mut bytes = Vec::new(rt.alloc());
    let mut file = fs::open(rt, name)?;
    file.take(found.len()).read_to_end(&mut bytes)?;
    Ok(bytes)
}

/// The file of a run's checkpoints.
#[derive(Drop)]
pub struct CheckpointFile {
    name: String,
    /// After how many steps of all sessions together one is kept.
    every: u64,
    outputs: Outputs,
    /// How many steps there were when the last one was kept, and how many there are.
    last: u64,
    done: u64,
    /// What the file was when it was read or written last.
    mark: Option<Mark>,
    /// Whether one couldn't be written.
    has_failed: bool,
}

impl CheckpointFile {
    /// That of a task, if it keeps checkpoints. It is refused where the file can't be written.
    pub fn of(
        rt: &impl LockableFiles,
        outputs: Outputs,
        task: &Task<'_>,
    ) -> Result<Option<CheckpointFile>, HostError> {
        let (config, every) = match task {
            Task::Run(task) => match task.checkpoint {
                Some(every) => (task.config, every),
                None => return Ok(None),
            },
            _ => return Ok(None),
        };
        let name = format!(in rt.alloc(); "{config}.checkpoint")?;
        if let Err(reason) = outputs.check(rt, name.as_str()) {
            return Err(unwritable(name.as_str(), reason));
        }
        Ok(Some(CheckpointFile {
            name,
            every,
            outputs,
            last: 0,
            done: 0,
            mark: None,
            has_failed: false,
        }))
    }

    /// The checkpoint in the file, if it is there. It is refused where the file has something else.
    pub fn load(&mut self, rt: &impl LockableFiles) -> Result<Option<Checkpoint>, HostError> {
        let bytes = match kept_bytes(rt, self.name.as_str()) {
            Ok(bytes) => bytes,
            Err(reason) if reason.kind() == ErrorKind::NotFound => return Ok(None),
            Err(reason) => return Err(unreadable(self.name.as_str(), reason)),
        };
        match Checkpoint::read(rt.alloc(), bytes.as_slice()) {
            Ok(checkpoint) => {
                self.mark = Mark::at(rt, self.name.as_str()).ok();
                Ok(Some(checkpoint))
            }
            Err(CheckpointError::Damaged { .. }) => Err(HostError::FileUnreadable {
                name: shown(self.name.as_str()),
                reason: io::Error::new(
                    ErrorKind::InvalidData,
                    "it is no checkpoint of a run, or a damaged one; move it away",
                ),
            }),
            Err(CheckpointError::OutOfMemory) => Err(HostError::OutOfMemory),
        }
    }

    /// Sessions begin that are kept.
    pub fn begin(&mut self) {
        self.last = 0;
        self.done = 0;
    }

    /// They have executed so many steps.
    pub fn see(&mut self, done: u64) {
        self.done = done;
    }

    /// Whether one is to be kept now.
    pub fn is_due(&self) -> bool {
        self.done.saturating_sub(self.last) >= self.every
    }

    /// Keeps one, whole, in place of that before. Why it can't is told the first time.
    pub fn keep(&mut self, rt: &impl LockableFiles, bytes: &[u8]) {
        self.last = self.done;
        match self.try_write(rt, bytes) {
            Ok(()) => {
                self.mark = Mark::at(rt, self.name.as_str()).ok();
                self.has_failed = false;
            }
            Err(reason) if !self.has_failed => {
                self.has_failed = true;
                let path = PathLine(self.name.as_str());
                let _ = eprintln!(PatientError::new(rt);
                    "cpmhost: can't keep where the sessions stand in '{path}': {reason}"
                );
            }
            Err(_) => {}
        }
    }

    /// Tells whether a run goes on from the checkpoint in the file, which may be another's.
    pub fn tell_kept(&self, rt: &impl LockableFiles, goes_on: bool) {
        let path = PathLine(self.name.as_str());
        let _ = if goes_on {
            eprintln!(PatientError::new(rt); "cpmhost: goes on from '{path}'")
        } else {
            eprintln!(PatientError::new(rt);
                "cpmhost: '{path}' is of another run, so this one begins anew"
            )
        };
    }

    fn try_write(&self, rt: &impl LockableFiles, bytes: &[u8]) -> io::Result<()> {
        let made = self
            .outputs
            .make(rt, self.name.as_str(), PERMISSIONS, bytes)?;
        let Some(beside) = made else {
            return Ok(());
        };
        let named = beside.take_name(rt);
        if named.is_err() {
            let _ = beside.remove(rt);
        }
        named
    }

    /// Takes the file away, if it is still what it was when it was read or written last.
    pub fn remove(&self, rt: &impl LockableFiles) {
        if let Some(mark) = self.mark
            && let Ok(found) = Mark::at(rt, self.name.as_str())
            && found == mark
        {
            let _ = fs::remove_file(rt, self.name.as_str());
        }
    }
}

/// The checkpoint from which a run goes on, if it keeps any and there is one.
pub fn load_if_any(
    rt: &impl LockableFiles,
    checkpoints: &mut Option<CheckpointFile>,
) -> Result<Option<Checkpoint>, HostError> {
    match checkpoints {
        Some(file) => file.load(rt),
        None => Ok(None),
    }
}
