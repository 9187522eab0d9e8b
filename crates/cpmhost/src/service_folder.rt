//! The folder of a host that is served lines.
ghost use Rattle.std.specs.Prelude.{⊤};

use crate::beside::is_missing;
use crate::files::MachineFiles;
use crate::held::LockableFiles;
use crate::output::Outputs;
use cpm_commands::{CommandFiles, FilePlan, FileRole, OutputNaming};
use cpm_host::{HostError, RunError, Store, StoreError, shown};
use cpm_serve::{Folder, FolderError};
use cpm_slots::{Host, SlotId};
use cpm_store::Output;
use serde_json::Value;
use std::alloc::{AllocError, Global};
use std::fs;
use std::io::ErrorKind;

/// The folder that a service has, or none. Each request sees to its files anew, since others may change them.
#[derive(Drop)]
pub struct ServiceFolder<'a, R: LockableFiles> {
    rt: &'a R,
    outputs: Outputs,
    /// The name of the folder; there is one at most.
    folders: &'a [&'a str],
    /// The file that is held, as it is replaced next.
    held: Option<MachineFiles<'a, R>>,
}

/// Why a file was not seen to.
fn unseen(error: HostError) -> FolderError {
    match error {
        HostError::OutOfMemory => FolderError::OutOfMemory,
        HostError::FileUnwritable { reason, .. } if reason.kind() == ErrorKind::ResourceBusy => {
            FolderError::Busy
        }
        _ => FolderError::Fault,
    }
}

/// Sees to the files of a plan.
fn see<R: LockableFiles>(
    files: &mut MachineFiles<'_, R>,
    plan: &FilePlan<'_>,
) -> Result<(), FolderError> {
    match files.see_to(plan) {
        Ok(()) => Ok(()),
        Err(error) => Err(unseen(error)),
    }
}

/// Why it was not read or written.
fn fault_of(error: StoreError) -> FolderError {
    match error {
        StoreError::Device => FolderError::Fault,
        StoreError::OutOfMemory => FolderError::OutOfMemory,
    }
}

/// The plan of one file that is read, and replaced where that is asked.
fn plan_of<'a>(
    alloc: Global,
    path: &'a str,
    is_replaced: bool,
) -> Result<FilePlan<'a>, AllocError> {
    let mut plan = FilePlan::new(alloc, OutputNaming::ReplacesPlain);
    plan.add_input(path, FileRole::Image)?;
    if is_replaced {
        plan.add_output(path, FileRole::Image)?;
    }
    Ok(plan)
}

impl<'a, R: LockableFiles> ServiceFolder<'a, R> {
    /// The folder of this name, or none.
    pub fn new(rt: &'a R, outputs: Outputs, folders: &'a [&'a str]) -> ServiceFolder<'a, R> {
        ServiceFolder {
            rt,
            outputs,
            folders,
            held: None,
        }
    }

    /// The path of a file in it.
    fn path_of(&self, name: &str) -> Result<String, FolderError> {
        match self.folders.first() {
            Some(folder) => match format!(in self.rt.alloc(); "{folder}/{name}") {
                Ok(path) => Ok(path),
                Err(_) => Err(FolderError::OutOfMemory),
            },
            None => Err(FolderError::Absent),
        }
    }

    /// The files of one request.
    fn files(&self) -> MachineFiles<'a, R> {
        MachineFiles::in_folders(self.rt, self.outputs, self.folders)
    }

    /// The bytes of a file, and what holds it.
    fn read_by(
        &self,
        alloc: Global,
        name: &str,
        is_replaced: bool,
    ) -> Result<(Vec<u8>, MachineFiles<'a, R>), FolderError> {
        let path = self.path_of(name)?;
        if is_missing(fs::symlink_metadata(self.rt, path.as_str())) {
            return Err(FolderError::Absent);
        }
        let Ok(plan) = plan_of(alloc, path.as_str(), is_replaced) else {
            return Err(FolderError::OutOfMemory);
        };
        let mut files = self.files();
        see(&mut files, &plan)?;
        match files.read(alloc, path.as_str()) {
            Ok(bytes) => Ok((bytes, files)),
            Err(error) => Err(fault_of(error)),
        }
    }

    /// The paths of files in it.
    fn paths_of(&self, files: &[Output<'_>]) -> Result<Vec<String>, FolderError> {
        let mut paths = Vec::new(self.rt.alloc());
        for file in files {
            let path = match self.path_of(file.name) {
                Err(FolderError::Absent) => return Err(FolderError::Fault),
                path => path?,
            };
            if paths.push(path).is_err() {
                return Err(FolderError::OutOfMemory);
            }
        }
        Ok(paths)
    }

    /// What the files of these paths are written by: what holds one that is held, or else what has seen to them now.
    fn writer(&mut self, paths: &[String]) -> Result<MachineFiles<'a, R>, FolderError> {
        if let Some(files) = self.held.take() {
            return Ok(files);
        }
        let mut plan = FilePlan::new(self.rt.alloc(), OutputNaming::ReplacesPlain);
        for path in paths {
            if plan.add_output(path.as_str(), FileRole::Image).is_err() {
                return Err(FolderError::OutOfMemory);
            }
        }
        let mut files = self.files();
        see(&mut files, &plan)?;
        Ok(files)
    }

    /// Writes files, and gives them their names once all are there.
    fn write_all(&mut self, files: &[Output<'_>]) -> Result<(), FolderError> {
        let paths = self.paths_of(files)?;
        let mut writer = self.writer(&paths)?;
        let done = write_named(&mut writer, files, &paths);
        writer.end(done).map_err(|refused| unseen(refused.error))
    }
}

/// Writes files of these paths, and gives them their names.
fn write_named<R: LockableFiles>(
    writer: &mut MachineFiles<'_, R>,
    files: &[Output<'_>],
    paths: &[String],
) -> Result<(), HostError> {
    for (file, path) in files.iter().zip(paths.iter()) {
        match writer.write(path.as_str(), file.bytes.as_slice()) {
            Ok(()) => {}
            Err(StoreError::Device) => {
                return Err(HostError::from(RunError::WriteFault(shown(file.name))));
            }
            Err(StoreError::OutOfMemory) => return Err(HostError::OutOfMemory),
        }
    }
    writer.give_names()
}

impl<R: LockableFiles> Folder for ServiceFolder<'_, R> {
    // Nothing can be said of what a file of the machine holds. What was read and written is said by the calls of whoever calls.
    ghost does = { λ _ _ _. ⊤ };

    fn read(&mut self, alloc: Global, name: &str) -> Result<Vec<u8>, FolderError> {
        self.held = None;
        let (bytes, _files) = self.read_by(alloc, name, false)?;
        Ok(bytes)
    }

    fn hold(&mut self, alloc: Global, name: &str) -> Result<Vec<u8>, FolderError> {
        self.held = None;
        let (bytes, files) = self.read_by(alloc, name, true)?;
        self.held = Some(files);
        Ok(bytes)
    }

    fn write(&mut self, files: &[Output<'_>]) -> Result<(), FolderError> {
        self.write_all(files)
    }

    fn release(&mut self) {
        self.held = None;
    }

    fn keep(&mut self, _alloc: Global, _request: &Value) -> Result<(), FolderError> {
        Ok(())
    }

    fn keep_closed(&mut self, _alloc: Global, _slot: u64) -> Result<(), FolderError> {
        Ok(())
    }

    fn keep_opened(
        &mut self,
        _alloc: Global,
        _host: &mut Host,
        _slot: SlotId,
    ) -> Result<(), FolderError> {
        Ok(())
    }
}
