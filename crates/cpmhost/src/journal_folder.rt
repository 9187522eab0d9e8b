//! The folder of a service with its journal, or with none.
ghost use Rattle.std.specs.Prelude.{⊤, ◌≡◌, IsOk, None};

use crate::files::unwritable;
use crate::held::LockableFiles;
use crate::journal::{JournalFile, check_apart, journal_of_savings, new_journal, resumed_journal};
use crate::output::Outputs;
use crate::service_folder::ServiceFolder;
use cpm_commands::ServedFolder;
use cpm_host::{HostError, ServeTask};
use cpm_serve::{Folder, FolderError, KeptFolder, Server};
use cpm_slots::{Host, SlotId};
use cpm_store::Output;
use serde_json::Value;
use std::alloc::Global;

/// The folder that a service has, or none, and the journal in which it keeps what changes its host, or none.
#[derive(Drop)]
pub struct JournalFolder<'a, R: LockableFiles> {
    rt: &'a R,
    outputs: Outputs,
    folders: &'a [&'a str],
    kept: KeptFolder<ServiceFolder<'a, R>, JournalFile>,
}

impl<'a, R: LockableFiles> JournalFolder<'a, R> {
    /// The folder of this name, or none, without a journal.
    pub fn new(rt: &'a R, outputs: Outputs, folders: &'a [&'a str]) -> JournalFolder<'a, R> {
        JournalFolder {
            rt,
            outputs,
            folders,
            kept: KeptFolder {
                folder: ServiceFolder::new(rt, outputs, folders),
                journal: JournalFile::none(),
            },
        }
    }

    /// The journal that a task asks for, begun or gone on with.
    fn journal_of(
        &self,
        task: &ServeTask<'_>,
        server: &mut Server,
    ) -> Result<JournalFile, HostError>
        ensures plain { task.now.journal ≡ None → task.now.resume ≡ None → IsOk result }
        ensures new { task.now.resume ≡ None → server.new ≡ server.old }
    {
        let (rt, outputs) = (self.rt, self.outputs);
        match (task.journal, task.resume) {
            (Some(name), _) => {
                check_apart(rt, name, self.folders)?;
                new_journal(rt, outputs, name, server)
            }
            (None, Some(name)) => {
                check_apart(rt, name, self.folders)?;
                let resumed = resumed_journal(rt, name, server)?;
                if !task.is_compact {
                    return Ok(resumed);
                }
                journal_of_savings(rt, outputs, name, server)
            }
            (None, None) => Ok(JournalFile::none()),
        }
    }
}

impl<R: LockableFiles> Folder for JournalFolder<'_, R> {
    // As of the folder itself.
    ghost does = { λ _ _ _. ⊤ };

    fn read(&mut self, alloc: Global, name: &str) -> Result<Vec<u8>, FolderError> {
        self.kept.read(alloc, name)
    }

    fn hold(&mut self, alloc: Global, name: &str) -> Result<Vec<u8>, FolderError> {
        self.kept.hold(alloc, name)
    }

    fn write(&mut self, files: &[Output<'_>]) -> Result<(), FolderError> {
        self.kept.write(files)
    }

    fn release(&mut self) {
        self.kept.release()
    }

    fn keep(&mut self, alloc: Global, request: &Value) -> Result<(), FolderError> {
        if !self.kept.journal.is_there() {
            return Ok(());
        }
        self.kept.keep(alloc, request)
    }

    fn keep_closed(&mut self, alloc: Global, slot: u64) -> Result<(), FolderError> {
        if !self.kept.journal.is_there() {
            return Ok(());
        }
        self.kept.keep_closed(alloc, slot)
    }

    fn keep_opened(
        &mut self,
        alloc: Global,
        host: &mut Host,
        slot: SlotId,
    ) -> Result<(), FolderError> {
        if !self.kept.journal.is_there() {
            return Ok(());
        }
        self.kept.keep_opened(alloc, host, slot)
    }
}

impl<R: LockableFiles> ServedFolder for JournalFolder<'_, R> {
    // Nothing can be said of what the file of a journal holds. Where none is gone on with, the host that is served is the new one. Where none is named,
    // nothing is refused.
    ghost begins = { λ _ task made resumed e _. task.resume ≡ None → (resumed ≡ made) × (task.journal ≡ None → e ≡ None) };

    fn begin(
        &mut self,
        _alloc: Global,
        task: &ServeTask<'_>,
        server: &mut Server,
    ) -> Result<(), HostError> {
        self.kept.journal = self.journal_of(task, server)?;
        Ok(())
    }

    fn unkept(&self, task: &ServeTask<'_>) -> HostError {
        match task.journal.or(task.resume) {
            Some(name) => unwritable(name, self.kept.journal.fault()),
            None => HostError::JournalUnwritable,
        }
    }
}
