//! A folder with a journal.
ghost use Rattle.cpm_serve.specs.KeptFolder.{IsKeptAccess, IsLineUnkept};
ghost use Rattle.cpm_journal.specs.Entries.{IsKeepable, IsLineAdded, KeptSaving, entry_json};
ghost use Rattle.std.specs.Io.KnownBytes.{Appends};
ghost use Rattle.std.specs.Prelude.{◌≡◌, IfErr, Ok, OnOk};

use crate::append::write_flushed;
use crate::folder::{Folder, FolderError};
use cpm_journal::{append_close, append_request, append_restore};
use cpm_slots::{Host, SaveError, SlotId};
use cpm_store::Output;
use serde_json::Value;
use std::alloc::{AllocError, Global};
use std::io::Write;

/// A folder, and a journal in which each change of the host is kept before its reply is written. `docs/JOURNAL.md` is the form of the journal.
#[derive(Drop)]
pub struct KeptFolder<F, J> {
    pub folder: F,
    pub journal: J,
}

/// Keeps a line that was made, if there was memory for it.
fn keep_line<J: Write>(
    journal: &mut J,
    line: &Vec<u8>,
    outcome: Result<(), AllocError>,
) -> Result<(), FolderError>
    ensures kept { OnOk result ((outcome ≡ Ok tt) × Appends (J.contents journal.old) (J.contents journal.new) line.now.items) }
    ensures unkept { IfErr result (IsLineUnkept outcome (J.contents journal.old) (J.contents journal.new) line.now.items) }
{
    if outcome.is_err() {
        return Err(FolderError::OutOfMemory);
    }
    match write_flushed(journal, line) {
        Ok(()) => Ok(()),
        Err(_) => Err(FolderError::Fault),
    }
}

/// Appends the line of a saving. What it has are bytes, so it can be kept.
pub(crate) fn append_saving(
    line: &mut Vec<u8>,
    alloc: Global,
    saving: &[u8],
) -> Result<(), AllocError>
    ensures keepable { IsKeepable (KeptSaving saving.now) }
    ensures added { OnOk result (IsLineAdded (entry_json (KeptSaving saving.now)) line.old.items line.new.items) }
{
    append_restore(line, alloc, saving)
}

impl<F: Folder, J: Write> Folder for KeptFolder<F, J> {
    ghost does = { λ s a t. IsKeptAccess F.does J.contents s a t };

    fn read(&mut self, alloc: Global, name: &str) -> Result<Vec<u8>, FolderError> {
        self.folder.read(alloc, name)
    }

    fn hold(&mut self, alloc: Global, name: &str) -> Result<Vec<u8>, FolderError> {
        self.folder.hold(alloc, name)
    }

    fn write(&mut self, files: &[Output<'_>]) -> Result<(), FolderError> {
        self.folder.write(files)
    }

    fn release(&mut self) {
        self.folder.release()
    }

    fn keep(&mut self, alloc: Global, request: &Value) -> Result<(), FolderError> {
        let mut line = Vec::new(alloc);
        let outcome = append_request(&mut line, alloc, request);
        keep_line(&mut self.journal, &line, outcome)
    }

    fn keep_closed(&mut self, alloc: Global, slot: u64) -> Result<(), FolderError> {
        let mut line = Vec::new(alloc);
        let outcome = append_close(&mut line, alloc, slot);
        keep_line(&mut self.journal, &line, outcome)
    }

    fn keep_opened(
        &mut self,
        alloc: Global,
        host: &mut Host,
        slot: SlotId,
    ) -> Result<(), FolderError> {
        let saving = match host.save(alloc, slot) {
            Ok(saving) => saving,
            Err(SaveError::NoSuchSlot) => return Ok(()),
            Err(SaveError::OutOfMemory) => return Err(FolderError::OutOfMemory),
        };
        let mut line = Vec::new(alloc);
        let outcome = append_saving(&mut line, alloc, &saving);
        keep_line(&mut self.journal, &line, outcome)
    }
}
