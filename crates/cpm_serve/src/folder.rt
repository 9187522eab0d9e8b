//! A folder of files, as a service has one.
ghost use Rattle.cpm_serve.specs.Folder.{FolderAccess, hold_access, keep_access, read_access, read_answer, read_refusal, write_access, write_answer};
ghost use Rattle.cpm_serve.specs.Folder.{AsAsked, AsClosed, KeepsOpened, Released};
ghost use Rattle.cpm_serve.specs.Folder.{IsNoFolderAccess, write_refusal};
ghost use Rattle.cpm_store.specs.Writes.{named_output};
ghost use Rattle.cpm_slots.specs.Host.{slot_at};
ghost use Rattle.serde_json.specs.View.{view};
ghost use Rattle.std.specs.Prelude.{◌≡◌, ◌∷◌, [], Err, map};

use cpm_protocol::WireRefusal;
use cpm_slots::{Host, SlotId};
use cpm_store::Output;
use serde_json::Value;
use std::alloc::Global;
use thiserror::Error;

/// Why a folder doesn't do what it is asked.
#[derive(Clone, Copy, Debug, PartialEq, Eq, Drop, Error)]
pub enum FolderError {
    /// There is no file of the name.
    #[error("the folder has no such file")]
    Absent,
    /// Another command holds the file.
    #[error("another command has the file")]
    Busy,
    /// The file can't be read or written.
    #[error("the file can't be read or written")]
    Fault,
    #[error("out of memory")]
    OutOfMemory,
}

/// Why a line is not served to its end.
#[derive(Clone, Copy, Debug, PartialEq, Eq, Drop, Error)]
pub enum ServeError {
    /// There is no memory for its reply, or to keep what it changed.
    #[error("out of memory")]
    OutOfMemory,
    /// The journal in which what it changed is kept can't be written.
    #[error("the journal can't be written")]
    Unkept,
}

/// Files by their names, and perhaps a journal of what changes the host.
pub trait Folder {
    // From this state, by this access, to that state. Every folder has it, and a body that is proved for each of them can know no step but those that its
    // own accesses made.
    ghost does: { Self → FolderAccess → Self → Type 0 };

    /// The bytes of a file.
    fn read(&mut self, alloc: Global, name: &str) -> Result<Vec<u8>, FolderError>
        ensures did { does self.old (read_access name.now (read_answer result)) self.new };

    /// The bytes of a file that is replaced next: up to then no other command changes it.
    fn hold(&mut self, alloc: Global, name: &str) -> Result<Vec<u8>, FolderError>
        ensures did { does self.old (hold_access name.now (read_answer result)) self.new };

    /// Writes files, in order. Each is whole then, or as it was.
    fn write(&mut self, files: &[Output<'_>]) -> Result<(), FolderError>
        ensures did { does self.old (write_access (map named_output files.now) (write_answer result)) self.new };

    /// Lets the file go that is held, since it is not replaced.
    fn release(&mut self)
        ensures did { does self.old Released self.new };

    /// Keeps a request that was done. A folder with no journal does nothing.
    fn keep(&mut self, alloc: Global, request: &Value) -> Result<(), FolderError>
        ensures did { does self.old (keep_access (AsAsked (view request.now)) (write_answer result)) self.new };

    /// Keeps a slot's closing.
    fn keep_closed(&mut self, alloc: Global, slot: u64) -> Result<(), FolderError>
        ensures did { does self.old (keep_access (AsClosed slot) (write_answer result)) self.new };

    /// Keeps a session that was opened from files, as it is now.
    fn keep_opened(
        &mut self,
        alloc: Global,
        host: &mut Host,
        slot: SlotId,
    ) -> Result<(), FolderError>
        ensures did { KeepsOpened does self.old self.new host.old.host (slot_at slot.0 host.old.host.slots) (write_answer result) }
        ensures unchanged { host.new ≡ host.old };
}

/// A folder that is none: no file is there, and none is written.
#[derive(Clone, Copy, Debug, Drop)]
pub struct NoFolder;

impl Folder for NoFolder {
    ghost does = { λ s a t. IsNoFolderAccess a × (t ≡ s) };

    fn read(&mut self, _alloc: Global, _name: &str) -> Result<Vec<u8>, FolderError>
        ensures absent { result ≡ Err FolderError.Absent }
    {
        Err(FolderError::Absent)
    }

    fn hold(&mut self, _alloc: Global, _name: &str) -> Result<Vec<u8>, FolderError>
        ensures absent { result ≡ Err FolderError.Absent }
    {
        Err(FolderError::Absent)
    }

    fn write(&mut self, _files: &[Output<'_>]) -> Result<(), FolderError>
        ensures fault { result ≡ Err FolderError.Fault }
    {
        Err(FolderError::Fault)
    }

    fn release(&mut self) {}

    fn keep(&mut self, _alloc: Global, _request: &Value) -> Result<(), FolderError> {
        Ok(())
    }

    fn keep_closed(&mut self, _alloc: Global, _slot: u64) -> Result<(), FolderError> {
        Ok(())
    }

    fn keep_opened(
        &mut self,
        _alloc: Global,
        _host: &mut Host,
        _slot: SlotId,
    ) -> Result<(), FolderError> {
        Ok(())
    }
}

/// Why a file is not read, as a reply says it.
pub(crate) fn read_refusal(error: FolderError) -> WireRefusal
    ensures { result ≡ read_refusal error }
{
    match error {
        FolderError::Absent => WireRefusal::AbsentFile,
        FolderError::Busy => WireRefusal::BusyFile,
        FolderError::Fault => WireRefusal::FileFault,
        FolderError::OutOfMemory => WireRefusal::OutOfMemory,
    }
}

/// Why a file is not written, as a reply says it. What is written need not be there.
pub(crate) fn write_refusal(error: FolderError) -> WireRefusal
    ensures { result ≡ write_refusal error }
{
    match error {
        FolderError::Absent | FolderError::Fault => WireRefusal::FileFault,
        FolderError::Busy => WireRefusal::BusyFile,
        FolderError::OutOfMemory => WireRefusal::OutOfMemory,
    }
}

/// Writes one file.
pub(crate) fn write_file<F: Folder>(
    folder: &mut F,
    name: &str,
    bytes: Vec<u8>,
) -> Result<(), FolderError>
    ensures { F.does folder.old (write_access ((name.now, bytes.items) ∷ []) (write_answer result)) folder.new }
{
    let files = [Output { name, bytes }];
    folder.write(&files)
}
