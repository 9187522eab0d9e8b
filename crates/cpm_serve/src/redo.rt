//! What a journal keeps, done again.
ghost use Rattle.std.specs.Prelude.{◌≡◌, IfErr, OnErr, OnOk, Some};
ghost use Rattle.serde_json.specs.View.{view};
ghost use Rattle.cpm_journal.specs.Entries.{KeptNumber, KeptRequest, KeptSaving, journal_entry_seen};
ghost use Rattle.cpm_protocol.specs.Requests.{request_seen};
ghost use Rattle.cpm_serve.specs.Owned.{owned_answer};
ghost use Rattle.cpm_serve.specs.Redone.{IsUndone, is_again, redo_result, redone};

use crate::folder::NoFolder;
use crate::keep::has_file_name;
use crate::many::perform;
use crate::owned::OwnedReply;
use crate::server::Server;
use cpm_journal::JournalEntry;
use cpm_protocol::{WireRefusal, WireReply, WireRequest, request_of};
use cpm_slots::{Host, HostRestoreError};
use serde_json::Value;
use std::alloc::Global;
use thiserror::Error;

/// Why an entry of a journal is not done again.
#[derive(Clone, Copy, Debug, PartialEq, Eq, Drop, Error)]
pub enum RedoFault {
    /// The host refuses it.
    #[error("the host refuses it")]
    Refused,
    #[error("out of memory")]
    OutOfMemory,
}

/// Whether a request is kept as it was asked.
fn is_again(request: WireRequest<'_>) -> bool
    ensures { result ≡ is_again (request_seen request.entry) }
{
    match request {
        WireRequest::Open { drives, .. } => !has_file_name(drives),
        WireRequest::Close { out, .. } => out.a.is_none(),
        WireRequest::Key { .. }
        | WireRequest::Grant { .. }
        | WireRequest::Take { .. }
        | WireRequest::List { .. }
        | WireRequest::Turn { .. }
        | WireRequest::Fork { .. } => true,
        _ => false,
    }
}

/// What the reply says of a request that was done again.
fn redo_result(reply: &OwnedReply) -> Result<(), RedoFault>
    ensures { result ≡ redo_result (owned_answer reply.now) }
{
    match reply {
        OwnedReply::Plain(WireReply::Refused(WireRefusal::OutOfMemory)) => {
            Err(RedoFault::OutOfMemory)
        }
        OwnedReply::Plain(WireReply::Refused(_) | WireReply::Wrong(_)) => Err(RedoFault::Refused),
        _ => Ok(()),
    }
}

/// Does a request again, just as it was asked.
fn redo_request(host: &mut Host, alloc: Global, value: &Value) -> Result<(), RedoFault>
    ensures done { OnOk result (redone host.old.host (KeptRequest (view value.now)) ≡ Some host.new.host) }
    ensures undone { IfErr result (IsUndone host.old.host (KeptRequest (view value.now))) }
    ensures unchanged { OnErr result (host.new.host ≡ host.old.host) }
{
    match request_of(value) {
        Ok(request) if is_again(request) => {
            redo_result(&perform(host, alloc, &mut NoFolder, request))
        }
        _ => Err(RedoFault::Refused),
    }
}

/// Opens a session again, from its saving.
fn redo_opening(host: &mut Host, alloc: Global, saving: &[u8]) -> Result<(), RedoFault>
    ensures done { OnOk result (redone host.old.host (KeptSaving saving.now) ≡ Some host.new.host) }
    ensures undone { IfErr result (IsUndone host.old.host (KeptSaving saving.now)) }
    ensures unchanged { OnErr result (host.new.host ≡ host.old.host) }
{
    match host.restore(alloc, saving) {
        Ok(_) => Ok(()),
        Err(HostRestoreError::OutOfMemory) => Err(RedoFault::OutOfMemory),
        Err(_) => Err(RedoFault::Refused),
    }
}

/// Gives the next session its number.
fn redo_number(host: &mut Host, next: u64) -> Result<(), RedoFault>
    ensures done { OnOk result (redone host.old.host (KeptNumber next) ≡ Some host.new.host) }
    ensures undone { IfErr result (IsUndone host.old.host (KeptNumber next)) }
    ensures unchanged { OnErr result (host.new.host ≡ host.old.host) }
{
    if host.number_from(next) {
        Ok(())
    } else {
        Err(RedoFault::Refused)
    }
}

impl Server {
    /// Does again what an entry of a journal keeps. It is refused where the host refuses it, or if out of memory; nothing is changed then.
    pub fn redo(&mut self, alloc: Global, entry: &JournalEntry) -> Result<(), RedoFault>
        ensures done { OnOk result (redone self.old.host.host (journal_entry_seen entry.now) ≡ Some self.new.host.host) }
        ensures undone { IfErr result (IsUndone self.old.host.host (journal_entry_seen entry.now)) }
        ensures unchanged { OnErr result (self.new.host.host ≡ self.old.host.host) }
    {
        match entry {
            JournalEntry::Request(value) => redo_request(&mut self.host, alloc, value),
            JournalEntry::Restore(saving) => redo_opening(&mut self.host, alloc, saving),
            JournalEntry::Number(next) => redo_number(&mut self.host, *next),
        }
    }
}
