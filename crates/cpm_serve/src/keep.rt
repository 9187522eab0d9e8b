//! What of a request that was done is kept in a journal.
ghost use Rattle.std.specs.Prelude.{◌≡◌};
ghost use Rattle.serde_json.specs.Data.{Data};
ghost use Rattle.serde_json.specs.View.{view};
ghost use Rattle.cpm_slots.specs.Host.{Host as HostValue};
ghost use Rattle.cpm_protocol.specs.Requests.{drive_names_of, request_seen, text_if};
ghost use Rattle.cpm_serve.specs.Changes.{change_done, kept_change, has_file_name, is_in_file, is_refusal, keep_accesses, opened_change, unkept_by};
ghost use Rattle.cpm_serve.specs.Folder.{AccessesLead};
ghost use Rattle.cpm_serve.specs.Keeping.{change_seen};
ghost use Rattle.cpm_serve.specs.Owned.{owned_answer};
ghost use Rattle.cpm_serve.specs.Served.{outcome};

use crate::drives::format_named;
use crate::folder::{Folder, FolderError};
use crate::owned::OwnedReply;
use cpm_protocol::{DriveNames, WireReply, WireRequest};
use cpm_slots::{Host, SlotId};
use serde_json::Value;
use std::alloc::Global;

/// What is kept of a request that was done.
#[derive(Clone, Copy, Drop)]
pub(crate) enum KeptChange {
    Nothing,
    /// The request, as it was asked.
    Asked,
    /// The saving of this slot.
    Opened(u64),
    /// The closing of this slot.
    Closed(u64),
}

/// Whether a name is that of a file.
fn is_in_file(name: Option<&str>) -> bool
    ensures { result ≡ is_in_file (text_if name.entry) }
{
    match name {
        Some(name) => format_named(name).is_none(),
        None => false,
    }
}

/// Whether a drive is in a file.
pub(crate) fn has_file_name(names: DriveNames<'_>) -> bool
    ensures { result ≡ has_file_name (drive_names_of names.entry) }
{
    is_in_file(names.a) || is_in_file(names.b) || is_in_file(names.c) || is_in_file(names.d)
}

/// Whether a reply refuses.
fn is_refusal(reply: &OwnedReply) -> bool
    ensures { result ≡ is_refusal (owned_answer reply.now) }
{
    matches!(
        reply,
        OwnedReply::Plain(WireReply::Refused(_) | WireReply::Wrong(_))
    )
}

/// What is kept of an opening from files.
fn opened_change(reply: &OwnedReply) -> KeptChange
    ensures { (d : Data) (h : HostValue) → change_seen d h result ≡ opened_change h (owned_answer reply.now) }
{
    match reply {
        OwnedReply::Plain(WireReply::Opened { slot }) => KeptChange::Opened(*slot),
        _ => KeptChange::Nothing,
    }
}

/// What is kept of a request that was not refused.
fn kept_change(request: WireRequest<'_>, reply: &OwnedReply) -> KeptChange
    ensures { (d : Data) (h : HostValue) → change_seen d h result ≡ change_done d (request_seen request.entry) h (owned_answer reply.now) }
{
    match request {
        WireRequest::Open { drives, .. } if !has_file_name(drives) => KeptChange::Asked,
        WireRequest::Open { .. } | WireRequest::Resume { .. } => opened_change(reply),
        WireRequest::Key { .. }
        | WireRequest::Grant { .. }
        | WireRequest::Take { .. }
        | WireRequest::List { .. }
        | WireRequest::Turn { .. }
        | WireRequest::Fork { .. } => KeptChange::Asked,
        WireRequest::Close { slot, .. } => KeptChange::Closed(slot),
        _ => KeptChange::Nothing,
    }
}

/// Keeps what a request changed, which was done unless the reply refuses it.
pub(crate) fn keep<F: Folder>(
    host: &mut Host,
    alloc: Global,
    folder: &mut F,
    request: WireRequest<'_>,
    value: &Value,
    reply: &OwnedReply,
) -> Result<(), FolderError>
    ensures kept { AccessesLead F.does folder.old folder.new
        (keep_accesses (unkept_by result) (kept_change (view value.now) (request_seen request.entry) (outcome host.old.host (owned_answer reply.now)))) }
    ensures unchanged { host.new ≡ host.old }
{
    if is_refusal(reply) {
        return Ok(());
    }
    match kept_change(request, reply) {
        KeptChange::Nothing => Ok(()),
        KeptChange::Asked => folder.keep(alloc, value),
        KeptChange::Opened(slot) => folder.keep_opened(alloc, host, SlotId(slot)),
        KeptChange::Closed(slot) => folder.keep_closed(alloc, slot),
    }
}
