//! Requests, one after another.
ghost use Rattle.std.specs.Prelude.{◌≡◌, ◌++◌, ◌∷◌, [], IfErr, IfOk, Ok, OnOk, map, option_map};
ghost use Rattle.serde_json.specs.View.{view};
ghost use Rattle.cpm_protocol.specs.Requests.{request_asked, request_seen, tag_of_code};
ghost use Rattle.cpm_serve.specs.Changes.{unkept_error};
ghost use Rattle.cpm_serve.specs.Owned.{owned_answer};
ghost use Rattle.cpm_serve.specs.Folder.{AccessesLead};
ghost use Rattle.cpm_serve.specs.Lines.{CutEventsLead, KeptEventsLead, tag_shown};
ghost use Rattle.cpm_serve.specs.Parts.{AreServed, AreServedUpTo, HasByteKeys, IsEventCut, IsEventDone, IsEventServed};
ghost use Rattle.cpm_serve.specs.ServedWith.{IsRequestServedWith};

use crate::close::{close, save};
use crate::disk::{get_file, list_files, put_file};
use crate::folder::{Folder, FolderError, ServeError};
use crate::grant::grant;
use crate::keep::keep;
use crate::open::{fork, open, resume};
use crate::owned::OwnedReply;
use crate::slot::{look, peek, press, take};
use crate::turn::turn;
use cpm_console::Device;
use cpm_protocol::{Tag, WireReply, WireRequest, request_of, tag_of};
use cpm_slots::Host;
use serde_json::Value;
use std::alloc::{AllocError, Global};

/// Does a request.
pub(crate) fn perform<F: Folder>(
    host: &mut Host,
    alloc: Global,
    folder: &mut F,
    request: WireRequest<'_>,
) -> OwnedReply
    requires { HasByteKeys (request_seen request) }
    ensures { IsRequestServedWith (AccessesLead F.does folder.old folder.new) (request_seen request.entry) host.old.host host.new.host (owned_answer result) }
{
    match request {
        WireRequest::Open { cpu, quota, drives } => open(host, alloc, folder, cpu, quota, drives),
        WireRequest::Resume { from } => resume(host, alloc, folder, from),
        WireRequest::Key { slot, keys } => press(host, alloc, slot, keys),
        WireRequest::Grant { slot, steps, goal } => grant(host, slot, steps, goal),
        WireRequest::Take { slot, most } => take(host, alloc, slot, Device::Console, most),
        WireRequest::List { slot, most } => take(host, alloc, slot, Device::List, most),
        WireRequest::Look { slot } => look(host, slot),
        WireRequest::Peek {
            slot,
            address,
            length,
        } => peek(host, alloc, slot, address, length),
        WireRequest::Fork { slot } => fork(host, alloc, slot),
        WireRequest::Save { slot, file } => save(host, alloc, folder, slot, file),
        WireRequest::Close { slot, out } => close(host, alloc, folder, slot, out),
        WireRequest::Turn { slot, keys, steps } => turn(host, alloc, slot, keys, steps),
        WireRequest::Put { drive, name, text } => put_file(alloc, folder, drive, name, text),
        WireRequest::Get { drive, name } => get_file(alloc, folder, drive, name),
        WireRequest::Files { drive } => list_files(alloc, folder, drive),
    }
}

/// The tag that comes back with a value's reply.
pub(crate) fn tag_shown(value: &Value) -> Option<Tag<'_>>
    ensures { option_map tag_of_code result ≡ tag_shown (view value.now) }
{
    match tag_of(value) {
        Ok(tag) => tag,
        Err(_) => None,
    }
}

/// A value that was made, or the end of the line for want of memory.
pub(crate) fn made(outcome: Result<Value, AllocError>) -> Result<Value, ServeError>
    ensures made { IfOk result (λ value. outcome ≡ Ok value) }
    ensures lacked { IfErr result (λ e. e ≡ ServeError.OutOfMemory) }
{
    match outcome {
        Ok(value) => Ok(value),
        Err(AllocError) => Err(ServeError::OutOfMemory),
    }
}

/// How a line ends whose change is not kept.
fn unkept(error: FolderError) -> ServeError
    ensures { result ≡ unkept_error error }
{
    match error {
        FolderError::OutOfMemory => ServeError::OutOfMemory,
        FolderError::Absent | FolderError::Busy | FolderError::Fault => ServeError::Unkept,
    }
}

/// Does a request, and keeps what it changed.
fn perform_kept<F: Folder>(
    host: &mut Host,
    alloc: Global,
    folder: &mut F,
    request: WireRequest<'_>,
    value: &Value,
) -> Result<OwnedReply, ServeError>
    requires bytes { HasByteKeys (request_seen request) }
    requires asked { request_asked (view value.now) ≡ Ok (request_seen request) }
    ensures done { IfOk result (λ reply. IsEventDone (KeptEventsLead F.does host.old.host folder.old folder.new) (view value.now)
        host.old.host host.new.host (owned_answer reply)) }
    ensures unkept { IfErr result (λ e. IsEventCut (CutEventsLead e F.does host.old.host folder.old folder.new) (view value.now) host.old.host host.new.host) }
{
    let reply = perform(host, alloc, folder, request);
    match keep(host, alloc, folder, request, value, &reply) {
        Ok(()) => Ok(reply),
        Err(error) => Err(unkept(error)),
    }
}

/// Does the request that a value is, keeps what it changed, and gives its reply.
pub(crate) fn serve_value<F: Folder>(
    host: &mut Host,
    alloc: Global,
    folder: &mut F,
    value: &Value,
) -> Result<Value, ServeError>
    ensures served { IfOk result (λ reply. IsEventServed (KeptEventsLead F.does host.old.host folder.old folder.new) (view value.now)
        host.old.host host.new.host (view reply)) }
    ensures cut { IfErr result (λ e. IsEventCut (CutEventsLead e F.does host.old.host folder.old folder.new) (view value.now) host.old.host host.new.host) }
{
    let tag = tag_shown(value);
    match request_of(value) {
        Ok(request) => {
            let reply = perform_kept(host, alloc, folder, request, value)?;
            made(reply.value(alloc, tag))
        }
        Err(fault) => made(WireReply::Wrong(fault).value(alloc, tag)),
    }
}

/// Adds a reply.
fn pushed(replies: &mut Vec<Value>, reply: Value) -> Result<(), ServeError>
    ensures added { OnOk result (replies.new.items ≡ replies.old.items ++ reply ∷ []) }
    ensures lacked { IfErr result (λ e. e ≡ ServeError.OutOfMemory) }
{
    match replies.push(reply) {
        Ok(()) => Ok(()),
        Err(_) => Err(ServeError::OutOfMemory),
    }
}

/// Does the requests that values are, one after another, and gives their replies.
pub(crate) fn serve_values<F: Folder>(
    host: &mut Host,
    alloc: Global,
    folder: &mut F,
    values: &[Value],
) -> Result<Vec<Value>, ServeError>
    ensures served { IfOk result (λ replies. AreServed (KeptEventsLead F.does host.old.host folder.old folder.new) (map view values.now)
        host.old.host host.new.host (map view replies.items)) }
    ensures cut { IfErr result (λ e. AreServedUpTo (CutEventsLead e F.does host.old.host folder.old folder.new) (map view values.now)
        host.old.host host.new.host) }
{
    let mut replies = Vec::new(alloc);
    for value in values {
        let reply = serve_value(host, alloc, folder, value)?;
        pushed(&mut replies, reply)?;
    }
    Ok(replies)
}
