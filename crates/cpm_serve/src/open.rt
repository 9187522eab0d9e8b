//! Openings and forks.
ghost use Rattle.std.specs.Prelude.{◌≡◌};
ghost use Rattle.cpm_protocol.specs.Requests.{Fork, Open, Resume, drive_names_of};
ghost use Rattle.cpm_serve.specs.Folder.{AccessesLead};
ghost use Rattle.cpm_serve.specs.Owned.{owned_answer};
ghost use Rattle.cpm_serve.specs.Reading.{restore_result};
ghost use Rattle.cpm_serve.specs.Seen.{open_result};
ghost use Rattle.cpm_serve.specs.Served.{IsSessionOpened, IsRequestServed};
ghost use Rattle.cpm_serve.specs.ServedWith.{IsRequestServedWith, restore_refusal};

use crate::drives::{drives_named, name_count};
use crate::folder::{Folder, read_refusal};
use crate::owned::{OwnedReply, refused};
use crate::seen::{fork_refusal, open_refusal};
use cpm_flags::Cpu;
use cpm_protocol::{DriveNames, WireRefusal, WireReply};
use cpm_slots::{Host, HostRestoreError, OpenError, Opening, SlotId};
use std::alloc::Global;

/// The reply to an opening.
fn opened_reply(outcome: Result<SlotId, (Opening, OpenError)>) -> OwnedReply
    ensures { owned_answer result ≡ open_result outcome }
{
    match outcome {
        Ok(SlotId(slot)) => OwnedReply::Plain(WireReply::Opened { slot }),
        Err((_, error)) => refused(open_refusal(error)),
    }
}

/// Opens a session with these drives.
fn open_with(host: &mut Host, alloc: Global, opening: Opening) -> OwnedReply
    ensures { IsSessionOpened opening.cpu opening.quota opening.drives.items host.old.host host.new.host (owned_answer result) }
{
    let outcome = host.open(alloc, opening);
    opened_reply(outcome)
}

/// Opens a session with the drives of these names. What needs no file is seen to first.
pub(crate) fn open<F: Folder>(
    host: &mut Host,
    alloc: Global,
    folder: &mut F,
    cpu: Cpu,
    quota: u16,
    drives: DriveNames<'_>,
) -> OwnedReply
    ensures { IsRequestServedWith (AccessesLead F.does folder.old folder.new) (Open cpu quota (drive_names_of drives.entry))
        host.old.host host.new.host (owned_answer result) }
{
    if let Some(fault) = host.open_fault(quota, name_count(drives)) {
        return refused(open_refusal(fault));
    }
    match drives_named(alloc, folder, drives) {
        Ok(drives) => open_with(host, alloc, Opening { cpu, quota, drives }),
        Err(refusal) => refused(refusal),
    }
}

/// Why no session goes on from a saving.
fn restore_refusal(error: HostRestoreError) -> WireRefusal
    ensures { result ≡ restore_refusal error }
{
    match error {
        HostRestoreError::Damaged(_) => WireRefusal::Damaged,
        HostRestoreError::OtherSystem => WireRefusal::OtherSystem,
        HostRestoreError::NoSlot => WireRefusal::NoSlot,
        HostRestoreError::NoFrames => WireRefusal::NoFrames,
        HostRestoreError::OutOfMemory => WireRefusal::OutOfMemory,
    }
}

/// The reply to a restoring.
fn restored_reply(outcome: Result<SlotId, HostRestoreError>) -> OwnedReply
    ensures { owned_answer result ≡ restore_result outcome }
{
    match outcome {
        Ok(SlotId(slot)) => OwnedReply::Plain(WireReply::Opened { slot }),
        Err(error) => refused(restore_refusal(error)),
    }
}

/// Opens a session that goes on from a saving.
pub(crate) fn resume<F: Folder>(
    host: &mut Host,
    alloc: Global,
    folder: &mut F,
    from: &str,
) -> OwnedReply
    ensures { IsRequestServedWith (AccessesLead F.does folder.old folder.new) (Resume from.now) host.old.host host.new.host (owned_answer result) }
{
    match folder.read(alloc, from) {
        Ok(bytes) => restored_reply(host.restore(alloc, &bytes)),
        Err(error) => refused(read_refusal(error)),
    }
}

/// Forks a session.
pub(crate) fn fork(host: &mut Host, alloc: Global, slot: u64) -> OwnedReply
    ensures { IsRequestServed (Fork slot) host.old.host host.new.host (owned_answer result) }
{
    match host.fork(alloc, SlotId(slot)) {
        Ok(SlotId(slot)) => OwnedReply::Plain(WireReply::Opened { slot }),
        Err(error) => refused(fork_refusal(error)),
    }
}
