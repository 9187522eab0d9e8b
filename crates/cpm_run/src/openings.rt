//! Whether all sessions of a run can be opened and forked. It is counted in their order, before one is played.
ghost use Rattle.std.specs.Prelude.{◌≡◌, ◌⊎◌, ℕ, None, Some, IfErr, IfOk, IfSome, OnOk, map, slice_get};
ghost use Rattle.cpm_batch.specs.Inputs.{given, start_view};
ghost use Rattle.cpm_batch.specs.Savings.{saving_view};
ghost use Rattle.cpm_geom.specs.Disk.{Disk};
ghost use Rattle.cpm_machine.specs.SystemDigest.{system_digest};
ghost use Rattle.cpm_machine.specs.declared.opening.OpenError.{OpenError as OpenErrorValue};
ghost use Rattle.cpm_slots.specs.Host.{Host, new_host};
ghost use Rattle.cpm_run.specs.Openings.{HasOpenedAll, IsForkedIn, IsJudgedSo, IsNotForkedIn, IsNotOpenedBy, IsNotOpenedIn, IsNotRestoredBy, IsOpenedIn};
ghost use Rattle.cpm_run.specs.Openings.{IsRoomAfter, IsRoomFault, IsRoomLeft, IsSavedOver, opening_fault_of};
ghost use Rattle.cpm_run.specs.Run.{AllAccepted, HasForkRoom, IsFirstRefused, IsFirstShort, starts_read};
ghost use Rattle.cpm_run.specs.declared.error.StartFault.TheVariants.{Unopened};

use crate::error::{RunError, StartFault};
use crate::play::name_at;
use crate::quotas::{pages_of_starts, quota_at};
use cpm_batch::{Input, SavedMachine, Start};
use cpm_config::Config;
use cpm_geom::Image;
use cpm_machine::{LEAST_QUOTA, MOST_DRIVES, MOST_QUOTA, OpenError, SystemDigest, digest_of};
use cpm_slots::MOST_SLOTS;

/// What a host has for further sessions: slots, and frames that are reserved for none.
#[derive(Clone, Copy)]
struct Room {
    slots: usize,
    frames: u16,
}

/// What is left after one session more, which may write so many pages. Slots are counted before frames.
fn room_after(room: Room, quota: u16) -> Result<Room, OpenError>
    ensures left { IfOk result (IsRoomAfter room quota) }
    ensures refusal { IfErr result (IsRoomFault room quota) }
{
    if room.slots == 0 {
        return Err(OpenError::NoSlot);
    }
    if room.frames < quota {
        return Err(OpenError::NoFrames);
    }
    Ok(Room {
        slots: room.slots - 1,
        frames: room.frames - quota,
    })
}

/// The fault of an opening with so many pages and so many drives.
fn opening_fault(quota: u16, drives: usize) -> Option<OpenError>
    ensures { result ≡ opening_fault_of quota drives }
{
    if quota < LEAST_QUOTA || quota > MOST_QUOTA {
        Some(OpenError::BadQuota)
    } else if drives == 0 || drives > MOST_DRIVES {
        Some(OpenError::BadDrives)
    } else {
        None
    }
}

/// What is left after a session that is opened so.
fn room_opened(room: Room, quota: u16, drives: usize) -> Result<Room, StartFault>
    ensures left { IfOk result (λ next. (opening_fault_of quota drives ≡ None) × IsRoomAfter room quota next) }
    ensures refusal { IfErr result (IsNotOpenedBy room quota drives) }
{
    match opening_fault(quota, drives) {
        Some(fault) => Err(StartFault::Unopened(fault)),
        None => room_after(room, quota).map_err(StartFault::Unopened),
    }
}

/// The digest of the system drive, which is made once.
fn known_digest(system: &Image, known: &mut Option<SystemDigest>) -> SystemDigest
    requires { IfSome known.old (λ d. d ≡ system_digest system.now) }
    ensures digest { result ≡ system_digest system.now }
    ensures known { IfSome known.new (λ d. d ≡ system_digest system.now) }
{
    if let Some(digest) = known {
        return *digest;
    }
    let digest = digest_of(system);
    *known = Some(digest);
    digest
}

/// What is left after a session that goes on from a saving, with a system drive of this digest.
fn room_restored(
    room: Room,
    saved: &SavedMachine,
    digest: &SystemDigest,
) -> Result<Room, StartFault>
    ensures left { (system : Disk) → digest.now ≡ system_digest system
        → IfOk result (λ next. IsSavedOver system (saving_view saved.now) × IsRoomAfter room (saving_view saved.now).state.quota next) }
    ensures refusal { (system : Disk) → digest.now ≡ system_digest system → IfErr result (IsNotRestoredBy system room (saving_view saved.now)) }
{
    if saved.digest != *digest {
        return Err(StartFault::Elsewhere);
    }
    room_after(room, saved.machine.quota()).map_err(StartFault::Unopened)
}

/// What is left after a session, where it isn't forked.
fn open_in(
    room: Room,
    system: &Image,
    known: &mut Option<SystemDigest>,
    start: &Start,
) -> Result<Room, StartFault>
    requires { IfSome known.old (λ d. d ≡ system_digest system.now) }
    ensures left { IfOk result (IsOpenedIn system.now room (start_view start.now)) }
    ensures refusal { IfErr result (IsNotOpenedIn system.now room (start_view start.now)) }
    ensures known { IfSome known.new (λ d. d ≡ system_digest system.now) }
{
    match start {
        Start::Opened { quota, drives, .. } => room_opened(room, *quota, drives.len()),
        Start::Forked { .. } => Ok(room),
        Start::Restored(saved) => room_restored(room, saved, &known_digest(system, known)),
    }
}

/// What is left after a session, where it is forked.
fn fork_in(room: Room, inputs: &[Input<'_>], start: &Start) -> Result<Room, OpenError>
    ensures left { IfOk result (IsForkedIn (starts_read (map given inputs.now)) room (start_view start.now)) }
    ensures refusal { IfErr result (IsNotForkedIn (starts_read (map given inputs.now)) room (start_view start.now)) }
{
    match start {
        Start::Opened { .. } | Start::Restored(_) => Ok(room),
        Start::Forked { parent, .. } => room_after(room, quota_at(inputs, *parent)),
    }
}

/// How a run is refused for the session at a place: where the quotas exceed the frames, with both numbers.
fn refused_at(config: &Config, inputs: &[Input<'_>], place: usize, fault: StartFault) -> RunError
    ensures { (h : Host) → let starts = starts_read (map given inputs.now) in
        IsFirstRefused starts h 0 starts fault place → IsJudgedSo config.now h starts result }
{
    let name = name_at(config, place);
    match fault {
        StartFault::Unopened(fault) => match fault {
            OpenError::NoFrames => RunError::FramesExceeded {
                name,
                quotas: pages_of_starts(inputs),
                frames: config.frames,
            },
            fault => RunError::SessionRefused { name, fault },
        },
        StartFault::Elsewhere => RunError::SavedElsewhere(name),
    }
}

/// What is left once all sessions are open that aren't forked.
fn open_all(config: &Config, system: &Image, inputs: &[Input<'_>]) -> Result<Room, RunError>
    ensures left { IfOk result (HasOpenedAll (starts_read (map given inputs.now)) (new_host system.now config.now.frames)) }
    ensures refusal { IfErr result (IsJudgedSo config.now (new_host system.now config.now.frames) (starts_read (map given inputs.now))) }
{
    let mut room = Room {
        slots: MOST_SLOTS,
        frames: config.frames,
    };
    let mut known = None;
    for (place, input) in inputs.iter().enumerate() {
        match open_in(room, system, &mut known, &input.start) {
            Ok(left) => room = left,
            Err(fault) => return Err(refused_at(config, inputs, place, fault)),
        }
    }
    Ok(room)
}

/// Whether what is left is room for all forks.
fn fork_all(config: &Config, inputs: &[Input<'_>], room: Room) -> Result<(), RunError>
    ensures room { OnOk result ((h : Host) → IsRoomLeft h 0 0 room → HasForkRoom (starts_read (map given inputs.now)) h) }
    ensures refusal { IfErr result (λ e. (first h : Host) → IsRoomLeft h 0 0 room
        → ((fault : OpenErrorValue) (place : ℕ) → IsFirstShort (starts_read (map given inputs.now)) h fault place
        → IsFirstRefused (starts_read (map given inputs.now)) first 0 (starts_read (map given inputs.now)) (Unopened fault) place)
        → IsJudgedSo config.now first (starts_read (map given inputs.now)) e) }
{
    let mut left = room;
    for (place, input) in inputs.iter().enumerate() {
        match fork_in(left, inputs, &input.start) {
            Ok(next) => left = next,
            Err(fault) => {
                let fault = StartFault::Unopened(fault);
                return Err(refused_at(config, inputs, place, fault));
            }
        }
    }
    Ok(())
}

/// Refuses a run of which a session can't be opened or forked, or go on from its saving: the first that isn't forked, or else the first fork, for which a
/// host has no room.
pub(crate) fn judge_openings(
    config: &Config,
    system: &Image,
    inputs: &[Input<'_>],
) -> Result<(), RunError>
    ensures accepted { OnOk result (AllAccepted (starts_read (map given inputs.now)) (new_host system.now config.now.frames)
        (starts_read (map given inputs.now))) }
    ensures refusal { IfErr result (IsJudgedSo config.now (new_host system.now config.now.frames) (starts_read (map given inputs.now))) }
{
    match open_all(config, system, inputs) {
        Ok(room) => fork_all(config, inputs, room),
        Err(refused) => Err(refused),
    }
}
