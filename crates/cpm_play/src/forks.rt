//! Forks of sessions that are played.

ghost use Rattle.std.specs.Prelude.{◌≡◌, ◌≤◌, ◌<◌, ◌⊎◌, List, OnOk, IfOk, IfErr, length, slice_get, Some, false};
ghost use Rattle.cpm_slots.specs.Host.{Host as HostValue, fork_fault, slot_at};
ghost use Rattle.cpm_play.specs.declared.player.Player.{Player as PlayerValue};
ghost use Rattle.cpm_play.specs.Players.{AllReady, ChangesPlayerAt, HaveBecome, IsFar, IsForkedFrom, IsPlayRefusal};
ghost use Rattle.cpm_play.specs.Players.{KeepsPlaying, LeavesFewer, NoneIsDue, has_fork, is_due, play_error};

use crate::error::PlayError;
use crate::player::{Fork, Player};
use crate::scripted_slot::ScriptedSlot;
use cpm_slots::{ForkError, Host};
use std::alloc::Global;

/// Whether a session is to be forked now: the other one has executed as many steps, or executes no more.
fn is_due(fork: &Fork, parent: &ScriptedSlot) -> bool
    ensures { result ≡ is_due fork.now parent.now }
{
    fork.at <= parent.pace.done || parent.pace.left() == 0
}

/// Forks a session from another one.
fn forked(
    alloc: Global,
    host: &mut Host,
    parent: &ScriptedSlot,
    fork: &Fork,
) -> Result<ScriptedSlot, ForkError>
    ensures forked { IfOk result (λ child. IsForkedFrom parent.now fork.now child host.old.host host.new.host) }
    ensures refused { IfErr result (λ fault. (fault ≡ ForkError.OutOfMemory)
        ⊎ (fork_fault host.old.host (slot_at parent.now.id.0 host.old.host.slots) ≡ Some fault)) }
{
    let id = host.fork(alloc, parent.id)?;
    match parent.forked(alloc, id, fork.keys.as_slice(), fork.steps) {
        Ok(child) => Ok(child),
        Err(_) => Err(ForkError::OutOfMemory),
    }
}

/// What a refused fork of the session at a place comes to.
fn play_error(place: usize, fault: ForkError) -> PlayError
    ensures { result ≡ play_error place fault }
{
    match fault {
        ForkError::OutOfMemory => PlayError::OutOfMemory,
        fault => PlayError::ForkRefused { place, fault },
    }
}

/// Forks the session at a place from the one at another place, where it is to be forked from that one now, and says how many steps that one may
/// execute before.
fn fork_at(
    alloc: Global,
    host: &mut Host,
    players: &mut [Player],
    parent: usize,
    place: usize,
) -> Result<u64, PlayError>
    requires parent { parent < length players.old }
    requires place { place < length players.old }
    ensures come { OnOk result ((old : HostValue) (given : List PlayerValue) → AllReady old.system old.slots given
        → HaveBecome old host.old.host given players.old → HaveBecome old host.new.host given players.new) }
    ensures changes { OnOk result (ChangesPlayerAt place players.old players.new) }
    ensures parent { OnOk result (slice_get players.new parent ≡ slice_get players.old parent) }
    ensures far { IfOk result (λ steps. IsFar parent steps players.new place) }
    ensures some { IfOk result (λ steps. 1 ≤ steps) }
    ensures left { OnOk result (LeavesFewer players.old players.new) }
    ensures refused { IfErr result (λ e. (old : HostValue) (given : List PlayerValue) → AllReady old.system old.slots given
        → HaveBecome old host.old.host given players.old → IsPlayRefusal old given e) }
{
    let (Player::Playing(slot), Player::Waiting(fork)) = (&players[parent], &players[place]) else {
        return Ok(u64::MAX);
    };
    if fork.parent != parent {
        return Ok(u64::MAX);
    }
    if !is_due(fork, slot) {
        return Ok(fork.at - slot.pace.done);
    }
    match forked(alloc, host, slot, fork) {
        Ok(child) => {
            players[place] = Player::Playing(child);
            Ok(u64::MAX)
        }
        Err(fault) => Err(play_error(place, fault)),
    }
}

/// Forks the sessions that are to be forked now from the one at a place, and says how many steps that one may execute before the next is: at least one,
/// and at most so many.
fn fork_due(
    alloc: Global,
    host: &mut Host,
    players: &mut [Player],
    parent: usize,
    quantum: u64,
) -> Result<u64, PlayError>
    requires quantum { 1 ≤ quantum }
    requires within { parent < length players.old }
    ensures come { OnOk result ((old : HostValue) (given : List PlayerValue) → AllReady old.system old.slots given
        → HaveBecome old host.old.host given players.old → HaveBecome old host.new.host given players.new) }
    ensures keeps { OnOk result (KeepsPlaying players.old players.new) }
    ensures far { IfOk result (λ steps. NoneIsDue parent steps players.new) }
    ensures steps { IfOk result (λ steps. (1 ≤ steps) × (steps ≤ quantum)) }
    ensures left { OnOk result (LeavesFewer players.old players.new) }
    ensures refused { IfErr result (λ e. (old : HostValue) (given : List PlayerValue) → AllReady old.system old.slots given
        → HaveBecome old host.old.host given players.old → IsPlayRefusal old given e) }
{
    let mut steps = quantum;
    for place in 0..players.len() {
        steps = steps.min(fork_at(alloc, host, players, parent, place)?);
    }
    Ok(steps)
}

/// Whether a session is still to be forked.
pub(crate) fn has_fork(players: &[Player]) -> bool
    ensures { result ≡ has_fork players.now }
{
    players.iter().any(|player| match player {
        Player::Playing(_) => false,
        Player::Waiting(_) => true,
    })
}

/// The same as `fork_due`, where it is known whether a session may be still to be forked: if none is, nothing is looked at.
pub(crate) fn fork_if_due(
    alloc: Global,
    host: &mut Host,
    players: &mut [Player],
    parent: usize,
    quantum: u64,
    may_fork: bool,
) -> Result<u64, PlayError>
    requires quantum { 1 ≤ quantum }
    requires within { parent < length players.old }
    requires none { may_fork ≡ false → has_fork players.old ≡ false }
    ensures come { OnOk result ((old : HostValue) (given : List PlayerValue) → AllReady old.system old.slots given
        → HaveBecome old host.old.host given players.old → HaveBecome old host.new.host given players.new) }
    ensures keeps { OnOk result (KeepsPlaying players.old players.new) }
    ensures far { IfOk result (λ steps. NoneIsDue parent steps players.new) }
    ensures steps { IfOk result (λ steps. (1 ≤ steps) × (steps ≤ quantum)) }
    ensures left { OnOk result (LeavesFewer players.old players.new) }
    ensures none { OnOk result (may_fork ≡ false → has_fork players.new ≡ false) }
    ensures refused { IfErr result (λ e. (old : HostValue) (given : List PlayerValue) → AllReady old.system old.slots given
        → HaveBecome old host.old.host given players.old → IsPlayRefusal old given e) }
{
    if !may_fork {
        return Ok(quantum);
    }
    fork_due(alloc, host, players, parent, quantum)
}
