//! Playing the sessions of a configuration in a host.
ghost use Rattle.std.specs.Prelude.{◌≡◌, ◌≤◌, [], ℕ, IfErr, IfOk, List, OnErr, OnOk, map, string_bytes};
ghost use Rattle.std.specs.List.{All};
ghost use Rattle.cpm_batch.specs.Inputs.{StartInput};
ghost use Rattle.cpm_batch.specs.Outputs.{left_by};
ghost use Rattle.cpm_batch.specs.Savings.{saving_view};
ghost use Rattle.cpm_slots.specs.Host.{Host as HostValue, IsRestoreRefusal, new_host, refusal_of, system_fault};
ghost use Rattle.cpm_machine.specs.Opening.{IsRefusal};
ghost use Rattle.cpm_machine.specs.Saving.{Saving};
ghost use Rattle.cpm_machine.specs.declared.opening.OpenError.{OpenError as OpenErrorValue};
ghost use Rattle.cpm_machine.specs.declared.opening.Opening.{Opening as OpeningValue};
ghost use Rattle.cpm_play.specs.Players.{AllDiffer, IsPlayRefusal as IsForking};
ghost use Rattle.cpm_play.specs.declared.player.Player.{Player as PlayerValue};
ghost use Rattle.cpm_run.specs.Playing.{HavePlayers, IsForksRefusal, IsOpeningRefusal, IsPrepared, IsRefusedAmong, IsRestoringRefusal};
ghost use Rattle.cpm_run.specs.Pressable.{ArePressable};
ghost use Rattle.cpm_run.specs.Playing.{IsSlotRefusal, IsStartRefusal, OpensSlot, RestoresSlot};
ghost use Rattle.cpm_run.specs.Settled.{settled_view, starts_of};
ghost use Rattle.cpm_run.specs.Run.{AllAccepted, HasForkRoom, IsForkAt, IsRestorable, IsShortFor, IsShownAs};
ghost use Rattle.cpm_run.specs.Run.{files_left, fork_pages_in, forks_in, name_at, report_view, reports_of};
ghost use Rattle.cpm_run.specs.declared.error.StartFault.TheVariants.{Unopened};

use crate::error::RunError;
use crate::finish::finish_all;
use crate::report::SessionReport;
use crate::settled::SettledInput;
use cpm_batch::{SavedMachine, SessionFiles, Start};
use cpm_config::{Config, SessionConfig};
use cpm_geom::Image;
use cpm_machine::{OpenError, Opening};
use cpm_play::{Fork, PlayError, Player, ScriptedSlot, Watcher, play};
use cpm_script::Key;
use cpm_shown::{ShownWord, shown};
use cpm_slots::{ForkError, Host, HostRestoreError, LEAST_FRAMES, MOST_FRAMES};
use std::alloc::Global;

/// Why a session has no slot, if its opening is refused so.
fn refused(session: &SessionConfig, fault: OpenError) -> RunError
    ensures { (h : HostValue) (o : OpeningValue) → IsRefusal (refusal_of h o) fault → IsOpeningRefusal h o (string_bytes session.now.name) result }
{
    match fault {
        OpenError::OutOfMemory => RunError::OutOfMemory,
        fault => RunError::SessionRefused {
            name: shown(session.name.as_str()),
            fault,
        },
    }
}

/// Opens a slot for a session, which is to be played by its keys.
fn open_slot(
    alloc: Global,
    host: &mut Host,
    session: &SessionConfig,
    opening: Opening,
    keys: Vec<Key>,
    steps: u64,
) -> Result<ScriptedSlot, RunError>
    ensures opened { IfOk result (OpensSlot opening keys.items steps host.old.host host.new.host) }
    ensures refusal { IfErr result (IsOpeningRefusal host.old.host opening (string_bytes session.now.name)) }
    ensures unchanged { OnErr result (host.new.host ≡ host.old.host) }
{
    match host.open(alloc, opening) {
        Ok(id) => Ok(ScriptedSlot::new(alloc, id, keys, steps)),
        Err((_, fault)) => Err(refused(session, fault)),
    }
}

/// Why a session that goes on from a saving has no slot, if that is refused so. Bytes that were just made of it are not damaged.
fn not_restored(session: &SessionConfig, fault: HostRestoreError) -> RunError
    ensures { (h : HostValue) (x : Saving) → IsRestoreRefusal (system_fault h x.system_digest x.state.quota) fault
        → IsRestoringRefusal h x (string_bytes session.now.name) result }
{
    let name = shown(session.name.as_str());
    match fault {
        HostRestoreError::OtherSystem => RunError::SavedElsewhere(name),
        HostRestoreError::NoSlot => RunError::SessionRefused {
            name,
            fault: OpenError::NoSlot,
        },
        HostRestoreError::NoFrames => RunError::SessionRefused {
            name,
            fault: OpenError::NoFrames,
        },
        HostRestoreError::Damaged(_) | HostRestoreError::OutOfMemory => RunError::OutOfMemory,
    }
}

/// Opens a slot for a session that goes on from a saving, which is to be played by its keys.
fn restore_slot(
    alloc: Global,
    host: &mut Host,
    session: &SessionConfig,
    saved: &SavedMachine,
    keys: Vec<Key>,
    steps: u64,
) -> Result<ScriptedSlot, RunError>
    ensures restored { IfOk result (RestoresSlot (saving_view saved.now) keys.items steps host.old.host host.new.host) }
    ensures refusal { IfErr result (IsRestoringRefusal host.old.host (saving_view saved.now) (string_bytes session.now.name)) }
    ensures unchanged { OnErr result (host.new.host ≡ host.old.host) }
{
    let bytes = saved.bytes(alloc)?;
    match host.restore(alloc, bytes.as_slice()) {
        Ok(id) => Ok(ScriptedSlot::new(alloc, id, keys, steps)),
        Err(fault) => Err(not_restored(session, fault)),
    }
}

/// The player of a session: one whose slot is opened now, or one that is to be forked.
fn prepare(alloc: Global, host: &mut Host, input: SettledInput<'_>) -> Result<Player, RunError>
    ensures prepared { IfOk result (IsPrepared (settled_view input.entry) host.old.host host.new.host) }
    ensures refusal { IfErr result (IsStartRefusal host.old.host (settled_view input.entry).start (string_bytes input.entry.session.now.name)) }
    ensures unchanged { OnErr result (host.new.host ≡ host.old.host) }
{
    let SettledInput {
        session,
        start,
        keys,
        steps,
        ..
    } = input;
    match start {
        Start::Opened { cpu, quota, drives } => {
            let opening = Opening { cpu, quota, drives };
            let slot = open_slot(alloc, host, session, opening, keys, steps)?;
            Ok(Player::Playing(slot))
        }
        Start::Restored(saved) => {
            let slot = restore_slot(alloc, host, session, &saved, keys, steps)?;
            Ok(Player::Playing(slot))
        }
        Start::Forked { parent, at } => Ok(Player::Waiting(Fork {
            parent,
            at,
            keys,
            steps,
        })),
    }
}

/// The name of the session at a place.
pub(crate) fn name_at(config: &Config, place: usize) -> ShownWord
    ensures { IsShownAs (name_at config.now.sessions.items place) result.bytes }
{
    match config.sessions.get(place) {
        Some(session) => shown(session.name.as_str()),
        None => shown(""),
    }
}

/// Why the sessions of a configuration are not played to their end, if one is not forked so.
fn fork_refusal(config: &Config, error: PlayError) -> RunError
    ensures { (h : HostValue) (players : List PlayerValue) → IsForking h players error
        → IsForksRefusal config.now.sessions.items h players result }
{
    match error {
        PlayError::ForkRefused { place, fault } => match fault {
            ForkError::NoFrames => RunError::SessionRefused {
                name: name_at(config, place),
                fault: OpenError::NoFrames,
            },
            _ => RunError::SessionRefused {
                name: name_at(config, place),
                fault: OpenError::NoSlot,
            },
        },
        PlayError::OutOfMemory => RunError::OutOfMemory,
    }
}

/// The players of all sessions, in order.
fn prepare_all(
    alloc: Global,
    host: &mut Host,
    inputs: Vec<SettledInput<'_>>,
) -> Result<Vec<Player>, RunError>
    requires { host.old.host.slots ≡ [] }
    ensures prepared { IfOk result (λ players. HavePlayers host.new.host.slots (map settled_view inputs.entry.items) players.items) }
    ensures accepted { OnOk result ((all : List StartInput) → HasForkRoom all host.new.host
        → AllAccepted all host.old.host (starts_of (map settled_view inputs.entry.items))) }
    ensures short { OnOk result ((all : List StartInput) (fault : OpenErrorValue) (place : ℕ)
        → IsForkAt all place → IsShortFor host.new.host (forks_in all) (fork_pages_in all) fault
        → IsRefusedAmong all host.old.host 0 (starts_of (map settled_view inputs.entry.items)) (Unopened fault) place) }
    ensures differ { IfOk result (λ players. AllDiffer players.items) }
    ensures system { host.new.host.system ≡ host.old.host.system }
    ensures refusal { IfErr result (IsSlotRefusal (map (λ i. i.session) (map settled_view inputs.entry.items)) host.old.host
        (starts_of (map settled_view inputs.entry.items))) }
{
    let mut players = Vec::new(alloc);
    let mut rest = inputs.into_iter();
    while let Some(input) = rest.next() {
        players.push(prepare(alloc, host, input)?)?;
    }
    Ok(players)
}

/// A host with the sessions of a configuration that aren't forked, and the players of all sessions.
fn prepare_host(
    alloc: Global,
    config: &Config,
    system: Image,
    inputs: Vec<SettledInput<'_>>,
) -> Result<(Host, Vec<Player>), RunError>
    requires least { LEAST_FRAMES ≤ config.now.frames }
    requires most { config.now.frames ≤ MOST_FRAMES }
    requires sessions { map (λ i. i.session) (map settled_view inputs.items) ≡ config.now.sessions.items }
    ensures prepared { IfOk result (λ p. HavePlayers p.0.host.slots (map settled_view inputs.entry.items) p.1.items) }
    ensures accepted { IfOk result (λ p. (all : List StartInput) → HasForkRoom all p.0.host
        → AllAccepted all (new_host system config.entry.now.frames) (starts_of (map settled_view inputs.entry.items))) }
    ensures short { IfOk result (λ p. (all : List StartInput) (fault : OpenErrorValue) (place : ℕ)
        → IsForkAt all place → IsShortFor p.0.host (forks_in all) (fork_pages_in all) fault
        → IsRefusedAmong all (new_host system config.entry.now.frames) 0 (starts_of (map settled_view inputs.entry.items)) (Unopened fault) place) }
    ensures differ { IfOk result (λ p. AllDiffer p.1.items) }
    ensures system { IfOk result (λ p. p.0.host.system ≡ system) }
    ensures refusal { IfErr result (IsSlotRefusal config.entry.now.sessions.items (new_host system config.entry.now.frames)
        (starts_of (map settled_view inputs.entry.items))) }
{
    let mut host = match Host::new(alloc, system, config.frames) {
        Ok(host) => host,
        Err(_) => return Err(RunError::OutOfMemory),
    };
    let players = prepare_all(alloc, &mut host, inputs)?;
    Ok((host, players))
}

/// Plays the sessions of a configuration in a host, by turns in their order, forks those that are forked on the way, and gives what is left of them.
pub(crate) fn play_all<'a, T: Watcher>(
    alloc: Global,
    config: &'a Config,
    system: Image,
    inputs: Vec<SettledInput<'_>>,
    watcher: &mut T,
) -> Result<(Vec<SessionReport>, Vec<SessionFiles<'a>>), RunError>
    requires least { LEAST_FRAMES ≤ config.now.frames }
    requires most { config.now.frames ≤ MOST_FRAMES }
    requires quantum { 1 ≤ config.now.quantum }
    requires keys { ArePressable system (map settled_view inputs.items) }
    requires sessions { map (λ i. i.session) (map settled_view inputs.items) ≡ config.now.sessions.items }
    ensures reports { IfOk result (λ p. map report_view p.0.items ≡ reports_of system (map settled_view inputs.entry.items)) }
    ensures files { IfOk result (λ p. map left_by p.1.items ≡ files_left system (map settled_view inputs.entry.items)) }
    ensures savings { OnOk result (All (IsRestorable system (map settled_view inputs.entry.items)) (map settled_view inputs.entry.items)) }
    ensures accepted { OnOk result (AllAccepted (starts_of (map settled_view inputs.entry.items))
        (new_host system config.entry.now.frames) (starts_of (map settled_view inputs.entry.items))) }
    ensures refusal { IfErr result (IsSlotRefusal config.entry.now.sessions.items (new_host system config.entry.now.frames)
        (starts_of (map settled_view inputs.entry.items))) }
{
    let (mut host, mut players) = prepare_host(alloc, config, system, inputs)?;
    match play(
        alloc,
        &mut host,
        players.as_mut_slice(),
        config.quantum,
        watcher,
    ) {
        Ok(()) => {}
        Err(error) => return Err(fork_refusal(config, error)),
    }
    let left = finish_all(alloc, &mut host, config.sessions.as_slice(), players)?;
    Ok(left)
}
