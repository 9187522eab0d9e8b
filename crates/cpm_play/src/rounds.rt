//! Many players of a host, in turns.

ghost use Rattle.std.specs.Prelude.{◌≡◌, ◌≤◌, ◌<◌, List, OnOk, IfErr, false};
ghost use Rattle.cpm_slots.specs.Host.{Host as HostValue, IsHost};
ghost use Rattle.cpm_play.specs.declared.player.Player.{Player as PlayerValue};
ghost use Rattle.cpm_play.specs.Players.{AllDiffer, AllPlayed, AllReady, AreOnTheWay, HaveBecome, HasRoomForForks, IsPlayRefusal, LeavesRest};
ghost use Rattle.cpm_play.specs.Players.{fork_pages, forks_of, still_plays, has_fork, ids_of, is_over, players_left};

use crate::error::PlayError;
use crate::forks::{fork_if_due, has_fork};
use crate::player::Player;
use crate::progress::{Watcher, progress_of};
use crate::turn::{take_output, turn};
use cpm_machine::Look;
use cpm_slots::Host;
use std::alloc::{AllocError, Global};

/// Whether one of the players has steps to execute, or is still to be forked.
fn still_plays(players: &[Player]) -> bool
    ensures { result ≡ still_plays players.now }
{
    players.iter().any(|player| match player {
        Player::Playing(slot) => slot.pace.left() > 0,
        Player::Waiting(_) => true,
    })
}

/// Whether the sessions are asked in a round whether they wait for a key: in those of the numbers 0, 1, 2, 4, 8 and so on, so that it costs next to nothing.
fn asks_in(round: u64) -> bool {
    round & round.wrapping_sub(1) == 0
}

/// The most steps of a player's turn: a quantum. A session that is asked, and waits for a key of which none is due, may have all those to its next key, since
/// each changes its count alone.
fn most_steps(host: &mut Host, player: &Player, asks: bool, quantum: u64) -> u64
    requires { 1 ≤ quantum }
    ensures some { 1 ≤ result }
    ensures unchanged { host.new ≡ host.old }
{
    let Player::Playing(slot) = player else {
        return quantum;
    };
    if !asks || slot.pace.due(slot.keys.as_slice()).is_some() {
        return quantum;
    }
    match host.look(slot.id) {
        Ok(Look { waiting: true, .. }) => u64::MAX,
        _ => quantum,
    }
}

/// Whether a player is one that executes no more.
fn is_over(player: &Player) -> bool
    ensures { result ≡ is_over player.now }
{
    match player {
        Player::Playing(slot) => slot.pace.left() == 0,
        Player::Waiting(_) => false,
    }
}

/// Gives each of the players a turn, once those that are to be forked from it now are forked. Where none may be still to be forked, one that executes no
/// more is only passed by.
fn round(
    alloc: Global,
    host: &mut Host,
    players: &mut [Player],
    asks: bool,
    quantum: u64,
    may_fork: bool,
) -> Result<(), PlayError>
    requires quantum { 1 ≤ quantum }
    requires none { may_fork ≡ false → has_fork players.old ≡ false }
    ensures come { OnOk result ((old : HostValue) (given : List PlayerValue) → AllReady old.system old.slots given
        → HaveBecome old host.old.host given players.old → HaveBecome old host.new.host given players.new) }
    ensures left { OnOk result ((old : HostValue) (given : List PlayerValue) → AllReady old.system old.slots given
        → HaveBecome old host.old.host given players.old → 0 < players_left players.old → players_left players.new < players_left players.old) }
    ensures none { OnOk result (may_fork ≡ false → has_fork players.new ≡ false) }
    ensures refused { IfErr result (λ e. (old : HostValue) (given : List PlayerValue) → AllReady old.system old.slots given
        → HaveBecome old host.old.host given players.old → IsPlayRefusal old given e) }
{
    for place in 0..players.len() {
        if !may_fork && is_over(&players[place]) {
            continue;
        }
        let most = most_steps(host, &players[place], asks, quantum);
        let steps = fork_if_due(alloc, host, players, place, most, may_fork)?;
        if let Player::Playing(slot) = &mut players[place] {
            turn(host, slot, steps)?;
        }
    }
    Ok(())
}

/// Takes what waits in the slots of the players, before their first turn.
fn take_waiting(host: &mut Host, players: &mut [Player]) -> Result<(), AllocError>
    requires ready { AllReady host.old.host.system host.old.host.slots players.old }
    requires differ { AllDiffer players.old }
    requires orderly { IsHost host.old.host }
    ensures come { OnOk result (HaveBecome host.old.host host.new.host players.old players.new) }
{
    for place in 0..players.len() {
        if let Player::Playing(slot) = &mut players[place] {
            take_output(host, slot)?;
        }
    }
    Ok(())
}

/// Shows the sessions to a watcher that wants to look at them where they rest.
fn let_rest<T: Watcher>(host: &mut Host, players: &[Player], watcher: &mut T)
    requires { AreOnTheWay host.old.host players.now }
    ensures { host.new ≡ host.old }
{
    if watcher.wants_rest() {
        watcher.rest(host, players);
    }
}

/// Plays sessions of a host, and forks those that are to be forked. The players have turns in their order, each of at most `quantum` steps (or where the
/// session waits for a key of as many as it waits) and cut at the count of the next key and at that of the next fork,
/// and all that a session shows is taken after its turn, until each has executed its steps or ended. What waits in a slot before comes first.
/// A session is forked once the one that it is forked from has executed as many steps, or executes no more, and before that one's keys of this count.
///
/// The watcher is told after each round how far they have come, and looks at them then if it wants to.
///
/// `ForkRefused` names the place of a session for which there is no slot or are not enough frames; `OutOfMemory` comes only where memory is refused.
pub fn play<T: Watcher>(
    alloc: Global,
    host: &mut Host,
    players: &mut [Player],
    quantum: u64,
    watcher: &mut T,
) -> Result<(), PlayError>
    requires quantum { 1 ≤ quantum }
    requires ready { AllReady host.old.host.system host.old.host.slots players.old }
    requires differ { AllDiffer players.old }
    ensures played { OnOk result (AllPlayed host.old.host host.new.host players.old players.new) }
    ensures others { OnOk result (LeavesRest (ids_of players.old) host.old.host host.new.host) }
    ensures room { OnOk result (HasRoomForForks host.old.host (forks_of players.old) (fork_pages host.old.host.slots players.old)) }
    ensures refused { IfErr result (IsPlayRefusal host.old.host players.old) }
{
    host.slots_are_orderly();
    take_waiting(host, players)?;
    let mut rounds = 0u64;
    let mut may_fork = has_fork(players);
    while still_plays(players) {
        round(alloc, host, players, asks_in(rounds), quantum, may_fork)?;
        may_fork = may_fork && has_fork(players);
        let_rest(host, players, watcher);
        if watcher.is_watching() {
            watcher.see(progress_of(players));
        }
        rounds = rounds.wrapping_add(1);
    }
    Ok(())
}
