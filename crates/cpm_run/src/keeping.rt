//! Keeping the sessions of a run on its way.
ghost use Rattle.std.specs.Prelude.{◌≡◌, IfOk, Some, option_map};
ghost use Rattle.cpm_batch.specs.Savings.{saving_view};
ghost use Rattle.cpm_machine.specs.Saving.{restored};
ghost use Rattle.cpm_play.specs.declared.player.Player.TheVariants.{Playing};
ghost use Rattle.cpm_run.specs.Kept.{kept_view, standing_of, standing_of_player, standing_view};

use crate::standing::KeptSession;
use cpm_batch::SavedMachine;
use cpm_machine::Machine;
use cpm_play::{Player, ScriptedSlot};
use cpm_slots::Host;
use std::alloc::{AllocError, Global};

/// The machine of these bytes, which were just made of one and so are not damaged.
fn saved_machine(alloc: Global, bytes: &[u8]) -> Result<SavedMachine, AllocError>
    ensures { IfOk result (λ s. restored bytes.now ≡ Ok (saving_view s)) }
{
    let (digest, machine) = match Machine::restored(alloc, bytes) {
        Ok(restored) => restored,
        Err(_) => return Err(AllocError),
    };
    Ok(SavedMachine { digest, machine })
}

/// What is kept of a session that is played in a host.
fn keep_slot(alloc: Global, host: &mut Host, slot: &ScriptedSlot) -> Result<KeptSession, AllocError>
    ensures kept { IfOk result (λ k. Some (kept_view k) ≡ standing_of_player host.old.host (Playing slot.now)) }
    ensures host { host.new ≡ host.old }
{
    // (its slot is open, so that saving fails for nothing but memory)
    let Ok(bytes) = host.save(alloc, slot.id) else {
        return Err(AllocError);
    };
    Ok(KeptSession {
        pressed: slot.pressed(),
        done: slot.done(),
        console: slot.console.clone()?,
        list: slot.list.clone()?,
        saved: saved_machine(alloc, bytes.as_slice())?,
    })
}

/// What is kept of the session of a player: nothing where it is still to be forked.
fn keep_player(
    alloc: Global,
    host: &mut Host,
    player: &Player,
) -> Result<Option<KeptSession>, AllocError>
    ensures kept { IfOk result (λ k. option_map kept_view k ≡ standing_of_player host.old.host player.now) }
    ensures host { host.new ≡ host.old }
{
    match player {
        Player::Playing(slot) => Ok(Some(keep_slot(alloc, host, slot)?)),
        Player::Waiting(_) => Ok(None),
    }
}

/// What is kept of all sessions of a run, whose players rest between two turns in a host. The host stays as it is.
pub fn keep_sessions(
    alloc: Global,
    host: &mut Host,
    players: &[Player],
) -> Result<Vec<Option<KeptSession>>, AllocError>
    ensures kept { IfOk result (λ v. standing_view v.items ≡ standing_of host.old.host players.now) }
    ensures host { host.new ≡ host.old }
{
    let mut kept = Vec::new(alloc);
    for player in players {
        kept.push(keep_player(alloc, host, player)?)?;
    }
    Ok(kept)
}
