//! What is left of sessions that were played, whose slots are closed.
ghost use Rattle.std.specs.Prelude.{◌≡◌, ◌∷◌, IfOk, List, Ok, OnOk, map, true};
ghost use Rattle.std.specs.Vec.Iter.{into_iter_items};
ghost use Rattle.cpm_batch.specs.Outputs.{left_by};
ghost use Rattle.cpm_slots.specs.Host.{slot_at};
ghost use Rattle.cpm_machine.specs.MachineState.{MachineState};
ghost use Rattle.cpm_machine.specs.Saving.{restored, saving_with};
ghost use Rattle.cpm_machine.specs.SystemDigest.{system_digest};
ghost use Rattle.cpm_play.specs.Players.{AllDiffer};
ghost use Rattle.cpm_play.specs.declared.player.Player.TheVariants.{Playing};
ghost use Rattle.cpm_play.specs.declared.player.Player.{Player as PlayerValue};
ghost use Rattle.cpm_play.specs.declared.scripted_slot.ScriptedSlot.{ScriptedSlot as ScriptedSlotValue};
ghost use Rattle.cpm_run.specs.Playing.{AreFinished, IsClosed, files_by, report_by, saved_bytes, saving_if};
ghost use Rattle.cpm_run.specs.Run.{report_view, saving_over};

use crate::ending::{Ending, ending_of_slot};
use crate::report::SessionReport;
use cpm_batch::SessionFiles;
use cpm_config::SessionConfig;
use cpm_geom::Image;
use cpm_play::{Player, ScriptedSlot};
use cpm_slots::{Host, SlotId};
use std::alloc::{AllocError, Global};
use std::vec::IntoIter;

/// What is left of a session that was played, whose slot is closed.
#[derive(Drop)]
struct EndedSlot {
    slot: ScriptedSlot,
    ending: Ending,
    /// Its drives A to D, as far as it had them.
    drives: [Option<Image>; 4],
    /// The bytes of its saving, if it is saved.
    saved: Option<Vec<u8>>,
}

/// The bytes of the saving of a slot that is open, if it is saved.
fn saving_if(
    alloc: Global,
    host: &mut Host,
    id: SlotId,
    is_saved: bool,
) -> Result<Option<Vec<u8>>, AllocError>
    ensures saved { IfOk result (λ saved. (s : MachineState) → slot_at id.0 host.old.host.slots ≡ Some s
        → saved_bytes saved ≡ saving_if is_saved host.old.host.system s) }
    ensures restores { OnOk result ((s : MachineState) → slot_at id.0 host.old.host.slots ≡ Some s → is_saved ≡ true
        → restored (saving_over host.old.host.system s) ≡ Ok (saving_with (system_digest host.old.host.system) s)) }
    ensures host { host.new ≡ host.old }
{
    if !is_saved {
        return Ok(None);
    }
    match host.save(alloc, id) {
        Ok(bytes) => Ok(Some(bytes)),
        Err(_) => Err(AllocError),
    }
}

/// What is left of the next scripted slot, whose slot is closed.
fn next_closed(
    alloc: Global,
    host: &mut Host,
    players: &mut IntoIter<Player>,
    is_saved: bool,
) -> Result<Option<EndedSlot>, AllocError>
    ensures closed { IfOk result (λ left. (p : ScriptedSlotValue) (ps : List PlayerValue) (s : MachineState) → into_iter_items players.old ≡ Playing p ∷ ps
        → slot_at p.id.0 host.old.host.slots ≡ Some s
        → IsClosed p ps s is_saved host.old.host host.new.host left (into_iter_items players.new)) }
    ensures system { host.new.host.system ≡ host.old.host.system }
{
    let Some(Player::Playing(slot)) = players.next() else {
        return Ok(None);
    };
    let Some(ending) = ending_of_slot(host, slot.id) else {
        return Ok(None);
    };
    let saved = saving_if(alloc, host, slot.id, is_saved)?;
    match host.close(slot.id) {
        Ok(closed) => {
            let drives = closed.drives;
            Ok(Some(EndedSlot {
                slot,
                ending,
                drives,
                saved,
            }))
        }
        Err(_) => Ok(None),
    }
}

/// What is reported of a session, and what is written.
fn finish<'a>(
    alloc: Global,
    session: &'a SessionConfig,
    left: EndedSlot,
) -> Result<(SessionReport, SessionFiles<'a>), AllocError>
    ensures report { IfOk result (λ r. report_view r.0 ≡ report_by session.entry.now left) }
    ensures files { IfOk result (λ r. left_by r.1 ≡ files_by session.entry.now left) }
{
    let name = String::from_str(alloc, session.name.as_str())?;
    let EndedSlot {
        slot,
        ending,
        drives,
        saved,
    } = left;
    let ScriptedSlot { console, list, .. } = slot;
    let report = SessionReport {
        name,
        ending,
        bytes: console.len() as u64,
    };
    let files = SessionFiles {
        session,
        console,
        list,
        drives,
        saved,
    };
    Ok((report, files))
}

/// What is reported of all sessions, and what is written, once their players have played them. Their slots are closed.
pub(crate) fn finish_all<'a>(
    alloc: Global,
    host: &mut Host,
    sessions: &'a [SessionConfig],
    players: Vec<Player>,
) -> Result<(Vec<SessionReport>, Vec<SessionFiles<'a>>), AllocError>
    requires { AllDiffer players.items }
    ensures { IfOk result (λ left. AreFinished sessions.entry.now host.old.host players.items left.0.items left.1.items) }
{
    let mut reports = Vec::new(alloc);
    let mut files = Vec::new(alloc);
    let mut rest = players.into_iter();
    for session in sessions {
        let is_saved = session.save.is_some();
        let Some(ended) = next_closed(alloc, host, &mut rest, is_saved)? else {
            return Ok((reports, files));
        };
        let (report, left) = finish(alloc, session, ended)?;
        reports.push(report)?;
        files.push(left)?;
    }
    Ok((reports, files))
}
