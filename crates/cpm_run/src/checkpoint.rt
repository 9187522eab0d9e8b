//! What is kept of the sessions of a run, as a checkpoint has it.
ghost use Rattle.std.specs.Prelude.{◌≡◌, IfOk, None, Some, option_map};
ghost use Rattle.cpm_checkpoint.specs.CheckpointBytes.{checkpoint_value, session_value};
ghost use Rattle.cpm_run.specs.Kept.{kept_view, standing_view};
ghost use Rattle.cpm_run.specs.Rest.{standing_given, standing_if_begun, standing_read, standing_with};
ghost use Rattle.cpm_machine.specs.Saving.{restored};

use crate::beginning::RunBeginning;
use crate::standing::KeptSession;
use cpm_batch::SavedMachine;
use cpm_checkpoint::{Checkpoint, CheckpointSession};
use cpm_machine::{Machine, RestoreError};
use std::alloc::{AllocError, Global};

/// What is kept of a session; nothing where its saving is damaged.
fn kept_session(
    alloc: Global,
    session: &CheckpointSession,
) -> Result<Option<KeptSession>, AllocError>
    ensures { IfOk result (λ k. standing_with (session_value session.now) (restored session.now.saving.items) ≡ option_map kept_view k) }
{
    let (digest, machine) = match Machine::restored(alloc, session.saving.as_slice()) {
        Ok(restored) => restored,
        Err(RestoreError::Damaged(_)) => return Ok(None),
        Err(RestoreError::OutOfMemory) => return Err(AllocError),
    };
    Ok(Some(KeptSession {
        pressed: session.pressed as usize,
        done: session.done,
        console: session.console.clone()?,
        list: session.list.clone()?,
        saved: SavedMachine { digest, machine },
    }))
}

/// The same of one that may not have begun.
fn kept_if_begun(
    alloc: Global,
    session: &Option<CheckpointSession>,
) -> Result<Option<Option<KeptSession>>, AllocError>
    ensures { IfOk result (λ k. standing_if_begun (option_map session_value session.now) ≡ option_map (λ s. option_map kept_view s) k) }
{
    match session {
        Some(session) => match kept_session(alloc, session)? {
            Some(session) => Ok(Some(Some(session))),
            None => Ok(None),
        },
        None => Ok(Some(None)),
    }
}

/// What is kept of all sessions; nothing where one of their savings is damaged.
fn kept_sessions(
    alloc: Global,
    checkpoint: &Checkpoint,
) -> Result<Option<Vec<Option<KeptSession>>>, AllocError>
    ensures { IfOk result (λ k. standing_read (checkpoint_value checkpoint.now).sessions ≡ option_map (λ v. standing_view v.items) k) }
{
    let mut kept = Vec::new(alloc);
    for session in &checkpoint.sessions {
        let Some(session) = kept_if_begun(alloc, session)? else {
            return Ok(None);
        };
        kept.push(session)?;
    }
    Ok(Some(kept))
}

/// What is kept of the sessions of a run with this beginning: nothing where the checkpoint is of another run, or damaged.
pub(crate) fn kept_of(
    alloc: Global,
    checkpoint: Option<&Checkpoint>,
    beginning: &RunBeginning,
) -> Result<Option<Vec<Option<KeptSession>>>, AllocError>
    ensures { IfOk result (λ k. option_map (λ v. standing_view v.items) k
        ≡ standing_given beginning.now (option_map (λ c. checkpoint_value c.now) checkpoint.entry)) }
{
    match checkpoint {
        Some(checkpoint) if checkpoint.beginning == *beginning => kept_sessions(alloc, checkpoint),
        _ => Ok(None),
    }
}
