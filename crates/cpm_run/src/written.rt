//! What is kept of the sessions of a run, as the bytes of a checkpoint.
ghost use Rattle.std.specs.Prelude.{◌≡◌, ◌<◌, IfOk, IfSome, None, Some, length, option_map};
ghost use Rattle.cpm_checkpoint.specs.CheckpointBytes.{most_sessions, session_value, session_values};
ghost use Rattle.cpm_machine.specs.Saving.{restored};
ghost use Rattle.cpm_run.specs.Keeping.{IsCheckpointFor};
ghost use Rattle.cpm_run.specs.Kept.{kept_view, standing_view};
ghost use Rattle.cpm_run.specs.Rest.{standing_if_begun, standing_read, standing_with};

use crate::beginning::RunBeginning;
use crate::standing::KeptSession;
use cpm_checkpoint::{Checkpoint, CheckpointSession, MOST_SESSIONS};
use std::alloc::{AllocError, Global};

/// A session as a checkpoint has it.
fn written_session(alloc: Global, kept: &KeptSession) -> Result<CheckpointSession, AllocError>
    ensures { IfOk result (λ s. standing_with (session_value s) (restored s.saving.items) ≡ Some (kept_view kept.now)) }
{
    Ok(CheckpointSession {
        pressed: kept.pressed as u64,
        done: kept.done,
        console: kept.console.clone()?,
        list: kept.list.clone()?,
        saving: kept.saved.bytes(alloc)?,
    })
}

/// The same of one that may not have begun.
fn written_if_begun(
    alloc: Global,
    kept: &Option<KeptSession>,
) -> Result<Option<CheckpointSession>, AllocError>
    ensures { IfOk result (λ s. standing_if_begun (option_map session_value s) ≡ Some (option_map kept_view kept.now)) }
{
    match kept {
        Some(kept) => Ok(Some(written_session(alloc, kept)?)),
        None => Ok(None),
    }
}

/// All sessions as a checkpoint has them.
fn written_sessions(
    alloc: Global,
    kept: &[Option<KeptSession>],
) -> Result<Vec<Option<CheckpointSession>>, AllocError>
    ensures read { IfOk result (λ v. standing_read (session_values v.items) ≡ Some (standing_view kept.now)) }
    ensures long { IfOk result (λ v. length v.items ≡ length kept.now) }
{
    let mut sessions = Vec::new(alloc);
    for session in kept {
        sessions.push(written_if_begun(alloc, session)?)?;
    }
    Ok(sessions)
}

/// The bytes of a checkpoint of a run with this beginning, of whose sessions this is kept; none where there are more than it may have.
pub(crate) fn checkpoint_of(
    alloc: Global,
    beginning: RunBeginning,
    kept: &[Option<KeptSession>],
) -> Result<Option<Vec<u8>>, AllocError>
    ensures read { IfOk result (λ bytes. IfSome bytes (λ b. IsCheckpointFor beginning (standing_view kept.now) b.items)) }
    ensures many { IfOk result (λ bytes. bytes ≡ None → most_sessions < length kept.now) }
{
    let sessions = written_sessions(alloc, kept)?;
    if sessions.len() > MOST_SESSIONS {
        return Ok(None);
    }
    let checkpoint = Checkpoint {
        beginning,
        sessions,
    };
    Ok(Some(checkpoint.bytes(alloc)?))
}
