//! Checkpoints that are written as bytes.

ghost use Rattle.std.specs.Prelude.{◌≡◌, ◌<◌, ◌≤◌, ◌^◌, ◌++◌, IfOk, OnOk, length, option_map};
ghost use Rattle.std.specs.List.{AllByRecursion, flat_map};
ghost use Rattle.cpm_checkpoint.specs.CheckpointBytes.{AreByteValues, IsByteRun, IsCheckpoint, IsSession, IsSessionIfAny};
ghost use Rattle.cpm_checkpoint.specs.CheckpointBytes.{checkpoint_bytes, checkpoint_magic, checkpoint_value, marked_bytes, most_sessions};
ghost use Rattle.cpm_checkpoint.specs.CheckpointBytes.{checkpoint_version, long, run, session_bytes, session_value, session_values};

use crate::checkpoint::{Checkpoint, CheckpointSession};
use std::alloc::{AllocError, Global};

/// What every checkpoint begins with: `cpmrun`, a byte that ends a text, and 0.
pub const MAGIC: [u8; 8] = [0x63, 0x70, 0x6d, 0x72, 0x75, 0x6e, 0x1a, 0x00];

/// The number of the format.
pub const VERSION: u8 = 1;

/// Appends a number of 64 bits.
fn append_long(out: &mut Vec<u8>, number: u64) -> Result<(), AllocError>
    ensures appended { OnOk result (out.new.items ≡ out.old.items ++ long number) }
    ensures fits { number < 2 ^ 64 }
{
    out.extend_from_slice(&number.to_le_bytes())
}

/// Appends how many bytes come, and then these.
fn append_run(out: &mut Vec<u8>, bytes: &[u8]) -> Result<(), AllocError>
    ensures appended { OnOk result (out.new.items ≡ out.old.items ++ run bytes.now) }
    ensures fits { IsByteRun bytes.now }
{
    append_long(out, bytes.len() as u64)?;
    out.extend_from_slice(bytes)?;
    Ok(())
}

/// Appends where a session stands.
fn append_session(out: &mut Vec<u8>, session: &CheckpointSession) -> Result<(), AllocError>
    ensures appended { OnOk result (out.new.items ≡ out.old.items ++ session_bytes (session_value session.now)) }
    ensures fits { IfOk result (λ _. IsSession (session_value session.now)) }
{
    append_long(out, session.pressed)?;
    append_long(out, session.done)?;
    append_run(out, &session.console)?;
    append_run(out, &session.list)?;
    append_run(out, &session.saving)?;
    Ok(())
}

/// Appends a session with its mark.
fn append_marked(out: &mut Vec<u8>, session: &Option<CheckpointSession>) -> Result<(), AllocError>
    ensures appended { OnOk result (out.new.items ≡ out.old.items ++ marked_bytes (option_map session_value session.now)) }
    ensures fits { IfOk result (λ _. IsSessionIfAny (option_map session_value session.now)) }
{
    match session {
        None => out.push(0)?,
        Some(session) => {
            out.push(1)?;
            append_session(out, session)?;
        }
    }
    Ok(())
}

/// Appends the sessions.
fn append_sessions(
    out: &mut Vec<u8>,
    sessions: &[Option<CheckpointSession>],
) -> Result<(), AllocError>
    ensures appended { OnOk result (out.new.items ≡ out.old.items ++ flat_map marked_bytes (session_values sessions.now)) }
    ensures fits { IfOk result (λ _. AllByRecursion IsSessionIfAny (session_values sessions.now)) }
{
    for session in sessions {
        append_marked(out, session)?;
    }
    Ok(())
}

/// Appends the digest of what the run began with.
fn append_beginning(out: &mut Vec<u8>, beginning: &[u8; 32]) -> Result<(), AllocError>
    ensures appended { OnOk result (out.new.items ≡ out.old.items ++ beginning.now) }
    ensures fits { IfOk result (λ _. (length beginning.now ≡ 32) × AreByteValues beginning.now) }
{
    out.extend_from_slice(beginning)
}

/// The bytes of a checkpoint; refused if out of memory.
#[tactic(auto, unfolding(crate::specs::CheckpointBytes::checkpoint_bytes))]
pub fn checkpoint_bytes(alloc: Global, checkpoint: &Checkpoint) -> Result<Vec<u8>, AllocError>
    requires { length checkpoint.now.sessions.items ≤ most_sessions }
    ensures written { IfOk result (λ bytes. bytes.items ≡ checkpoint_bytes (checkpoint_value checkpoint.now)) }
    ensures fits { IfOk result (λ _. IsCheckpoint (checkpoint_value checkpoint.now)) }
{
    let mut out = Vec::new(alloc);
    out.extend_from_slice(&MAGIC)?;
    out.push(VERSION)?;
    append_beginning(&mut out, &checkpoint.beginning)?;
    out.push(checkpoint.sessions.len() as u8)?;
    append_sessions(&mut out, &checkpoint.sessions)?;
    Ok(out)
}
