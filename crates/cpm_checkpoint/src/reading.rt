//! Checkpoints that are read of bytes.

ghost use Rattle.std.specs.Prelude.{◌≡◌, ◌≤◌, IfOk, option_map};
ghost use Rattle.cpm_checkpoint.specs.CheckpointBytes.{checkpoint_value, session_value, session_values};
ghost use Rattle.cpm_checkpoint.specs.CheckpointReading.{IsParsed, IsWholeParsed, beginning_read, begun_read, checkpoint_read};
ghost use Rattle.cpm_checkpoint.specs.CheckpointReading.{marked_read, parts_read, session_read, sessions_read};

use crate::checkpoint::{Checkpoint, CheckpointError, CheckpointSession, MOST_SESSIONS};
use crate::reader::CheckpointReader;
use crate::writing::{MAGIC, VERSION};
use std::alloc::Global;

/// Reads what is before the sessions, and gives the digest.
#[tactic(auto, unfolding(crate::specs::CheckpointReading::beginning_read))]
fn read_beginning(reader: &mut CheckpointReader<'_>) -> Result<[u8; 32], CheckpointError>
    ensures { IsParsed (λ b. b) (beginning_read reader.old) reader.new result }
{
    reader.these(&MAGIC)?;
    reader.these(&[VERSION])?;
    reader.array()
}

/// Reads where a session stands.
#[tactic(auto, unfolding(crate::specs::CheckpointReading::session_read))]
fn read_session(
    alloc: Global,
    reader: &mut CheckpointReader<'_>,
) -> Result<CheckpointSession, CheckpointError>
    ensures { IsParsed session_value (session_read reader.old) reader.new result }
{
    Ok(CheckpointSession {
        pressed: reader.long()?,
        done: reader.long()?,
        console: Vec::from_slice(alloc, reader.run()?)?,
        list: Vec::from_slice(alloc, reader.run()?)?,
        saving: Vec::from_slice(alloc, reader.run()?)?,
    })
}

/// Reads a session behind its mark, if it has begun.
#[tactic(auto, unfolding(crate::specs::CheckpointReading::begun_read))]
fn read_begun(
    alloc: Global,
    reader: &mut CheckpointReader<'_>,
    mark: u8,
) -> Result<Option<CheckpointSession>, CheckpointError>
    ensures { IsParsed (option_map session_value) (begun_read mark reader.old) reader.new result }
{
    if mark == 0 {
        Ok(None)
    } else {
        Ok(Some(read_session(alloc, reader)?))
    }
}

/// Reads a session with its mark.
#[tactic(auto, unfolding(crate::specs::CheckpointReading::marked_read))]
fn read_marked(
    alloc: Global,
    reader: &mut CheckpointReader<'_>,
) -> Result<Option<CheckpointSession>, CheckpointError>
    ensures { IsParsed (option_map session_value) (marked_read reader.old) reader.new result }
{
    let mark = reader.byte_below(2)?;
    read_begun(alloc, reader, mark)
}

/// Reads so many sessions.
fn read_sessions(
    alloc: Global,
    reader: &mut CheckpointReader<'_>,
    count: u8,
) -> Result<Vec<Option<CheckpointSession>>, CheckpointError>
    ensures { IsParsed (λ v. session_values v.items) (sessions_read count reader.old) reader.new result }
{
    let mut sessions = Vec::new(alloc);
    for _ in 0..count {
        let session = read_marked(alloc, reader)?;
        sessions.push(session)?;
    }
    Ok(sessions)
}

/// Reads all parts.
#[tactic(auto, unfolding(crate::specs::CheckpointReading::parts_read))]
fn read_parts(
    alloc: Global,
    reader: &mut CheckpointReader<'_>,
) -> Result<Checkpoint, CheckpointError>
    ensures { IsParsed checkpoint_value (parts_read reader.old) reader.new result }
{
    let beginning = read_beginning(reader)?;
    let count = reader.byte_below(MOST_SESSIONS as u8 + 1)?;
    let sessions = read_sessions(alloc, reader, count)?;
    Ok(Checkpoint {
        beginning,
        sessions,
    })
}

/// The checkpoint of bytes, behind which nothing stands.
#[tactic(auto, unfolding(crate::specs::CheckpointReading::checkpoint_read))]
pub fn read_checkpoint(alloc: Global, bytes: &[u8]) -> Result<Checkpoint, CheckpointError>
    ensures { IsWholeParsed checkpoint_value (checkpoint_read bytes.now) result }
{
    let mut reader = CheckpointReader::new(bytes);
    let checkpoint = read_parts(alloc, &mut reader)?;
    if reader.is_at_end() {
        Ok(checkpoint)
    } else {
        Err(CheckpointError::Damaged { at: reader.at() })
    }
}
