//! The keys of the sessions of a run as scripts by which they do the same again.
ghost use Rattle.std.specs.Prelude.{◌≡◌, ◌++◌, IfOk, OnOk, map};
ghost use Rattle.std.specs.List.{All};
ghost use Rattle.cpm_script.specs.Recording.{recorded};
ghost use Rattle.cpm_store.specs.Writes.{named_output};
ghost use Rattle.cpm_run.specs.Run.{record_of, record_outputs, stop_of};
ghost use Rattle.cpm_run.specs.Settled.{settled_view};
ghost use Rattle.cpm_run.specs.Settling.{AreBelow80h};

use crate::options::RecordFile;
use crate::report::SessionStop;
use crate::settle::keys_after;
use crate::settled::SettledInput;
use cpm_script::{Key, key_line};
use cpm_store::Output;
use std::alloc::{AllocError, Global};

/// The lines of keys, one after another.
fn lines_of(alloc: Global, keys: &[Key]) -> Result<Vec<u8>, AllocError>
    requires { AreBelow80h keys.now }
    ensures { IfOk result (λ v. v.items ≡ recorded keys.now) }
{
    let mut lines = Vec::new(alloc);
    for key in keys {
        if let Some(line) = key_line(*key) {
            lines.extend_from_slice(line.as_bytes())?;
        }
    }
    Ok(lines)
}

/// Adds the record of a session's own keys, unless it wants one and there is none.
fn add_record<'a>(
    alloc: Global,
    outputs: &mut Vec<Output<'a>>,
    record: RecordFile<'a>,
    own: &[Key],
) -> Result<(), AllocError>
    requires { AreBelow80h own.now }
    ensures { OnOk result (map named_output outputs.new.items ≡ map named_output outputs.old.items ++ record_of record.entry own.now) }
{
    if record.needs_key && own.is_empty() {
        return Ok(());
    }
    outputs.push(Output {
        name: record.name,
        bytes: lines_of(alloc, own)?,
    })?;
    Ok(())
}

/// The records of all sessions, as far as files are named for them.
pub(crate) fn records_of<'a>(
    alloc: Global,
    records: &'a [RecordFile<'a>],
    settled: &[SettledInput<'_>],
) -> Result<Vec<Output<'a>>, AllocError>
    requires { All (λ s. AreBelow80h s.keys) (map settled_view settled.now) }
    ensures { IfOk result (λ v. map named_output v.items ≡ record_outputs records.entry.now (map settled_view settled.now)) }
{
    let mut outputs = Vec::new(alloc);
    for (place, record) in records.iter().enumerate() {
        let Some(session) = settled.get(place) else {
            return Ok(outputs);
        };
        let own = keys_after(session.keys.as_slice(), session.before);
        add_record(alloc, &mut outputs, *record, own)?;
    }
    Ok(outputs)
}

/// Of each session, how it stopped where it was played by itself.
pub(crate) fn stops_of(
    alloc: Global,
    settled: &[SettledInput<'_>],
) -> Result<Vec<SessionStop>, AllocError>
    ensures { IfOk result (λ v. v.items ≡ map stop_of (map settled_view settled.now)) }
{
    settled
        .iter()
        .map(|session| SessionStop {
            is_idle: session.is_idle,
            typing: session.typing,
        })
        .collect(alloc)
}
