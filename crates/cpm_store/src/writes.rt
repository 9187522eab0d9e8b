//! The writes of a run, one after another.
ghost use Rattle.std.specs.Prelude.{◌≡◌, ◌<◌, ◌≤◌, IfErr, OnOk, length, map};
ghost use Rattle.cpm_store.specs.Files.{CountsFailure, WhereTold};
ghost use Rattle.cpm_store.specs.Log.{AreWrites, LogLeadsBy, StopsAfter};
ghost use Rattle.cpm_store.specs.Writes.{StopsAt, WritesAll, named_output};

use crate::store::{Store, StoreError};
use thiserror::Error;

/// A file to be written.
#[derive(Drop)]
pub struct Output<'a> {
    pub name: &'a str,
    pub bytes: Vec<u8>,
}

/// Which write failed, and why.
#[derive(Clone, Copy, Debug, Drop, Error)]
#[error("output {place}, counted from 0: {cause}")]
pub struct WriteError {
    /// The place of the file among those to be written, from 0.
    pub place: usize,
    pub cause: StoreError,
}

/// Writes files in order, up to the first write that fails, which is the error.
pub fn write_all<S: Store>(outputs: &[Output<'_>], store: &mut S) -> Result<(), WriteError>
    ensures written { OnOk result (WhereTold (S.files store.old) (S.files store.new) (WritesAll (map named_output outputs.now))) }
    // Those before the failed one were written, it may hold anything, and nothing else has changed.
    ensures stopped { IfErr result (λ e.
        WhereTold (S.files store.old) (S.files store.new) (StopsAt (map named_output outputs.now) e.place)) }
    // The calls were these writes and no others, up to the one that failed, of whichever store.
    ensures log { OnOk result (LogLeadsBy S.does (AreWrites (map named_output outputs.now)) store.old store.new) }
    ensures stopped_log { IfErr result (λ e. LogLeadsBy S.does (StopsAfter (map named_output outputs.now) e.place) store.old store.new) }
    ensures place { IfErr result (λ e. e.place < length outputs.now) }
    ensures device { IfErr result (λ e.
        e.cause ≡ StoreError.Device → CountsFailure (S.failed store.old) (S.failed store.new)) }
    ensures uncounted { OnOk result (S.failed store.new ≡ S.failed store.old) }
    ensures memory { IfErr result (λ e. e.cause ≡ StoreError.OutOfMemory → S.failed store.new ≡ S.failed store.old) }
    ensures counted { S.failed store.old ≤ S.failed store.new }
{
    let mut place = 0;
    for output in outputs {
        match store.write(output.name, output.bytes.as_slice()) {
            Ok(()) => place += 1,
            Err(cause) => return Err(WriteError { place, cause }),
        }
    }
    Ok(())
}
