//! Reading the recording that a session is played by, in place of its script.
ghost use Rattle.std.specs.Prelude.{◌≡◌, ◌∷◌, [], IfErr, IfOk, is_some, map};
ghost use Rattle.std.specs.List.{before_first};
ghost use Rattle.std.specs.Str.Lines.{lines};
ghost use Rattle.cpm_script.specs.Cues.{all_said};
ghost use Rattle.cpm_script.specs.Script.{is_script_space};
ghost use Rattle.cpm_script.specs.declared.cue.Cue.TheVariants.{Key as Timed};
ghost use Rattle.cpm_store.specs.Log.{LogLeadsBy};
ghost use Rattle.cpm_batch.specs.Held.{IsRecordingIn};
ghost use Rattle.cpm_batch.specs.Inputs.{IsNeedRefusal, RecordingIn};
ghost use Rattle.cpm_batch.specs.Reads.{IsRecordingRead, OnlyRead, StopsAmongNeeds};
ghost use Rattle.cpm_batch.specs.Sources.{IsRecordingFault, IsRecordingOf, are_late, first_counted, is_line_counted};

use crate::error::ReadError;
use crate::input::read_bytes;
use cpm_script::laws::recordings_in_order;
use cpm_script::{Cue, Key, LineFault, ScriptError, count_of, first_line, read_recording};
use cpm_shown::shown;
use cpm_store::Store;
use std::alloc::{AllocError, Global};

/// Whether none of the keys comes before a count.
fn are_late(keys: &[Key], at: u64) -> bool
    ensures { result ≡ are_late at keys.now }
{
    keys.iter().all(|key| at <= key.count)
}

/// A line before its first space.
fn first_word(line: &[u8]) -> &[u8]
    ensures { result.now ≡ before_first is_script_space line.now }
{
    match line.iter().position(|b| *b == b' ') {
        Some(place) => &line[..place],
        None => line,
    }
}

/// Whether the first word of a line is a count.
fn is_line_counted(line: &[u8]) -> bool
    ensures { result ≡ is_line_counted line.now }
{
    count_of(first_word(line)).is_some()
}

/// The number of the first line whose first word is a count, or of the end.
fn first_counted(text: &[u8]) -> u64
    ensures { result ≡ first_counted 1 (lines text.now) }
{
    let mut rest = text;
    let mut number: u64 = 1;
    while !rest.is_empty() {
        let (line, after) = first_line(rest);
        if is_line_counted(line) {
            return number;
        }
        number += 1;
        rest = after;
    }
    number
}

/// Keys as what a script says, each at its count.
fn timed_cues(alloc: Global, keys: &[Key]) -> Result<Vec<Cue>, AllocError>
    ensures { IfOk result (λ v. v.items ≡ map Timed keys.now) }
{
    keys.iter().map(|key| Cue::Key(*key)).collect(alloc)
}

/// What a recording says whose keys come at a count or later.
fn recorded_from(alloc: Global, text: &[u8], at: u64) -> Result<Vec<Cue>, ScriptError>
    ensures cues { IfOk result (λ v. IsRecordingOf at text.now (all_said v)) }
    ensures fault { IfErr result (IsRecordingFault at text.now) }
{
    recordings_in_order();
    let keys = read_recording(alloc, text)?;
    let late = are_late(keys.as_slice(), at);
    if !late {
        let number = first_counted(text);
        let fault = LineFault::BeforeFork;
        return Err(ScriptError::Line { number, fault });
    }
    match timed_cues(alloc, keys.as_slice()) {
        Ok(cues) => Ok(cues),
        Err(_) => Err(ScriptError::OutOfMemory),
    }
}

/// What the recording in a file says for a session whose own keys come at a count or later: 0, or that at which it is forked.
pub(crate) fn read_replay<S: Store>(
    alloc: Global,
    store: &mut S,
    name: &str,
    at: u64,
) -> Result<Vec<Cue>, ReadError>
    ensures cues { IfOk result (λ v. IsRecordingIn (S.files store.old) name.now at (all_said v)) }
    ensures log { IfOk result (λ v. LogLeadsBy S.does (IsRecordingRead name.now at (all_said v)) store.old store.new) }
    ensures refusal { IfErr result (IsNeedRefusal (S.files store.old) (RecordingIn name.now at ∷ [])) }
    ensures refused_log { IfErr result (λ e. LogLeadsBy S.does (StopsAmongNeeds (RecordingIn name.now at ∷ []) e) store.old store.new) }
    ensures store { OnlyRead S.does S.files S.failed result store.old store.new }
{
    let text = read_bytes(alloc, store, name)?;
    match recorded_from(alloc, text.as_slice(), at) {
        Ok(cues) => Ok(cues),
        Err(ScriptError::Line { number, fault }) => Err(ReadError::Script {
            name: shown(name),
            line: number,
            fault,
        }),
        Err(ScriptError::OutOfMemory) => Err(ReadError::OutOfMemory),
    }
}
