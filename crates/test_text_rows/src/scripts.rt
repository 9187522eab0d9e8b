//! Key scripts: the keys that they have, those that wait, those of forked sessions, and keys that are recorded and read back.

use cpm_script::{
    Cue, Key, MOST_KEYS, ScriptError, key_line, keys_before, read_cues, read_forked_cues,
    read_keys, read_recording,
};
use std::alloc::{AllocError, Global};
use test_language::{RowAnswer, RowFault, RowLine, Scene, Word, byte, count, number};

/// The most keys that are shown one by one.
const MOST_SHOWN: usize = 128;

/// A script, and what was said of the last refusal.
#[derive(Drop)]
pub struct Scripts {
    script: Vec<u8>,
    told: String,
}

impl Scene for Scripts {
    fn new(alloc: Global) -> Result<Scripts, AllocError> {
        Ok(Scripts {
            script: Vec::new(alloc),
            told: String::new(alloc),
        })
    }

    fn is_alone(verb: &str) -> bool {
        matches!(
            verb,
            "keys" | "recording" | "cues" | "is-plain" | "plain-keys" | "told"
        )
    }

    fn takes_text(verb: &str) -> bool {
        verb == "script"
    }

    fn act(&mut self, alloc: Global, line: &RowLine<'_>) -> Result<RowAnswer, RowFault> {
        match line.verb() {
            "script" => self.take_script(alloc, line),
            "first" => self.cut(line.arguments()),
            "record" => self.record(alloc, line.arguments()),
            "keys" => self.keys(alloc),
            "recording" => self.recording(alloc),
            "keys-before" => self.keys_before(alloc, line.arguments()),
            "cues" => self.cues(alloc),
            "forked-cues" => self.forked_cues(alloc, line.arguments()),
            "told" => RowAnswer::words(alloc, self.told.as_str()),
            _ => Err(RowFault::Unknown),
        }
    }
}

impl Scripts {
    /// `script TEXT`: what is read.
    fn take_script(&mut self, alloc: Global, line: &RowLine<'_>) -> Result<RowAnswer, RowFault> {
        self.script = line.given(alloc, line.arguments())?;
        Ok(RowAnswer::Done)
    }

    /// `first N`: the script ends after so many bytes.
    fn cut(&mut self, arguments: &[Word<'_>]) -> Result<RowAnswer, RowFault> {
        let [bytes] = arguments else {
            return Err(RowFault::Words);
        };
        self.script.truncate(count(*bytes)?);
        Ok(RowAnswer::Done)
    }

    /// `record COUNT KEY`: the line of a key, which is added to the script; `none` where the byte is no key.
    fn record(&mut self, alloc: Global, arguments: &[Word<'_>]) -> Result<RowAnswer, RowFault> {
        let [steps, key] = arguments else {
            return Err(RowFault::Words);
        };
        let key = Key {
            count: number(*steps)?,
            byte: byte(*key)?,
        };
        match key_line(key) {
            Some(line) => {
                self.script.extend_from_slice(line.as_str().as_bytes())?;
                RowAnswer::bytes(alloc, line.as_str().as_bytes())
            }
            None => RowAnswer::words(alloc, "none"),
        }
    }

    /// `keys`: the keys of the script.
    fn keys(&mut self, alloc: Global) -> Result<RowAnswer, RowFault> {
        match read_keys(alloc, self.script.as_slice()) {
            Ok(keys) => shown_keys(alloc, keys.as_slice()),
            Err(error) => self.refused(alloc, error),
        }
    }

    /// `recording`: the keys of the script, which may be more than those of a script.
    fn recording(&mut self, alloc: Global) -> Result<RowAnswer, RowFault> {
        match read_recording(alloc, self.script.as_slice()) {
            Ok(keys) => shown_keys(alloc, keys.as_slice()),
            Err(error) => self.refused(alloc, error),
        }
    }

    /// `keys-before COUNT`: those of them that come before this count.
    fn keys_before(
        &mut self,
        alloc: Global,
        arguments: &[Word<'_>],
    ) -> Result<RowAnswer, RowFault> {
        let [at] = arguments else {
            return Err(RowFault::Words);
        };
        let at = number(*at)?;
        match read_keys(alloc, self.script.as_slice()) {
            Ok(keys) => shown_keys(alloc, keys_before(alloc, keys.as_slice(), at)?.as_slice()),
            Err(error) => self.refused(alloc, error),
        }
    }

    /// `cues`: what the script says, where some of its lines wait.
    fn cues(&mut self, alloc: Global) -> Result<RowAnswer, RowFault> {
        match read_cues(alloc, self.script.as_slice()) {
            Ok(cues) => shown_cues(alloc, cues.as_slice()),
            Err(error) => self.refused(alloc, error),
        }
    }

    /// `forked-cues COUNT KEYS`: what the script says of a session that is forked at this count, where its parent had so many
    /// keys before.
    fn forked_cues(
        &mut self,
        alloc: Global,
        arguments: &[Word<'_>],
    ) -> Result<RowAnswer, RowFault> {
        let [at, before] = arguments else {
            return Err(RowFault::Words);
        };
        let (at, before) = (number(*at)?, count(*before)?);
        if before > MOST_KEYS {
            return Err(RowFault::Unready);
        }
        match read_forked_cues(alloc, self.script.as_slice(), at, before) {
            Ok(cues) => shown_cues(alloc, cues.as_slice()),
            Err(error) => self.refused(alloc, error),
        }
    }

    /// A refusal by its line and its fault.
    fn refused(&mut self, alloc: Global, error: ScriptError) -> Result<RowAnswer, RowFault> {
        self.told = error.to_string(alloc)?;
        match error {
            ScriptError::Line { number, fault } => Ok(RowAnswer::Refused(format!(in alloc;
                "line {number}: {fault:?}"
            )?)),
            ScriptError::OutOfMemory => Err(RowFault::OutOfMemory),
        }
    }
}

/// A key: its count and its byte.
fn shown_key(alloc: Global, key: Key) -> Result<String, AllocError> {
    let Key { count, byte } = key;
    format!(in alloc; "{count} {byte:02X}")
}

/// Adds an item after those before it.
fn add_item(out: &mut String, item: &str) -> Result<(), AllocError> {
    if !out.is_empty() {
        out.push_str(", ")?;
    }
    out.push_str(item)
}

/// How many items there are, and the last one.
fn shown_many(alloc: Global, count: usize, what: &str, last: &str) -> Result<RowAnswer, RowFault> {
    Ok(RowAnswer::Words(format!(in alloc; "{count} {what}, the last {last}")?))
}

/// Keys, or how many there are with the last one; `none` where there are none.
fn shown_keys(alloc: Global, keys: &[Key]) -> Result<RowAnswer, RowFault> {
    match keys.last() {
        None => RowAnswer::words(alloc, "none"),
        Some(last) if keys.len() > MOST_SHOWN => {
            shown_many(alloc, keys.len(), "keys", shown_key(alloc, *last)?.as_str())
        }
        Some(_) => shown_each_key(alloc, keys),
    }
}

/// Keys, each of them.
fn shown_each_key(alloc: Global, keys: &[Key]) -> Result<RowAnswer, RowFault> {
    let mut out = String::new(alloc);
    for key in keys {
        add_item(&mut out, shown_key(alloc, *key)?.as_str())?;
    }
    Ok(RowAnswer::Words(out))
}

/// A cue: `key COUNT BYTE`, `wait TEXT` or `press BYTE`.
fn shown_cue(alloc: Global, cue: &Cue) -> Result<String, RowFault> {
    match cue {
        Cue::Key(key) => {
            let key = shown_key(alloc, *key)?;
            Ok(format!(in alloc; "key {key}")?)
        }
        Cue::Wait(text) => shown_wait(alloc, text.as_slice()),
        Cue::Press(byte) => Ok(format!(in alloc; "press {byte:02X}")?),
    }
}

/// A cue that waits for a text.
fn shown_wait(alloc: Global, text: &[u8]) -> Result<String, RowFault> {
    match str::from_utf8(text) {
        Ok(text) => Ok(format!(in alloc; "wait {text:?}")?),
        Err(_) => Err(RowFault::Unready),
    }
}

/// Cues, or how many there are with the last one; `none` where there are none.
fn shown_cues(alloc: Global, cues: &[Cue]) -> Result<RowAnswer, RowFault> {
    match cues.last() {
        None => RowAnswer::words(alloc, "none"),
        Some(last) if cues.len() > MOST_SHOWN => {
            shown_many(alloc, cues.len(), "cues", shown_cue(alloc, last)?.as_str())
        }
        Some(_) => shown_each_cue(alloc, cues),
    }
}

/// Cues, each of them.
fn shown_each_cue(alloc: Global, cues: &[Cue]) -> Result<RowAnswer, RowFault> {
    let mut out = String::new(alloc);
    for cue in cues {
        add_item(&mut out, shown_cue(alloc, cue)?.as_str())?;
    }
    Ok(RowAnswer::Words(out))
}
