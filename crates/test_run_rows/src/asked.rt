//! What rows ask of a run besides its configuration, and what it shows and reads.

use cpm_host::{RecordFile, Replay, RunOptions};
use std::alloc::{AllocError, Global};
use test_language::{RowAnswer, RowFault, RowLine, Word};

/// A file for the keys of a session.
#[derive(Drop)]
struct KeyFile {
    name: String,
    needs_key: bool,
}

/// A session, and the file of the recording that it is played by.
#[derive(Drop)]
struct GivenReplay {
    session: String,
    file: String,
}

/// Which session is typed at, if one is, and what is typed; the files for the keys of the sessions, in their order; and which sessions are played by
/// recordings.
#[derive(Drop)]
pub(crate) struct Asked {
    typed: Option<String>,
    pub(crate) keys: Vec<u8>,
    files: Vec<KeyFile>,
    replays: Vec<GivenReplay>,
}

/// What a run showed of the session that was typed at, the record of its keys, and what was typed and not read.
#[derive(Drop)]
pub(crate) struct TypingOutcome {
    pub(crate) shown: Vec<u8>,
    pub(crate) recorded: Vec<u8>,
    pub(crate) left: Vec<u8>,
}

/// Whether the words after the name of a file for keys ask that there be a key.
fn needs_key(words: &[Word<'_>]) -> Result<bool, RowFault> {
    match words {
        [] => Ok(false),
        [word] if word.text == "needs-key" && !word.is_quoted => Ok(true),
        _ => Err(RowFault::Words),
    }
}

/// Whether the words after `run` ask that sessions stop idle.
pub(crate) fn stops_idle(words: &[Word<'_>]) -> Result<bool, RowFault> {
    match words {
        [] => Ok(false),
        [word] if word.text == "stop-idle" && !word.is_quoted => Ok(true),
        _ => Err(RowFault::Words),
    }
}

impl TypingOutcome {
    /// Before a run, while nothing of what is typed was read.
    pub(crate) fn before(alloc: Global, keys: &[u8]) -> Result<TypingOutcome, AllocError> {
        Ok(TypingOutcome {
            shown: Vec::new(alloc),
            recorded: Vec::new(alloc),
            left: Vec::from_slice(alloc, keys)?,
        })
    }
}

impl Asked {
    /// Nothing.
    pub(crate) fn new(alloc: Global) -> Asked {
        Asked {
            typed: None,
            keys: Vec::new(alloc),
            files: Vec::new(alloc),
            replays: Vec::new(alloc),
        }
    }

    /// `type NAME BYTES`: these keys are typed at the session of this name.
    pub(crate) fn type_keys(
        &mut self,
        alloc: Global,
        line: &RowLine<'_>,
    ) -> Result<RowAnswer, RowFault> {
        let [name, words @ ..] = line.arguments() else {
            return Err(RowFault::Words);
        };
        self.keys = line.given(alloc, words)?;
        self.typed = Some(String::from_str(alloc, name.text)?);
        Ok(RowAnswer::Done)
    }

    /// `keys-to NAME`: the keys of one more session are written to this file; `keys-to NAME needs-key`: if it has one of its own.
    pub(crate) fn keys_to(
        &mut self,
        alloc: Global,
        arguments: &[Word<'_>],
    ) -> Result<RowAnswer, RowFault> {
        let [name, words @ ..] = arguments else {
            return Err(RowFault::Words);
        };
        self.files.push(KeyFile {
            needs_key: needs_key(words)?,
            name: String::from_str(alloc, name.text)?,
        })?;
        Ok(RowAnswer::Done)
    }

    /// `replay NAME FILE`: the session of this name is played by the recording in this file.
    pub(crate) fn replay(
        &mut self,
        alloc: Global,
        arguments: &[Word<'_>],
    ) -> Result<RowAnswer, RowFault> {
        let [session, file] = arguments else {
            return Err(RowFault::Words);
        };
        self.replays.push(GivenReplay {
            session: String::from_str(alloc, session.text)?,
            file: String::from_str(alloc, file.text)?,
        })?;
        Ok(RowAnswer::Done)
    }

    /// The sessions that are played by recordings.
    pub(crate) fn replays(&self, alloc: Global) -> Result<Vec<Replay<'_>>, AllocError> {
        let mut replays = Vec::new(alloc);
        for replay in &self.replays {
            replays.push(Replay {
                session: replay.session.as_str(),
                file: replay.file.as_str(),
            })?;
        }
        Ok(replays)
    }

    /// The files for the keys of the sessions.
    pub(crate) fn records(&self, alloc: Global) -> Result<Vec<RecordFile<'_>>, AllocError> {
        let mut records = Vec::new(alloc);
        for file in &self.files {
            records.push(RecordFile {
                name: file.name.as_str(),
                needs_key: file.needs_key,
            })?;
        }
        Ok(records)
    }

    /// All that is asked.
    pub(crate) fn options<'a>(
        &'a self,
        records: &'a [RecordFile<'a>],
        replays: &'a [Replay<'a>],
        stops_idle: bool,
    ) -> RunOptions<'a> {
        let typed = match &self.typed {
            Some(name) => Some(name.as_str()),
            None => None,
        };
        RunOptions {
            typed,
            stops_idle,
            records,
            replays,
            kept: None,
        }
    }
}
