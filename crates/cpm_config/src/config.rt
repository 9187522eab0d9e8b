//! The configuration of a run, and how it is read.
ghost use Rattle.std.specs.Prelude.{◌≡◌, IsErrOf, Err, None};
ghost use Rattle.std.specs.Str.{IsUtf8};
ghost use Rattle.toml.specs.Errors.{IsBlank, IsMemory};
ghost use Rattle.toml.specs.Parse.{parse_document};
ghost use Rattle.toml.specs.Data.{no_members};
ghost use Rattle.toml.specs.View.{table_view};
ghost use Rattle.cpm_config.specs.Rules.{IsJudged, IsRead};

use crate::copies::config_of;
use crate::draft::draft_of;
use crate::fault::{ConfigError, DocumentStop, KeyRefusal};
use crate::names::twice_fault;
use crate::ranges::range_fault;
use crate::unknown::unknown_key;
use cpm_flags::Cpu;
use std::alloc::Global;
use toml::Table;

/// How a session begins.
#[derive(Drop)]
pub enum Origin {
    /// It is opened.
    Opened {
        cpu: Cpu,
        /// The most pages that the session may write, 16 to 256.
        quota: u16,
        /// The files of the images of its drives, 1 to 4, A first.
        drives: Vec<String>,
    },
    /// It is forked from the earlier session of this name, which is opened, at this count of its
    /// steps: at most those of either.
    Forked {
        parent: String,
        at: u64,
    },
    /// It goes on from the saving in this file.
    Restored {
        saving: String,
    },
}

/// A session of a run.
#[derive(Drop)]
pub struct SessionConfig {
    /// 1 to 16 letters, digits, `-` and `_`; no other session has it.
    pub name: String,
    pub origin: Origin,
    /// The most steps that it executes, up to 1,000,000,000,000: its whole count, with the steps of its
    /// parent up to the fork where it is forked, and with those before the saving from which it, or its
    /// parent, goes on.
    pub steps: u64,
    /// The file for the text of its console.
    pub console: String,
    /// The file of its key script.
    pub keys: Option<String>,
    /// The file for the text of its list device.
    pub list: Option<String>,
    /// The files for the images of its drives after the run, as many as it has drives, which are its
    /// parent's where it is forked, and those of the saving where it goes on from one.
    pub out: Option<Vec<String>>,
    /// The file for its own saving after the run.
    pub save: Option<String>,
}

/// The configuration of a run.
#[derive(Drop)]
pub struct Config {
    /// The frames that all sessions share, 16 to 16,384.
    pub frames: u16,
    /// The most steps of one turn, 1 to 1,000,000,000.
    pub quantum: u64,
    /// The file of the system drive's image.
    pub system: String,
    /// 1 to 64 sessions, in the order of the file.
    pub sessions: Vec<SessionConfig>,
}

/// The line, from 1, that this place of a text is in.
fn line_at(text: &[u8], place: usize) -> usize {
    let mut line: usize = 1;
    for byte in text.iter().take(place) {
        if *byte == b'\n' {
            line = line.saturating_add(1);
        }
    }
    line
}

/// The refusal for a text that is no TOML.
fn text_fault(bytes: &[u8], fault: toml::de::Error) -> ConfigError
    requires { ¬ IsMemory fault → IsUtf8 bytes.now → parse_document bytes.now ≡ None }
    ensures read { IsRead bytes.now (Err result) }
    ensures memory { result ≡ ConfigError.OutOfMemory → IsMemory fault }
{
    match fault.span() {
        Some(span) => ConfigError::Text {
            line: line_at(bytes, span.start),
            fault,
        },
        None => ConfigError::OutOfMemory,
    }
}

/// Judges the entries of a document, which these bytes write.
fn judged(alloc: Global, bytes: &[u8], table: &Table) -> Result<Config, ConfigError>
    ensures judged { IsJudged (table_view table.now) result }
    ensures memory { IsErrOf result ConfigError.OutOfMemory → table_view table.now ≡ no_members → ⊥ }
{
    let draft = match draft_of(alloc, table) {
        Ok(draft) => draft,
        Err(DocumentStop::Fault(fault)) => {
            let unknown = unknown_key(bytes, table, fault);
            return Err(ConfigError::Key(KeyRefusal { fault, unknown }));
        }
        Err(DocumentStop::OutOfMemory) => return Err(ConfigError::OutOfMemory),
    };
    if let Some(place) = range_fault(&draft) {
        return Err(ConfigError::Range(place));
    }
    let Ok(config) = config_of(alloc, &draft) else {
        return Err(ConfigError::OutOfMemory);
    };
    match twice_fault(alloc, &config) {
        Ok(Some(place)) => Err(ConfigError::Twice(place)),
        Ok(None) => Ok(config),
        Err(_) => Err(ConfigError::OutOfMemory),
    }
}

impl Config {
    /// The configuration that a TOML text writes.
    ///
    /// The first kind of fault in the whole file is answered: `Text`, where the bytes are no TOML (or
    /// an integer does not fit 64 bits); `Key`, where a key is missing, unknown or of another type;
    /// `Range`, where a value breaks a rule; `Twice`, where two sessions have one name or one file would
    /// be written twice. `OutOfMemory` comes only where memory is refused, whatever is wrong after
    /// that place.
    pub fn read(alloc: Global, bytes: &[u8]) -> Result<Config, ConfigError>
        ensures read { IsRead bytes.now result }
        ensures memory { IsErrOf result ConfigError.OutOfMemory → IsBlank bytes.now → ⊥ }
    {
        match toml::table_from_slice(alloc, bytes) {
            Ok(table) => judged(alloc, bytes, &table),
            Err(error) => Err(text_fault(bytes, error)),
        }
    }
}
