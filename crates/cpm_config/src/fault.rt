//! Why a configuration is refused.
ghost use Rattle.cpm_config.specs.declared.fault.DocumentStop.{DocumentStop};
ghost use Rattle.cpm_config.specs.declared.fault.DocumentStop.TheVariants.{Fault, OutOfMemory};
ghost use Rattle.std.specs.Prelude.{◌≡◌};

use crate::field::ConfigKey;
use cpm_shown::ShownWord;
use std::alloc::{AllocError, AllocFailed};
use std::fmt;
use thiserror::Error;

/// What is wrong with the keys of a configuration.
#[derive(Clone, Copy, Debug, Drop, Error)]
pub enum KeyFault {
    /// The top has a key that no configuration has.
    #[error("the top has a key other than frames, quantum, system and session")]
    UnknownAtTop,
    /// The session of this number, from 1, has a key that no session has.
    #[error("session {0} has a key other than name, cpu, quota, fork, at, from, steps, drives, console, keys, list, out and save")]
    UnknownInSession(u64),
    /// The key is missing, or its value is of another type.
    #[error("{0} is missing or of another type: {wanted} is wanted", wanted = .0.field.wanted())]
    Wanted(ConfigKey),
    /// The key does not belong to a session that begins as this one does.
    #[error("{0} is out of place: a session has cpu, quota and drives, or fork and at, or from")]
    Misplaced(ConfigKey),
}

/// A key that is unknown where it stands.
#[derive(Clone, Copy, Debug, Drop)]
pub struct UnknownKey {
    /// The key as it is shown in a message.
    pub key: ShownWord,
    /// The line that writes it, from 1, where one is found.
    pub line: Option<usize>,
}

/// What is wrong with the keys of a configuration, with the key that is unknown.
#[derive(Clone, Copy, Debug, Drop)]
pub struct KeyRefusal {
    pub fault: KeyFault,
    pub unknown: Option<UnknownKey>,
}

impl fmt::Display for KeyRefusal {
    fn fmt<W: fmt::Write>(&self, f: &mut fmt::Formatter<W>) -> fmt::Result {
        let fault = self.fault;
        let Some(unknown) = self.unknown else {
            return write!(f, "configuration: {fault}");
        };
        let key = unknown.key;
        match unknown.line {
            Some(line) => write!(f, "configuration, line {line}, '{key}': {fault}"),
            None => write!(f, "configuration, '{key}': {fault}"),
        }
    }
}

/// Why a configuration is refused: the first kind of fault in the whole file, in this order.
#[derive(Clone, Copy, Debug, Drop, Error)]
pub enum ConfigError {
    /// The bytes are no TOML, and were read up to this line, from 1.
    #[error("configuration, line {line}: {}", .fault.message())]
    Text { line: usize, fault: toml::de::Error },
    /// A key is missing, unknown or of another type.
    #[error("{0}")]
    Key(KeyRefusal),
    /// A value breaks a rule.
    #[error("configuration: {0} breaks a rule: {wanted} is wanted", wanted = .0.field.wanted())]
    Range(ConfigKey),
    /// The name at this place stands before: two sessions have it, or two files.
    #[error("configuration: a name in {0} was given before")]
    Twice(ConfigKey),
    /// Memory was refused.
    #[error("out of memory")]
    OutOfMemory,
}

/// Why the entries of a document are not there.
#[derive(Clone, Copy)]
pub(crate) enum DocumentStop {
    Fault(KeyFault),
    OutOfMemory,
}

impl From<KeyFault> for DocumentStop {
    ghost from_gives = { λ fault e. e ≡ Fault fault };

    fn from(fault: KeyFault) -> DocumentStop {
        DocumentStop::Fault(fault)
    }
}

impl From<AllocError> for DocumentStop {
    ghost from_gives = { λ _ e. e ≡ OutOfMemory };

    fn from(_error: AllocError) -> DocumentStop {
        DocumentStop::OutOfMemory
    }
}

impl<T: Drop> From<AllocFailed<T>> for DocumentStop {
    ghost from_gives = { λ _ e. e ≡ OutOfMemory };

    fn from(_error: AllocFailed<T>) -> DocumentStop {
        DocumentStop::OutOfMemory
    }
}
