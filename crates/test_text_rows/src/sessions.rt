//! Configurations and their refusals in words.

use crate::{add_cpu, add_number, add_text, add_texts};
use cpm_config::{Config, ConfigError, KeyFault, Origin, SessionConfig};
use std::alloc::Global;
use std::fmt::Display;
use test_language::{RowAnswer, RowFault};

/// What a configuration says: a line for the whole, and one for each session.
pub fn shown_config(alloc: Global, config: &Config) -> Result<RowAnswer, RowFault> {
    let mut out = String::new(alloc);
    add_whole(alloc, &mut out, config)?;
    for session in &config.sessions {
        add_session(alloc, &mut out, session)?;
    }
    Ok(RowAnswer::Words(out))
}

/// Adds what is said of the whole.
fn add_whole(alloc: Global, out: &mut String, config: &Config) -> Result<(), RowFault> {
    add_number(alloc, out, "frames", u64::from(config.frames))?;
    add_number(alloc, out, ", quantum", config.quantum)?;
    add_text(alloc, out, ", system", Some(config.system.as_str()))
}

/// Adds the line of a session.
fn add_session(alloc: Global, out: &mut String, session: &SessionConfig) -> Result<(), RowFault> {
    out.push('\n')?;
    out.push_str(session.name.as_str())?;
    add_origin(alloc, out, &session.origin)?;
    add_number(alloc, out, ", steps", session.steps)?;
    add_files(alloc, out, session)
}

/// Adds the files of a session.
fn add_files(alloc: Global, out: &mut String, session: &SessionConfig) -> Result<(), RowFault> {
    add_text(alloc, out, ", console", Some(session.console.as_str()))?;
    add_text(alloc, out, ", keys", session.keys.as_deref())?;
    add_text(alloc, out, ", list", session.list.as_deref())?;
    if let Some(names) = &session.out {
        add_names(alloc, out, ", out", names.as_slice())?;
    }
    add_text(alloc, out, ", save", session.save.as_deref())
}

/// Adds how a session begins.
fn add_origin(alloc: Global, out: &mut String, origin: &Origin) -> Result<(), RowFault> {
    match origin {
        Origin::Opened { cpu, quota, drives } => {
            out.push(':')?;
            add_cpu(out, *cpu)?;
            add_number(alloc, out, ", quota", u64::from(*quota))?;
            add_names(alloc, out, ", drives", drives.as_slice())
        }
        Origin::Forked { parent, at } => {
            add_text(alloc, out, ": fork", Some(parent.as_str()))?;
            add_number(alloc, out, ", at", *at)
        }
        Origin::Restored { saving } => add_text(alloc, out, ": from", Some(saving.as_str())),
    }
}

/// Adds names in quotes after what they are.
fn add_names(
    alloc: Global,
    out: &mut String,
    what: &str,
    names: &[String],
) -> Result<(), RowFault> {
    let mut values = Vec::new(alloc);
    for name in names {
        values.push(name.as_str())?;
    }
    add_texts(alloc, out, what, values.as_slice())
}

/// A refusal by its kind and its place.
pub fn shown_refusal(alloc: Global, error: ConfigError) -> Result<String, RowFault> {
    match error {
        ConfigError::Text { line, .. } => shown_at(alloc, "Text in line", line),
        ConfigError::Key(refusal) => shown_key_fault(alloc, refusal.fault),
        ConfigError::Range(place) => shown_at(alloc, "Range", place),
        ConfigError::Twice(place) => shown_at(alloc, "Twice", place),
        ConfigError::OutOfMemory => Err(RowFault::OutOfMemory),
    }
}

/// What is wrong with a key, by its kind and its place.
fn shown_key_fault(alloc: Global, fault: KeyFault) -> Result<String, RowFault> {
    match fault {
        KeyFault::UnknownAtTop => Ok(String::from_str(alloc, "UnknownAtTop")?),
        KeyFault::UnknownInSession(session) => shown_at(alloc, "UnknownInSession", session),
        KeyFault::Wanted(place) => shown_at(alloc, "Wanted", place),
        KeyFault::Misplaced(place) => shown_at(alloc, "Misplaced", place),
    }
}

/// A kind and a place.
fn shown_at(alloc: Global, kind: &str, place: impl Display + Drop) -> Result<String, RowFault> {
    Ok(format!(in alloc; "{kind} {place}")?)
}
