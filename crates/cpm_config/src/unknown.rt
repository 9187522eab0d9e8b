//! A key that no configuration has, and where it is written.
ghost use Rattle.std.specs.Prelude.{◌≡◌, ◌==◌, ◌||◌, ◌&&◌, option_map, IfSome};

use crate::fault::{KeyFault, UnknownKey};
use crate::field::Field;
use crate::values::{SESSION_FIELDS, TOP_FIELDS, is_one_of, value_at};
use cpm_shown::shown;
use std::str;
use toml::{Table, Value};

/// The first key of a table that is none of these.
fn first_unknown<'a>(table: &'a Table, known: &[Field]) -> Option<&'a str> {
    for key in table.keys() {
        if !is_one_of(key.as_str(), known) {
            return Some(key.as_str());
        }
    }
    None
}

/// The table of the session with this number, from 1.
fn session_table(table: &Table, session: u64) -> Option<&Table> {
    let Some(Value::Array(array)) = value_at(table, Field::Sessions) else {
        return None;
    };
    match array
        .as_slice()
        .get(usize::try_from(session.checked_sub(1)?).ok()?)
    {
        Some(Value::Table(table)) => Some(table),
        _ => None,
    }
}

/// Whether a line is the header of a session.
fn is_session_header(line: &str) -> bool {
    match line.trim().strip_prefix("[[") {
        Some(rest) => match rest.split_once("]]") {
            Some((name, _)) => name.trim() == Field::Sessions.name(),
            None => false,
        },
        None => false,
    }
}

/// Whether a character stands between keys.
fn is_between_keys(c: char) -> bool {
    matches!(c, ' ' | '\t' | '.' | '[' | ']' | '"' | '\'')
}

/// Whether a line writes a key: in front of `=`, or in a header.
fn writes(line: &str, key: &str) -> bool {
    let line = line.trim();
    if line.starts_with('#') {
        return false;
    }
    let front = match line.split_once('=') {
        Some((front, _)) => front,
        None => line,
    };
    front.split(is_between_keys).any(|word| word == key)
}

/// The line, from 1, that writes a key of the session with this number; of the top where it is 0.
fn line_of(text: &str, session: u64, key: &str) -> Option<usize> {
    let mut number: usize = 0;
    let mut headers: u64 = 0;
    for line in text.lines() {
        number = number.saturating_add(1);
        if is_session_header(line) {
            headers = headers.saturating_add(1);
        }
        if (session == 0 || headers == session) && writes(line, key) {
            return Some(number);
        }
    }
    None
}

/// The key that a fault is about, if it is about an unknown one, with its line in the text of the document.
pub(crate) fn unknown_key(bytes: &[u8], table: &Table, fault: KeyFault) -> Option<UnknownKey> {
    let (session, key) = match fault {
        KeyFault::UnknownAtTop => (0, first_unknown(table, &TOP_FIELDS)?),
        KeyFault::UnknownInSession(session) => {
            let table = session_table(table, session)?;
            (session, first_unknown(table, &SESSION_FIELDS)?)
        }
        KeyFault::Wanted(_) | KeyFault::Misplaced(_) => return None,
    };
    let line = match str::from_utf8(bytes) {
        Ok(text) => line_of(text, session, key),
        Err(_) => None,
    };
    Some(UnknownKey {
        key: shown(key),
        line,
    })
}
