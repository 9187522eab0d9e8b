//! The entries behind it.
ghost use Rattle.std.specs.Prelude.{◌≡◌, IfErr, IfOk, IsUtf8, Some, codes, option_map};
ghost use Rattle.serde_json.specs.Find.{get};
ghost use Rattle.serde_json.specs.View.{view};
ghost use Rattle.cpm_journal.specs.Entries.{IsEntryRefusal, KeptNumber, KeptSaving, entry_alone, entry_read, hex_bytes_in};
ghost use Rattle.cpm_journal.specs.Entries.{journal_entry_of, journal_entry_seen, members_in, number_in};

use hex::FromHexError;
use serde_json::Value;
use std::alloc::{AllocError, Global};
use thiserror::Error;

/// What changed a host.
#[derive(Drop)]
pub enum JournalEntry {
    /// A request, just as it was asked.
    Request(Value),
    /// A session that goes on from a saving.
    Restore(Vec<u8>),
    /// The next slot has this number.
    Number(u64),
}

/// Why a line is no entry.
#[derive(Clone, Copy, Debug, PartialEq, Eq, Drop, Error)]
pub enum EntryFault {
    /// It is no JSON from this column on, counted in bytes from 1.
    #[error("it is no JSON from column {at} on")]
    NoJson { at: usize },
    /// It is JSON, and no entry.
    #[error("it is no entry")]
    NoEntry,
    #[error("out of memory")]
    OutOfMemory,
}

/// How many members an object has.
pub(crate) fn member_count(value: &Value) -> usize
    ensures { result ≡ members_in (view value.now) }
{
    match value.as_object() {
        Some(members) => members.len(),
        None => 0,
    }
}

/// The bytes that a value is the hexadecimal text of, if it is one.
fn bytes_in(alloc: Global, value: &Value) -> Result<Option<Vec<u8>>, AllocError>
    ensures { IfOk result (λ r. option_map (λ v. v.items) r ≡ hex_bytes_in (view value.now)) }
{
    let Some(text) = value.as_str() else {
        return Ok(None);
    };
    match hex::decode(alloc, text.as_bytes()) {
        Ok(bytes) => Ok(Some(bytes)),
        Err(FromHexError::OutOfMemory) => Err(AllocError),
        Err(_) => Ok(None),
    }
}

/// The entry of a saving, if this is the text of one.
fn saving_entry(alloc: Global, value: &Value) -> Result<Option<JournalEntry>, AllocError>
    ensures { IfOk result (λ r. option_map journal_entry_seen r ≡ option_map KeptSaving (hex_bytes_in (view value.now))) }
{
    match bytes_in(alloc, value)? {
        Some(bytes) => Ok(Some(JournalEntry::Restore(bytes))),
        None => Ok(None),
    }
}

/// The entry of a number, if this is one.
fn number_entry(value: &Value) -> Option<JournalEntry>
    ensures { option_map journal_entry_seen result ≡ option_map KeptNumber (number_in (view value.now)) }
{
    match value.as_u64() {
        Some(number) => Some(JournalEntry::Number(number)),
        None => None,
    }
}

/// The entry of an only member.
fn entry_alone(alloc: Global, value: &Value) -> Result<Option<JournalEntry>, AllocError>
    ensures { IfOk result (λ r. option_map journal_entry_seen r
        ≡ entry_alone (get (codes "restore") (view value.now)) (get (codes "number") (view value.now))) }
{
    if let Some(saving) = value.get("restore") {
        return saving_entry(alloc, saving);
    }
    match value.get("number") {
        Some(number) => Ok(number_entry(number)),
        None => Ok(None),
    }
}

/// The entry that a value is, if it is one.
fn entry_of(alloc: Global, value: Value) -> Result<Option<JournalEntry>, AllocError>
    ensures { IfOk result (λ r. option_map journal_entry_seen r ≡ journal_entry_of (view value)) }
{
    if value.get("do").is_some() {
        return Ok(Some(JournalEntry::Request(value)));
    }
    if member_count(&value) == 1 {
        entry_alone(alloc, &value)
    } else {
        Ok(None)
    }
}

impl JournalEntry {
    /// The entry that a line is. It is refused where the line is no JSON, then where its value is no entry; and if out of memory.
    pub fn read(alloc: Global, line: &[u8]) -> Result<JournalEntry, EntryFault>
        ensures read { IfOk result (λ e. IsUtf8 line.now × (entry_read line.now ≡ Some (journal_entry_seen e))) }
        ensures refused { IfErr result (IsEntryRefusal line.now) }
    {
        match Value::from_slice(alloc, line) {
            Ok(value) => match entry_of(alloc, value) {
                Ok(Some(entry)) => Ok(entry),
                Ok(None) => Err(EntryFault::NoEntry),
                Err(AllocError) => Err(EntryFault::OutOfMemory),
            },
            Err(error) if error.is_memory() => Err(EntryFault::OutOfMemory),
            Err(error) => Err(EntryFault::NoJson {
                at: error.column().saturating_add(1),
            }),
        }
    }
}
