//! Lines that are written.
ghost use Rattle.std.specs.Prelude.{◌≡◌, IfOk, OnErr, OnOk};
ghost use Rattle.hex.specs.Hex.{encode_lower};
ghost use Rattle.serde_json.specs.Data.{string};
ghost use Rattle.serde_json.specs.View.{view};
ghost use Rattle.cpm_journal.specs.Entries.{IsKeepable, IsLineAdded, KeptNumber, KeptRequest, KeptSaving, close_json, entry_json, one_member};
ghost use Rattle.cpm_journal.specs.Heads.{head_json};

use crate::head::{JournalHead, VERSION};
use serde_json::{Map, Value};
use std::alloc::{AllocError, Global};

/// Appends the line of a value. If out of memory, nothing is appended.
fn append_value(out: &mut Vec<u8>, alloc: Global, value: &Value) -> Result<(), AllocError>
    ensures added { OnOk result (IsLineAdded (view value.now) out.old.items out.new.items) }
    ensures unchanged { OnErr result (out.new.items ≡ out.old.items) }
{
    let mut line = value.to_vec(alloc)?;
    line.push(b'\n')?;
    out.extend_from_slice(&line)?;
    Ok(())
}

/// An object of one member.
fn object_of_one(alloc: Global, name: &str, value: Value) -> Result<Value, AllocError>
    ensures { IfOk result (λ v. view v ≡ one_member name.now (view value)) }
{
    let mut members = Map::new(alloc);
    serde_json::put(&mut members, alloc, name, value)?;
    Ok(Value::Object(members))
}

/// A text of hexadecimal digits, two for each byte.
fn hex_value(alloc: Global, bytes: &[u8]) -> Result<Value, AllocError>
    ensures { IfOk result (λ v. view v ≡ string (encode_lower bytes.now)) }
{
    Ok(Value::String(hex::encode(alloc, bytes)?))
}

/// A head as a value.
fn head_value(alloc: Global, head: &JournalHead) -> Result<Value, AllocError>
    ensures { IfOk result (λ v. view v ≡ head_json head.now) }
{
    let mut members = Map::new(alloc);
    serde_json::put(
        &mut members,
        alloc,
        "frames",
        Value::from(head.frames as u64),
    )?;
    serde_json::put(&mut members, alloc, "journal", Value::from(VERSION))?;
    serde_json::put(
        &mut members,
        alloc,
        "system",
        hex_value(alloc, &head.system)?,
    )?;
    Ok(Value::Object(members))
}

/// The request that closes a slot and writes no drive.
fn close_value(alloc: Global, slot: u64) -> Result<Value, AllocError>
    ensures { IfOk result (λ v. view v ≡ close_json slot) }
{
    let mut members = Map::new(alloc);
    serde_json::put(
        &mut members,
        alloc,
        "do",
        Value::try_from_str(alloc, "close")?,
    )?;
    serde_json::put(&mut members, alloc, "slot", Value::from(slot))?;
    Ok(Value::Object(members))
}

/// Appends the head of a journal. If out of memory, nothing is appended, here and below.
pub fn append_head(out: &mut Vec<u8>, alloc: Global, head: &JournalHead) -> Result<(), AllocError>
    ensures added { OnOk result (IsLineAdded (head_json head.now) out.old.items out.new.items) }
    ensures unchanged { OnErr result (out.new.items ≡ out.old.items) }
{
    let value = head_value(alloc, head)?;
    append_value(out, alloc, &value)
}

/// Appends the entry of a request.
pub fn append_request(out: &mut Vec<u8>, alloc: Global, request: &Value) -> Result<(), AllocError>
    ensures added { OnOk result (IsLineAdded (entry_json (KeptRequest (view request.now))) out.old.items out.new.items) }
    ensures unchanged { OnErr result (out.new.items ≡ out.old.items) }
{
    append_value(out, alloc, request)
}

/// Appends the entry of a saving.
pub fn append_restore(out: &mut Vec<u8>, alloc: Global, saving: &[u8]) -> Result<(), AllocError>
    ensures added { OnOk result (IsLineAdded (entry_json (KeptSaving saving.now)) out.old.items out.new.items) }
    ensures unchanged { OnErr result (out.new.items ≡ out.old.items) }
{
    let digits = hex_value(alloc, saving)?;
    let value = object_of_one(alloc, "restore", digits)?;
    append_value(out, alloc, &value)
}

/// Appends the entry of the number that the next slot has.
pub fn append_number(out: &mut Vec<u8>, alloc: Global, next: u64) -> Result<(), AllocError>
    ensures keepable { IsKeepable (KeptNumber next) }
    ensures added { OnOk result (IsLineAdded (entry_json (KeptNumber next)) out.old.items out.new.items) }
    ensures unchanged { OnErr result (out.new.items ≡ out.old.items) }
{
    let value = object_of_one(alloc, "number", Value::from(next))?;
    append_value(out, alloc, &value)
}

/// Appends the closing of a slot, of which no drive is written.
pub fn append_close(out: &mut Vec<u8>, alloc: Global, slot: u64) -> Result<(), AllocError>
    ensures added { OnOk result (IsLineAdded (close_json slot) out.old.items out.new.items) }
    ensures unchanged { OnErr result (out.new.items ≡ out.old.items) }
{
    let value = close_value(alloc, slot)?;
    append_value(out, alloc, &value)
}
