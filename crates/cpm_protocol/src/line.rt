//! Lines.
ghost use Rattle.std.specs.Prelude.{◌≡◌, IfErr, IfOk, IsUtf8, Some, length, option_map};
ghost use Rattle.serde_json.specs.Read.{read};
ghost use Rattle.serde_json.specs.View.{items_view, view};
ghost use Rattle.cpm_protocol.specs.Requests.{IsLineRefusal, Many, answer_seen, asked_tag, field_at, field_map, is_request_count, line_asked};
ghost use Rattle.cpm_protocol.specs.Requests.{line_seen, many_in, many_of};
ghost use Rattle.cpm_protocol.specs.Requests.{must_read, names_many};

use crate::fault::{FieldFault, LineError, RequestFault};
use crate::field::RequestField;
use crate::reading::request_of;
use crate::request::LineRequest;
use crate::values::{tag_at, unknown_name, value_at};
use serde_json::Value;
use std::alloc::Global;

/// The most requests of one line.
const MOST_REQUESTS: usize = 1000;

/// A line that was read as JSON.
#[derive(Drop)]
pub struct WireLine {
    pub value: Value,
}

/// Whether a value asks for many requests.
fn names_many(value: &Value) -> bool
    ensures { result ≡ names_many (field_at RequestField.Do (view value.now)) }
{
    match value_at(value, RequestField::Do) {
        Some(Value::String(name)) => name.as_str() == "many",
        _ => false,
    }
}

/// Whether a line may have so many requests.
fn are_few(requests: &[Value]) -> bool
    ensures { result ≡ is_request_count (length requests.now) }
{
    !requests.is_empty() && requests.len() <= MOST_REQUESTS
}

/// The requests of a list.
fn requests_in(value: &Value) -> Option<&[Value]>
    ensures { option_map (λ r. Many (items_view r.now)) result ≡ many_in (view value.now) }
{
    let list = value.as_array()?;
    let requests = list.as_slice();
    if are_few(requests) {
        Some(requests)
    } else {
        None
    }
}

/// The requests of a line.
fn requests_at(value: &Value) -> Result<LineRequest<'_>, FieldFault>
    ensures { field_map line_seen result ≡ must_read many_in RequestField.Requests (view value.now) }
{
    let Some(found) = value_at(value, RequestField::Requests) else {
        return Err(FieldFault::Missing(RequestField::Requests));
    };
    match requests_in(found) {
        Some(requests) => Ok(LineRequest::Many(requests)),
        None => Err(FieldFault::Wrong(RequestField::Requests)),
    }
}

/// Many requests.
fn many_of(value: &Value) -> Result<LineRequest<'_>, RequestFault<'_>>
    ensures { answer_seen line_seen result ≡ many_of (view value.now) }
{
    if let Some(name) = unknown_name(value, &[RequestField::Requests]) {
        return Err(RequestFault::Unknown(name));
    }
    tag_at(value)?;
    Ok(requests_at(value)?)
}

impl WireLine {
    /// Reads a line as JSON.
    pub fn read(alloc: Global, line: &[u8]) -> Result<WireLine, LineError>
        ensures read { IfOk result (λ l. IsUtf8 line.now × (read line.now ≡ Some (view l.value))) }
        ensures refused { IfErr result (IsLineRefusal line.now) }
    {
        match Value::from_slice(alloc, line) {
            Ok(value) => Ok(WireLine { value }),
            Err(error) if error.is_memory() => Err(LineError::OutOfMemory),
            Err(error) => Err(LineError::NoJson {
                at: error.column().saturating_add(1),
            }),
        }
    }

    /// What the line asks, or its first fault.
    #[tactic(auto, unfolding(crate::specs::Requests::line_asked))]
    pub fn request(&self) -> Result<LineRequest<'_>, RequestFault<'_>>
        ensures { answer_seen line_seen result ≡ line_asked (view self.now.value) }
    {
        if names_many(&self.value) {
            return many_of(&self.value);
        }
        Ok(LineRequest::One(request_of(&self.value)?))
    }
}
