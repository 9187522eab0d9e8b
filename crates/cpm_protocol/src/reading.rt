//! A value as a request.
ghost use Rattle.std.specs.Prelude.{◌≡◌, option_map};
ghost use Rattle.serde_json.specs.View.{view};
ghost use Rattle.cpm_protocol.specs.Fields.{request_field_name};
ghost use Rattle.cpm_protocol.specs.Requests.{answer_seen, asked_as, request_asked, asked_tag, close_asked, field_map, files_asked, fork_asked, get_asked};
ghost use Rattle.cpm_protocol.specs.Requests.{grant_asked, key_asked, kind_at, list_asked, look_asked, open_asked, peek_asked, put_asked, request_seen};
ghost use Rattle.cpm_protocol.specs.Requests.{resume_asked, save_asked, slot_asked, tag_of_code, take_asked, turn_asked};

use crate::fault::{FieldFault, RequestFault};
use crate::field::RequestField;
use crate::kind::RequestKind;
use crate::request::{Tag, WireRequest};
use crate::values::{
    MOST_NUMBER, byte_text_at, cpu_at, file_name_at, goal_at, names_at, names_if, number_field_at,
    short_at, short_text_at, tag_at, unknown_name, value_at,
};
use serde_json::Value;

/// The most bytes that are given at once.
const MOST_BYTES: u16 = 8192;

/// The number of a slot.
fn slot_asked(value: &Value) -> Result<u64, FieldFault>
    ensures { result ≡ slot_asked (view value.now) }
{
    number_field_at(value, RequestField::Slot, 0, MOST_NUMBER)
}

#[tactic(auto, unfolding(crate::specs::Requests::open_asked))]
fn open_request(value: &Value) -> Result<WireRequest<'_>, FieldFault>
    ensures { field_map request_seen result ≡ open_asked (view value.now) }
{
    let cpu = cpu_at(value)?;
    let quota = short_at(value, RequestField::Quota, 0, u16::MAX)?;
    let drives = names_at(value, RequestField::Drives)?;
    Ok(WireRequest::Open { cpu, quota, drives })
}

#[tactic(auto, unfolding(crate::specs::Requests::resume_asked))]
fn resume_request(value: &Value) -> Result<WireRequest<'_>, FieldFault>
    ensures { field_map request_seen result ≡ resume_asked (view value.now) }
{
    let from = file_name_at(value, RequestField::From)?;
    Ok(WireRequest::Resume { from })
}

#[tactic(auto, unfolding(crate::specs::Requests::key_asked))]
fn key_request(value: &Value) -> Result<WireRequest<'_>, FieldFault>
    ensures { field_map request_seen result ≡ key_asked (view value.now) }
{
    let slot = slot_asked(value)?;
    let keys = byte_text_at(value, RequestField::Keys)?;
    Ok(WireRequest::Key { slot, keys })
}

#[tactic(auto, unfolding(crate::specs::Requests::grant_asked))]
fn grant_request(value: &Value) -> Result<WireRequest<'_>, FieldFault>
    ensures { field_map request_seen result ≡ grant_asked (view value.now) }
{
    let slot = slot_asked(value)?;
    let steps = number_field_at(value, RequestField::Steps, 0, MOST_NUMBER)?;
    let goal = goal_at(value)?;
    Ok(WireRequest::Grant { slot, steps, goal })
}

#[tactic(auto, unfolding(crate::specs::Requests::take_asked))]
fn take_request(value: &Value) -> Result<WireRequest<'_>, FieldFault>
    ensures { field_map request_seen result ≡ take_asked (view value.now) }
{
    let slot = slot_asked(value)?;
    let most = short_at(value, RequestField::Most, 0, MOST_BYTES)?;
    Ok(WireRequest::Take { slot, most })
}

#[tactic(auto, unfolding(crate::specs::Requests::list_asked))]
fn list_request(value: &Value) -> Result<WireRequest<'_>, FieldFault>
    ensures { field_map request_seen result ≡ list_asked (view value.now) }
{
    let slot = slot_asked(value)?;
    let most = short_at(value, RequestField::Most, 0, MOST_BYTES)?;
    Ok(WireRequest::List { slot, most })
}

#[tactic(auto, unfolding(crate::specs::Requests::look_asked))]
fn look_request(value: &Value) -> Result<WireRequest<'_>, FieldFault>
    ensures { field_map request_seen result ≡ look_asked (view value.now) }
{
    let slot = slot_asked(value)?;
    Ok(WireRequest::Look { slot })
}

#[tactic(auto, unfolding(crate::specs::Requests::peek_asked))]
fn peek_request(value: &Value) -> Result<WireRequest<'_>, FieldFault>
    ensures { field_map request_seen result ≡ peek_asked (view value.now) }
{
    let slot = slot_asked(value)?;
    let address = short_at(value, RequestField::Address, 0, u16::MAX)?;
    let length = short_at(value, RequestField::Length, 1, 256)?;
    Ok(WireRequest::Peek {
        slot,
        address,
        length,
    })
}

#[tactic(auto, unfolding(crate::specs::Requests::fork_asked))]
fn fork_request(value: &Value) -> Result<WireRequest<'_>, FieldFault>
    ensures { field_map request_seen result ≡ fork_asked (view value.now) }
{
    let slot = slot_asked(value)?;
    Ok(WireRequest::Fork { slot })
}

#[tactic(auto, unfolding(crate::specs::Requests::save_asked))]
fn save_request(value: &Value) -> Result<WireRequest<'_>, FieldFault>
    ensures { field_map request_seen result ≡ save_asked (view value.now) }
{
    let slot = slot_asked(value)?;
    let file = file_name_at(value, RequestField::File)?;
    Ok(WireRequest::Save { slot, file })
}

#[tactic(auto, unfolding(crate::specs::Requests::close_asked))]
fn close_request(value: &Value) -> Result<WireRequest<'_>, FieldFault>
    ensures { field_map request_seen result ≡ close_asked (view value.now) }
{
    let slot = slot_asked(value)?;
    let out = names_if(value, RequestField::Out)?;
    Ok(WireRequest::Close { slot, out })
}

#[tactic(auto, unfolding(crate::specs::Requests::turn_asked))]
fn turn_request(value: &Value) -> Result<WireRequest<'_>, FieldFault>
    ensures { field_map request_seen result ≡ turn_asked (view value.now) }
{
    let slot = slot_asked(value)?;
    let keys = byte_text_at(value, RequestField::Keys)?;
    let steps = number_field_at(value, RequestField::Steps, 0, MOST_NUMBER)?;
    Ok(WireRequest::Turn { slot, keys, steps })
}

#[tactic(auto, unfolding(crate::specs::Requests::put_asked))]
fn put_request(value: &Value) -> Result<WireRequest<'_>, FieldFault>
    ensures { field_map request_seen result ≡ put_asked (view value.now) }
{
    let drive = file_name_at(value, RequestField::Drive)?;
    let name = short_text_at(value, RequestField::Name)?;
    let text = byte_text_at(value, RequestField::Text)?;
    Ok(WireRequest::Put { drive, name, text })
}

#[tactic(auto, unfolding(crate::specs::Requests::get_asked))]
fn get_request(value: &Value) -> Result<WireRequest<'_>, FieldFault>
    ensures { field_map request_seen result ≡ get_asked (view value.now) }
{
    let drive = file_name_at(value, RequestField::Drive)?;
    let name = short_text_at(value, RequestField::Name)?;
    Ok(WireRequest::Get { drive, name })
}

#[tactic(auto, unfolding(crate::specs::Requests::files_asked))]
fn files_request(value: &Value) -> Result<WireRequest<'_>, FieldFault>
    ensures { field_map request_seen result ≡ files_asked (view value.now) }
{
    let drive = file_name_at(value, RequestField::Drive)?;
    Ok(WireRequest::Files { drive })
}

/// The request of this kind that a value is.
fn request_as(value: &Value, kind: RequestKind) -> Result<WireRequest<'_>, FieldFault>
    ensures { field_map request_seen result ≡ asked_as kind (view value.now) }
{
    match kind {
        RequestKind::Open => open_request(value),
        RequestKind::Resume => resume_request(value),
        RequestKind::Key => key_request(value),
        RequestKind::Grant => grant_request(value),
        RequestKind::Take => take_request(value),
        RequestKind::List => list_request(value),
        RequestKind::Look => look_request(value),
        RequestKind::Peek => peek_request(value),
        RequestKind::Fork => fork_request(value),
        RequestKind::Save => save_request(value),
        RequestKind::Close => close_request(value),
        RequestKind::Turn => turn_request(value),
        RequestKind::Put => put_request(value),
        RequestKind::Get => get_request(value),
        RequestKind::Files => files_request(value),
    }
}

/// The kind of the request that a value names.
#[tactic(auto, unfolding(crate::specs::Requests::kind_at))]
fn kind_at(value: &Value) -> Result<RequestKind, FieldFault>
    ensures { result ≡ kind_at (view value.now) }
{
    let Some(found) = value_at(value, RequestField::Do) else {
        return Err(FieldFault::Missing(RequestField::Do));
    };
    match found.as_str().and_then(RequestKind::named) {
        Some(RequestKind::Open) if value_at(value, RequestField::From).is_some() => Ok(
            RequestKind::Resume,
        ),
        Some(kind) => Ok(kind),
        None => Err(FieldFault::Wrong(RequestField::Do)),
    }
}

/// The tag of a request, which comes back with its reply, also where the request is wrong in something else.
pub fn tag_of(value: &Value) -> Result<Option<Tag<'_>>, FieldFault>
    ensures { field_map (option_map tag_of_code) result ≡ asked_tag (view value.now) }
{
    tag_at(value)
}

/// The request that a value is, or its first fault.
#[tactic(auto, unfolding(crate::specs::Requests::request_asked))]
pub fn request_of(value: &Value) -> Result<WireRequest<'_>, RequestFault<'_>>
    ensures { answer_seen request_seen result ≡ request_asked (view value.now) }
{
    let kind = kind_at(value)?;
    if let Some(name) = unknown_name(value, kind.fields()) {
        return Err(RequestFault::Unknown(name));
    }
    tag_at(value)?;
    Ok(request_as(value, kind)?)
}
