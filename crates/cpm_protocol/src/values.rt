//! The values of a request, by their fields.
ghost use Rattle.std.specs.Prelude.{◌≡◌, ◌≤◌, IfOk, chars, not, option_map, string_bytes};
ghost use Rattle.std.specs.BTreeMap.{keys};
ghost use Rattle.std.specs.List.{find, list_all, list_any};
ghost use Rattle.std.specs.Str.{bytes_eq};
ghost use Rattle.serde_json.specs.View.{view};
ghost use Rattle.serde_json.specs.Data.{object};
ghost use Rattle.serde_json.specs.Find.{as_str, at};
ghost use Rattle.cpm_protocol.specs.Bytes.{is_byte_text};
ghost use Rattle.cpm_protocol.specs.Fields.{request_field_name};
ghost use Rattle.cpm_protocol.specs.Requests.{asked_tag, bytes_field_at, cpu_at, cpu_of_name, drive_names_of, field_at, field_map, four_names};
ghost use Rattle.cpm_protocol.specs.Requests.{four_names_at, four_names_if};
ghost use Rattle.cpm_protocol.specs.Requests.{goal_of, is_file_name, is_file_name_byte, is_known_name, is_short_text, item_name, list_in, must_read};
ghost use Rattle.cpm_protocol.specs.Requests.{number_field_at, number_within};
ghost use Rattle.cpm_protocol.specs.Requests.{tag_of_code, text_if, text_where, unknown_name};

use crate::bytes::is_byte_text;
use crate::fault::FieldFault;
use crate::field::RequestField;
use crate::request::{DriveNames, GrantGoal, Tag};
use cpm_flags::Cpu;
use serde_json::{Map, Value};

/// The most that a number of a request may be: 2^53 - 1, up to which JavaScript's numbers are exact.
pub(crate) const MOST_NUMBER: u64 = 9_007_199_254_740_991;

/// The value of a field.
pub(crate) fn value_at<'a>(value: &'a Value, field: RequestField) -> Option<&'a Value>
    ensures { option_map (λ v. view v.now) result ≡ field_at field (view value.now) }
{
    value.get(field.name())
}

/// The whole number of a field, within bounds.
pub(crate) fn number_field_at(
    value: &Value,
    field: RequestField,
    low: u64,
    high: u64,
) -> Result<u64, FieldFault>
    ensures read { result ≡ number_field_at field low high (view value.now) }
    ensures bound { IfOk result (λ n. n ≤ high) }
{
    let Some(found) = value_at(value, field) else {
        return Err(FieldFault::Missing(field));
    };
    match found.as_u64() {
        Some(number) if low <= number && number <= high => Ok(number),
        _ => Err(FieldFault::Wrong(field)),
    }
}

/// A smaller number.
pub(crate) fn short_at(
    value: &Value,
    field: RequestField,
    low: u16,
    high: u16,
) -> Result<u16, FieldFault>
    ensures { result ≡ number_field_at field low high (view value.now) }
{
    let number = number_field_at(value, field, low as u64, high as u64)?;
    Ok(number as u16)
}

/// A text of 1 to 255 bytes.
fn is_short_text(text: &str) -> bool
    ensures { result ≡ is_short_text text.now }
{
    !text.is_empty() && text.len() <= 255
}

/// Whether a byte may stand in a file's name.
fn is_name_byte(byte: u8) -> bool
    ensures { result ≡ is_file_name_byte byte }
{
    byte != b'/' && byte != 0
}

fn are_name_bytes(text: &str) -> bool
    ensures { result ≡ list_all is_file_name_byte text.now }
{
    text.as_bytes().iter().all(|byte| is_name_byte(*byte))
}

/// Whether a text names a file in the service's folder.
fn is_file_name(text: &str) -> bool
    ensures { result ≡ is_file_name text.now }
{
    is_short_text(text) && are_name_bytes(text) && text != "." && text != ".."
}

/// The text of a field, if it passes a test.
fn text_at(value: &Value, field: RequestField) -> Result<&str, FieldFault>
    ensures { field_map (λ t. t.now) result ≡ must_read as_str field (view value.now) }
{
    match value_at(value, field) {
        Some(Value::String(text)) => Ok(text.as_str()),
        Some(_) => Err(FieldFault::Wrong(field)),
        None => Err(FieldFault::Missing(field)),
    }
}

/// The name of a file in the service's folder.
pub(crate) fn file_name_at(value: &Value, field: RequestField) -> Result<&str, FieldFault>
    ensures { field_map (λ t. t.now) result ≡ text_where is_file_name field (view value.now) }
{
    let text = text_at(value, field)?;
    if is_file_name(text) {
        Ok(text)
    } else {
        Err(FieldFault::Wrong(field))
    }
}

/// A text of 1 to 255 bytes.
pub(crate) fn short_text_at(value: &Value, field: RequestField) -> Result<&str, FieldFault>
    ensures { field_map (λ t. t.now) result ≡ text_where is_short_text field (view value.now) }
{
    let text = text_at(value, field)?;
    if is_short_text(text) {
        Ok(text)
    } else {
        Err(FieldFault::Wrong(field))
    }
}

/// A text whose characters stand for bytes.
pub(crate) fn byte_text_at(value: &Value, field: RequestField) -> Result<&str, FieldFault>
    ensures { field_map (λ t. chars t.now) result ≡ bytes_field_at field (view value.now) }
{
    let text = text_at(value, field)?;
    if is_byte_text(text) {
        Ok(text)
    } else {
        Err(FieldFault::Wrong(field))
    }
}

/// The processor of a session.
pub(crate) fn cpu_at(value: &Value) -> Result<Cpu, FieldFault>
    ensures { result ≡ cpu_at (view value.now) }
{
    match text_at(value, RequestField::Cpu)? {
        "8080" => Ok(Cpu::I8080),
        "z80" => Ok(Cpu::Z80),
        _ => Err(FieldFault::Wrong(RequestField::Cpu)),
    }
}

/// The name at a place of a list, if it has so many.
fn name_in(list: &Value, index: usize, field: RequestField) -> Result<Option<&str>, FieldFault>
    ensures { field_map text_if result ≡ item_name field (at index (view list.now)) }
{
    match list.get(index) {
        Some(Value::String(name)) if is_file_name(name.as_str()) => Ok(Some(name.as_str())),
        Some(_) => Err(FieldFault::Wrong(field)),
        None => Ok(None),
    }
}

/// The names of a list of at most four.
#[tactic(auto, unfolding(crate::specs::Requests::four_names))]
fn four_names(list: &Value, field: RequestField) -> Result<DriveNames<'_>, FieldFault>
    ensures { field_map drive_names_of result ≡ four_names field (view list.now) }
{
    if list.get(4usize).is_some() {
        return Err(FieldFault::Wrong(field));
    }
    let a = name_in(list, 0, field)?;
    let b = name_in(list, 1, field)?;
    let c = name_in(list, 2, field)?;
    let d = name_in(list, 3, field)?;
    Ok(DriveNames { a, b, c, d })
}

/// The names of a field, for the drives A to D.
#[tactic(auto, unfolding(crate::specs::Requests::four_names_at))]
pub(crate) fn names_at(value: &Value, field: RequestField) -> Result<DriveNames<'_>, FieldFault>
    ensures { field_map drive_names_of result ≡ four_names_at field (view value.now) }
{
    match value_at(value, field) {
        Some(list) if list.is_array() => four_names(list, field),
        Some(_) => Err(FieldFault::Wrong(field)),
        None => Err(FieldFault::Missing(field)),
    }
}

/// The names of a field that may be left out.
pub(crate) fn names_if(value: &Value, field: RequestField) -> Result<DriveNames<'_>, FieldFault>
    ensures { field_map drive_names_of result ≡ four_names_if field (view value.now) }
{
    if value_at(value, field).is_some() {
        names_at(value, field)
    } else {
        Ok(DriveNames {
            a: None,
            b: None,
            c: None,
            d: None,
        })
    }
}

/// How far a grant goes at most.
pub(crate) fn goal_at(value: &Value) -> Result<GrantGoal, FieldFault>
    ensures { result ≡ goal_of (field_at RequestField.Until (view value.now)) (field_at RequestField.To (view value.now)) }
{
    let to = value_at(value, RequestField::To);
    if value_at(value, RequestField::Until).is_none() {
        return match to {
            Some(Value::String(word)) if word.as_str() == "wait" => Ok(GrantGoal::Wait),
            Some(_) => Err(FieldFault::Wrong(RequestField::To)),
            None => Ok(GrantGoal::Steps),
        };
    }
    if to.is_some() {
        return Err(FieldFault::Wrong(RequestField::To));
    }
    let address = short_at(value, RequestField::Until, 0, u16::MAX)?;
    Ok(GrantGoal::Address(address))
}

/// The tag of a request, which may be left out.
pub(crate) fn tag_at(value: &Value) -> Result<Option<Tag<'_>>, FieldFault>
    ensures { field_map (option_map tag_of_code) result ≡ asked_tag (view value.now) }
{
    match value_at(value, RequestField::Tag) {
        Some(Value::String(text)) if text.len() <= 256 => Ok(Some(Tag::Text(text.as_str()))),
        Some(found) => match found.as_u64() {
            Some(number) => Ok(Some(Tag::Number(number))),
            None => Err(FieldFault::Wrong(RequestField::Tag)),
        },
        None => Ok(None),
    }
}

/// Whether a name is that of one of these fields.
fn names_one(fields: &[RequestField], name: &str) -> bool
    ensures { result ≡ list_any (λ f. bytes_eq name.now (request_field_name f)) fields.now }
{
    fields.iter().any(|field| name == field.name())
}

/// Whether a name is that of `do`, of `tag` or of one of these fields.
fn is_known_name(fields: &[RequestField], name: &str) -> bool
    ensures { result ≡ is_known_name fields.now name.now }
{
    name == "do" || name == "tag" || names_one(fields, name)
}

/// The first key of an object that is the name of none of these fields.
fn unknown_key<'a>(members: &'a Map<String, Value>, fields: &[RequestField]) -> Option<&'a String>
    ensures { option_map (λ k. k.now) result ≡ find (λ k. not (is_known_name fields.now (string_bytes k))) (keys members.now) }
{
    members
        .keys()
        .find(|name| !is_known_name(fields, name.as_str()))
}

/// The first name of a value, in the order of the names, that is none of these fields.
pub(crate) fn unknown_name<'a>(value: &'a Value, fields: &[RequestField]) -> Option<&'a str>
    ensures { option_map (λ t. t.now) result ≡ unknown_name fields.now (view value.now) }
{
    let members = value.as_object()?;
    let name = unknown_key(members, fields)?;
    Some(name.as_str())
}
