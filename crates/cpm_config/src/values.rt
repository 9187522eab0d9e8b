//! The values of a table, by their keys.
ghost use Rattle.std.specs.Prelude.{◌≡◌, [], map, option_map, string_bytes};
ghost use Rattle.std.specs.BTreeMap.{keys};
ghost use Rattle.std.specs.List.{list_all, list_any};
ghost use Rattle.std.specs.Str.{bytes_eq};
ghost use Rattle.toml.specs.Data.{get_member};
ghost use Rattle.toml.specs.View.{items_view, table_view, view};
ghost use Rattle.cpm_config.specs.Fields.{field_name};
ghost use Rattle.cpm_config.specs.Entries.{ReadsEntry, has_only, number_at, optional_text_at, optional_texts_at};
ghost use Rattle.cpm_config.specs.Entries.{or_wanted, result_map, text_at, texts_at, texts_of, texts_view};

use crate::fault::{DocumentStop, KeyFault};
use crate::field::{ConfigKey, Field};
use std::alloc::Global;
use toml::{Table, Value};

/// The keys of a session.
pub(crate) const SESSION_FIELDS: [Field; 13] = [
    Field::Name,
    Field::Cpu,
    Field::Quota,
    Field::Fork,
    Field::At,
    Field::From,
    Field::Steps,
    Field::Drives,
    Field::Console,
    Field::Keys,
    Field::List,
    Field::Out,
    Field::Save,
];

/// The keys at the top.
pub(crate) const TOP_FIELDS: [Field; 4] = [
    Field::Frames,
    Field::Quantum,
    Field::System,
    Field::Sessions,
];

/// The value at a key.
pub(crate) fn value_at<'a>(table: &'a Table, field: Field) -> Option<&'a Value>
    ensures { option_map (λ v. view v.now) result ≡ get_member (field_name field) (table_view table.now) }
{
    table.get(field.name())
}

/// The text at a key of the top or of a session.
pub(crate) fn text_at<'a>(table: &'a Table, session: u64, field: Field) -> Result<&'a str, KeyFault>
    ensures { result_map (λ s. s.now) result ≡ text_at session field (table_view table.now) }
{
    match value_at(table, field) {
        Some(Value::String(text)) => Ok(text.as_str()),
        _ => Err(KeyFault::Wanted(ConfigKey { session, field })),
    }
}

/// The number at a key.
pub(crate) fn number_at(table: &Table, session: u64, field: Field) -> Result<i64, KeyFault>
    ensures { result ≡ number_at session field (table_view table.now) }
{
    match value_at(table, field) {
        Some(Value::Integer(number)) => Ok(*number),
        _ => Err(KeyFault::Wanted(ConfigKey { session, field })),
    }
}

/// The text at a key that may be left out.
pub(crate) fn optional_text_at<'a>(
    table: &'a Table,
    session: u64,
    field: Field,
) -> Result<Option<&'a str>, KeyFault>
    ensures { result_map (λ o. option_map (λ s. s.now) o) result ≡ optional_text_at session field (table_view table.now) }
{
    match value_at(table, field) {
        Some(Value::String(text)) => Ok(Some(text.as_str())),
        Some(_) => Err(KeyFault::Wanted(ConfigKey { session, field })),
        None => Ok(None),
    }
}

/// Adds the texts of an array that holds nothing else to none yet. The owner is the caller, so that
/// no fault here has texts to drop.
fn add_texts<'a>(
    values: &'a [Value],
    place: ConfigKey,
    texts: &mut Vec<&'a str>,
) -> Result<(), DocumentStop>
    requires { texts.old.items ≡ [] }
    ensures { ReadsEntry (λ _. texts_view texts.new) result (or_wanted place (texts_of (items_view values.now))) }
{
    for value in values {
        let Some(text) = value.as_str() else {
            return Err(DocumentStop::Fault(KeyFault::Wanted(place)));
        };
        texts.push(text)?;
    }
    Ok(())
}

/// The texts of an array that holds nothing else.
fn texts_of<'a>(
    alloc: Global,
    values: &'a [Value],
    place: ConfigKey,
) -> Result<Vec<&'a str>, DocumentStop>
    ensures { ReadsEntry texts_view result (or_wanted place (texts_of (items_view values.now))) }
{
    let mut texts = Vec::new(alloc);
    add_texts(values, place, &mut texts)?;
    Ok(texts)
}

/// The texts of the array at a key.
pub(crate) fn texts_at<'a>(
    alloc: Global,
    table: &'a Table,
    session: u64,
    field: Field,
) -> Result<Vec<&'a str>, DocumentStop>
    ensures { ReadsEntry texts_view result (texts_at session field (table_view table.now)) }
{
    let place = ConfigKey { session, field };
    match value_at(table, field) {
        Some(Value::Array(array)) => texts_of(alloc, array.as_slice(), place),
        _ => Err(DocumentStop::Fault(KeyFault::Wanted(place))),
    }
}

/// The texts of the array at a key that may be left out.
pub(crate) fn optional_texts_at<'a>(
    alloc: Global,
    table: &'a Table,
    session: u64,
    field: Field,
) -> Result<Option<Vec<&'a str>>, DocumentStop>
    ensures { ReadsEntry (option_map texts_view) result (optional_texts_at session field (table_view table.now)) }
{
    match value_at(table, field) {
        Some(_) => Ok(Some(texts_at(alloc, table, session, field)?)),
        None => Ok(None),
    }
}

/// Whether a key is one of these.
pub(crate) fn is_one_of(key: &str, known: &[Field]) -> bool
    ensures { result ≡ list_any (λ f. bytes_eq key.now (field_name f)) known.now }
{
    known.iter().any(|field| key == field.name())
}

fn are_known(table: &Table, known: &[Field]) -> bool
    ensures { result ≡ list_all (λ k. list_any (λ f. bytes_eq (string_bytes k) (field_name f)) known.now) (keys table.now) }
{
    table.keys().all(|key| is_one_of(key.as_str(), known))
}

/// Whether a table has no key but these.
pub(crate) fn has_only(table: &Table, known: &[Field]) -> bool
    ensures { result ≡ has_only known.now (table_view table.now) }
{
    are_known(table, known)
}
