//! Names that a configuration may have once only.
ghost use Rattle.std.specs.Prelude.{◌≡◌, ◌++◌, ◌∷◌, [], IfOk, OnOk, map};
ghost use Rattle.std.specs.List.{list_any};
ghost use Rattle.std.specs.Str.{bytes_eq};
ghost use Rattle.cpm_config.specs.Entries.{config_key};
ghost use Rattle.cpm_config.specs.Rules.{config_view, file_names_of, file_names_of_all, name_placed, repeated, session_names, session_view, twice_fault};

use crate::config::{Config, SessionConfig};
use crate::field::{ConfigKey, Field};
use std::alloc::{AllocError, Global};

/// A name, and where it stands.
#[derive(Drop)]
pub(crate) struct NameUse<'a> {
    pub(crate) place: ConfigKey,
    pub(crate) name: &'a str,
}

/// Adds a name.
fn add<'a>(
    names: &mut Vec<NameUse<'a>>,
    session: u64,
    field: Field,
    name: &'a str,
) -> Result<(), AllocError>
    ensures { OnOk result (map name_placed names.new.items ≡ map name_placed names.old.items ++ (config_key session field, name.now) ∷ []) }
{
    let place = ConfigKey { session, field };
    names.push(NameUse { place, name })?;
    Ok(())
}

/// Adds the files that a session writes.
fn add_files<'a>(
    alloc: Global,
    names: &mut Vec<NameUse<'a>>,
    number: u64,
    session: &'a SessionConfig,
) -> Result<(), AllocError>
    ensures { OnOk result (map name_placed names.new.items ≡ map name_placed names.old.items ++ file_names_of number (session_view session.entry.now)) }
{
    let files = session.output_files(alloc)?;
    for file in files.as_slice() {
        add(names, number, file.key, file.name)?;
    }
    Ok(())
}

/// The names of the sessions.
fn session_names<'a>(
    alloc: Global,
    sessions: &'a [SessionConfig],
) -> Result<Vec<NameUse<'a>>, AllocError>
    ensures { IfOk result (λ v. map name_placed v.items ≡ session_names 1 (map session_view sessions.entry.now)) }
{
    let mut names = Vec::new(alloc);
    let mut number: u64 = 0;
    for session in sessions {
        number += 1;
        add(&mut names, number, Field::Name, session.name.as_str())?;
    }
    Ok(names)
}

/// The files that the sessions write.
fn file_names_of_all<'a>(
    alloc: Global,
    sessions: &'a [SessionConfig],
) -> Result<Vec<NameUse<'a>>, AllocError>
    ensures { IfOk result (λ v. map name_placed v.items ≡ file_names_of_all 1 (map session_view sessions.entry.now)) }
{
    let mut names = Vec::new(alloc);
    let mut number: u64 = 0;
    for session in sessions {
        number += 1;
        add_files(alloc, &mut names, number, session)?;
    }
    Ok(names)
}

fn is_among(names: &[NameUse<'_>], name: &str) -> bool
    ensures { result ≡ list_any (λ n. bytes_eq n.name.now name.now) names.now }
{
    names.iter().any(|named| named.name == name)
}

/// The place of the first name that stands before.
fn repeated(names: &[NameUse<'_>]) -> Option<ConfigKey>
    ensures { result ≡ repeated (map name_placed names.now) }
{
    let mut count = 0;
    for named in names {
        if is_among(&names[..count], named.name) {
            return Some(named.place);
        }
        count += 1;
    }
    None
}

/// The place of the first session with the name of an earlier one, else of the first file that would
/// be written twice.
pub(crate) fn twice_fault(alloc: Global, config: &Config) -> Result<Option<ConfigKey>, AllocError>
    ensures { IfOk result (λ p. p ≡ twice_fault (config_view config.now)) }
{
    let sessions = config.sessions.as_slice();
    let names = session_names(alloc, sessions)?;
    if let Some(place) = repeated(names.as_slice()) {
        return Ok(Some(place));
    }
    let files = file_names_of_all(alloc, sessions)?;
    Ok(repeated(files.as_slice()))
}
