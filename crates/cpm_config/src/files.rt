//! The files that a session writes, in one list.
ghost use Rattle.std.specs.Prelude.{◌≡◌, ◌++◌, ◌∷◌, [], IfOk, OnOk, map, option_map, string_bytes};
ghost use Rattle.cpm_config.specs.Files.{all_named, all_named_if_any, file_view, named_output_at, named_if_any, output_files};
ghost use Rattle.cpm_config.specs.Rules.{session_view, texts_of_strings};

use crate::config::SessionConfig;
use crate::field::Field;
use std::alloc::{AllocError, Global};

/// A file that a session writes.
#[derive(Clone, Copy, Drop)]
pub struct SessionFile<'a> {
    /// The key that names it: `Console`, `List`, `Out` or `Save`.
    pub key: Field,
    pub name: &'a str,
}

/// Adds a file.
fn add<'a>(files: &mut Vec<SessionFile<'a>>, key: Field, name: &'a str) -> Result<(), AllocError>
    ensures { OnOk result (map file_view files.new.items ≡ map file_view files.old.items ++ named_output_at key name.now ∷ []) }
{
    files.push(SessionFile { key, name })?;
    Ok(())
}

/// Adds a file that may be left out.
fn add_if_any<'a>(
    files: &mut Vec<SessionFile<'a>>,
    key: Field,
    name: Option<&'a str>,
) -> Result<(), AllocError>
    ensures { OnOk result (map file_view files.new.items
        ≡ map file_view files.old.items ++ named_if_any key (option_map (λ n. n.now) name.entry)) }
{
    match name {
        Some(name) => add(files, key, name),
        None => Ok(()),
    }
}

/// Adds files that are named at one key.
fn add_all<'a>(
    files: &mut Vec<SessionFile<'a>>,
    key: Field,
    names: &'a [String],
) -> Result<(), AllocError>
    ensures { OnOk result (map file_view files.new.items ≡ map file_view files.old.items ++ all_named key (map string_bytes names.entry.now)) }
{
    for name in names {
        add(files, key, name.as_str())?;
    }
    Ok(())
}

/// Adds files that may be left out.
fn add_all_if_any<'a>(
    files: &mut Vec<SessionFile<'a>>,
    key: Field,
    names: &'a Option<Vec<String>>,
) -> Result<(), AllocError>
    ensures { OnOk result (map file_view files.new.items
        ≡ map file_view files.old.items ++ all_named_if_any key (option_map texts_of_strings names.entry.now)) }
{
    match names {
        Some(names) => add_all(files, key, names.as_slice()),
        None => Ok(()),
    }
}

impl SessionConfig {
    /// The files that the session writes, in this order: the text of its console, that of its list device, its drives and its saving, as far as files are
    /// named for them.
    pub fn output_files<'a>(&'a self, alloc: Global) -> Result<Vec<SessionFile<'a>>, AllocError>
        ensures { IfOk result (λ files. map file_view files.items ≡ output_files (session_view self.entry.now)) }
    {
        let mut files = Vec::new(alloc);
        add(&mut files, Field::Console, self.console.as_str())?;
        add_if_any(&mut files, Field::List, self.list.as_deref())?;
        add_all_if_any(&mut files, Field::Out, &self.out)?;
        add_if_any(&mut files, Field::Save, self.save.as_deref())?;
        Ok(files)
    }
}
