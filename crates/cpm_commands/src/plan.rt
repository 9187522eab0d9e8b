//! The files that a command names: those that it reads, and those that it writes.
ghost use Rattle.std.specs.Prelude.{◌≡◌, ◌++◌, ◌∷◌, [], OnOk, map, option_map, string_bytes};
ghost use Rattle.cpm_commands.specs.Plan.{all_planned, named_files, plan_view, planned, planned_if_any};

use std::alloc::{AllocError, Global};

/// How a file that is written takes its name.
#[derive(Clone, Copy, Drop)]
pub enum OutputNaming {
    /// It replaces what has the name.
    Replaces,
    /// It replaces what has the name, and nobody can execute it.
    ReplacesPlain,
    /// Nothing has the name yet.
    New,
}

/// What a file is that a command names.
#[derive(Clone, Copy, Drop)]
pub enum FileRole {
    /// The configuration of a run, which was read before, wherever it lies.
    Configuration,
    /// The image of a drive, which may be written where one was read.
    Image,
    /// A saved machine, which may be written where one was read.
    Saving,
    /// A key script in the folder that a run writes its scripts to.
    Script,
    /// A folder that files are written into.
    Folder,
    /// Any other.
    Plain,
}

/// A file that a command names.
#[derive(Clone, Copy, Drop)]
pub struct PlannedFile<'a> {
    pub name: &'a str,
    pub role: FileRole,
}

/// The files that a command reads and writes, each in its order.
#[derive(Drop)]
pub struct FilePlan<'a> {
    pub inputs: Vec<PlannedFile<'a>>,
    pub outputs: Vec<PlannedFile<'a>>,
    /// How its outputs take their names.
    pub naming: OutputNaming,
}

impl<'a> FilePlan<'a> {
    /// No file.
    pub fn new(alloc: Global, naming: OutputNaming) -> FilePlan<'a>
        ensures { plan_view result ≡ record { inputs = []; outputs = []; naming = naming } }
    {
        FilePlan {
            inputs: Vec::new(alloc),
            outputs: Vec::new(alloc),
            naming,
        }
    }

    /// One more file that is read.
    pub fn add_input(&mut self, name: &'a str, role: FileRole) -> Result<(), AllocError>
        ensures { OnOk result (plan_view self.new
            ≡ record (plan_view self.old) { inputs = (plan_view self.old).inputs ++ planned name.now role ∷ [] }) }
    {
        self.inputs.push(PlannedFile { name, role })?;
        Ok(())
    }

    /// One more file that is written.
    pub fn add_output(&mut self, name: &'a str, role: FileRole) -> Result<(), AllocError>
        ensures { OnOk result (plan_view self.new
            ≡ record (plan_view self.old) { outputs = (plan_view self.old).outputs ++ planned name.now role ∷ [] }) }
    {
        self.outputs.push(PlannedFile { name, role })?;
        Ok(())
    }
}

/// Adds a file.
pub fn add_file<'a>(
    files: &mut Vec<PlannedFile<'a>>,
    name: &'a str,
    role: FileRole,
) -> Result<(), AllocError>
    ensures { OnOk result (named_files files.new.items ≡ named_files files.old.items ++ planned name.now role ∷ []) }
{
    files.push(PlannedFile { name, role })?;
    Ok(())
}

/// Adds the file of a name, if there is one.
pub fn add_if_any<'a>(
    files: &mut Vec<PlannedFile<'a>>,
    name: Option<&'a str>,
    role: FileRole,
) -> Result<(), AllocError>
    ensures { OnOk result (named_files files.new.items ≡ named_files files.old.items ++ planned_if_any role (option_map (λ n. n.now) name.entry)) }
{
    match name {
        Some(name) => add_file(files, name, role),
        None => Ok(()),
    }
}

/// Adds the files of these names.
pub fn add_all<'a>(
    files: &mut Vec<PlannedFile<'a>>,
    names: &[&'a str],
    role: FileRole,
) -> Result<(), AllocError>
    ensures { OnOk result (named_files files.new.items ≡ named_files files.old.items ++ all_planned role (map (λ n. n.now) names.now)) }
{
    for name in names {
        add_file(files, name, role)?;
    }
    Ok(())
}

/// The same of owned names.
pub fn add_strings<'a>(
    files: &mut Vec<PlannedFile<'a>>,
    names: &'a [String],
    role: FileRole,
) -> Result<(), AllocError>
    ensures { OnOk result (named_files files.new.items ≡ named_files files.old.items ++ all_planned role (map string_bytes names.entry.now)) }
{
    for name in names {
        add_file(files, name.as_str(), role)?;
    }
    Ok(())
}
