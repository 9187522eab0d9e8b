//! What is seen to of the files of a command before any of them is read.

use crate::bounds::{Bounds, FileRules};
use crate::files::{check_file, check_folder};
use crate::held::{HeldFiles, LockableFiles, hold_images};
use crate::marks::ReadMarks;
use crate::output::{Outputs, is_open_already, target_of};
use crate::place::{check_apart, check_pipes};
use crate::refused::{CommandRefusal, RefusalDetail};
use cpm_commands::{FilePlan, FileRole, OutputNaming, PlannedFile};
use cpm_host::{HostError, RunError, shown};
use std::alloc::AllocError;
use std::io::ErrorKind;
use std::rt::Files;
use std::{fs, io};

/// What was seen to: where the files may lie, and those that are held.
#[derive(Drop)]
pub struct SeenFiles {
    pub bounds: Bounds,
    pub held: HeldFiles,
    /// What those were that are read, where files are written into folders.
    pub marks: ReadMarks,
    pub naming: OutputNaming,
}

impl SeenFiles {
    /// Nothing yet: what is read before lies anywhere.
    pub fn none(rt: &impl AllocGlobal) -> SeenFiles {
        SeenFiles {
            bounds: Bounds::none(rt.alloc()),
            held: HeldFiles::none(rt.alloc()),
            marks: ReadMarks::none(rt.alloc()),
            naming: OutputNaming::Replaces,
        }
    }

    /// Sees to the files of a plan: first those that are written, in their order, and that none of them is another one or is read; then those that are read;
    /// at last it holds those that are read and written.
    pub fn of(
        rt: &impl LockableFiles,
        outputs: Outputs,
        rules: FileRules<'_>,
        plan: &FilePlan<'_>,
    ) -> Result<SeenFiles, CommandRefusal> {
        let bounds = rules.bounds(rt, plan)?;
        for file in &plan.outputs {
            bounds.check_output(rt, file.name)?;
            check_output(rt, outputs, *file, plan.naming)?;
        }
        check_apart(rt, plan)?;
        bounds.check_inputs(rt, &plan.inputs)?;
        check_pipes(rt, &plan.inputs, rules.is_typed_at)?;
        let held = hold_images(rt, plan, rules.waits_for_others)?;
        let marks = ReadMarks::of(rt, plan).map_err(|_| HostError::OutOfMemory)?;
        Ok(SeenFiles {
            bounds,
            held,
            marks,
            naming: plan.naming,
        })
    }

    /// What was seen to after it. What was held is held on, and what was read is known.
    pub fn add(&mut self, later: SeenFiles) -> Result<(), AllocError> {
        let SeenFiles {
            bounds,
            held,
            marks,
            naming,
        } = later;
        self.bounds = bounds;
        self.naming = naming;
        self.held.add(held)?;
        self.marks.add_all(marks)
    }
}

/// Fails where a file can't be written, or is there and is not to be replaced.
fn check_output(
    rt: &impl LockableFiles,
    outputs: Outputs,
    file: PlannedFile<'_>,
    naming: OutputNaming,
) -> Result<(), CommandRefusal> {
    if file.role == FileRole::Folder {
        return Ok(check_folder(rt, outputs, file.name)?);
    }
    if naming == OutputNaming::New {
        check_new(rt, file)?;
    }
    Ok(check_file(rt, outputs, file.name)?)
}

/// Refuses a file that is there. In the place of an image nothing may be, not a device either.
fn check_new(rt: &impl LockableFiles, file: PlannedFile<'_>) -> Result<(), CommandRefusal> {
    let name = file.name;
    if file.role == FileRole::Image {
        return if has_name(rt, name) {
            Err(CommandRefusal::from(HostError::FileUnwritable {
                name: shown(name),
                reason: io::Error::from(ErrorKind::AlreadyExists),
            }))
        } else {
            Ok(())
        };
    }
    if is_there(rt, name)? {
        return Err(CommandRefusal {
            error: HostError::from(RunError::WriteFault(shown(name))),
            behind: RefusalDetail::Present,
        });
    }
    Ok(())
}

/// Whether something has a name.
pub fn has_name(rt: &impl Files, name: &str) -> bool {
    fs::symlink_metadata(rt, name).is_ok()
}

/// Whether a path is of a file, whose bytes would be lost, or of a link to nothing. What is written to a pipe or a device replaces nothing.
fn is_there(rt: &(impl Files + AllocGlobal), path: &str) -> Result<bool, AllocError> {
    if !has_name(rt, path) {
        return Ok(false);
    }
    match target_of(rt, path) {
        Ok(target) if is_open_already(target.as_path().as_str()) => Ok(false),
        Ok(target) => match fs::metadata(rt, target.as_path()) {
            Ok(found) => Ok(found.is_file()),
            Err(_) => Ok(true),
        },
        Err(error) if error.kind() == ErrorKind::OutOfMemory => Err(AllocError),
        Err(_) => Ok(true),
    }
}
