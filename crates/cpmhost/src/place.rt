//! Which file of the machine a name is of, by whatever spelling or link.

use crate::files::{found_of_input, unwritable};
use crate::output::target_of;
use crate::refused::{CommandRefusal, RefusalDetail};
use cpm_commands::{FilePlan, FileRole, PlannedFile};
use cpm_disk_commands::name_of;
use cpm_host::{HostError, ReadError, RunError, shown};
use std::io::ErrorKind;
use std::os::unix::fs::{FileTypeExt, MetadataExt};
use std::path::Path;
use std::rt::Files;
use std::{fs, io};

/// Where a file lies: names with one place are of one file.
#[derive(PartialEq, Eq, Drop)]
pub struct FileIdentity {
    device: u64,
    node: u64,
    /// Of a file that isn't there yet, its name in the folder that the numbers are of.
    name: Option<String>,
}

impl FileIdentity {
    /// Whether it is of a name in the folder that has this place, and of one that a file of CP/M may have there.
    fn is_in(&self, folder: &FileIdentity) -> bool {
        let Some(name) = &self.name else {
            return false;
        };
        folder.name.is_none()
            && (self.device, self.node) == (folder.device, folder.node)
            && name_of(name.as_str()).is_some()
    }
}

/// The place of a file that isn't there yet, if its folder is. It fails where that can't be looked at.
fn place_in_folder(
    rt: &(impl Files + AllocGlobal),
    target: Path<'_>,
) -> io::Result<Option<FileIdentity>> {
    let (Some(folder), Some(name)) = (target.parent(), target.file_name()) else {
        return Ok(None);
    };
    let folder = match folder.as_str() {
        "" => Path::new("."),
        _ => folder,
    };
    let found = match fs::metadata(rt, folder) {
        Ok(found) => found,
        Err(error) if error.kind() == ErrorKind::NotFound => return Ok(None),
        Err(error) => return Err(error),
    };
    Ok(Some(FileIdentity {
        device: found.dev(),
        node: found.ino(),
        name: Some(String::from_str(rt.alloc(), name)?),
    }))
}

/// The place of a name in its folder, its links followed, whatever has it.
pub fn place_by_folder(
    rt: &(impl Files + AllocGlobal),
    name: &str,
) -> io::Result<Option<FileIdentity>> {
    let target = target_of(rt, name)?;
    place_in_folder(rt, target.as_path())
}

/// The place of the file of a name, or of a folder that files are written into. None of what is no file of its own, as a pipe or a device, and of what has no
/// folder. It fails where the file can't be looked at.
fn place_of(
    rt: &(impl Files + AllocGlobal),
    file: PlannedFile<'_>,
) -> io::Result<Option<FileIdentity>> {
    let target = target_of(rt, file.name)?;
    let is_folder = file.role == FileRole::Folder;
    match fs::metadata(rt, target.as_path()) {
        Ok(found) if found.is_file() || (is_folder && found.is_dir()) => Ok(Some(FileIdentity {
            device: found.dev(),
            node: found.ino(),
            name: None,
        })),
        Err(error) if error.kind() == ErrorKind::NotFound => {
            place_in_folder(rt, target.as_path())
        }
        Ok(_) => Ok(None),
        Err(error) => Err(error),
    }
}

/// A file that a command names, and where it lies.
#[derive(Drop)]
struct FoundFile<'a> {
    file: PlannedFile<'a>,
    place: FileIdentity,
}

/// Whether a file may be written where this one was read: an image over an image, and a saved machine over a saved machine.
fn may_replace(output: PlannedFile<'_>, input: PlannedFile<'_>) -> bool {
    matches!(output.role, FileRole::Image | FileRole::Saving) && output.role == input.role
}

/// The files of a plan that were looked at so far.
#[derive(Drop)]
struct FoundFiles<'a> {
    inputs: Vec<FoundFile<'a>>,
    outputs: Vec<FoundFile<'a>>,
}

impl<'a> FoundFiles<'a> {
    fn add_input(
        &mut self,
        rt: &(impl Files + AllocGlobal),
        file: PlannedFile<'a>,
    ) -> Result<(), CommandRefusal> {
        if let Some(place) = found_of_input(rt, file.name, place_of(rt, file))? {
            self.inputs.push(FoundFile { file, place })?;
        }
        Ok(())
    }

    /// Refuses an output that is an output before it, or an input; but an image may take the place of one that was read, and so may a saved machine.
    fn add_output(
        &mut self,
        rt: &(impl Files + AllocGlobal),
        file: PlannedFile<'a>,
    ) -> Result<(), CommandRefusal> {
        let name = file.name;
        let place = place_of(rt, file).map_err(|reason| unwritable(name, reason))?;
        if let Some(place) = place {
            self.check_new(&place, file)?;
            self.outputs.push(FoundFile { file, place })?;
        }
        Ok(())
    }

    /// Refuses an output at a place that is an output before it, or an input which it may not replace.
    fn check_new(&self, place: &FileIdentity, file: PlannedFile<'a>) -> Result<(), CommandRefusal> {
        if let Some(other) = self.outputs.iter().find(|other| other.place == *place) {
            let name = other.file.name;
            return Err(twin(name, RefusalDetail::Output(shown(file.name))));
        }
        for input in &self.inputs {
            if input.place == *place && !may_replace(file, input.file) {
                let name = input.file.name;
                return Err(twin(file.name, RefusalDetail::Input(shown(name))));
            }
        }
        Ok(())
    }

    /// Refuses an output in a folder that files are written into: whoever made one of its name there would lose all in the end.
    fn check_folders(&self, rt: &(impl Files + AllocGlobal)) -> Result<(), CommandRefusal> {
        for folder in &self.outputs {
            if folder.file.role == FileRole::Folder {
                self.check_folder(rt, &folder.place)?;
            }
        }
        Ok(())
    }

    /// Refuses an output in the folder at this place.
    fn check_folder(
        &self,
        rt: &(impl Files + AllocGlobal),
        folder: &FileIdentity,
    ) -> Result<(), CommandRefusal> {
        for output in &self.outputs {
            let name = output.file.name;
            let place = place_by_folder(rt, name).map_err(|reason| unwritable(name, reason))?;
            if let Some(place) = place
                && output.file.role != FileRole::Folder
                && place.is_in(folder)
            {
                return Err(twin(name, RefusalDetail::InFolder));
            }
        }
        Ok(())
    }
}

/// The refusal of an output that is another file too, or may become one.
fn twin(name: &str, behind: RefusalDetail) -> CommandRefusal {
    CommandRefusal {
        error: HostError::from(RunError::WriteFault(shown(name))),
        behind,
    }
}

/// The name of standard input.
const STANDARD_INPUT: &str = "/dev/stdin";

/// A pipe that is read, by its numbers.
#[derive(Clone, Copy, Debug, PartialEq, Eq, Drop)]
struct PipeIdentity {
    device: u64,
    node: u64,
}

/// The pipe that a name is of, if it is of one.
fn pipe_of(rt: &impl Files, name: &str) -> Option<PipeIdentity> {
    match fs::metadata(rt, name) {
        Ok(found) if found.file_type().is_fifo() => Some(PipeIdentity {
            device: found.dev(),
            node: found.ino(),
        }),
        _ => None,
    }
}

/// The refusal of an input that is a pipe which something else reads.
fn shared_pipe(name: &str, behind: RefusalDetail) -> CommandRefusal {
    CommandRefusal {
        error: HostError::from(RunError::FileRefused(ReadError::File(shown(name)))),
        behind,
    }
}

/// Refuses inputs of which two are one pipe, which gives its bytes only once; and one that is standard input, where keys are typed on that.
pub fn check_pipes(
    rt: &(impl Files + AllocGlobal),
    inputs: &[PlannedFile<'_>],
    is_typed_at: bool,
) -> Result<(), CommandRefusal> {
    let keys = match is_typed_at {
        true => pipe_of(rt, STANDARD_INPUT),
        false => None,
    };
    let mut pipes: Vec<PipeIdentity> = Vec::new(rt.alloc());
    for file in inputs {
        if let Some(pipe) = pipe_of(rt, file.name) {
            if keys == Some(pipe) {
                return Err(shared_pipe(file.name, RefusalDetail::TypedOn));
            }
            if pipes.contains(&pipe) {
                return Err(shared_pipe(file.name, RefusalDetail::NamedTwice));
            }
            pipes.push(pipe)?;
        }
    }
    Ok(())
}

/// Refuses a plan by which one file would be written twice, or over what is read, under whatever names; and one by which a file would be written twice if
/// one of its name were written into a folder. An image may be written where one was read.
pub fn check_apart(
    rt: &(impl Files + AllocGlobal),
    plan: &FilePlan<'_>,
) -> Result<(), CommandRefusal> {
    let mut found = FoundFiles {
        inputs: Vec::new(rt.alloc()),
        outputs: Vec::new(rt.alloc()),
    };
    for file in &plan.inputs {
        found.add_input(rt, *file)?;
    }
    for file in &plan.outputs {
        found.add_output(rt, *file)?;
    }
    found.check_folders(rt)
}
