//! Where the files of a run may lie: in the folders of `--within`, and its outputs with `--outputs-here` in the current one.

ghost use Rattle.std.specs.Prelude.{◌≡◌};

use crate::files::unreadable;
use crate::output::{is_open_already, target_of};
use crate::refused::{CommandRefusal, RefusalDetail};
use crate::stream::real_path;
use cpm_commands::{FilePlan, FileRole, PlannedFile};
use cpm_host::{HostError, ReadError, RunError, shown};
use std::alloc::{AllocError, Global};
use std::io::ErrorKind;
use std::path::{Path, PathBuf};
use std::rt::Files;
use std::{fs, io};

/// The name of the file in which an archive keeps what the program prints.
const REPORT: &str = "report";

/// Where a file lies.
#[derive(Clone, Copy, Debug, Drop)]
enum Location {
    /// In one of the folders.
    Inside,
    /// In none of them.
    Outside,
    /// In one of them, as a device, a pipe or a folder.
    NotRegular,
    /// In one of them as far as its path leads, which fails there.
    Lost(io::Error),
}

/// The folders in which the files of a run may lie, their links followed.
#[derive(Drop)]
pub struct Bounds {
    /// None where the files may lie anywhere.
    folders: Vec<PathBuf>,
}

/// The refusal of a file, with what is said of it.
fn refused(name: &str, is_output: bool, behind: RefusalDetail) -> CommandRefusal {
    let name = shown(name);
    let error = if is_output {
        RunError::WriteFault(name)
    } else {
        RunError::FileRefused(ReadError::File(name))
    };
    CommandRefusal {
        error: HostError::from(error),
        behind,
    }
}

/// The folder of a name, its links followed. It fails where it is none.
fn folder_at(rt: &(impl Files + AllocGlobal), name: &str) -> io::Result<PathBuf> {
    let path = fs::canonicalize(rt, name)?;
    if path.is_dir(rt) {
        Ok(path)
    } else {
        Err(io::Error::from(ErrorKind::NotADirectory))
    }
}

impl Bounds {
    /// None: the files may lie anywhere.
    pub fn none(alloc: Global) -> Bounds {
        Bounds {
            folders: Vec::new(alloc),
        }
    }

    /// Those of the folders of these names; where there is no name there are none.
    fn new(rt: &(impl Files + AllocGlobal), names: &[&str]) -> Result<Bounds, CommandRefusal> {
        let mut folders = Vec::new(rt.alloc());
        for name in names {
            match folder_at(rt, name) {
                Ok(folder) => folders.push(folder)?,
                Err(reason) => return Err(CommandRefusal::from(unreadable(name, reason))),
            }
        }
        Ok(Bounds { folders })
    }

    /// Whether a path without links leads into one of the folders.
    fn has(&self, path: Path<'_>) -> bool {
        self.folders
            .iter()
            .any(|folder| path.starts_with(folder.as_path()))
    }

    /// Where the file of a path lies, of which the last link was followed.
    fn find(
        &self,
        rt: &(impl Files + AllocGlobal),
        target: Path<'_>,
    ) -> Result<Location, AllocError> {
        match real_path(rt, target)? {
            Ok(path) if !self.has(path.as_path()) => Ok(Location::Outside),
            Ok(path) if path.is_file(rt) => Ok(Location::Inside),
            Ok(_) => Ok(Location::NotRegular),
            Err(reason) => self.find_missing(rt, target, reason),
        }
    }

    /// Where a file would lie that can't be looked up, for this reason: where its folder does, if that is there.
    fn find_missing(
        &self,
        rt: &(impl Files + AllocGlobal),
        target: Path<'_>,
        reason: io::Error,
    ) -> Result<Location, AllocError> {
        if reason.kind() != ErrorKind::NotFound || target.file_name().is_none() {
            return self.find_lost(rt, target, reason);
        }
        match real_path(rt, target.parent().unwrap_or(target))? {
            Ok(folder) if self.has(folder.as_path()) => Ok(Location::Inside),
            Ok(_) => Ok(Location::Outside),
            Err(_) => self.find_lost(rt, target, reason),
        }
    }

    /// Where a path leads, as far as it leads, of which this is the reason that it leads nowhere.
    fn find_lost(
        &self,
        rt: &(impl Files + AllocGlobal),
        target: Path<'_>,
        reason: io::Error,
    ) -> Result<Location, AllocError> {
        for folder in target.ancestors() {
            if let Ok(path) = real_path(rt, folder)? {
                let is_inside = self.has(path.as_path());
                return Ok(if is_inside {
                    Location::Lost(reason)
                } else {
                    Location::Outside
                });
            }
        }
        Ok(Location::Outside)
    }

    /// Where the file of a name lies, its links followed. What the process has open lies in no folder.
    fn locate(&self, rt: &(impl Files + AllocGlobal), name: &str) -> Result<Location, AllocError> {
        if self.folders.is_empty() {
            return Ok(Location::Inside);
        }
        match target_of(rt, name) {
            Ok(target) if is_open_already(target.as_path().as_str()) => Ok(Location::Outside),
            Ok(target) => self.find(rt, target.as_path()),
            Err(error) if error.kind() == ErrorKind::OutOfMemory => Err(AllocError),
            Err(_) => Ok(Location::Outside),
        }
    }

    /// Refuses a file that doesn't lie in one of the folders.
    fn check(
        &self,
        rt: &(impl Files + AllocGlobal),
        name: &str,
        is_output: bool,
    ) -> Result<(), CommandRefusal> {
        let behind = match self.locate(rt, name)? {
            Location::Inside => return Ok(()),
            Location::Outside => RefusalDetail::Outside,
            Location::NotRegular => RefusalDetail::NotRegular,
            Location::Lost(reason) => RefusalDetail::Reason(reason),
        };
        Err(refused(name, is_output, behind))
    }

    /// Refuses an output that doesn't lie in one of the folders.
    pub fn check_output(
        &self,
        rt: &(impl Files + AllocGlobal),
        name: &str,
    ) -> Result<(), CommandRefusal> {
        self.check(rt, name, true)
    }

    /// Refuses inputs of which one doesn't lie in one of the folders. The configuration may lie anywhere.
    pub fn check_inputs(
        &self,
        rt: &(impl Files + AllocGlobal),
        inputs: &[PlannedFile<'_>],
    ) -> Result<(), CommandRefusal> {
        for file in inputs {
            if file.role != FileRole::Configuration {
                self.check(rt, file.name, false)?;
            }
        }
        Ok(())
    }

    /// Fails where the file of a name doesn't lie in one of the folders any more.
    pub fn admit(&self, rt: &(impl Files + AllocGlobal), name: &str) -> io::Result<()> {
        match self.locate(rt, name)? {
            Location::Inside => Ok(()),
            Location::Lost(reason) => Err(reason),
            Location::Outside | Location::NotRegular => {
                Err(io::Error::from(ErrorKind::PermissionDenied))
            }
        }
    }
}

/// Whether a name is of a file in the current folder, none that is hidden, and not the one that an archive has there, in capitals either.
fn is_plain(name: &str) -> bool {
    !name.is_empty()
        && !name.contains('/')
        && !name.starts_with('.')
        && !name.eq_ignore_ascii_case(REPORT)
}

/// Where the files of a command may lie, as its words say.
#[derive(Clone, Copy, Debug, Drop)]
pub struct FileRules<'a> {
    /// The folders that they may lie in, all where there is none.
    pub folders: &'a [&'a str],
    /// Whether the names of outputs are plain names of files in the current folder.
    pub has_outputs_here: bool,
    /// The folder that the scripts of sessions go to.
    pub scripts: Option<&'a str>,
    /// Whether keys are typed on standard input.
    pub is_typed_at: bool,
    /// Whether a file that another command holds is waited for.
    pub waits_for_others: bool,
}

impl FileRules<'_> {
    /// None: the files may lie anywhere.
    pub fn none() -> FileRules<'static> {
        FileRules {
            folders: &[],
            has_outputs_here: false,
            scripts: None,
            is_typed_at: false,
            waits_for_others: true,
        }
    }

    /// The files lie in these folders, all where there is none, and no other command is waited for.
    pub fn of_service<'a>(folders: &'a [&'a str]) -> FileRules<'a> {
        FileRules {
            folders,
            has_outputs_here: false,
            scripts: None,
            is_typed_at: false,
            waits_for_others: false,
        }
    }

    /// The files may lie anywhere, where keys are typed on standard input or not.
    pub fn of_program(is_typed_at: bool) -> FileRules<'static> {
        FileRules {
            is_typed_at,
            ..FileRules::none()
        }
    }

    /// Refuses outputs of which one has a name that is not plain, or scripts that would go to another folder than the current one.
    fn check_plain(self, outputs: &[PlannedFile<'_>]) -> Result<(), CommandRefusal> {
        if !self.has_outputs_here {
            return Ok(());
        }
        for file in outputs {
            if file.role != FileRole::Script && !is_plain(file.name) {
                return Err(refused(file.name, true, RefusalDetail::NotPlain));
            }
        }
        match self.scripts {
            Some(folder) if folder != "." => Err(refused(folder, true, RefusalDetail::NotPlain)),
            _ => Ok(()),
        }
    }

    /// Refuses scripts that would go to a folder with no name.
    fn check_scripts(self) -> Result<(), HostError> {
        if self.scripts != Some("") {
            return Ok(());
        }
        Err(HostError::FileUnwritable {
            name: shown(""),
            reason: io::Error::new(
                ErrorKind::InvalidInput,
                "no folder has an empty name; the current one is '.'",
            ),
        })
    }

    /// The folders in which the files of a plan may lie, of which an output has a name that breaks no rule. No file is looked at.
    pub fn bounds(
        self,
        rt: &(impl Files + AllocGlobal),
        plan: &FilePlan<'_>,
    ) -> Result<Bounds, CommandRefusal> {
        self.check_plain(&plan.outputs)?;
        self.check_scripts()?;
        Bounds::new(rt, self.folders)
    }
}
