//! A folder of the host as a disk.

use crate::disk_commands::DiskCommands;
use crate::files::named;
use crate::names::text_of;
use crate::not_done::NotDone;
use cpm_disk_commands::{FolderNames, HostFile, names_of_folder};
use std::alloc::{AllocError, Global};
use test_language::{RowAnswer, RowFault, Word, bytes_of};

/// `folder NAME..`: the files of a disk that these names of a folder become, and those that are left out.
pub fn folder(alloc: Global, arguments: &[Word<'_>]) -> Result<RowAnswer, RowFault> {
    let mut names = Vec::new(alloc);
    for name in arguments {
        names.push(text_of(alloc, *name)?)?;
    }
    let mut out = String::new(alloc);
    write_names(&mut out, &names_of_folder(alloc, names.as_slice())?)?;
    RowAnswer::bytes(alloc, out.as_bytes())
}

/// Adds a line for each name: the file that it becomes, or that it is left out.
fn write_names(out: &mut String, names: &FolderNames<'_>) -> Result<(), AllocError> {
    for kept in &names.kept {
        writeln!(out, "{} is {}", kept.name, named(&kept.file))?;
    }
    for name in &names.left_out {
        writeln!(out, "{name} is left out")?;
    }
    Ok(())
}

impl DiskCommands {
    /// `host-files BYTES NAME..`: a folder has files of the user with these names, each of these bytes.
    pub(crate) fn add_host_files(
        &mut self,
        alloc: Global,
        arguments: &[Word<'_>],
    ) -> Result<RowAnswer, NotDone> {
        let [bytes, names @ ..] = arguments else {
            return Err(NotDone::Fault(RowFault::Words));
        };
        for name in names {
            let file = self.file(alloc, *name)?;
            let bytes = bytes_of(alloc, [*bytes].as_slice())?;
            self.host_files.push(HostFile { file, bytes })?;
        }
        Ok(RowAnswer::Done)
    }
}
