//! What the files were that a command has read before it writes into folders: one of them is replaced only where it still is what was read.

use crate::held::Mark;
use crate::place::{FileIdentity, place_by_folder};
use cpm_commands::{FilePlan, FileRole};
use std::alloc::{AllocError, Global};
use std::io;
use std::io::ErrorKind;
use std::rt::Files;

/// A file that is read: where it lies, and what it was before.
#[derive(Drop)]
struct MarkedFile {
    place: FileIdentity,
    mark: Mark,
}

/// The files that a command reads.
#[derive(Drop)]
pub struct ReadMarks(Vec<MarkedFile>);

/// What was found, if that is known. It fails only where memory is refused: what can't be looked at is refused where it is read or written.
fn known<T: Drop>(looked: io::Result<T>) -> io::Result<Option<T>> {
    match looked {
        Ok(found) => Ok(Some(found)),
        Err(error) if error.kind() == ErrorKind::OutOfMemory => Err(error),
        Err(_) => Ok(None),
    }
}

impl ReadMarks {
    /// None.
    pub fn none(alloc: Global) -> ReadMarks {
        ReadMarks(Vec::new(alloc))
    }

    /// Those of a plan, where it writes into folders. Else there are none, since what is read and written is held then.
    pub fn of(rt: &(impl Files + AllocGlobal), plan: &FilePlan<'_>) -> io::Result<ReadMarks> {
        let mut marks = ReadMarks::none(rt.alloc());
        if plan
            .outputs
            .iter()
            .any(|file| file.role == FileRole::Folder)
        {
            for file in &plan.inputs {
                marks.add(rt, file.name)?;
            }
        }
        Ok(marks)
    }

    /// One more file that is read.
    fn add(&mut self, rt: &(impl Files + AllocGlobal), name: &str) -> io::Result<()> {
        let place = known(place_by_folder(rt, name))?;
        let mark = known(Mark::at(rt, name))?;
        if let (Some(Some(place)), Some(mark)) = (place, mark) {
            self.0.push(MarkedFile { place, mark })?;
        }
        Ok(())
    }

    /// Those of others too.
    pub fn add_all(&mut self, others: ReadMarks) -> Result<(), AllocError> {
        for file in others.0 {
            self.0.push(file)?;
        }
        Ok(())
    }

    /// What the file of a name was before it was read, if it was.
    pub fn mark_of(&self, rt: &(impl Files + AllocGlobal), name: &str) -> io::Result<Option<Mark>> {
        let Some(Some(place)) = known(place_by_folder(rt, name))? else {
            return Ok(None);
        };
        match self.0.iter().find(|file| file.place == place) {
            Some(file) => Ok(Some(file.mark)),
            None => Ok(None),
        }
    }
}
