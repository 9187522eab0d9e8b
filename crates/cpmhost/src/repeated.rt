//! Files that several inputs of a command name: each is read once, so that all of them have the same bytes.

use cpm_commands::{FileRole, PlannedFile};
use std::alloc::{AllocError, Global};

/// A file that several inputs name.
#[derive(Drop)]
struct RepeatedFile {
    name: String,
    /// How many of them are still to be read.
    left: usize,
    /// Its bytes, once it was read, until the last of them has them.
    bytes: Option<Vec<u8>>,
}

/// The files that several inputs of a command name.
#[derive(Drop)]
pub struct RepeatedFiles(Vec<RepeatedFile>);

impl RepeatedFiles {
    /// None.
    pub fn none(alloc: Global) -> RepeatedFiles {
        RepeatedFiles(Vec::new(alloc))
    }

    /// Those of these inputs, but for the configuration, which was read before.
    pub fn of(alloc: Global, inputs: &[PlannedFile<'_>]) -> Result<RepeatedFiles, AllocError> {
        let mut repeated = RepeatedFiles::none(alloc);
        for file in inputs {
            let uses = uses_of(inputs, file.name);
            if uses > 1 && repeated.place_of(file.name).is_none() {
                repeated.0.push(RepeatedFile {
                    name: String::from_str(alloc, file.name)?,
                    left: uses,
                    bytes: None,
                })?;
            }
        }
        Ok(repeated)
    }

    /// Where the file of a name stands.
    fn place_of(&self, name: &str) -> Option<usize> {
        self.0.iter().position(|file| file.name.as_str() == name)
    }

    /// The bytes of a file that was read before: a copy, but to the last input that names it.
    pub fn give(&mut self, alloc: Global, name: &str) -> Result<Option<Vec<u8>>, AllocError> {
        let Some(place) = self.place_of(name) else {
            return Ok(None);
        };
        let Some(file) = self.0.get_mut(place) else {
            return Ok(None);
        };
        if file.left <= 1 {
            return Ok(file.bytes.take());
        }
        let Some(bytes) = &file.bytes else {
            return Ok(None);
        };
        let copy = copy_of(alloc, bytes.as_slice())?;
        file.left = file.left.saturating_sub(1);
        Ok(Some(copy))
    }

    /// Keeps the bytes of a file that was read, if others name it.
    pub fn keep(&mut self, alloc: Global, name: &str, bytes: &[u8]) -> Result<(), AllocError> {
        let Some(place) = self.place_of(name) else {
            return Ok(());
        };
        let copy = copy_of(alloc, bytes)?;
        if let Some(file) = self.0.get_mut(place) {
            file.left = file.left.saturating_sub(1);
            file.bytes = Some(copy);
        }
        Ok(())
    }
}

/// How many inputs name this file.
fn uses_of(inputs: &[PlannedFile<'_>], name: &str) -> usize {
    inputs
        .iter()
        .filter(|file| file.role != FileRole::Configuration && file.name == name)
        .count()
}

/// These bytes once more.
fn copy_of(alloc: Global, bytes: &[u8]) -> Result<Vec<u8>, AllocError> {
    let mut copy = Vec::new(alloc);
    copy.extend_from_slice(bytes)?;
    Ok(copy)
}
