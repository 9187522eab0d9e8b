//! The files in a folder of the machine.

use std::alloc::Global;
use std::io::ErrorKind;
use std::path::Path;
use std::rt::Files;
use std::{fs, io};

/// What stands for a name that no text can be.
const NO_TEXT: &str = "\u{FFFD}";

/// Whether a path is of a file, its links followed. What can't be looked at is taken for one, so that it is refused where it is read.
fn is_file(rt: &impl Files, path: Path<'_>) -> bool {
    match fs::metadata(rt, path) {
        Ok(found) => found.is_file(),
        Err(_) => true,
    }
}

/// The names of the files in a folder, in their order. A link is followed. Other folders in it aren't among them, nor pipes and devices, nor what is hidden:
/// a name that begins with a dot.
pub fn names_in<R: Files + AllocGlobal + Clone + Drop>(
    rt: &R,
    alloc: Global,
    folder: &str,
) -> io::Result<Vec<String>> {
    let mut names = Vec::new(alloc);
    for found in fs::read_dir(rt, folder)? {
        match found {
            Ok(entry) => {
                let name = entry.file_name();
                if !name.starts_with('.') && is_file(rt, entry.path()) {
                    names.push(String::from_str(alloc, name)?)?;
                }
            }
            Err(error) if error.kind() == ErrorKind::InvalidFilename => {
                names.push(String::from_str(alloc, NO_TEXT)?)?;
            }
            Err(error) => return Err(error),
        }
    }
    names.sort_unstable();
    Ok(names)
}
