//! The calls on the files of a disk.

ghost use Rattle.std.specs.Prelude.{◌≡◌, IfOk};

use crate::CallOutcome;
use cpm_disk_commands::{
    DiskCommandError, file_name, get_file, list_files, matching_files, new_image, put_file,
    remove_file, rename_file, write_list,
};
use cpm_geom::{Format, Image};
use cpm_image_files::{
    FileName, ImageFilesError, from_text, get, list, put, remove, rename, to_text,
};
use std::alloc::{AllocError, Global};
use std::io;

/// What the file has that stands on the disk, a text.
const TEXT: &[u8] = b"a line\nand another\n";

/// The name of an image's file.
const IMAGE: &str = "a.img";

/// The file of user 0 of a name.
fn named(name: [u8; 11]) -> Result<FileName, AllocError>
    ensures { IfOk result (λ file. file.user ≡ 0) }
{
    match FileName::new(0, name) {
        Some(file) => Ok(file),
        None => Err(AllocError),
    }
}

fn file() -> Result<FileName, AllocError>
    ensures { IfOk result (λ file. file.user ≡ 0) }
{
    named(*b"LETTER  TXT")
}

fn other() -> Result<FileName, AllocError>
    ensures { IfOk result (λ file. file.user ≡ 0) }
{
    named(*b"OTHER   TXT")
}

/// A disk with a file.
fn disk(alloc: Global) -> Result<Image, AllocError> {
    let blank = Image::blank(alloc, Format::Ibm3740)?;
    put(alloc, &blank, &file()?, TEXT).map_err(|_| AllocError)
}

/// The outcome of a call on a disk, which is left alone.
fn came<T: Drop>(answer: Result<T, ImageFilesError>) -> CallOutcome {
    match answer {
        Ok(_) => CallOutcome::Made,
        Err(ImageFilesError::OutOfMemory) => CallOutcome::Refused,
        Err(_) => CallOutcome::Wrong,
    }
}

/// The same of one that is told.
fn told<T: Drop>(answer: Result<T, DiskCommandError>) -> CallOutcome {
    match answer {
        Ok(_) => CallOutcome::Made,
        Err(DiskCommandError::OutOfMemory) => CallOutcome::Refused,
        Err(_) => CallOutcome::Wrong,
    }
}

/// Makes the call of cpm_image_files of this name.
pub fn of_image_files(alloc: Global, name: &str) -> Result<CallOutcome, AllocError> {
    let file = file()?;
    let other = other()?;
    let disk = disk(alloc)?;
    Ok(match name {
        "put" => came(put(alloc, &disk, &other, TEXT)),
        "get" => came(get(alloc, &disk, &file)),
        "remove" => came(remove(alloc, &disk, &file)),
        "rename" => came(rename(alloc, &disk, &file, &other)),
        "list" => came(list(alloc, &disk)),
        "to_text" => CallOutcome::of(to_text(alloc, TEXT)),
        "from_text" => CallOutcome::of(from_text(alloc, b"a\r\n\x1A")),
        _ => CallOutcome::Wrong,
    })
}

/// Makes the call of cpm_disk_commands of this name.
pub fn of_disk_commands(alloc: Global, name: &str) -> Result<CallOutcome, AllocError> {
    let file = file()?;
    let other = other()?;
    let disk = disk(alloc)?;
    Ok(match name {
        "new_image" => told(new_image(alloc, true)),
        "put_file" => told(put_file(alloc, &disk, IMAGE, &other, true, TEXT)),
        "get_file" => told(get_file(alloc, &disk, IMAGE, &file, true)),
        "remove_file" => told(remove_file(alloc, &disk, IMAGE, &file)),
        "rename_file" => told(renamed(alloc, &disk)),
        "matching_files" => told(matching(alloc, &disk)),
        "write_list" => told(listed(alloc, &disk)),
        _ => CallOutcome::Wrong,
    })
}

fn renamed(alloc: Global, disk: &Image) -> Result<Image, DiskCommandError> {
    let old = file_name("letter.txt", 0, false, false)?;
    let new = file_name("other.txt", 0, false, false)?;
    rename_file(alloc, disk, IMAGE, &old, &new)
}

fn matching(alloc: Global, disk: &Image) -> Result<Vec<FileName>, DiskCommandError> {
    let listing = list_files(alloc, disk, IMAGE)?;
    matching_files(alloc, &listing.files, IMAGE, 0, "*.txt")
}

fn listed(alloc: Global, disk: &Image) -> Result<(), DiskCommandError> {
    let listing = list_files(alloc, disk, IMAGE)?;
    write_list(alloc, disk.format(), &listing, None, &mut io::sink())
}
