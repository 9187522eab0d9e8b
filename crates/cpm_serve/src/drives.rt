//! The images of drives that are named: those with which a session is opened, and those that are written where it is closed.
ghost use Rattle.std.specs.Prelude.{◌≡◌, ◌≤◌, ◌++◌, ◌∷◌, [], IfErr, IfOk, Ok, Some, option_map};
ghost use Rattle.cpm_geom.specs.Disk.{blank_disk};
ghost use Rattle.cpm_protocol.specs.Requests.{drive_names_of, text_if};
ghost use Rattle.cpm_serve.specs.Reading.{AreNamedDrivesRead, IsDriveRead, IsFileDisk, IsOneDriveMore, images_had};
ghost use Rattle.cpm_serve.specs.Drives.{disk_named, disk_of_file, drives_read, name_count, some_count};

use crate::folder::{Folder, read_refusal};
use cpm_geom::{Format, Image};
use cpm_protocol::{DriveNames, WireRefusal};
use std::alloc::{AllocError, Global};

/// The format of the blank disk that a name is of.
pub(crate) fn format_named(name: &str) -> Option<Format>
    ensures { option_map blank_disk result ≡ disk_named name.now }
{
    match name {
        "blank" => Some(Format::Ibm3740),
        "blank-large" => Some(Format::Large),
        _ => None,
    }
}

/// How many names one is.
fn some_count(name: Option<&str>) -> usize
    ensures count { result ≡ some_count (text_if name.entry) }
    ensures few { result ≤ 1 }
{
    match name {
        Some(_) => 1,
        None => 0,
    }
}

/// How many names there are.
pub(crate) fn name_count(names: DriveNames<'_>) -> usize
    ensures { result ≡ name_count (drive_names_of names.entry) }
{
    some_count(names.a) + some_count(names.b) + some_count(names.c) + some_count(names.d)
}

/// The image that a file's bytes are.
pub(crate) fn image_of(bytes: Vec<u8>) -> Result<Image, WireRefusal>
    ensures { result ≡ disk_of_file bytes.items }
{
    match Image::from_bytes(bytes) {
        Ok(image) => Ok(image),
        Err(_) => Err(WireRefusal::DamagedDisk),
    }
}

/// The image in a file.
pub(crate) fn image_in<F: Folder>(
    alloc: Global,
    folder: &mut F,
    name: &str,
) -> Result<Image, WireRefusal>
    ensures { IsFileDisk F.does name.now folder.old folder.new result }
{
    match folder.read(alloc, name) {
        Ok(bytes) => image_of(bytes),
        Err(error) => Err(read_refusal(error)),
    }
}

/// A blank disk.
fn blank(alloc: Global, format: Format) -> Result<Image, WireRefusal>
    ensures made { IfOk result (λ image. image ≡ blank_disk format) }
    ensures refused { IfErr result (λ why. why ≡ WireRefusal.OutOfMemory) }
{
    match Image::blank(alloc, format) {
        Ok(image) => Ok(image),
        Err(AllocError) => Err(WireRefusal::OutOfMemory),
    }
}

/// The image that a name is of.
fn drive_named<F: Folder>(alloc: Global, folder: &mut F, name: &str) -> Result<Image, WireRefusal>
    ensures { IsDriveRead F.does name.now folder.old folder.new result }
{
    match format_named(name) {
        Some(format) => blank(alloc, format),
        None => image_in(alloc, folder, name),
    }
}

/// Drives, and one more.
fn pushed(mut drives: Vec<Image>, drive: Image) -> Result<Vec<Image>, WireRefusal>
    ensures made { IfOk result (λ all. all.items ≡ drives.items ++ drive ∷ []) }
    ensures refused { IfErr result (λ why. why ≡ WireRefusal.OutOfMemory) }
{
    match drives.push(drive) {
        Ok(()) => Ok(drives),
        Err(_) => Err(WireRefusal::OutOfMemory),
    }
}

/// Drives, and the one of a name.
fn with_one_drive<F: Folder>(
    alloc: Global,
    folder: &mut F,
    drives: Vec<Image>,
    name: &str,
) -> Result<Vec<Image>, WireRefusal>
    ensures { IsOneDriveMore F.does (Some name.now) (Ok drives.items) (images_had result) folder.old folder.new }
{
    match drive_named(alloc, folder, name) {
        Ok(drive) => pushed(drives, drive),
        Err(refusal) => Err(refusal),
    }
}

/// The same, where there are drives. A fault stays, and then no more is asked.
fn with_drive_named<F: Folder>(
    alloc: Global,
    folder: &mut F,
    drives: Result<Vec<Image>, WireRefusal>,
    name: &str,
) -> Result<Vec<Image>, WireRefusal>
    ensures { IsOneDriveMore F.does (Some name.now) (images_had drives) (images_had result) folder.old folder.new }
{
    match drives {
        Ok(drives) => with_one_drive(alloc, folder, drives, name),
        Err(refusal) => Err(refusal),
    }
}

/// The same, where there is a name.
fn with_drive<F: Folder>(
    alloc: Global,
    folder: &mut F,
    drives: Result<Vec<Image>, WireRefusal>,
    name: Option<&str>,
) -> Result<Vec<Image>, WireRefusal>
    ensures { IsOneDriveMore F.does (text_if name.entry) (images_had drives) (images_had result) folder.old folder.new }
{
    match name {
        Some(name) => with_drive_named(alloc, folder, drives, name),
        None => drives,
    }
}

/// The images that names for drives are of.
pub(crate) fn drives_named<F: Folder>(
    alloc: Global,
    folder: &mut F,
    names: DriveNames<'_>,
) -> Result<Vec<Image>, WireRefusal>
    ensures { AreNamedDrivesRead F.does (drives_read (drive_names_of names.entry)) (images_had result) folder.old folder.new }
{
    let drives = with_drive(alloc, folder, Ok(Vec::new(alloc)), names.a);
    let drives = with_drive(alloc, folder, drives, names.b);
    let drives = with_drive(alloc, folder, drives, names.c);
    with_drive(alloc, folder, drives, names.d)
}
