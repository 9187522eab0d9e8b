//! Files on a drive that no session has.
ghost use Rattle.std.specs.Prelude.{◌≡◌, ◌++◌, IfOk, IfSome, OnOk, chars, option_map, true};
ghost use Rattle.cpm_protocol.specs.Bytes.{is_byte_text};
ghost use Rattle.cpm_protocol.specs.Requests.{Files, Get, Put};
ghost use Rattle.cpm_slots.specs.Host.{Host};
ghost use Rattle.cpm_serve.specs.DriveFiles.{IsGetWork, IsListWork, IsPutWork, disk_file_name, disk_refusal, file_refusal, name_line, name_lines};
ghost use Rattle.cpm_protocol.specs.Replies.{Refused};
ghost use Rattle.cpm_serve.specs.Folder.{AccessesLead, Released};
ghost use Rattle.cpm_serve.specs.Owned.{owned_answer};
ghost use Rattle.cpm_serve.specs.Reading.{IsHeldDisk, text_work, work_answer};
ghost use Rattle.cpm_serve.specs.ServedWith.{IsRequestServedWith};

use crate::close::stored;
use crate::drives::{image_in, image_of};
use crate::folder::{Folder, read_refusal, write_file};
use crate::owned::{OwnedReply, refused};
use cpm_disk_commands::{add_name, file_name};
use cpm_geom::Image;
use cpm_image_files::{DiskFile, FileName, FileRefusal, ImageFilesError, get, list, put};
use cpm_protocol::{WireRefusal, bytes_of};
use std::alloc::{AllocError, Global};

/// Why nothing is done with a file.
fn file_refusal(reason: FileRefusal) -> WireRefusal
    ensures { result ≡ file_refusal reason }
{
    match reason {
        FileRefusal::ReadOnly => WireRefusal::ReadOnly,
        FileRefusal::DirectoryFull => WireRefusal::DirectoryFull,
        FileRefusal::DiskFull => WireRefusal::DiskFull,
        FileRefusal::NoFile => WireRefusal::NoFile,
        FileRefusal::Exists => WireRefusal::Exists,
    }
}

/// Why nothing is done on a disk.
fn disk_refusal(error: ImageFilesError) -> WireRefusal
    ensures { result ≡ disk_refusal error }
{
    match error {
        ImageFilesError::Damaged(_) => WireRefusal::DamagedDisk,
        ImageFilesError::Refused(reason) => file_refusal(reason),
        ImageFilesError::OutOfMemory => WireRefusal::OutOfMemory,
    }
}

/// The file of user 0 that a text names, without attributes, as `cpmhost disk` reads it.
fn file_named(text: &str) -> Option<FileName>
    ensures name { option_map (λ file. file.name) result ≡ disk_file_name text.now }
    ensures user { IfSome result (λ file. file.user ≡ 0) }
{
    match file_name(text, 0, false, false) {
        Ok(file) => Some(file),
        Err(_) => None,
    }
}

/// The image in a file that is replaced next.
fn held_image<F: Folder>(alloc: Global, folder: &mut F, name: &str) -> Result<Image, WireRefusal>
    ensures { IsHeldDisk F.does name.now folder.old folder.new result }
{
    match folder.hold(alloc, name) {
        Ok(bytes) => image_of(bytes),
        Err(error) => Err(read_refusal(error)),
    }
}

/// The bytes of the image with a file of this text on it.
fn with_file(
    alloc: Global,
    image: &Image,
    file: &FileName,
    text: &[u8],
) -> Result<Vec<u8>, WireRefusal>
    requires { file.now.user ≡ 0 }
    ensures { IsPutWork text.now image.now file.now.name (text_work result) }
{
    match put(alloc, image, file, text) {
        Ok(new) => Ok(new.into_bytes()),
        Err(error) => Err(disk_refusal(error)),
    }
}

/// The bytes of a file.
fn bytes_on(alloc: Global, image: &Image, file: &FileName) -> Result<Vec<u8>, WireRefusal>
    requires { file.now.user ≡ 0 }
    ensures { IsGetWork image.now file.now.name (text_work result) }
{
    match get(alloc, image, file) {
        Ok(bytes) => Ok(bytes),
        Err(error) => Err(disk_refusal(error)),
    }
}

/// Adds the line of a file, if it is one of user 0.
#[tactic(auto, unfolding(crate::specs::DriveFiles::name_line))]
fn add_name_line(text: &mut Vec<u8>, file: &DiskFile) -> Result<(), AllocError>
    ensures { OnOk result (text.new.items ≡ text.old.items ++ name_line file.now) }
{
    if file.user != 0 {
        return Ok(());
    }
    add_name(text, &file.name)?;
    text.push(b'\n')?;
    Ok(())
}

/// A line for each file of user 0.
fn name_lines(alloc: Global, files: &[DiskFile]) -> Result<Vec<u8>, AllocError>
    ensures { IfOk result (λ text. text.items ≡ name_lines files.now) }
{
    let mut text = Vec::new(alloc);
    for file in files {
        add_name_line(&mut text, file)?;
    }
    Ok(text)
}

/// The list of a disk's files.
fn names_on(alloc: Global, image: &Image) -> Result<Vec<u8>, WireRefusal>
    ensures { IsListWork image.now (text_work result) }
{
    let listing = match list(alloc, image) {
        Ok(listing) => listing,
        Err(error) => return Err(disk_refusal(error)),
    };
    match name_lines(alloc, &listing.files) {
        Ok(text) => Ok(text),
        Err(AllocError) => Err(WireRefusal::OutOfMemory),
    }
}

/// The reply where bytes were to be given.
fn given(outcome: Result<Vec<u8>, WireRefusal>) -> OwnedReply
    ensures { owned_answer result ≡ work_answer (text_work outcome) }
{
    match outcome {
        Ok(bytes) => OwnedReply::Bytes(bytes),
        Err(refusal) => refused(refusal),
    }
}

/// Lets the file go that was to be replaced.
fn let_go<F: Folder>(folder: &mut F, refusal: WireRefusal) -> OwnedReply
    ensures reply { owned_answer result ≡ Refused refusal }
    ensures did { F.does folder.old Released folder.new }
{
    folder.release();
    refused(refusal)
}

/// Writes a file on a drive.
pub(crate) fn put_file<F: Folder>(
    alloc: Global,
    folder: &mut F,
    drive: &str,
    name: &str,
    text: &str,
) -> OwnedReply
    requires { is_byte_text text.now ≡ true }
    ensures { (h : Host) → IsRequestServedWith (AccessesLead F.does folder.old folder.new) (Put drive.now name.now (chars text.now)) h h (owned_answer result) }
{
    let Some(file) = file_named(name) else {
        return refused(WireRefusal::BadName);
    };
    let Ok(text) = bytes_of(alloc, text) else {
        return refused(WireRefusal::OutOfMemory);
    };
    let image = match held_image(alloc, folder, drive) {
        Ok(image) => image,
        Err(refusal) => return let_go(folder, refusal),
    };
    match with_file(alloc, &image, &file, &text) {
        Ok(bytes) => stored(text.as_slice().len(), write_file(folder, drive, bytes)),
        Err(refusal) => let_go(folder, refusal),
    }
}

/// Gives the bytes of a file of a drive.
pub(crate) fn get_file<F: Folder>(
    alloc: Global,
    folder: &mut F,
    drive: &str,
    name: &str,
) -> OwnedReply
    ensures { (h : Host) → IsRequestServedWith (AccessesLead F.does folder.old folder.new) (Get drive.now name.now) h h (owned_answer result) }
{
    let Some(file) = file_named(name) else {
        return refused(WireRefusal::BadName);
    };
    match image_in(alloc, folder, drive) {
        Ok(image) => given(bytes_on(alloc, &image, &file)),
        Err(refusal) => refused(refusal),
    }
}

/// Lists the files of a drive.
pub(crate) fn list_files<F: Folder>(alloc: Global, folder: &mut F, drive: &str) -> OwnedReply
    ensures { (h : Host) → IsRequestServedWith (AccessesLead F.does folder.old folder.new) (Files drive.now) h h (owned_answer result) }
{
    match image_in(alloc, folder, drive) {
        Ok(image) => given(names_on(alloc, &image)),
        Err(refusal) => refused(refusal),
    }
}
