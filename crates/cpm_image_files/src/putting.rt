//! Puts a file on a disk.

ghost use Rattle.std.specs.Prelude.{◌≡◌, ◌<◌, ◌*◌, Some, None, length, MatchResult, ℕ, List};
ghost use Rattle.cpm_geom.specs.Geometry.{dpb_of};
ghost use Rattle.cpm_geom.specs.Disk.{HasBytes, IsDisk};
ghost use Rattle.cpm_volume.specs.Encoding.{AreBytes};
ghost use Rattle.cpm_directory.specs.Directory.{entries_of};
ghost use Rattle.cpm_directory.specs.Login.{reserved_at_login};
ghost use Rattle.cpm_drive.specs.Laws.{IsWritable};
ghost use Rattle.cpm_image_files.specs.ImageFiles.{record_of_bytes, records_for, file_refusal_of, IsSoundDisk, IsPut, IsPutRefusal};
ghost use Rattle.cpm_image_files.specs.Writing.{HasRoomForFile, IsWriting, new_fcb};

use crate::copies::copy_of;
use crate::name::FileName;
use crate::needs::{RECORD_SIZE, file_refusal_of, records_for};
use crate::refusal::ImageFilesError;
use cpm_directory::{LentImage, well_formed};
use cpm_drive::Drive;
use cpm_geom::Image;
use cpm_volume::{Answer, Extent, Fcb};
use std::alloc::Global;

/// What the last record of a file is filled up with.
const FILLER: u8 = 0x1A;

/// The disk with a file of these bytes on it, in place of the one of its name if there is one. The image is only looked
/// at. A disk that is damaged is refused, and one that has no room for the file, before any work is done.
pub fn put(
    alloc: Global,
    image: &Image,
    file: &FileName,
    bytes: &[u8],
) -> Result<Image, ImageFilesError>
    ensures { MatchResult result
        (λ new. IsPut image.now file.now.user file.now.name bytes.now new)
        (λ e. IsPutRefusal image.now file.now.user file.now.name (records_for (length bytes.now)) e) }
{
    if let Err(fault) = well_formed(image) {
        return Err(ImageFilesError::Damaged(fault));
    }
    if let Some(refusal) = file_refusal_of(&LentImage::new(image), file, records_for(bytes)) {
        return Err(ImageFilesError::Refused(refusal));
    }
    match copy_of(alloc, image) {
        Ok(copy) => Ok(written(copy, file, bytes)),
        Err(_) => Err(ImageFilesError::OutOfMemory),
    }
}

/// The image with a file on it, for which there is room.
fn written(image: Image, file: &FileName, bytes: &[u8]) -> Image
    requires whole { IsDisk image }
    requires bytes { HasBytes image }
    requires sound { IsSoundDisk image }
    requires room { file_refusal_of (dpb_of image.format) (entries_of image) file.now.user file.now.name (records_for (length bytes.now)) ≡ None }
    ensures { IsPut image file.now.user file.now.name bytes.now result }
{
    let user = file.user();
    let mut drive = Drive::new(image);
    drive.log_in();
    let mut fcb = begin(&mut drive, file);
    for number in 0..records_for(bytes) {
        let record = record_of_bytes(bytes, number);
        match drive.write_next(user, &mut fcb, &record) {
            Answer::Done => {}
            _ => unreachable!(),
        }
    }
    drive.close_file(user, &mut fcb).unwrap();
    drive.image.into_image()
}

/// Erases the file of a name if there is one, and makes an empty one. The file control block stands at its first record.
fn begin(drive: &mut Drive, file: &FileName) -> Fcb
    requires writable { IsWritable drive.old }
    requires sound { IsSoundDisk drive.old.image }
    requires fresh { drive.old.marks.reserved ≡ reserved_at_login (dpb_of drive.old.image.format) (entries_of drive.old.image) }
    requires room { HasRoomForFile (dpb_of drive.old.image.format) (entries_of drive.old.image) file.now.user file.now.name 0 }
    ensures { (bytes : List ℕ) → IsWriting drive.old.image file.now.user file.now.name bytes 0 drive.new result }
{
    let user = file.user();
    let name = file.name();
    drive.erase_files(user, name).unwrap();
    let mut fcb = fcb_of(name);
    drive.make_file(user, &mut fcb).unwrap();
    fcb
}

/// The file control block of a name, as a program would lay it out.
fn fcb_of(name: &[u8; 11]) -> Fcb
    ensures { result ≡ new_fcb name.now }
{
    Fcb {
        drive: 0,
        extent: Extent {
            name: *name,
            ex: 0,
            s1: 0,
            s2: 0,
            record_count: 0,
            blocks: [0; 16],
        },
        current_record: 0,
        random_record: [0; 3],
    }
}

/// A record of a file of these bytes, the last one filled up.
fn record_of_bytes(bytes: &[u8], number: usize) -> [u8; RECORD_SIZE]
    requires { 128 * number < length bytes.now }
    ensures value { Some result ≡ record_of_bytes bytes.now number }
    ensures bytes { AreBytes 128 result }
{
    let start = RECORD_SIZE * number;
    let size = (bytes.len() - start).min(RECORD_SIZE);
    let mut record = [FILLER; RECORD_SIZE];
    record[..size].copy_from_slice(&bytes[start..start + size]);
    record
}
