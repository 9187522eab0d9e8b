//! The drives, and what the calls on files keep, in a saving.

ghost use Rattle.std.specs.Prelude.{◌≡◌, ℕ, List, map, option_map, OnOk, IfOk, is_some, length, true, Some};
ghost use Rattle.std.specs.List.{All, concat};
ghost use Rattle.cpm_flags.specs.Arithmetic.{bit};
ghost use Rattle.cpm_geom.specs.Disk.{IsDisk};
ghost use Rattle.cpm_geom.specs.Geometry.{format_of_length};
ghost use Rattle.cpm_saved.specs.Layout.{Fixed, Maybe, Run, Times};
ghost use Rattle.cpm_saved.specs.Reading.{IsPartAppended, IsPartRead};
ghost use Rattle.cpm_saved.specs.SavedDisks.{AreWhole, IsWholeIfAny, disks_fields, disks_layout, drive_fields, drive_layout};
ghost use Rattle.cpm_saved.specs.SavedDisks.{image_fields, image_layout, is_large, marks_fields, marks_layout, search_fields, search_layout};
ghost use Rattle.cpm_saved.specs.declared.part.SavingPart.TheVariants as part;

use crate::append::{append_array, append_byte, append_bytes, append_flag, append_word};
use crate::part::SavingPart;
use crate::reader::{Reader, RestoreError};
use cpm_directory::{ListedImage, Reserved};
use cpm_drive::{Drive, Marks};
use cpm_drives::{Disks, Search};
use cpm_geom::{Format, Image};
use std::alloc::{AllocError, Global};

/// The most blocks of which a drive knows whether they are reserved.
const MOST_BLOCKS: u16 = 512;

/// Appends which blocks are reserved.
fn append_reserved(out: &mut Vec<u8>, reserved: &Reserved) -> Result<(), AllocError>
    ensures { OnOk result (IsPartAppended (Run part.Drive 512 2) (map bit reserved.now) out.old.items out.new.items) }
{
    append_word(out, reserved.len() as u16)?;
    reserved.append_marks(out)?;
    Ok(())
}

/// Appends what the system keeps of a drive beside its image.
fn append_marks(out: &mut Vec<u8>, marks: &Marks) -> Result<(), AllocError>
    ensures { OnOk result (IsPartAppended marks_layout (marks_fields marks.now) out.old.items out.new.items) }
{
    append_reserved(out, &marks.reserved)?;
    append_flag(out, marks.is_logged_in)?;
    append_flag(out, marks.is_protected)?;
    Ok(())
}

/// Reads what the system keeps of a drive beside its image.
#[tactic(auto, using(crate::proofs::DiskSteps::marks_back))]
fn read_marks(reader: &mut Reader<'_>) -> Result<Marks, RestoreError>
    ensures { IsPartRead marks_layout marks_fields reader.old reader.new result }
{
    let marks = reader.run(SavingPart::Drive, MOST_BLOCKS, 2)?;
    Ok(Marks {
        reserved: Reserved::from_marks(marks),
        is_logged_in: reader.flag(SavingPart::Drive)?,
        is_protected: reader.flag(SavingPart::Drive)?,
    })
}

/// Whether an image is of the large format.
fn is_large(image: &Image) -> bool
    ensures { result ≡ is_large image.now.format }
{
    match image.format() {
        Format::Ibm3740 => false,
        Format::Large => true,
    }
}

/// Appends an image.
fn append_image(out: &mut Vec<u8>, image: &Image) -> Result<(), AllocError>
    ensures appended { OnOk result (IsPartAppended image_layout (image_fields image.now) out.old.items out.new.items) }
    ensures whole { IfOk result (λ _. IsDisk image.now) }
{
    append_flag(out, is_large(image))?;
    append_bytes(out, image.bytes())?;
    Ok(())
}

/// Reads an image of so many bytes. It is refused if out of memory too.
fn read_image_of(
    alloc: Global,
    reader: &mut Reader<'_>,
    length: usize,
) -> Result<Image, RestoreError>
    requires { is_some (format_of_length length) ≡ true }
    ensures read { IsPartRead (Fixed part.Image length) (λ image. concat image.sectors) reader.old reader.new result }
    ensures format { IfOk result (λ image. format_of_length length ≡ Some image.format) }
{
    let bytes = Vec::from_slice(alloc, reader.take(SavingPart::Image, length)?)?;
    match Image::from_bytes(bytes) {
        Ok(image) => Ok(image),
        Err(_) => unreachable!(),
    }
}

/// Reads an image. It is refused if out of memory too.
#[tactic(auto, unfolding(cpm_geom::specs::Geometry::format_of_length))]
fn read_image(alloc: Global, reader: &mut Reader<'_>) -> Result<Image, RestoreError>
    ensures { IsPartRead image_layout image_fields reader.old reader.new result }
{
    if reader.flag(SavingPart::Image)? {
        read_image_of(alloc, reader, 2_105_344)
    } else {
        read_image_of(alloc, reader, 256_256)
    }
}

/// Appends a drive, if there is one.
fn append_drive(out: &mut Vec<u8>, drive: &Option<Drive>) -> Result<(), AllocError>
    ensures appended { OnOk result (IsPartAppended (Maybe part.Drive drive_layout) (option_map drive_fields drive.now) out.old.items out.new.items) }
    ensures whole { IfOk result (λ _. IsWholeIfAny drive.now) }
{
    match drive {
        None => append_flag(out, false)?,
        Some(drive) => {
            append_flag(out, true)?;
            append_marks(out, &drive.marks)?;
            append_image(out, drive.image.image())?;
        }
    }
    Ok(())
}

/// Reads a drive, if there is one. It is refused if out of memory too.
fn read_drive(alloc: Global, reader: &mut Reader<'_>) -> Result<Option<Drive>, RestoreError>
    ensures { IsPartRead (Maybe part.Drive drive_layout) (option_map drive_fields) reader.old reader.new result }
{
    if !reader.flag(SavingPart::Drive)? {
        return Ok(None);
    }
    let marks = read_marks(reader)?;
    let image = ListedImage::new(read_image(alloc, reader)?);
    Ok(Some(Drive { image, marks }))
}

/// Appends the place of a search, if there is one.
fn append_search(out: &mut Vec<u8>, search: Option<Search>) -> Result<(), AllocError>
    ensures { OnOk result (IsPartAppended (Maybe part.Search search_layout) (option_map search_fields search) out.old.items out.new.items) }
{
    match search {
        None => append_flag(out, false)?,
        Some(search) => {
            append_flag(out, true)?;
            append_byte(out, search.drive)?;
            append_flag(out, search.is_every)?;
            append_array(out, &search.name)?;
            append_byte(out, search.ex)?;
            append_word(out, search.next)?;
        }
    }
    Ok(())
}

/// Reads the place of a search, if there is one.
fn read_search(reader: &mut Reader<'_>) -> Result<Option<Search>, RestoreError>
    ensures { IsPartRead (Maybe part.Search search_layout) (option_map search_fields) reader.old reader.new result }
{
    if !reader.flag(SavingPart::Search)? {
        return Ok(None);
    }
    Ok(Some(Search {
        drive: reader.byte(SavingPart::Search)?,
        is_every: reader.flag(SavingPart::Search)?,
        name: reader.array(SavingPart::Search)?,
        ex: reader.byte(SavingPart::Search)?,
        next: reader.word(SavingPart::Search)?,
    }))
}

/// Appends the drives A to D.
fn append_drives(out: &mut Vec<u8>, drives: &[Option<Drive>; 4]) -> Result<(), AllocError>
    ensures appended { OnOk result
        (IsPartAppended (Times 4 (Maybe part.Drive drive_layout)) (map (option_map drive_fields) drives.now) out.old.items out.new.items) }
    ensures whole { IfOk result (λ _. All IsWholeIfAny drives.now) }
{
    let [first, second, third, fourth] = drives;
    append_drive(out, first)?;
    append_drive(out, second)?;
    append_drive(out, third)?;
    append_drive(out, fourth)?;
    Ok(())
}

/// Appends the drives, and what the calls on files keep.
pub fn append_disks(out: &mut Vec<u8>, disks: &Disks) -> Result<(), AllocError>
    ensures appended { OnOk result (IsPartAppended disks_layout (disks_fields disks.now) out.old.items out.new.items) }
    ensures whole { IfOk result (λ _. AreWhole disks.now) }
{
    append_drives(out, &disks.drives)?;
    append_marks(out, &disks.system)?;
    append_byte(out, disks.current)?;
    append_byte(out, disks.user)?;
    append_search(out, disks.sought)?;
    Ok(())
}

/// Reads the drives, and what the calls on files keep. It is refused if out of memory too.
pub fn read_disks(alloc: Global, reader: &mut Reader<'_>) -> Result<Disks, RestoreError>
    ensures { IsPartRead disks_layout disks_fields reader.old reader.new result }
{
    let drives = [
        read_drive(alloc, reader)?,
        read_drive(alloc, reader)?,
        read_drive(alloc, reader)?,
        read_drive(alloc, reader)?,
    ];
    Ok(Disks {
        drives,
        system: read_marks(reader)?,
        current: reader.byte(SavingPart::CurrentDrive)?,
        user: reader.byte(SavingPart::User)?,
        sought: read_search(reader)?,
    })
}

/// Does nothing, and says of a drive that its image is whole.
fn drive_is_whole(drive: &Option<Drive>)
    ensures { IsWholeIfAny drive.now }
{
    if let Some(drive) = drive {
        let _ = drive.image.format();
    }
}

/// Does nothing, and says of all drives that their images are whole.
pub fn disks_are_whole(disks: &Disks)
    ensures { AreWhole disks.now }
{
    let [first, second, third, fourth] = &disks.drives;
    drive_is_whole(first);
    drive_is_whole(second);
    drive_is_whole(third);
    drive_is_whole(fourth);
}
