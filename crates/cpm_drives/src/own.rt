//! The calls on files of a session's own drive, which is logged in.

ghost use Rattle.std.specs.Prelude.{◌≡◌, ℕ, List, MatchResult, Ok, Err, true, false};
ghost use Rattle.cpm_volume.specs.Names.{is_read_only};
ghost use Rattle.cpm_drives.specs.Calls.{code_of_answer, code_or_none, code_or_fault, OnDrive, on_drive, unless_protected, unless_read_only};
ghost use Rattle.cpm_drives.specs.Files.{close_file_on, make_file_on, erase_files_on, rename_files_on, set_attributes_on, read_next_on};
ghost use Rattle.cpm_drives.specs.Files.{write_next_on, random_number, read_random_on, write_random_on, write_random_cleared_on};

use crate::codes::{PAST_ANY_DISK, code_of, code_or_fault, code_or_none, random_number};
use cpm_drive::Drive;
use cpm_volume::{Fault, Fcb};

pub(crate) fn close_file(drive: &mut Drive, user: u8, fcb: &mut Fcb) -> Result<u8, Fault>
    ensures { (buffer : List ℕ) → on_drive result drive.new fcb.new buffer ≡ close_file_on user fcb.old buffer drive.old }
{
    code_or_fault(drive.close_file(user, fcb))
}

pub(crate) fn make_file(drive: &mut Drive, user: u8, fcb: &mut Fcb) -> Result<u8, Fault>
    ensures { (buffer : List ℕ) → on_drive result drive.new fcb.new buffer ≡ make_file_on user fcb.old buffer drive.old }
{
    may_write(drive)?;
    Ok(code_or_none(drive.make_file(user, fcb)))
}

pub(crate) fn erase_files(drive: &mut Drive, user: u8, fcb: &Fcb) -> Result<u8, Fault>
    ensures { (buffer : List ℕ) → on_drive result drive.new fcb.now buffer ≡ erase_files_on user fcb.now buffer drive.old }
{
    may_write(drive)?;
    code_or_fault(drive.erase_files(user, &fcb.extent.name))
}

pub(crate) fn rename_files(
    drive: &mut Drive,
    user: u8,
    fcb: &Fcb,
    new_name: &[u8; 11],
) -> Result<u8, Fault>
    ensures { (buffer : List ℕ) → on_drive result drive.new fcb.now buffer ≡ rename_files_on new_name.now user fcb.now buffer drive.old }
{
    may_write(drive)?;
    code_or_fault(drive.rename_files(user, &fcb.extent.name, new_name))
}

pub(crate) fn set_attributes(drive: &mut Drive, user: u8, fcb: &Fcb) -> Result<u8, Fault>
    ensures { (buffer : List ℕ) → on_drive result drive.new fcb.now buffer ≡ set_attributes_on user fcb.now buffer drive.old }
{
    may_write(drive)?;
    Ok(code_or_none(drive.set_attributes(user, &fcb.extent.name)))
}

pub(crate) fn read_next(
    drive: &mut Drive,
    user: u8,
    fcb: &mut Fcb,
    buffer: &mut [u8; 128],
) -> Result<u8, Fault>
    ensures { on_drive result drive.new fcb.new buffer.new ≡ read_next_on user fcb.old buffer.old drive.old }
{
    code_of(drive.read_next(user, fcb, buffer))
}

pub(crate) fn write_next(
    drive: &mut Drive,
    user: u8,
    fcb: &mut Fcb,
    buffer: &[u8; 128],
) -> Result<u8, Fault>
    ensures { on_drive result drive.new fcb.new buffer.now ≡ write_next_on user fcb.old buffer.now drive.old }
{
    may_write_file(drive, fcb)?;
    code_of(drive.write_next(user, fcb, buffer))
}

pub(crate) fn read_random(
    drive: &mut Drive,
    user: u8,
    fcb: &mut Fcb,
    buffer: &mut [u8; 128],
) -> Result<u8, Fault>
    ensures { on_drive result drive.new fcb.new buffer.new ≡ read_random_on user fcb.old buffer.old drive.old }
{
    if fcb.random_record[2] != 0 {
        return Ok(PAST_ANY_DISK);
    }
    code_of(drive.read_random(user, random_number(fcb), fcb, buffer))
}

pub(crate) fn write_random(
    drive: &mut Drive,
    user: u8,
    fcb: &mut Fcb,
    buffer: &[u8; 128],
) -> Result<u8, Fault>
    ensures { on_drive result drive.new fcb.new buffer.now ≡ write_random_on user fcb.old buffer.now drive.old }
{
    may_write_file(drive, fcb)?;
    if fcb.random_record[2] != 0 {
        return Ok(PAST_ANY_DISK);
    }
    code_of(drive.write_random(user, random_number(fcb), fcb, buffer))
}

pub(crate) fn write_random_cleared(
    drive: &mut Drive,
    user: u8,
    fcb: &mut Fcb,
    buffer: &[u8; 128],
) -> Result<u8, Fault>
    ensures { on_drive result drive.new fcb.new buffer.now ≡ write_random_cleared_on user fcb.old buffer.now drive.old }
{
    may_write_file(drive, fcb)?;
    if fcb.random_record[2] != 0 {
        return Ok(PAST_ANY_DISK);
    }
    code_of(drive.write_random_cleared(user, random_number(fcb), fcb, buffer))
}

/// A call that writes is refused by a protected drive.
fn may_write(drive: &Drive) -> Result<(), Fault>
    ensures { MatchResult result
        (λ _. drive.now.marks.is_protected ≡ false)
        (λ e. (e ≡ Fault.ReadOnly) × (drive.now.marks.is_protected ≡ true)) }
{
    if drive.marks.is_protected {
        return Err(Fault::ReadOnly);
    }
    Ok(())
}

/// A call that writes to a file is refused by a protected drive, and after that by a read-only file.
fn may_write_file(drive: &Drive, fcb: &Fcb) -> Result<(), Fault>
    ensures { MatchResult result
        (λ _. (drive.now.marks.is_protected ≡ false) × (is_read_only fcb.now.extent.name ≡ false))
        (λ e. (buffer : List ℕ) (call : OnDrive)
        → on_drive (Err e) drive.now fcb.now buffer ≡ unless_protected drive.now fcb.now buffer (unless_read_only drive.now fcb.now buffer call)) }
{
    may_write(drive)?;
    if fcb.extent.is_read_only() {
        return Err(Fault::FileReadOnly);
    }
    Ok(())
}
