//! The calls on files over a file control block: the drive that it names is selected and logged in, protection is judged,
//! and the drive does the rest. Each answers its code, or the fault of the drive that the file control block names.

ghost use Rattle.std.specs.Prelude.{◌≡◌, ℕ, List, MatchResult, Ok, Err};
ghost use Rattle.cpm_drive.specs.Reads.{ahead};
ghost use Rattle.cpm_drive.specs.declared.drive.Drive.{Drive};
ghost use Rattle.cpm_drives.specs.Calls.{OnDrive, file_call, on_named_drive, RefusesProtected, IsOwnPlace};
ghost use Rattle.cpm_drives.specs.Files.{marked_drive, next_ahead, open_file, close_file, make_file, erase_files, rename_files, set_attributes};
ghost use Rattle.cpm_drives.specs.Files.{read_next, write_next, read_random, write_random, write_random_cleared, compute_size, set_random_record};

use crate::codes::{NONE, code_or_none, put_random};
use crate::disks::{Disks, drive_in};
use crate::{lent, own};
use cpm_directory::LentImage;
use cpm_drive::{compute_size, open_file_lent, peek_next};
use cpm_geom::Image;
use cpm_volume::{Answer, Fault, Fcb};

impl Disks {
    /// OPEN FILE: a directory code, or FFh where there is no such file.
    pub fn open_file(&mut self, system: &Image, fcb: &mut Fcb) -> Result<u8, Fault>
        ensures { (buffer : List ℕ) → file_call result self.new fcb.new buffer ≡ open_file self.old system.now fcb.old buffer }
    {
        let number = self.use_named(system, fcb.drive)?;
        let image = self.lent_at(system, number);
        Ok(code_or_none(open_file_lent(&image, self.user, fcb)))
    }

    /// CLOSE FILE: a directory code, or FFh where the entry is not there or has other blocks.
    pub fn close_file(&mut self, system: &Image, fcb: &mut Fcb) -> Result<u8, Fault>
        ensures { (buffer : List ℕ) → file_call result self.new fcb.new buffer ≡ close_file self.old system.now fcb.old buffer }
    {
        let number = self.use_named(system, fcb.drive)?;
        if !self.is_own(number) {
            return lent::close_file(system, &self.system, self.user, fcb);
        }
        let drive = drive_in(&mut self.drives[usize::from(number)]);
        own::close_file(drive, self.user, fcb)
    }

    /// MAKE FILE: a directory code, or FFh where no entry is free.
    pub fn make_file(&mut self, system: &Image, fcb: &mut Fcb) -> Result<u8, Fault>
        ensures { (buffer : List ℕ) → file_call result self.new fcb.new buffer ≡ make_file self.old system.now fcb.old buffer }
    {
        let place = self.place_to_write(system, fcb)?;
        own::make_file(drive_in(&mut self.drives[place]), self.user, fcb)
    }

    /// DELETE FILE: every entry of the name, with `?` for any character. The first one's directory code, or FFh.
    pub fn erase_files(&mut self, system: &Image, fcb: &Fcb) -> Result<u8, Fault>
        ensures { (buffer : List ℕ) → file_call result self.new fcb.now buffer ≡ erase_files self.old system.now fcb.now buffer }
    {
        let place = self.place_to_write(system, fcb)?;
        own::erase_files(drive_in(&mut self.drives[place]), self.user, fcb)
    }

    /// RENAME FILE: every entry of the name gets the new one. The first one's directory code, or FFh.
    pub fn rename_files(
        &mut self,
        system: &Image,
        fcb: &Fcb,
        new_name: &[u8; 11],
    ) -> Result<u8, Fault>
        ensures { (buffer : List ℕ) → file_call result self.new fcb.now buffer ≡ rename_files new_name.now self.old system.now fcb.now buffer }
    {
        let place = self.place_to_write(system, fcb)?;
        own::rename_files(drive_in(&mut self.drives[place]), self.user, fcb, new_name)
    }

    /// SET FILE ATTRIBUTES: every entry of the name gets the high bits of the name. The first one's directory code, or
    /// FFh.
    pub fn set_attributes(&mut self, system: &Image, fcb: &Fcb) -> Result<u8, Fault>
        ensures { (buffer : List ℕ) → file_call result self.new fcb.now buffer ≡ set_attributes self.old system.now fcb.now buffer }
    {
        let place = self.place_to_write(system, fcb)?;
        own::set_attributes(drive_in(&mut self.drives[place]), self.user, fcb)
    }

    /// READ SEQUENTIAL: 0, or 1 where there is no record.
    pub fn read_next(
        &mut self,
        system: &Image,
        fcb: &mut Fcb,
        buffer: &mut [u8; 128],
    ) -> Result<u8, Fault>
        ensures { file_call result self.new fcb.new buffer.new ≡ read_next self.old system.now fcb.old buffer.old }
    {
        let number = self.use_named(system, fcb.drive)?;
        if !self.is_own(number) {
            return lent::read_next(system, &self.system, self.user, fcb, buffer);
        }
        let drive = drive_in(&mut self.drives[usize::from(number)]);
        own::read_next(drive, self.user, fcb, buffer)
    }

    /// The record that READ SEQUENTIAL would give now, as it lies on its drive, or the answer without one. Nothing
    /// changes.
    #[tactic(auto, unfolding(crate::specs::Files::next_ahead))]
    pub fn peek_next<'a>(&'a self, system: &'a Image, fcb: &Fcb) -> Result<&'a [u8], Answer>
        ensures { MatchResult result
            (λ bytes. Ok bytes.now ≡ next_ahead self.now system.now fcb.now)
            (λ answer. Err answer ≡ next_ahead self.now system.now fcb.now) }
    {
        let number = self.drive_named(fcb.drive);
        if !self.is_there(number) {
            return Err(Answer::Fault(Fault::Select));
        }
        self.peek_on(system, number, fcb)
    }

    /// The same on a drive that is there.
    fn peek_on<'a>(&'a self, system: &'a Image, drive: u8, fcb: &Fcb) -> Result<&'a [u8], Answer>
        ensures { MatchResult result
            (λ bytes. Ok bytes.now ≡ ahead (marked_drive self.now system.now drive) self.now.user fcb.now)
            (λ answer. Err answer ≡ ahead (marked_drive self.now system.now drive) self.now.user fcb.now) }
    {
        if !self.is_own(drive) {
            return peek_next(&LentImage::new(system), &self.system, self.user, fcb);
        }
        let Some(own) = &self.drives[usize::from(drive)] else {
            unreachable!()
        };
        peek_next(&own.image.lent(), &own.marks, self.user, fcb)
    }

    /// WRITE SEQUENTIAL: 0, 1 where no extent can be had, or 2 where no block is free.
    pub fn write_next(
        &mut self,
        system: &Image,
        fcb: &mut Fcb,
        buffer: &[u8; 128],
    ) -> Result<u8, Fault>
        ensures { file_call result self.new fcb.new buffer.now ≡ write_next self.old system.now fcb.old buffer.now }
    {
        let place = self.place_to_write(system, fcb)?;
        own::write_next(drive_in(&mut self.drives[place]), self.user, fcb, buffer)
    }

    /// READ RANDOM: 0, 1 where there is no record, 3 where the extent can't be closed, 4 where there is no other, 6 past
    /// any disk.
    pub fn read_random(
        &mut self,
        system: &Image,
        fcb: &mut Fcb,
        buffer: &mut [u8; 128],
    ) -> Result<u8, Fault>
        ensures { file_call result self.new fcb.new buffer.new ≡ read_random self.old system.now fcb.old buffer.old }
    {
        let number = self.use_named(system, fcb.drive)?;
        if !self.is_own(number) {
            return lent::read_random(system, &self.system, self.user, fcb, buffer);
        }
        let drive = drive_in(&mut self.drives[usize::from(number)]);
        own::read_random(drive, self.user, fcb, buffer)
    }

    /// WRITE RANDOM: 0, 2 where no block is free, 3 where the extent can't be closed, 5 where no other can be had, 6 past
    /// any disk.
    pub fn write_random(
        &mut self,
        system: &Image,
        fcb: &mut Fcb,
        buffer: &[u8; 128],
    ) -> Result<u8, Fault>
        ensures { file_call result self.new fcb.new buffer.now ≡ write_random self.old system.now fcb.old buffer.now }
    {
        let place = self.place_to_write(system, fcb)?;
        own::write_random(drive_in(&mut self.drives[place]), self.user, fcb, buffer)
    }

    /// WRITE RANDOM WITH ZERO FILL: as WRITE RANDOM, but a block that it takes is cleared first.
    pub fn write_random_cleared(
        &mut self,
        system: &Image,
        fcb: &mut Fcb,
        buffer: &[u8; 128],
    ) -> Result<u8, Fault>
        ensures { file_call result self.new fcb.new buffer.now ≡ write_random_cleared self.old system.now fcb.old buffer.now }
    {
        let place = self.place_to_write(system, fcb)?;
        own::write_random_cleared(drive_in(&mut self.drives[place]), self.user, fcb, buffer)
    }

    /// COMPUTE FILE SIZE: the random record becomes the number of records. 0, or FFh where there is no such file.
    pub fn compute_size(&mut self, system: &Image, fcb: &mut Fcb) -> Result<u8, Fault>
        ensures { (buffer : List ℕ) → file_call result self.new fcb.new buffer ≡ compute_size self.old system.now fcb.old buffer }
    {
        let number = self.use_named(system, fcb.drive)?;
        let image = self.lent_at(system, number);
        match compute_size(&image, self.user, &fcb.extent.name) {
            Some(records) => {
                put_random(fcb, records);
                Ok(0)
            }
            None => {
                put_random(fcb, 0);
                Ok(NONE)
            }
        }
    }

    /// SET RANDOM RECORD: the random record becomes the one that the file control block stands at. The code is 0.
    pub fn set_random_record(&mut self, system: &Image, fcb: &mut Fcb) -> Result<u8, Fault>
        ensures { (buffer : List ℕ) → file_call result self.new fcb.new buffer ≡ set_random_record self.old system.now fcb.old buffer }
    {
        self.use_named(system, fcb.drive)?;
        let extent = 128 * u32::from(fcb.extent.number());
        put_random(fcb, extent + u32::from(fcb.current_record));
        Ok(0)
    }

    /// Uses the drive that a file control block names, for a call that writes. The place of an own drive, or the fault:
    /// there is no such drive, or it is the system drive, which is always protected.
    fn place_to_write(&mut self, system: &Image, fcb: &Fcb) -> Result<usize, Fault>
        ensures { MatchResult result
            (λ place. IsOwnPlace self.old self.new system.now fcb.now place)
            (λ e. (call : Drive → OnDrive) (buffer : List ℕ) → RefusesProtected call fcb.now buffer
            → file_call (Err e) self.new fcb.now buffer ≡ on_named_drive call self.old system.now fcb.now buffer) }
    {
        let number = self.use_named(system, fcb.drive)?;
        if !self.is_own(number) {
            return Err(Fault::ReadOnly);
        }
        Ok(usize::from(number))
    }
}
