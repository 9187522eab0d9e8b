//! Selecting drives, and the marks of all drives.

ghost use Rattle.std.specs.Prelude.{◌≡◌, true, false, IsTrue, MatchResult, is_some, ◌<◌, if◌then◌else◌};
ghost use Rattle.cpm_drive.specs.Reads.{lent_drive};
ghost use Rattle.cpm_drives.specs.Calls.{drive_named};
ghost use Rattle.cpm_drives.specs.Disks.{own_drive, is_there, drive_at};
ghost use Rattle.cpm_drives.specs.Selecting.{ready, drive_in_use, select, choice, unmarked, drive_unmarked};
ghost use Rattle.cpm_drives.specs.Selecting.{has_drive_bit, reset_from, reset, rebooted_disks, drives_reset, protect};

use crate::disks::{Disks, drive_in, is_in};
use cpm_directory::LentImage;
use cpm_drive::{Drive, Marks};
use cpm_geom::Image;
use cpm_volume::Fault;

/// The number of the system drive P.
pub(crate) const SYSTEM: u8 = 15;

impl Disks {
    /// Whether a drive is there, 0 for A.
    pub fn is_there(&self, drive: u8) -> bool
        ensures { result ≡ is_there self.now drive }
    {
        self.is_own(drive) || drive == SYSTEM
    }

    /// Whether a drive is the session's own.
    pub(crate) fn is_own(&self, drive: u8) -> bool
        ensures value { result ≡ is_some (own_drive self.now drive) }
        ensures within { IsTrue result → drive < 4 }
    {
        is_in(&self.drives, drive)
    }

    /// The image of a drive that is there.
    pub fn image_at<'a>(&'a self, system: &'a Image, drive: u8) -> &'a Image
        ensures { result.now ≡ (drive_at self.now system.now drive).image }
    {
        if !self.is_own(drive) {
            return system;
        }
        let Some(own) = &self.drives[usize::from(drive)] else {
            unreachable!()
        };
        own.image.image()
    }

    /// The image of a drive that is there, with its entries where the drive is the session's own.
    pub fn lent_at<'a>(&'a self, system: &'a Image, drive: u8) -> LentImage<'a>
        ensures { result ≡ (drive_at self.now system.now drive).image }
    {
        if !self.is_own(drive) {
            return LentImage::new(system);
        }
        let Some(own) = &self.drives[usize::from(drive)] else {
            unreachable!()
        };
        own.image.lent()
    }

    /// Uses a drive that is there: it is logged in, unless it was before.
    pub fn use_drive(&mut self, system: &Image, drive: u8)
        ensures { self.new ≡ drive_in_use self.old system.now drive }
    {
        if !self.is_own(drive) {
            make_lent_ready(system, &mut self.system);
            return;
        }
        make_ready(drive_in(&mut self.drives[usize::from(drive)]));
    }

    /// Uses the drive that a file control block names. Its number, or the fault that there is no such drive.
    pub(crate) fn use_named(&mut self, system: &Image, name: u8) -> Result<u8, Fault>
        ensures { MatchResult result
            (λ n. (n ≡ drive_named self.old name) × (is_there self.old n ≡ true) × (self.new ≡ drive_in_use self.old system.now n))
            (λ e. (e ≡ Fault.Select) × (is_there self.old (drive_named self.old name) ≡ false) × (self.new ≡ self.old)) }
    {
        let drive = self.drive_named(name);
        if !self.is_there(drive) {
            return Err(Fault::Select);
        }
        self.use_drive(system, drive);
        Ok(drive)
    }

    /// The number of the drive that a file control block names.
    #[tactic(auto, unfolding(crate::specs::Calls::drive_named))]
    pub fn drive_named(&self, name: u8) -> u8
        ensures { result ≡ drive_named self.now name }
    {
        if name == 0 { self.current } else { name - 1 }
    }

    /// SELECT DISK: a drive that is there becomes the current one, and is logged in. The code is 0; the fault is that
    /// there is no such drive.
    pub fn select(&mut self, system: &Image, drive: u8) -> Result<u8, Fault>
        ensures { choice result self.new ≡ select self.old system.now drive }
    {
        if !self.is_there(drive) {
            return Err(Fault::Select);
        }
        self.use_drive(system, drive);
        self.current = drive;
        Ok(0)
    }

    /// RESET DISK SYSTEM: no drive is logged in or protected any more; A is current, and logged in.
    pub fn reset(&mut self, system: &Image)
        ensures { self.new ≡ reset self.old system.now }
    {
        unmark_drives(&mut self.drives, u16::MAX);
        unmark(&mut self.system);
        self.use_drive(system, 0);
        self.current = 0;
    }

    /// Leaves of the drives what a warm boot does: none is logged in or protected, and no search is under way.
    pub fn reboot(&mut self)
        ensures { self.new ≡ rebooted_disks self.old }
    {
        unmark_drives(&mut self.drives, u16::MAX);
        unmark(&mut self.system);
        self.sought = None;
    }

    /// RESET DRIVE: the drives of a vector, A's bit the lowest, are neither logged in nor protected any more.
    pub fn reset_drives(&mut self, vector: u16)
        ensures { self.new ≡ drives_reset self.old vector }
    {
        unmark_drives(&mut self.drives, vector);
        if has_drive_bit(vector, SYSTEM) {
            unmark(&mut self.system);
        }
    }

    /// WRITE PROTECT DISK: the current drive.
    pub fn protect(&mut self, system: &Image)
        ensures { self.new ≡ protect self.old system.now }
    {
        if !self.is_own(self.current) {
            self.system.is_protected = true;
            return;
        }
        let own = drive_in(&mut self.drives[usize::from(self.current)]);
        own.marks.is_protected = true;
    }
}

/// Logs a drive in, unless it was before.
fn make_ready(drive: &mut Drive)
    ensures { drive.new ≡ ready drive.old }
{
    if !drive.marks.is_logged_in {
        drive.log_in();
    }
}

/// The same of a drive that is lent, and protected.
fn make_lent_ready(image: &Image, marks: &mut Marks)
    ensures { lent_drive image.now marks.new ≡ ready (lent_drive image.now (record marks.old { is_protected = true })) }
{
    marks.is_protected = true;
    if !marks.is_logged_in {
        marks.log_in(&LentImage::new(image));
    }
}

/// The drive is neither logged in nor protected any more.
fn unmark(marks: &mut Marks)
    ensures { marks.new ≡ unmarked marks.old }
{
    marks.is_logged_in = false;
    marks.is_protected = false;
}

/// Whether a vector has the bit of a drive.
fn has_drive_bit(vector: u16, drive: u8) -> bool
    requires { drive < 16 }
    ensures { result ≡ has_drive_bit vector drive }
{
    (vector >> drive) % 2 == 1
}

fn unmark_own(drive: &mut Drive)
    ensures { drive.new ≡ record drive.old { marks = unmarked drive.old.marks } }
{
    unmark(&mut drive.marks);
}

/// A drive of a vector is neither logged in nor protected any more.
fn unmark_drive(drive: &mut Option<Drive>, is_in_vector: bool)
    ensures { drive.new ≡ if is_in_vector then drive_unmarked drive.old else drive.old }
{
    if is_in_vector && let Some(own) = drive {
        unmark_own(own);
    }
}

/// The drives of a vector are neither logged in nor protected any more.
fn unmark_drives(drives: &mut [Option<Drive>; 4], vector: u16)
    ensures { drives.new ≡ reset_from vector 0 drives.old }
{
    for (number, drive) in drives.iter_mut().enumerate() {
        unmark_drive(drive, has_drive_bit(vector, number as u8));
    }
}
