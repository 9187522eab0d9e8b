//! A drive and its marks.

ghost use Rattle.std.specs.Prelude.{IfOk, ◌≡◌, ◌≤◌, ℕ, [], false, slice_index_or};
ghost use Rattle.cpm_geom.specs.Geometry.{dpb_of};
ghost use Rattle.cpm_geom.specs.Disk.{records_of};
ghost use Rattle.cpm_volume.specs.Files.{directory_records};
ghost use Rattle.cpm_drive.specs.Calls.{logged_in_marks, logged_in};
ghost use Rattle.cpm_drive.specs.Drive.{directory_code, new_marks, volume_of, drive_after};
ghost use Rattle.cpm_drive.specs.Judged.{with_change, IsEntryWithin};
ghost use Rattle.cpm_drive.specs.Reads.{lent_drive};

use crate::change::Change;
use cpm_directory::{LentImage, ListedImage, Reserved, login};
use cpm_geom::{Format, Image};
use std::alloc::{AllocError, Global};

/// What the system keeps of a drive beside its image.
#[derive(Drop)]
pub struct Marks {
    /// The blocks that are reserved, since the drive was logged in.
    pub reserved: Reserved,
    pub is_logged_in: bool,
    /// Whether the drive may not be written.
    pub is_protected: bool,
}

/// A drive of a session's own.
#[derive(Drop)]
pub struct Drive {
    pub image: ListedImage,
    pub marks: Marks,
}

/// The code of an entry, by its index: its place in its record of four.
pub fn directory_code(index: u16) -> u8
    ensures { result ≡ directory_code index }
{
    (index % 4) as u8
}

impl Marks {
    /// The marks of a drive that was never logged in.
    pub fn new(format: Format, is_protected: bool) -> Marks
        ensures { result ≡ new_marks format is_protected }
    {
        Marks {
            reserved: Reserved::none(format),
            is_logged_in: false,
            is_protected,
        }
    }

    /// The same marks.
    pub fn copied(&self) -> Marks
        ensures { result ≡ self.now }
    {
        Marks {
            reserved: self.reserved.copied(),
            is_logged_in: self.is_logged_in,
            is_protected: self.is_protected,
        }
    }

    /// Logs the drive of an image in: its directory's blocks and those of its files are reserved.
    pub fn log_in(&mut self, image: &LentImage<'_>)
        ensures { self.new ≡ logged_in_marks image.now self.old }
    {
        self.reserved = login(image);
        self.is_logged_in = true;
    }
}

impl Drive {
    /// A drive that was never logged in and may be written.
    pub fn new(image: Image) -> Drive
        ensures { result ≡ lent_drive image (new_marks image.format false) }
    {
        let marks = Marks::new(image.format(), false);
        let image = ListedImage::new(image);
        Drive { image, marks }
    }

    /// An equal drive; refused if out of memory.
    pub fn copy(&self, alloc: Global) -> Result<Drive, AllocError>
        ensures { IfOk result (λ drive. drive ≡ self.now) }
    {
        Ok(Drive {
            image: self.image.copy(alloc)?,
            marks: self.marks.copied(),
        })
    }

    /// Logs the drive in: its directory's blocks and those of its files are reserved.
    pub fn log_in(&mut self)
        ensures { self.new ≡ logged_in self.old }
    {
        self.marks.log_in(&self.image.lent());
    }

    /// Writes an entry that a call changes, unless the drive is protected.
    pub(crate) fn write_change(&mut self, change: Option<Change>)
        requires { IsEntryWithin (dpb_of self.old.image.format) change }
        ensures drive { self.new ≡ drive_after self.old (with_change (volume_of self.old.image self.old.marks.reserved) change) }
        ensures format { self.new.image.format ≡ self.old.image.format }
        ensures records { (n : ℕ) → directory_records (dpb_of self.old.image.format) ≤ n
            → slice_index_or (records_of self.new.image) n [] ≡ slice_index_or (records_of self.old.image) n [] }
    {
        if let Some(change) = change {
            if !self.marks.is_protected {
                self.image.put_entry(change.index, &change.entry);
            }
        }
    }
}
