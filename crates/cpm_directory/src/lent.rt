//! An image that is lent to a call.

ghost use Rattle.std.specs.Prelude.{◌≡◌, ◌≤◌, MatchResult, length};
ghost use Rattle.cpm_geom.specs.Disk.{IsDisk, sector_at};
ghost use Rattle.cpm_geom.specs.Geometry.{dpb_of, record_index, IsRecord};
ghost use Rattle.cpm_volume.specs.Files.{entry_at};
ghost use Rattle.cpm_directory.specs.Directory.{entries_of, Lists};

use crate::directory::entry;
use crate::listed::MOST_ENTRIES;
use cpm_geom::{Format, GeomError, Image};
use cpm_volume::Entry;
use std::marker::Model;

/// An image that is lent to a call, seen as its disk. The entries of its directory may be lent with it.
#[derive(Drop)]
pub struct LentImage<'a> {
    image: &'a Image,
    entries: Option<&'a [Entry; MOST_ENTRIES]>,
}

impl<'a> Model for LentImage<'a> {
    ghost use Rattle.std.specs.Prelude.{IfSome};
    ghost use Rattle.cpm_geom.specs.Disk.{Disk};
    ghost use Rattle.cpm_directory.specs.Directory.{Lists};

    ghost Value = { Disk };

    ghost view = { λ lent. lent.image.now };

    ghost invariant = { λ lent. IfSome lent.entries (λ entries. Lists entries.now lent.image.now) };
}

impl<'a> LentImage<'a> {
    /// An image whose entries aren't kept.
    pub fn new(image: &'a Image) -> LentImage<'a>
        ensures { result ≡ image.now }
    {
        LentImage {
            image,
            entries: None,
        }
    }

    /// An image with the entries of its directory.
    pub(crate) fn with_entries(
        image: &'a Image,
        entries: &'a [Entry; MOST_ENTRIES],
    ) -> LentImage<'a>
        requires { Lists entries.now image.now }
        ensures { result ≡ image.now }
    {
        LentImage {
            image,
            entries: Some(entries),
        }
    }

    /// The image's format.
    pub fn format(&self) -> Format
        ensures format { result ≡ self.now.format }
        ensures whole { IsDisk self.now }
    {
        self.image.format()
    }

    /// The bytes of a record.
    pub fn record(&self, number: u16) -> Result<&'a [u8], GeomError>
        ensures { MatchResult result
            (λ bytes. IsRecord self.now.format number × (bytes.now ≡ sector_at self.now (record_index self.now.format number)) × (length bytes.now ≡ 128))
            (λ e. ¬ IsRecord self.now.format number × (e ≡ GeomError.NoSuchSector)) }
    {
        self.image.record(number)
    }

    /// The entry at an index.
    pub fn entry(&self, index: u16) -> Entry
        requires { index ≤ (dpb_of self.now.format).last_entry }
        ensures value { result ≡ entry_at (entries_of self.now) index }
    {
        match self.entries {
            Some(entries) => entries[usize::from(index)],
            None => entry(self.image, index),
        }
    }
}
