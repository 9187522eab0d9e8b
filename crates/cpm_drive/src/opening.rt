//! OPEN FILE and MAKE FILE: a file control block takes the extent of a number.

ghost use Rattle.std.specs.Prelude.{◌≡◌, ◌<◌, IfSome, Some, None, if◌then◌else◌, nat_lt};
ghost use Rattle.cpm_geom.specs.Geometry.{dpb_of};
ghost use Rattle.cpm_volume.specs.Files.{record_count_of, extent_number, first_free};
ghost use Rattle.cpm_volume.specs.Operations.{opened_extent, open_extent, open_to_read, open_file_on_volume, made_extent, make_extent, make_file_on_volume};
ghost use Rattle.cpm_directory.specs.Directory.{entries_of};
ghost use Rattle.cpm_drive.specs.Calls.{after_open, open_index, made_file, after_make};
ghost use Rattle.cpm_drive.specs.Judged.{entries_after, make_of, IsEntryWithin};

use crate::change::{Change, entry_after, first_free, first_match};
use crate::closing::group_of;
use crate::drive::{Drive, directory_code};
use cpm_directory::LentImage;
use cpm_volume::{Entry, Extent, Fcb};

/// OPEN FILE on an image that is lent: as `Drive::open_file`.
pub fn open_file_lent(image: &LentImage<'_>, user: u8, fcb: &mut Fcb) -> Option<u8>
    ensures { (result, fcb.new) ≡ after_open fcb.old (open_index (dpb_of image.now.format) (entries_of image.now) user fcb.old.extent)
        (open_file_on_volume (dpb_of image.now.format) (entries_of image.now) user fcb.old.extent) }
{
    let number = u16::from(fcb.extent.ex % 32);
    let group = group_of(&image.format().dpb(), number);
    let index = match first_match(image, None, user, &fcb.extent.name, group) {
        Some(index) => index,
        None => return None,
    };
    match opened_to_read(&image.entry(index).extent, number) {
        Some(extent) => {
            fcb.extent = extent;
            Some(directory_code(index))
        }
        None => None,
    }
}

impl Drive {
    /// OPEN FILE: the file control block takes the extent of its EX, with S2 as 0. The directory code, or none where no
    /// entry is of the extent or the first has a lesser number.
    pub fn open_file(&self, user: u8, fcb: &mut Fcb) -> Option<u8>
        ensures { (result, fcb.new) ≡ after_open fcb.old (open_index (dpb_of self.now.image.format) (entries_of self.now.image) user fcb.old.extent)
            (open_file_on_volume (dpb_of self.now.image.format) (entries_of self.now.image) user fcb.old.extent) }
    {
        open_file_lent(&self.image.lent(), user, fcb)
    }

    /// MAKE FILE: the first entry that is not in use and the file control block become a new extent of its EX, with S2
    /// as 0. The directory code, or none where no entry is free. A protected drive is not written.
    pub fn make_file(&mut self, user: u8, fcb: &mut Fcb) -> Option<u8>
        ensures { made_file result self.new fcb.new
            ≡ after_make self.old fcb.old (first_free (entries_of self.old.image)) (make_file_on_volume (entries_of self.old.image) user fcb.old.extent) }
    {
        let number = u16::from(fcb.extent.ex % 32);
        match make_extent(&self.image.lent(), None, user, &fcb.extent, number) {
            Some(change) => {
                self.write_change(Some(change));
                fcb.extent = change.entry.extent;
                Some(directory_code(change.index))
            }
            None => None,
        }
    }
}

/// The records in the extent of a number, by an entry of number `own` and count `count`.
#[tactic(auto, unfolding(cpm_volume::specs::Files::record_count_of))]
fn record_count_of(number: u16, own: u16, count: u8) -> u8
    ensures { result ≡ record_count_of number own count }
{
    if number < own {
        128
    } else if number == own {
        count
    } else {
        0
    }
}

/// The extent of a number, by the entry of its group.
#[tactic(auto, unfolding(cpm_volume::specs::Operations::opened_extent))]
fn opened_extent(stored: &Extent, number: u16) -> Extent
    requires { number < 512 }
    ensures { result ≡ opened_extent stored.now number }
{
    Extent {
        ex: (number % 32) as u8,
        s2: (number / 32) as u8,
        record_count: record_count_of(number, stored.number(), stored.record_count),
        ..*stored
    }
}

/// The same to read it: none by an entry of a lesser number.
fn opened_to_read(stored: &Extent, number: u16) -> Option<Extent>
    requires { number < 512 }
    ensures { result ≡ if nat_lt (extent_number stored.now) number then None else Some (opened_extent stored.now number) }
{
    if stored.number() < number {
        None
    } else {
        Some(opened_extent(stored, number))
    }
}

/// The extent of a number of a file, if an entry is of its group.
pub(crate) fn open_extent(
    image: &LentImage<'_>,
    change: Option<Change>,
    user: u8,
    name: &[u8; 11],
    number: u16,
) -> Option<Extent>
    requires { number < 512 }
    ensures { result ≡ open_extent (dpb_of image.now.format) (entries_after (entries_of image.now) change) user name.now number }
{
    let group = group_of(&image.format().dpb(), number);
    match first_match(image, change, user, name, group) {
        Some(index) => Some(opened_extent(&entry_after(image, change, index).extent, number)),
        None => None,
    }
}

/// The same to read it: an entry of a lesser number is none.
pub(crate) fn open_to_read(
    image: &LentImage<'_>,
    change: Option<Change>,
    user: u8,
    name: &[u8; 11],
    number: u16,
) -> Option<Extent>
    requires { number < 512 }
    ensures { result ≡ open_to_read (dpb_of image.now.format) (entries_after (entries_of image.now) change) user name.now number }
{
    let group = group_of(&image.format().dpb(), number);
    match first_match(image, change, user, name, group) {
        Some(index) => opened_to_read(&entry_after(image, change, index).extent, number),
        None => None,
    }
}

/// A new extent of a number.
#[tactic(auto, unfolding(cpm_volume::specs::Operations::made_extent))]
fn made_extent(extent: &Extent, number: u16) -> Extent
    requires { number < 512 }
    ensures { result ≡ made_extent extent.now number }
{
    let blocks = [0; 16];
    Extent {
        ex: (number % 32) as u8,
        s1: 0,
        s2: (number / 32) as u8,
        record_count: 0,
        blocks,
        ..*extent
    }
}

/// A new extent of a number at the first entry that is not in use, if one is.
pub(crate) fn make_extent(
    image: &LentImage<'_>,
    change: Option<Change>,
    user: u8,
    extent: &Extent,
    number: u16,
) -> Option<Change>
    requires { number < 512 }
    ensures value { make_of (entries_after (entries_of image.now) change) result
        ≡ make_extent (entries_after (entries_of image.now) change) user extent.now number }
    ensures within { IsEntryWithin (dpb_of image.now.format) result }
    ensures first { IfSome result (λ made_extent. made_extent.index ≡ first_free (entries_after (entries_of image.now) change)) }
{
    match first_free(image, change) {
        Some(index) => {
            let extent = made_extent(extent, number);
            let entry = Entry { user, extent };
            Some(Change { index, entry })
        }
        None => None,
    }
}
