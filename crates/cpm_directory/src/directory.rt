//! The directory of a drive: its entries in the first records of an image.

ghost use Rattle.std.specs.Prelude.{◌≡◌, ◌<◌, ◌≤◌, ◌+◌, ◌*◌, ◌/◌, ◌%◌, length, MatchResult, slice_set};
ghost use Rattle.cpm_geom.specs.Geometry.{dpb_of, record_index};
ghost use Rattle.cpm_geom.specs.Disk.{sector_at, with_sector};
ghost use Rattle.cpm_volume.specs.Files.{entry_at, first_free};
ghost use Rattle.cpm_volume.specs.Encoding.{entry_bytes, IsStorable};
ghost use Rattle.cpm_directory.specs.Directory.{entries_of, record_with_entry, PutsEntry};
ghost use Rattle.cpm_directory.specs.Matching.{match_from};

use crate::lent::LentImage;
use crate::pattern::Pattern;
use cpm_geom::Image;
use cpm_volume::Entry;
use thiserror::Error;

/// Why a directory has not what is asked of it.
#[derive(Clone, Copy, Debug, PartialEq, Eq, Drop, Error)]
pub enum DirectoryError {
    #[error("no such entry")]
    NotFound,
    #[error("no directory entry is free")]
    NoEntryFree,
    #[error("no block is free")]
    NoBlockFree,
    #[error("a block number above the last block")]
    BlockAboveLast,
}

/// The mark of an entry that is not in use.
pub const DELETED: u8 = 0xE5;

/// The entry at an index.
pub fn entry(image: &Image, index: u16) -> Entry
    requires { index ≤ (dpb_of image.now.format).last_entry }
    ensures value { result ≡ entry_at (entries_of image.now) index }
{
    let record = image.record(index / 4).unwrap();
    let start = 32 * usize::from(index % 4);
    let mut bytes = [0; 32];
    bytes.copy_from_slice(&record[start..start + 32]);
    Entry::from_bytes(&image.format().dpb(), &bytes)
}

/// Writes the entry at an index, and no other.
pub fn put_entry(image: &mut Image, index: u16, entry: &Entry)
    requires { index ≤ (dpb_of image.old.format).last_entry }
    ensures { PutsEntry image.old index entry.now image.new }
{
    let place = index / 4;
    let start = 32 * usize::from(index % 4);
    let mut record = [0; 128];
    record.copy_from_slice(image.record(place).unwrap());
    record[start..start + 32].copy_from_slice(&entry.to_bytes(&image.format().dpb()));
    image.put_record(place, &record).unwrap();
}

/// The index of the first entry from a place on that is looked for.
pub fn find(image: &LentImage<'_>, pattern: &Pattern, from: u16) -> Result<u16, DirectoryError>
    ensures { MatchResult result
        (λ index. (index ≡ match_from (dpb_of image.now.format) pattern.now (entries_of image.now) from) × (index < length (entries_of image.now)))
        (λ e. (e ≡ DirectoryError.NotFound) × (match_from (dpb_of image.now.format) pattern.now (entries_of image.now) from ≡ length (entries_of image.now))) }
{
    let dpb = image.format().dpb();
    for index in from..dpb.last_entry + 1 {
        if pattern.matches(&dpb, &image.entry(index)) {
            return Ok(index);
        }
    }
    Err(DirectoryError::NotFound)
}

/// The index of the first entry that is not in use.
pub fn first_free(image: &LentImage<'_>) -> Result<u16, DirectoryError>
    ensures { MatchResult result
        (λ index. (index ≡ first_free (entries_of image.now)) × (index < length (entries_of image.now)))
        (λ e. (e ≡ DirectoryError.NoEntryFree) × (first_free (entries_of image.now) ≡ length (entries_of image.now))) }
{
    for index in 0..image.format().dpb().last_entry + 1 {
        if image.entry(index).user == DELETED {
            return Ok(index);
        }
    }
    Err(DirectoryError::NoEntryFree)
}
