//! The records of a file, by the entries of a directory.

ghost use Rattle.std.specs.Prelude.{◌≡◌, ◌≢◌, ◌<◌, ◌≤◌, ◌+◌, ◌-◌, ◌*◌, ◌/◌, ◌%◌, ◌==◌, IfSome, length};
ghost use Rattle.std.specs.List.{list_all, list_any, zip};
ghost use Rattle.cpm_geom.specs.Geometry.{dpb_of, IsRecord};
ghost use Rattle.cpm_geom.specs.Disk.{records_of};
ghost use Rattle.cpm_volume.specs.Files.{deleted, same_name, extent_number, group_of, is_of, record_count_of, map_place, entry_block, drive_record, record_in};
ghost use Rattle.cpm_volume.specs.Names.{is_named};
ghost use Rattle.cpm_directory.specs.Directory.{entries_of};
ghost use Rattle.cpm_image_files.specs.ImageFiles.{IsSoundDisk};
ghost use Rattle.cpm_image_files.specs.Reach.{is_of_file, IsEnd, IsEntryOf, block_by, IsOnDrive};
ghost use Rattle.cpm_image_files.specs.Taken.{HasRecords, taken_record};

use crate::name::FileName;
use cpm_directory::{LentImage, is_named};
use cpm_geom::Format;
use cpm_volume::Entry;

/// The records of an extent.
const EXTENT_RECORDS: u32 = 128;

/// Whether an entry is of a user and a name, whatever the attribute bits.
#[tactic(auto, unfolding(crate::specs::Reach::is_of_file))]
pub(crate) fn is_of_file(user: u8, name: &[u8; 11], entry: &Entry) -> bool
    ensures { result ≡ is_of_file user name.now entry.now }
{
    entry.user == user && is_same_name(name, &entry.extent.name)
}

/// Whether two names agree in the low seven bits of each character.
pub(crate) fn is_same_name(name: &[u8; 11], other: &[u8; 11]) -> bool
    ensures { result ≡ same_name name.now other.now }
{
    all_same(name, other)
}

fn all_same(name: &[u8], other: &[u8]) -> bool
    ensures { result ≡ list_all (λ p. p.0 % 128 == p.1 % 128) (zip name.now other.now) }
{
    name.iter().zip(other).all(|(a, b)| *a % 128 == *b % 128)
}

/// The group of an extent.
#[tactic(auto, unfolding(cpm_volume::specs::Files::group_of))]
fn group_of(format: Format, extent: u32) -> u32
    ensures { result ≡ group_of (dpb_of format) extent }
{
    extent / (u32::from(format.dpb().extent_mask) + 1)
}

/// How many records the extents of an entry have.
fn records_in_entry(format: Format) -> u32
    ensures value { result ≡ 128 * ((dpb_of format).extent_mask + 1) }
    ensures small { result ≤ 256 }
{
    EXTENT_RECORDS * (u32::from(format.dpb().extent_mask) + 1)
}

/// Whether an entry is of a user, a name and a group of extents.
#[tactic(auto, unfolding(cpm_volume::specs::Files::is_of))]
fn is_of(format: Format, user: u8, name: &[u8; 11], group: u32, entry: &Entry) -> bool
    ensures { result ≡ is_of (dpb_of format) user name.now group entry.now }
{
    entry.user == user
        && is_same_name(name, &entry.extent.name)
        && group_of(format, u32::from(entry.extent.number())) == group
}

/// The entry of a record's group of extents, if the directory has one.
fn entry_of(image: &LentImage<'_>, user: u8, name: &[u8; 11], number: u32) -> Option<Entry>
    ensures { IsEntryOf image.now user name.now number result }
{
    let format = image.format();
    let group = group_of(format, number / EXTENT_RECORDS);
    for index in 0..format.dpb().last_entry + 1 {
        let entry = image.entry(index);
        if is_of(format, user, name, group, &entry) {
            return Some(entry);
        }
    }
    None
}

/// The entry of a record's group of extents, where that of the record before it is known.
pub(crate) fn next_entry(
    image: &LentImage<'_>,
    user: u8,
    name: &[u8; 11],
    number: u32,
    before: Option<Entry>,
) -> Option<Entry>
    requires { 0 < number → IsEntryOf image.now user name.now (number - 1) before }
    ensures { IsEntryOf image.now user name.now number result }
{
    if number % records_in_entry(image.format()) == 0 {
        entry_of(image, user, name, number)
    } else {
        before
    }
}

/// The records of an extent that an entry has.
#[tactic(auto, unfolding(cpm_volume::specs::Files::record_count_of))]
fn records_in_extent(entry: &Entry, extent: u32) -> u32
    ensures { result ≡ record_count_of extent (extent_number entry.now.extent) entry.now.extent.record_count }
{
    let own = u32::from(entry.extent.number());
    if extent < own {
        EXTENT_RECORDS
    } else if extent == own {
        u32::from(entry.extent.record_count)
    } else {
        0
    }
}

/// The place of a record's block in the map of its entry.
fn map_place(format: Format, number: u32) -> usize
    ensures place { result ≡ map_place (dpb_of format) number }
    ensures within { result < 16 }
{
    let dpb = format.dpb();
    let block_size = u32::from(dpb.block_mask) + 1;
    let part = number / EXTENT_RECORDS % (u32::from(dpb.extent_mask) + 1);
    (part * (EXTENT_RECORDS / block_size) + number % EXTENT_RECORDS / block_size) as usize
}

/// The block of a record by the entry of its group, 0 where it has none.
fn block_of(format: Format, entry: &Entry, number: u32) -> u16
    ensures { result ≡ entry_block (dpb_of format) entry.now number }
{
    if number % EXTENT_RECORDS < records_in_extent(entry, number / EXTENT_RECORDS) {
        entry.extent.blocks[map_place(format, number)]
    } else {
        0
    }
}

/// The record of a drive that is a record of a file, by its block.
fn drive_record(format: Format, block: u16, number: u32) -> u16
    requires { block ≤ (dpb_of format).last_block }
    ensures value { result ≡ drive_record (dpb_of format) block number }
    ensures there { IsRecord format result }
{
    let block_size = u16::from(format.dpb().block_mask) + 1;
    block * block_size + (number % EXTENT_RECORDS) as u16 % block_size
}

/// A record of a file as it is taken off a disk, by the entry of its group: zeros where it has no block.
pub(crate) fn record_by(image: &LentImage<'_>, entry: Option<Entry>, number: u32) -> [u8; 128]
    requires { IfSome entry (λ entry. IsOnDrive (dpb_of image.now.format) entry) }
    ensures value { result ≡ taken_record
        (record_in (dpb_of image.now.format) (records_of image.now) (block_by (dpb_of image.now.format) entry number) number) }
    ensures size { length result ≡ 128 }
{
    match entry {
        Some(entry) => record_in(image, block_of(image.format(), &entry, number), number),
        None => [0; 128],
    }
}

/// A record of a file by its block, zeros where it is 0.
fn record_in(image: &LentImage<'_>, block: u16, number: u32) -> [u8; 128]
    requires { block ≤ (dpb_of image.now.format).last_block }
    ensures { result ≡ taken_record (record_in (dpb_of image.now.format) (records_of image.now) block number) }
{
    let mut record = [0; 128];
    if block == 0 {
        return record;
    }
    let place = drive_record(image.format(), block, number);
    record.copy_from_slice(image.record(place).unwrap());
    record
}

/// The number after the last record that an entry has a block for; 0 where it has none.
fn end_of(format: Format, entry: &Entry) -> u32
    ensures end { IsEnd (dpb_of format) entry.now result }
    ensures small { result ≤ 65536 }
{
    let size = records_in_entry(format);
    let start = group_of(format, u32::from(entry.extent.number())) * size;
    let mut end = 0;
    for number in start..start + size {
        if block_of(format, entry, number) != 0 {
            end = number + 1;
        }
    }
    end
}

/// How many records a file has, up to its last; 0 where there is no such file.
pub(crate) fn record_count(image: &LentImage<'_>, user: u8, name: &[u8; 11]) -> u32
    requires user { user ≢ deleted }
    requires sound { IsSoundDisk image.now }
    ensures records { HasRecords image.now user name.now result }
    ensures small { result ≤ 65536 }
{
    let format = image.format();
    let mut count = 0;
    for index in 0..format.dpb().last_entry + 1 {
        let entry = image.entry(index);
        if is_of_file(user, name, &entry) {
            count = count.max(end_of(format, &entry));
        }
    }
    count
}

/// Whether the directory has an entry of a file.
pub(crate) fn is_there(image: &LentImage<'_>, file: &FileName) -> bool
    ensures { result ≡ list_any (is_named file.now.user file.now.name) (entries_of image.now) }
{
    for index in 0..image.format().dpb().last_entry + 1 {
        if is_named(file.user(), file.name(), &image.entry(index)) {
            return true;
        }
    }
    false
}
