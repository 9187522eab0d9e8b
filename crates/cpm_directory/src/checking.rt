//! Whether the directory of a drive agrees with itself.

ghost use Rattle.std.specs.Prelude.{◌≡◌, ◌<◌, ◌≤◌, ◌+◌, ◌%◌, ◌==◌, ◌||◌, false, slice_index_or};
ghost use Rattle.std.specs.List.{list_all, list_any, zip};
ghost use Rattle.cpm_geom.specs.Geometry.{dpb_of};
ghost use Rattle.cpm_volume.specs.Files.{extent_number, group_of, is_of, same_name};
ghost use Rattle.cpm_directory.specs.Directory.{entries_of};
ghost use Rattle.cpm_directory.specs.Login.{has_block};
ghost use Rattle.cpm_directory.specs.WellFormed.{is_bad_block, bad_block_in, owner_of, twice_block_in, twice_entry_in, fault_of, IsChecked, AreBefore};

use crate::bits::Bits;
use crate::directory::{DELETED, entry};
use crate::fault::DriveFault;
use crate::pattern::group_of;
use crate::reserved::{is_directory_block, mark};
use cpm_geom::{Dpb, Image};
use cpm_volume::Entry;

/// Whether the directory of a drive agrees with itself: each number in an entry is of a block that files can have, and stands once; and no two
/// entries are of the same user, name and group of extents. The fault of the first entry that has one is answered, in it a bad number
/// before a block that stands twice, and that before an entry that stands twice.
pub fn well_formed(image: &Image) -> Result<(), DriveFault>
    ensures { IsChecked (dpb_of image.now.format) (entries_of image.now) result }
{
    let mut before = Bits::none();
    for index in 0..image.format().dpb().last_entry + 1 {
        if let Some(fault) = fault_in(image, index, &before) {
            return Err(fault);
        }
        add_blocks(image, index, &mut before);
    }
    Ok(())
}

/// What is wrong with the entry at an index, where the blocks of the entries before it are known.
#[tactic(auto, unfolding(crate::specs::WellFormed::fault_of))]
fn fault_in(image: &Image, index: u16, before: &Bits) -> Option<DriveFault>
    requires index { index ≤ (dpb_of image.now.format).last_entry }
    requires before { AreBefore (entries_of image.now) index before.now }
    ensures { result ≡ fault_of (dpb_of image.now.format) (entries_of image.now) index }
{
    if entry(image, index).user == DELETED {
        return None;
    }
    if let Some(fault) = bad_block(image, index) {
        return Some(fault);
    }
    if let Some(fault) = twice_block(image, index, before) {
        return Some(fault);
    }
    twice_entry(image, index)
}

/// The first number in an entry's map that no file can have.
fn bad_block(image: &Image, index: u16) -> Option<DriveFault>
    requires { index ≤ (dpb_of image.now.format).last_entry }
    ensures { result ≡ bad_block_in (dpb_of image.now.format) (entries_of image.now) index }
{
    let dpb = image.format().dpb();
    for block in entry(image, index).extent.blocks {
        if is_bad_block(&dpb, block) {
            return Some(DriveFault::BadBlock {
                entry: index,
                block,
            });
        }
    }
    None
}

/// Whether no file can have a block of this number.
#[tactic(auto, unfolding(crate::specs::WellFormed::is_bad_block))]
fn is_bad_block(dpb: &Dpb, block: u16) -> bool
    ensures { result ≡ is_bad_block dpb.now block }
{
    block != 0 && (block > dpb.last_block || is_directory_block(dpb, block))
}

/// The first block in an entry's map that stands before: in an earlier entry or earlier in this map.
fn twice_block(image: &Image, index: u16, before: &Bits) -> Option<DriveFault>
    requires index { index ≤ (dpb_of image.now.format).last_entry }
    requires before { AreBefore (entries_of image.now) index before.now }
    requires good { bad_block_in (dpb_of image.now.format) (entries_of image.now) index ≡ None }
    ensures { result ≡ twice_block_in (entries_of image.now) index }
{
    let blocks = entry(image, index).extent.blocks;
    for (place, block) in blocks.iter().enumerate() {
        if *block != 0 && is_among(before, &blocks[..place], *block) {
            return Some(DriveFault::TwiceBlock {
                entry: index,
                block: *block,
                owner: owner_of(image, *block),
            });
        }
    }
    None
}

/// Whether a block is of those before an entry, or of these numbers.
fn is_among(before: &Bits, numbers: &[u16], block: u16) -> bool
    requires { block < 512 }
    ensures { result ≡ (slice_index_or before.now block false || list_any (λ number. number == block) numbers.now) }
{
    before.contains(usize::from(block)) || numbers.contains(&block)
}

/// The index of the first entry in use that has a block; the number of entries where none has it.
fn owner_of(image: &Image, block: u16) -> u16
    ensures { result ≡ owner_of (entries_of image.now) block }
{
    let count = image.format().dpb().last_entry + 1;
    for index in 0..count {
        if has_block(&entry(image, index), block) {
            return index;
        }
    }
    count
}

/// Whether an entry is in use and has a block.
#[tactic(auto, unfolding(crate::specs::Login::has_block))]
fn has_block(entry: &Entry, block: u16) -> bool
    ensures { result ≡ has_block block entry.now }
{
    entry.user != DELETED && entry.extent.blocks.contains(&block)
}

/// The first earlier entry of the same file and group of extents as the entry at an index.
fn twice_entry(image: &Image, index: u16) -> Option<DriveFault>
    requires { index ≤ (dpb_of image.now.format).last_entry }
    ensures { result ≡ twice_entry_in (dpb_of image.now.format) (entries_of image.now) index }
{
    let dpb = image.format().dpb();
    let this = entry(image, index);
    for earlier in 0..index {
        if is_of_same(&dpb, &this, &entry(image, earlier)) {
            return Some(DriveFault::TwiceEntry {
                entry: index,
                earlier,
            });
        }
    }
    None
}

/// Whether another entry is of the user, the name and the group of extents of an entry.
#[tactic(auto, unfolding(cpm_volume::specs::Files::is_of))]
fn is_of_same(dpb: &Dpb, entry: &Entry, other: &Entry) -> bool
    ensures { result ≡ is_of dpb.now entry.now.user entry.now.extent.name (group_of dpb.now (extent_number entry.now.extent)) other.now }
{
    other.user == entry.user
        && is_same_name(&entry.extent.name, &other.extent.name)
        && group_of(dpb, other.extent.number()) == group_of(dpb, entry.extent.number())
}

/// Whether two names agree in the low seven bits of each character.
fn is_same_name(name: &[u8; 11], other: &[u8; 11]) -> bool
    ensures { result ≡ same_name name.now other.now }
{
    all_same(name, other)
}

fn all_same(name: &[u8], other: &[u8]) -> bool
    ensures { result ≡ list_all (λ p. p.0 % 128 == p.1 % 128) (zip name.now other.now) }
{
    name.iter().zip(other).all(|(a, b)| *a % 128 == *b % 128)
}

/// The blocks of the entry at an index are added to those of the entries before it.
fn add_blocks(image: &Image, index: u16, blocks: &mut Bits)
    requires index { index ≤ (dpb_of image.now.format).last_entry }
    requires before { AreBefore (entries_of image.now) index blocks.old }
    ensures { AreBefore (entries_of image.now) (index + 1) blocks.new }
{
    let entry = entry(image, index);
    if entry.user != DELETED {
        mark(blocks, &entry.extent.blocks);
    }
}
