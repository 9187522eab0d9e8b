//! The reserved blocks of a drive.

ghost use Rattle.std.specs.Prelude.{◌≡◌, ◌<◌, ◌≤◌, ◌+◌, ◌⊎◌, ◌==◌, ◌&&◌, ◌||◌, ℕ, length, map, replicate, OnOk, if◌then◌else◌, ◌++◌};
ghost use Rattle.std.specs.Prelude.{MatchResult, not, nat_lt, slice_set, slice_index_or, false, true};
ghost use Rattle.std.specs.List.{list_any};
ghost use Rattle.cpm_geom.specs.Geometry.{dpb_of};
ghost use Rattle.cpm_volume.specs.Reserved.{least_free, is_reserved, is_directory_block};
ghost use Rattle.cpm_volume.specs.Names.{reserved_after};
ghost use Rattle.cpm_directory.specs.Directory.{entries_of};
ghost use Rattle.cpm_directory.specs.Login.{reserved_at_login};

use crate::bits::Bits;
use crate::directory::{DELETED, DirectoryError};
use crate::lent::LentImage;
use crate::pattern::is_named;
use cpm_geom::{Dpb, Format};
use std::alloc::AllocError;
use std::marker::Model;

/// The reserved blocks of a drive: for each of its block numbers whether it is reserved.
#[derive(Drop)]
pub struct Reserved {
    blocks: Bits,
    count: usize,
}

impl Model for Reserved {
    ghost use Rattle.std.specs.Prelude.{◌≡◌, ◌≤◌, Bool, List, length, take};

    ghost Value = { List Bool };

    ghost view = { λ reserved. take reserved.count reserved.blocks };

    ghost invariant = { λ reserved. (length reserved.blocks ≡ 512) × (reserved.count ≤ 512) };
}

impl Reserved {
    /// No block of a drive of this format is reserved.
    pub fn none(format: Format) -> Reserved
        ensures { result ≡ replicate ((dpb_of format).last_block + 1) false }
    {
        Reserved {
            blocks: Bits::none(),
            count: usize::from(format.dpb().last_block) + 1,
        }
    }

    /// The blocks of these marks, 512 at most: 1 for a reserved block, any other number for one that is free.
    pub fn from_marks(marks: &[u8]) -> Reserved
        requires { length marks.now ≤ 512 }
        ensures { result ≡ map (λ mark. mark == 1) marks.now }
    {
        let mut blocks = Bits::none();
        for (block, mark) in marks.iter().enumerate() {
            if *mark == 1 {
                blocks.insert(block);
            }
        }
        Reserved {
            blocks,
            count: marks.len(),
        }
    }

    /// Appends a mark for each block: 1 for a reserved block, 0 for a free one. Refused if out of memory.
    pub fn append_marks(&self, out: &mut Vec<u8>) -> Result<(), AllocError>
        ensures { OnOk result (out.new.items ≡ out.old.items ++ map (λ reserved. if reserved then 1 else 0) self.now) }
    {
        for block in 0..self.count {
            out.push(u8::from(self.blocks.contains(block)))?;
        }
        Ok(())
    }

    /// How many blocks there are.
    pub fn len(&self) -> usize
        ensures value { result ≡ length self.now }
        ensures fits { result ≤ 512 }
    {
        self.count
    }

    /// The same blocks.
    pub fn copied(&self) -> Reserved
        ensures { result ≡ self.now }
    {
        Reserved {
            blocks: self.blocks.copied(),
            count: self.count,
        }
    }

    /// Whether the block is reserved; a number above the last block is.
    pub fn contains(&self, block: u16) -> bool
        ensures { result ≡ is_reserved self.now block }
    {
        let block = usize::from(block);
        block >= self.count || self.blocks.contains(block)
    }

    /// Reserves the lowest block that is not reserved, of a drive with this last block.
    pub fn take_lowest(&mut self, last_block: u16) -> Result<u16, DirectoryError>
        ensures { MatchResult result
            (λ block. (block ≡ least_free self.old) × (block < length self.old) × (block ≤ last_block) × (self.new ≡ slice_set self.old block true))
            (λ e. (e ≡ DirectoryError.NoBlockFree) × ((least_free self.old ≡ length self.old) ⊎ (last_block < least_free self.old)) × (self.new ≡ self.old)) }
    {
        let lowest = self.blocks.lowest_clear();
        if lowest >= self.count || lowest > usize::from(last_block) {
            return Err(DirectoryError::NoBlockFree);
        }
        self.blocks.insert(lowest);
        Ok(lowest as u16)
    }

    /// Gives back a block; a number above the last block changes nothing.
    pub fn free(&mut self, block: u16)
        ensures { self.new ≡ slice_set self.old block false }
    {
        let block = usize::from(block);
        if block < self.count {
            self.blocks.remove(block);
        }
    }
}

/// The blocks that are reserved where a drive is logged in: the directory's, and those in its entries.
pub fn login(image: &LentImage<'_>) -> Reserved
    ensures { result ≡ reserved_at_login (dpb_of image.now.format) (entries_of image.now) }
{
    let dpb = image.format().dpb();
    let mut blocks = directory_blocks(&dpb);
    for index in 0..dpb.last_entry + 1 {
        let entry = image.entry(index);
        if entry.user != DELETED {
            mark(&mut blocks, &entry.extent.blocks);
        }
    }
    Reserved {
        blocks,
        count: usize::from(dpb.last_block) + 1,
    }
}

/// The blocks of the directory.
fn directory_blocks(dpb: &Dpb) -> Bits
    ensures size { length result ≡ 512 }
    ensures value { (b : ℕ) → b < 512 → slice_index_or result b true ≡ is_directory_block dpb.now b }
{
    let mut blocks = Bits::none();
    for block in 0..512u16 {
        if is_directory_block(dpb, block) {
            blocks.insert(usize::from(block));
        }
    }
    blocks
}

/// Whether AL0 or AL1 has the block's bit.
#[tactic(auto, unfolding(cpm_volume::specs::Reserved::is_directory_block))]
pub(crate) fn is_directory_block(dpb: &Dpb, block: u16) -> bool
    ensures { result ≡ is_directory_block dpb.now block }
{
    block < 16 && (dpb.directory_bits >> (15 - block)) % 2 == 1
}

/// Marks the blocks of these numbers, of which 0 is none.
pub(crate) fn mark(blocks: &mut Bits, numbers: &[u16])
    requires { length blocks.old ≡ 512 }
    ensures size { length blocks.new ≡ 512 }
    ensures zero { slice_index_or blocks.new 0 true ≡ slice_index_or blocks.old 0 true }
    ensures others { (b : ℕ) → 0 < b → b < 512 → slice_index_or blocks.new b true
        ≡ (slice_index_or blocks.old b true || list_any (λ number. number == b) numbers.now) }
{
    for number in numbers {
        if 0 < *number {
            blocks.insert(usize::from(*number));
        }
    }
}

/// The blocks that stay reserved where the files of a name are erased: theirs are free but the directory's.
pub fn without_files(
    reserved: &Reserved,
    image: &LentImage<'_>,
    user: u8,
    name: &[u8; 11],
) -> Reserved
    ensures { result ≡ reserved_after (dpb_of image.now.format) user name.now (entries_of image.now) reserved.now }
{
    let dpb = image.format().dpb();
    let mut blocks = reserved.blocks.copied();
    for index in 0..dpb.last_entry + 1 {
        let entry = image.entry(index);
        if is_named(user, name, &entry) {
            release(&dpb, &mut blocks, &entry.extent.blocks);
        }
    }
    Reserved {
        blocks,
        count: reserved.count,
    }
}

/// Frees the blocks of these numbers, of which 0 is none, but the directory's.
fn release(dpb: &Dpb, blocks: &mut Bits, numbers: &[u16])
    requires { length blocks.old ≡ 512 }
    ensures size { length blocks.new ≡ 512 }
    ensures value { (b : ℕ) → b < 512 → slice_index_or blocks.new b true
        ≡ (slice_index_or blocks.old b true && (is_directory_block dpb.now b || not (nat_lt 0 b && list_any (λ number. number == b) numbers.now))) }
{
    for number in numbers {
        if 0 < *number && !is_directory_block(dpb, *number) {
            blocks.remove(usize::from(*number));
        }
    }
}
