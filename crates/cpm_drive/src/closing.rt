//! CLOSE FILE: the entry of an extent takes the extent's map, number and count.

ghost use Rattle.std.specs.Prelude.{◌≡◌, ◌==◌, ◌&&◌, not, nat_lt, true, List};
ghost use Rattle.std.specs.List.{list_any, list_all, zip};
ghost use Rattle.cpm_geom.specs.Geometry.{dpb_of};
ghost use Rattle.cpm_volume.specs.Files.{group_of};
ghost use Rattle.cpm_volume.specs.Operations.{close_extent, close_file_on_volume, merged, agree, has_bad_block, closed_entry, is_unchanged, same_numbers};
ghost use Rattle.cpm_directory.specs.Directory.{entries_of};
ghost use Rattle.cpm_drive.specs.Calls.{closed_file, close_answer, after_close};
ghost use Rattle.cpm_drive.specs.Judged.{close_of, change_of, IsEntryWithin, agreeing};

use crate::change::{Change, first_match};
use crate::drive::{Drive, directory_code};
use cpm_directory::LentImage;
use cpm_geom::{Dpb, Image};
use cpm_volume::{Entry, Extent, Fault, Fcb};

/// What a close of an extent comes to.
#[derive(Clone, Copy, PartialEq, Eq, Debug)]
pub enum CloseJudgement {
    /// No entry is of the extent, or the two have different numbers at a place.
    Refused,
    Fault(Fault),
    /// An entry is to be written, and the extent has then the map of both.
    Closed(Change, Extent),
}

impl CloseJudgement {
    /// The entry that is to be written.
    fn change(&self) -> Option<Change>
        ensures { result ≡ change_of self.now }
    {
        match self {
            CloseJudgement::Closed(change, _) => Some(*change),
            _ => None,
        }
    }

    /// What the call answers. The file control block takes the map of both.
    #[tactic(auto, unfolding(crate::specs::Calls::close_answer))]
    fn answer(self, fcb: &mut Fcb) -> Result<Option<u8>, Fault>
        ensures { (es : List Entry) → (result, fcb.new) ≡ close_answer fcb.old (close_of es self) }
    {
        match self {
            CloseJudgement::Refused => Ok(None),
            CloseJudgement::Fault(which) => Err(which),
            CloseJudgement::Closed(change, both) => {
                fcb.extent = both;
                Ok(Some(directory_code(change.index)))
            }
        }
    }
}

/// CLOSE FILE on a protected image that is lent: as `Drive::close_file`.
pub fn close_file_lent(image: &Image, user: u8, fcb: &mut Fcb) -> Result<Option<u8>, Fault>
    ensures { (result, fcb.new) ≡ close_answer fcb.old (close_file_on_volume (dpb_of image.now.format) true (entries_of image.now) user fcb.old.extent) }
{
    judge_close(&LentImage::new(image), true, user, &fcb.extent).answer(fcb)
}

impl Drive {
    /// CLOSE FILE: the file's entry and the file control block take the map of both. The directory code, or none where no
    /// entry is of the extent or a place has two different numbers. A block number above the last block is a fault, and
    /// so is a close that would change a protected drive.
    pub fn close_file(&mut self, user: u8, fcb: &mut Fcb) -> Result<Option<u8>, Fault>
        ensures { closed_file result self.new fcb.new ≡ after_close self.old fcb.old
            (close_file_on_volume (dpb_of self.old.image.format) self.old.marks.is_protected (entries_of self.old.image) user fcb.old.extent) }
    {
        let closing = judge_close(
            &self.image.lent(),
            self.marks.is_protected,
            user,
            &fcb.extent,
        );
        self.write_change(closing.change());
        closing.answer(fcb)
    }
}

/// What a close of an extent comes to. Nothing is written.
pub fn judge_close(
    image: &LentImage<'_>,
    is_protected: bool,
    user: u8,
    extent: &Extent,
) -> CloseJudgement
    ensures value { close_of (entries_of image.now) result ≡ close_extent (dpb_of image.now.format) is_protected (entries_of image.now) user extent.now }
    ensures within { IsEntryWithin (dpb_of image.now.format) (change_of result) }
{
    let dpb = image.format().dpb();
    let group = group_of(&dpb, extent.number());
    let Some(index) = first_match(image, None, user, &extent.name, group) else {
        return CloseJudgement::Refused;
    };
    if has_bad_block(&dpb, &extent.blocks) {
        return CloseJudgement::Fault(Fault::BadSector);
    }
    let stored = image.entry(index);
    if !agree(&extent.blocks, &stored.extent.blocks) {
        return CloseJudgement::Refused;
    }
    let blocks = merged(&extent.blocks, &stored.extent.blocks);
    let both = Extent { blocks, ..*extent };
    let entry = closed_entry(&stored, &both);
    if must_stay(is_protected, &stored.extent, &entry.extent) {
        return CloseJudgement::Fault(Fault::ReadOnly);
    }
    CloseJudgement::Closed(Change { index, entry }, both)
}

/// The group of an extent.
#[tactic(auto, unfolding(cpm_volume::specs::Files::group_of))]
pub(crate) fn group_of(dpb: &Dpb, number: u16) -> u16
    ensures { result ≡ group_of dpb.now number }
{
    number / (u16::from(dpb.extent_mask) + 1)
}

/// Whether a number of the map is above the last block.
fn has_bad_block(dpb: &Dpb, blocks: &[u16]) -> bool
    ensures { result ≡ has_bad_block dpb.now blocks.now }
{
    any_above(dpb.last_block, blocks)
}

fn any_above(last: u16, blocks: &[u16]) -> bool
    ensures { result ≡ list_any (λ block. nat_lt last block) blocks.now }
{
    blocks.iter().any(|block| last < *block)
}

/// Whether no place of two maps has two different numbers.
fn agree(blocks: &[u16; 16], stored: &[u16; 16]) -> bool
    ensures { result ≡ agree blocks.now stored.now }
{
    all_agree(blocks, stored)
}

fn all_agree(blocks: &[u16], stored: &[u16]) -> bool
    ensures { result ≡ list_all agreeing (zip blocks.now stored.now) }
{
    blocks
        .iter()
        .zip(stored)
        .all(|(x, y)| *x == 0 || *y == 0 || *x == *y)
}

/// Two maps as one: the numbers of the first, and at its other places those of the second.
fn merged(blocks: &[u16; 16], stored: &[u16; 16]) -> [u16; 16]
    ensures { result ≡ merged blocks.now stored.now }
{
    let mut both = [0; 16];
    for place in 0..16 {
        both[place] = if blocks[place] == 0 {
            stored[place]
        } else {
            blocks[place]
        };
    }
    both
}

/// The entry once an extent is closed into it.
#[tactic(auto, unfolding(cpm_volume::specs::Operations::closed_entry))]
fn closed_entry(stored: &Entry, extent: &Extent) -> Entry
    ensures { result ≡ closed_entry stored.now extent.now }
{
    let blocks = extent.blocks;
    let extent = if extent.number() < stored.extent.number() {
        Extent {
            blocks,
            ..stored.extent
        }
    } else {
        Extent {
            ex: extent.ex,
            s2: extent.s2,
            record_count: extent.record_count,
            blocks,
            ..stored.extent
        }
    };
    Entry {
        user: stored.user,
        extent,
    }
}

/// Whether a drive is protected and a close would change its entry.
fn must_stay(is_protected: bool, old: &Extent, new: &Extent) -> bool
    ensures { result ≡ (is_protected && not (is_unchanged old.now new.now)) }
{
    is_protected && !is_unchanged(old, new)
}

/// Whether a close writes nothing that is another than it was.
#[tactic(auto, unfolding(cpm_volume::specs::Operations::is_unchanged))]
fn is_unchanged(old: &Extent, new: &Extent) -> bool
    ensures { result ≡ is_unchanged old.now new.now }
{
    old.ex == new.ex
        && old.s2 == new.s2
        && old.record_count == new.record_count
        && same_numbers(&old.blocks, &new.blocks)
}

fn same_numbers(old: &[u16; 16], new: &[u16; 16]) -> bool
    ensures { result ≡ same_numbers old.now new.now }
{
    all_same(old, new)
}

fn all_same(old: &[u16], new: &[u16]) -> bool
    ensures { result ≡ list_all (λ p. p.0 == p.1) (zip old.now new.now) }
{
    old.iter().zip(new).all(|(x, y)| *x == *y)
}
