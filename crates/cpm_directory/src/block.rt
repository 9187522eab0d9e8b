//! The block of a record.

ghost use Rattle.std.specs.Prelude.{◌≡◌, ◌≤◌, ◌<◌, MatchResult};
ghost use Rattle.cpm_volume.specs.Files.{block_number, entry_place_of};

use crate::directory::DirectoryError;
use cpm_geom::Dpb;
use cpm_volume::{Extent, Fcb};

/// The block of the record that a file control block stands at, 0 for none. A number that the drive has no block for
/// is refused.
pub fn block_at(dpb: &Dpb, fcb: &Fcb) -> Result<u16, DirectoryError>
    ensures { MatchResult result
        (λ block. (block ≡ block_number fcb.now.extent (entry_place_of dpb.now fcb.now.extent fcb.now.current_record)) × (block ≤ dpb.now.last_block))
        (λ e. (e ≡ DirectoryError.BlockAboveLast)
        × (dpb.now.last_block < block_number fcb.now.extent (entry_place_of dpb.now fcb.now.extent fcb.now.current_record))) }
{
    let block = number_at(
        &fcb.extent,
        entry_place_of(dpb, &fcb.extent, fcb.current_record),
    );
    if block > dpb.last_block {
        return Err(DirectoryError::BlockAboveLast);
    }
    Ok(block)
}

/// The place of a record of an extent among its block numbers.
#[tactic(auto, unfolding(cpm_volume::specs::Files::entry_place_of))]
fn entry_place_of(dpb: &Dpb, extent: &Extent, current: u8) -> usize
    ensures { result ≡ entry_place_of dpb.now extent.now current }
{
    let block_size = usize::from(dpb.block_mask) + 1;
    let part = usize::from(extent.number()) % (usize::from(dpb.extent_mask) + 1);
    part * (128 / block_size) + usize::from(current) / block_size
}

/// The block number at a place, 0 past the end.
#[tactic(auto, unfolding(cpm_volume::specs::Files::block_number))]
fn number_at(extent: &Extent, place: usize) -> u16
    ensures { result ≡ block_number extent.now place }
{
    match extent.blocks.get(place) {
        Some(block) => *block,
        None => 0,
    }
}
