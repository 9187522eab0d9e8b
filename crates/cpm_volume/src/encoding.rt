//! What the bytes of directory entries and of file control blocks have in common.

ghost use Rattle.std.specs.Prelude.{◌≡◌, ◌<◌, ◌≤◌, length};
ghost use Rattle.cpm_volume.specs.Encoding.{extent_of, block_number_in, extent_byte, map_byte};

use crate::extent::Extent;
use cpm_geom::Dpb;

/// The extent of bytes 1 to 31.
pub(crate) fn extent_from_bytes(dpb: &Dpb, bytes: &[u8]) -> Extent
    requires { 32 ≤ length bytes.now }
    ensures { result ≡ extent_of dpb.now bytes.now }
{
    let mut name = [0; 11];
    name.copy_from_slice(&bytes[1..12]);
    let mut blocks = [0; 16];
    for place in 0..16 {
        blocks[place] = block_number_in(dpb, bytes, place);
    }
    Extent {
        name,
        ex: bytes[12],
        s1: bytes[13],
        s2: bytes[14],
        record_count: bytes[15],
        blocks,
    }
}

/// The block number at a place of the map.
#[tactic(auto, unfolding(crate::specs::Encoding::block_number_in))]
fn block_number_in(dpb: &Dpb, bytes: &[u8], place: usize) -> u16
    requires place { place < 16 }
    requires bytes { 32 ≤ length bytes.now }
    ensures { result ≡ block_number_in dpb.now bytes.now place }
{
    if dpb.last_block < 256 {
        u16::from(bytes[16 + place])
    } else if place < 8 {
        u16::from(bytes[16 + 2 * place]) + 256 * u16::from(bytes[17 + 2 * place])
    } else {
        0
    }
}

/// The byte of an extent at a place of its entry.
#[tactic(auto, unfolding(crate::specs::Encoding::extent_byte))]
pub(crate) fn extent_byte(dpb: &Dpb, extent: &Extent, offset: usize) -> u8
    requires after_first { 1 ≤ offset }
    requires within { offset < 32 }
    ensures { result ≡ extent_byte dpb.now extent.now offset }
{
    if offset < 12 {
        return extent.name[offset - 1];
    }
    match offset {
        12 => extent.ex,
        13 => extent.s1,
        14 => extent.s2,
        15 => extent.record_count,
        _ => map_byte(dpb, &extent.blocks, offset - 16),
    }
}

/// The byte at a place of the sixteen of a map.
#[tactic(auto, unfolding(crate::specs::Encoding::map_byte))]
fn map_byte(dpb: &Dpb, blocks: &[u16; 16], place: usize) -> u8
    requires { place < 16 }
    ensures { result ≡ map_byte dpb.now blocks.now place }
{
    if dpb.last_block < 256 {
        (blocks[place] % 256) as u8
    } else if place % 2 == 0 {
        (blocks[place / 2] % 256) as u8
    } else {
        (blocks[place / 2] / 256) as u8
    }
}
