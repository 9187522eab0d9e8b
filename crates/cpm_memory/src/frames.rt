//! The frames of a store: private ones, then four boot frames that all memories share.

ghost use Rattle.std.specs.Prelude.{◌≡◌, ◌<◌, ◌≤◌, length, sum, slice_index, IfOk, count_by, nat_lt};
ghost use Rattle.cpm_memory.specs.Frames.{boot_of, AreNewFrames};
ghost use Rattle.cpm_memory.specs.Opening.{opening_byte};
ghost use Rattle.cpm_memory.specs.Tabulated.{tabulated};

use crate::opening::opening_byte_at;
use crate::store::MOST_FRAMES;
use std::alloc::{AllocError, Global};

/// Which boot frame a page begins with: zeros, or page 00h, FAh or FCh.
pub fn boot_frame(page: u8) -> u16
    ensures { result ≡ boot_of page }
{
    match page {
        0x00 => 1,
        0xFA => 2,
        0xFC => 3,
        _ => 0,
    }
}

/// The bytes of a page at the opening of a memory.
pub fn opening_page(page: u8) -> [u8; 256]
    ensures { result ≡ tabulated 256 (opening_byte page) }
{
    let mut bytes = [0; 256];
    for offset in 0..256u16 {
        bytes[offset as usize] = opening_byte_at(page, offset as u8);
    }
    bytes
}

/// Private frames of zeros, and the four boot frames after them.
pub fn new_frames(alloc: Global, private: u16) -> Result<Vec<[u8; 256]>, AllocError>
    requires { private ≤ MOST_FRAMES }
    ensures { IfOk result (λ frames. AreNewFrames frames.items private) }
{
    let zeros = opening_page(1);
    let mut frames = Vec::with_capacity(alloc, private as usize + 4)?;
    for _frame in 0..private {
        frames.push(zeros)?;
    }
    frames.push(zeros)?;
    frames.push(opening_page(0x00))?;
    frames.push(opening_page(0xFA))?;
    frames.push(opening_page(0xFC))?;
    Ok(frames)
}

/// The first frame without an owner.
pub fn find_free_frame(owners: &[u16]) -> usize
    requires { sum owners.now < length owners.now }
    ensures within { result < length owners.now }
    ensures free { slice_index owners.now result ≡ 0 }
{
    for (frame, count) in owners.iter().enumerate() {
        if *count == 0 {
            return frame;
        }
    }
    unreachable!()
}

/// How many frames have an owner.
pub fn count_owned(owners: &[u16]) -> usize
    ensures { result ≡ count_by (nat_lt 0) owners.now }
{
    owners.iter().filter(|count| **count > 0).count()
}
