//! The bytes of a memory at its opening.

ghost use Rattle.std.specs.Prelude.{◌≡◌, ◌<◌, ◌≤◌, ◌/◌, ◌%◌, ◌+◌, ◌-◌, ◌*◌};
ghost use Rattle.cpm_memory.specs.Opening.{opening_byte, base_byte, jumps_byte};

use crate::disk_tables::disk_table_byte_at;

/// The jump to the warm boot, the I/O and drive bytes, and the jump to the BDOS.
const BASE_PAGE: [u8; 8] = [0xC3, 0x03, 0xFA, 0, 0, 0xC3, 0x06, 0xEC];

/// The byte at an offset of a page at the opening of a memory.
#[tactic(auto, unfolding(crate::specs::Opening::opening_byte))]
pub fn opening_byte_at(page: u8, offset: u8) -> u8
    ensures { result ≡ opening_byte page offset }
{
    match page {
        0x00 => base_byte_at(offset),
        0xFA => jumps_byte_at(offset),
        0xFC => disk_table_byte_at(offset),
        _ => 0,
    }
}

fn base_byte_at(offset: u8) -> u8
    ensures { result ≡ base_byte offset }
{
    if offset < 8 {
        return BASE_PAGE[offset as usize];
    }
    let is_name = 0x5C < offset && offset < 0x78 && (1..12).contains(&((offset - 0x5C) % 16));
    if is_name { b' ' } else { 0 }
}

fn jumps_byte_at(offset: u8) -> u8
    ensures { result ≡ jumps_byte offset }
{
    if offset >= 51 {
        return 0;
    }
    match offset % 3 {
        0 => 0xC3,
        1 => offset / 3,
        _ => 0xFB,
    }
}
