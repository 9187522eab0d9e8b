//! The tables of the BIOS that say how disks are laid out.

ghost use Rattle.std.specs.Prelude.{◌≡◌, ◌<◌, ◌≤◌, ◌/◌, ◌%◌, slice_index};
ghost use Rattle.cpm_geom.specs.Geometry.{sector_of};
ghost use Rattle.cpm_geom.specs.declared.format.Format.TheVariants as FormatValue;
ghost use Rattle.cpm_memory.specs.DiskTables.{disk_table_byte, format_at, format_offset, parameter_block, parameter_header, translation_address, word_byte};

use crate::layout::{
    DIRECTORY_BUFFER, FIRST_ALLOCATION_VECTOR, FIRST_CHECK_VECTOR, FIRST_PARAMETER_BLOCK, SKEW,
};
use cpm_geom::{Dpb, Format};

/// The byte at an offset of page FCh at the opening of a memory.
pub fn disk_table_byte_at(offset: u8) -> u8
    ensures { result ≡ disk_table_byte offset }
{
    if offset < 26 {
        return skew_byte_at(offset);
    }
    if 0x20 <= offset && offset < 0x40 {
        return parameter_byte_at(&format_at(offset).dpb(), offset % 16);
    }
    if 0x40 <= offset && offset < 0xE0 {
        return header_byte_at(format_at(offset), (offset - 0x40) / 32, offset % 16);
    }
    0
}

/// How far the tables of a format stand after those of the standard disk.
pub fn format_offset(format: Format) -> u16
    ensures value { result ≡ format_offset format }
    ensures small { result ≤ 16 }
{
    match format {
        Format::Ibm3740 => 0,
        Format::Large => 16,
    }
}

/// The format whose table an offset of page FCh lies in.
fn format_at(offset: u8) -> Format
    ensures { result ≡ format_at offset }
{
    if offset / 16 % 2 == 0 {
        Format::Ibm3740
    } else {
        Format::Large
    }
}

/// The bytes of a disk parameter block.
fn parameter_block(dpb: &Dpb) -> [u8; 15]
    ensures { result ≡ parameter_block dpb.now }
{
    [
        low(dpb.sectors_per_track),
        high(dpb.sectors_per_track),
        dpb.block_shift,
        dpb.block_mask,
        dpb.extent_mask,
        low(dpb.last_block),
        high(dpb.last_block),
        low(dpb.last_entry),
        high(dpb.last_entry),
        high(dpb.directory_bits),
        low(dpb.directory_bits),
        low(dpb.checksum_size),
        high(dpb.checksum_size),
        low(dpb.track_offset),
        high(dpb.track_offset),
    ]
}

/// A byte of the sector translation vector.
#[tactic(auto, unfolding(cpm_geom::specs::Geometry::sectors_per_track, cpm_geom::specs::Geometry::dpb_of))]
fn skew_byte_at(place: u8) -> u8
    requires { place < 26 }
    ensures { result ≡ sector_of FormatValue.Ibm3740 place }
{
    Format::Ibm3740.sector_of(u16::from(place))
}

/// A byte of a disk parameter block, 0 after it.
fn parameter_byte_at(dpb: &Dpb, place: u8) -> u8
    ensures { result ≡ slice_index (parameter_block dpb.now) place }
{
    match parameter_block(dpb).get(usize::from(place)) {
        Some(byte) => *byte,
        None => 0,
    }
}

fn low(word: u16) -> u8
    ensures { result ≡ word % 256 }
{
    (word % 256) as u8
}

fn high(word: u16) -> u8
    ensures { result ≡ word / 256 }
{
    (word / 256) as u8
}

/// A byte of the disk parameter header of a drive, of which each word stands low byte first.
fn header_byte_at(format: Format, drive: u8, place: u8) -> u8
    requires drive { drive < 5 }
    requires place { place < 16 }
    ensures { result ≡ word_byte (parameter_header format drive) place }
{
    let word = header_word(format, drive, place / 2);
    if place % 2 == 0 {
        low(word)
    } else {
        high(word)
    }
}

/// A word of the disk parameter header of a drive.
fn header_word(format: Format, drive: u8, number: u8) -> u16
    requires drive { drive < 5 }
    requires number { number < 8 }
    ensures { result ≡ slice_index (parameter_header format drive) number }
{
    match number {
        0 => translation(format),
        4 => DIRECTORY_BUFFER,
        5 => FIRST_PARAMETER_BLOCK + format_offset(format),
        6 => FIRST_CHECK_VECTOR + 16 * u16::from(drive),
        7 => FIRST_ALLOCATION_VECTOR + 64 * u16::from(drive),
        _ => 0,
    }
}

/// The address of a format's sector translation vector, 0 where it has none.
fn translation(format: Format) -> u16
    ensures { result ≡ translation_address format }
{
    match format {
        Format::Ibm3740 => SKEW,
        Format::Large => 0,
    }
}
