//! An instruction of the Z80 on a line.
ghost use Rattle.std.specs.Prelude.{◌≡◌, ◌≤◌};
ghost use Rattle.cpm_listing.specs.ListingZ80.{length_z80, list_line_z80};

use crate::digits::ListingLine;
use crate::listing::listing_line;
use crate::mnemonics_z80::mnemonic_z80;
use crate::operands::add_byte_number;
use crate::operands_z80::add_operands_z80;
use arrayvec::ArrayString;
use cpm_decode::{DecodedZ80, rowz80};

/// How many bytes the Z80's instruction has that begins four bytes; a byte that begins none is listed alone.
#[tactic(auto, unfolding(crate::specs::ListingZ80::length_z80))]
pub fn length_z80(bytes: [u8; 4]) -> usize
    ensures value { result ≡ length_z80 bytes }
    ensures some { 1 ≤ result }
    ensures few { result ≤ 4 }
{
    match rowz80(bytes) {
        Some(decoded) => usize::from(decoded.length),
        None => 1,
    }
}

/// The Z80's instruction that begins four bytes at an address: the address, the instruction's bytes, its
/// mnemonic and its operands. A byte that begins no instruction is listed as DB.
#[tactic(auto, unfolding(crate::specs::ListingZ80::list_line_z80))]
pub fn list_line_z80(address: u16, bytes: [u8; 4]) -> ArrayString<96>
    ensures { result.bytes ≡ list_line_z80 address bytes }
{
    let mut operands: ListingLine = ArrayString::new();
    match rowz80(bytes) {
        Some(DecodedZ80 { op, length }) => {
            add_operands_z80(&mut operands, address.wrapping_add(length), op);
            let shown = &bytes[..usize::from(length)];
            listing_line(11, address, shown, mnemonic_z80(op), operands.as_str())
        }
        None => {
            add_byte_number(&mut operands, bytes[0]);
            listing_line(11, address, &bytes[..1], "DB", operands.as_str())
        }
    }
}
