//! The row of an instruction's bytes on the Z80.
ghost use Rattle.std.specs.Prelude.{◌≡◌, slice_index};
ghost use Rattle.cpm_decode.specs.PageZ80.{decoded_with};
ghost use Rattle.cpm_decode.specs.RowsZ80.{decoded_own, decoded_shared, decoded_plain, decoded_prefixed, decodedz80, decodedz80_at};

use crate::bits_z80::{bits_row, indexed_bits_row};
use crate::decoder::{condition_of, row8080};
use crate::extended_z80::extended_row;
use crate::index_z80::index_row;
use crate::operation_z80::{DecodedZ80, IndexRegister, OpZ80};
use cpm_memory::Memory;

/// A row of one byte.
fn in_one(op: OpZ80) -> Option<DecodedZ80>
    ensures { result ≡ Some (decoded_with 1 op) }
{
    Some(DecodedZ80 { op, length: 1 })
}

/// A row of two bytes.
fn in_two(op: OpZ80) -> Option<DecodedZ80>
    ensures { result ≡ Some (decoded_with 2 op) }
{
    Some(DecodedZ80 { op, length: 2 })
}

/// The rows with no prefix that the 8080 does not have.
fn own_row(opcode: u8, low: u8) -> Option<DecodedZ80>
    ensures { result ≡ decoded_own opcode low }
{
    if opcode == 0x08 {
        in_one(OpZ80::ExchangeAf)
    } else if opcode == 0xd9 {
        in_one(OpZ80::ExchangeAll)
    } else if opcode == 0x10 {
        in_two(OpZ80::DecrementJump(low))
    } else if opcode == 0x18 {
        in_two(OpZ80::JumpRelative(low))
    } else if opcode & 0xe7 == 0x20 {
        in_two(OpZ80::JumpRelativeIf(condition_of(opcode >> 3 & 0x03), low))
    } else {
        None
    }
}

/// The rows that are the 8080's.
fn shared_row(opcode: u8, low: u8, high: u8) -> Option<DecodedZ80>
    ensures { result ≡ decoded_shared opcode low high }
{
    let decoded = row8080([opcode, low, high])?;
    Some(DecodedZ80 {
        op: OpZ80::Shared(decoded.op),
        length: decoded.length,
    })
}

/// The rows with no prefix.
#[tactic(auto, unfolding(crate::specs::RowsZ80::decoded_plain))]
fn plain_row(opcode: u8, low: u8, high: u8) -> Option<DecodedZ80>
    ensures { result ≡ decoded_plain opcode low high }
{
    match own_row(opcode, low) {
        Some(decoded) => Some(decoded),
        None => shared_row(opcode, low, high),
    }
}

/// The rows after DDh and FDh.
#[tactic(auto, unfolding(crate::specs::RowsZ80::decoded_prefixed))]
fn prefixed_row(index: IndexRegister, second: u8, third: u8, fourth: u8) -> Option<DecodedZ80>
    ensures { result ≡ decoded_prefixed index second third fourth }
{
    if second == 0xcb {
        indexed_bits_row(index, third, fourth)
    } else {
        index_row(index, second, third, fourth)
    }
}

/// The row of the four bytes from PC on, of which an instruction takes one to four; None where no row fits.
/// Zilog Z80 CPU User Manual, "Z80 Instruction Description".
#[tactic(auto, unfolding(crate::specs::RowsZ80::decodedz80))]
pub fn rowz80(bytes: [u8; 4]) -> Option<DecodedZ80>
    ensures { result ≡ decodedz80 (slice_index bytes 0) (slice_index bytes 1) (slice_index bytes 2) (slice_index bytes 3) }
{
    let [first, second, third, fourth] = bytes;
    if first == 0xcb {
        bits_row(second)
    } else if first == 0xed {
        extended_row(second, third, fourth)
    } else if first == 0xdd {
        prefixed_row(IndexRegister::Ix, second, third, fourth)
    } else if first == 0xfd {
        prefixed_row(IndexRegister::Iy, second, third, fourth)
    } else {
        plain_row(first, second, third)
    }
}

/// The row of the bytes from an address on, in the memory as it is now; None where no row fits.
pub fn decodez80<M: Memory>(memory: &M, pc: u16) -> Option<DecodedZ80>
    ensures { result ≡ decodedz80_at (M.contents memory.now) pc }
{
    let second = pc.wrapping_add(1);
    let third = second.wrapping_add(1);
    rowz80([
        memory.get(pc),
        memory.get(second),
        memory.get(third),
        memory.get(third.wrapping_add(1)),
    ])
}
