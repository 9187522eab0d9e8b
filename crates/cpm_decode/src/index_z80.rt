//! The Z80's rows after DDh and FDh.
ghost use Rattle.std.specs.Prelude.{◌≡◌, ◌/◌, ◌%◌};
ghost use Rattle.cpm_decode.specs.PageZ80.{decoded_with};
ghost use Rattle.cpm_decode.specs.RowsZ80Index.{is_replaced, decoded_displaced, decoded_index};

use crate::decoder::{arithmetic_of, place_of, row8080};
use crate::operation_z80::{DecodedZ80, IndexRegister, IndexedOp, OpZ80};

/// Whether an index register stands for HL in the 8080's row of an opcode.
pub fn has_index(opcode: u8) -> bool
    ensures { result ≡ is_replaced opcode }
{
    (opcode & 0xcf == 0x09)
        | (opcode & 0xf6 == 0x22)
        | (opcode == 0x21)
        | (opcode == 0xe1)
        | (opcode == 0xe3)
        | (opcode == 0xe5)
        | (opcode & 0xef == 0xe9)
}

/// A row of three bytes.
fn in_three(index: IndexRegister, displacement: u8, op: IndexedOp) -> Option<DecodedZ80>
    ensures { result ≡ Some (decoded_with 3 (OpZ80.Indexed index displacement op)) }
{
    Some(DecodedZ80 {
        op: OpZ80::Indexed(index, displacement, op),
        length: 3,
    })
}

/// The rows with a displacement.
fn displaced_row(
    index: IndexRegister,
    opcode: u8,
    displacement: u8,
    value: u8,
) -> Option<DecodedZ80>
    ensures { result ≡ decoded_displaced index opcode displacement value }
{
    if opcode == 0x34 {
        in_three(index, displacement, IndexedOp::Increment)
    } else if opcode == 0x35 {
        in_three(index, displacement, IndexedOp::Decrement)
    } else if opcode == 0x36 {
        Some(DecodedZ80 {
            op: OpZ80::Indexed(index, displacement, IndexedOp::StoreImmediate(value)),
            length: 4,
        })
    } else if opcode == 0x76 {
        None
    } else if opcode & 0xc7 == 0x46 {
        in_three(index, displacement, IndexedOp::Load(place_of(opcode >> 3)))
    } else if opcode & 0xf8 == 0x70 {
        in_three(index, displacement, IndexedOp::Store(place_of(opcode)))
    } else if opcode & 0xc7 == 0x86 {
        in_three(
            index,
            displacement,
            IndexedOp::Arithmetic(arithmetic_of(opcode >> 3)),
        )
    } else {
        None
    }
}

/// The row of the byte after the prefix, with the two bytes after it.
#[tactic(auto, unfolding(crate::specs::RowsZ80Index::decoded_index))]
pub fn index_row(index: IndexRegister, opcode: u8, low: u8, high: u8) -> Option<DecodedZ80>
    ensures { result ≡ decoded_index index opcode low high }
{
    if has_index(opcode) {
        let decoded = row8080([opcode, low, high])?;
        Some(DecodedZ80 {
            op: OpZ80::WithIndex(index, decoded.op),
            length: 1 + decoded.length,
        })
    } else {
        displaced_row(index, opcode, low, high)
    }
}
