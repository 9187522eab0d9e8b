//! The Z80's rows after CBh, and after DDh CBh and FDh CBh.
ghost use Rattle.std.specs.Prelude.{◌≡◌, ◌/◌, ◌%◌};
ghost use Rattle.cpm_decode.specs.Fields.{byte_operand};
ghost use Rattle.cpm_decode.specs.FieldsZ80.{shift};
ghost use Rattle.cpm_decode.specs.PageZ80.{decoded_with};
ghost use Rattle.cpm_decode.specs.RowsZ80Bits.{decoded_bits, decoded_indexed_bits};

use crate::decoder::place_of;
use crate::operation_z80::{BitOp, DecodedZ80, IndexRegister, IndexedOp, OpZ80, Shift};

/// The shift that the low three bits of a byte name.
fn shift_of(bits: u8) -> Shift
    ensures { result ≡ shift (bits % 8) }
{
    match bits & 7 {
        0 => Shift::RotateLeft,
        1 => Shift::RotateRight,
        2 => Shift::RotateLeftThroughCarry,
        3 => Shift::RotateRightThroughCarry,
        4 => Shift::Left,
        5 => Shift::ArithmeticRight,
        6 => Shift::LogicalRight,
        _ => Shift::LogicalRight,
    }
}

/// A row with the byte in a register or at HL.
fn on_place(op: BitOp, opcode: u8) -> Option<DecodedZ80>
    ensures { result ≡ Some (decoded_with 2 (OpZ80.Bits op (byte_operand (opcode % 8)))) }
{
    Some(DecodedZ80 {
        op: OpZ80::Bits(op, place_of(opcode)),
        length: 2,
    })
}

/// The row of the byte after CBh.
pub fn bits_row(opcode: u8) -> Option<DecodedZ80>
    ensures { result ≡ decoded_bits opcode }
{
    let field = opcode >> 3 & 0x07;
    match opcode >> 6 {
        0 => {
            if field == 6 {
                None
            } else {
                on_place(BitOp::Shift(shift_of(field)), opcode)
            }
        }
        1 => on_place(BitOp::Test(field), opcode),
        2 => on_place(BitOp::Reset(field), opcode),
        _ => on_place(BitOp::Set(field), opcode),
    }
}

/// A row with the byte at an index register and a displacement.
fn on_byte(index: IndexRegister, displacement: u8, op: BitOp) -> Option<DecodedZ80>
    ensures { result ≡ Some (decoded_with 4 (OpZ80.Indexed index displacement (IndexedOp.Bits op))) }
{
    Some(DecodedZ80 {
        op: OpZ80::Indexed(index, displacement, IndexedOp::Bits(op)),
        length: 4,
    })
}

/// The row of the byte after the prefix, CBh and a displacement.
pub fn indexed_bits_row(index: IndexRegister, displacement: u8, opcode: u8) -> Option<DecodedZ80>
    ensures { result ≡ decoded_indexed_bits index displacement opcode }
{
    let field = opcode >> 3 & 0x07;
    if opcode & 0x07 != 6 {
        None
    } else {
        match opcode >> 6 {
            0 => {
                if field == 6 {
                    None
                } else {
                    on_byte(index, displacement, BitOp::Shift(shift_of(field)))
                }
            }
            1 => on_byte(index, displacement, BitOp::Test(field)),
            2 => on_byte(index, displacement, BitOp::Reset(field)),
            _ => on_byte(index, displacement, BitOp::Set(field)),
        }
    }
}
