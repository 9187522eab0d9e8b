//! The Z80's rows after EDh.
ghost use Rattle.std.specs.Prelude.{◌≡◌, ◌/◌, ◌%◌, ◌≤◌, ◌<◌};
ghost use Rattle.cpm_decode.specs.FieldsZ80.{direction_of, repeat_of};
ghost use Rattle.cpm_decode.specs.PageZ80.{decoded_with};
ghost use Rattle.cpm_decode.specs.RowsZ80Extended.{decoded_extended};

use crate::decoder::{pair_of, place_of, word_of};
use crate::operation_z80::{DecodedZ80, Direction, ExtendedOp, OpZ80, Repeat};

/// A row of two bytes.
fn in_two(op: ExtendedOp) -> Option<DecodedZ80>
    ensures { result ≡ Some (decoded_with 2 (OpZ80.Extended op)) }
{
    Some(DecodedZ80 {
        op: OpZ80::Extended(op),
        length: 2,
    })
}

/// A row of four bytes.
fn in_four(op: ExtendedOp) -> Option<DecodedZ80>
    ensures { result ≡ Some (decoded_with 4 (OpZ80.Extended op)) }
{
    Some(DecodedZ80 {
        op: OpZ80::Extended(op),
        length: 4,
    })
}

/// Which way the block instruction of an opcode moves.
fn direction(opcode: u8) -> Direction
    ensures { result ≡ direction_of (opcode / 8 % 2) }
{
    if opcode & 0x08 == 0 {
        Direction::Up
    } else {
        Direction::Down
    }
}

/// Whether the block instruction of an opcode repeats.
fn repeat(opcode: u8) -> Repeat
    ensures { result ≡ repeat_of (opcode / 16 % 2) }
{
    if opcode & 0x10 == 0 {
        Repeat::Once
    } else {
        Repeat::Repeating
    }
}

/// The row of the byte after EDh, with the two bytes after it.
pub fn extended_row(opcode: u8, low: u8, high: u8) -> Option<DecodedZ80>
    ensures { result ≡ decoded_extended opcode low high }
{
    match opcode >> 6 {
        1 => register_row(opcode, low, high),
        2 => block_row(opcode, low, high),
        _ => None,
    }
}

/// The rows 01rrrooo.
fn register_row(opcode: u8, low: u8, high: u8) -> Option<DecodedZ80>
    requires { opcode / 64 ≡ 1 }
    ensures { result ≡ decoded_extended opcode low high }
{
    match opcode & 0x07 {
        0 => {
            if opcode == 0x70 {
                None
            } else {
                in_two(ExtendedOp::Input(place_of(opcode >> 3)))
            }
        }
        1 => {
            if opcode == 0x71 {
                None
            } else {
                in_two(ExtendedOp::Output(place_of(opcode >> 3)))
            }
        }
        2 => {
            if opcode & 0x08 == 0 {
                in_two(ExtendedOp::SubtractBorrowPair(pair_of(opcode >> 4)))
            } else {
                in_two(ExtendedOp::AddCarryPair(pair_of(opcode >> 4)))
            }
        }
        3 => {
            if opcode & 0x08 == 0 {
                in_four(ExtendedOp::StorePair(pair_of(opcode >> 4), word_of(low, high)))
            } else {
                in_four(ExtendedOp::LoadPair(pair_of(opcode >> 4), word_of(low, high)))
            }
        }
        7 => transfer_row(opcode, low, high),
        _ => control_row(opcode, low, high),
    }
}

/// The rows 01nnn100, 01nnn101 and 01nnn110.
fn control_row(opcode: u8, low: u8, high: u8) -> Option<DecodedZ80>
    requires high { opcode / 64 ≡ 1 }
    requires from { 4 ≤ opcode % 8 }
    requires below { opcode % 8 < 7 }
    ensures { result ≡ decoded_extended opcode low high }
{
    match opcode {
        0x44 => in_two(ExtendedOp::Negate),
        0x45 => in_two(ExtendedOp::ReturnFromNonMaskable),
        0x4d => in_two(ExtendedOp::ReturnFromInterrupt),
        0x46 => in_two(ExtendedOp::InterruptMode(0)),
        0x56 => in_two(ExtendedOp::InterruptMode(1)),
        0x5e => in_two(ExtendedOp::InterruptMode(2)),
        _ => None,
    }
}

/// The rows 01nnn111.
fn transfer_row(opcode: u8, low: u8, high: u8) -> Option<DecodedZ80>
    requires high { opcode / 64 ≡ 1 }
    requires field { opcode % 8 ≡ 7 }
    ensures { result ≡ decoded_extended opcode low high }
{
    match opcode {
        0x47 => in_two(ExtendedOp::SetInterruptPage),
        0x4f => in_two(ExtendedOp::SetRefresh),
        0x57 => in_two(ExtendedOp::LoadInterruptPage),
        0x5f => in_two(ExtendedOp::LoadRefresh),
        0x67 => in_two(ExtendedOp::RotateDigitsRight),
        0x6f => in_two(ExtendedOp::RotateDigitsLeft),
        _ => None,
    }
}

/// The rows 101rd0oo.
fn block_row(opcode: u8, low: u8, high: u8) -> Option<DecodedZ80>
    requires { opcode / 64 ≡ 2 }
    ensures { result ≡ decoded_extended opcode low high }
{
    match opcode & 0xe7 {
        0xa0 => in_two(ExtendedOp::CopyBlock(direction(opcode), repeat(opcode))),
        0xa1 => in_two(ExtendedOp::SearchBlock(direction(opcode), repeat(opcode))),
        0xa2 => in_two(ExtendedOp::InputBlock(direction(opcode), repeat(opcode))),
        0xa3 => in_two(ExtendedOp::OutputBlock(direction(opcode), repeat(opcode))),
        _ => None,
    }
}
