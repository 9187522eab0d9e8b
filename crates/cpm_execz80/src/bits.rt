//! Shifts, rotations and bits of a byte.
ghost use Rattle.std.specs.Prelude.{◌≡◌, bit_or};
ghost use Rattle.cpm_memory.specs.Contents.{Contents, after_sets};
ghost use Rattle.cpm_memory.specs.Room.{HasRoom};
ghost use Rattle.cpm_execz80.specs.Bits.{shifted, shifted_out, bit_mask, has_bit_at, bit_cleared, applied, is_test, meaning_bits};

use cpm_decode::{BitOp, Operand, Shift};
use cpm_exec8080::operands::{read_place, write_place};
use cpm_flags::{ByteResult, Flags, Regs, set_shift_flags, set_test_flags};
use cpm_memory::Memory;

/// A byte shifted or rotated; `carry` is the flag before it.
/// Zilog Z80 CPU User Manual, "Rotate and Shift Group".
#[inline(always)]
pub fn shift_byte(shift: Shift, carry: bool, byte: u8) -> u8
    ensures { result ≡ shifted shift carry byte }
{
    let left = (byte & 0x7f) << 1;
    let right = byte >> 1;
    match shift {
        Shift::RotateLeft => left | byte >> 7,
        Shift::RotateRight => (byte & 0x01) << 7 | right,
        Shift::RotateLeftThroughCarry => left | u8::from(carry),
        Shift::RotateRightThroughCarry => u8::from(carry) << 7 | right,
        Shift::Left => left,
        Shift::ArithmeticRight => (byte.cast_signed() >> 1).cast_unsigned(),
        Shift::LogicalRight => right,
    }
}

/// The bit of a byte that falls out of a shift or rotation.
/// Zilog Z80 CPU User Manual, "Rotate and Shift Group".
#[inline(always)]
pub fn falls_out(shift: Shift, byte: u8) -> bool
    ensures { result ≡ shifted_out shift byte }
{
    match shift {
        Shift::RotateLeft | Shift::RotateLeftThroughCarry | Shift::Left => byte >= 0x80,
        Shift::RotateRight
        | Shift::RotateRightThroughCarry
        | Shift::ArithmeticRight
        | Shift::LogicalRight => byte % 2 == 1,
    }
}

/// Whether a bit of a byte is set; the bit counts modulo 8.
/// Zilog Z80 CPU User Manual, "BIT b, r".
#[inline(always)]
pub fn has_bit(byte: u8, bit: u8) -> bool
    ensures { result ≡ has_bit_at byte bit }
{
    byte.wrapping_shr(u32::from(bit)) & 0x01 == 1
}

/// A byte with a bit set; the bit counts modulo 8.
/// Zilog Z80 CPU User Manual, "SET b, r".
#[inline(always)]
pub fn with_bit(byte: u8, bit: u8) -> u8
    ensures { result ≡ bit_or byte (bit_mask bit) }
{
    byte | 1u8.wrapping_shl(u32::from(bit))
}

/// A byte with a bit cleared; the bit counts modulo 8.
/// Zilog Z80 CPU User Manual, "RES b, m".
#[inline(always)]
pub fn without_bit(byte: u8, bit: u8) -> u8
    ensures { result ≡ bit_cleared byte bit }
{
    byte & !1u8.wrapping_shl(u32::from(bit))
}

/// The byte that a shift, a rotation or an operation on a bit makes of a byte, and the flags.
/// Zilog Z80 CPU User Manual, "Rotate and Shift Group" and "Bit Set, Reset, and Test Group".
#[inline(always)]
pub fn apply(op: BitOp, flags: Flags, byte: u8) -> ByteResult
    ensures { result ≡ applied op flags byte }
{
    match op {
        BitOp::Shift(shift) => {
            let value = shift_byte(shift, flags.carry, byte);
            let mut flags = flags;
            set_shift_flags(&mut flags, value, falls_out(shift, byte));
            ByteResult { value, flags }
        }
        BitOp::Test(bit) => {
            let mut flags = flags;
            set_test_flags(&mut flags, has_bit(byte, bit));
            ByteResult { value: byte, flags }
        }
        BitOp::Reset(bit) => ByteResult {
            value: without_bit(byte, bit),
            flags,
        },
        BitOp::Set(bit) => ByteResult {
            value: with_bit(byte, bit),
            flags,
        },
    }
}

/// Whether an operation is a test of a bit, which stores nothing.
/// Zilog Z80 CPU User Manual, "BIT b, r".
#[inline(always)]
pub fn is_test_of_bit(op: BitOp) -> bool
    ensures { result ≡ is_test op }
{
    match op {
        BitOp::Test(_) => true,
        BitOp::Shift(_) | BitOp::Reset(_) | BitOp::Set(_) => false,
    }
}

/// Does an operation of the prefix CBh with the byte in a register or at HL.
/// Zilog Z80 CPU User Manual, "Rotate and Shift Group" and "Bit Set, Reset, and Test Group".
#[inline(always)]
pub fn perform_bits<M: Memory>(regs: &mut Regs, memory: &mut M, op: BitOp, place: Operand)
    requires { HasRoom (M.contents memory.old) }
    ensures regs { regs.new ≡ (meaning_bits op place (M.contents memory.old) regs.old).regs }
    ensures memory { M.contents memory.new ≡ after_sets (M.contents memory.old) (meaning_bits op place (M.contents memory.old) regs.old).stores }
    ensures leads { M.Leads memory.old memory.new }
{
    let outcome = apply(op, regs.flags, read_place(regs, memory, place));
    regs.flags = outcome.flags;
    if !is_test_of_bit(op) {
        write_place(regs, memory, place, outcome.value);
    }
}
