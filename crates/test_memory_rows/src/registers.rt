//! The registers by their names.

use cpm_flags::Regs;
use std::alloc::Global;
use test_language::{RowAnswer, RowFault, Word};

/// A number of 16 bits from its two bytes.
pub fn pair(high: u8, low: u8) -> u16 {
    u16::from(high) << 8 | u16::from(low)
}

/// A register, a pair of them or a flag.
pub fn register(alloc: Global, regs: &Regs, name: Word<'_>) -> Result<RowAnswer, RowFault> {
    if let Some(value) = wide_register(regs, name.text) {
        return RowAnswer::address(alloc, value);
    }
    if let Some(value) = byte_register(regs, name.text) {
        return RowAnswer::byte(alloc, value);
    }
    match flag(regs, name.text) {
        Some(is_set) => RowAnswer::truth(alloc, is_set),
        None => Err(RowFault::Words),
    }
}

/// A register of 16 bits, or a pair of them.
fn wide_register(regs: &Regs, name: &str) -> Option<u16> {
    match name {
        "BC" => Some(pair(regs.b, regs.c)),
        "DE" => Some(pair(regs.d, regs.e)),
        "HL" => Some(pair(regs.h, regs.l)),
        "SP" => Some(regs.sp),
        "PC" => Some(regs.pc),
        "IX" => Some(regs.ix),
        "IY" => Some(regs.iy),
        _ => None,
    }
}

/// A register of 8 bits.
fn byte_register(regs: &Regs, name: &str) -> Option<u8> {
    match name {
        "A" => Some(regs.a),
        "I" => Some(regs.interrupt_page),
        "R" => Some(regs.refresh),
        "A'" => Some(regs.alternate.a),
        _ => None,
    }
}

/// A flag, or a register that is one.
fn flag(regs: &Regs, name: &str) -> Option<bool> {
    match name {
        "zero" => Some(regs.flags.zero),
        "parity" => Some(regs.flags.parity),
        "carry" => Some(regs.flags.carry),
        "IFF1" => Some(regs.iff1),
        "IFF2" => Some(regs.iff2),
        _ => None,
    }
}
