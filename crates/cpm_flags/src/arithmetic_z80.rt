//! Sums and differences of words with the carry, and flags of single bytes, on the Zilog Z80, which are set in place.
ghost use Rattle.std.specs.Prelude.{◌≡◌, ◌+◌, ◌<◌, ◌%◌, ◌+ℤ◌, pos};
ghost use Rattle.cpm_flags.specs.ArithmeticZ80.{signed16, overflows16, add16_carry_of, difference16, sub16_overflows};
ghost use Rattle.cpm_flags.specs.ArithmeticZ80.{sub16_borrow_of, byte_flags, shift_flags, test_flags};

use crate::arithmetic::has_even_parity;
use crate::regs::Flags;

/// Whether no signed word holds a + b + carry, which is this sum.
#[inline(always)]
fn sum_overflows(a: u16, b: u16, carry: u16, sum: u16) -> bool
    requires carry { carry < 2 }
    requires sum { sum ≡ (a + b + carry) % 65536 }
    ensures { result ≡ overflows16 (signed16 a +ℤ signed16 b +ℤ pos carry) }
{
    (a >= 0x8000) == (b >= 0x8000) && (a >= 0x8000) != (sum >= 0x8000)
}

/// a + b + carry, of words. The carry is the flag, and the flags are set by the sum. Zilog Z80 CPU User Manual, "ADC HL, ss".
#[inline(always)]
pub fn add16_carry(flags: &mut Flags, a: u16, b: u16) -> u16
    ensures value { result ≡ (add16_carry_of flags.old a b flags.old.carry).value }
    ensures flags { flags.new ≡ (add16_carry_of flags.old a b flags.old.carry).flags }
{
    let carry = u16::from(flags.carry);
    let whole = u32::from(a) + u32::from(b) + u32::from(carry);
    let sum = (whole % 0x1_0000) as u16;
    // (one by one, since the compiler puts the eight together to move them as one)
    flags.sign = sum & 0x8000 != 0;
    flags.zero = sum == 0;
    flags.half_carry = sum & 0x0fff < (a & 0x0fff) + carry;
    flags.parity = sum_overflows(a, b, carry, sum);
    flags.subtract = false;
    flags.carry = whole > 0xffff;
    sum
}

/// Whether no signed word holds a - b - borrow, which is this difference.
#[inline(always)]
fn difference_overflows(a: u16, b: u16, borrow: u16, difference: u16) -> bool
    requires borrow { borrow < 2 }
    requires difference { difference ≡ difference16 a b borrow }
    ensures { result ≡ sub16_overflows a b borrow }
{
    (a >= 0x8000) != (b >= 0x8000) && (a >= 0x8000) != (difference >= 0x8000)
}

/// a - b - borrow, of words. The borrow is the carry flag, and the flags are set by the difference. Zilog Z80 CPU User Manual, "SBC HL, ss".
#[inline(always)]
pub fn sub16_borrow(flags: &mut Flags, a: u16, b: u16) -> u16
    ensures value { result ≡ (sub16_borrow_of flags.old a b flags.old.carry).value }
    ensures flags { flags.new ≡ (sub16_borrow_of flags.old a b flags.old.carry).flags }
{
    let borrow = u16::from(flags.carry);
    let difference = a.wrapping_sub(b).wrapping_sub(borrow);
    flags.sign = difference & 0x8000 != 0;
    flags.zero = difference == 0;
    flags.half_carry = (b & 0x0fff) + borrow > a & 0x0fff;
    flags.parity = difference_overflows(a, b, borrow, difference);
    flags.subtract = true;
    flags.carry = u32::from(b) + u32::from(borrow) > u32::from(a);
    difference
}

/// Sets the flags of a byte that was read or put together. Zilog Z80 CPU User Manual, "IN r, (C)", "RLD" and "RRD".
#[inline(always)]
pub fn set_byte_flags(flags: &mut Flags, value: u8)
    ensures { flags.new ≡ byte_flags flags.old value }
{
    flags.sign = value & 0x80 != 0;
    flags.zero = value == 0;
    flags.half_carry = false;
    flags.parity = has_even_parity(value);
    flags.subtract = false;
}

/// Sets the flags of a shift or rotation. Zilog Z80 CPU User Manual, "Rotate and Shift Group".
#[inline(always)]
pub fn set_shift_flags(flags: &mut Flags, value: u8, carry: bool)
    ensures { flags.new ≡ shift_flags flags.old value carry }
{
    set_byte_flags(flags, value);
    flags.carry = carry;
}

/// Sets the flags of a test of a bit. Zilog Z80 CPU User Manual, "BIT b, r".
#[inline(always)]
pub fn set_test_flags(flags: &mut Flags, is_set: bool)
    ensures { flags.new ≡ test_flags flags.old is_set }
{
    flags.zero = !is_set;
    flags.half_carry = true;
    flags.subtract = false;
}
