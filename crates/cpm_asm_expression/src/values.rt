//! Values of operands, and of operations on them.
ghost use Rattle.std.specs.Prelude.{◌≡◌, ◌<◌, ◌≤◌};
ghost use Rattle.cpm_asm_expression.specs.Names.{in_table};
ghost use Rattle.cpm_asm_expression.specs.Values.{atom_value, calculated, changed, combined, divides, flipped};

use crate::names::Names;
use crate::tokens::{Atom, Operator, Prefix};

/// A value, and what is wrong with it.
#[derive(Clone, Copy, Debug, PartialEq, Eq)]
pub struct CheckedValue {
    /// The value, modulo 65,536.
    pub number: u16,
    /// A name in it has no value.
    pub is_unknown: bool,
    /// It divides by 0, or takes `$` past the last address.
    pub is_outside: bool,
}

/// What a number, a name or `$` stands for, at an address.
pub(crate) fn atom_value(names: &Names, here: usize, atom: Atom) -> CheckedValue
    ensures { result ≡ atom_value (in_table names.now) here atom }
{
    match atom {
        Atom::Number(number) => CheckedValue {
            number,
            is_unknown: false,
            is_outside: false,
        },
        Atom::Named(name) => match names.get(&name) {
            Some(number) => CheckedValue {
                number: *number,
                is_unknown: false,
                is_outside: false,
            },
            None => CheckedValue {
                number: 0,
                is_unknown: true,
                is_outside: false,
            },
        },
        Atom::Here => {
            if here < 65536 {
                CheckedValue {
                    number: here as u16,
                    is_unknown: false,
                    is_outside: false,
                }
            } else {
                CheckedValue {
                    number: 0,
                    is_unknown: false,
                    is_outside: true,
                }
            }
        }
    }
}

/// The number that an operation gives, modulo 65,536; 0 where it divides by 0.
fn calculated(operator: Operator, left: u16, right: u16) -> u16
    ensures { result ≡ calculated operator left right }
{
    match operator {
        Operator::Or => left | right,
        Operator::Xor => left ^ right,
        Operator::And => left & right,
        Operator::Add => left.wrapping_add(right),
        Operator::Subtract => left.wrapping_sub(right),
        Operator::Multiply => left.wrapping_mul(right),
        Operator::Divide => left.checked_div(right).unwrap_or(0),
        Operator::Modulo => left.checked_rem(right).unwrap_or(0),
        Operator::ShiftLeft => shifted_left(left, right),
        Operator::ShiftRight => shifted_right(left, right),
    }
}

/// A shift by 16 bits or more leaves 0.
fn shifted_left(left: u16, right: u16) -> u16
    ensures { result ≡ calculated Operator.ShiftLeft left right }
{
    if right < 16 { left << right } else { 0 }
}

fn shifted_right(left: u16, right: u16) -> u16
    ensures { result ≡ calculated Operator.ShiftRight left right }
{
    if right < 16 { left >> right } else { 0 }
}

fn divides(operator: Operator) -> bool
    ensures { result ≡ divides operator }
{
    matches!(operator, Operator::Divide | Operator::Modulo)
}

/// The value of an operation on two values.
pub(crate) fn combined(operator: Operator, left: CheckedValue, right: CheckedValue) -> CheckedValue
    ensures { result ≡ combined operator left right }
{
    let by_zero = divides(operator) && right.number == 0 && !right.is_unknown;
    CheckedValue {
        number: calculated(operator, left.number, right.number),
        is_unknown: left.is_unknown || right.is_unknown,
        is_outside: left.is_outside || right.is_outside || by_zero,
    }
}

fn flipped(prefix: Prefix, number: u16) -> u16
    ensures { result ≡ flipped prefix number }
{
    match prefix {
        Prefix::Not => u16::MAX - number,
        Prefix::Plus => number,
        Prefix::Minus => 0u16.wrapping_sub(number),
    }
}

/// The value of an operation on one value.
pub(crate) fn changed(prefix: Prefix, value: CheckedValue) -> CheckedValue
    ensures { result ≡ changed prefix value }
{
    CheckedValue {
        number: flipped(prefix, value.number),
        ..value
    }
}
