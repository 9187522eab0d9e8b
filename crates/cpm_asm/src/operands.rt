//! The operands of a statement.
ghost use Rattle.std.specs.Prelude.{◌≡◌, option_map};
ghost use Rattle.cpm_asm.specs.Operands.{direct_pair_in, one_operand, pair_in, pair_named, byte_operand_in};
ghost use Rattle.cpm_asm.specs.Operands.{place_named, register_in, stack_pair_in, stack_pair_named, two_operands};

use crate::lines::first_part;
use crate::word::{FirstWord, is_blank_text, word_front};
use cpm_asm_expression::{Keyword, Register, keyword_of};
use cpm_decode::{Operand, Pair, StackPair};

/// The operand of a list with only one.
pub(crate) fn one_operand(list: &[u8]) -> Option<&[u8]>
    ensures { option_map (λ operand. operand.now) result ≡ one_operand list.now }
{
    let (only, rest) = first_part(list, b',');
    match rest {
        None => Some(only),
        Some(_) => None,
    }
}

/// The operands of a list with two.
pub(crate) fn two_operands(list: &[u8]) -> Option<(&[u8], &[u8])>
    ensures { option_map (λ p. (p.0.now, p.1.now)) result ≡ two_operands list.now }
{
    let (first, rest) = first_part(list, b',');
    let (second, more) = first_part(rest?, b',');
    match more {
        None => Some((first, second)),
        Some(_) => None,
    }
}

/// The register that an operand is.
fn register_in(operand: &[u8]) -> Option<Register>
    ensures { result ≡ register_in operand.now }
{
    match word_front(operand) {
        FirstWord::Word(letters, after) => {
            if !is_blank_text(after) {
                return None;
            }
            match keyword_of(&letters) {
                Some(Keyword::Register(register)) => Some(register),
                _ => None,
            }
        }
        FirstWord::Nothing | FirstWord::Other => None,
    }
}

/// The place of eight bits that a register is.
fn place_named(register: Register) -> Option<Operand>
    ensures { result ≡ place_named register }
{
    match register {
        Register::B => Some(Operand::B),
        Register::C => Some(Operand::C),
        Register::D => Some(Operand::D),
        Register::E => Some(Operand::E),
        Register::H => Some(Operand::H),
        Register::L => Some(Operand::L),
        Register::M => Some(Operand::AtHl),
        Register::A => Some(Operand::A),
        Register::StackPointer | Register::StatusWord => None,
    }
}

/// The pair whose first register, or whose name, this is.
fn pair_named(register: Register) -> Option<Pair>
    ensures { result ≡ pair_named register }
{
    match register {
        Register::B => Some(Pair::Bc),
        Register::D => Some(Pair::De),
        Register::H => Some(Pair::Hl),
        Register::StackPointer => Some(Pair::Sp),
        _ => None,
    }
}

/// The pair of PUSH and POP whose first register, or whose name, this is.
fn stack_pair_named(register: Register) -> Option<StackPair>
    ensures { result ≡ stack_pair_named register }
{
    match register {
        Register::B => Some(StackPair::Bc),
        Register::D => Some(StackPair::De),
        Register::H => Some(StackPair::Hl),
        Register::StatusWord => Some(StackPair::Psw),
        _ => None,
    }
}

/// The place that an operand is.
pub(crate) fn byte_operand_in(operand: &[u8]) -> Option<Operand>
    ensures { result ≡ byte_operand_in operand.now }
{
    place_named(register_in(operand)?)
}

/// The pair that an operand is.
pub(crate) fn pair_in(operand: &[u8]) -> Option<Pair>
    ensures { result ≡ pair_in operand.now }
{
    pair_named(register_in(operand)?)
}

/// The pair of STAX and LDAX that an operand is.
pub(crate) fn direct_pair_in(operand: &[u8]) -> Option<Pair>
    ensures { result ≡ direct_pair_in operand.now }
{
    match register_in(operand) {
        Some(Register::B) => Some(Pair::Bc),
        Some(Register::D) => Some(Pair::De),
        _ => None,
    }
}

/// The pair of PUSH and POP that an operand is.
pub(crate) fn stack_pair_in(operand: &[u8]) -> Option<StackPair>
    ensures { result ≡ stack_pair_in operand.now }
{
    stack_pair_named(register_in(operand)?)
}
