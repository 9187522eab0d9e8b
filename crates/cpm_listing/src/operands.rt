//! The operands of an instruction.
ghost use Rattle.std.specs.Prelude.{◌≡◌, ◌<◌, ◌≤◌, ◌+◌, ◌++◌, length};
ghost use Rattle.cpm_listing.specs.Listing.{byte_number, word_number, restart_of, operands_of};

use crate::digits::{ListingLine, add_byte, add_text, add_word};
use crate::mnemonics::{pair_name, place_name, stack_pair_name};
use cpm_decode::Op;

/// Adds a byte as a source has it.
#[tactic(auto, unfolding(crate::specs::Listing::byte_number))]
pub(crate) fn add_byte_number(line: &mut ListingLine, value: u8)
    requires { length line.old.bytes + 4 ≤ 96 }
    ensures text { line.new.bytes ≡ line.old.bytes ++ byte_number value }
    ensures length { length line.new.bytes ≡ length line.old.bytes + 4 }
{
    add_text(line, "0");
    add_byte(line, value);
    add_text(line, "H");
}

/// Adds a word as a source has it.
#[tactic(auto, unfolding(crate::specs::Listing::word_number))]
pub(crate) fn add_word_number(line: &mut ListingLine, value: u16)
    requires { length line.old.bytes + 6 ≤ 96 }
    ensures text { line.new.bytes ≡ line.old.bytes ++ word_number value }
    ensures length { length line.new.bytes ≡ length line.old.bytes + 6 }
{
    add_text(line, "0");
    add_word(line, value);
    add_text(line, "H");
}

/// The number of the restart that calls an address.
pub(crate) fn restart_of(address: u16) -> u8
    ensures value { result ≡ restart_of address }
    ensures small { result < 8 }
{
    (address / 8 % 8) as u8
}

/// Adds the operands of an operation, a comma between two.
#[tactic(auto, unfolding(crate::specs::Listing::operands_of))]
pub(crate) fn add_operands(line: &mut ListingLine, op: Op)
    requires { length line.old.bytes + 9 ≤ 96 }
    ensures text { line.new.bytes ≡ line.old.bytes ++ operands_of op }
    ensures length { length line.new.bytes ≤ length line.old.bytes + 9 }
{
    match op {
        Op::Move(target, source) => {
            add_text(line, place_name(target));
            add_text(line, ",");
            add_text(line, place_name(source));
        }
        Op::MoveImmediate(target, value) => {
            add_text(line, place_name(target));
            add_text(line, ",");
            add_byte_number(line, value);
        }
        Op::LoadPair(target, value) => {
            add_text(line, pair_name(target));
            add_text(line, ",");
            add_word_number(line, value);
        }
        Op::Increment(place) | Op::Decrement(place) | Op::Arithmetic(_, place) => {
            add_text(line, place_name(place));
        }
        Op::IncrementPair(pair)
        | Op::DecrementPair(pair)
        | Op::AddPair(pair)
        | Op::StoreAAtPair(pair)
        | Op::LoadAAtPair(pair) => add_text(line, pair_name(pair)),
        Op::StoreHl(address)
        | Op::LoadHl(address)
        | Op::StoreA(address)
        | Op::LoadA(address)
        | Op::Jump(address)
        | Op::JumpIf(_, address)
        | Op::Call(address)
        | Op::CallIf(_, address) => add_word_number(line, address),
        Op::ArithmeticImmediate(_, value) | Op::Input(value) | Op::Output(value) => {
            add_byte_number(line, value);
        }
        Op::Restart(address) => add_byte_number(line, restart_of(address)),
        Op::Push(pair) | Op::Pop(pair) => add_text(line, stack_pair_name(pair)),
        _ => {}
    }
}
