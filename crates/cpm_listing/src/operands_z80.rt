//! The operands of an instruction of the Z80.
ghost use Rattle.std.specs.Prelude.{◌≡◌, ◌≤◌, ◌+◌, ◌++◌, length, codes};
ghost use Rattle.cpm_listing.specs.Listing.{byte_number, word_number};
ghost use Rattle.cpm_listing.specs.Mnemonics.{condition_name};
ghost use Rattle.cpm_listing.specs.OperandsZ80.{in_parentheses, displacement_number, at_index, relative_target, small_number, accumulator_before};
ghost use Rattle.cpm_listing.specs.OperandsZ80.{bit_before, shared_operands, extended_operands, indexed_operands, operands_z80};

use crate::digits::{ListingLine, add_byte, add_character, add_text};
use crate::mnemonics_z80::{
    condition_name, index_name, pair_name_z80, place_name_z80, stack_pair_name_z80,
};
use crate::operands::{add_byte_number, add_word_number, restart_of};
use arrayvec::ArrayString;
use cpm_decode::{Arithmetic, BitOp, ExtendedOp, IndexRegister, IndexedOp, Op, OpZ80};

/// Adds two operands.
fn add_two(line: &mut ListingLine, first: &str, second: &str)
    requires { length line.old.bytes + length first.now + 1 + length second.now ≤ 96 }
    ensures text { line.new.bytes ≡ line.old.bytes ++ first.now ++ codes "," ++ second.now }
    ensures length { length line.new.bytes ≡ length line.old.bytes + length first.now + 1 + length second.now }
{
    add_text(line, first);
    add_text(line, ",");
    add_text(line, second);
}

/// Adds a name in parentheses.
#[tactic(auto, unfolding(crate::specs::OperandsZ80::in_parentheses))]
fn add_at_name(line: &mut ListingLine, name: &str)
    requires { length line.old.bytes + 2 + length name.now ≤ 96 }
    ensures text { line.new.bytes ≡ line.old.bytes ++ in_parentheses name.now }
    ensures length { length line.new.bytes ≡ length line.old.bytes + 2 + length name.now }
{
    add_text(line, "(");
    add_text(line, name);
    add_text(line, ")");
}

/// Adds a byte in parentheses.
#[tactic(auto, unfolding(crate::specs::OperandsZ80::in_parentheses))]
fn add_at_byte(line: &mut ListingLine, value: u8)
    requires { length line.old.bytes + 6 ≤ 96 }
    ensures text { line.new.bytes ≡ line.old.bytes ++ in_parentheses (byte_number value) }
    ensures length { length line.new.bytes ≡ length line.old.bytes + 6 }
{
    add_text(line, "(");
    add_byte_number(line, value);
    add_text(line, ")");
}

/// Adds a word in parentheses.
#[tactic(auto, unfolding(crate::specs::OperandsZ80::in_parentheses))]
fn add_at_word(line: &mut ListingLine, value: u16)
    requires { length line.old.bytes + 8 ≤ 96 }
    ensures text { line.new.bytes ≡ line.old.bytes ++ in_parentheses (word_number value) }
    ensures length { length line.new.bytes ≡ length line.old.bytes + 8 }
{
    add_text(line, "(");
    add_word_number(line, value);
    add_text(line, ")");
}

/// Adds a displacement with its sign.
#[tactic(auto, unfolding(crate::specs::OperandsZ80::displacement_number))]
fn add_displacement(line: &mut ListingLine, displacement: u8)
    requires { length line.old.bytes + 4 ≤ 96 }
    ensures text { line.new.bytes ≡ line.old.bytes ++ displacement_number displacement }
    ensures length { length line.new.bytes ≡ length line.old.bytes + 4 }
{
    if displacement < 0x80 {
        add_text(line, "+");
        add_byte(line, displacement);
    } else {
        add_text(line, "-");
        add_byte(line, displacement.wrapping_neg());
    }
    add_text(line, "H");
}

/// Adds the byte at an index register and a displacement.
#[tactic(auto, unfolding(crate::specs::OperandsZ80::at_index, crate::specs::OperandsZ80::in_parentheses))]
fn add_at_index(line: &mut ListingLine, index: IndexRegister, displacement: u8)
    requires { length line.old.bytes + 8 ≤ 96 }
    ensures text { line.new.bytes ≡ line.old.bytes ++ at_index index displacement }
    ensures length { length line.new.bytes ≡ length line.old.bytes + 8 }
{
    add_text(line, "(");
    add_text(line, index_name(index));
    add_displacement(line, displacement);
    add_text(line, ")");
}

/// Where a relative jump goes, by the address after its instruction.
#[tactic(auto, unfolding(crate::specs::OperandsZ80::relative_target))]
fn relative_target(behind: u16, displacement: u8) -> u16
    ensures { result ≡ relative_target behind displacement }
{
    let distance = u16::from(displacement);
    if displacement < 0x80 {
        behind.wrapping_add(distance)
    } else {
        behind.wrapping_add(0xFF00 + distance)
    }
}

/// Adds the target of a relative jump.
fn add_relative_target(line: &mut ListingLine, behind: u16, displacement: u8)
    requires { length line.old.bytes + 6 ≤ 96 }
    ensures text { line.new.bytes ≡ line.old.bytes ++ word_number (relative_target behind displacement) }
    ensures length { length line.new.bytes ≡ length line.old.bytes + 6 }
{
    add_word_number(line, relative_target(behind, displacement));
}

/// Adds the number of a bit or of an interrupt mode.
#[tactic(auto, unfolding(crate::specs::OperandsZ80::small_number))]
fn add_small_number(line: &mut ListingLine, number: u8)
    requires { length line.old.bytes + 1 ≤ 96 }
    ensures text { line.new.bytes ≡ line.old.bytes ++ small_number number }
    ensures length { length line.new.bytes ≡ length line.old.bytes + 1 }
{
    add_character(line, char::from(b'0' + number % 8));
}

/// A before the operand of ADD, ADC and SBC.
#[tactic(auto, unfolding(crate::specs::OperandsZ80::accumulator_before))]
fn accumulator_before(operation: Arithmetic) -> &'static str
    ensures text { result.now ≡ accumulator_before operation }
    ensures short { length result.now ≤ 2 }
{
    match operation {
        Arithmetic::Add | Arithmetic::AddCarry | Arithmetic::SubtractBorrow => "A,",
        _ => "",
    }
}

/// Adds the number of a bit before the byte that it belongs to.
#[tactic(auto, unfolding(crate::specs::OperandsZ80::bit_before))]
fn add_bit_before(line: &mut ListingLine, operation: BitOp)
    requires { length line.old.bytes + 2 ≤ 96 }
    ensures text { line.new.bytes ≡ line.old.bytes ++ bit_before operation }
    ensures length { length line.new.bytes ≤ length line.old.bytes + 2 }
{
    match operation {
        BitOp::Shift(_) => {}
        BitOp::Test(number) | BitOp::Reset(number) | BitOp::Set(number) => {
            add_small_number(line, number);
            add_text(line, ",");
        }
    }
}

/// Adds the operands of an operation that the 8080 has too, with this pair for HL.
#[tactic(auto, unfolding(crate::specs::OperandsZ80::shared_operands))]
fn add_shared_operands(line: &mut ListingLine, hl: &'static str, op: Op)
    requires pair { length hl.now ≡ 2 }
    requires room { length line.old.bytes + 13 ≤ 96 }
    ensures text { line.new.bytes ≡ line.old.bytes ++ shared_operands hl.now op }
    ensures length { length line.new.bytes ≤ length line.old.bytes + 13 }
{
    match op {
        Op::Move(target, source) => add_two(line, place_name_z80(target), place_name_z80(source)),
        Op::MoveImmediate(target, value) => {
            add_text(line, place_name_z80(target));
            add_text(line, ",");
            add_byte_number(line, value);
        }
        Op::LoadPair(target, value) => {
            add_text(line, pair_name_z80(hl, target));
            add_text(line, ",");
            add_word_number(line, value);
        }
        Op::AddPair(source) => add_two(line, hl, pair_name_z80(hl, source)),
        Op::StoreAAtPair(target) => {
            add_at_name(line, pair_name_z80(hl, target));
            add_text(line, ",A");
        }
        Op::LoadAAtPair(source) => {
            add_text(line, "A,");
            add_at_name(line, pair_name_z80(hl, source));
        }
        Op::StoreHl(address) => {
            add_at_word(line, address);
            add_text(line, ",");
            add_text(line, hl);
        }
        Op::LoadHl(address) => {
            add_text(line, hl);
            add_text(line, ",");
            add_at_word(line, address);
        }
        Op::StoreA(address) => {
            add_at_word(line, address);
            add_text(line, ",A");
        }
        Op::LoadA(address) => {
            add_text(line, "A,");
            add_at_word(line, address);
        }
        Op::Input(port) => {
            add_text(line, "A,");
            add_at_byte(line, port);
        }
        Op::Output(port) => {
            add_at_byte(line, port);
            add_text(line, ",A");
        }
        Op::Increment(place) | Op::Decrement(place) => add_text(line, place_name_z80(place)),
        Op::IncrementPair(pair) | Op::DecrementPair(pair) => {
            add_text(line, pair_name_z80(hl, pair));
        }
        Op::Arithmetic(operation, source) => {
            add_text(line, accumulator_before(operation));
            add_text(line, place_name_z80(source));
        }
        Op::ArithmeticImmediate(operation, value) => {
            add_text(line, accumulator_before(operation));
            add_byte_number(line, value);
        }
        Op::Jump(address) | Op::Call(address) => add_word_number(line, address),
        Op::JumpIf(condition, address) | Op::CallIf(condition, address) => {
            add_text(line, condition_name(condition));
            add_text(line, ",");
            add_word_number(line, address);
        }
        Op::ReturnIf(condition) => add_text(line, condition_name(condition)),
        Op::Restart(address) => add_byte_number(line, 8 * restart_of(address)),
        Op::Push(pair) | Op::Pop(pair) => add_text(line, stack_pair_name_z80(hl, pair)),
        Op::ExchangeStack => add_two(line, "(SP)", hl),
        Op::JumpHl => add_at_name(line, hl),
        Op::StackFromHl => add_two(line, "SP", hl),
        Op::Exchange => add_two(line, "DE", hl),
        _ => {}
    }
}

/// Adds the operands of an operation after EDh.
#[tactic(auto, unfolding(crate::specs::OperandsZ80::extended_operands))]
fn add_extended_operands(line: &mut ListingLine, op: ExtendedOp)
    requires { length line.old.bytes + 13 ≤ 96 }
    ensures text { line.new.bytes ≡ line.old.bytes ++ extended_operands op }
    ensures length { length line.new.bytes ≤ length line.old.bytes + 13 }
{
    match op {
        ExtendedOp::Input(target) => add_two(line, place_name_z80(target), "(C)"),
        ExtendedOp::Output(source) => add_two(line, "(C)", place_name_z80(source)),
        ExtendedOp::SubtractBorrowPair(source) | ExtendedOp::AddCarryPair(source) => {
            add_two(line, "HL", pair_name_z80("HL", source));
        }
        ExtendedOp::StorePair(source, address) => {
            add_at_word(line, address);
            add_text(line, ",");
            add_text(line, pair_name_z80("HL", source));
        }
        ExtendedOp::LoadPair(target, address) => {
            add_text(line, pair_name_z80("HL", target));
            add_text(line, ",");
            add_at_word(line, address);
        }
        ExtendedOp::InterruptMode(mode) => add_small_number(line, mode),
        ExtendedOp::SetInterruptPage => add_text(line, "I,A"),
        ExtendedOp::SetRefresh => add_text(line, "R,A"),
        ExtendedOp::LoadInterruptPage => add_text(line, "A,I"),
        ExtendedOp::LoadRefresh => add_text(line, "A,R"),
        _ => {}
    }
}

/// Adds the operands of an operation with this byte at an index register and a displacement.
#[tactic(auto, unfolding(crate::specs::OperandsZ80::indexed_operands))]
fn add_indexed_operands(line: &mut ListingLine, at: &str, op: IndexedOp)
    requires byte { length at.now ≡ 8 }
    requires room { length line.old.bytes + 13 ≤ 96 }
    ensures text { line.new.bytes ≡ line.old.bytes ++ indexed_operands at.now op }
    ensures length { length line.new.bytes ≤ length line.old.bytes + 13 }
{
    match op {
        IndexedOp::Increment | IndexedOp::Decrement => add_text(line, at),
        IndexedOp::StoreImmediate(value) => {
            add_text(line, at);
            add_text(line, ",");
            add_byte_number(line, value);
        }
        IndexedOp::Load(target) => add_two(line, place_name_z80(target), at),
        IndexedOp::Store(source) => add_two(line, at, place_name_z80(source)),
        IndexedOp::Arithmetic(operation) => {
            add_text(line, accumulator_before(operation));
            add_text(line, at);
        }
        IndexedOp::Bits(operation) => {
            add_bit_before(line, operation);
            add_text(line, at);
        }
    }
}

/// Adds the operands of an operation whose instruction ends before this address.
/// Zilog Z80 CPU User Manual, "Z80 Instruction Description".
#[tactic(auto, unfolding(crate::specs::OperandsZ80::operands_z80))]
pub(crate) fn add_operands_z80(line: &mut ListingLine, behind: u16, op: OpZ80)
    requires { length line.old.bytes + 13 ≤ 96 }
    ensures text { line.new.bytes ≡ line.old.bytes ++ operands_z80 behind op }
    ensures length { length line.new.bytes ≤ length line.old.bytes + 13 }
{
    match op {
        OpZ80::Shared(operation) => add_shared_operands(line, "HL", operation),
        OpZ80::ExchangeAf => add_text(line, "AF,AF'"),
        OpZ80::ExchangeAll => {}
        OpZ80::JumpRelative(displacement) | OpZ80::DecrementJump(displacement) => {
            add_relative_target(line, behind, displacement);
        }
        OpZ80::JumpRelativeIf(condition, displacement) => {
            add_text(line, condition_name(condition));
            add_text(line, ",");
            add_relative_target(line, behind, displacement);
        }
        OpZ80::Bits(operation, target) => {
            add_bit_before(line, operation);
            add_text(line, place_name_z80(target));
        }
        OpZ80::Extended(operation) => add_extended_operands(line, operation),
        OpZ80::WithIndex(index, operation) => {
            add_shared_operands(line, index_name(index), operation);
        }
        OpZ80::Indexed(index, displacement, operation) => {
            let mut at: ListingLine = ArrayString::new();
            add_at_index(&mut at, index, displacement);
            add_indexed_operands(line, at.as_str(), operation);
        }
    }
}
