//! The bytes of an instruction.
ghost use Rattle.std.specs.Prelude.{◌≡◌, ◌<◌, ◌≤◌, ◌∷◌, [], ◌/◌, ◌%◌};
ghost use Rattle.cpm_asm.specs.Encoding.{arithmetic_code, condition_code, encoded, pair_code, place_code};
ghost use Rattle.cpm_asm.specs.Encoding.{rotation_code, stack_pair_code, op_with_byte, op_with_word};

use arrayvec::ArrayVec;
use cpm_asm_expression::{ByteForm, WordForm};
use cpm_decode::{Arithmetic, Condition, Op, Operand, Pair, Rotation, StackPair};

/// The bytes of an instruction.
pub type Encoding = ArrayVec<u8, 3>;

fn place_code(place: Operand) -> u8
    ensures code { result ≡ place_code place }
    ensures low { result < 8 }
{
    match place {
        Operand::B => 0,
        Operand::C => 1,
        Operand::D => 2,
        Operand::E => 3,
        Operand::H => 4,
        Operand::L => 5,
        Operand::AtHl => 6,
        Operand::A => 7,
    }
}

fn pair_code(pair: Pair) -> u8
    ensures code { result ≡ pair_code pair }
    ensures low { result < 4 }
{
    match pair {
        Pair::Bc => 0,
        Pair::De => 1,
        Pair::Hl => 2,
        Pair::Sp => 3,
    }
}

fn stack_pair_code(pair: StackPair) -> u8
    ensures code { result ≡ stack_pair_code pair }
    ensures low { result < 4 }
{
    match pair {
        StackPair::Bc => 0,
        StackPair::De => 1,
        StackPair::Hl => 2,
        StackPair::Psw => 3,
    }
}

fn condition_code(condition: Condition) -> u8
    ensures code { result ≡ condition_code condition }
    ensures low { result < 8 }
{
    match condition {
        Condition::NotZero => 0,
        Condition::Zero => 1,
        Condition::NoCarry => 2,
        Condition::Carry => 3,
        Condition::ParityOdd => 4,
        Condition::ParityEven => 5,
        Condition::Plus => 6,
        Condition::Minus => 7,
    }
}

fn arithmetic_code(arithmetic: Arithmetic) -> u8
    ensures code { result ≡ arithmetic_code arithmetic }
    ensures low { result < 8 }
{
    match arithmetic {
        Arithmetic::Add => 0,
        Arithmetic::AddCarry => 1,
        Arithmetic::Subtract => 2,
        Arithmetic::SubtractBorrow => 3,
        Arithmetic::And => 4,
        Arithmetic::Xor => 5,
        Arithmetic::Or => 6,
        Arithmetic::Compare => 7,
    }
}

fn rotation_code(rotation: Rotation) -> u8
    ensures code { result ≡ rotation_code rotation }
    ensures low { result < 4 }
{
    match rotation {
        Rotation::Left => 0,
        Rotation::Right => 1,
        Rotation::LeftThroughCarry => 2,
        Rotation::RightThroughCarry => 3,
    }
}

fn one(opcode: u8) -> Encoding
    ensures { result.items ≡ opcode ∷ [] }
{
    let mut bytes = Encoding::new();
    bytes.push(opcode);
    bytes
}

fn two(opcode: u8, byte: u8) -> Encoding
    ensures { result.items ≡ opcode ∷ byte ∷ [] }
{
    let mut bytes = one(opcode);
    bytes.push(byte);
    bytes
}

/// An opcode and a word, low byte first.
fn three(opcode: u8, word: u16) -> Encoding
    ensures { result.items ≡ opcode ∷ word % 256 ∷ word / 256 ∷ [] }
{
    let mut bytes = one(opcode);
    bytes.push((word % 256) as u8);
    bytes.push((word / 256) as u8);
    bytes
}

/// The bytes of an instruction by the 8080's table.
/// Intel 8080 Assembly Language Programming Manual, "Instruction Summary".
#[tactic(auto, unfolding(crate::specs::Encoding::encoded))]
pub fn encoded(op: Op) -> Encoding
    ensures { result.items ≡ encoded op }
{
    match op {
        Op::Nop => one(0x00),
        Op::Halt => one(0x76),
        Op::Move(target, source) => one(0x40 + 8 * place_code(target) + place_code(source)),
        Op::MoveImmediate(place, byte) => two(0x06 + 8 * place_code(place), byte),
        Op::Increment(place) => one(0x04 + 8 * place_code(place)),
        Op::Decrement(place) => one(0x05 + 8 * place_code(place)),
        Op::LoadPair(pair, word) => three(0x01 + 16 * pair_code(pair), word),
        Op::IncrementPair(pair) => one(0x03 + 16 * pair_code(pair)),
        Op::DecrementPair(pair) => one(0x0B + 16 * pair_code(pair)),
        Op::AddPair(pair) => one(0x09 + 16 * pair_code(pair)),
        Op::StoreAAtPair(pair) => one(0x02 + 16 * pair_code(pair)),
        Op::LoadAAtPair(pair) => one(0x0A + 16 * pair_code(pair)),
        Op::StoreHl(word) => three(0x22, word),
        Op::LoadHl(word) => three(0x2A, word),
        Op::StoreA(word) => three(0x32, word),
        Op::LoadA(word) => three(0x3A, word),
        Op::Rotate(rotation) => one(0x07 + 8 * rotation_code(rotation)),
        Op::DecimalAdjust => one(0x27),
        Op::ComplementA => one(0x2F),
        Op::SetCarry => one(0x37),
        Op::ComplementCarry => one(0x3F),
        Op::Arithmetic(arithmetic, place) => one(
            0x80 + 8 * arithmetic_code(arithmetic) + place_code(place),
        ),
        Op::ArithmeticImmediate(arithmetic, byte) => two(
            0xC6 + 8 * arithmetic_code(arithmetic),
            byte,
        ),
        Op::Jump(word) => three(0xC3, word),
        Op::JumpIf(condition, word) => three(0xC2 + 8 * condition_code(condition), word),
        Op::Call(word) => three(0xCD, word),
        Op::CallIf(condition, word) => three(0xC4 + 8 * condition_code(condition), word),
        Op::Return => one(0xC9),
        Op::ReturnIf(condition) => one(0xC0 + 8 * condition_code(condition)),
        Op::Restart(address) => one(0xC7 + 8 * ((address / 8 % 8) as u8)),
        Op::Push(pair) => one(0xC5 + 16 * stack_pair_code(pair)),
        Op::Pop(pair) => one(0xC1 + 16 * stack_pair_code(pair)),
        Op::ExchangeStack => one(0xE3),
        Op::JumpHl => one(0xE9),
        Op::StackFromHl => one(0xF9),
        Op::Exchange => one(0xEB),
        Op::Input(byte) => two(0xDB, byte),
        Op::Output(byte) => two(0xD3, byte),
        Op::DisableInterrupts => one(0xF3),
        Op::EnableInterrupts => one(0xFB),
    }
}

/// An instruction with its last byte.
pub(crate) fn op_with_byte(form: ByteForm, byte: u8) -> Op
    ensures { result ≡ op_with_byte form byte }
{
    match form {
        ByteForm::MoveImmediate(place) => Op::MoveImmediate(place, byte),
        ByteForm::Arithmetic(arithmetic) => Op::ArithmeticImmediate(arithmetic, byte),
        ByteForm::Input => Op::Input(byte),
        ByteForm::Output => Op::Output(byte),
    }
}

/// An instruction with its last two bytes.
pub(crate) fn op_with_word(form: WordForm, word: u16) -> Op
    ensures { result ≡ op_with_word form word }
{
    match form {
        WordForm::LoadPair(pair) => Op::LoadPair(pair, word),
        WordForm::StoreHl => Op::StoreHl(word),
        WordForm::LoadHl => Op::LoadHl(word),
        WordForm::StoreA => Op::StoreA(word),
        WordForm::LoadA => Op::LoadA(word),
        WordForm::Jump => Op::Jump(word),
        WordForm::JumpIf(condition) => Op::JumpIf(condition, word),
        WordForm::Call => Op::Call(word),
        WordForm::CallIf(condition) => Op::CallIf(condition, word),
    }
}
