//! How the operations of the Z80 and their operands are called.
ghost use Rattle.std.specs.Prelude.{◌≡◌, ◌≤◌, length};
ghost use Rattle.cpm_listing.specs.Mnemonics.{condition_name};
ghost use Rattle.cpm_listing.specs.MnemonicsZ80.{place_name_z80, index_name, pair_name_z80, stack_pair_name_z80, arithmetic_name_z80};
ghost use Rattle.cpm_listing.specs.MnemonicsZ80.{rotation_name_z80, shift_name, bit_name, copy_name, search_name, input_name};
ghost use Rattle.cpm_listing.specs.MnemonicsZ80.{output_name, shared_name, extended_name, indexed_name, mnemonic_z80};

use cpm_decode::{
    Arithmetic, BitOp, Condition, Direction, ExtendedOp, IndexRegister, IndexedOp, Op, OpZ80,
    Operand, Pair, Repeat, Rotation, Shift, StackPair,
};

/// The name of a register, or of the byte at HL.
#[tactic(auto, unfolding(crate::specs::MnemonicsZ80::place_name_z80))]
pub(crate) fn place_name_z80(place: Operand) -> &'static str
    ensures text { result.now ≡ place_name_z80 place }
    ensures short { length result.now ≤ 4 }
{
    match place {
        Operand::B => "B",
        Operand::C => "C",
        Operand::D => "D",
        Operand::E => "E",
        Operand::H => "H",
        Operand::L => "L",
        Operand::AtHl => "(HL)",
        Operand::A => "A",
    }
}

/// The name of an index register.
#[tactic(auto, unfolding(crate::specs::MnemonicsZ80::index_name))]
pub(crate) fn index_name(index: IndexRegister) -> &'static str
    ensures text { result.now ≡ index_name index }
    ensures short { length result.now ≡ 2 }
{
    match index {
        IndexRegister::Ix => "IX",
        IndexRegister::Iy => "IY",
    }
}

/// The name of a condition.
pub(crate) fn condition_name(condition: Condition) -> &'static str
    ensures text { result.now ≡ condition_name condition }
    ensures short { length result.now ≤ 2 }
{
    match condition {
        Condition::NotZero => "NZ",
        Condition::Zero => "Z",
        Condition::NoCarry => "NC",
        Condition::Carry => "C",
        Condition::ParityOdd => "PO",
        Condition::ParityEven => "PE",
        Condition::Plus => "P",
        Condition::Minus => "M",
    }
}

/// The name of a pair, with this one for HL.
#[tactic(auto, unfolding(crate::specs::MnemonicsZ80::pair_name_z80))]
pub(crate) fn pair_name_z80(hl: &'static str, pair: Pair) -> &'static str
    requires { length hl.now ≡ 2 }
    ensures text { result.now ≡ pair_name_z80 hl.now pair }
    ensures short { length result.now ≤ 2 }
{
    match pair {
        Pair::Bc => "BC",
        Pair::De => "DE",
        Pair::Hl => hl,
        Pair::Sp => "SP",
    }
}

/// The name of a pair of PUSH and POP, with this one for HL.
#[tactic(auto, unfolding(crate::specs::MnemonicsZ80::stack_pair_name_z80))]
pub(crate) fn stack_pair_name_z80(hl: &'static str, pair: StackPair) -> &'static str
    requires { length hl.now ≡ 2 }
    ensures text { result.now ≡ stack_pair_name_z80 hl.now pair }
    ensures short { length result.now ≤ 2 }
{
    match pair {
        StackPair::Bc => "BC",
        StackPair::De => "DE",
        StackPair::Hl => hl,
        StackPair::Psw => "AF",
    }
}

/// The mnemonic of an operation of A and a byte.
#[tactic(auto, unfolding(crate::specs::MnemonicsZ80::arithmetic_name_z80))]
fn arithmetic_name_z80(operation: Arithmetic) -> &'static str
    ensures text { result.now ≡ arithmetic_name_z80 operation }
    ensures short { length result.now ≤ 4 }
{
    match operation {
        Arithmetic::Add => "ADD",
        Arithmetic::AddCarry => "ADC",
        Arithmetic::Subtract => "SUB",
        Arithmetic::SubtractBorrow => "SBC",
        Arithmetic::And => "AND",
        Arithmetic::Xor => "XOR",
        Arithmetic::Or => "OR",
        Arithmetic::Compare => "CP",
    }
}

/// The mnemonic of a rotation of A.
#[tactic(auto, unfolding(crate::specs::MnemonicsZ80::rotation_name_z80))]
fn rotation_name_z80(rotation: Rotation) -> &'static str
    ensures text { result.now ≡ rotation_name_z80 rotation }
    ensures short { length result.now ≤ 4 }
{
    match rotation {
        Rotation::Left => "RLCA",
        Rotation::Right => "RRCA",
        Rotation::LeftThroughCarry => "RLA",
        Rotation::RightThroughCarry => "RRA",
    }
}

/// The mnemonic of a shift or rotation of a byte.
#[tactic(auto, unfolding(crate::specs::MnemonicsZ80::shift_name))]
fn shift_name(shift: Shift) -> &'static str
    ensures text { result.now ≡ shift_name shift }
    ensures short { length result.now ≤ 4 }
{
    match shift {
        Shift::RotateLeft => "RLC",
        Shift::RotateRight => "RRC",
        Shift::RotateLeftThroughCarry => "RL",
        Shift::RotateRightThroughCarry => "RR",
        Shift::Left => "SLA",
        Shift::ArithmeticRight => "SRA",
        Shift::LogicalRight => "SRL",
    }
}

/// The mnemonic of a shift, or of what is done with a bit.
#[tactic(auto, unfolding(crate::specs::MnemonicsZ80::bit_name))]
fn bit_name(operation: BitOp) -> &'static str
    ensures text { result.now ≡ bit_name operation }
    ensures short { length result.now ≤ 4 }
{
    match operation {
        BitOp::Shift(shift) => shift_name(shift),
        BitOp::Test(_) => "BIT",
        BitOp::Reset(_) => "RES",
        BitOp::Set(_) => "SET",
    }
}

/// The mnemonic of a block's copy.
#[tactic(auto, unfolding(crate::specs::MnemonicsZ80::copy_name))]
fn copy_name(direction: Direction, repeat: Repeat) -> &'static str
    ensures text { result.now ≡ copy_name direction repeat }
    ensures short { length result.now ≤ 4 }
{
    match (direction, repeat) {
        (Direction::Up, Repeat::Once) => "LDI",
        (Direction::Up, Repeat::Repeating) => "LDIR",
        (Direction::Down, Repeat::Once) => "LDD",
        (Direction::Down, Repeat::Repeating) => "LDDR",
    }
}

/// The mnemonic of a block's search.
#[tactic(auto, unfolding(crate::specs::MnemonicsZ80::search_name))]
fn search_name(direction: Direction, repeat: Repeat) -> &'static str
    ensures text { result.now ≡ search_name direction repeat }
    ensures short { length result.now ≤ 4 }
{
    match (direction, repeat) {
        (Direction::Up, Repeat::Once) => "CPI",
        (Direction::Up, Repeat::Repeating) => "CPIR",
        (Direction::Down, Repeat::Once) => "CPD",
        (Direction::Down, Repeat::Repeating) => "CPDR",
    }
}

/// The mnemonic of a block's input.
#[tactic(auto, unfolding(crate::specs::MnemonicsZ80::input_name))]
fn input_name(direction: Direction, repeat: Repeat) -> &'static str
    ensures text { result.now ≡ input_name direction repeat }
    ensures short { length result.now ≤ 4 }
{
    match (direction, repeat) {
        (Direction::Up, Repeat::Once) => "INI",
        (Direction::Up, Repeat::Repeating) => "INIR",
        (Direction::Down, Repeat::Once) => "IND",
        (Direction::Down, Repeat::Repeating) => "INDR",
    }
}

/// The mnemonic of a block's output.
#[tactic(auto, unfolding(crate::specs::MnemonicsZ80::output_name))]
fn output_name(direction: Direction, repeat: Repeat) -> &'static str
    ensures text { result.now ≡ output_name direction repeat }
    ensures short { length result.now ≤ 4 }
{
    match (direction, repeat) {
        (Direction::Up, Repeat::Once) => "OUTI",
        (Direction::Up, Repeat::Repeating) => "OTIR",
        (Direction::Down, Repeat::Once) => "OUTD",
        (Direction::Down, Repeat::Repeating) => "OTDR",
    }
}

/// The mnemonic of an operation that the 8080 has too.
#[tactic(auto, unfolding(crate::specs::MnemonicsZ80::shared_name))]
fn shared_name(op: Op) -> &'static str
    ensures text { result.now ≡ shared_name op }
    ensures short { length result.now ≤ 4 }
{
    match op {
        Op::Nop => "NOP",
        Op::Halt => "HALT",
        Op::Move(..)
        | Op::MoveImmediate(..)
        | Op::LoadPair(..)
        | Op::StoreAAtPair(_)
        | Op::LoadAAtPair(_)
        | Op::StoreHl(_)
        | Op::LoadHl(_)
        | Op::StoreA(_)
        | Op::LoadA(_)
        | Op::StackFromHl => "LD",
        Op::Increment(_) | Op::IncrementPair(_) => "INC",
        Op::Decrement(_) | Op::DecrementPair(_) => "DEC",
        Op::AddPair(_) => "ADD",
        Op::Rotate(rotation) => rotation_name_z80(rotation),
        Op::DecimalAdjust => "DAA",
        Op::ComplementA => "CPL",
        Op::SetCarry => "SCF",
        Op::ComplementCarry => "CCF",
        Op::Arithmetic(operation, _) | Op::ArithmeticImmediate(operation, _) => {
            arithmetic_name_z80(operation)
        }
        Op::Jump(_) | Op::JumpIf(..) | Op::JumpHl => "JP",
        Op::Call(_) | Op::CallIf(..) => "CALL",
        Op::Return | Op::ReturnIf(_) => "RET",
        Op::Restart(_) => "RST",
        Op::Push(_) => "PUSH",
        Op::Pop(_) => "POP",
        Op::ExchangeStack | Op::Exchange => "EX",
        Op::Input(_) => "IN",
        Op::Output(_) => "OUT",
        Op::DisableInterrupts => "DI",
        Op::EnableInterrupts => "EI",
    }
}

/// The mnemonic of an operation after EDh.
#[tactic(auto, unfolding(crate::specs::MnemonicsZ80::extended_name))]
fn extended_name(op: ExtendedOp) -> &'static str
    ensures text { result.now ≡ extended_name op }
    ensures short { length result.now ≤ 4 }
{
    match op {
        ExtendedOp::Input(_) => "IN",
        ExtendedOp::Output(_) => "OUT",
        ExtendedOp::SubtractBorrowPair(_) => "SBC",
        ExtendedOp::AddCarryPair(_) => "ADC",
        ExtendedOp::StorePair(..)
        | ExtendedOp::LoadPair(..)
        | ExtendedOp::SetInterruptPage
        | ExtendedOp::SetRefresh
        | ExtendedOp::LoadInterruptPage
        | ExtendedOp::LoadRefresh => "LD",
        ExtendedOp::Negate => "NEG",
        ExtendedOp::ReturnFromNonMaskable => "RETN",
        ExtendedOp::ReturnFromInterrupt => "RETI",
        ExtendedOp::InterruptMode(_) => "IM",
        ExtendedOp::RotateDigitsRight => "RRD",
        ExtendedOp::RotateDigitsLeft => "RLD",
        ExtendedOp::CopyBlock(direction, repeat) => copy_name(direction, repeat),
        ExtendedOp::SearchBlock(direction, repeat) => search_name(direction, repeat),
        ExtendedOp::InputBlock(direction, repeat) => input_name(direction, repeat),
        ExtendedOp::OutputBlock(direction, repeat) => output_name(direction, repeat),
    }
}

/// The mnemonic of an operation with the byte at an index register and a displacement.
#[tactic(auto, unfolding(crate::specs::MnemonicsZ80::indexed_name))]
fn indexed_name(op: IndexedOp) -> &'static str
    ensures text { result.now ≡ indexed_name op }
    ensures short { length result.now ≤ 4 }
{
    match op {
        IndexedOp::Increment => "INC",
        IndexedOp::Decrement => "DEC",
        IndexedOp::StoreImmediate(_) | IndexedOp::Load(_) | IndexedOp::Store(_) => "LD",
        IndexedOp::Arithmetic(operation) => arithmetic_name_z80(operation),
        IndexedOp::Bits(operation) => bit_name(operation),
    }
}

/// The mnemonic of an operation.
/// Zilog Z80 CPU User Manual, "Z80 Instruction Description".
#[tactic(auto, unfolding(crate::specs::MnemonicsZ80::mnemonic_z80))]
pub(crate) fn mnemonic_z80(op: OpZ80) -> &'static str
    ensures text { result.now ≡ mnemonic_z80 op }
    ensures short { length result.now ≤ 4 }
{
    match op {
        OpZ80::Shared(operation) | OpZ80::WithIndex(_, operation) => shared_name(operation),
        OpZ80::ExchangeAf => "EX",
        OpZ80::ExchangeAll => "EXX",
        OpZ80::JumpRelative(_) | OpZ80::JumpRelativeIf(..) => "JR",
        OpZ80::DecrementJump(_) => "DJNZ",
        OpZ80::Bits(operation, _) => bit_name(operation),
        OpZ80::Extended(operation) => extended_name(operation),
        OpZ80::Indexed(_, _, operation) => indexed_name(operation),
    }
}
