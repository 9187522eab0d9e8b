//! How the operations of the 8080 and their operands are called.
ghost use Rattle.std.specs.Prelude.{◌≡◌, ◌≤◌, length};
ghost use Rattle.cpm_listing.specs.Mnemonics.{place_name, pair_name, stack_pair_name, arithmetic_name, immediate_name};
ghost use Rattle.cpm_listing.specs.Mnemonics.{rotation_name, jump_name, call_name, return_name, mnemonic_of};

use cpm_decode::{Arithmetic, Condition, Op, Operand, Pair, Rotation, StackPair};

/// The name of a register, or M for the byte at HL.
#[tactic(auto, unfolding(crate::specs::Mnemonics::place_name))]
pub(crate) fn place_name(place: Operand) -> &'static str
    ensures text { result.now ≡ place_name place }
    ensures short { length result.now ≤ 1 }
{
    match place {
        Operand::B => "B",
        Operand::C => "C",
        Operand::D => "D",
        Operand::E => "E",
        Operand::H => "H",
        Operand::L => "L",
        Operand::AtHl => "M",
        Operand::A => "A",
    }
}

/// The name of a pair, which is that of its first register.
#[tactic(auto, unfolding(crate::specs::Mnemonics::pair_name))]
pub(crate) fn pair_name(pair: Pair) -> &'static str
    ensures text { result.now ≡ pair_name pair }
    ensures short { length result.now ≤ 2 }
{
    match pair {
        Pair::Bc => "B",
        Pair::De => "D",
        Pair::Hl => "H",
        Pair::Sp => "SP",
    }
}

/// The name of a pair of PUSH and POP.
#[tactic(auto, unfolding(crate::specs::Mnemonics::stack_pair_name))]
pub(crate) fn stack_pair_name(pair: StackPair) -> &'static str
    ensures text { result.now ≡ stack_pair_name pair }
    ensures short { length result.now ≤ 3 }
{
    match pair {
        StackPair::Bc => "B",
        StackPair::De => "D",
        StackPair::Hl => "H",
        StackPair::Psw => "PSW",
    }
}

/// The mnemonic of an operation of A and a register or M.
#[tactic(auto, unfolding(crate::specs::Mnemonics::arithmetic_name))]
fn arithmetic_name(operation: Arithmetic) -> &'static str
    ensures text { result.now ≡ arithmetic_name operation }
    ensures short { length result.now ≤ 4 }
{
    match operation {
        Arithmetic::Add => "ADD",
        Arithmetic::AddCarry => "ADC",
        Arithmetic::Subtract => "SUB",
        Arithmetic::SubtractBorrow => "SBB",
        Arithmetic::And => "ANA",
        Arithmetic::Xor => "XRA",
        Arithmetic::Or => "ORA",
        Arithmetic::Compare => "CMP",
    }
}

/// The mnemonic of an operation of A and the byte after the opcode.
#[tactic(auto, unfolding(crate::specs::Mnemonics::immediate_name))]
fn immediate_name(operation: Arithmetic) -> &'static str
    ensures text { result.now ≡ immediate_name operation }
    ensures short { length result.now ≤ 4 }
{
    match operation {
        Arithmetic::Add => "ADI",
        Arithmetic::AddCarry => "ACI",
        Arithmetic::Subtract => "SUI",
        Arithmetic::SubtractBorrow => "SBI",
        Arithmetic::And => "ANI",
        Arithmetic::Xor => "XRI",
        Arithmetic::Or => "ORI",
        Arithmetic::Compare => "CPI",
    }
}

/// The mnemonic of a rotation of A.
#[tactic(auto, unfolding(crate::specs::Mnemonics::rotation_name))]
fn rotation_name(rotation: Rotation) -> &'static str
    ensures text { result.now ≡ rotation_name rotation }
    ensures short { length result.now ≤ 4 }
{
    match rotation {
        Rotation::Left => "RLC",
        Rotation::Right => "RRC",
        Rotation::LeftThroughCarry => "RAL",
        Rotation::RightThroughCarry => "RAR",
    }
}

/// The mnemonic of a conditional jump.
#[tactic(auto, unfolding(crate::specs::Mnemonics::jump_name))]
fn jump_name(condition: Condition) -> &'static str
    ensures text { result.now ≡ jump_name condition }
    ensures short { length result.now ≤ 4 }
{
    match condition {
        Condition::NotZero => "JNZ",
        Condition::Zero => "JZ",
        Condition::NoCarry => "JNC",
        Condition::Carry => "JC",
        Condition::ParityOdd => "JPO",
        Condition::ParityEven => "JPE",
        Condition::Plus => "JP",
        Condition::Minus => "JM",
    }
}

/// The mnemonic of a conditional call.
#[tactic(auto, unfolding(crate::specs::Mnemonics::call_name))]
fn call_name(condition: Condition) -> &'static str
    ensures text { result.now ≡ call_name condition }
    ensures short { length result.now ≤ 4 }
{
    match condition {
        Condition::NotZero => "CNZ",
        Condition::Zero => "CZ",
        Condition::NoCarry => "CNC",
        Condition::Carry => "CC",
        Condition::ParityOdd => "CPO",
        Condition::ParityEven => "CPE",
        Condition::Plus => "CP",
        Condition::Minus => "CM",
    }
}

/// The mnemonic of a conditional return.
#[tactic(auto, unfolding(crate::specs::Mnemonics::return_name))]
fn return_name(condition: Condition) -> &'static str
    ensures text { result.now ≡ return_name condition }
    ensures short { length result.now ≤ 4 }
{
    match condition {
        Condition::NotZero => "RNZ",
        Condition::Zero => "RZ",
        Condition::NoCarry => "RNC",
        Condition::Carry => "RC",
        Condition::ParityOdd => "RPO",
        Condition::ParityEven => "RPE",
        Condition::Plus => "RP",
        Condition::Minus => "RM",
    }
}

/// The mnemonic of an operation.
/// Intel 8080 Assembly Language Programming Manual, "The 8080 Instruction Set".
#[tactic(auto, unfolding(crate::specs::Mnemonics::mnemonic_of))]
pub(crate) fn mnemonic_of(op: Op) -> &'static str
    ensures text { result.now ≡ mnemonic_of op }
    ensures short { length result.now ≤ 4 }
{
    match op {
        Op::Nop => "NOP",
        Op::Halt => "HLT",
        Op::Move(..) => "MOV",
        Op::MoveImmediate(..) => "MVI",
        Op::Increment(_) => "INR",
        Op::Decrement(_) => "DCR",
        Op::LoadPair(..) => "LXI",
        Op::IncrementPair(_) => "INX",
        Op::DecrementPair(_) => "DCX",
        Op::AddPair(_) => "DAD",
        Op::StoreAAtPair(_) => "STAX",
        Op::LoadAAtPair(_) => "LDAX",
        Op::StoreHl(_) => "SHLD",
        Op::LoadHl(_) => "LHLD",
        Op::StoreA(_) => "STA",
        Op::LoadA(_) => "LDA",
        Op::Rotate(rotation) => rotation_name(rotation),
        Op::DecimalAdjust => "DAA",
        Op::ComplementA => "CMA",
        Op::SetCarry => "STC",
        Op::ComplementCarry => "CMC",
        Op::Arithmetic(operation, _) => arithmetic_name(operation),
        Op::ArithmeticImmediate(operation, _) => immediate_name(operation),
        Op::Jump(_) => "JMP",
        Op::JumpIf(condition, _) => jump_name(condition),
        Op::Call(_) => "CALL",
        Op::CallIf(condition, _) => call_name(condition),
        Op::Return => "RET",
        Op::ReturnIf(condition) => return_name(condition),
        Op::Restart(_) => "RST",
        Op::Push(_) => "PUSH",
        Op::Pop(_) => "POP",
        Op::ExchangeStack => "XTHL",
        Op::JumpHl => "PCHL",
        Op::StackFromHl => "SPHL",
        Op::Exchange => "XCHG",
        Op::Input(_) => "IN",
        Op::Output(_) => "OUT",
        Op::DisableInterrupts => "DI",
        Op::EnableInterrupts => "EI",
    }
}
