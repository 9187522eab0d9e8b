//! The words that have a meaning of their own.
ghost use Rattle.std.specs.Prelude.{◌≡◌};
ghost use Rattle.cpm_asm_expression.specs.Words.{keyword_of, look, plain_rows};

use crate::tokens::Operator;
use cpm_decode::{Arithmetic, Condition, Op, Operand, Pair, Rotation};

/// A register, or a pair that has a name of its own. M is the byte at HL.
#[derive(Clone, Copy, Debug, PartialEq, Eq)]
pub enum Register {
    B,
    C,
    D,
    E,
    H,
    L,
    M,
    A,
    StackPointer,
    StatusWord,
}

/// An instruction whose last byte is an operand.
#[derive(Clone, Copy, Debug, PartialEq, Eq)]
pub enum ByteForm {
    MoveImmediate(Operand),
    Arithmetic(Arithmetic),
    Input,
    Output,
}

/// An instruction whose last two bytes are an operand.
#[derive(Clone, Copy, Debug, PartialEq, Eq)]
pub enum WordForm {
    LoadPair(Pair),
    StoreHl,
    LoadHl,
    StoreA,
    LoadA,
    Jump,
    JumpIf(Condition),
    Call,
    CallIf(Condition),
}

/// What a directive or a mnemonic asks for.
/// CP/M 2.2 Operating System Manual, "CP/M Assembler", "Assembler Directives" and "Operation Codes".
#[derive(Clone, Copy, Debug, PartialEq, Eq)]
pub enum Operation {
    Origin,
    End,
    Equate,
    If,
    EndIf,
    Bytes,
    Words,
    Space,
    /// An instruction with no operand.
    Plain(Op),
    Byte(ByteForm),
    Word(WordForm),
    Move,
    MoveImmediate,
    Increment,
    Decrement,
    Arithmetic(Arithmetic),
    LoadPair,
    IncrementPair,
    DecrementPair,
    AddPair,
    StoreAAtPair,
    LoadAAtPair,
    Push,
    Pop,
    Restart,
}

/// A word that is no name.
#[derive(Clone, Copy, Debug, PartialEq, Eq)]
pub enum Keyword {
    Register(Register),
    Operator(Operator),
    Not,
    Operation(Operation),
}

/// The directives and the mnemonics.
const OPERATIONS: [(&[u8], Operation); 86] = [
    (b"ORG", Operation::Origin),
    (b"END", Operation::End),
    (b"EQU", Operation::Equate),
    (b"IF", Operation::If),
    (b"ENDIF", Operation::EndIf),
    (b"DB", Operation::Bytes),
    (b"DW", Operation::Words),
    (b"DS", Operation::Space),
    (b"MOV", Operation::Move),
    (b"MVI", Operation::MoveImmediate),
    (b"INR", Operation::Increment),
    (b"DCR", Operation::Decrement),
    (b"ADD", Operation::Arithmetic(Arithmetic::Add)),
    (b"ADC", Operation::Arithmetic(Arithmetic::AddCarry)),
    (b"SUB", Operation::Arithmetic(Arithmetic::Subtract)),
    (b"SBB", Operation::Arithmetic(Arithmetic::SubtractBorrow)),
    (b"ANA", Operation::Arithmetic(Arithmetic::And)),
    (b"XRA", Operation::Arithmetic(Arithmetic::Xor)),
    (b"ORA", Operation::Arithmetic(Arithmetic::Or)),
    (b"CMP", Operation::Arithmetic(Arithmetic::Compare)),
    (
        b"ADI",
        Operation::Byte(ByteForm::Arithmetic(Arithmetic::Add)),
    ),
    (
        b"ACI",
        Operation::Byte(ByteForm::Arithmetic(Arithmetic::AddCarry)),
    ),
    (
        b"SUI",
        Operation::Byte(ByteForm::Arithmetic(Arithmetic::Subtract)),
    ),
    (
        b"SBI",
        Operation::Byte(ByteForm::Arithmetic(Arithmetic::SubtractBorrow)),
    ),
    (
        b"ANI",
        Operation::Byte(ByteForm::Arithmetic(Arithmetic::And)),
    ),
    (
        b"XRI",
        Operation::Byte(ByteForm::Arithmetic(Arithmetic::Xor)),
    ),
    (
        b"ORI",
        Operation::Byte(ByteForm::Arithmetic(Arithmetic::Or)),
    ),
    (
        b"CPI",
        Operation::Byte(ByteForm::Arithmetic(Arithmetic::Compare)),
    ),
    (b"LXI", Operation::LoadPair),
    (b"INX", Operation::IncrementPair),
    (b"DCX", Operation::DecrementPair),
    (b"DAD", Operation::AddPair),
    (b"STAX", Operation::StoreAAtPair),
    (b"LDAX", Operation::LoadAAtPair),
    (b"PUSH", Operation::Push),
    (b"POP", Operation::Pop),
    (b"RST", Operation::Restart),
    (b"SHLD", Operation::Word(WordForm::StoreHl)),
    (b"LHLD", Operation::Word(WordForm::LoadHl)),
    (b"STA", Operation::Word(WordForm::StoreA)),
    (b"LDA", Operation::Word(WordForm::LoadA)),
    (b"JMP", Operation::Word(WordForm::Jump)),
    (b"CALL", Operation::Word(WordForm::Call)),
    (
        b"JNZ",
        Operation::Word(WordForm::JumpIf(Condition::NotZero)),
    ),
    (b"JZ", Operation::Word(WordForm::JumpIf(Condition::Zero))),
    (
        b"JNC",
        Operation::Word(WordForm::JumpIf(Condition::NoCarry)),
    ),
    (b"JC", Operation::Word(WordForm::JumpIf(Condition::Carry))),
    (
        b"JPO",
        Operation::Word(WordForm::JumpIf(Condition::ParityOdd)),
    ),
    (
        b"JPE",
        Operation::Word(WordForm::JumpIf(Condition::ParityEven)),
    ),
    (b"JP", Operation::Word(WordForm::JumpIf(Condition::Plus))),
    (b"JM", Operation::Word(WordForm::JumpIf(Condition::Minus))),
    (
        b"CNZ",
        Operation::Word(WordForm::CallIf(Condition::NotZero)),
    ),
    (b"CZ", Operation::Word(WordForm::CallIf(Condition::Zero))),
    (
        b"CNC",
        Operation::Word(WordForm::CallIf(Condition::NoCarry)),
    ),
    (b"CC", Operation::Word(WordForm::CallIf(Condition::Carry))),
    (
        b"CPO",
        Operation::Word(WordForm::CallIf(Condition::ParityOdd)),
    ),
    (
        b"CPE",
        Operation::Word(WordForm::CallIf(Condition::ParityEven)),
    ),
    (b"CP", Operation::Word(WordForm::CallIf(Condition::Plus))),
    (b"CM", Operation::Word(WordForm::CallIf(Condition::Minus))),
    (b"RNZ", Operation::Plain(Op::ReturnIf(Condition::NotZero))),
    (b"RZ", Operation::Plain(Op::ReturnIf(Condition::Zero))),
    (b"RNC", Operation::Plain(Op::ReturnIf(Condition::NoCarry))),
    (b"RC", Operation::Plain(Op::ReturnIf(Condition::Carry))),
    (b"RPO", Operation::Plain(Op::ReturnIf(Condition::ParityOdd))),
    (
        b"RPE",
        Operation::Plain(Op::ReturnIf(Condition::ParityEven)),
    ),
    (b"RP", Operation::Plain(Op::ReturnIf(Condition::Plus))),
    (b"RM", Operation::Plain(Op::ReturnIf(Condition::Minus))),
    (b"IN", Operation::Byte(ByteForm::Input)),
    (b"OUT", Operation::Byte(ByteForm::Output)),
    (b"RLC", Operation::Plain(Op::Rotate(Rotation::Left))),
    (b"RRC", Operation::Plain(Op::Rotate(Rotation::Right))),
    (
        b"RAL",
        Operation::Plain(Op::Rotate(Rotation::LeftThroughCarry)),
    ),
    (
        b"RAR",
        Operation::Plain(Op::Rotate(Rotation::RightThroughCarry)),
    ),
    (b"RET", Operation::Plain(Op::Return)),
    (b"NOP", Operation::Plain(Op::Nop)),
    (b"HLT", Operation::Plain(Op::Halt)),
    (b"DAA", Operation::Plain(Op::DecimalAdjust)),
    (b"CMA", Operation::Plain(Op::ComplementA)),
    (b"STC", Operation::Plain(Op::SetCarry)),
    (b"CMC", Operation::Plain(Op::ComplementCarry)),
    (b"XTHL", Operation::Plain(Op::ExchangeStack)),
    (b"PCHL", Operation::Plain(Op::JumpHl)),
    (b"SPHL", Operation::Plain(Op::StackFromHl)),
    (b"XCHG", Operation::Plain(Op::Exchange)),
    (b"DI", Operation::Plain(Op::DisableInterrupts)),
    (b"EI", Operation::Plain(Op::EnableInterrupts)),
];

/// The operators that are words, and the registers.
const RESERVED: [(&[u8], Keyword); 17] = [
    (b"AND", Keyword::Operator(Operator::And)),
    (b"OR", Keyword::Operator(Operator::Or)),
    (b"XOR", Keyword::Operator(Operator::Xor)),
    (b"NOT", Keyword::Not),
    (b"MOD", Keyword::Operator(Operator::Modulo)),
    (b"SHL", Keyword::Operator(Operator::ShiftLeft)),
    (b"SHR", Keyword::Operator(Operator::ShiftRight)),
    (b"B", Keyword::Register(Register::B)),
    (b"C", Keyword::Register(Register::C)),
    (b"D", Keyword::Register(Register::D)),
    (b"E", Keyword::Register(Register::E)),
    (b"H", Keyword::Register(Register::H)),
    (b"L", Keyword::Register(Register::L)),
    (b"M", Keyword::Register(Register::M)),
    (b"A", Keyword::Register(Register::A)),
    (b"SP", Keyword::Register(Register::StackPointer)),
    (b"PSW", Keyword::Register(Register::StatusWord)),
];

/// The meaning that the first row of a word gives it.
fn look<X: Copy>(rows: &[(&[u8], X)], word: &[u8]) -> Option<X>
    ensures { result ≡ look word.now (plain_rows rows.now) }
{
    for (letters, meaning) in rows {
        if *letters == word {
            return Some(*meaning);
        }
    }
    None
}

/// The meaning of a word in capital letters, if it is no name.
pub fn keyword_of(letters: &[u8]) -> Option<Keyword>
    ensures { result ≡ keyword_of letters.now }
{
    match look(&OPERATIONS, letters) {
        Some(operation) => Some(Keyword::Operation(operation)),
        None => look(&RESERVED, letters),
    }
}
