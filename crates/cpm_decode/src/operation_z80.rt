//! The operations of the Zilog Z80 that the 8080 does not have.
use crate::operation::{Arithmetic, Condition, Op, Operand, Pair};

/// A shift or rotation of a byte: RLC, RRC, RL, RR, SLA, SRA and SRL.
#[derive(Clone, Copy, Debug, PartialEq, Eq)]
pub enum Shift {
    RotateLeft,
    RotateRight,
    RotateLeftThroughCarry,
    RotateRightThroughCarry,
    Left,
    ArithmeticRight,
    LogicalRight,
}

/// What an operation of the prefix CBh does with a byte: a shift, or BIT, RES or SET of a bit.
#[derive(Clone, Copy, Debug, PartialEq, Eq)]
pub enum BitOp {
    Shift(Shift),
    Test(u8),
    Reset(u8),
    Set(u8),
}

/// Which way a block instruction moves.
#[derive(Clone, Copy, Debug, PartialEq, Eq)]
pub enum Direction {
    Up,
    Down,
}

/// Whether a block instruction goes on.
#[derive(Clone, Copy, Debug, PartialEq, Eq)]
pub enum Repeat {
    Once,
    Repeating,
}

/// An operation of the prefix EDh.
#[derive(Clone, Copy, Debug, PartialEq, Eq)]
pub enum ExtendedOp {
    /// IN r, (C).
    Input(Operand),
    /// OUT (C), r.
    Output(Operand),
    /// SBC HL, ss.
    SubtractBorrowPair(Pair),
    /// ADC HL, ss.
    AddCarryPair(Pair),
    /// LD (nn), ss.
    StorePair(Pair, u16),
    /// LD ss, (nn).
    LoadPair(Pair, u16),
    /// NEG.
    Negate,
    /// RETN.
    ReturnFromNonMaskable,
    /// RETI.
    ReturnFromInterrupt,
    /// IM.
    InterruptMode(u8),
    /// LD I, A.
    SetInterruptPage,
    /// LD R, A.
    SetRefresh,
    /// LD A, I.
    LoadInterruptPage,
    /// LD A, R.
    LoadRefresh,
    /// RRD.
    RotateDigitsRight,
    /// RLD.
    RotateDigitsLeft,
    /// LDI, LDD, LDIR, LDDR.
    CopyBlock(Direction, Repeat),
    /// CPI, CPD, CPIR, CPDR.
    SearchBlock(Direction, Repeat),
    /// INI, IND, INIR, INDR.
    InputBlock(Direction, Repeat),
    /// OUTI, OUTD, OTIR, OTDR.
    OutputBlock(Direction, Repeat),
}

/// The index register that a prefix names.
#[derive(Clone, Copy, Debug, PartialEq, Eq)]
pub enum IndexRegister {
    Ix,
    Iy,
}

/// An operation with the byte at an index register and a displacement.
#[derive(Clone, Copy, Debug, PartialEq, Eq)]
pub enum IndexedOp {
    Increment,
    Decrement,
    StoreImmediate(u8),
    Load(Operand),
    Store(Operand),
    Arithmetic(Arithmetic),
    Bits(BitOp),
}

/// An operation of the Z80 with its operands.
#[derive(Clone, Copy, Debug, PartialEq, Eq)]
pub enum OpZ80 {
    /// One of the 8080's, with the Z80's flags.
    Shared(Op),
    ExchangeAf,
    ExchangeAll,
    JumpRelative(u8),
    JumpRelativeIf(Condition, u8),
    DecrementJump(u8),
    Bits(BitOp, Operand),
    Extended(ExtendedOp),
    /// One of the 8080's, with an index register in the place of HL.
    WithIndex(IndexRegister, Op),
    /// An index register, the displacement, and what is done with the byte there.
    Indexed(IndexRegister, u8, IndexedOp),
}

/// An operation of the Z80, and the number of its bytes.
#[derive(Clone, Copy, Debug, PartialEq, Eq)]
pub struct DecodedZ80 {
    pub op: OpZ80,
    pub length: u16,
}
