//! What expressions are made of.

use crate::names::Name;

/// What stands between two operands.
/// CP/M 2.2 Operating System Manual, "CP/M Assembler", "Arithmetic and Logical Operators".
#[derive(Clone, Copy, Debug, PartialEq, Eq)]
pub enum Operator {
    Or,
    Xor,
    And,
    Add,
    Subtract,
    Multiply,
    Divide,
    Modulo,
    ShiftLeft,
    ShiftRight,
}

/// What stands before one operand.
#[derive(Clone, Copy, Debug, PartialEq, Eq)]
pub enum Prefix {
    Not,
    Plus,
    Minus,
}

/// An operand: a number or a short text, a name, or `$`, the address of the statement.
#[derive(Clone, Copy, Debug, PartialEq, Eq)]
pub enum Atom {
    Number(u16),
    Named(Name),
    Here,
}

/// A part of an expression.
#[derive(Clone, Copy, Debug, PartialEq, Eq)]
pub enum Token {
    Atom(Atom),
    Operator(Operator),
    Not,
    Open,
    Close,
}
